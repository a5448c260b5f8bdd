// Lower-case hexadecimal digits, two to a byte.
ghost use Rattle.std.specs.Prelude.{◌≡◌, ◌<◌, MatchOption};
ghost use Rattle.commands.specs.declared.hex.HexError.TheVariants.{OutOfMemory};
ghost use Rattle.commands.specs.Hex.{digit, IsDigit, FirstNonDigit, Decoded};

use std::alloc::{AllocError, Global};

#[derive(Clone, Copy, PartialEq, Eq, Debug)]
pub enum HexError {
    // the index of the first character that is no digit
    NotDigit(usize),
    OddDigits,
    OutOfMemory,
}

// One for each error type, and by hand, so that a contract can say which error comes.
impl From<AllocError> for HexError {
    ghost from_gives = { λ _ e. e ≡ OutOfMemory };

    fn from(_: AllocError) -> HexError {
        HexError::OutOfMemory
    }
}

// The number that a digit stands for; `None` where `c` is no digit.
#[tactic(auto, unfolding(crate::specs::Hex::digit))]
fn to_digit(c: u8) -> Option<u8>
    ensures { MatchOption result (¬ IsDigit c) (λ d. (d < 16) × (digit d ≡ c)) }
{
    match c {
        b'0'..=b'9' => Some(c - b'0'),
        b'a'..=b'f' => Some(c - b'a' + 10),
        _ => None,
    }
}

// The number of a digit. `unwrap` would test once more that it is one.
fn value(c: u8) -> u8
    requires { IsDigit c }
    ensures { (result < 16) × (digit result ≡ c) }
{
    to_digit(c).unwrap_or(0)
}

// The index of the first character that is no digit.
fn first_non_digit(text: &[u8]) -> Option<usize>
    ensures { FirstNonDigit text.now result }
{
    text.iter().position(|&c| to_digit(c).is_none())
}

// The bytes that a text writes in hexadecimal, the high digit of each first.
pub fn decode(heap: Global, text: &[u8]) -> Result<Vec<u8>, HexError>
    ensures { Decoded text.now result }
{
    if let Some(i) = first_non_digit(text) {
        return Err(HexError::NotDigit(i));
    }
    let (pairs, []) = text.as_chunks::<2>() else {
        return Err(HexError::OddDigits);
    };
    let bytes = pairs
        .iter()
        .map(|&[high, low]| 16 * value(high) + value(low))
        .collect(heap)?;
    Ok(bytes)
}
