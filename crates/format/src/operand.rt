// What an operand that is no number of its own stands for.
ghost use Rattle.std.specs.Prelude.{◌≡◌, ◌+◌, ◌*◌, ◌<◌, ◌≤◌, MatchOption};

use language::{MAX_ARGUMENTS, NAMES};

// A call's operand is its function times this, plus the number of arguments.
pub(crate) const CALL_BASE: u16 = MAX_ARGUMENTS + 1;

// A variable or a function.
pub(crate) fn name(operand: u16) -> Option<u8>
    ensures { MatchOption result (64 ≤ operand) (λ x. (x ≡ operand) × (x < 64)) }
{
    if operand < NAMES as u16 {
        Some(operand as u8)
    } else {
        None
    }
}

// A function and the number of its arguments.
pub(crate) fn call(operand: u16) -> Option<(u8, u8)>
    ensures { MatchOption result (1024 ≤ operand) (λ c. (16 * c.0 + c.1 ≡ operand) × (c.0 < 64) × (c.1 < 16)) }
{
    let function = name(operand / CALL_BASE)?;
    Some((function, (operand % CALL_BASE) as u8))
}
