// Why an input or a call is refused.
ghost use Rattle.std.specs.Prelude.{◌≡◌, Some};
ghost use Rattle.format.specs.Refusals.{told, refusal_text};

use std::error::Error;
use std::fmt;

// `Cell` and `Code` carry the index of the first wrong cell or instruction.
#[derive(Clone, Copy, PartialEq, Eq, Debug)]
pub enum Refusal {
    Size,
    Head,
    Cell(u16),
    Shape,
    Twice,
    Nest,
    Short,
    Kind,
    Code(u16),
    Height,
    Busy,
    Full,
    Idle,
    Limit,
}

impl Refusal {
    // A method and no conversion: the number alone is not the refusal.
    pub fn number(&self) -> u8
        ensures { result ≡ (told self.now).number }
    {
        match self {
            Refusal::Size => 1,
            Refusal::Head => 2,
            Refusal::Cell(_) => 3,
            Refusal::Shape => 4,
            Refusal::Twice => 5,
            Refusal::Nest => 6,
            Refusal::Short => 7,
            Refusal::Kind => 8,
            Refusal::Code(_) => 9,
            Refusal::Height => 10,
            Refusal::Busy => 11,
            Refusal::Full => 12,
            Refusal::Idle => 13,
            Refusal::Limit => 14,
        }
    }

    pub fn word(&self) -> &'static str
        ensures { result.now ≡ (told self.now).word }
    {
        match self {
            Refusal::Size => "SIZE",
            Refusal::Head => "HEAD",
            Refusal::Cell(_) => "CELL",
            Refusal::Shape => "SHAPE",
            Refusal::Twice => "TWICE",
            Refusal::Nest => "NEST",
            Refusal::Short => "SHORT",
            Refusal::Kind => "KIND",
            Refusal::Code(_) => "CODE",
            Refusal::Height => "HEIGHT",
            Refusal::Busy => "BUSY",
            Refusal::Full => "FULL",
            Refusal::Idle => "IDLE",
            Refusal::Limit => "LIMIT",
        }
    }

    pub fn index(&self) -> Option<u16>
        ensures { result ≡ (told self.now).index }
    {
        match self {
            Refusal::Cell(i) | Refusal::Code(i) => Some(*i),
            _ => None,
        }
    }
}

impl fmt::Display for Refusal {
    ghost output = { λ refusal. Some (refusal_text refusal) };

    fn fmt<W: fmt::Write>(&self, f: &mut fmt::Formatter<W>) -> fmt::Result {
        let number = self.number();
        let word = self.word();
        match self.index() {
            Some(index) => write!(f, "{number} {word} {index}"),
            None => write!(f, "{number} {word}"),
        }
    }
}

impl Error for Refusal {}
