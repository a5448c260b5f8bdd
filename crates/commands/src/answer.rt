// The answers, and the text of each.
ghost use Rattle.std.specs.Prelude.{Some};
ghost use Rattle.commands.specs.Texts.{mistake_text, answer_text};

use crate::command::Mistake;
use format::refusal::Refusal;
use std::fmt;

// An enum and no `Result`, which could have no `Display` of ours.
#[derive(Clone, Copy, PartialEq, Eq, Debug)]
pub enum Answer {
    Accepted,
    Refused(Refusal),
    Error(Mistake),
}

impl fmt::Display for Mistake {
    ghost output = { λ m. Some (mistake_text m) };

    fn fmt<W: fmt::Write>(&self, f: &mut fmt::Formatter<W>) -> fmt::Result {
        match self {
            Mistake::UnknownCommand => {
                f.write_str("unknown command; the commands are: table HEX")
            }
            Mistake::MissingWord => {
                f.write_str("missing word: the command, one blank, then hexadecimal digits")
            }
            Mistake::SurplusWord(column) => {
                write!(f, "one word too many after the blank at column {column}")
            }
            Mistake::NotDigit(column) => {
                write!(f, "no hexadecimal digit (0-9, a-f) at column {column}")
            }
            Mistake::OddDigits => {
                f.write_str("odd number of hexadecimal digits: each byte has two")
            }
            Mistake::OutOfMemory => f.write_str("out of memory"),
        }
    }
}

impl fmt::Display for Answer {
    ghost output = { λ a. Some (answer_text a) };

    fn fmt<W: fmt::Write>(&self, f: &mut fmt::Formatter<W>) -> fmt::Result {
        match self {
            Answer::Accepted => f.write_str("accepted"),
            Answer::Refused(refusal) => write!(f, "refused {refusal}"),
            Answer::Error(mistake) => write!(f, "error {mistake}"),
        }
    }
}
