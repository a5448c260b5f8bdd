// The commands, and how they are read from the text of a line.
ghost use Rattle.std.specs.Prelude.{◌≡◌, ◌≤◌, length, IfSome, None, Ok};
ghost use Rattle.commands.specs.Commands.{Silent, Parsed, Complete, Operand};

use crate::hex::{self, HexError};
use crate::line::split_word;
use std::alloc::Global;
use std::error::Error;

#[derive(PartialEq, Eq, Debug, Drop)]
pub enum Command {
    // the bytes of a table to check
    Table(Vec<u8>),
}

// What is wrong with a line. The first character has column 1.
#[derive(Clone, Copy, PartialEq, Eq, Debug)]
pub enum Mistake {
    UnknownCommand,
    MissingWord,
    // the column of the blank before that word
    SurplusWord(usize),
    // the column of the first character that is no digit
    NotDigit(usize),
    OddDigits,
    OutOfMemory,
}

impl Error for Mistake {}

// The bytes of the one operand of `line`, which is in hexadecimal.
fn hex_operand(heap: Global, line: &[u8], operands: Option<&[u8]>) -> Result<Vec<u8>, Mistake>
    requires { IfSome operands (λ text. length text.now ≤ length line.now) }
    ensures { Operand (length line.now) operands.entry result }
{
    let text = operands.ok_or(Mistake::MissingWord)?;
    let (word, more) = split_word(text);
    if let Some(more) = more {
        return Err(Mistake::SurplusWord(line.len() - more.len()));
    }
    hex::decode(heap, word).map_err(|error| match error {
        HexError::NotDigit(i) => Mistake::NotDigit(line.len() - word.len() + i + 1),
        HexError::OddDigits => Mistake::OddDigits,
        HexError::OutOfMemory => Mistake::OutOfMemory,
    })
}

// The command on a line, given without its end; an empty line and a comment have none.
pub fn parse(heap: Global, line: &[u8]) -> Result<Option<Command>, Mistake>
    ensures reads { Parsed line.now result }
    ensures silent { Silent line.now → result ≡ Ok None }
    ensures complete { Complete line.now result }
{
    if line.is_empty() || line.starts_with(b"#") {
        return Ok(None);
    }
    let (name, operands) = split_word(line);
    if name == b"table".as_slice() {
        let bytes = hex_operand(heap, line, operands)?;
        return Ok(Some(Command::Table(bytes)));
    }
    Err(Mistake::UnknownCommand)
}
