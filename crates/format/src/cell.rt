// The cells of a table.
ghost use Rattle.std.specs.Prelude.{◌≡◌, MatchOption};
ghost use Rattle.format.specs.Cells.{NoCell, IsCell, parts, is_formal};

use crate::layout::Row;
use crate::operand::{call, name};
use language::{Function, MAX_PARTS, Variable};

#[derive(Clone, Copy, PartialEq, Eq, Debug)]
pub enum Cell {
    Literal(i32),
    Var(Variable),
    Set(Variable),
    If,
    While,
    // how many parts follow
    Begin(u16),
    // the function, and how many arguments follow
    Apply(Function, u8),
    Formal(Variable),
}

impl Cell {
    // The cell that has this code and operand, or None where no cell has them.
    pub fn read(row: Row) -> Option<Cell>
        ensures { MatchOption result (NoCell row.code row.operand) (IsCell row.code row.operand) }
    {
        if row.code == 0 {
            return Some(Cell::Literal(row.operand));
        }
        let operand = u16::try_from(row.operand).ok()?;
        Some(match row.code {
            1 => Cell::Var(name(operand)?),
            2 => Cell::Set(name(operand)?),
            3 if operand == 0 => Cell::If,
            4 if operand == 0 => Cell::While,
            5 if operand <= MAX_PARTS => Cell::Begin(operand),
            6 => {
                let (function, count) = call(operand)?;
                Cell::Apply(function, count)
            }
            7 => Cell::Formal(name(operand)?),
            _ => return None,
        })
    }

    // How many parts follow a cell that begins an expression. A FORMAL begins none.
    pub fn parts(&self) -> Option<u16>
        ensures { result ≡ parts self.now }
    {
        match self {
            Cell::Literal(_) | Cell::Var(_) => Some(0),
            Cell::Set(_) => Some(1),
            Cell::If => Some(3),
            Cell::While => Some(2),
            Cell::Begin(count) => Some(*count),
            Cell::Apply(_, count) => Some(*count as u16),
            Cell::Formal(_) => None,
        }
    }

    // By `matches!`: an equality would want the variable.
    pub fn is_formal(&self) -> bool
        ensures { result ≡ is_formal self.now }
    {
        matches!(self, Cell::Formal(_))
    }
}
