// Expressions in prefix order.
ghost use Rattle.std.specs.Prelude.{◌≡◌, ◌≤◌, MatchOption};
ghost use Rattle.translator.specs.Reading.{lift_of, own};
ghost use Rattle.translator.specs.InCells.{ExpIn, NoExpIn, ExpsIn, NoExpsIn};

use crate::cells::Cells;
use format::cell::Cell;

// Of an expression or a list of parts: the index after its last cell, the greatest depth in it, how many instructions it takes, and its height.
#[derive(Clone, Copy, PartialEq, Eq, Debug)]
pub(crate) struct Extent {
    pub(crate) end: u16,
    pub(crate) depth: u16,
    pub(crate) count: u16,
    pub(crate) height: u16,
}

// How many values each part leaves below the next.
fn lift_of(cell: &Cell) -> u16
    ensures { result ≡ lift_of cell.now }
{
    match cell {
        Cell::Apply(_, _) => 1,
        _ => 0,
    }
}

// How many instructions an expression has besides those of its parts.
fn own_count(cell: &Cell) -> u16
    ensures { result ≡ own cell.now }
{
    match cell {
        Cell::Literal(_) | Cell::Var(_) | Cell::Set(_) => 1,
        Cell::If | Cell::Apply(_, _) => 2,
        Cell::While => 4,
        Cell::Begin(0) => 1,
        Cell::Begin(count) => *count - 1,
        Cell::Formal(_) => 0,
    }
}

impl<'a> Cells<'a> {
    // The expression that begins at `at`, or None where none does.
    // Inlined into `read_parts` for speed: a part of one cell then takes no call.
    #[inline(always)]
    #[cycle(reading)]
    pub(crate) fn read_expression(&self, at: u16) -> Option<Extent>
        ensures { MatchOption result (NoExpIn self.now at) (ExpIn self.now at) }
    {
        let cell = self.cell(at)?;
        let parts = cell.parts()?;
        let own = own_count(&cell);
        // An expression of one cell, which has no parts to read.
        if parts == 0 {
            return Some(Extent {
                end: at + 1,
                depth: 1,
                count: own,
                height: 1,
            });
        }
        let inner = self.read_parts(at + 1, parts, lift_of(&cell))?;
        Some(Extent {
            end: inner.end,
            depth: inner.depth + 1,
            count: inner.count + own,
            height: inner.height.max(1),
        })
    }

    // The `count` expressions that begin at `at`, one after the other, or None where there are fewer. Each leaves `lift` values below the next.
    // By recursion, as lists of parts are defined: the first and the rest.
    #[cycle(reading)]
    fn read_parts(&self, at: u16, count: u16, lift: u16) -> Option<Extent>
        requires { lift ≤ 1 }
        ensures { MatchOption result (NoExpsIn self.now at count) (ExpsIn self.now at count lift) }
    {
        if count == 0 {
            return Some(Extent {
                end: at,
                depth: 0,
                count: 0,
                height: 0,
            });
        }
        let first = self.read_expression(at)?;
        let rest = self.read_parts(first.end, count - 1, lift)?;
        Some(Extent {
            end: rest.end,
            depth: first.depth.max(rest.depth),
            count: first.count + rest.count,
            height: first.height.max(lift + rest.height),
        })
    }
}
