// A header and cells that may be a table: which cell is wrong, and whether two formals are equal.
ghost use Rattle.std.specs.Prelude.{MatchBool, MatchOption};
ghost use Rattle.translator.specs.Reading.{Repeated, NoneRepeated};
ghost use Rattle.translator.specs.InCells.{cell_operands, RightIn, AllRightIn, FirstWrongIn, ExpIn, NoExpIn};

use crate::cells::Cells;
use crate::expression::Extent;
use format::header::Header;

#[derive(Clone, Copy, PartialEq, Eq, Debug)]
pub(crate) struct Candidate<'a> {
    pub(crate) header: Header,
    pub(crate) cells: Cells<'a>,
}

impl<'a> Candidate<'a> {
    // The index of the first wrong cell, or of the first formal that is missing.
    pub(crate) fn first_wrong(&self) -> Option<u16>
        ensures { MatchOption result (AllRightIn self.now.cells self.now.header.formals) (FirstWrongIn self.now.cells self.now.header.formals) }
    {
        let count = self.cells.len().max(self.header.formals as u16);
        (0..count).find(|i| !self.is_right(*i))
    }

    // Whether a cell stands at `i`, a FORMAL among the formals and no FORMAL after.
    fn is_right(&self, i: u16) -> bool
        ensures { MatchBool result (RightIn self.now.cells self.now.header.formals i) (RightIn self.now.cells self.now.header.formals i → ⊥) }
    {
        let among = i < self.header.formals as u16;
        self.cells
            .cell(i)
            .is_some_and(|cell| cell.is_formal() == among)
    }

    // The expression after the formals, or None where none begins there.
    pub(crate) fn read_body(&self) -> Option<Extent>
        ensures { MatchOption result (NoExpIn self.now.cells self.now.header.formals) (ExpIn self.now.cells self.now.header.formals) }
    {
        self.cells.read_expression(self.header.formals as u16)
    }

    // Whether two formals have equal operands.
    pub(crate) fn has_repeated(&self) -> bool
        ensures { MatchBool result (Repeated (cell_operands self.now.cells) self.now.header.formals) (NoneRepeated (cell_operands self.now.cells) self.now.header.formals) }
    {
        (0..self.header.formals).any(|i| self.cells.repeats(i))
    }
}
