// The cells of a table.
ghost use Rattle.std.specs.Prelude.{◌≡◌, ◌*◌, ◌≤◌, length, MatchBool, MatchOption};
ghost use Rattle.format.specs.Rows.{codes_of};

use format::cell::Cell;
use format::layout::Layout;
use language::MAX_CELLS;

#[derive(Clone, Copy, PartialEq, Eq, Debug)]
pub struct Cells<'a> {
    rows: Layout<'a>,
    ghost few: { length (codes_of rows) ≤ 2048 },
}

impl<'a> Cells<'a> {
    ghost use Rattle.format.specs.Rows.{ValueAt};
    ghost use Rattle.translator.specs.Tables.{Sized};
    ghost use Rattle.translator.specs.Reading.{Same, Earlier, NoEarlier};
    ghost use Rattle.translator.specs.InCells.{cell_codes, cell_operands, CutInto, CellIn, NoCellIn};

    // None where the bytes are not as many as their header says, or hold no cell or too many.
    pub(crate) fn cut(bytes: &'a [u8]) -> Option<Cells<'a>>
        ensures { MatchOption result (Sized bytes.now → ⊥) (CutInto bytes.now) }
    {
        let rows = Layout::cut_to(bytes, MAX_CELLS)?;
        Some(Cells { rows })
    }

    pub fn len(&self) -> u16
        ensures { result ≡ length (cell_codes self.now) }
    {
        self.rows.len() as u16
    }

    // The cell at `i`, or None where no cell stands there.
    #[inline]
    pub fn cell(&self, i: u16) -> Option<Cell>
        ensures { MatchOption result (NoCellIn self.now i) (CellIn self.now i) }
    {
        Cell::read(self.rows.row(i)?)
    }

    // Whether the operand at `i` is also that of an earlier cell.
    pub(crate) fn repeats(&self, i: u8) -> bool
        ensures { MatchBool result (Earlier (cell_operands self.now) i) (NoEarlier (cell_operands self.now) i) }
    {
        (0..i).any(|j| self.same_operand(j, i))
    }

    fn same_operand(&self, i: u8, j: u8) -> bool
        ensures { MatchBool result (Same (cell_operands self.now) i j) (Same (cell_operands self.now) i j → ⊥) }
    {
        self.operand(i) == self.operand(j)
    }

    fn operand(&self, i: u8) -> Option<i32>
        ensures { MatchOption result (length (cell_codes self.now) ≤ i) (ValueAt (cell_operands self.now) (4 * i)) }
    {
        self.rows.row(i as u16).map(|row| row.operand)
    }
}
