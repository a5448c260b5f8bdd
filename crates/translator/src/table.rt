// The check of a table.
ghost use Rattle.translator.specs.Verdict.{Answered};

use crate::candidate::Candidate;
use crate::cells::Cells;
use format::header::Header;
use format::refusal::Refusal;
use language::MAX_DEPTH;

// An accepted table.
#[derive(Clone, Copy, PartialEq, Eq, Debug)]
pub struct Table<'a> {
    pub header: Header,
    pub cells: Cells<'a>,
    // how many instructions its image has
    pub count: u16,
    // the height of its expression
    pub height: u16,
}

// The table that the bytes are, or the first thing that is wrong with them.
pub fn accept(table: &[u8]) -> Result<Table<'_>, Refusal>
    ensures { Answered table.now result }
{
    let cells = Cells::cut(table).ok_or(Refusal::Size)?;
    let header = Header::read(table).ok_or(Refusal::Head)?;
    if header.height != 0 {
        return Err(Refusal::Head);
    }
    let candidate = Candidate { header, cells };
    if let Some(index) = candidate.first_wrong() {
        return Err(Refusal::Cell(index));
    }
    let body = candidate.read_body().ok_or(Refusal::Shape)?;
    if body.end < cells.len() {
        return Err(Refusal::Shape);
    }
    if candidate.has_repeated() {
        return Err(Refusal::Twice);
    }
    if body.depth > MAX_DEPTH {
        return Err(Refusal::Nest);
    }
    Ok(Table {
        header,
        cells,
        count: body.count + 1,
        height: body.height,
    })
}
