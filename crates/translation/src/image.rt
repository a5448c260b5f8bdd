// The translation of a table into an image.
ghost use Rattle.std.specs.Prelude.{◌≡◌, ◌+◌, ◌*◌, ◌≤◌, length};
ghost use Rattle.translation.specs.Laws.{Laws};
ghost use Rattle.translation.specs.Imaging.{HoldsSome, CodeWritten, Imaged, last_of};
ghost use Rattle.translation.specs.Outcome.{Translates};

use crate::emit::Source;
use crate::formals::Formals;
use crate::writer::Writer;
use format::header::{Header, Kind};
use format::instr::Instr;
use format::layout::{HEADER_LEN, ROW_LEN};
use format::refusal::Refusal;
use language::{MAX_FORMALS, Variable};
use translator::{Table, accept};

// Writes the image of a table over the front of `out` and tells its length. A refusal leaves `out` as it was.
pub fn translate(table: &[u8], out: &mut [u8]) -> Result<usize, Refusal>
    ensures translates { Translates table.now out.old out.new result }
    ensures lawful { Laws }
{
    let table = accept(table)?;
    let len = HEADER_LEN + ROW_LEN * table.count as usize;
    if out.len() < len {
        return Err(Refusal::Short);
    }
    write_image(&table, out);
    Ok(len)
}

fn write_image(table: &Table, out: &mut [u8])
    requires holds { HoldsSome table.now }
    requires room { 8 + 5 * table.now.count ≤ length out.old }
    ensures { Imaged table.now out.old out.new }
{
    let header = Header {
        height: table.height,
        ..table.header
    };
    out[..HEADER_LEN].copy_from_slice(&header.to_bytes(table.count));
    write_code(table, out);
}

// Writes the instructions.
fn write_code(table: &Table, out: &mut [u8])
    requires holds { HoldsSome table.now }
    requires room { 8 + 5 * table.now.count ≤ length out.old }
    ensures { CodeWritten table.now out.old out.new }
{
    let formals = table.header.formals;
    // On the stack, since nothing is allocated. A definition has no more formals.
    let mut names = [0; MAX_FORMALS as usize];
    let source = Source {
        cells: table.cells,
        formals: Formals::read(&table.cells, &mut names[..formals as usize]),
    };
    let mut writer = Writer {
        bytes: out,
        count: table.count,
        next: formals as u16,
        end: 0,
    };
    source.translate_expression(&mut writer);
    writer.emit(last_instr(table.header));
}

// The instruction that ends an image.
fn last_instr(header: Header) -> Instr
    ensures { result ≡ last_of header }
{
    match header.kind {
        Kind::Function => Instr::Ret,
        Kind::Variable => Instr::Bind(header.number),
    }
}
