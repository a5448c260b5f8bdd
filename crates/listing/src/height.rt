// The height of the operand stack at each instruction.
ghost use Rattle.std.specs.Prelude.{◌≡◌, ◌<◌, length, MatchOption};
ghost use Rattle.format.specs.declared.instr.Instr.{Instr};
ghost use Rattle.format.specs.Heights.{needs, leaves, At};
ghost use Rattle.listing.specs.Lines.{instrs_in, heights_in};
ghost use Rattle.listing.specs.Passes.{After, NoneAfter, Notes, Here, Onward, Stepped};

use crate::Line;
use format::instr::Instr;

// How many values an instruction takes off the stack.
fn needs(instr: Instr) -> u16
    ensures { result ≡ needs instr }
{
    match instr {
        Instr::Push(_) | Instr::LoadF(_) | Instr::LoadG(_) | Instr::Jump(_) | Instr::Find(_) => 0,
        Instr::StoreF(_)
        | Instr::StoreG(_)
        | Instr::Pop
        | Instr::Jz(_)
        | Instr::Ret
        | Instr::Bind(_) => 1,
        Instr::Call(_, count) => count as u16,
    }
}

// How many values it then puts there.
fn leaves(instr: Instr) -> u16
    ensures { result ≡ leaves instr }
{
    match instr {
        Instr::Push(_)
        | Instr::LoadF(_)
        | Instr::LoadG(_)
        | Instr::StoreF(_)
        | Instr::StoreG(_)
        | Instr::Call(_, _) => 1,
        Instr::Pop | Instr::Jump(_) | Instr::Jz(_) | Instr::Find(_) | Instr::Ret | Instr::Bind(_) =>
            0,
    }
}

// The height after an instruction, or None where it needs more values or the height is above 65,535.
fn after(instr: Instr, height: u16) -> Option<u16>
    ensures { MatchOption result (NoneAfter instr height) (After instr height) }
{
    let rest = height.checked_sub(needs(instr))?;
    rest.checked_add(leaves(instr))
}

// Notes a height at a place of the code, unless it has one.
pub(crate) fn note(lines: &mut [Line], place: usize, height: u16)
    ensures { Notes (Here place height) lines.old lines.new }
{
    // By the index: after `get_mut` of a slice a proof knows none of its elements.
    if place < lines.len() {
        lines[place].height.get_or_insert(height);
    }
}

// Notes a height at each place where control goes from an instruction at `p`.
fn note_onward(lines: &mut [Line], p: usize, instr: Instr, height: u16)
    requires { p < length lines.old }
    ensures { Notes (Onward instr p height) lines.old lines.new }
{
    match instr {
        Instr::Jump(target) => note(lines, target as usize, height),
        Instr::Jz(target) => {
            note(lines, target as usize, height);
            note(lines, p + 1, height);
        }
        Instr::Ret | Instr::Bind(_) => {}
        _ => note(lines, p + 1, height),
    }
}

// The same with the height after the instruction at `p`, where there is one.
pub(crate) fn follow(lines: &mut [Line], p: usize)
    requires { p < length lines.old }
    ensures { (i : Instr) → At (instrs_in lines.old) p i → Notes (Stepped (heights_in lines.old) i p) lines.old lines.new }
{
    let line = lines[p];
    if let Some(height_after) = line.height.and_then(|height| after(line.instr, height)) {
        note_onward(lines, p, line.instr, height_after);
    }
}
