// A listing of stack code, with the height of the operand stack at each instruction.
#![tactic(auto)]

ghost use Rattle.std.specs.Prelude.{◌≡◌, length, IfOk};
ghost use Rattle.listing.specs.Lines.{instrs_in};
ghost use Rattle.listing.specs.Passes.{Unknown};
ghost use Rattle.listing.specs.Lists.{instrs_of, Lists};

use crate::height::{follow, note};
use format::instr::Instr;
use std::alloc::{AllocError, Global};

pub mod display;
mod height;
pub mod list;

#[derive(Clone, Copy, PartialEq, Eq, Debug)]
pub(crate) struct Line {
    pub(crate) instr: Instr,
    // None where it is not known
    pub(crate) height: Option<u16>,
}

#[derive(PartialEq, Eq, Debug, Drop)]
pub struct Listing {
    lines: Vec<Line>,
}

impl Listing {
    // Finds the heights in one pass from the first instruction to the last: from an instruction that
    // gets its height later, by a jump back, the pass does not go on.
    pub fn new(heap: Global, instrs: Vec<Instr>) -> Result<Listing, AllocError>
        ensures { IfOk result (Lists instrs.items) }
    {
        let lines: Vec<Line> = instrs
            .into_iter()
            .map(|instr| Line {
                instr,
                height: None,
            })
            .collect(heap)?;
        Ok(Listing::follow_all(lines))
    }

    // The listing of lines whose heights are not known yet.
    pub(crate) fn follow_all(unknown: Vec<Line>) -> Listing
        requires { Unknown unknown.items }
        ensures { Lists (instrs_in unknown.items) result }
    {
        let mut lines = unknown;
        note(&mut lines, 0, 0);
        // by index, since an instruction's successors stand anywhere
        for p in 0..lines.len() {
            follow(&mut lines, p);
        }
        Listing { lines }
    }

    pub fn len(&self) -> usize
        ensures { result ≡ length (instrs_of self.now) }
    {
        self.lines.len()
    }
}
