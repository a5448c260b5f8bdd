// The memory of an image, and how far its translation has come.
ghost use Rattle.std.specs.Prelude.{◌≡◌, ◌+◌, ◌*◌, ◌<◌, ◌≤◌, [], ◌∷◌, length};

use format::instr::Instr;
use format::layout::HEADER_LEN;

// Writes an image of `count` instructions into bytes that have room for it.
#[derive(Debug, Drop)]
pub(crate) struct Writer<'a> {
    pub(crate) bytes: &'a mut [u8],
    pub(crate) count: u16,
    // The next cell.
    pub(crate) next: u16,
    // Where the next instruction goes.
    pub(crate) end: u16,
    ghost few: { count ≤ 6144 },
    ghost long: { 8 + 5 * count ≤ length bytes.now },
}

impl<'a> Writer<'a> {
    ghost use Rattle.translation.specs.Writing.{Emitted, Passed, Put};

    pub(crate) fn skip_cell(&mut self)
        requires { self.old.next < 65535 }
        ensures { Passed self.old self.new 1 0 }
    {
        self.next += 1;
    }

    // Leaves the place of the next instruction open, and tells its index.
    pub(crate) fn reserve(&mut self) -> u16
        requires { self.old.end < self.old.count }
        ensures passed { Passed self.old self.new 0 1 }
        ensures told { result ≡ self.old.end }
    {
        let at = self.end;
        self.end += 1;
        at
    }

    // Writes the instruction of index `at`.
    pub(crate) fn put(&mut self, at: u16, instr: Instr)
        requires { at < self.old.count }
        ensures { Put self.old self.new at instr }
    {
        let count = self.count as usize;
        let at = at as usize;
        self.bytes[HEADER_LEN + at] = instr.code();
        let operand = HEADER_LEN + count + 4 * at;
        self.bytes[operand..operand + 4].copy_from_slice(&instr.operand().to_le_bytes());
    }

    // Writes the next instruction.
    pub(crate) fn emit(&mut self, instr: Instr)
        requires { self.old.end < self.old.count }
        ensures { Emitted self.old self.new 0 (instr ∷ []) }
    {
        self.put(self.end, instr);
        self.end += 1;
    }
}
