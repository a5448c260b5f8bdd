// An image: the header and the instructions that bytes hold.
ghost use Rattle.std.specs.Prelude.{◌≡◌, ◌≤◌, length, MatchOption};
ghost use Rattle.format.specs.Rows.{codes_of};

use crate::header::Header;
use crate::instr::Instr;
use crate::layout::Layout;
use crate::refusal::Refusal;

pub const MAX_INSTRS: usize = 6144;

pub const MAX_HEIGHT: u16 = 2048;

#[derive(Clone, Copy, PartialEq, Eq, Debug)]
pub struct Image<'a> {
    pub header: Header,
    instrs: Layout<'a>,
    ghost few: { length (codes_of instrs) ≤ 6144 },
}

impl<'a> Image<'a> {
    ghost use Rattle.format.specs.Images.{codes_of_image, InstrIn, NoInstrIn, EachInstr, FirstWrong, ImageAnswered};

    // The image that the bytes are, or the first thing that is wrong with them.
    pub fn read(bytes: &'a [u8]) -> Result<Image<'a>, Refusal>
        ensures { ImageAnswered bytes.now result }
    {
        let instrs = Layout::cut_to(bytes, MAX_INSTRS).ok_or(Refusal::Size)?;
        let header = Header::read(bytes).ok_or(Refusal::Head)?;
        if header.height == 0 || header.height > MAX_HEIGHT {
            return Err(Refusal::Head);
        }
        let image = Image { header, instrs };
        match image.first_wrong() {
            Some(index) => Err(Refusal::Code(index)),
            None => Ok(image),
        }
    }

    pub fn len(&self) -> usize
        ensures { result ≡ length (codes_of_image self.now) }
    {
        self.instrs.len()
    }

    // The instruction at `i`, or None where no instruction stands there.
    pub fn instr(&self, i: u16) -> Option<Instr>
        ensures { MatchOption result (NoInstrIn self.now i) (InstrIn self.now i) }
    {
        // a proof knows that these are bytes once they are read
        let _formals = self.header.formals;
        let _number = self.header.number;
        let row = self.instrs.row(i)?;
        Instr::read(row, self.header, self.len() as u16)
    }

    // The index of the first row that is no instruction.
    fn first_wrong(&self) -> Option<u16>
        ensures { MatchOption result (EachInstr self.now) (FirstWrong self.now) }
    {
        (0..self.len() as u16).find(|i| self.instr(*i).is_none())
    }
}
