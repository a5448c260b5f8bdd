// The instructions of an image.
ghost use Rattle.std.specs.Prelude.{◌≡◌, MatchOption};
ghost use Rattle.format.specs.Instrs.{name, code, operand, NoInstr, IsInstr};

use crate::header::{Header, Kind};
use crate::layout::Row;
use crate::operand::{CALL_BASE, call, name};
use language::{Function, Variable};

#[derive(Clone, Copy, PartialEq, Eq, Debug)]
pub enum Instr {
    Push(i32),
    // a formal, by its index from 0
    LoadF(u8),
    LoadG(Variable),
    StoreF(u8),
    StoreG(Variable),
    Pop,
    // an index in the image
    Jump(u16),
    Jz(u16),
    Find(Function),
    // the function, and how many arguments it is given
    Call(Function, u8),
    Ret,
    Bind(Variable),
}

impl Instr {
    // The instruction with this code and operand that may stand in an image with this header and
    // `count` instructions, or None where there is none.
    pub fn read(row: Row, header: Header, count: u16) -> Option<Instr>
        ensures { MatchOption result (NoInstr header count row.code row.operand) (IsInstr header count row.code row.operand) }
    {
        if row.code == 0 {
            return Some(Instr::Push(row.operand));
        }
        let operand = u16::try_from(row.operand).ok()?;
        match row.code {
            1 if operand < header.formals as u16 => Some(Instr::LoadF(operand as u8)),
            2 => name(operand).map(Instr::LoadG),
            3 if operand < header.formals as u16 => Some(Instr::StoreF(operand as u8)),
            4 => name(operand).map(Instr::StoreG),
            5 if operand == 0 => Some(Instr::Pop),
            6 if operand < count => Some(Instr::Jump(operand)),
            7 if operand < count => Some(Instr::Jz(operand)),
            8 => name(operand).map(Instr::Find),
            9 => call(operand).map(|(function, count)| Instr::Call(function, count)),
            10 if operand == 0 && header.kind == Kind::Function => Some(Instr::Ret),
            11 if operand == header.number as u16 && header.kind == Kind::Variable => {
                Some(Instr::Bind(header.number))
            }
            _ => None,
        }
    }

    pub fn name(&self) -> &'static str
        ensures { result.now ≡ name self.now }
    {
        match self {
            Instr::Push(_) => "PUSH",
            Instr::LoadF(_) => "LOADF",
            Instr::LoadG(_) => "LOADG",
            Instr::StoreF(_) => "STOREF",
            Instr::StoreG(_) => "STOREG",
            Instr::Pop => "POP",
            Instr::Jump(_) => "JUMP",
            Instr::Jz(_) => "JZ",
            Instr::Find(_) => "FIND",
            Instr::Call(_, _) => "CALL",
            Instr::Ret => "RET",
            Instr::Bind(_) => "BIND",
        }
    }

    // A method and no conversion: the operand goes with the code.
    pub fn code(&self) -> u8
        ensures { result ≡ code self.now }
    {
        match self {
            Instr::Push(_) => 0,
            Instr::LoadF(_) => 1,
            Instr::LoadG(_) => 2,
            Instr::StoreF(_) => 3,
            Instr::StoreG(_) => 4,
            Instr::Pop => 5,
            Instr::Jump(_) => 6,
            Instr::Jz(_) => 7,
            Instr::Find(_) => 8,
            Instr::Call(_, _) => 9,
            Instr::Ret => 10,
            Instr::Bind(_) => 11,
        }
    }

    pub fn operand(&self) -> i32
        ensures { result ≡ operand self.now }
    {
        match self {
            Instr::Push(value) => *value,
            Instr::LoadF(index) | Instr::StoreF(index) => *index as i32,
            Instr::LoadG(x) | Instr::StoreG(x) | Instr::Bind(x) => *x as i32,
            Instr::Pop | Instr::Ret => 0,
            Instr::Jump(target) | Instr::Jz(target) => *target as i32,
            Instr::Find(function) => *function as i32,
            Instr::Call(function, count) => *function as i32 * CALL_BASE as i32 + *count as i32,
        }
    }
}
