// The header of a table or an image.
ghost use Rattle.std.specs.Prelude.{◌≡◌, ◌≤◌, length, MatchOption};
ghost use Rattle.format.specs.Layout.{kind_byte, header_bytes};
ghost use Rattle.format.specs.Headers.{most_formals, KindOf, Headed, HeaderAt};

use language::{MAX_FORMALS, NAMES};

#[derive(Clone, Copy, PartialEq, Eq, Debug)]
pub enum Kind {
    Function,
    Variable,
}

// A byte that stands for no kind.
#[derive(Clone, Copy, PartialEq, Eq, Debug)]
pub struct UnknownKind(pub u8);

impl TryFrom<u8> for Kind {
    type Error = UnknownKind;

    ghost try_from_gives = { KindOf };

    fn try_from(byte: u8) -> Result<Kind, UnknownKind> {
        match byte {
            0 => Ok(Kind::Function),
            1 => Ok(Kind::Variable),
            _ => Err(UnknownKind(byte)),
        }
    }
}

impl From<Kind> for u8 {
    ghost from_gives = { λ kind byte. byte ≡ kind_byte kind };

    fn from(kind: Kind) -> u8 {
        match kind {
            Kind::Function => 0,
            Kind::Variable => 1,
        }
    }
}

impl Kind {
    fn most_formals(self) -> u8
        ensures { result ≡ most_formals self }
    {
        match self {
            Kind::Function => MAX_FORMALS,
            Kind::Variable => 0,
        }
    }
}

// What a header says besides the number of cells or instructions. A table has height 0.
#[derive(Clone, Copy, PartialEq, Eq, Debug)]
pub struct Header {
    pub height: u16,
    pub kind: Kind,
    pub number: u8,
    pub formals: u8,
}

impl Header {
    // None where a byte after the height is out of its range.
    pub fn read(bytes: &[u8]) -> Option<Header>
        ensures { MatchOption result (8 ≤ length bytes.now → Headed bytes.now → ⊥) (HeaderAt bytes.now) }
    {
        let [_, _, low, high, kind, number, formals, 0, ..] = bytes else {
            return None;
        };
        let kind = Kind::try_from(*kind).ok()?;
        if *number >= NAMES || *formals > kind.most_formals() {
            return None;
        }
        Some(Header {
            height: u16::from_le_bytes([*low, *high]),
            kind,
            number: *number,
            formals: *formals,
        })
    }

    // The eight bytes, with the number of cells or instructions.
    pub fn to_bytes(self, count: u16) -> [u8; 8]
        ensures { result ≡ header_bytes count self }
    {
        let [low, high] = count.to_le_bytes();
        let [height_low, height_high] = self.height.to_le_bytes();
        [
            low,
            high,
            height_low,
            height_high,
            self.kind.into(),
            self.number,
            self.formals,
            0,
        ]
    }
}
