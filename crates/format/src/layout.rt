// The bytes of a table or an image, cut into their two arrays.
ghost use Rattle.std.specs.Prelude.{◌≡◌, ◌^◌, ◌<◌, length, MatchOption};
ghost use Rattle.format.specs.Layout.{Parallel};

// Bytes before the codes.
pub const HEADER_LEN: usize = 8;

// Bytes of a cell or an instruction: a code and an operand.
pub const ROW_LEN: usize = 5;

// Two arrays, as they lie in the bytes: nothing is copied.
#[derive(Clone, Copy, PartialEq, Eq, Debug)]
pub struct Layout<'a> {
    codes: &'a [u8],
    operands: &'a [[u8; 4]],
    ghost few: { length codes.now < 2 ^ 16 },
    ghost parallel: { Parallel codes.now operands.now },
}

// A code with its operand.
#[derive(Clone, Copy, PartialEq, Eq, Debug)]
pub struct Row {
    pub code: u8,
    pub operand: i32,
}

impl<'a> Layout<'a> {
    ghost use Rattle.format.specs.Rows.{codes_of, operands_of, Whole, Cut, SizedTo, CutTo, RowAt, NoRow};

    // None where the bytes are not as many as their header says.
    pub fn cut(bytes: &'a [u8]) -> Option<Layout<'a>>
        ensures { MatchOption result (Whole bytes.now → ⊥) (λ l. Cut bytes.now (codes_of l) (operands_of l)) }
    {
        let (header, rows) = bytes.split_at_checked(HEADER_LEN)?;
        let count = u16::from_le_bytes([header[0], header[1]]) as usize;
        if rows.len() != ROW_LEN * count {
            return None;
        }
        let codes = &bytes[HEADER_LEN..HEADER_LEN + count];
        let (operands, _) = rows[count..].as_chunks();
        Some(Layout { codes, operands })
    }

    // The same of one row at least and `most` at most.
    pub fn cut_to(bytes: &'a [u8], most: usize) -> Option<Layout<'a>>
        ensures { MatchOption result (SizedTo most bytes.now → ⊥) (CutTo most bytes.now) }
    {
        let layout = Layout::cut(bytes)?;
        let count = layout.len();
        if count == 0 || count > most {
            return None;
        }
        Some(layout)
    }

    pub fn len(&self) -> usize
        ensures { result ≡ length (codes_of self.now) }
    {
        self.codes.len()
    }

    // The row at `i`, or None past the end.
    pub fn row(&self, i: u16) -> Option<Row>
        ensures { MatchOption result (NoRow self.now i) (RowAt self.now i) }
    {
        let i = i as usize;
        let code = *self.codes.get(i)?;
        let operand = i32::from_le_bytes(self.operands[i]);
        Some(Row { code, operand })
    }
}
