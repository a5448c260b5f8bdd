// The text of a listing. Its layout is tested, not proved: no contract speaks of a width.
use crate::Listing;
use std::fmt;

// One line for each instruction: its index, name, operand and height, or `-` where that is unknown.
impl fmt::Display for Listing {
    fn fmt<W: fmt::Write>(&self, f: &mut fmt::Formatter<W>) -> fmt::Result {
        for (i, line) in self.lines.iter().enumerate() {
            let name = line.instr.name();
            let operand = line.instr.operand();
            write!(f, "  {i:>4}  {name:<6}  {operand:>11}  height ")?;
            match line.height {
                Some(height) => writeln!(f, "{height:>4}")?,
                None => writeln!(f, "{:>4}", "-")?,
            }
        }
        Ok(())
    }
}
