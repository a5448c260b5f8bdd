// The byte layout that tables and images share, a table's cells, an image's instructions, and the refusals.
#![tactic(auto)]

pub mod cell;
pub mod header;
pub mod image;
pub mod instr;
pub mod layout;
mod operand;
pub mod refusal;
