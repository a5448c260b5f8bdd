// Tables of definitions: whether bytes are one, and what is wrong with them otherwise.
#![tactic(auto)]

mod candidate;
mod cells;
mod expression;
mod table;

pub use cells::Cells;
pub use table::{Table, accept};
