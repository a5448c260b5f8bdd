// The limits of Impcore's definitions. The language itself is in specs/.
#![tactic(auto)]

pub type Variable = u8;

pub type Function = u8;

// Variables are numbered below this, and so are functions.
pub const NAMES: u8 = 64;

pub const MAX_FORMALS: u8 = 15;

// Of a call.
pub const MAX_ARGUMENTS: u16 = 15;

// Of a BEGIN.
pub const MAX_PARTS: u16 = 2047;

// The expression of a definition stands at depth 1.
pub const MAX_DEPTH: u16 = 200;

// One for each formal and each node of the expression.
pub const MAX_CELLS: usize = 2048;
