// The command lines that the console reads, and the lines that it answers with.
#![tactic(auto)]

pub mod answer;
pub mod command;
mod hex;
pub mod line;
