// The translation of tables into images.
#![tactic(auto)]

mod emit;
mod formals;
mod image;
mod writer;

pub use image::translate;
