//! Form files: the program that a text says, which of its forms are admitted, and the line that is printed of each.
//!
//! A text is read as a whole, then elaborated statement by statement; then its exported forms are admitted in order. The
//! first refusal of these stands for the file.
#![tactic(auto)]

mod admissions;
mod checks;
pub mod laws;
mod program;
#[cfg(test)]
mod tests;

pub use admissions::{Admitted, admission};
pub use checks::check_text;
pub use program::{admitted_program, read_program};
