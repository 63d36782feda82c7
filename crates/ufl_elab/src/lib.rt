//! Form files as values: the statements of a file become the forms that it exports.
//!
//! Statements are taken one by one. Inside one, inner parts come before outer ones, a name before its arguments and the
//! left before the right; the first part that has no value refuses the file, with the line of its statement and its
//! word.
#![tactic(auto)]

mod bound;
mod evaluation;
mod exports;
mod head;
pub mod laws;
mod names;
mod program;
mod shared;
mod statements;
#[cfg(test)]
mod tests;

pub use program::{Named, UflProgram};
pub use statements::elaborate;
