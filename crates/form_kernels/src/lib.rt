//! The functions of a form: one for the cells of each marker that it names, and one for all other cells.
#![tactic(auto)]

mod form_functions;
mod names;
#[cfg(test)]
mod tests;

pub use form_functions::{FormFunctions, functions};
