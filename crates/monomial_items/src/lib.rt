//! The items of reference tensors: the integrals over the reference cell of the products of a monomial's functions.
#![tactic(auto)]

mod integral;
mod kept;
pub mod laws;
mod rows;

pub use integral::integrals;
pub use kept::{KeptRows, kept_rows};
pub use rows::items;

#[cfg(test)]
mod tests;
