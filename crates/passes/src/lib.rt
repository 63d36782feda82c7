//! Passes over index notation, as code.
//!
//! `lower` gives a component of a typed tree in index notation: the tree that the crate `lower` defines, which means what the
//! expression means there and which the weight of the expression bounds.
#![tactic(auto)]

pub mod above;
mod indices;
mod lowering;
pub mod names;
pub mod nodes;
mod pairs;
mod pieces;
mod shares;
mod summed;
#[cfg(test)]
mod tests;

pub use lowering::lower;
