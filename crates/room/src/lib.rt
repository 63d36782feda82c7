//! The room of a cell: a bound on every number that a kernel comes to there, from the form's weight and the cell alone.
//!
//! Where it is below 2^127 no step of the kernel passes, and where the room of an entry's sums is, no sum of shares does.
//! The crate has no code yet: each function of `laws` states what is proved of the definitions in `specs/`.
#![tactic(auto)]

pub mod laws;
mod numbers;

pub use numbers::CellNumbers;
