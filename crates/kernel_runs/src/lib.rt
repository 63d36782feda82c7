//! The statements of planned kernels, and what a run of them gives: definitions and laws.
//!
//! A kernel begins with the volume factor of the cell, its size and the growths of the reference coordinates. Then
//! for each monomial it forms the columns, one factor after the other, the products of the columns with the rows of
//! the monomial's reference tensor, and adds them to the entries of the local tensor. `specs/Planned.antt` has these
//! statements as functions of the plan, and the laws say what their run gives.
#![tactic(auto)]

mod digit;
mod entry;
pub mod laws;
mod strip;

pub use digit::Digit;
pub use entry::Entry;
pub use strip::Strip;
