//! What the passes of the compiler hand over: sums of monomials, the weight that bounds them, and the layout of local values.
//!
//! These are data with no pass of their own: each is made by one pass and taken by the next ones. `specs/` says when a layout
//! is lawful and which functions have their place in it; what monomials mean stands in `ufl_meaning`.
#![tactic(auto)]

pub mod laws;
mod layout;
mod mono;
mod weight;

pub use layout::{CoefPlace, Layout};
pub use mono::{Atom, Mono};
pub use weight::Weight;
