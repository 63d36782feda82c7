//! What the matrix of a form is: its values on the global basis functions, apart from any assembly.
//!
//! The definitions stand in `specs/`. The crate computes nothing: each function of `laws` states what is proved of
//! them.
#![tactic(auto)]

pub mod laws;
