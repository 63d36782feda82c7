//! From the weight of a form's monomials over its table of elements to their weight over the layout of its local
//! values.
//!
//! The crate has no code: each function of `laws` states what is proved of the definitions in `specs/`.
#![tactic(auto)]

pub mod laws;
