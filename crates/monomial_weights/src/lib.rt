//! What an admitted weight says of a monomial over a layout: that its products and items are small.
//!
//! The crate has no code: each function of `laws` states what is proved of the definitions in `specs/`.
#![tactic(auto)]

pub mod laws;
