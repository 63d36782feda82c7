//! Index notation without derivatives by variables and by functions: each is carried out on the tree.
//!
//! `specs/` has the tree that a derivative gives (`Expanding`), and `laws` what is proved of it: the tree keeps its meaning, and
//! whatever bounds its weight bounds the weight of what it becomes. The crate has no code yet.
#![tactic(auto)]

pub mod laws;
