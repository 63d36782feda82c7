//! Lowering: each component of a typed tree as a tree in index notation.
//!
//! `specs/` has the tree that each node is lowered to (`Lowering`), and `laws` what is proved of it: it means what the node means, and
//! the node's weight bounds it. The crate has no code yet.
#![tactic(auto)]

pub mod laws;
