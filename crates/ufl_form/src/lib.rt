//! Forms: sums of integrals over the cells, and the operators on them, as trees that obey the typing table.
//!
//! A `Form` is made by its builders alone. Each of them gives the tree, or refuses it exactly where the table or the limits do: the table
//! stands in `specs/Table.antt`, the pattern sets, by which a form has an argument or none, in `specs/Patterns.antt`.
#![tactic(auto)]

mod arguments;
mod form;
mod form_tree;
pub mod laws;
mod pattern_set;
mod table;
#[cfg(test)]
mod tests;
mod tree_patterns;

pub use form::{Form, patterns};
pub use form_tree::FormTree;
pub use pattern_set::{Numbers, PatternSet};
