//! Derivatives by variables and by functions, carried out on trees in index notation, as code.
//!
//! `expand` carries out all derivatives of a tree, `by_variable` and `gateaux` one more beside them; `derivative`
//! takes a tree that has none. The trees that they give are defined in the crate `perturb`: they mean what the
//! derivatives mean.
#![tactic(auto)]

mod above;
mod derivation;
mod expanding;
mod rules;
#[cfg(test)]
mod tests;

pub use derivation::{Derivation, derivative};
pub use expanding::{by_variable, expand, gateaux};
pub use rules::{is_same_role, of_role};
