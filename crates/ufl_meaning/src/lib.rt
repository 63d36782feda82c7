//! What typed trees, trees in index notation and forms mean, as polynomials: definitions and their laws.
//!
//! `Environment` has what a value depends on, `Operators` the components of the operators; `Value` is the meaning of typed trees, `Meaning` that of
//! plain ones, `Density` that of forms. Which trees are typed is another matter, and none of these asks for it.
#![tactic(auto)]

pub mod laws;
