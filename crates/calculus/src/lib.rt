//! Exact calculus for contracts: polynomials over the fractions, simplices, the shadow integral, and local functions.
//!
//! The definitions stand in `specs/`, and `docs/DEFINITIONS.md` reads them aloud. The crate has no code of its own:
//! each function of `laws` states what is proved of the definitions in general.
#![tactic(auto)]

pub mod laws;
