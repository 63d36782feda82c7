//! Exact algebra for contracts: rings and a solver of their identities, whole numbers, fractions, lowest terms and the step rule.
//!
//! The crate has no code of its own. Its definitions stand in `specs/`; `docs/ALGEBRA.md` shows how to use them.
#![tactic(auto)]
