//! Kernels as data: units of functions over slots of fractions, with tables, loads and counted loops.
//!
//! Their C text is read and printed by `c_text`, and a function is run by `c_run`. What a function means is written in
//! `specs/Meaning.antt`, and the rules that a lawful function keeps in `specs/Rules.antt`.
#![tactic(auto)]

mod unit;

pub use unit::{Array, CFun, CStmt, CUnit, Op, Place, Slot};
