//! The weights of forms, computed, and which forms are admitted.
//!
//! `weigh` follows the table of the crate `weigh` node by node, with numbers kept within 127 bits; `admit` refuses a form by its
//! pattern set and its weight. Neither takes memory. That over lawful elements kept numbers admit exactly what exact ones do
//! is `admission_law`.
#![tactic(auto)]

mod forms;
mod functions;
mod steps;
mod trees;

pub use forms::{admission_law, admit, rank, size, weigh};
