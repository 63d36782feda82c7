//! What is proved of the programs of form files.
#![tactic(auto)]

pub mod laws;
