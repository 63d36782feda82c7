//! What typing gives the passes of the compiler: a tree that obeys the typing table and fits a table of elements can be
//! lowered.
#![tactic(auto)]

mod labels;
pub mod laws;

pub use labels::fitting;
