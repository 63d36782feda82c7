//! Products of the functions of a monomial's atoms on the reference cell, for each choice of nodes and reference directions.
#![tactic(auto)]

mod formed;
pub mod laws;
mod places;
mod support;

pub use formed::{are_alive, factor, products};
pub use places::{derivative_count, part_of};
pub use support::{Support, test_support, trial_support};
