//! Which functions occur in a form, and the layout of its local values.
#![tactic(auto)]

pub mod laws;
mod layout;
mod marks;
mod occurrences;
mod walk;

pub use layout::{entry_count, form_layout, test_element, trial_element};
pub use occurrences::{Occurrences, find_occurrences};

#[cfg(test)]
mod tests;
