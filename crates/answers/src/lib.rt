//! How a run of the program ends, and what it says: outcomes and their statuses, the line on err of each, and the text of
//! the values of a form.
#![tactic(auto)]

mod lines;
mod outcome;
mod values_text;

pub use lines::put_outcome;
pub use outcome::{FormName, Outcome, Spot};
pub use values_text::push_values;
