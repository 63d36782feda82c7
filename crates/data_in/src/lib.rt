//! Data: exact values of coefficients, one for each row, read from their text.
//!
//! `read_data` takes exactly the texts of the data format (docs/FORMATS.md), and names the first bad line of every
//! other text. `Values::check` says whether the blocks are those that a form needs on a mesh.
#![tactic(auto)]

mod lines;
mod read;
mod refusal;
mod rows;
mod values;
mod words;

pub use read::{DATA_LIMIT, read_data};
pub use refusal::{ValueKind, ValueRefusal};
pub use values::{Need, Values};

#[cfg(test)]
mod tests;
