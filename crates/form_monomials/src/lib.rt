//! The monomials of a form, for the cells of each marker.
//!
//! A form has one function for the cells whose marker it doesn't name, of its integrals over all cells, and one for each
//! marker that it names, of those over all cells and those over the cells with the marker. `markers` lists them, and
//! `monomials` gives the sum of monomials that is integrated by each.
#![tactic(auto)]

mod choice;
pub mod laws;
mod marking;
mod normal_form;
mod sums;
#[cfg(test)]
mod tests;

pub use marking::markers;
pub use normal_form::monomials;
