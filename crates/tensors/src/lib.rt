//! Reference tensors: the integrals over the reference cell of the products of basis functions that a monomial has on
//! a cell.
//!
//! `tensor` gives a row for each entry of the local tensor and a column for each choice of coefficient nodes and
//! reference directions: the monomial's integral on any cell is the volume factor's size times the row times the
//! columns' values there (Kirby and Logg, A compiler for variational forms, ACM TOMS 32, 2006; `refint` has the
//! definitions and that law).
#![tactic(auto)]

mod formed;
pub mod laws;
mod reference;

pub use formed::tensor;
pub use reference::RefTensor;

#[cfg(test)]
mod tests;
