//! The statements of kernels, written: from the contractions of reference tensors with their columns to the body and
//! the tables of a function.
//!
//! A body forms the volume factor of the cell and the growths of the reference coordinates, and then for each monomial
//! the columns, by loops, their products with the rows of its table, and the sums of the entries. A row that is zero
//! gets no statement, and one that is a multiple of an earlier row is taken from that row's value (Kirby and Logg, A
//! compiler for variational forms, ACM TOMS 32, 2006; `kernel_runs` has these statements as functions of a plan, and
//! the laws of their runs).
#![tactic(auto)]

mod body;
mod columns;
mod contraction;
mod counted;
mod digits;
mod entries;
pub mod laws;
mod pieces;
mod preamble;
mod rows;
mod slots;

pub use body::{body_of, buffers_of, tables_of};
pub use contraction::Contraction;
pub use counted::CountedRows;
pub use digits::{Nodes, argument_nodes, coefficients, directions, entry_count};
pub use entries::PlacedEntry;
pub use slots::Buffers;
