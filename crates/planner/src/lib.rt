//! The planner of kernels: from a sum of monomials to a function whose run on a cell gives the cell's shares.
//!
//! The reference tensors of the monomials are the function's tables. A run forms the volume factor and the growths of
//! the reference coordinates, and then for each monomial the columns, by loops, their products with the rows of its
//! table, and the sums of the entries. A row that is zero gets no statement, and one that is a multiple of an earlier
//! row is taken from that row's value (Kirby and Logg, A compiler for variational forms, ACM TOMS 32, 2006;
//! `kernel_runs` has the laws of these runs).
#![tactic(auto)]

mod contraction;
pub mod laws;
mod planning;

pub use planning::plan;

#[cfg(test)]
mod tests;
