//! Expressions: typed trees that obey the typing table.
//!
//! An `Expr` is made by its builders alone. Each of them gives the tree with the shape, the free indices and the cell that the table
//! of its operator says, or refuses it exactly where the table or the limits do; the table stands in `specs/Table.antt`.
#![tactic(auto)]

mod arguments;
mod elements;
mod expr;
mod frees;
mod functions;
pub mod laws;
mod lists;
mod pieces;
mod refusal;
mod shapes;
mod signature;
#[cfg(test)]
mod tests;

pub use elements::Elements;
pub use expr::{Expr, MOST_HEIGHT, MOST_NODES};
pub use refusal::TypeRefusal;
