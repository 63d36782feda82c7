//! Products of derived basis functions on the reference cell: the integrands of reference tensors.
//!
//! A `Factor` has the basis functions of a scalar part in all lists of reference directions; `Products` has the products of the
//! functions of several factors, for each choice of nodes and of reference directions.
#![tactic(auto)]

mod factor;
mod pieces;
mod products;

pub use factor::{Factor, Source};
pub use pieces::piece;
pub use products::{Pair, Products, Sizes};

#[cfg(test)]
mod tests;
