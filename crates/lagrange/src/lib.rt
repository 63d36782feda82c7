//! Lagrange elements on the reference cells: the basis function of each local node, which is 1 there and 0 at the other nodes.
#![tactic(auto)]

mod functions;
pub mod laws;

pub use functions::basis;

#[cfg(test)]
mod tests;
