//! The weights of expressions and forms: bounds on their monomials, by one table over the nodes of the tree.
//!
//! A form whose weight is within the limits is admitted, and nothing that is made from it later passes a limit. `specs/` has the
//! table (`Steps`, `Weighing`), what it refuses (`Refusals`), when a weight bounds another (`Bounds`), and what it says of a sum
//! of monomials (`Lists`); the functions of `laws` state what is proved of them.
#![tactic(auto)]

pub mod laws;
mod refusal;

pub use monos::Weight;
pub use refusal::WeightRefusal;
