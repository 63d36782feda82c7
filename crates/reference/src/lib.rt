//! A plain, slow program beside the definitions of `calculus`. Wherever it answers, its polynomials, volume factors, local functions
//! and integrals are those of the definitions, which it computes word for word; where a number doesn't fit, it refuses.
//!
//! No contract says that it answers: its worked numbers show that, and that the definitions say what they should. Nothing else uses it.
#![tactic(auto)]

mod coordinates;
mod fault;
mod integral;
mod local;
pub mod number;
mod point;
mod poly;
mod simplex;
mod term;
#[cfg(test)]
mod worked;

pub use coordinates::barycentric;
pub use fault::Fault;
pub use integral::{cell_integral, integral_value, shadow_integral};
pub use local::local_function;
pub use point::Point;
pub use poly::Poly;
pub use simplex::volume;
pub use term::{Axis, Term};
