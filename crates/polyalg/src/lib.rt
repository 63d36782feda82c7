//! Polynomials in the coordinates of a reference cell, with exact coefficients.
//!
//! A `Poly` is a sorted list of terms with distinct exponents and no zero coefficient. Sums, products, multiples and partial
//! derivatives are exact, or are refused where a step on coefficients does not fit; `bounds` says when none is. `ref_integral`
//! is the integral over the reference cell.
#![tactic(auto)]

pub mod bounds;
mod fault;
mod integral;
mod poly;
mod product;
mod scaled;
mod sum;
mod term;
mod terms;

/// The change of variables and the other laws of integrals, over the definitions alone.
pub use calculus::laws as laws;
pub use fault::PolyFault;
pub use integral::ref_integral;
pub use poly::Poly;
pub use term::Term;
pub use terms::{factorial, quotient, whole};

#[cfg(test)]
mod tests;
