//! Terms.

use ratio::Ratio;

/// A coefficient times the product of the variables, each to its exponent.
#[derive(Clone, Copy, PartialEq, Eq)]
pub struct Term {
    /// The exponents of the variables 0, 1 and 2.
    pub e: [u32; 3],
    pub c: Ratio,
}
