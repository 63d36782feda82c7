//! Weights: what is known of the numbers of a tree's monomials before they are formed.

/// Bounds on the monomials of an expression or a form.
#[derive(Clone, Copy, Debug, PartialEq, Eq)]
pub struct Weight {
    /// How many monomials there are, each counted by the nodes of its functions and its derivatives.
    pub cost: u128,
    /// The degree.
    pub deg: u128,
    /// How many factors a monomial has.
    pub g: u128,
    /// How many of them are functions.
    pub f: u128,
    /// The least number of derivatives in a monomial.
    pub rmin: u128,
    /// The greatest number of derivatives in a monomial.
    pub rmax: u128,
    /// The sum of the absolute coefficients over the denominator `den`.
    pub num: u128,
    /// A common denominator of the coefficients.
    pub den: u128,
    /// The denominator of a product of basis functions.
    pub fac: u128,
    /// The sum of the absolute coefficients of such a product.
    pub s: u128,
}
