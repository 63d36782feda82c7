//! Polynomials as sorted lists of terms.

ghost use Rattle.std.specs.Prelude.{◌≡◌, ℕ, ◌+◌, ◌<◌, ◌≤◌, max, is_none, IfOk};
ghost use Rattle.ratio.specs.Value.{fraction_of};
ghost use Rattle.calculus.specs.Polynomial.{nil, monomial, constant as constant_polynomial, coordinate, plus, times, derivative};
ghost use Rattle.polyalg.specs.Prelude.{value_of, IsPoly, VariablesBelow, degree_of, product_steps, product_passes, derivative_passes, sum_passes, RangeWhere, exponent, total};

use crate::fault::PolyFault;
use crate::product::multiplied;
use crate::scaled::{derived, scaled};
use crate::sum::merged;
use crate::term::Term;
use ratio::Ratio;
use std::alloc::{AllocError, Global};
use std::marker::Model;

/// A polynomial in the coordinates of a reference cell: terms with distinct exponents and coefficients that aren't 0, sorted
/// by the exponent of variable 0, then 1, then 2, the smallest first. Its degree is at most 65,535.
#[derive(Drop)]
pub struct Poly {
    terms: Vec<Term>,
}

impl Model for Poly {
    ghost use Rattle.std.specs.Prelude.{List};
    ghost use Rattle.polyalg.specs.declared.term.Term.{Term};

    ghost Value = { List Term };

    ghost use Rattle.polyalg.specs.Terms.{IsPoly};

    ghost view = { λ p. p.terms.items };

    ghost invariant = { λ p. IsPoly p.terms.items };
}

impl Poly {
    /// The terms in order.
    pub fn terms(&self) -> &[Term]
        ensures same { result.now ≡ self.now }
        ensures lawful { IsPoly self.now }
    {
        self.terms.as_slice()
    }

    /// The polynomial without a variable.
    pub fn constant(alloc: Global, c: Ratio) -> Result<Poly, AllocError>
        ensures value { IfOk result (λ p. value_of p ≡ constant_polynomial (fraction_of c)) }
        ensures degree { IfOk result (λ p. degree_of p ≡ 0) }
        ensures lawful { IfOk result IsPoly }
        ensures variables { (d : ℕ) → IfOk result (VariablesBelow d) }
    {
        single(alloc, [0, 0, 0], c)
    }

    /// The polynomial that is variable k.
    pub fn variable(alloc: Global, k: u8) -> Result<Poly, AllocError>
        requires { k < 3 }
        ensures value { IfOk result (λ p. value_of p ≡ coordinate k) }
        ensures degree { IfOk result (λ p. degree_of p ≤ 1) }
        ensures lawful { IfOk result IsPoly }
        ensures variables { (d : ℕ) → k < d → IfOk result (VariablesBelow d) }
    {
        let e = match k {
            0 => [1, 0, 0],
            1 => [0, 1, 0],
            _ => [0, 0, 1],
        };
        single(alloc, e, Ratio::one())
    }

    /// The sum. `Range` exactly where a sum of two coefficients of the same exponents passes.
    pub fn add(&self, alloc: Global, o: &Poly) -> Result<Poly, PolyFault>
        ensures value { IfOk result (λ p. value_of p ≡ plus (value_of self.now) (value_of o.now)) }
        ensures range { RangeWhere (sum_passes self.now o.now) result }
        ensures degree { IfOk result (λ p. degree_of p ≤ max (degree_of self.now) (degree_of o.now)) }
        ensures lawful { IfOk result IsPoly }
        ensures variables { (d : ℕ) → VariablesBelow d self.now → VariablesBelow d o.now → IfOk result (VariablesBelow d) }
    {
        let terms = merged(alloc, self.terms.as_slice(), o.terms.as_slice())?;
        Ok(Poly { terms })
    }

    /// The product. `Range` exactly where a step passes: for each term of the left side, then each of the right side, the
    /// product of the coefficients, then its sum with the coefficient that these exponents have so far.
    pub fn mul(&self, alloc: Global, o: &Poly) -> Result<Poly, PolyFault>
        requires { degree_of self.now + degree_of o.now ≤ 65535 }
        ensures value { IfOk result (λ p. value_of p ≡ times (value_of self.now) (value_of o.now)) }
        ensures range { RangeWhere (is_none (product_steps nil self.now o.now)) result }
        ensures degree { IfOk result (λ p. degree_of p ≤ degree_of self.now + degree_of o.now) }
        ensures lawful { IfOk result IsPoly }
        ensures variables { (d : ℕ) → VariablesBelow d self.now → VariablesBelow d o.now → IfOk result (VariablesBelow d) }
    {
        let terms = multiplied(alloc, self.terms.as_slice(), o.terms.as_slice())?;
        Ok(Poly { terms })
    }

    /// The polynomial times c. `Range` exactly where the product of a coefficient with c passes.
    pub fn scale(&self, alloc: Global, c: Ratio) -> Result<Poly, PolyFault>
        ensures value { IfOk result (λ p. value_of p ≡ times (constant_polynomial (fraction_of c)) (value_of self.now)) }
        ensures range { RangeWhere (product_passes (fraction_of c) self.now) result }
        ensures degree { IfOk result (λ p. degree_of p ≤ degree_of self.now) }
        ensures lawful { IfOk result IsPoly }
        ensures variables { (d : ℕ) → VariablesBelow d self.now → IfOk result (VariablesBelow d) }
    {
        let terms = scaled(alloc, self.terms.as_slice(), c)?;
        Ok(Poly { terms })
    }

    /// The partial derivative in variable k, which is 0 for k of 3 or more. `Range` exactly where the product of a coefficient
    /// with its exponent passes.
    pub fn derive(&self, alloc: Global, k: u8) -> Result<Poly, PolyFault>
        ensures value { IfOk result (λ p. value_of p ≡ derivative k (value_of self.now)) }
        ensures range { RangeWhere (derivative_passes k self.now) result }
        ensures degree { IfOk result (λ p. degree_of p ≤ degree_of self.now) }
        ensures lawful { IfOk result IsPoly }
        ensures variables { (d : ℕ) → VariablesBelow d self.now → IfOk result (VariablesBelow d) }
    {
        let terms = derived(alloc, self.terms.as_slice(), k)?;
        Ok(Poly { terms })
    }
}

/// The polynomial of one term.
pub fn single(alloc: Global, e: [u32; 3], c: Ratio) -> Result<Poly, AllocError>
    requires { total e ≤ 65535 }
    ensures value { IfOk result (λ p. value_of p ≡ monomial (fraction_of c) e) }
    ensures degree { IfOk result (λ p. degree_of p ≤ total e) }
    ensures lawful { IfOk result IsPoly }
    ensures variables { (d : ℕ) → ((i : ℕ) → d ≤ i → exponent e i ≡ 0) → IfOk result (VariablesBelow d) }
{
    let mut terms = Vec::new(alloc);
    if c.is_zero() {
        return Ok(Poly { terms });
    }
    terms.push(Term { e, c })?;
    Ok(Poly { terms })
}
