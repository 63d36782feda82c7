//! Integrals over the reference cells.

ghost use Rattle.std.specs.Prelude.{◌≡◌, ◌+◌, ◌<◌, ◌≤◌, ◌^◌, length, IfSome};
ghost use Rattle.ratio.specs.Value.{fraction_of, valued};
ghost use Rattle.calculus.specs.Polynomial.{constant};
ghost use Rattle.calculus.specs.Simplex.{reference};
ghost use Rattle.calculus.specs.Integral.{shadow_integral};
ghost use Rattle.polyalg.specs.Prelude.{total, value_of, VariablesBelow};
ghost use Rattle.polyalg.specs.ReferenceIntegral.{raised, factor_of, integral_steps, by_factorials};

use crate::poly::Poly;
use crate::terms::{factorial, quotient};
use ratio::Ratio;

/// The integral over the reference cell of dimension d: the sum over the terms of
/// `c * a! b! c! / (a+b+c+d)!`, with a, b, c the exponents. `None` exactly where a step passes.
///
/// The steps are these, terms in order. The factor of a term starts as `1/d!`. For each variable in order and each i from 1 to
/// its exponent, it is multiplied by `i/(d+s)`, where s counts all these multiplications of the term from 1. Then the
/// coefficient is multiplied by the factor, and the product is added to the sum so far, which starts as 0.
pub fn ref_integral(p: &Poly, d: u8) -> Option<Ratio>
    requires dimension { (1 ≤ d) × (d ≤ 3) }
    requires variables { VariablesBelow d p.now }
    ensures steps { valued result ≡ integral_steps d p.now }
    ensures formula { IfSome result (λ r. fraction_of r ≡ by_factorials d p.now) }
    ensures value { IfSome result (λ r. constant (fraction_of r) ≡ shadow_integral d (reference d) (value_of p.now)) }
{
    let mut total = Ratio::zero();
    for term in p.terms() {
        let factor = factor(term.e, d)?;
        let product = term.c.mul(factor)?;
        total = total.add(product)?;
    }
    Some(total)
}

/// The integral of a term with coefficient 1.
fn factor(e: [u32; 3], d: u8) -> Option<Ratio>
    requires dimension { (1 ≤ d) × (d ≤ 3) }
    requires small { total e ≤ 65535 }
    ensures { valued result ≡ factor_of d e }
{
    let [x, y, z] = e;
    let below = d as u32;
    let start = quotient(1, factorial(d));
    let first = raised(start, below, x)?;
    let second = raised(first, below + x, y)?;
    raised(second, below + x + y, z)
}

/// The fraction times `i/(below + i)`, for i from 1 to n.
fn raised(start: Ratio, below: u32, n: u32) -> Option<Ratio>
    requires { below + n < 2 ^ 32 }
    ensures { valued result ≡ raised below n (fraction_of start) }
{
    let mut product = start;
    for i in 0..n {
        product = product.mul(quotient(i + 1, below + (i + 1)))?;
    }
    Some(product)
}
