//! Multiples and derivatives, term by term.

ghost use Rattle.std.specs.Prelude.{◌≡◌, ℕ, ◌≤◌, IfOk};
ghost use Rattle.ratio.specs.Value.{fraction_of};
ghost use Rattle.calculus.specs.Polynomial.{constant, times, derivative};
ghost use Rattle.polyalg.specs.Prelude.{value_of, IsPoly, VariablesBelow, degree_of, product_passes, derivative_passes, RangeWhere};

use crate::fault::PolyFault;
use crate::term::Term;
use crate::terms::{keep, whole};
use ratio::Ratio;
use std::alloc::Global;

/// Each term times c.
pub fn scaled(alloc: Global, terms: &[Term], c: Ratio) -> Result<Vec<Term>, PolyFault>
    requires { IsPoly terms.now }
    ensures value { IfOk result (λ v. value_of v.items ≡ times (constant (fraction_of c)) (value_of terms.now)) }
    ensures range { RangeWhere (product_passes (fraction_of c) terms.now) result }
    ensures lawful { IfOk result (λ v. IsPoly v.items) }
    ensures degree { IfOk result (λ v. degree_of v.items ≤ degree_of terms.now) }
    ensures variables { (d : ℕ) → VariablesBelow d terms.now → IfOk result (λ v. VariablesBelow d v.items) }
{
    let mut out = Vec::new(alloc);
    for term in terms {
        let Some(product) = term.c.mul(c) else {
            return Err(PolyFault::Range);
        };
        keep(
            &mut out,
            Term {
                e: term.e,
                c: product,
            },
        )?;
    }
    Ok(out)
}

/// The partial derivative in variable k, term by term. No term has a variable of 3 or more.
pub fn derived(alloc: Global, terms: &[Term], k: u8) -> Result<Vec<Term>, PolyFault>
    requires { IsPoly terms.now }
    ensures value { IfOk result (λ v. value_of v.items ≡ derivative k (value_of terms.now)) }
    ensures range { RangeWhere (derivative_passes k terms.now) result }
    ensures lawful { IfOk result (λ v. IsPoly v.items) }
    ensures degree { IfOk result (λ v. degree_of v.items ≤ degree_of terms.now) }
    ensures variables { (d : ℕ) → VariablesBelow d terms.now → IfOk result (λ v. VariablesBelow d v.items) }
{
    let mut out = Vec::new(alloc);
    if k >= 3 {
        return Ok(out);
    }
    for term in terms {
        let n = term.e[k as usize];
        if n == 0 {
            continue;
        }
        let Some(product) = term.c.mul(whole(n)) else {
            return Err(PolyFault::Range);
        };
        let mut e = term.e;
        e[k as usize] = n - 1;
        keep(&mut out, Term { e, c: product })?;
    }
    Ok(out)
}
