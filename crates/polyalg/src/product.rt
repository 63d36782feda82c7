//! Products of sorted lists of terms.

ghost use Rattle.std.specs.Prelude.{◌≡◌, ℕ, ◌+◌, ◌≤◌, IfOk, is_none};
ghost use Rattle.calculus.specs.Polynomial.{nil, times};
ghost use Rattle.polyalg.specs.Prelude.{total, value_of, IsTerm, IsPoly, row_passes, RangeWhere, VariablesBelow, degree_of, product_steps};
ghost use Rattle.polyalg.specs.Row.{IsRow};

use crate::fault::PolyFault;
use crate::sum::merged;
use crate::term::Term;
use std::alloc::Global;

/// The sum, over the terms of the left side, of that term times the right side.
pub fn multiplied(alloc: Global, left: &[Term], right: &[Term]) -> Result<Vec<Term>, PolyFault>
    requires left { IsPoly left.now }
    requires right { IsPoly right.now }
    requires degrees { degree_of left.now + degree_of right.now ≤ 65535 }
    ensures value { IfOk result (λ v. value_of v.items ≡ times (value_of left.now) (value_of right.now)) }
    ensures range { RangeWhere (is_none (product_steps nil left.now right.now)) result }
    ensures lawful { IfOk result (λ v. IsPoly v.items) }
    ensures degree { IfOk result (λ v. degree_of v.items ≤ degree_of left.now + degree_of right.now) }
    ensures variables { (d : ℕ) → VariablesBelow d left.now → VariablesBelow d right.now → IfOk result (λ v. VariablesBelow d v.items) }
{
    let mut all = Vec::new(alloc);
    for term in left {
        let products = row(alloc, term, right)?;
        all = merged(alloc, all.as_slice(), products.as_slice())?;
    }
    Ok(all)
}

/// The products of one term with the terms in order.
fn row(alloc: Global, factor: &Term, terms: &[Term]) -> Result<Vec<Term>, PolyFault>
    requires factor { IsTerm factor.now }
    requires lawful { IsPoly terms.now }
    requires degrees { total factor.now.e + degree_of terms.now ≤ 65535 }
    ensures row { IfOk result (λ v. IsRow factor.now terms.now v.items) }
    ensures range { RangeWhere (row_passes factor.now terms.now) result }
{
    let mut out = Vec::new(alloc);
    let [a, b, c] = factor.e;
    for term in terms {
        let Some(product) = factor.c.mul(term.c) else {
            return Err(PolyFault::Range);
        };
        let [x, y, z] = term.e;
        out.push(Term {
            e: [a + x, b + y, c + z],
            c: product,
        })?;
    }
    Ok(out)
}
