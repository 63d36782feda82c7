//! Integrals over the reference cell.

ghost use Rattle.std.specs.Prelude.{◌≡◌, ℕ, ◌+◌, ◌*◌, ◌<◌, ◌≤◌, false, is_none, Some, map, IfOk};
ghost use Rattle.std.specs.List.{AllByRecursion};
ghost use Rattle.algebra.specs.Over.{Over};
ghost use Rattle.ratio.specs.Value.{fraction_of};
ghost use Rattle.calculus.specs.LocalFunction.{factorial};
ghost use Rattle.polyalg.specs.Prelude.{value_of, RangeWhere, VariablesBelow};
ghost use Rattle.basis_products.specs.Functions.{AreBounded};
ghost use Rattle.monomial_items.specs.Integrals.{integrals_of, AreFitting};

use polyalg::{Poly, PolyFault, ref_integral};
use ratio::Ratio;
use std::alloc::Global;

/// The number, or the fault of a step that passes.
fn step(number: Option<Ratio>) -> Result<Ratio, PolyFault>
    ensures value { IfOk result (λ r. number ≡ Some r) }
    ensures range { RangeWhere (is_none number) result }
{
    match number {
        Some(number) => Ok(number),
        None => Err(PolyFault::Range),
    }
}

/// c times the integral of each polynomial over the reference cell of dimension d. `range` says when no step passes, and `bounds`
/// how large the results are over a common denominator.
pub fn integrals(
    alloc: Global,
    d: u8,
    c: Ratio,
    polynomials: &[Poly],
) -> Result<Vec<Ratio>, PolyFault>
    requires dimension { (1 ≤ d) × (d ≤ 3) }
    requires variables { AllByRecursion (VariablesBelow d) polynomials.now }
    ensures value { IfOk result (λ v. map fraction_of v.items ≡ integrals_of d (fraction_of c)
        (map value_of polynomials.now)) }
    ensures bounds { (n l b j i : ℕ) → 0 < l → Over j i (fraction_of c) → AreBounded d n l b polynomials.now
        → AreFitting d n l b (fraction_of c) → IfOk result (λ v. AllByRecursion
        (λ x. Over (j * (l * factorial (n + d))) (i * (b * factorial (n + d))) (fraction_of x)) v.items) }
    ensures range { (n l b : ℕ) → 0 < l → AreBounded d n l b polynomials.now → AreFitting d n l b (fraction_of c)
        → RangeWhere false result }
{
    let mut all = Vec::new(alloc);
    for p in polynomials {
        let integral = step(ref_integral(p, d))?;
        let item = step(c.mul(integral))?;
        all.push(item)?;
    }
    Ok(all)
}
