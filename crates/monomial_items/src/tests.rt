//! Integrals of constants.

ghost use Rattle.std.specs.Prelude.{IfOk};
ghost use Rattle.std.specs.List.{AllByRecursion};
ghost use Rattle.polyalg.specs.Prelude.{VariablesBelow};

use super::*;
use polyalg::Poly;
use ratio::Ratio;
use std::alloc::Global;
use std::test::Fail;

/// The numbers 1 and 2 as polynomials.
fn constants(alloc: Global) -> Result<Vec<Poly>, Fail>
    ensures { IfOk result (λ v. AllByRecursion (VariablesBelow 2) v.items) }
{
    let one = Poly::constant(alloc, Ratio::one())?;
    let two = one.add(alloc, &one)?;
    let mut all = Vec::new(alloc);
    all.push(one)?;
    all.push(two)?;
    Ok(all)
}

/// Minus the area of the reference triangle, and twice as much.
#[test]
fn areas(rt: HostRuntime) -> Result<(), Fail> {
    let polynomials = constants(rt.alloc())?;
    let items = integrals(rt.alloc(), 2, Ratio::one().neg(), polynomials.as_slice())?;
    let half = Ratio::new(-1, 2).unwrap_or(Ratio::zero());
    let wanted = [half, Ratio::one().neg()];
    assert!(rt; items.as_slice() == wanted.as_slice());
    Ok(())
}
