//! Products of the slopes of linear functions on the unit interval.

ghost use Rattle.std.specs.Prelude.{◌≡◌, IfOk};
ghost use Rattle.basis_products.specs.Functions.{AreBounded};

use super::*;
use ratio::Ratio;
use spaces::{Family, Part};
use std::alloc::Global;
use std::test::Fail;

/// -1 and 1.
fn slopes(alloc: Global, source: Source) -> Result<Factor, Fail>
    ensures source { IfOk result (λ f. f.source ≡ source) }
    ensures nodes { IfOk result (λ f. f.nodes ≡ 2) }
    ensures directions { IfOk result (λ f. f.directions ≡ 1) }
    ensures bounds { IfOk result (λ f. AreBounded 1 0 1 12 f.functions.items) }
{
    let line = Part {
        family: Family::Lagrange,
        degree: 1,
        nodes: 2,
        offset: 0,
    };
    let factor = Factor::new(alloc, 1, source, line, 1)?;
    Ok(factor)
}

/// The numbers of the products for each test and each trial node; each is a constant.
fn slope_products(alloc: Global) -> Result<Vec<Ratio>, Fail> {
    let test = slopes(alloc, Source::Test)?;
    let trial = slopes(alloc, Source::Trial)?;
    let one = Products::one(alloc)?;
    let columns = one.with(alloc, &trial)?;
    let all = columns.with(alloc, &test)?;
    let mut numbers = Vec::new(alloc);
    for p in all.items.iter() {
        for term in p.terms() {
            numbers.push(term.c)?;
        }
    }
    Ok(numbers)
}

#[test]
fn stiffness(rt: HostRuntime) -> Result<(), Fail> {
    let numbers = slope_products(rt.alloc())?;
    let minus = Ratio::one().neg();
    let wanted = [Ratio::one(), minus, minus, Ratio::one()];
    assert!(rt; numbers.as_slice() == wanted.as_slice());
    Ok(())
}
