// Local functions by Silvester's formula.

ghost use Rattle.std.specs.Prelude.{◌≡◌, ◌<◌, ◌^◌, IfOk};
ghost use Rattle.algebra.specs.Ring.{natural};
ghost use Rattle.algebra.specs.Fraction.{fractions};
ghost use Rattle.ratio.specs.Value.{fraction_of};
ghost use Rattle.calculus.specs.LocalFunction.{factorial as factorial_of, degree_of, falling as falling_of, vertex_factor as vertex_factor_of, vertex_factors as vertex_factors_of, local_function as local_function_of};
ghost use Rattle.reference.specs.PolyValue.{value_of};
ghost use Rattle.reference.specs.PointValue.{simplex_of};

use crate::coordinates::barycentric;
use crate::fault::Fault;
use crate::number;
use crate::point::Point;
use crate::poly::Poly;
use ratio::Ratio;
use std::alloc::Global;

fn factorial(a: u32) -> Result<Ratio, Fault>
    ensures { IfOk result (λ r. fraction_of r ≡ natural fractions (factorial_of a)) }
{
    let mut out = Ratio::one();
    for i in 0..a {
        let next = number::power_sum(1, i)?;
        out = number::product(number::whole(next)?, out)?;
    }
    Ok(out)
}

// x (x - 1) .. (x - a + 1).
fn falling(alloc: Global, x: &Poly, a: u32) -> Result<Poly, Fault>
    ensures { IfOk result (λ r. value_of r ≡ falling_of (value_of x.now) a) }
{
    let mut out = Poly::one(alloc)?;
    for i in 0..a {
        let level = Poly::constant(alloc, number::whole(i)?)?;
        let factor = x.difference(alloc, &level)?;
        out = out.product(alloc, &factor)?;
    }
    Ok(out)
}

// The factor of a vertex with weight a and barycentric coordinate b.
fn vertex_factor(alloc: Global, q: u32, b: &Poly, a: u32) -> Result<Poly, Fault>
    ensures { IfOk result (λ r. value_of r ≡ vertex_factor_of q (value_of b.now) a) }
{
    let scale = Poly::constant(alloc, number::reciprocal(factorial(a)?)?)?;
    let degree = Poly::constant(alloc, number::whole(q)?)?;
    let product = falling(alloc, &degree.product(alloc, b)?, a)?;
    let factor = scale.product(alloc, &product)?;
    Ok(factor)
}

// The product over the vertices from number j on.
fn vertex_factors(
    alloc: Global,
    q: u32,
    v: &[Point],
    j: usize,
    weights: &[u32],
) -> Result<Poly, Fault>
    ensures { IfOk result (λ r. value_of r ≡ vertex_factors_of q (simplex_of v.now) j weights.now) }
{
    match weights {
        [] => {
            let one = Poly::one(alloc)?;
            Ok(one)
        }
        [a, rest @ ..] => {
            let coordinate = barycentric(alloc, v, j)?;
            let factor = vertex_factor(alloc, q, &coordinate, *a)?;
            let next = j.checked_add(1).ok_or(Fault::Shape)?;
            let others = vertex_factors(alloc, q, v, next, rest)?;
            let product = factor.product(alloc, &others)?;
            Ok(product)
        }
    }
}

// The sum of the weights.
fn degree(weights: &[u32]) -> Result<u32, Fault>
    ensures { IfOk result (λ q. q ≡ degree_of weights.now) }
{
    match weights {
        [] => Ok(0),
        [a, rest @ ..] => {
            let others = degree(rest)?;
            let sum = number::power_sum(*a, others)?;
            Ok(sum)
        }
    }
}

/// The local function of a node, given by the weights of the vertices, on a cell that is not flat.
#[tactic(auto, unfolding(calculus::specs::LocalFunction::local_function))]
pub fn local_function(alloc: Global, v: &[Point], weights: &[u32]) -> Result<Poly, Fault>
    ensures { IfOk result (λ r. value_of r ≡ local_function_of (simplex_of v.now) weights.now) }
{
    let q = degree(weights)?;
    let function = vertex_factors(alloc, q, v, 0, weights)?;
    Ok(function)
}
