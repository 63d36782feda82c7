//! The weights of functions: the largest numbers of the scalar parts of the whole function.

ghost use Rattle.std.specs.Prelude.{◌≡◌, ◌≤◌, List, [], ◌∷◌};
ghost use Rattle.calculus.specs.LocalFunction.{factorial};
ghost use Rattle.spaces.specs.Scalar.{Scalar, scalar_of};
ghost use Rattle.spaces.specs.Space.{scalars};
ghost use Rattle.spaces.specs.Reading.{space_of};
ghost use Rattle.ufl_tree.specs.Places.{table_of};
ghost use Rattle.weigh.specs.Refusals.{AreLow};
ghost use Rattle.weigh.specs.Steps.{capped};
ghost use Rattle.weigh.specs.Weighing.{kept, coefficient_sum, parts_weight, function_weight};
ghost use Rattle.admit.specs.Denominators.{HasDenominators};

use crate::steps::kept_all;
use monos::Weight;
use spaces::{Element, Part};
use ufl_expr::Elements;
use ufl_tree::Function;

fn factorial(degree: u8) -> u128
    requires { degree ≤ 3 }
    ensures { result ≡ factorial degree }
{
    match degree {
        0 | 1 => 1,
        2 => 2,
        _ => 6,
    }
}

/// At least the sum of the absolute coefficients of each basis function of this degree.
fn coefficient_sum(degree: u8) -> u128
    ensures { result ≡ coefficient_sum degree }
{
    match degree {
        0 => 1,
        1 => 4,
        2 => 128,
        _ => 10368,
    }
}

/// Of a function without a part.
fn none() -> Weight
    ensures value { result ≡ parts_weight [] }
    ensures denominators { HasDenominators result }
{
    Weight {
        cost: 1,
        deg: 0,
        g: 1,
        f: 1,
        rmin: 0,
        rmax: 0,
        num: 1,
        den: 1,
        fac: 1,
        s: 1,
    }
}

/// With one part more. The factorials of degrees up to 3 divide each other, so that the greater is their common multiple.
#[tactic(auto, using(crate::proofs::PartLaws::common_factorial))]
fn with_part(part: Part, w: Weight) -> Weight
    requires degree { part.degree ≤ 3 }
    requires denominators { HasDenominators w }
    ensures value { (ps : List Scalar) → AreLow ps → w ≡ parts_weight ps → result ≡ parts_weight (scalar_of part ∷ ps) }
    ensures denominators { HasDenominators result }
{
    Weight {
        cost: w.cost.max(part.nodes as u128),
        deg: w.deg.max(part.degree as u128),
        fac: w.fac.max(factorial(part.degree)),
        s: w.s.max(coefficient_sum(part.degree)),
        ..w
    }
}

fn of_element(element: &Element) -> Weight
    ensures value { result ≡ parts_weight (scalars (space_of element.now)) }
    ensures denominators { HasDenominators result }
{
    // That the tree is lawful bounds the degrees.
    let _tree = element.tree();
    let mut w = none();
    let mut k = element.value_size();
    while k > 0 {
        k -= 1;
        let Some(part) = element.part_of(k) else {
            unreachable!();
        };
        w = with_part(part, w);
    }
    w
}

/// Of a function, or a part of it.
#[tactic(auto, using(crate::proofs::PartLaws::weight_at, crate::proofs::PartLaws::weight_at_none))]
pub fn function(elements: &Elements, f: Function) -> Weight
    ensures value { result ≡ capped kept (function_weight (table_of elements.now) f) }
    ensures denominators { HasDenominators result }
{
    match elements.get(f.element) {
        None => kept_all(none()),
        Some(element) => kept_all(of_element(element)),
    }
}
