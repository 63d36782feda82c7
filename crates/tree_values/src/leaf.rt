//! The values of nodes without operands.

ghost use Rattle.std.specs.Prelude.{◌≡◌, IfOk};
ghost use Rattle.ufl_meaning.specs.Operators.{identity_value, unit_or_nil};
ghost use Rattle.tree_values.specs.PolyValue.{value_of};
ghost use Rattle.tree_values.specs.Value.{function_component, piece_component};

use crate::component::{Spot, measured};
use crate::environment::component;
use crate::place::{function_place, piece_place};
use crate::poly::Poly;
use crate::scene::Scene;
use reference::Fault;
use std::alloc::Global;
use ufl_tree::Function;

/// 1 where both numbers are equal, else 0.
pub fn unit(alloc: Global, i: u8, j: u8) -> Result<Poly, Fault>
    ensures { IfOk result (λ p. value_of p ≡ unit_or_nil i j) }
{
    if i == j {
        Poly::one(alloc)
    } else {
        Ok(Poly::zero(alloc))
    }
}

/// A component of the identity matrix, 0 at any other component.
#[tactic(auto, using(crate::proofs::SpotLaws::spots))]
pub fn identity(alloc: Global, at: &[u8]) -> Result<Poly, Fault>
    ensures { IfOk result (λ p. value_of p ≡ identity_value at.now) }
{
    match measured(at) {
        Spot::Matrix(i, j) => unit(alloc, i, j),
        Spot::Scalar => Ok(Poly::zero(alloc)),
        Spot::Vector(_) => Ok(Poly::zero(alloc)),
        Spot::Longer => Ok(Poly::zero(alloc)),
    }
}

/// A component of a function; one that isn't there is 0.
pub fn function(alloc: Global, scene: &Scene, f: Function, at: &[u8]) -> Result<Poly, Fault>
    ensures { IfOk result (λ p. value_of p ≡ function_component scene.now f at.now) }
{
    match function_place(scene.elements, f, at)? {
        Some(n) => component(alloc, scene.functions, scene.changes, f.role, n),
        None => Ok(Poly::zero(alloc)),
    }
}

/// A component of a sub-element of a function; one that isn't there is 0.
pub fn piece(alloc: Global, scene: &Scene, f: Function, which: u8, at: &[u8]) -> Result<Poly, Fault>
    ensures { IfOk result (λ p. value_of p ≡ piece_component scene.now f which at.now) }
{
    match piece_place(scene.elements, f, which, at)? {
        Some(n) => component(alloc, scene.functions, scene.changes, f.role, n),
        None => Ok(Poly::zero(alloc)),
    }
}
