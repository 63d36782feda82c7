//! The rules of derivatives at the nodes of a tree.

ghost use Rattle.std.specs.Prelude.{◌≡◌, ◌==◌, IfOk, if◌then◌else◌};
ghost use Rattle.ufl_meaning.specs.Environment.{same_role};
ghost use Rattle.ufl_tree.specs.Reading.{term_of};
ghost use Rattle.ufl_tree.specs.Term as t;
ghost use Rattle.ufl_tree.specs.Term.{Term};
ghost use Rattle.lower.specs.Renaming.{zero_term};
ghost use Rattle.perturb.specs.Expanding.{deltas, linear};
ghost use Rattle.derivatives.specs.Derivation.{derivative_of};

use crate::derivation::Derivation;
use passes::nodes::{delta, function, prod, sum, unit, zero};
use std::alloc::{AllocError, Global};
use ufl_tree::{Function, Ix, Plain, Role};

/// Are these the same part of a form?
pub fn is_same_role(a: Role, b: Role) -> bool
    ensures { result ≡ same_role a b }
{
    match (a, b) {
        (Role::Test, Role::Test) => true,
        (Role::Trial, Role::Trial) => true,
        (Role::Position, Role::Position) => true,
        (Role::Coefficient(m), Role::Coefficient(n)) => m == n,
        _ => false,
    }
}

/// A component of the function that plays this role, of the element of f.
pub fn of_role(alloc: Global, role: Role, f: Function, at: &[Ix]) -> Result<Plain, AllocError>
    ensures { IfOk result (λ r. term_of r ≡ t.fun (record { role = role; element = f.element }) at.now) }
{
    let element = f.element;
    function(alloc, Function { role, element }, at)
}

/// The direction where the function is that by which the derivative is taken, else 0.
fn moved(alloc: Global, coef: Role, dir: Role, f: Function, at: &[Ix]) -> Result<Plain, AllocError>
    ensures { IfOk result (λ r. term_of r ≡ linear coef dir (t.fun f at.now)) }
{
    if is_same_role(f.role, coef) {
        of_role(alloc, dir, f, at)
    } else {
        Ok(zero())
    }
}

/// The derivative of a component of a function.
pub fn of_function(
    alloc: Global,
    by: &Derivation,
    f: Function,
    at: &[Ix],
) -> Result<Plain, AllocError>
    ensures { IfOk result (λ r. term_of r ≡ derivative_of by.now (t.fun f at.now)) }
{
    match by {
        Derivation::Variable { .. } => Ok(zero()),
        Derivation::Function { coef, dir } => moved(alloc, *coef, *dir, f, at),
    }
}

/// 1 where both components are the same, else 0.
fn same_component(alloc: Global, own: &[Ix], other: &[Ix]) -> Result<Plain, AllocError>
    ensures { IfOk result (λ r. term_of r ≡ deltas own.now other.now) }
{
    let Some((i, own)) = own.split_first() else {
        return Ok(if other.is_empty() { unit() } else { zero() });
    };
    let Some((j, other)) = other.split_first() else {
        return Ok(zero());
    };
    let rest = same_component(alloc, own, other)?;
    prod(alloc, delta(*i, *j), rest)
}

/// The derivative of a component of a variable by a component of a variable, that of its value left out.
fn of_label(alloc: Global, is: bool, own: &[Ix], other: &[Ix]) -> Result<Plain, AllocError>
    ensures { IfOk result (λ r. term_of r ≡ (if is then deltas own.now other.now else zero_term)) }
{
    if is {
        same_component(alloc, own, other)
    } else {
        Ok(zero())
    }
}

/// The derivative of a component of a variable, by that of its value.
pub fn of_mark(
    alloc: Global,
    by: &Derivation,
    label: u32,
    at: &[Ix],
    slope: Plain,
) -> Result<Plain, AllocError>
    ensures { (e : Term) → term_of slope ≡ derivative_of by.now e → IfOk result (λ r. term_of r
        ≡ derivative_of by.now (t.mark label at.now e)) }
{
    match by {
        Derivation::Variable {
            label: of,
            at: component,
        } => {
            let own = of_label(alloc, label == *of, at, component.as_slice())?;
            sum(alloc, slope, own)
        }
        Derivation::Function { .. } => Ok(slope),
    }
}

/// The derivative of a product, by those of its factors.
pub fn of_product(
    alloc: Global,
    a: &Plain,
    b: &Plain,
    slope: Plain,
    other: Plain,
) -> Result<Plain, AllocError>
    ensures { IfOk result (λ r. term_of r
        ≡ t.sum (t.prod (term_of slope) (term_of b.now)) (t.prod (term_of a.now) (term_of other))) }
{
    let first = prod(alloc, slope, b.copy(alloc)?)?;
    let second = prod(alloc, a.copy(alloc)?, other)?;
    sum(alloc, first, second)
}
