//! Which components of its operands an operator takes, and what it makes of them.

ghost use Rattle.std.specs.Prelude.{◌≡◌, ◌≤◌, IfOk, length};
ghost use Rattle.ufl_tree.specs.Reading.{term_of};
ghost use Rattle.ufl_tree.specs.Term as t;
ghost use Rattle.lower.specs.Lowering.{minus_term, rotated_term};
ghost use Rattle.passes.specs.Names.{sums_around, names_from};
ghost use Rattle.passes.specs.Pairs.{is_cross, both, Suits, SuitsDot, SuitsProduct, axis_product};

use crate::indices::{all_but_first, back, before, followed_by, front, last_size, only_of};
use crate::names::{name, names_from};
use crate::nodes::{minus, nothing, of_three, prod, sum, sums_around};
use sqlite_items::Items;
use std::alloc::{AllocError, Global};
use ufl_tree::{Ix, Op2, Plain};

/// A component of each operand, and the sizes of the names from the next one on that are summed.
#[derive(Drop)]
pub struct Places {
    pub left: Items<Ix>,
    pub right: Items<Ix>,
    pub sizes: Items<u8>,
}

/// The components of a vector in space.
#[derive(Drop)]
pub struct Axes {
    pub x: Plain,
    pub y: Plain,
    pub z: Plain,
}

pub fn is_cross(op: Op2) -> bool
    ensures { result ≡ is_cross op }
{
    match op {
        Op2::Cross => true,
        Op2::Sum => false,
        Op2::Product => false,
        Op2::Dot => false,
        Op2::Inner => false,
        Op2::Outer => false,
    }
}

fn all(alloc: Global, left: &[Ix], right: &[Ix], sizes: &[u8]) -> Result<Places, AllocError>
    ensures { IfOk result (λ p. (p.left ≡ left.now) × (p.right ≡ right.now) × (p.sizes ≡ sizes.now)) }
{
    let left = Items::from_slice(alloc, left)?;
    let right = Items::from_slice(alloc, right)?;
    let sizes = Items::from_slice(alloc, sizes)?;
    Ok(Places { left, right, sizes })
}

fn of_contraction(alloc: Global, shape: &[u8], at: &[Ix], next: u32) -> Result<Places, AllocError>
    ensures { IfOk result (λ p. 1 ≤ length shape.now → SuitsDot shape.now at.now next p.left p.right p.sizes) }
{
    let index = Ix::Named(name(next)?);
    let outer = all_but_first(shape);
    let left = followed_by(alloc, front(outer, at), index)?;
    let right = before(alloc, index, back(outer, at))?;
    all(
        alloc,
        left.as_slice(),
        right.as_slice(),
        &[last_size(shape)],
    )
}

fn of_dot(alloc: Global, shape: &[u8], at: &[Ix], next: u32) -> Result<Places, AllocError>
    ensures { IfOk result (λ p. SuitsDot shape.now at.now next p.left p.right p.sizes) }
{
    if shape.is_empty() {
        all(alloc, &[], at, &[])
    } else {
        of_contraction(alloc, shape, at, next)
    }
}

fn of_product(
    alloc: Global,
    shape: &[u8],
    other: &[u8],
    at: &[Ix],
    next: u32,
) -> Result<Places, AllocError>
    ensures { IfOk result (λ p. SuitsProduct shape.now other.now at.now next p.left p.right p.sizes) }
{
    if shape.is_empty() {
        all(alloc, &[], at, &[])
    } else if other.is_empty() {
        all(alloc, at, &[], &[])
    } else {
        of_dot(alloc, shape, at, next)
    }
}

fn of_inner(alloc: Global, shape: &[u8], next: u32) -> Result<Places, AllocError>
    ensures { IfOk result (λ p. (p.left
        ≡ names_from shape.now next) × (p.right ≡ names_from shape.now next) × (p.sizes ≡ shape.now)) }
{
    let names = names_from(alloc, shape, next)?;
    all(alloc, names.as_slice(), names.as_slice(), shape)
}

/// Where an operator other than the cross product takes its operands.
pub fn operand_places(
    alloc: Global,
    op: Op2,
    shape: &[u8],
    other: &[u8],
    at: &[Ix],
    next: u32,
) -> Result<Places, AllocError>
    ensures { IfOk result (λ p. Suits op shape.now other.now at.now next p.left p.right p.sizes) }
{
    match op {
        Op2::Sum => all(alloc, at, at, &[]),
        Op2::Product => of_product(alloc, shape, other, at, next),
        Op2::Dot => of_dot(alloc, shape, at, next),
        Op2::Inner => of_inner(alloc, shape, next),
        Op2::Outer => all(alloc, front(shape, at), back(shape, at), &[]),
        Op2::Cross => all(alloc, &[], &[], &[]),
    }
}

/// The sum or the product of two components.
fn both(alloc: Global, op: Op2, a: Plain, b: Plain) -> Result<Plain, AllocError>
    ensures { IfOk result (λ r. term_of r ≡ both op (term_of a) (term_of b)) }
{
    match op {
        Op2::Sum => sum(alloc, a, b),
        Op2::Product => prod(alloc, a, b),
        Op2::Dot => prod(alloc, a, b),
        Op2::Inner => prod(alloc, a, b),
        Op2::Outer => prod(alloc, a, b),
        Op2::Cross => prod(alloc, a, b),
    }
}

/// The sum or the product of two components, summed over the names from `next` on.
pub fn joined(
    alloc: Global,
    op: Op2,
    sizes: &[u8],
    next: u32,
    a: Plain,
    b: Plain,
) -> Result<Plain, AllocError>
    ensures { IfOk result (λ r. term_of r ≡ sums_around sizes.now next (both op (term_of a) (term_of b))) }
{
    let body = both(alloc, op, a, b)?;
    sums_around(alloc, sizes, next, body)
}

/// The first of one times the second of the other, less the second times the first.
fn crossed(
    alloc: Global,
    f: &Plain,
    g: &Plain,
    other_f: &Plain,
    other_g: &Plain,
) -> Result<Plain, AllocError>
    ensures { IfOk result (λ r. term_of r
        ≡ minus_term (t.prod (term_of f.now) (term_of other_g.now)) (t.prod (term_of g.now) (term_of other_f.now))) }
{
    let first = prod(alloc, f.copy(alloc)?, other_g.copy(alloc)?)?;
    let second = prod(alloc, g.copy(alloc)?, other_f.copy(alloc)?)?;
    minus(alloc, first, second)
}

/// A component of the cross product of two vectors in space.
pub fn cross(alloc: Global, a: &Axes, b: &Axes, at: &[Ix], next: u32) -> Result<Plain, AllocError>
    ensures { IfOk result (λ r. term_of r ≡ rotated_term (axis_product a.now b.now) at.now next) }
{
    match only_of(at) {
        Some(i) => {
            let x = crossed(alloc, &a.y, &a.z, &b.y, &b.z)?;
            let y = crossed(alloc, &a.z, &a.x, &b.z, &b.x)?;
            let z = crossed(alloc, &a.x, &a.y, &b.x, &b.y)?;
            of_three(alloc, i, x, y, z)
        }
        None => {
            let first = crossed(alloc, &a.x, &a.x, &b.x, &b.x)?;
            nothing(alloc, next, first)
        }
    }
}
