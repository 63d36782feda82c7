//! Which components of two operands an operator combines, and how.

ghost use Rattle.std.specs.Prelude.{◌≡◌, ℕ, IfOk, [], ◌∷◌, map};
ghost use Rattle.ufl_tree.specs.declared.tree.Op2.TheVariants.{Product as product_op};
ghost use Rattle.ufl_tree.specs.Indices.{followed_by, first_size as size_first, last_size as size_last};
ghost use Rattle.ufl_meaning.specs.Operators.{rotated};
ghost use Rattle.calculus.specs.Polynomial.{Polynomial, plus};
ghost use Rattle.tree_values.specs.PolyValue.{value_of};
ghost use Rattle.tree_values.specs.Scene.{gathered};
ghost use Rattle.tree_values.specs.Component.{listed};
ghost use Rattle.tree_values.specs.Operands.{combination, products_of, total_of, turned_of, Combines, CombinesDot, CombinesCross, CombinesTurned, turned_difference};

use crate::component::{Spot, all_of, before, behind, first_part, last_part, measured, of_vector};
use crate::poly::Poly;
use reference::Fault;
use sqlite_items::Items;
use std::alloc::Global;
use ufl_tree::Op2;

/// Components of the left and of the right operand, in pairs.
#[derive(Drop)]
pub struct Operands {
    pub left: Items<Items<u8>>,
    pub right: Items<Items<u8>>,
}

/// The other two axes of space, in their turn.
pub fn other_axes(i: u8) -> Option<(u8, u8)>
    ensures { (h : ℕ → ℕ → Polynomial) → turned_difference h result ≡ rotated h i }
{
    match i {
        0 => Some((1, 2)),
        1 => Some((2, 0)),
        2 => Some((0, 1)),
        _ => None,
    }
}

/// The size of a shape's first index; 0 of a scalar.
pub fn first_size(shape: &[u8]) -> u8
    ensures { result ≡ size_first shape.now }
{
    match shape.split_first() {
        Some((size, _)) => *size,
        None => 0,
    }
}

/// The size of a shape's last index; 0 of a scalar.
pub fn last_size(shape: &[u8]) -> u8
    ensures { result ≡ size_last shape.now }
{
    let Some((first, rest)) = shape.split_first() else {
        return 0;
    };
    if rest.is_empty() {
        *first
    } else {
        last_size(rest)
    }
}

/// The component with each number behind it.
fn behind_each(alloc: Global, at: &[u8], size: u8) -> Result<Items<Items<u8>>, Fault>
    ensures { IfOk result (λ r. r ≡ gathered size (λ k. followed_by at.now k ∷ [])) }
{
    let mut all = Items::new(alloc);
    for k in 0..size {
        all.push(behind(alloc, at, k)?)?;
    }
    Ok(all)
}

/// The component with each number before it.
fn before_each(alloc: Global, size: u8, at: &[u8]) -> Result<Items<Items<u8>>, Fault>
    ensures { IfOk result (λ r. r ≡ gathered size (λ k. (k ∷ at.now) ∷ [])) }
{
    let mut all = Items::new(alloc);
    for k in 0..size {
        all.push(before(alloc, k, at)?)?;
    }
    Ok(all)
}

/// One component of each operand.
fn pair(alloc: Global, left: &[u8], right: &[u8]) -> Result<Operands, Fault>
    ensures { IfOk result (λ w. (w.left ≡ left.now ∷ []) × (w.right ≡ right.now ∷ [])) }
{
    let mut first = Items::new(alloc);
    first.push(Items::from_slice(alloc, left)?)?;
    let mut second = Items::new(alloc);
    second.push(Items::from_slice(alloc, right)?)?;
    Ok(Operands {
        left: first,
        right: second,
    })
}

fn of_dot(alloc: Global, shape: &[u8], at: &[u8]) -> Result<Operands, Fault>
    ensures { IfOk result (λ w. CombinesDot shape.now at.now w.left w.right) }
{
    let Some((_, outer)) = shape.split_first() else {
        return pair(alloc, &[], at);
    };
    let size = last_size(shape);
    Ok(Operands {
        left: behind_each(alloc, first_part(outer, at), size)?,
        right: before_each(alloc, size, last_part(outer, at))?,
    })
}

fn of_product(alloc: Global, shape: &[u8], other: &[u8], at: &[u8]) -> Result<Operands, Fault>
    ensures { IfOk result (λ w. Combines product_op shape.now other.now at.now w.left w.right) }
{
    if shape.len() == 0 {
        pair(alloc, &[], at)
    } else if other.len() == 0 {
        pair(alloc, at, &[])
    } else {
        of_dot(alloc, shape, at)
    }
}

fn nothing(alloc: Global) -> Operands
    ensures { (result.left ≡ []) × (result.right ≡ []) }
{
    Operands {
        left: Items::new(alloc),
        right: Items::new(alloc),
    }
}

/// The components at j and k of the left operand, at k and j of the right one.
fn exchanged(alloc: Global, j: u8, k: u8) -> Result<Operands, Fault>
    ensures { IfOk result (λ w. (w.left ≡ (j ∷ []) ∷ (k ∷ []) ∷ []) × (w.right ≡ (k ∷ []) ∷ (j ∷ []) ∷ [])) }
{
    let mut left = Items::new(alloc);
    left.push(of_vector(alloc, j)?)?;
    left.push(of_vector(alloc, k)?)?;
    let mut right = Items::new(alloc);
    right.push(of_vector(alloc, k)?)?;
    right.push(of_vector(alloc, j)?)?;
    Ok(Operands { left, right })
}

fn along_axes(alloc: Global, axes: Option<(u8, u8)>) -> Result<Operands, Fault>
    ensures { IfOk result (λ w. CombinesTurned axes w.left w.right) }
{
    match axes {
        Some((j, k)) => exchanged(alloc, j, k),
        None => Ok(nothing(alloc)),
    }
}

fn of_cross(alloc: Global, at: &[u8]) -> Result<Operands, Fault>
    ensures { IfOk result (λ w. CombinesCross at.now w.left w.right) }
{
    match measured(at) {
        Spot::Vector(i) => along_axes(alloc, other_axes(i)),
        Spot::Scalar => Ok(nothing(alloc)),
        Spot::Matrix(_, _) => Ok(nothing(alloc)),
        Spot::Longer => Ok(nothing(alloc)),
    }
}

fn of_inner(alloc: Global, shape: &[u8]) -> Result<Operands, Fault>
    ensures { IfOk result (λ w. (w.left ≡ listed shape.now) × (w.right ≡ listed shape.now)) }
{
    Ok(Operands {
        left: all_of(alloc, shape)?,
        right: all_of(alloc, shape)?,
    })
}

/// The components that the operator combines at a component of its value.
pub fn wanted(
    alloc: Global,
    op: Op2,
    shape: &[u8],
    other: &[u8],
    at: &[u8],
) -> Result<Operands, Fault>
    ensures { IfOk result (λ w. Combines op shape.now other.now at.now w.left w.right) }
{
    match op {
        Op2::Sum => pair(alloc, at, at),
        Op2::Product => of_product(alloc, shape, other, at),
        Op2::Dot => of_dot(alloc, shape, at),
        Op2::Inner => of_inner(alloc, shape),
        Op2::Outer => pair(alloc, first_part(shape, at), last_part(shape, at)),
        Op2::Cross => of_cross(alloc, at),
    }
}

fn total(alloc: Global, all: &[Poly]) -> Result<Poly, Fault>
    ensures { IfOk result (λ p. value_of p ≡ total_of (map value_of all.now)) }
{
    let Some((first, rest)) = all.split_first() else {
        return Ok(Poly::zero(alloc));
    };
    let more = total(alloc, rest)?;
    first.sum(alloc, &more)
}

fn products(alloc: Global, left: &[Poly], right: &[Poly]) -> Result<Poly, Fault>
    ensures { IfOk result (λ p. value_of p ≡ products_of (map value_of left.now) (map value_of right.now)) }
{
    let Some((x, left)) = left.split_first() else {
        return Ok(Poly::zero(alloc));
    };
    let Some((y, right)) = right.split_first() else {
        return Ok(Poly::zero(alloc));
    };
    let more = products(alloc, left, right)?;
    x.product(alloc, y)?.sum(alloc, &more)
}

/// The first product less the others.
fn turned(alloc: Global, left: &[Poly], right: &[Poly]) -> Result<Poly, Fault>
    ensures { IfOk result (λ p. value_of p ≡ turned_of (map value_of left.now) (map value_of right.now)) }
{
    let Some((x, left)) = left.split_first() else {
        return Ok(Poly::zero(alloc));
    };
    let Some((y, right)) = right.split_first() else {
        return Ok(Poly::zero(alloc));
    };
    let more = products(alloc, left, right)?;
    x.product(alloc, y)?.difference(alloc, &more)
}

fn sum(alloc: Global, left: &[Poly], right: &[Poly]) -> Result<Poly, Fault>
    ensures { IfOk result (λ p. value_of p ≡ plus (total_of (map value_of left.now)) (total_of (map value_of right.now))) }
{
    let second = total(alloc, right)?;
    total(alloc, left)?.sum(alloc, &second)
}

/// The component of the operator's value, from those components of its operands.
pub fn combined(alloc: Global, op: Op2, left: &[Poly], right: &[Poly]) -> Result<Poly, Fault>
    ensures { IfOk result (λ p. value_of p ≡ combination op (map value_of left.now) (map value_of right.now)) }
{
    match op {
        Op2::Sum => sum(alloc, left, right),
        Op2::Product => products(alloc, left, right),
        Op2::Dot => products(alloc, left, right),
        Op2::Inner => products(alloc, left, right),
        Op2::Outer => products(alloc, left, right),
        Op2::Cross => turned(alloc, left, right),
    }
}
