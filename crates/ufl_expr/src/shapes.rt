//! The shapes that operators take and give.

ghost use Rattle.std.specs.Prelude.{◌≡◌, ◌++◌, ◌∷◌, [], IfOk, Ok};
ghost use Rattle.ufl_expr.specs.Answer.{Gives};
ghost use Rattle.ufl_tree.specs.Indices.{all_but_first};
ghost use Rattle.ufl_expr.specs.Shapes.{shape_if, same_shape, is_scalar, is_vector, is_square, first_of, last_of, all_but_last, same_size, grad_shape, nabla_grad_shape, div_shape, nabla_div_shape, curl_shape, transposed, one_shape, dot_shape, product_shape, two_shape, dimension_of, in_dimension, is_within, rest_shape, along_shape};

use crate::refusal::TypeRefusal;
use spaces::Cell;
use sqlite_items::Items;
use std::alloc::Global;
use ufl_tree::{Ix, Op1, Op2};

/// A shape, or why there is none.
type Shaped = Result<Items<u8>, TypeRefusal>;

// ---- tests

/// Equal sizes.
pub(crate) fn same_shape(shape: &[u8], other: &[u8]) -> bool
    ensures { result ≡ same_shape shape.now other.now }
{
    shape == other
}

pub(crate) fn is_scalar(shape: &[u8]) -> bool
    ensures { result ≡ is_scalar shape.now }
{
    shape.is_empty()
}

/// A vector of this size.
fn is_vector(size: u8, shape: &[u8]) -> bool
    ensures { result ≡ is_vector size shape.now }
{
    match shape {
        [only] => *only == size,
        _ => false,
    }
}

/// A matrix with as many rows as columns.
fn is_square(shape: &[u8]) -> bool
    ensures { result ≡ is_square shape.now }
{
    match shape {
        [rows, columns] => *rows == *columns,
        _ => false,
    }
}

/// Equal sizes, or none on both sides.
fn same_size(size: Option<u8>, other: Option<u8>) -> bool
    ensures { result ≡ same_size size other }
{
    match (size, other) {
        (None, None) => true,
        (Some(m), Some(n)) => m == n,
        _ => false,
    }
}

fn first_of(shape: &[u8]) -> Option<u8>
    ensures { result ≡ first_of shape.now }
{
    shape.first().copied()
}

fn last_of(shape: &[u8]) -> Option<u8>
    ensures { result ≡ last_of shape.now }
{
    shape.last().copied()
}

fn all_but_first(shape: &[u8]) -> &[u8]
    ensures { result.now ≡ all_but_first shape.now }
{
    match shape.split_first() {
        None => shape,
        Some((_, rest)) => rest,
    }
}

fn all_but_last(shape: &[u8]) -> &[u8]
    ensures { result.now ≡ all_but_last shape.now }
{
    if shape.is_empty() {
        shape
    } else {
        &shape[..shape.len() - 1]
    }
}

// ---- shapes

/// The sizes of both, one after the other.
pub(crate) fn sizes(alloc: Global, front: &[u8], back: &[u8]) -> Shaped
    ensures { Gives result (Ok (front.now ++ back.now)) }
{
    let mut all = Items::from_slice(alloc, front)?;
    all.append(Items::from_slice(alloc, back)?)?;
    Ok(all)
}

/// These sizes, where the test holds.
pub(crate) fn shape_if(alloc: Global, holds: bool, shape: &[u8]) -> Shaped
    ensures { Gives result (shape_if holds shape.now) }
{
    if !holds {
        return Err(TypeRefusal::Shape);
    }
    Ok(Items::from_slice(alloc, shape)?)
}

fn div_shape(alloc: Global, shape: &[u8], dimension: u8) -> Shaped
    ensures { Gives result (div_shape shape.now dimension) }
{
    shape_if(
        alloc,
        same_size(last_of(shape), Some(dimension)),
        all_but_last(shape),
    )
}

fn nabla_div_shape(alloc: Global, shape: &[u8], dimension: u8) -> Shaped
    ensures { Gives result (nabla_div_shape shape.now dimension) }
{
    shape_if(
        alloc,
        same_size(first_of(shape), Some(dimension)),
        all_but_first(shape),
    )
}

fn curl_shape(alloc: Global, shape: &[u8], dimension: u8) -> Shaped
    ensures { Gives result (curl_shape shape.now dimension) }
{
    if dimension == 3 && is_vector(3, shape) {
        sizes(alloc, &[3], &[])
    } else if dimension == 2 && is_vector(2, shape) {
        sizes(alloc, &[], &[])
    } else {
        shape_if(alloc, dimension == 2 && is_scalar(shape), &[2])
    }
}

fn transposed(alloc: Global, shape: &[u8]) -> Shaped
    ensures { Gives result (transposed shape.now) }
{
    match shape {
        [rows, columns] => sizes(alloc, &[*columns], &[*rows]),
        _ => Err(TypeRefusal::Shape),
    }
}

/// The dimension of the cell, where functions occur.
pub(crate) fn dimension_of(cell: Option<Cell>) -> Result<u8, TypeRefusal>
    ensures { result ≡ dimension_of cell }
{
    match cell {
        Some(cell) => Ok(cell.dim()),
        None => Err(TypeRefusal::Kind),
    }
}

/// The shape of an operator of one operand of this shape, on this cell.
pub(crate) fn one_shape(alloc: Global, op: Op1, shape: &[u8], cell: Option<Cell>) -> Shaped
    ensures { Gives result (one_shape op shape.now cell) }
{
    match op {
        Op1::Neg => sizes(alloc, shape, &[]),
        Op1::Grad => sizes(alloc, shape, &[dimension_of(cell)?]),
        Op1::NablaGrad => sizes(alloc, &[dimension_of(cell)?], shape),
        Op1::Div => div_shape(alloc, shape, dimension_of(cell)?),
        Op1::NablaDiv => nabla_div_shape(alloc, shape, dimension_of(cell)?),
        Op1::Curl => curl_shape(alloc, shape, dimension_of(cell)?),
        Op1::Transpose => transposed(alloc, shape),
        Op1::Trace => shape_if(alloc, is_square(shape), &[]),
        Op1::Sym | Op1::Skew | Op1::Dev => shape_if(alloc, is_square(shape), shape),
    }
}

fn dot_shape(alloc: Global, left: &[u8], right: &[u8]) -> Shaped
    ensures { Gives result (dot_shape left.now right.now) }
{
    if !same_size(last_of(left), first_of(right)) {
        return Err(TypeRefusal::Shape);
    }
    sizes(alloc, all_but_last(left), all_but_first(right))
}

fn product_shape(alloc: Global, left: &[u8], right: &[u8]) -> Shaped
    ensures { Gives result (product_shape left.now right.now) }
{
    if is_scalar(left) {
        sizes(alloc, right, &[])
    } else if is_scalar(right) {
        sizes(alloc, left, &[])
    } else if left.len() == 2 && right.len() <= 2 {
        dot_shape(alloc, left, right)
    } else {
        Err(TypeRefusal::Shape)
    }
}

/// The shape of an operator of two operands of these shapes.
pub(crate) fn two_shape(alloc: Global, op: Op2, left: &[u8], right: &[u8]) -> Shaped
    ensures { Gives result (two_shape op left.now right.now) }
{
    match op {
        Op2::Sum => shape_if(alloc, same_shape(left, right), left),
        Op2::Product => product_shape(alloc, left, right),
        Op2::Dot => dot_shape(alloc, left, right),
        Op2::Inner => shape_if(alloc, same_shape(left, right), &[]),
        Op2::Outer => sizes(alloc, left, right),
        Op2::Cross => shape_if(alloc, is_vector(3, left) && is_vector(3, right), &[3]),
    }
}

/// The number is below the size; a name's values always are.
fn is_within(index: Ix, size: u8) -> bool
    ensures { result ≡ is_within index size }
{
    match index {
        Ix::Fixed(number) => number < size,
        Ix::Named(_) => true,
    }
}

/// The sizes behind those of the indices.
pub(crate) fn rest_shape(alloc: Global, at: &[Ix], shape: &[u8]) -> Shaped
    ensures { Gives result (rest_shape at.now shape.now) }
{
    let mut left = shape;
    for index in at {
        match left.split_first() {
            None => return Err(TypeRefusal::Shape),
            Some((size, rest)) => {
                if !is_within(*index, *size) {
                    return Err(TypeRefusal::Shape);
                }
                left = rest;
            }
        }
    }
    sizes(alloc, left, &[])
}

/// The shape of a derivative in this direction.
pub(crate) fn along_shape(alloc: Global, at: Ix, shape: &[u8], cell: Option<Cell>) -> Shaped
    ensures { Gives result (in_dimension (dimension_of cell) (along_shape at shape.now)) }
{
    let dimension = dimension_of(cell)?;
    shape_if(alloc, is_within(at, dimension), shape)
}
