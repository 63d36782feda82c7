//! Calls that give elements.

ghost use Rattle.std.specs.Prelude.{◌≡◌, ◌⊎◌, IfOk, IfErr, Ok, Err, Option};
ghost use Rattle.std.specs.Option.{option_copied};
ghost use Rattle.spaces.specs.declared.element_tree.ElementTree.{ElementTree as Tree};
ghost use Rattle.spaces.specs.declared.refusal.SpaceRefusal.{SpaceRefusal as Refusal};
ghost use Rattle.spaces.specs.Reading.{space_of};
ghost use Rattle.spaces.specs.Refusal.{Gives};
ghost use Rattle.ufl_values.specs.declared.refusal.Reason.TheVariants.{Kind, Memory};
ghost use Rattle.ufl_values.specs.Answer.{Answers};
ghost use Rattle.ufl_values.specs.Numbers.{or_refusal, whole_number};
ghost use Rattle.ufl_calls.specs.Elements.{cell_of, scalar_at, scalar_of, scalar_cell, scalar_given, part_of, or_unsupported, finite_element, block_of, size_or, vector_element, two_sizes, sizes_or, tensor_element, element_in, elements_in, mixed_in, mixed_element};

use crate::arguments::{one, only_list, three};
use ratio::Ratio;
use spaces::{Cell, Element, ElementTree, Family, SpaceRefusal};
use sqlite_items::Items;
use std::alloc::{AllocError, Global};
use ufl_values::{Reason, Value, mixed, part_count, tuple_items, whole_number};

/// A cell, and the scalar element on it where the family has the degree.
#[derive(Drop)]
struct Scalar {
    cell: Cell,
    element: Option<Element>,
}

/// The cell that the value is or that its string names, else `Kind`.
pub fn cell_of(value: &Value) -> Result<Cell, Reason>
    ensures { result ≡ cell_of value.now }
{
    match value {
        Value::Cell(cell) => Ok(*cell),
        Value::Text(_, Some(cell)) => Ok(*cell),
        _ => Err(Reason::Kind),
    }
}

/// The scalar element, where there is such a family with such a degree.
fn scalar_at(family: Option<Family>, cell: Cell, degree: Ratio) -> Option<Element>
    ensures { result ≡ scalar_at family cell (whole_number degree) }
{
    match (family, whole_number(degree)) {
        (Some(family), Some(degree)) => Element::scalar(family, cell, degree),
        _ => None,
    }
}

/// The scalar element of a family, a cell and a degree; `Kind` exactly where the arguments aren't a string, a cell and
/// a number.
fn scalar_of(places: Items<Value>) -> Result<Scalar, Reason>
    ensures { result ≡ scalar_of places }
{
    let (family, cell, degree) = three(places)?;
    let Value::Text(family, _) = family else {
        return Err(Reason::Kind);
    };
    let cell = cell_of(&cell)?;
    let Value::Number(degree) = degree else {
        return Err(Reason::Kind);
    };
    let element = scalar_at(family, cell, degree);
    Ok(Scalar { cell, element })
}

/// The cell of a scalar element.
#[tactic(auto, using(spaces::proofs::ReadingLaws::readings))]
fn scalar_cell(tree: &ElementTree) -> Option<Cell>
    ensures { result ≡ scalar_cell (space_of tree.now) }
{
    match tree {
        ElementTree::Scalar { cell, .. } => Some(*cell),
        ElementTree::Vector { .. } => None,
        ElementTree::Tensor { .. } => None,
        ElementTree::Mixed { .. } => None,
    }
}

/// The scalar element that the value is, else `Kind`.
fn scalar_given(value: Value) -> Result<Scalar, Reason>
    ensures { result ≡ scalar_given value }
{
    let Value::Element(element) = value else {
        return Err(Reason::Kind);
    };
    match scalar_cell(element.tree()) {
        Some(cell) => {
            let element = Some(element);
            Ok(Scalar { cell, element })
        }
        None => Err(Reason::Kind),
    }
}

/// The scalar element that is given, or that of a family, a cell and a degree.
fn part(places: Items<Value>) -> Result<Scalar, Reason>
    ensures { result ≡ part_of places }
{
    if places.len() == 1 {
        scalar_given(one(places)?)
    } else {
        scalar_of(places)
    }
}

/// The element, or `Unsupported` where there is none.
fn known(element: Option<Element>) -> Result<Element, Reason>
    ensures { result ≡ or_unsupported element }
{
    match element {
        Some(element) => Ok(element),
        None => Err(Reason::Unsupported),
    }
}

/// `FiniteElement(family, cell, degree)`
pub fn finite_element(places: Items<Value>) -> Result<Value, Reason>
    ensures { result ≡ finite_element places }
{
    let part = scalar_of(places)?;
    Ok(Value::Element(known(part.element)?))
}

/// The value of an element of several parts.
fn block(answer: Result<Element, SpaceRefusal>) -> Result<Value, Reason>
    ensures { (refusal : Option Refusal) (t : Tree) → Gives answer refusal t → Answers result (block_of refusal t) }
{
    match answer {
        Ok(element) => Ok(Value::Element(element)),
        Err(refusal) => Err(Reason::from(refusal)),
    }
}

/// The number of parts that is given, or else this one.
fn size_or(otherwise: u8, size: Option<Value>) -> Result<u8, Reason>
    ensures { result ≡ size_or otherwise size }
{
    match size {
        Some(size) => part_count(&size),
        None => Ok(otherwise),
    }
}

/// `VectorElement(..)`, with `dim=`.
pub fn vector_element(
    alloc: Global,
    places: Items<Value>,
    dim: Option<Value>,
) -> Result<Value, Reason>
    ensures { Answers result (vector_element places dim) }
{
    let Scalar { cell, element } = part(places)?;
    let dim = size_or(cell.dim(), dim)?;
    let element = known(element)?;
    block(Element::vector(alloc, element, dim))
}

/// Two numbers of parts, else `Kind`.
fn two_sizes(items: &[Value]) -> Result<(u8, u8), Reason>
    ensures { result ≡ two_sizes items.now }
{
    match items {
        [rows, cols] => {
            let rows = part_count(rows)?;
            let cols = part_count(cols)?;
            Ok((rows, cols))
        }
        _ => Err(Reason::Kind),
    }
}

/// The two sizes that a tuple gives, else `Kind`; or else this one twice.
fn sizes_or(otherwise: u8, shape: Option<Value>) -> Result<(u8, u8), Reason>
    ensures { result ≡ sizes_or otherwise shape }
{
    let Some(shape) = shape else {
        return Ok((otherwise, otherwise));
    };
    match tuple_items(&shape) {
        Some(items) => two_sizes(items),
        None => Err(Reason::Kind),
    }
}

/// `TensorElement(..)`, with `shape=`.
pub fn tensor_element(
    alloc: Global,
    places: Items<Value>,
    shape: Option<Value>,
) -> Result<Value, Reason>
    ensures { Answers result (tensor_element places shape) }
{
    let Scalar { cell, element } = part(places)?;
    let (rows, cols) = sizes_or(cell.dim(), shape)?;
    let element = known(element)?;
    block(Element::tensor(alloc, element, rows, cols))
}

/// The element that the value is, or `None` exactly where it is none.
fn element_in(value: &Value) -> Option<&Element>
    ensures { or_refusal Kind (option_copied result) ≡ element_in value.now }
{
    match value {
        Value::Element(element) => Some(element),
        _ => None,
    }
}

/// These elements, each a value's, else `Kind`.
fn elements_in(alloc: Global, values: &[Value]) -> Result<Vec<Element>, Reason>
    ensures found { IfOk result (λ elements. elements_in values.now ≡ Ok elements.items) }
    ensures refused { IfErr result (λ e. (e ≡ Memory) ⊎ (elements_in values.now ≡ Err e)) }
{
    let mut parts = Vec::new(alloc);
    for value in values {
        let Some(element) = element_in(value) else {
            return Err(Reason::Kind);
        };
        parts.push(element.copy(alloc)?).map_err(AllocError::from)?;
    }
    Ok(parts)
}

/// The mixed element of these elements, else `Kind`.
fn mixed_in(alloc: Global, values: &[Value]) -> Result<Value, Reason>
    ensures { Answers result (mixed_in values.now) }
{
    let parts = elements_in(alloc, values)?;
    mixed(alloc, parts)
}

/// `MixedElement(..)` of elements, or of one list of them.
pub fn mixed_element(alloc: Global, places: Items<Value>) -> Result<Value, Reason>
    ensures { Answers result (mixed_element places) }
{
    match only_list(places.as_slice()) {
        Some(items) => mixed_in(alloc, items),
        None => mixed_in(alloc, places.as_slice()),
    }
}
