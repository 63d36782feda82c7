//! Components of sub-elements of functions, in the flat list of the function.

ghost use Rattle.std.specs.Prelude.{◌≡◌, ◌+◌, ◌*◌, IfOk, [], ◌∷◌, length, slice_get};
ghost use Rattle.spaces.specs.Space.{scalars, scalars_of};
ghost use Rattle.spaces.specs.Reading.{space_of, spaces_in};
ghost use Rattle.ufl_tree.specs.Reading.{term_of};
ghost use Rattle.ufl_tree.specs.Places.{table_of, element_shape, piece_from, piece_of, sub_element};
ghost use Rattle.lower.specs.Lowering.{nothing, place_term, piece_term};
ghost use Rattle.passes.specs.Spots.{absent, flat};

use crate::nodes::{function, nothing};
use spaces::ElementTree;
use sqlite_items::Items;
use std::alloc::{AllocError, Global};
use ufl_expr::Elements;
use ufl_tree::{Function, Ix, Plain};

fn sum(m: usize, n: usize) -> Result<usize, AllocError>
    ensures { IfOk result (λ k. k ≡ m + n) }
{
    m.checked_add(n).ok_or(AllocError)
}

fn product(m: usize, n: usize) -> Result<usize, AllocError>
    ensures { IfOk result (λ k. k ≡ m * n) }
{
    m.checked_mul(n).ok_or(AllocError)
}

/// A number that an index can be.
fn small(n: usize) -> Result<u8, AllocError>
    ensures { IfOk result (λ k. k ≡ n) }
{
    if n < 256 {
        Ok(n as u8)
    } else {
        Err(AllocError)
    }
}

/// How many scalar parts an element has.
#[cycle(counts)]
fn count(tree: &ElementTree) -> Result<usize, AllocError>
    ensures { IfOk result (λ n. n ≡ length (scalars (space_of tree.now))) }
{
    match tree {
        ElementTree::Scalar { .. } => Ok(1),
        ElementTree::Vector { part, dim } => {
            let one = count(part.get())?;
            product(*dim as usize, one)
        }
        ElementTree::Tensor { part, rows, cols } => {
            let one = count(part.get())?;
            product(*rows as usize * *cols as usize, one)
        }
        ElementTree::Mixed { parts } => count_all(parts.as_slice()),
    }
}

#[cycle(counts)]
fn count_all(parts: &[ElementTree]) -> Result<usize, AllocError>
    ensures { IfOk result (λ n. n ≡ length (scalars_of (spaces_in parts.now))) }
{
    let mut total = 0;
    for part in parts {
        total = sum(total, count(part)?)?;
    }
    Ok(total)
}

fn of_list(alloc: Global, parts: &[ElementTree]) -> Result<Items<u8>, AllocError>
    ensures { IfOk result (λ r. r ≡ length (scalars_of (spaces_in parts.now)) ∷ []) }
{
    let size = small(count_all(parts)?)?;
    Items::from_slice(alloc, &[size])
}

/// The shape of a function of this element.
#[tactic(auto, using(spaces::proofs::ReadingLaws::readings))]
fn shape_of(alloc: Global, tree: &ElementTree) -> Result<Items<u8>, AllocError>
    ensures { IfOk result (λ r. r ≡ element_shape (space_of tree.now)) }
{
    match tree {
        ElementTree::Scalar { .. } => Ok(Items::new(alloc)),
        ElementTree::Vector { part: _, dim } => Items::from_slice(alloc, &[*dim]),
        ElementTree::Tensor {
            part: _,
            rows,
            cols,
        } => Items::from_slice(alloc, &[*rows, *cols]),
        ElementTree::Mixed { parts } => of_list(alloc, parts.as_slice()),
    }
}

/// The function as a component of a place that it doesn't have.
fn absent(alloc: Global, f: Function, next: u32) -> Result<Plain, AllocError>
    ensures { IfOk result (λ r. term_of r ≡ absent f next) }
{
    let whole = function(alloc, f, &[])?;
    nothing(alloc, next, whole)
}

/// A component of a function by its number behind the first of a sub-element.
fn numbered(alloc: Global, f: Function, first: usize, number: usize) -> Result<Plain, AllocError>
    ensures { IfOk result (λ r. term_of r ≡ flat f (first + number)) }
{
    let there = sum(first, number)?;
    let at = Ix::Fixed(small(there)?);
    function(alloc, f, &[at])
}

/// A component of a sub-element: that of the function `number` places behind the first of the sub-element's.
fn place(
    alloc: Global,
    f: Function,
    first: usize,
    shape: &[u8],
    number: usize,
    at: &[Ix],
    next: u32,
) -> Result<Plain, AllocError>
    ensures { IfOk result (λ r. term_of r ≡ place_term f first shape.now number at.now next) }
{
    let Some((size, inner)) = shape.split_first() else {
        return if at.is_empty() {
            numbered(alloc, f, first, number)
        } else {
            absent(alloc, f, next)
        };
    };
    let Some((i, rest)) = at.split_first() else {
        return absent(alloc, f, next);
    };
    let start = product(number, *size as usize)?;
    let mut items = Items::new(alloc);
    for j in 0..*size {
        let there = sum(start, j as usize)?;
        items.push(place(alloc, f, first, inner, there, rest, next)?)?;
    }
    Ok(Plain::Pick { at: *i, items })
}

fn in_part(
    alloc: Global,
    f: Function,
    first: usize,
    part: &ElementTree,
    at: &[Ix],
    next: u32,
) -> Result<Plain, AllocError>
    ensures { IfOk result (λ r. term_of r ≡ place_term f first (element_shape (space_of part.now)) 0 at.now next) }
{
    let shape = shape_of(alloc, part)?;
    place(alloc, f, first, shape.as_slice(), 0, at, next)
}

fn in_parts(
    alloc: Global,
    f: Function,
    first: usize,
    parts: &[ElementTree],
    which: u8,
    at: &[Ix],
    next: u32,
) -> Result<Plain, AllocError>
    ensures { IfOk result (λ r. term_of r ≡ piece_term (piece_from first (spaces_in parts.now) which) f at.now next) }
{
    let Some((part, parts)) = parts.split_first() else {
        return absent(alloc, f, next);
    };
    if which == 0 {
        in_part(alloc, f, first, part, at, next)
    } else {
        let behind = sum(first, count(part)?)?;
        in_parts(alloc, f, behind, parts, which - 1, at, next)
    }
}

#[tactic(auto, using(spaces::proofs::ReadingLaws::readings))]
fn in_element(
    alloc: Global,
    f: Function,
    tree: &ElementTree,
    which: u8,
    at: &[Ix],
    next: u32,
) -> Result<Plain, AllocError>
    ensures { IfOk result (λ r. term_of r ≡ piece_term (piece_of (space_of tree.now) which) f at.now next) }
{
    match tree {
        ElementTree::Mixed { parts } => in_parts(alloc, f, 0, parts.as_slice(), which, at, next),
        ElementTree::Scalar { .. } => absent(alloc, f, next),
        ElementTree::Vector { .. } => absent(alloc, f, next),
        ElementTree::Tensor { .. } => absent(alloc, f, next),
    }
}

/// A component of the sub-element of this number; 0 with the weight of the function where there is none.
pub fn piece(
    alloc: Global,
    elements: &Elements,
    f: Function,
    which: u8,
    at: &[Ix],
    next: u32,
) -> Result<Plain, AllocError>
    ensures { IfOk result (λ r. term_of r
        ≡ piece_term (sub_element (slice_get (table_of elements.now) f.element) which) f at.now next) }
{
    match elements.get(f.element) {
        Some(element) => in_element(alloc, f, element.tree(), which, at, next),
        None => absent(alloc, f, next),
    }
}
