//! Where the components of a function, and those of its sub-elements, stand in its flat list.

ghost use Rattle.std.specs.Prelude.{◌≡◌, IfOk, [], ◌∷◌};
ghost use Rattle.spaces.specs.Reading.{space_of, spaces_in};
ghost use Rattle.ufl_tree.specs.Indices.{place};
ghost use Rattle.ufl_tree.specs.Places.{table_of, element_shape, function_place as place_of_function, piece_from, piece_of, piece_place as place_of_piece, place_after, place_in_piece};

use crate::component::{Spot, measured};
use crate::parts::{behind, count, count_all};
use reference::Fault;
use spaces::{Element, ElementTree};
use ufl_tree::Function;

#[tactic(auto, using(crate::proofs::PlaceLaws::places))]
fn in_scalar(at: &[u8]) -> Option<usize>
    ensures { result ≡ place [] at.now }
{
    match measured(at) {
        Spot::Scalar => Some(0),
        Spot::Vector(_) => None,
        Spot::Matrix(_, _) => None,
        Spot::Longer => None,
    }
}

#[tactic(auto, using(crate::proofs::PlaceLaws::places))]
fn in_vector(size: u8, at: &[u8]) -> Option<usize>
    ensures { result ≡ place (size ∷ []) at.now }
{
    match measured(at) {
        Spot::Vector(i) => if i < size { Some(i as usize) } else { None },
        Spot::Scalar => None,
        Spot::Matrix(_, _) => None,
        Spot::Longer => None,
    }
}

#[tactic(auto, using(crate::proofs::PlaceLaws::places))]
fn in_matrix(rows: u8, cols: u8, at: &[u8]) -> Option<usize>
    ensures { result ≡ place (rows ∷ cols ∷ []) at.now }
{
    match measured(at) {
        Spot::Matrix(i, j) => if i < rows && j < cols {
            Some(i as usize * cols as usize + j as usize)
        } else {
            None
        },
        Spot::Scalar => None,
        Spot::Vector(_) => None,
        Spot::Longer => None,
    }
}

fn in_list(size: usize, at: &[u8]) -> Result<Option<usize>, Fault>
    ensures { IfOk result (λ o. o ≡ place (size ∷ []) at.now) }
{
    if size > 255 {
        return Err(Fault::Range);
    }
    Ok(in_vector(size as u8, at))
}

fn in_shape(tree: &ElementTree, at: &[u8]) -> Result<Option<usize>, Fault>
    ensures { IfOk result (λ o. o ≡ place (element_shape (space_of tree.now)) at.now) }
{
    match tree {
        ElementTree::Scalar { .. } => Ok(in_scalar(at)),
        ElementTree::Vector { part: _, dim } => Ok(in_vector(*dim, at)),
        ElementTree::Tensor {
            part: _,
            rows,
            cols,
        } => Ok(in_matrix(*rows, *cols, at)),
        ElementTree::Mixed { parts } => {
            let size = count_all(parts.as_slice())?;
            in_list(size, at)
        }
    }
}

fn after(before: usize, place: Option<usize>) -> Result<Option<usize>, Fault>
    ensures { IfOk result (λ o. o ≡ place_after before place) }
{
    let Some(n) = place else {
        return Ok(None);
    };
    let moved = behind(before, n)?;
    Ok(Some(moved))
}

fn in_parts(
    before: usize,
    parts: &[ElementTree],
    which: u8,
    at: &[u8],
) -> Result<Option<usize>, Fault>
    ensures { IfOk result (λ o. o ≡ place_in_piece (piece_from before (spaces_in parts.now) which) at.now) }
{
    let Some((first, rest)) = parts.split_first() else {
        return Ok(None);
    };
    if which == 0 {
        let own = in_shape(first, at)?;
        after(before, own)
    } else {
        let next = behind(before, count(first)?)?;
        in_parts(next, rest, which - 1, at)
    }
}

fn in_mixed(tree: &ElementTree, which: u8, at: &[u8]) -> Result<Option<usize>, Fault>
    ensures { IfOk result (λ o. o ≡ place_in_piece (piece_of (space_of tree.now) which) at.now) }
{
    match tree {
        ElementTree::Mixed { parts } => in_parts(0, parts.as_slice(), which, at),
        ElementTree::Scalar { .. } => Ok(None),
        ElementTree::Vector { .. } => Ok(None),
        ElementTree::Tensor { .. } => Ok(None),
    }
}

/// The place of a component of a function, if there is such an element and component.
pub fn function_place(elements: &[Element], f: Function, at: &[u8]) -> Result<Option<usize>, Fault>
    ensures { IfOk result (λ o. o ≡ place_of_function (table_of elements.now) f at.now) }
{
    match elements.get(f.element as usize) {
        Some(element) => in_shape(element.tree(), at),
        None => Ok(None),
    }
}

/// The place of a component of a sub-element of a function, if there is such an element, sub-element and component.
pub fn piece_place(
    elements: &[Element],
    f: Function,
    which: u8,
    at: &[u8],
) -> Result<Option<usize>, Fault>
    ensures { IfOk result (λ o. o ≡ place_of_piece (table_of elements.now) f which at.now) }
{
    match elements.get(f.element as usize) {
        Some(element) => in_mixed(element.tree(), which, at),
        None => Ok(None),
    }
}
