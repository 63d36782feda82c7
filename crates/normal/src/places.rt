//! Where the component of a function stands in the flat list of its element.

ghost use Rattle.std.specs.Prelude.{◌≡◌, ◌*◌, ◌≤◌, [], ◌∷◌, nat_lt, if◌then◌else◌, Some, None};
ghost use Rattle.spaces.specs.Reading.{space_of};
ghost use Rattle.ufl_tree.specs.Indices.{Names, index_values, place};
ghost use Rattle.ufl_tree.specs.Places.{table_of, element_shape, function_place as place_of_function};
ghost use Rattle.normal.specs.Gathering.{names_of};

use crate::names::{Bound, index_value};
use spaces::{Element, ElementTree};
use ufl_expr::Elements;
use ufl_tree::{Function, Ix};

fn below(k: u8, size: u8) -> Option<u8>
    ensures { result ≡ (if nat_lt k size then Some k else None) }
{
    if k < size { Some(k) } else { None }
}

fn in_scalar(at: &[Ix]) -> Option<u8>
    ensures { (v : Names) → result ≡ place [] (index_values v at.now) }
{
    match at.split_first() {
        None => Some(0),
        Some(_) => None,
    }
}

fn in_row(bounds: &[Bound], at: &[Ix], size: u8) -> Option<u8>
    ensures { result ≡ place (size ∷ []) (index_values (names_of bounds.now) at.now) }
{
    let (i, rest) = at.split_first()?;
    match rest.split_first() {
        None => below(index_value(bounds, *i), size),
        Some(_) => None,
    }
}

fn in_matrix(bounds: &[Bound], at: &[Ix], rows: u8, cols: u8) -> Option<u8>
    requires { rows * cols ≤ 64 }
    ensures { result ≡ place (rows ∷ cols ∷ []) (index_values (names_of bounds.now) at.now) }
{
    let (i, rest) = at.split_first()?;
    let row = below(index_value(bounds, *i), rows)?;
    let col = in_row(bounds, rest, cols)?;
    Some(row * cols + col)
}

fn in_element(bounds: &[Bound], at: &[Ix], element: &Element) -> Option<u8>
    ensures { result ≡ place (element_shape (space_of element.now)) (index_values (names_of bounds.now) at.now) }
{
    match element.tree() {
        ElementTree::Scalar { .. } => in_scalar(at),
        ElementTree::Vector { dim, .. } => in_row(bounds, at, *dim),
        ElementTree::Tensor { rows, cols, .. } => in_matrix(bounds, at, *rows, *cols),
        ElementTree::Mixed { .. } => in_row(bounds, at, element.value_size()),
    }
}

/// The place of a component of a function, or `None` exactly where there is no such element or component.
pub fn function_place(elements: &Elements, f: Function, bounds: &[Bound], at: &[Ix]) -> Option<u8>
    ensures { result ≡ place_of_function (table_of elements.now) f (index_values (names_of bounds.now) at.now) }
{
    match elements.get(f.element) {
        Some(element) => in_element(bounds, at, element),
        None => None,
    }
}
