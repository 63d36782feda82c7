//! Equality of cells and elements.

ghost use Rattle.std.specs.Prelude.{◌≡◌};
ghost use Rattle.spaces.specs.Cell.{same_cell};
ghost use Rattle.spaces.specs.Equality.{same_family, same_sizes, same_space, same_spaces};
ghost use Rattle.spaces.specs.Reading.{space_of, spaces_in};

use crate::cell::Cell;
use crate::element_tree::ElementTree;
use crate::family::Family;

fn same_family(family: Family, other: Family) -> bool
    ensures { result ≡ same_family family other }
{
    family == other
}

/// Whether two cells are one.
pub fn same_cell(cell: Cell, other: Cell) -> bool
    ensures { result ≡ same_cell cell other }
{
    cell == other
}

/// As many rows, and as many columns.
fn same_sizes(rows: u8, columns: u8, other_rows: u8, other_columns: u8) -> bool
    ensures { result ≡ same_sizes rows columns other_rows other_columns }
{
    rows == other_rows && columns == other_columns
}

/// Whether two elements are equal: of the same families, cells, degrees and sizes, in the same order.
#[tactic(auto, using(crate::proofs::ReadingLaws::readings))]
#[cycle(same)]
pub fn same_element(tree: &ElementTree, other: &ElementTree) -> bool
    ensures { result ≡ same_space (space_of tree.now) (space_of other.now) }
{
    match tree {
        ElementTree::Scalar {
            family,
            cell,
            degree,
        } => match other {
            ElementTree::Scalar {
                family: f,
                cell: c,
                degree: d,
            } => same_family(*family, *f) && same_cell(*cell, *c) && *degree == *d,
            ElementTree::Vector { .. } => false,
            ElementTree::Tensor { .. } => false,
            ElementTree::Mixed { .. } => false,
        },
        ElementTree::Vector { part, dim } => match other {
            ElementTree::Scalar { .. } => false,
            ElementTree::Vector { part: p, dim: d } => *dim == *d
                && same_element(part.get(), p.get()),
            ElementTree::Tensor { .. } => false,
            ElementTree::Mixed { .. } => false,
        },
        ElementTree::Tensor { part, rows, cols } => match other {
            ElementTree::Scalar { .. } => false,
            ElementTree::Vector { .. } => false,
            ElementTree::Tensor {
                part: p,
                rows: m,
                cols: n,
            } => {
                let same = same_sizes(*rows, *cols, *m, *n);
                same && same_element(part.get(), p.get())
            }
            ElementTree::Mixed { .. } => false,
        },
        ElementTree::Mixed { parts } => match other {
            ElementTree::Scalar { .. } => false,
            ElementTree::Vector { .. } => false,
            ElementTree::Tensor { .. } => false,
            ElementTree::Mixed { parts: ps } => same_elements(parts.as_slice(), ps.as_slice()),
        },
    }
}

/// Equal trees, one by one.
#[cycle(same)]
fn same_elements(trees: &[ElementTree], others: &[ElementTree]) -> bool
    ensures { result ≡ same_spaces (spaces_in trees.now) (spaces_in others.now) }
{
    let mut left = others;
    for tree in trees {
        match left.split_first() {
            None => return false,
            Some((other, rest)) => {
                if !same_element(tree, other) {
                    return false;
                }
                left = rest;
            }
        }
    }
    left.is_empty()
}
