//! What parts of functions of mixed elements say of their values.

ghost use Rattle.std.specs.Prelude.{◌≡◌, IfOk, Some, length};
ghost use Rattle.spaces.specs.Reading.{space_of, spaces_in};
ghost use Rattle.spaces.specs.Space.{IsLawful, scalars, scalars_of};
ghost use Rattle.ufl_expr.specs.Few.{AreFew};
ghost use Rattle.ufl_tree.specs.Places.{table_of, element_shape, piece_of};
ghost use Rattle.ufl_expr.specs.Answer.{Gives};
ghost use Rattle.ufl_expr.specs.Elements.{piece_kind, piece_in};
ghost use Rattle.ufl_expr.specs.Signatures.{kinds};

use crate::elements::Elements;
use crate::refusal::TypeRefusal;
use crate::signature::Signature;
use spaces::{Element, ElementTree};
use sqlite_items::Items;
use std::alloc::{AllocError, Global};
use ufl_tree::Function;

/// How many scalar parts a lawful tree has.
#[cycle(counts)]
fn scalar_count(tree: &ElementTree) -> u32
    ensures { IsLawful (space_of tree.now) → result ≡ length (scalars (space_of tree.now)) }
{
    match tree {
        ElementTree::Scalar { .. } => 1,
        ElementTree::Vector { dim, .. } => *dim as u32,
        ElementTree::Tensor { rows, cols, .. } => *rows as u32 * *cols as u32,
        ElementTree::Mixed { parts } => scalar_counts(parts.as_slice()),
    }
}

/// The same of a lawful list of trees; a sum that is no lawful list's may saturate.
#[cycle(counts)]
fn scalar_counts(trees: &[ElementTree]) -> u32
    ensures { AreFew (spaces_in trees.now) → result ≡ length (scalars_of (spaces_in trees.now)) }
{
    let mut count: u32 = 0;
    for tree in trees {
        count = count.saturating_add(scalar_count(tree));
    }
    count
}

/// The shape of a function of this element, given as a tree.
#[tactic(auto, using(spaces::proofs::ReadingLaws::readings))]
fn tree_shape(alloc: Global, tree: &ElementTree) -> Result<Items<u8>, AllocError>
    requires { IsLawful (space_of tree.now) }
    ensures { IfOk result (λ shape. shape ≡ element_shape (space_of tree.now)) }
{
    match tree {
        ElementTree::Scalar { .. } => Ok(Items::new(alloc)),
        ElementTree::Vector { dim, .. } => Items::from_slice(alloc, &[*dim]),
        ElementTree::Tensor { rows, cols, .. } => Items::from_slice(alloc, &[*rows, *cols]),
        ElementTree::Mixed { .. } => Items::from_slice(alloc, &[scalar_count(tree) as u8]),
    }
}

/// Of the sub-element of this number. `Kind` exactly where there is none.
#[tactic(auto, using(crate::proofs::PieceLaws::mixed_part, crate::proofs::PieceLaws::mixed_none, spaces::proofs::ReadingLaws::readings))]
fn part_signature(alloc: Global, element: &Element, which: u8) -> Result<Signature, TypeRefusal>
    ensures { Gives (kinds result) (piece_kind (Some (space_of element.now)) (piece_of (space_of element.now) which)) }
{
    match element.tree() {
        ElementTree::Mixed { parts } => match parts.get(which as usize) {
            None => Err(TypeRefusal::Kind),
            Some(part) => Ok(Signature {
                shape: tree_shape(alloc, part)?,
                free: Items::new(alloc),
                cell: Some(element.cell()),
            }),
        },
        ElementTree::Scalar { .. } => Err(TypeRefusal::Kind),
        ElementTree::Vector { .. } => Err(TypeRefusal::Kind),
        ElementTree::Tensor { .. } => Err(TypeRefusal::Kind),
    }
}

/// Of a part of a function of a mixed element in the table. `Kind` exactly where there is no such element or part.
pub(crate) fn piece_signature(
    alloc: Global,
    f: Function,
    elements: &Elements,
    which: u8,
) -> Result<Signature, TypeRefusal>
    ensures { Gives (kinds result) (piece_in (table_of elements.now) f which) }
{
    match elements.element_of(f) {
        None => Err(TypeRefusal::Kind),
        Some(element) => part_signature(alloc, element, which),
    }
}
