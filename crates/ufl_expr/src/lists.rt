//! Lists of expressions: on one cell, of equal shapes and free indices.

ghost use Rattle.std.specs.Prelude.{◌≡◌, map, None};
ghost use Rattle.ufl_tree.specs.Reading.{kind_of};
ghost use Rattle.ufl_expr.specs.Answer.{Gives};
ghost use Rattle.ufl_expr.specs.Table.{cell_behind, have_shape, have_free, list_shape, list_free, list_kind};
ghost use Rattle.ufl_expr.specs.Signatures.{kinds};

use crate::expr::Expr;
use crate::frees::{copied_frees, same_frees};
use crate::refusal::TypeRefusal;
use crate::shapes::{same_shape, sizes};
use crate::signature::{Signature, joined_cell, together};
use spaces::Cell;
use sqlite_items::Items;
use std::alloc::Global;
use ufl_tree::Free;

/// Most items of a list.
const MOST_ITEMS: usize = 255;

/// The common cell of the items, where functions occur.
fn cell_of_all(items: &[Expr]) -> Result<Option<Cell>, TypeRefusal>
    ensures { result ≡ cell_behind None (map kind_of items.now) }
{
    let mut cell = None;
    for item in items {
        cell = joined_cell(cell, item.cell())?;
    }
    Ok(cell)
}

/// Each item has this shape.
fn have_shape(shape: &[u8], items: &[Expr]) -> bool
    ensures { result ≡ have_shape shape.now (map kind_of items.now) }
{
    for item in items {
        if !same_shape(item.shape(), shape) {
            return false;
        }
    }
    true
}

/// Each item has these free indices.
fn have_free(free: &[Free], items: &[Expr]) -> bool
    ensures { result ≡ have_free free.now (map kind_of items.now) }
{
    for item in items {
        if !same_frees(item.free(), free) {
            return false;
        }
    }
    true
}

/// The number of items, then their shape.
fn list_shape(alloc: Global, items: &[Expr]) -> Result<Items<u8>, TypeRefusal>
    ensures { Gives result (list_shape (map kind_of items.now)) }
{
    match items.split_first() {
        None => Err(TypeRefusal::Shape),
        Some((first, rest)) => {
            if items.len() > MOST_ITEMS || !have_shape(first.shape(), rest) {
                return Err(TypeRefusal::Shape);
            }
            sizes(alloc, &[items.len() as u8], first.shape())
        }
    }
}

/// The free indices of each item.
fn list_free(alloc: Global, items: &[Expr]) -> Result<Items<Free>, TypeRefusal>
    ensures { Gives result (list_free (map kind_of items.now)) }
{
    match items.split_first() {
        None => Ok(Items::new(alloc)),
        Some((first, rest)) => {
            if !have_free(first.free(), rest) {
                return Err(TypeRefusal::FreeIndex);
            }
            copied_frees(alloc, first.free())
        }
    }
}

/// What a list says of its value.
pub(crate) fn list_signature(alloc: Global, items: &[Expr]) -> Result<Signature, TypeRefusal>
    ensures { Gives (kinds result) (list_kind (map kind_of items.now)) }
{
    together(
        cell_of_all(items),
        list_shape(alloc, items),
        list_free(alloc, items),
    )
}
