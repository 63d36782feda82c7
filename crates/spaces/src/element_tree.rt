//! Elements as plain trees.

ghost use Rattle.std.specs.Prelude.{◌≡◌, IfOk};

use crate::cell::Cell;
use crate::family::Family;
use sqlite_items::{Boxed, Items};
use std::alloc::{AllocError, Global};

/// An element as a tree. Any tree can be written; those in an `Element` are lawful.
#[derive(Drop)]
pub enum ElementTree {
    /// One scalar part.
    Scalar {
        family: Family,
        cell: Cell,
        degree: u8,
    },
    /// The same scalar element `dim` times.
    Vector {
        part: Boxed<ElementTree>,
        dim: u8,
    },
    /// The same scalar element for each row and column, row by row.
    Tensor {
        part: Boxed<ElementTree>,
        rows: u8,
        cols: u8,
    },
    /// The parts one after the other.
    Mixed {
        parts: Items<ElementTree>,
    },
}

/// An equal tree.
#[cycle(copy)]
pub fn copy_tree(alloc: Global, tree: &ElementTree) -> Result<ElementTree, AllocError>
    ensures { IfOk result (λ t. t ≡ tree.now) }
{
    match tree {
        ElementTree::Scalar {
            family,
            cell,
            degree,
        } => Ok(ElementTree::Scalar {
            family: *family,
            cell: *cell,
            degree: *degree,
        }),
        ElementTree::Vector { part, dim } => Ok(ElementTree::Vector {
            part: copy_part(alloc, part)?,
            dim: *dim,
        }),
        ElementTree::Tensor { part, rows, cols } => Ok(ElementTree::Tensor {
            part: copy_part(alloc, part)?,
            rows: *rows,
            cols: *cols,
        }),
        ElementTree::Mixed { parts } => Ok(ElementTree::Mixed {
            parts: copy_all(alloc, parts.as_slice())?,
        }),
    }
}

#[cycle(copy)]
fn copy_part(alloc: Global, part: &Boxed<ElementTree>) -> Result<Boxed<ElementTree>, AllocError>
    ensures { IfOk result (λ p. p ≡ part.now) }
{
    Boxed::new(alloc, copy_tree(alloc, part.get())?)
}

#[cycle(copy)]
fn copy_all(alloc: Global, parts: &[ElementTree]) -> Result<Items<ElementTree>, AllocError>
    ensures { IfOk result (λ all. all ≡ parts.now) }
{
    let mut all = Items::new(alloc);
    for part in parts {
        all.push(copy_tree(alloc, part)?)?;
    }
    Ok(all)
}
