//! The labels of the local nodes of a cell.

ghost use Rattle.std.specs.Prelude.{◌≡◌, ◌+◌, ◌≤◌, ◌++◌, length, map, OnOk};
ghost use Rattle.std.specs.List.{AllByRecursion};
ghost use Rattle.spaces.specs.Cell.{dimension};
ghost use Rattle.spaces.specs.Scalar.{scalar_of};
ghost use Rattle.dofs.specs.Label.{cell_in_label};
ghost use Rattle.dofs.specs.Arrays.{key_of};
ghost use Rattle.dofs.specs.Parts.{IsOn};
ghost use Rattle.dofs.specs.Rows.{part_labels, local_labels, constants};

use crate::key::Key;
use crate::support::{Support, node_support};
use spaces::{Cell, Family, Part, weights};
use std::alloc::AllocError;

/// A cell of a mesh: its kind, number and vertices.
#[derive(Clone, Copy)]
pub struct MeshCell<'a> {
    pub kind: Cell,
    pub number: u32,
    pub vertices: &'a [u32],
}

/// The cell of a label: the nodes of discontinuous parts are no other cell's.
fn cell_in_label(family: Family, number: u32) -> Option<u32>
    ensures { result ≡ cell_in_label family number }
{
    match family {
        Family::Dg => Some(number),
        Family::Lagrange | Family::Real => None,
    }
}

/// Appends those of one part, in the order of its nodes.
fn push_part(
    keys: &mut Vec<Key>,
    cell: MeshCell<'_>,
    number: u8,
    part: Part,
) -> Result<(), AllocError>
    requires degree { part.degree ≤ 3 }
    requires vertices { length cell.vertices.now ≡ dimension cell.kind + 1 }
    ensures { OnOk result (keys.new.items ≡ keys.old.items ++ map key_of (part_labels cell.entry.kind number (scalar_of part) cell.entry.number cell.entry.vertices.now)) }
{
    let of_cell = cell_in_label(part.family, cell.number);
    for node in weights(cell.kind, part.degree) {
        keys.push(Key {
            part: number,
            cell: of_cell,
            support: node_support(cell.vertices, *node),
        })?;
    }
    Ok(())
}

/// Appends those of all parts, part after part.
pub fn push_local(keys: &mut Vec<Key>, cell: MeshCell<'_>, parts: &[Part]) -> Result<(), AllocError>
    requires few { length parts.now ≤ 64 }
    requires degrees { AllByRecursion (IsOn cell.kind) (map scalar_of parts.now) }
    requires vertices { length cell.vertices.now ≡ dimension cell.kind + 1 }
    ensures { OnOk result (keys.new.items ≡ keys.old.items ++ map key_of (local_labels cell.entry.kind 0 (map scalar_of parts.now) cell.entry.number cell.entry.vertices.now)) }
{
    let mut number: u8 = 0;
    for part in parts {
        push_part(keys, cell, number, *part)?;
        number += 1;
    }
    Ok(())
}

/// Appends those that don't need a cell.
pub fn push_constants(keys: &mut Vec<Key>, parts: &[Part]) -> Result<(), AllocError>
    requires { length parts.now ≤ 64 }
    ensures { OnOk result (keys.new.items ≡ keys.old.items ++ map key_of (constants 0 (map scalar_of parts.now))) }
{
    let mut number: u8 = 0;
    for part in parts {
        if part.family == Family::Real {
            keys.push(Key {
                part: number,
                cell: None,
                support: Support::EMPTY,
            })?;
        }
        number += 1;
    }
    Ok(())
}
