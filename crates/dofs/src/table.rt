//! The labels of all cells, and the rows of their local nodes.

ghost use Rattle.std.specs.Prelude.{◌≡◌, ◌*◌, ◌<◌, ◌≤◌, ◌^◌, ◌++◌, length, map, IfOk};
ghost use Rattle.std.specs.List.{AllByRecursion};
ghost use Rattle.spaces.specs.Scalar.{scalar_of, local_size};
ghost use Rattle.mesh_in.specs.MeshData.{rows, IsMesh};
ghost use Rattle.dofs.specs.Arrays.{key_of};
ghost use Rattle.dofs.specs.Parts.{IsOn};
ghost use Rattle.dofs.specs.Rows.{labels_from, constants, rows_of, cell_rows};

use crate::key::Key;
use crate::local::{MeshCell, push_constants, push_local};
use crate::ranks::{RankedKeys, ranked};
use mesh_in::Mesh;
use spaces::Part;
use std::alloc::{AllocError, Global};

/// The labels of all cells, as often as they occur, and then those that need no cell.
fn occurring(alloc: Global, mesh: &Mesh, parts: &[Part]) -> Result<Vec<Key>, AllocError>
    requires few { length parts.now ≤ 64 }
    requires degrees { AllByRecursion (IsOn mesh.now.kind) (map scalar_of parts.now) }
    ensures keys { IfOk result (λ keys. keys.items ≡ map key_of (labels_from mesh.now.kind (map scalar_of parts.now) 0 mesh.now.cells) ++ map key_of (constants 0 (map scalar_of parts.now))) }
    ensures mesh { IsMesh mesh.now }
{
    let kind = mesh.kind();
    let mut keys = Vec::new(alloc);
    for k in 0..mesh.cells() {
        let cell = MeshCell {
            kind,
            number: k,
            vertices: mesh.cell(k).vertices,
        };
        push_local(&mut keys, cell, parts)?;
    }
    push_constants(&mut keys, parts)?;
    Ok(keys)
}

/// The labels of all rows in order, and the rows of the local nodes of all cells, cell after cell. A mesh has few enough cells
/// for row numbers of 32 bits.
pub fn row_table(
    alloc: Global,
    mesh: &Mesh,
    parts: &[Part],
    local: u32,
) -> Result<RankedKeys, AllocError>
    requires few { length parts.now ≤ 64 }
    requires degrees { AllByRecursion (IsOn mesh.now.kind) (map scalar_of parts.now) }
    requires local { local ≡ local_size (map scalar_of parts.now) }
    ensures labels { IfOk result (λ t. t.labels.items ≡ map key_of (rows_of mesh.now.kind (map scalar_of parts.now) mesh.now.cells)) }
    ensures few { IfOk result (λ t. length t.labels.items < 2 ^ 32) }
    ensures size { IfOk result (λ t. length t.ranks.items ≡ length mesh.now.cells * local_size (map scalar_of parts.now)) }
    ensures fit { IfOk result (λ t. length t.ranks.items < 2 ^ 32) }
    ensures rows { IfOk result (λ t. rows (local_size (map scalar_of parts.now)) (length mesh.now.cells) t.ranks.items
        ≡ cell_rows mesh.now.kind (map scalar_of parts.now) (rows_of mesh.now.kind (map scalar_of parts.now) mesh.now.cells) 0 mesh.now.cells) }
{
    let keys = occurring(alloc, mesh, parts)?;
    let mut table = ranked(alloc, &keys)?;
    table.ranks.truncate(mesh.cells() as usize * local as usize);
    Ok(table)
}
