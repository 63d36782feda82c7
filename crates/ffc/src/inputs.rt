//! The form and the mesh that a command names.
ghost use Rattle.std.specs.Prelude.{◌≡◌, ◌+◌, ◌<◌, ◌^◌, ℕ, List, take, OnOk, IfOk, IfErr};
ghost use Rattle.mesh_in.specs.MeshData.{IsMesh, fractions};
ghost use Rattle.ffc.specs.Inputs.{loads, IsText, LoadCause, HasMesh, MeshCause};

use answers::Outcome;
use ends::files::{Files, LoadError};
use mesh_in::{MESH_LIMIT, Mesh, read_mesh_of};
use slices::FORM_LIMIT;
use spaces::Cell;
use std::alloc::Global;

// The bytes of a file, with one more than the limit at most: that one says that it is too long.
fn load<F: Files>(
    alloc: Global,
    files: &mut F,
    name: &str,
    limit: u32,
    file: u8,
) -> Result<Vec<u8>, Outcome>
    requires { limit + 1 < 2 ^ 32 }
    ensures ok { IfOk result (λ bytes. (text : List ℕ) × IsText (F.content files.old) name.now text
        × (take (limit + 1) text ≡ bytes.items)) }
    ensures content { F.content files.new ≡ F.content files.old }
    ensures no_fault { OnOk result (F.faults files.new ≡ F.faults files.old) }
    ensures cause { IfErr result (LoadCause (loads (F.content files.old) (F.faults files.old)
        (F.faults files.new) (F.last_failed files.new)) file name.now) }
{
    let mut bytes = Vec::new(alloc);
    match files.load(name, limit + 1, &mut bytes) {
        Ok(()) => Ok(bytes),
        Err(LoadError::Fault) => Err(Outcome::ReadFault(file)),
        Err(LoadError::Memory) => Err(Outcome::Memory),
    }
}

/// Loads the text of a form file; of one that is too long, a byte more than the limit.
pub fn load_form<F: Files>(alloc: Global, files: &mut F, name: &str) -> Result<Vec<u8>, Outcome>
    ensures text { IfOk result (λ bytes. (text : List ℕ) × IsText (F.content files.old) name.now text
        × (take (FORM_LIMIT + 1) text ≡ bytes.items)) }
    ensures content { F.content files.new ≡ F.content files.old }
    ensures no_fault { OnOk result (F.faults files.new ≡ F.faults files.old) }
    ensures cause { IfErr result (LoadCause (loads (F.content files.old) (F.faults files.old)
        (F.faults files.new) (F.last_failed files.new)) 1 name.now) }
{
    load(alloc, files, name, FORM_LIMIT, 1)
}

/// Loads a mesh of these cells.
pub fn load_mesh<F: Files>(
    alloc: Global,
    files: &mut F,
    cell: Cell,
    name: &str,
) -> Result<Mesh, Outcome>
    ensures mesh { IfOk result (λ mesh. HasMesh (F.content files.old) name.now cell (fractions mesh)) }
    ensures lawful { IfOk result IsMesh }
    ensures cause { IfErr result (MeshCause (loads (F.content files.old) (F.faults files.old)
        (F.faults files.new) (F.last_failed files.new)) name.now cell) }
{
    let text = load(alloc, files, name, MESH_LIMIT, 2)?;
    match read_mesh_of(alloc, cell, text.as_slice()) {
        Ok(mesh) => Ok(mesh),
        Err(refusal) => Err(Outcome::from(refusal)),
    }
}
