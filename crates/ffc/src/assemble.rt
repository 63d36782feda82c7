//! The command `assemble`.
ghost use Rattle.std.specs.Prelude.{IfOk, IfErr};
ghost use Rattle.ffc.specs.Inputs.{loads};
ghost use Rattle.ffc.specs.Assemble.{AssembleCause, IsAssembledText};

use crate::forms::{form_of_name, program_of};
use crate::inputs::load_mesh;
use crate::values::values_text;
use answers::Outcome;
use ends::files::Files;
use std::alloc::Global;

/// The text of the values of the form of a name on the mesh. Nothing is said of a mesh before the form is accepted.
pub fn assemble<F: Files>(
    alloc: Global,
    files: &mut F,
    file: &[u8],
    name: &str,
    mesh: &str,
) -> Result<Vec<u8>, Outcome>
    ensures text { IfOk result (λ text. IsAssembledText (F.content files.old) file.now name.now mesh.now text.items) }
    ensures cause { IfErr result (AssembleCause (loads (F.content files.old) (F.faults files.old)
        (F.faults files.new) (F.last_failed files.new)) file.now name.now mesh.now) }
{
    let name = name.as_bytes();
    let program = program_of(alloc, file)?;
    let named = form_of_name(alloc, file, &program, name)?;
    let mesh = load_mesh(alloc, files, named.form.cell(), mesh)?;
    let text = values_text(alloc, name, &program, named, &mesh)?;
    Ok(text)
}
