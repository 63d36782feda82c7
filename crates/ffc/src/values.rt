//! The text of the values of a form on a mesh.
ghost use Rattle.std.specs.Prelude.{◌≡◌, [], IfOk, IfErr, OnOk};
ghost use Rattle.std.specs.Option.{option_copied};
ghost use Rattle.mesh_in.specs.MeshData.{IsMesh, fractions};
ghost use Rattle.monos.specs.declared.weight.Weight.{Weight};
ghost use Rattle.ufl_form.specs.declared.table.FormKind.{FormKind};
ghost use Rattle.assembly.specs.Assembly.{row_count};
ghost use Rattle.form_assembly.specs.Assembled.{HasValues, Refuses};
ghost use Rattle.ffc.specs.Assemble.{IsValuesText};
ghost use Rattle.ffc.specs.Forms.{IsAdmitted, problem_of, occurring_of};

use admit::rank;
use answers::push_values;
use assembly::{Rows, RunRefusal};
use dofs::DofMap;
use form_assembly::{FormAssembly, laws};
use mesh_in::Mesh;
use std::alloc::Global;
use ufl_elab::{Named, UflProgram};

// One where the form has no trial function.
fn column_count(trial: Option<&DofMap>) -> u32
    ensures { result ≡ row_count (option_copied trial.entry) }
{
    match trial {
        Some(map) => map.count(),
        None => 1,
    }
}

/// The text of the values of a form without coefficients on a mesh of its cells. Each row is written as it is added up.
pub fn values_text(
    alloc: Global,
    name: &[u8],
    program: &UflProgram,
    named: &Named,
    mesh: &Mesh,
) -> Result<Vec<u8>, RunRefusal>
    requires admitted { (k : FormKind) × (w : Weight) × IsAdmitted program.now named.now k w × (mesh.now.kind ≡ k.cell) }
    requires without { (occurring_of program.now named.now).coefficients ≡ [] }
    requires mesh { IsMesh mesh.now }
    ensures text { IfOk result (λ text. IsValuesText name.now (problem_of program.now named.now (fractions mesh.now)) text.items) }
    ensures whole { OnOk result (HasValues (problem_of program.now named.now (fractions mesh.now)) (occurring_of program.now named.now)) }
    ensures refusal { (k : FormKind) (w : Weight) → IsAdmitted program.now named.now k w
        → IfErr result (Refuses (problem_of program.now named.now (fractions mesh.now)) (occurring_of program.now named.now) w) }
{
    let assembly = FormAssembly::new(
        alloc,
        name,
        &named.form,
        &program.elements,
        program.coefficients.as_slice(),
        mesh,
    )?;
    laws::prepared();
    laws::refusals();
    let mut rows = Rows::new(
        alloc,
        &assembly.functions.functions,
        &assembly.functions.layout,
        mesh,
        assembly.test.as_ref(),
        assembly.trial.as_ref(),
        &[],
    )?;
    let columns = column_count(assembly.trial.as_ref());
    laws::values();
    let mut text = Vec::new(alloc);
    push_values(&mut text, name, rank(&named.form), columns, &mut rows)?;
    Ok(text)
}
