//! A form's functions, and the rows of its arguments on a mesh.

ghost use Rattle.std.specs.Prelude.{◌≡◌, ◌*◌, ℕ, List, [], Some, length, nat_lt, IfOk, IfErr, OnOk};
ghost use Rattle.spaces.specs.Space.{Space, cell_of};
ghost use Rattle.mesh_in.specs.MeshData.{fractions};
ghost use Rattle.monos.specs.declared.weight.Weight.{Weight};
ghost use Rattle.ufl_tree.specs.Places.{table_of};
ghost use Rattle.ufl_form.specs.declared.table.FormKind.{FormKind};
ghost use Rattle.ufl_form.specs.Reading.{form_of};
ghost use Rattle.assembly.specs.Assembly.{entry_count, most_entries};
ghost use Rattle.form_values.specs.CellLayout.{Occurring, layout_of};
ghost use Rattle.form_layouts.specs.Layouts.{element_at};
ghost use Rattle.form_layouts.specs.Problems.{form_problem};
ghost use Rattle.form_kernels.specs.Admitted.{IsAdmittedForm, occurring_in};
ghost use Rattle.form_assembly.specs.Assembled.{IsFew};
ghost use Rattle.form_assembly.specs.Prepared.{AreRowsOf, IsPreparedForm, IsUnprepared};

use assembly::RunRefusal;
use dofs::{DofMap, number};
use form_kernels::{FormFunctions, functions};
use form_layouts::{entry_count, test_element, trial_element};
use mesh_in::Mesh;
use std::alloc::{AllocError, Global};
use typing::fitting;
use ufl_expr::Elements;
use ufl_form::Form;

/// The functions of a form, and the rows of its arguments on a mesh.
#[derive(Drop)]
pub struct FormAssembly {
    pub functions: FormFunctions,
    /// The rows of the test function, where the form's rank is 1 or 2.
    pub test: Option<DofMap>,
    /// The rows of the trial function, where the form's rank is 2.
    pub trial: Option<DofMap>,
}

/// The most entries of all local tensors together.
const MOST_ENTRIES: u64 = 1 << 24;

/// The rows of the element of this number, where it is on the mesh's cell; none where there is no such element.
fn rows_of(
    alloc: Global,
    elements: &Elements,
    element: Option<u16>,
    mesh: &Mesh,
) -> Result<Option<DofMap>, AllocError>
    requires { (s : Space) → element_at (table_of elements.now) element ≡ Some s → mesh.now.kind ≡ cell_of s }
    ensures { IfOk result (AreRowsOf (element_at (table_of elements.now) element) (fractions mesh.now)) }
{
    let Some(element) = element else {
        return Ok(None);
    };
    match elements.get(element) {
        None => Ok(None),
        Some(element) => Ok(Some(number(alloc, mesh, element)?)),
    }
}

/// Have all cells of a mesh together more than 2^24 local entries of a form?
fn are_too_many(elements: &Elements, form: &Form, mesh: &Mesh) -> bool
    ensures { (coefficients : List ℕ) (o : Occurring)
        → result ≡ nat_lt most_entries (length mesh.now.cells * entry_count
        (layout_of (form_problem (table_of elements.now) coefficients (form_of form.now) (fractions mesh.now) (λ n. [])) o)) }
{
    mesh.cells() as u64 * entry_count(elements, form) as u64 > MOST_ENTRIES
}

impl FormAssembly {
    /// The functions of an admitted form, and the rows of its arguments on a mesh of the form's cell.
    ///
    /// Errors: `TooManyEntries` exactly where all cells together have more than 2^24 local entries, before anything is
    /// made; else `Memory`, which counts as wanting too where a cell has more than 2^24 coefficient values.
    pub fn new(
        alloc: Global,
        name: &[u8],
        form: &Form,
        elements: &Elements,
        coefficients: &[u16],
        mesh: &Mesh,
    ) -> Result<FormAssembly, RunRefusal>
        requires { (k : FormKind) × (w : Weight)
            × IsAdmittedForm (table_of elements.now) coefficients.now (form_of form.now) k w × (mesh.now.kind ≡ k.cell) }
        ensures prepared { IfOk result (λ a. IsPreparedForm (table_of elements.now) coefficients.now (form_of form.now)
            (fractions mesh.now) name.now a.functions.layout a.functions.functions a.test a.trial) }
        ensures few { OnOk result (IsFew
            (form_problem (table_of elements.now) coefficients.now (form_of form.now) (fractions mesh.now) (λ n. []))
            (occurring_in coefficients.now (form_of form.now))) }
        ensures refusal { IfErr result (IsUnprepared
            (form_problem (table_of elements.now) coefficients.now (form_of form.now) (fractions mesh.now) (λ n. []))
            (occurring_in coefficients.now (form_of form.now))) }
    {
        // That the table is lawful, the table of forms allows the tree, the form can be lowered over the table, and the
        // mesh is one.
        elements.lawful();
        let _tree = form.tree();
        fitting(form, elements);
        let _kind = mesh.kind();
        if are_too_many(elements, form, mesh) {
            return Err(RunRefusal::TooManyEntries);
        }
        let test = rows_of(alloc, elements, test_element(form), mesh)?;
        let trial = rows_of(alloc, elements, trial_element(form), mesh)?;
        let functions = functions(alloc, name, form, elements, coefficients)?;
        Ok(FormAssembly {
            functions,
            test,
            trial,
        })
    }
}
