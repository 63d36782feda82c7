//! What is proved of the problems and layouts of forms. Each law is the contract of a function that does nothing, for
//! provers to call or cite.

ghost use Rattle.std.specs.Prelude.{◌≡◌, ℕ, List, Ok, length};
ghost use Rattle.algebra.specs.Fraction.{Fraction};
ghost use Rattle.mesh_in.specs.MeshData.{MeshData, IsMesh};
ghost use Rattle.monos.specs.Layout.{AreRising};
ghost use Rattle.ufl_tree.specs.FormTerm.{FormTerm};
ghost use Rattle.ufl_tree.specs.Places.{Table};
ghost use Rattle.ufl_form.specs.declared.table.FormKind.{FormKind};
ghost use Rattle.ufl_form.specs.Table.{form_kind};
ghost use Rattle.form_values.specs.CellLayout.{Fits, HasOnly, layout_of};
ghost use Rattle.form_values.specs.Problem.{Problem};
ghost use Rattle.form_layouts.specs.Layouts.{IsSoundForm};
ghost use Rattle.form_layouts.specs.Occurring.{occurring};
ghost use Rattle.form_layouts.specs.Problems.{form_problem};

/// On a mesh of a sound form's cell, with values of coefficients that occur alone, the elements of all functions that
/// occur are lawful and on the mesh's cells.
pub fn fits()
    ensures { (elements : Table) (coefficients : List ℕ) (f : FormTerm) (k : FormKind) (m : MeshData Fraction)
        (values : ℕ → List Fraction) → IsSoundForm elements coefficients f → form_kind f ≡ Ok k
        → m.kind ≡ k.cell → IsMesh m
        → HasOnly (form_problem elements coefficients f m values) (occurring (length coefficients) f).coefficients
        → Fits (form_problem elements coefficients f m values) (occurring (length coefficients) f) }
{}

/// In the layout of a form's problem the numbers of the coefficients rise.
pub fn rising()
    ensures { (p : Problem) (f : FormTerm) (count : ℕ) → AreRising 0 (layout_of p (occurring count f)).coefs }
{}
