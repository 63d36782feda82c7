//! What is proved of admitted forms. Each law is the contract of a function that does nothing, for provers to call or
//! cite.

ghost use Rattle.std.specs.Prelude.{◌≡◌, ℕ, List, Ok, false, true};
ghost use Rattle.spaces.specs.Cell.{dimension};
ghost use Rattle.ufl_tree.specs.declared.function.Role.TheVariants.{Position};
ghost use Rattle.ufl_tree.specs.FormTerm.{FormTerm};
ghost use Rattle.ufl_tree.specs.Places.{IsLawfulTable, Table};
ghost use Rattle.ufl_form.specs.declared.table.FormKind.{FormKind};
ghost use Rattle.ufl_form.specs.Fits.{FormFits};
ghost use Rattle.ufl_form.specs.Numbered.{FormIsNumbered};
ghost use Rattle.ufl_form.specs.Table.{AreTyped, form_patterns, form_kind};
ghost use Rattle.admit.specs.Admission.{has_arity};
ghost use Rattle.typing.specs.Parts.{ArePartsFitting};
ghost use Rattle.integrands.specs.Flattening.{flattened};
ghost use Rattle.form_values.specs.CellLayout.{Occurring};
ghost use Rattle.form_values.specs.Linear.{IsMultilinear};
ghost use Rattle.form_values.specs.Problem.{Problem};
ghost use Rattle.form_layouts.specs.Occurring.{occurs};
ghost use Rattle.arity.specs.Bodies.{HaveFormDirections};
ghost use Rattle.arity.specs.Places.{HaveTheirPlaces};
ghost use Rattle.arity.specs.Ranks.{HasItsRank};

/// The density of a form that has an arity is linear in each argument of its rank: in the test function, and in the
/// trial function where there are two. It doesn't depend on the position where this doesn't occur.
pub fn linearity()
    ensures { (p : Problem) (o : Occurring) (k : FormKind)
        → (o.position ≡ false → occurs Position p.form ≡ false) → IsLawfulTable p.elements → AreTyped p.form
        → FormFits p.elements p.form → FormIsNumbered p.coefficients p.form → ArePartsFitting p.elements p.form
        → form_kind p.form ≡ Ok k → has_arity (form_patterns p.form) ≡ true → HasItsRank p → IsMultilinear p o }
{}

/// All functions in the integrands of a form that fits its elements have the directions of the form's cell.
pub fn directions()
    ensures { (elements : Table) (f : FormTerm) (k : FormKind) → AreTyped f → FormFits elements f → form_kind f ≡ Ok k
        → HaveFormDirections elements (dimension k.cell) (flattened elements f) }
{}

/// In the integrands of a form that fits its elements and numbers its coefficients, each argument has the element that
/// the form says, and each coefficient occurs in the form and has the element of its number; the position, where it is
/// there, occurs in the form and has its element on the form's cell.
pub fn places()
    ensures { (elements : Table) (numbers : List ℕ) (f : FormTerm) (k : FormKind) → AreTyped f → FormFits elements f
        → FormIsNumbered numbers f → form_kind f ≡ Ok k
        → HaveTheirPlaces elements numbers f k (flattened elements f) }
{}
