//! What is proved of forms in general.
//!
//! Each function takes nothing, does nothing and answers nothing: its contract is the law.

ghost use Rattle.std.specs.Prelude.{◌≡◌, ℕ, List, Ok};
ghost use Rattle.ufl_tree.specs.FormTerm.{FormTerm};
ghost use Rattle.ufl_tree.specs.Places.{Table};
ghost use Rattle.ufl_form.specs.declared.pattern_set.PatternSet.{PatternSet};
ghost use Rattle.ufl_form.specs.declared.table.FormKind.{FormKind};
ghost use Rattle.ufl_form.specs.Fits.{FormFits, BuildersFit, HasOneCell};
ghost use Rattle.ufl_form.specs.Numbered.{BuildersNumber};
ghost use Rattle.ufl_form.specs.Pairs.{IsProduct};
ghost use Rattle.ufl_form.specs.Patterns.{product};
ghost use Rattle.ufl_form.specs.Table.{AreTyped, form_kind};

/// What the builders give fits each table of elements that their operands fit, and a longer table fits too. An action's function needs no
/// further condition; a derivative fits the table that it was made by, and each other one where its function is on the form's cell.
pub fn fitting()
    ensures { (table : Table) → BuildersFit table }
{}

/// In a table that a form fits, the elements of all its functions and of its arguments are on the form's cell.
pub fn one_cell()
    ensures { (table : Table) (f : FormTerm) (k : FormKind) → AreTyped f → FormFits table f → form_kind f ≡ Ok k → HasOneCell table f k }
{}

/// What the builders give is numbered by each list that numbers their operands and the functions that they name, and by a longer list too:
/// each coefficient has one element throughout, that of its number in the list.
pub fn numbering()
    ensures { (numbers : List ℕ) → BuildersNumber numbers }
{}

/// A product of pattern sets has each sum of two pairs, and is the least set that has them.
pub fn product()
    ensures { (a b : PatternSet) → IsProduct (product a b) a b }
{}
