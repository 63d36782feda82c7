//! What is proved of expressions in general.
//!
//! Each function takes nothing, does nothing and answers nothing: its contract is the law.

ghost use Rattle.std.specs.Prelude.{ℕ, List};
ghost use Rattle.ufl_tree.specs.Places.{Table};
ghost use Rattle.ufl_tree.specs.Typed.{Typed, own_kind};
ghost use Rattle.ufl_tree.specs.Functions.{Each};
ghost use Rattle.ufl_expr.specs.Table.{IsTyped};
ghost use Rattle.ufl_expr.specs.Elements.{IsOn};
ghost use Rattle.ufl_expr.specs.Fits.{FitsTable, BuildersFit};
ghost use Rattle.ufl_expr.specs.Numbered.{BuildersNumber};

/// A function fits the table that it was made by, what the other builders give fits each table that their operands fit, and a longer table
/// fits too.
pub fn fitting()
    ensures { (table : Table) → BuildersFit table }
{}

/// In a table that an expression fits, the element of each function in it is on the expression's cell.
pub fn one_cell()
    ensures { (table : Table) (e : Typed) → IsTyped e → FitsTable table e → Each (IsOn table (own_kind e).cell) e }
{}

/// What the builders give is numbered by each list that numbers their operands, and by a longer list too: each coefficient has one element
/// throughout, that of its number in the list.
pub fn numbering()
    ensures { (numbers : List ℕ) → BuildersNumber numbers }
{}
