//! What is proved of typed trees. Each law is the contract of a function that does nothing, for provers to call or cite.

ghost use Rattle.ufl_tree.specs.Places.{Table, IsLawfulTable};
ghost use Rattle.ufl_tree.specs.Typed.{Typed};
ghost use Rattle.ufl_expr.specs.Fits.{FitsTable};
ghost use Rattle.ufl_expr.specs.Table.{IsTyped};
ghost use Rattle.lower.specs.Fitting.{IsFitting};
ghost use Rattle.typing.specs.Sizes.{HasByteLabels};

/// A typed tree that fits a table of lawful elements can be lowered.
pub fn fitting()
    ensures { (elements : Table) → IsLawfulTable elements → (e : Typed) → IsTyped e → FitsTable elements e → HasByteLabels e
        → IsFitting elements e }
{}
