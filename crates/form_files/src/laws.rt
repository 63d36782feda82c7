//! What is claimed of the definitions: each law is the contract of a function.

ghost use Rattle.std.specs.Prelude.{◌≡◌, ◌+◌, ℕ, List, Result, Ok, take};
ghost use Rattle.slices.specs.declared.form_toks.TheConstants.{FORM_LIMIT};
ghost use Rattle.ufl_read.specs.declared.refusal.FormRefusal.{FormRefusal};
ghost use Rattle.ufl_elab.specs.declared.program.UflProgram.{UflProgram};
ghost use Rattle.form_files.specs.FileProgram.{Says};
ghost use Rattle.form_files.specs.Admissions.{IsFileOf};
ghost use Rattle.form_files.specs.Checks.{IsCheck};
ghost use Rattle.form_files.specs.Names.{HasNames};

/// A text says one program, or is refused in one way, wherever memory lasts; so it is with its admitted forms, and with
/// the lines that `check` prints of it.
pub fn one_outcome()
    ensures program { (file : List ℕ) (a b : Result UflProgram FormRefusal) → Says file a → Says file b → a ≡ b }
    ensures admitted { (file : List ℕ) (a b : Result UflProgram FormRefusal)
        → IsFileOf file a → IsFileOf file b → a ≡ b }
    ensures check { (file : List ℕ) (a b : Result (List ℕ) FormRefusal) → IsCheck file a → IsCheck file b → a ≡ b }
{}

/// A text is known by its front, as long as the limit and one byte more: where the text goes on, both are too long.
pub fn fronts()
    ensures program { (file : List ℕ) (a : Result UflProgram FormRefusal)
        → Says (take (FORM_LIMIT + 1) file) a → Says file a }
    ensures admitted { (file : List ℕ) (a : Result UflProgram FormRefusal)
        → IsFileOf (take (FORM_LIMIT + 1) file) a → IsFileOf file a }
    ensures check { (file : List ℕ) (a : Result (List ℕ) FormRefusal)
        → IsCheck (take (FORM_LIMIT + 1) file) a → IsCheck file a }
{}

/// The name of each form that a file exports is an identifier: a letter or `_`, and letters, digits and `_` behind it.
/// No two forms have one name.
pub fn exported_names()
    ensures program { (file : List ℕ) (p : UflProgram) → Says file (Ok p) → HasNames file p }
    ensures admitted { (file : List ℕ) (p : UflProgram) → IsFileOf file (Ok p) → HasNames file p }
{}
