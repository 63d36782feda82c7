//! What is proved of the programs of form files.
//!
//! Each function takes nothing, does nothing and answers nothing: its contract is the law.

ghost use Rattle.std.specs.Prelude.{ℕ, List, IfOk};
ghost use Rattle.ufl_syntax.specs.declared.tree.Stmt.{Stmt};
ghost use Rattle.ufl_elab.specs.Programs.{program};
ghost use Rattle.ufl_program.specs.Names.{AreTargets, DifferInName};
ghost use Rattle.ufl_program.specs.Sound.{IsSound};

/// The exported forms of a program obey the table of forms, fit the program's table of elements and are numbered by
/// its coefficients.
pub fn soundness()
    ensures { (file : List ℕ) (sts : List Stmt) → IfOk (program file sts) IsSound }
{}

/// The word of each exported form is a target of a statement on its line, and the words of two are two texts.
pub fn exported_names()
    ensures targets { (file : List ℕ) (sts : List Stmt) → IfOk (program file sts) (λ p. AreTargets sts p.forms) }
    ensures distinct { (file : List ℕ) (sts : List Stmt) → IfOk (program file sts) (λ p. DifferInName file p.forms) }
{}
