//! What is true of reading, as functions that do nothing.

ghost use Rattle.std.specs.Prelude.{◌≡◌, ◌≤◌, ◌+◌, ◌⊎◌, ℕ, List, length};
ghost use Rattle.ufl_read.specs.Reads.{IsFault};
ghost use Rattle.ufl_read.specs.Refusals.{IsFile, IsRefusedFile};
ghost use Rattle.ufl_read.specs.declared.refusal.FormRefusal.{FormRefusal};
ghost use Rattle.ufl_read.specs.declared.tokens.Fault.{Fault};
ghost use Rattle.ufl_syntax.specs.Spans.{EachStatement};
ghost use Rattle.ufl_syntax.specs.Refusal.{AreStatements};
ghost use Rattle.ufl_syntax.specs.declared.class.Lexeme.{Lexeme};
ghost use Rattle.ufl_syntax.specs.declared.tree.Stmt.{Stmt};

/// A list of tokens is a list of statements, or has exactly one fault besides want of memory.
pub fn one_fault()
    ensures some { (n : ℕ) (all : List Lexeme) → 2 ≤ n → AreStatements n all ⊎ ((e : Fault) × IsFault n all e) }
    ensures only { (n : ℕ) (all : List Lexeme) (d e : Fault) → IsFault n all d → IsFault n all e → d ≡ e }
    ensures apart { (n : ℕ) (all : List Lexeme) (sts : AreStatements n all) (e : Fault) → IsFault n all e → ⊥ }
{}

/// A text is one list of statements, or it is refused in one way, by kind, line and word; wherever memory lasts.
pub fn one_outcome()
    ensures statements { (text : List ℕ) (sts xs : List Stmt) → IsFile text sts → IsFile text xs → sts ≡ xs }
    ensures refusal { (text : List ℕ) (d e : FormRefusal) → IsRefusedFile text d → IsRefusedFile text e → d ≡ e }
    ensures apart { (text : List ℕ) (sts : List Stmt) (e : FormRefusal) → IsFile text sts → IsRefusedFile text e → ⊥ }
{}

/// Each token of the statements of a text lies within the text.
pub fn cuts()
    ensures { (text : List ℕ) (sts : List Stmt) → IsFile text sts
        → EachStatement (λ t. t.from + t.len ≤ length text) sts }
{}
