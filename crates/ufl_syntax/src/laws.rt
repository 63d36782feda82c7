//! What is true of the grammar, as functions that do nothing. The number is how many brackets, signs and `**` may be
//! open at a token.

ghost use Rattle.std.specs.Prelude.{[], ◌∷◌, ◌++◌, ◌≡◌, ◌≤◌, ◌⊎◌, ℕ, List};
ghost use Rattle.ufl_syntax.specs.Depth.{depth_at};
ghost use Rattle.ufl_syntax.specs.Grammar.{File, Value, applied, base_of, posts_of};
ghost use Rattle.ufl_syntax.specs.Refusal.{AreStatements, Begins, BeginsAny, EndsEarly, IsTooDeep, IsWrong, Stops, StopsAt};
ghost use Rattle.ufl_syntax.specs.declared.class.Lexeme.{Lexeme};
ghost use Rattle.ufl_syntax.specs.declared.tree.Post.{Post};
ghost use Rattle.ufl_syntax.specs.declared.tree.Stmt.{Stmt};
ghost use Rattle.ufl_syntax.specs.declared.tree.Syn.{Syn};

/// One list of tokens is at most one list of statements.
pub fn unambiguous()
    ensures { (n : ℕ) (all : List Lexeme) (sts xs : List Stmt) → File n all sts [] → File n all xs [] → sts ≡ xs }
{}

/// A list of tokens is a list of statements, or it ends too early, or one token in it is refused, and no two of
/// these; there is one such token, and one reason.
pub fn one_refusal()
    ensures some { (n : ℕ) (all : List Lexeme) → 2 ≤ n → AreStatements n all ⊎ EndsEarly n all ⊎ Stops n all }
    ensures whole { (n : ℕ) (all : List Lexeme) → AreStatements n all → EndsEarly n all ⊎ Stops n all → ⊥ }
    ensures early { (n : ℕ) (all : List Lexeme) → EndsEarly n all → Stops n all → ⊥ }
    ensures token { (n : ℕ) (all front other : List Lexeme) (bad worse : Lexeme) → StopsAt n all front bad
        → StopsAt n all other worse → (front ≡ other) × (bad ≡ worse) }
    ensures reason { (n : ℕ) (front : List Lexeme) (bad : Lexeme) → IsWrong n front bad → IsTooDeep n front bad → ⊥ }
{}

/// The depth at a token is the room that the grammar needs there: no list of statements is deeper at a token than the
/// room that it has, and a token that the grammar can go on with in some room can be gone on with in a room of its
/// depth.
pub fn room()
    ensures needed { (n : ℕ) (front : List Lexeme) → 2 ≤ n → Begins n front → depth_at front ≤ n }
    ensures enough { (n : ℕ) (front : List Lexeme) (next : Lexeme) → 2 ≤ n → Begins n front
        → BeginsAny (front ++ next ∷ []) → depth_at (front ++ next ∷ []) ≤ n → Begins n (front ++ next ∷ []) }
{}

/// Brackets leave no chain inside a chain: calls, indices and attributes behind a chain lengthen it, and the value
/// that a chain begins with is none.
pub fn chains()
    ensures one { (e : Syn) (ps qs : List Post) → applied (applied e ps) qs ≡ applied e (ps ++ qs) }
    ensures base { (n : ℕ) (ts : List Lexeme) (e : Syn) (rest : List Lexeme) → Value n ts e rest
        → posts_of (base_of e) ≡ [] }
{}
