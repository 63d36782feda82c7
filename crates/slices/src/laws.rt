//! What is true of the tokens of form files, as functions that do nothing.

ghost use Rattle.std.specs.Prelude.{◌≡◌, ℕ, List, Option, All, map};
ghost use Rattle.slices.specs.declared.toks.LexAt.{LexAt};
ghost use Rattle.slices.specs.declared.toks.Tok.{Tok};
ghost use Rattle.slices.specs.FormTokens.{IsCut, Scan, form_begins};
ghost use Rattle.slices.specs.Tokens.{token_of};

/// Each token of a form file is the cut of the file at its place.
pub fn cuts()
    ensures { (text : List ℕ) (ts : List Tok) (e : Option LexAt) → Scan (form_begins text) ts e → All (IsCut text) ts }
{}

/// Two scans of a form file give tokens of the same texts, places, lines and kinds, wherever the texts lie in memory,
/// and the same place where no token starts.
pub fn one_scan()
    ensures { (text : List ℕ) (ts us : List Tok) (d e : Option LexAt) → Scan (form_begins text) ts d
        → Scan (form_begins text) us e → (map token_of ts ≡ map token_of us) × (d ≡ e) }
{}
