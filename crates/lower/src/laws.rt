//! What is proved of lowering. Each law is the contract of a function that does nothing, for provers to call or cite.

ghost use Rattle.std.specs.Prelude.{◌≡◌, ◌≤◌, ◌<◌, ◌^◌, ℕ, List, length};
ghost use Rattle.calculus.specs.Polynomial.{nil};
ghost use Rattle.ratio.specs.declared.reduced.Ratio.{Ratio};
ghost use Rattle.monos.specs.Prelude.{Ix, Named, Names, index_values, Table, Term, Typed, shape_of};
ghost use Rattle.ufl_meaning.specs.Prelude.{Environment, meaning, value};
ghost use Rattle.weigh.specs.Prelude.{Bounds, IsLawfulTable, term_weight, exact, weight_with};
ghost use Rattle.lower.specs.Fitting.{IsFitting, AreShares};
ghost use Rattle.lower.specs.Keeping.{AreBelow, IsRenamed, IsShare, IsLowerable, NamesBelow, names_above};
ghost use Rattle.lower.specs.Lowering.{lower, nothing};
ghost use Rattle.lower.specs.Renaming.{Renaming};
ghost use Rattle.lower.specs.Shares.{share_of};

/// Each component that a typed tree is lowered to means what the tree means there: `m` is above all names in the tree, `n` above
/// all that stand for them and in `b`. With `share_of` the ranks of a typed tree suffice.
pub fn lowering_law()
    ensures renamed { (share : ℕ → Ratio) (elements : Table) → IsLawfulTable elements → (m : ℕ) (e : Typed)
        → IsLowerable share m e
        → (env : Environment) (n : ℕ) (v w : Names) (r : Renaming) → IsRenamed m n w v r → (b : List Ix) → AreBelow n b
        → meaning elements (lower share elements e r b n) env v ≡ value elements e env (index_values v b) w }
    ensures named { (share : ℕ → Ratio) (elements : Table) → IsLawfulTable elements → (n : ℕ) (e : Typed)
        → IsLowerable share n e
        → (env : Environment) (v : Names) (b : List Ix) → AreBelow n b
        → meaning elements (lower share elements e Named b n) env v ≡ value elements e env (index_values v b) v }
    ensures fitting { (elements : Table) → IsLawfulTable elements → (n : ℕ) (e : Typed) → NamesBelow n e
        → IsFitting elements e
        → (env : Environment) (v : Names) (b : List Ix) → AreBelow n b
        → meaning elements (lower share_of elements e Named b n) env v ≡ value elements e env (index_values v b) v }
    ensures above { (n : ℕ) (e : Typed) → names_above e ≤ n → NamesBelow n e }
{}

/// The number that stands for one part in n is 1/n, wherever a machine number can hold it.
pub fn shares_law()
    ensures value { (n : ℕ) → 1 ≤ n → n < 2 ^ 127 → IsShare share_of n }
    ensures weight { AreShares share_of }
{}

/// The weight of a typed tree bounds each component that it is lowered to; a component of the wrong length is 0, with the
/// weight of the node.
pub fn bounds_law()
    ensures bounds { (elements : Table) (e : Typed) → IsFitting elements e → (r : Renaming) (b : List Ix) (n : ℕ)
        → length b ≤ length (shape_of e)
        → Bounds (weight_with exact elements e) (term_weight elements (lower share_of elements e r b n)) }
    ensures nothing { (elements : Table) (e : Term) (n : ℕ) (env : Environment) (v : Names)
        → meaning elements (nothing e n) env v ≡ nil }
{}
