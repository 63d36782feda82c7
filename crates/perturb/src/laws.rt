//! What is proved of derivatives by variables and by functions. Each law is the contract of a function that does nothing, for
//! provers to call or cite.

ghost use Rattle.std.specs.Prelude.{◌≡◌, ℕ};
ghost use Rattle.monos.specs.Prelude.{Names, Table, Term};
ghost use Rattle.monos.specs.declared.weight.Weight.{Weight};
ghost use Rattle.ufl_meaning.specs.Prelude.{Environment, HasOnlyUsed, meaning};
ghost use Rattle.weigh.specs.Prelude.{Bounds, term_weight};
ghost use Rattle.lower.specs.Renaming.{Renaming};
ghost use Rattle.perturb.specs.Expanding.{expand, IsReady, Stands};

/// The tree without these derivatives means what the tree means, in every environment without parameters that aren't in use; its
/// index sums have names from n on; and what bounds the weight of the tree bounds it.
pub fn expand_law()
    ensures meaning { (elements : Table) (e : Term) (env : Environment) → HasOnlyUsed env
        → (n : ℕ) (w v : Names) (r : Renaming) → Stands n w v r
        → meaning elements (expand e r n) env v ≡ meaning elements e env w }
    ensures ready { (e : Term) (r : Renaming) (n : ℕ) → IsReady n (expand e r n) }
    ensures bounds { (elements : Table) (w : Weight) (e : Term) (r : Renaming) (n : ℕ)
        → Bounds w (term_weight elements e) → Bounds w (term_weight elements (expand e r n)) }
{}
