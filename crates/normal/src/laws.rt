//! What is proved of sums of monomials. Each law is the contract of a function that does nothing, for provers to call or cite.

ghost use Rattle.std.specs.Prelude.{◌≡◌, ◌≤◌, ℕ, Bool, List};
ghost use Rattle.std.specs.Cmp.{IsTotalOrder};
ghost use Rattle.std.specs.Ordering.{is_lt};
ghost use Rattle.std.specs.declared.cmp.Ordering.{Ordering};
ghost use Rattle.std.specs.declared.cmp.Ordering.TheVariants.{Equal};
ghost use Rattle.normal.specs.Origins.{HasFunction, HasPlace, AllAtoms};
ghost use Rattle.monos.specs.Prelude.{Names, Table, Term, Monomial};
ghost use Rattle.monos.specs.declared.weight.Weight.{Weight};
ghost use Rattle.monos.specs.declared.mono.Atom.{Atom};
ghost use Rattle.ufl_meaning.specs.Prelude.{Environment, meaning, HasNoOffset, monos_value};
ghost use Rattle.weigh.specs.Prelude.{Bounds, IsSound, term_weight, HasWeight};
ghost use Rattle.weigh.specs.Admitted.{IsAdmitted};
ghost use Rattle.normal.specs.Gathering.{IsSafe};
ghost use Rattle.normal.specs.Monomials.{IsExpanded, monomials};
ghost use Rattle.normal.specs.Collecting.{merged, nonzero, IsSortedOut, IsOrder, IsRising, IsStrict, HasNoZero};
ghost use Rattle.normal.specs.Bounding.{cost_of, AreShort, HaveNumbers, HasDirections};

/// The monomials of an expanded tree, sorted and put together, add up to its meaning.
pub fn meaning_law()
    ensures value { (elements : Table) (env : Environment) → HasNoOffset env → (e : Term) (v : Names) → IsExpanded e
        → monos_value env (monomials elements e v) ≡ meaning elements e env v }
    ensures collected { (elements : Table) (env : Environment) → HasNoOffset env → (e : Term) (v : Names) → IsExpanded e
        → (ps : List Monomial) → IsSortedOut (monomials elements e v) ps → monos_value env (nonzero (merged ps))
        ≡ meaning elements e env v }
{}

/// Each atom is of a function of the tree, at one of the function's components, also after collecting.
pub fn origin_law()
    ensures leaves { (elements : Table) (e : Term) (v : Names)
        → AllAtoms (λ a. HasFunction a.f e) (monomials elements e v) }
    ensures places { (elements : Table) (e : Term) (v : Names) → AllAtoms (HasPlace elements) (monomials elements e v) }
    ensures collected_leaves { (elements : Table) (e : Term) (v : Names) → (ps : List Monomial)
        → IsSortedOut (monomials elements e v) ps → AllAtoms (λ a. HasFunction a.f e) (nonzero (merged ps)) }
    ensures collected_places { (elements : Table) (e : Term) (v : Names) → (ps : List Monomial)
        → IsSortedOut (monomials elements e v) ps → AllAtoms (HasPlace elements) (nonzero (merged ps)) }
{}

/// Once they are put together, no two have the same atoms and no factor is 0.
pub fn collected_law()
    ensures orders { (R : List Atom → List Atom → Ordering) → IsTotalOrder R
        → ((x y : List Atom) → R x y ≡ Equal → x ≡ y) → IsOrder (λ x y. is_lt (R x y)) }
    ensures strict { (less : List Atom → List Atom → Bool) → IsOrder less → (ps : List Monomial) → IsRising less ps
        → IsStrict less (nonzero (merged ps)) }
    ensures nonzero { (ps : List Monomial) → HasNoZero (nonzero (merged ps)) }
{}

/// What bounds an expanded tree bounds its monomials, also sorted and put together; and each of them
/// has at most its numbers of factors, functions and derivatives, and its degree, denominator and sum of coefficients.
pub fn weight_law()
    ensures bounded { (elements : Table) (d : ℕ) → 1 ≤ d → (w : Weight) → IsSound w → (e : Term) (v : Names)
        → HasDirections elements d e → IsExpanded e → Bounds w (term_weight elements e)
        → HasWeight (cost_of elements) d w (monomials elements e v) }
    ensures collected { (elements : Table) (d : ℕ) → 1 ≤ d → (w : Weight) → IsSound w → (e : Term) (v : Names)
        → HasDirections elements d e → IsExpanded e → Bounds w (term_weight elements e)
        → (ps : List Monomial) → IsSortedOut (monomials elements e v) ps
        → HasWeight (cost_of elements) d w (nonzero (merged ps)) }
    ensures short { (n : ℕ) (ms ps : List Monomial) → IsSortedOut ms ps → AreShort n ms
        → AreShort n (nonzero (merged ps)) }
    ensures atoms { (elements : Table) (e : Term) (v : Names)
        → AreShort (term_weight elements e).g (monomials elements e v) }
    ensures numbers { (elements : Table) (w : Weight) (e : Term) (v : Names) → Bounds w (term_weight elements e)
        → HaveNumbers elements w (monomials elements e v) }
    ensures collected_numbers { (elements : Table) (w : Weight) (ms ps : List Monomial) → IsSortedOut ms ps
        → HaveNumbers elements w ms → HaveNumbers elements w (nonzero (merged ps)) }
{}

/// Where an admitted weight bounds an expanded tree, no step on the coefficients of its monomials passes.
pub fn safe_law()
    ensures { (elements : Table) (d : ℕ) → 1 ≤ d → (w : Weight) → IsAdmitted d w → (e : Term) → IsExpanded e
        → HasDirections elements d e → Bounds w (term_weight elements e) → IsSafe elements e }
{}
