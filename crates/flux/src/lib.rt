//! Facets of a cell pulled back to the reference facet, in every direction.
//!
//! The crate has no code of its own: its function states what is proved of the definitions, for provers to call or cite.
#![tactic(auto)]

ghost use Rattle.std.specs.Prelude.{◌≡◌, ℕ, ◌+◌, ◌<◌, [], ◌∷◌};
ghost use Rattle.algebra.specs.Fraction.{Fraction};
ghost use Rattle.calculus.specs.Point.{Point};
ghost use Rattle.calculus.specs.Polynomial.{Polynomial};
ghost use Rattle.calculus.specs.Integral.{signed, facet_of, part};
ghost use Rattle.flux.specs.Facet.{pulled_back_facet};

/// The part of facet k in direction i is, with its sign, the volume factor of the facet's shadow in that direction times the
/// integral over the reference facet of the polynomial along the facet. It holds for flat shadows too, where both sides are 0.
pub fn facets()
    ensures interval { (a b : Point Fraction) (k : ℕ) → k < 2 → (q : Polynomial) →
        part (a ∷ b ∷ []) k 0 q ≡ signed (k + 0) (pulled_back_facet 0 0 (facet_of k (a ∷ b ∷ [])) q) }
    ensures triangle { (a b c : Point Fraction) (k i : ℕ) → k < 3 → i < 2 → (q : Polynomial) →
        part (a ∷ b ∷ c ∷ []) k i q ≡ signed (k + i) (pulled_back_facet 1 i (facet_of k (a ∷ b ∷ c ∷ [])) q) }
    ensures tetrahedron { (a b c e : Point Fraction) (k i : ℕ) → k < 4 → i < 3 → (q : Polynomial) →
        part (a ∷ b ∷ c ∷ e ∷ []) k i q ≡ signed (k + i) (pulled_back_facet 2 i (facet_of k (a ∷ b ∷ c ∷ e ∷ [])) q) }
{}
