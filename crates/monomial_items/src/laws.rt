//! What is proved of items in general. Each law is the contract of a function that does nothing, for provers to call or cite.

ghost use Rattle.std.specs.Prelude.{◌≡◌, ℕ, ◌+◌, ◌<◌, ◌≤◌, ◌⊎◌, slice_get, Some, None};
ghost use Rattle.std.specs.List.{AllByRecursion};
ghost use Rattle.algebra.specs.Fraction.{zero_fraction};
ghost use Rattle.spaces.specs.declared.parts.Part.{Part};
ghost use Rattle.ufl_tree.specs.declared.function.Role.TheVariants.{Test, Trial};
ghost use Rattle.monos.specs.declared.mono.Atom.{Atom};
ghost use Rattle.monos.specs.Layout.{role_parts};
ghost use Rattle.monos.specs.declared.layout.Layout.{Layout};
ghost use Rattle.monos.specs.Monomial.{Monomial};
ghost use Rattle.refint.specs.Reference.{items};
ghost use Rattle.monomial_products.specs.Products.{products_at};
ghost use Rattle.monomial_items.specs.Integrals.{integrals_of};

/// The items of a row are the monomial's number times the integrals of its products at the row's nodes.
pub fn integrals_of_products()
    ensures { (l : Layout) (m : Monomial) (a b : ℕ) → items l m a b ≡ integrals_of l.d m.c (products_at l a b m.atoms) }
{}

/// The items of a row are 0 where the number is 0, where an atom has no part, and where the row's node of an argument isn't one of
/// the part of an atom of it.
pub fn zeros()
    ensures number { (l : Layout) (m : Monomial) → m.c ≡ zero_fraction → (a b : ℕ) → AllByRecursion
        (λ z. z ≡ zero_fraction) (items l m a b) }
    ensures partless { (l : Layout) (m : Monomial) (k : ℕ) (x : Atom) → slice_get m.atoms k ≡ Some x
        → slice_get (role_parts l x.f.role) x.component ≡ None → (a b : ℕ) → AllByRecursion (λ z. z ≡ zero_fraction)
        (items l m a b) }
    ensures tests { (l : Layout) (m : Monomial) (k : ℕ) (x : Atom) → slice_get m.atoms k ≡ Some x → x.f.role ≡ Test
        → (p : Part) → slice_get l.rows.items x.component ≡ Some p → (a b : ℕ)
        → (a < p.offset) ⊎ (p.offset + p.nodes ≤ a) → AllByRecursion (λ z. z ≡ zero_fraction) (items l m a b) }
    ensures trials { (l : Layout) (m : Monomial) (k : ℕ) (x : Atom) → slice_get m.atoms k ≡ Some x → x.f.role ≡ Trial
        → (p : Part) → slice_get l.cols.items x.component ≡ Some p → (a b : ℕ)
        → (b < p.offset) ⊎ (p.offset + p.nodes ≤ b) → AllByRecursion (λ z. z ≡ zero_fraction) (items l m a b) }
{}
