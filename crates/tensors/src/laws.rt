//! What is proved of reference tensors in general. Each law is the contract of a function that does nothing, for
//! provers to call or cite.

ghost use Rattle.std.specs.Prelude.{◌≡◌, ℕ, ◌+◌, ◌*◌, ◌<◌, ◌≤◌, length, false, slice_index_or, [], None};
ghost use Rattle.ufl_tree.specs.declared.function.Role.TheVariants.{Test, Trial};
ghost use Rattle.monos.specs.declared.layout.Layout.{Layout};
ghost use Rattle.monos.specs.Layout.{IsLawfulLayout};
ghost use Rattle.monos.specs.Monomial.{Monomial};
ghost use Rattle.refint.specs.Local.{entries_of};
ghost use Rattle.refint.specs.Reference.{items};
ghost use Rattle.monomial_products.specs.Supports.{place_at, support_of};
ghost use Rattle.monomial_products.specs.Products.{are_alive};
ghost use Rattle.tensors.specs.Rows.{rows_of, AreZero};

/// The row of an entry: its place, and how many there are.
pub fn rows()
    ensures row { (l : Layout) (m : Monomial) (a b : ℕ) → a < entries_of l.rows → b < entries_of l.cols →
        slice_index_or (rows_of l m) (entries_of l.cols * a + b) [] ≡ items l m a b }
    ensures count { (l : Layout) (m : Monomial) → length (rows_of l m) ≡ entries_of l.rows * entries_of l.cols }
{}

/// The items of a row are 0 outside the supports of the arguments' atoms, and everywhere where the function of an atom
/// is 0: where it has no part, or is derived more often than its part's degree.
pub fn zeros()
    ensures tests { (l : Layout) → IsLawfulLayout l → (m : Monomial) (a b : ℕ)
        → place_at (support_of l Test m.atoms) a ≡ None → AreZero (items l m a b) }
    ensures trials { (l : Layout) → IsLawfulLayout l → (m : Monomial) (a b : ℕ)
        → place_at (support_of l Trial m.atoms) b ≡ None → AreZero (items l m a b) }
    ensures exhausted { (l : Layout) → IsLawfulLayout l → (m : Monomial) → are_alive l m.atoms ≡ false → (a b : ℕ)
        → AreZero (items l m a b) }
{}
