//! What is proved of weights that bound a monomial. Each law is the contract of a function that does nothing, for
//! provers to call or cite.

ghost use Rattle.std.specs.Prelude.{◌≡◌, ℕ, ◌*◌, ◌≤◌, true, false, List, length, map};
ghost use Rattle.std.specs.List.{AllByRecursion};
ghost use Rattle.algebra.specs.Fraction.{Fraction, is_zero_fraction};
ghost use Rattle.algebra.specs.Over.{Over};
ghost use Rattle.ratio.specs.declared.reduced.Ratio.{Ratio};
ghost use Rattle.calculus.specs.Simplex.{Simplex};
ghost use Rattle.monos.specs.declared.layout.Layout.{Layout};
ghost use Rattle.monos.specs.declared.weight.Weight.{Weight};
ghost use Rattle.monos.specs.Layout.{IsLawfulLayout};
ghost use Rattle.monos.specs.Monomial.{Monomial};
ghost use Rattle.refint.specs.Examples.{mass_layout, mass_monomial};
ghost use Rattle.refint.specs.Reference.{items as items_of};
ghost use Rattle.weigh.specs.Admitted.{IsAdmitted};
ghost use Rattle.weigh.specs.Examples.{line_table, mass_tree};
ghost use Rattle.weigh.specs.Lists.{HasWeight, spread};
ghost use Rattle.weigh.specs.Numerators.{size_over};
ghost use Rattle.weigh.specs.Refusals.{lcd};
ghost use Rattle.weigh.specs.Weighing.{exact, weight_with};
ghost use Rattle.room.specs.Numbered.{AllOver};
ghost use Rattle.room.specs.Rows.{AreCounted, entry_part};
ghost use Rattle.monomial_products.specs.Products.{are_alive, IsSmall, HaveSmallProducts, degree_left, denominator, coefficient_bound};
ghost use Rattle.monomial_items.specs.Integrals.{AreFitting, AreWithin};
ghost use Rattle.monomial_weights.specs.Weighed.{cost_at, IsWithin, item_bound, AreItems};
ghost use Rattle.monomial_weights.specs.Columns.{column_count};

/// A monomial within an admitted weight has few atoms, few rows and few columns, and a number over the weight's
/// denominator. Where it isn't 0, no step of its products and of their integrals passes.
pub fn small()
    ensures atoms { (l : Layout) (w : Weight) (m : Monomial) → IsAdmitted l.d w → IsWithin l w m → IsSmall l m.atoms }
    ensures number { (l : Layout) (w : Weight) (m : Monomial) → IsAdmitted l.d w → IsWithin l w m
        → Over w.den (size_over w.den m.c) m.c }
    ensures products { (l : Layout) (w : Weight) (m : Monomial) → IsLawfulLayout l → IsAdmitted l.d w → IsWithin l w m
        → is_zero_fraction m.c ≡ false → HaveSmallProducts l m.atoms }
    ensures integrals { (l : Layout) (w : Weight) (m : Monomial) → IsLawfulLayout l → IsAdmitted l.d w → IsWithin l w m
        → is_zero_fraction m.c ≡ false → are_alive l m.atoms ≡ true
        → AreFitting l.d (degree_left l m.atoms) (denominator l m.atoms) (coefficient_bound l m.atoms) m.c }
{}

/// The items of a monomial within an admitted weight are over the weight's denominator, with a bound there by the
/// weight and the monomial's number.
pub fn items()
    ensures { (l : Layout) (w : Weight) (m : Monomial) → IsAdmitted l.d w → IsWithin l w m → are_alive l m.atoms ≡ true
        → (xs : List Ratio) → AreWithin l m.atoms w.den (size_over w.den m.c) xs → AreItems l.d w m xs }
{}

/// How many items a row has. The weight bounds it.
pub fn columns()
    ensures count { (l : Layout) (m : Monomial) (a b : ℕ) → length (items_of l m a b) ≡ column_count l m.atoms }
    ensures few { (l : Layout) (m : Monomial) → column_count l m.atoms ≤ spread (cost_at l) l.d m }
{}

/// The parts of a sum of monomials in an entry are counted by the sum's weight, where the items of each monomial
/// are within their bound.
pub fn parts()
    ensures { (l : Layout) (w : Weight) (ms : List Monomial) → HasWeight (cost_at l) l.d w ms → (v : Simplex)
        → (values : List Fraction) (a b : ℕ)
        → AllByRecursion (λ m. AllOver (lcd l.d w) (item_bound l.d w m) (items_of l m a b)) ms
        → AreCounted w l.d (map (entry_part l v values a b) ms) (w.cost * w.num) }
{}

/// Worked: the weight of u*v with functions of degree 1 on intervals is admitted, and bounds its monomial.
pub fn worked_weight()
    ensures admitted { IsAdmitted 1 (weight_with exact line_table mass_tree) }
    ensures within { IsWithin mass_layout (weight_with exact line_table mass_tree) mass_monomial }
{}
