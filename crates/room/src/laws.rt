//! What is proved of rooms. Each law is the contract of a function that does nothing, for provers to call or cite.

ghost use Rattle.std.specs.Prelude.{◌≡◌, ℕ, ◌-◌, ◌*◌, ◌^◌, ◌<◌, ◌≤◌, false, List, length, map, ◌++◌};
ghost use Rattle.std.specs.List.{AllByRecursion};
ghost use Rattle.algebra.specs.Fraction.{Fraction, mul, inverse, absolute, is_zero_fraction};
ghost use Rattle.algebra.specs.Sums.{total};
ghost use Rattle.calculus.specs.Simplex.{Simplex, IsCell, dimension, volume};
ghost use Rattle.calculus.specs.Jacobian.{jacobian, cofactor};
ghost use Rattle.algebra.specs.Over.{Over};
ghost use Rattle.room.specs.Room.{mass_weight};
ghost use Rattle.weigh.specs.Admitted.{IsAdmitted};
ghost use Rattle.weigh.specs.Refusals.{lcd, size};
ghost use Rattle.monos.specs.Prelude.{Monomial, Cell, IsLawfulOn};
ghost use Rattle.monos.specs.declared.weight.Weight.{Weight};
ghost use Rattle.monos.specs.declared.layout.Layout.{Layout};
ghost use Rattle.monos.specs.declared.mono.Atom.{Atom};
ghost use Rattle.room.specs.Room.{all_values, numbers_of, numbers_at, coordinates, cofactor_bound, volume_bound, whole_volume, room, room_by, most, most_at_ends, common_of};
ghost use Rattle.room.specs.declared.numbers.CellNumbers.{CellNumbers};
ghost use Rattle.weigh.specs.Numerators.{size_over};
ghost use Rattle.room.specs.Steps.{StepFits, StepsFit, Product};
ghost use Rattle.room.specs.Numbered.{AllOver, IsNumbered};
ghost use Rattle.room.specs.Kernel.{steps_to_volume, preamble_steps};
ghost use Rattle.room.specs.Columns.{column_values, column_denominator, column_numerator};
ghost use Rattle.refint.specs.Digits.{columns};
ghost use Rattle.monos.specs.Monomial.{derivatives};
ghost use Rattle.refint.specs.Local.{position_part};
ghost use Rattle.refint.specs.Reference.{growths, items as items_of, share_of, vertex_values, value_lists};
ghost use Rattle.room.specs.Adding.{Adding, OverAdding, added, adding_steps};
ghost use Rattle.room.specs.Rows.{EntryPart, part_value, IsWithin, AreBounded, AreCounted, scaled_part, part_products, sum_of, sizes, part_sizes, entry_sum, entry_steps, HaveBottoms, entry_part};
ghost use Rattle.room.specs.SumRoom.{Share, IsOver, share_sum, sum_room};

/// The numbers of a cell bound its coordinates, their differences and the coefficient values.
pub fn numbers()
    ensures { (d : ℕ) (v : Simplex) (w : List Fraction) → IsCell v → dimension v ≡ d
        → IsNumbered (numbers_of d v w) v w }
{}

/// The slots before the columns: each is over the stated denominator, with at most the stated numerator.
pub fn slots()
    ensures differences { (c : CellNumbers) (v : Simplex) (w : List Fraction) → IsNumbered c v w → (i a : ℕ) → i < c.d
        → a < c.d → Over c.dd c.j (jacobian v i a) }
    ensures cofactors { (c : CellNumbers) (v : Simplex) (w : List Fraction) → IsNumbered c v w → (i a : ℕ)
        → Over (c.dd ^ (c.d - 1)) (cofactor_bound c) (cofactor v i a) }
    ensures volume { (c : CellNumbers) (v : Simplex) (w : List Fraction) → IsNumbered c v w
        → Over (c.dd ^ c.d) (volume_bound c) (volume v) }
    ensures size { (c : CellNumbers) (v : Simplex) (w : List Fraction) → IsNumbered c v w
        → whole_volume c v ≤ volume_bound c }
    ensures reciprocal { (c : CellNumbers) (v : Simplex) (w : List Fraction) → IsNumbered c v w
        → is_zero_fraction (volume v) ≡ false → Over (whole_volume c v) (c.dd ^ c.d) (inverse (volume v)) }
    ensures growths { (c : CellNumbers) (v : Simplex) (w : List Fraction) → IsNumbered c v w
        → is_zero_fraction (volume v) ≡ false → (i a : ℕ)
        → Over (whole_volume c v) (cofactor_bound c * c.dd) (mul (cofactor v i a) (inverse (volume v))) }
    ensures first { (c : CellNumbers) (v : Simplex) (w : List Fraction) → IsNumbered c v w
        → is_zero_fraction (volume v) ≡ false → (i a : ℕ)
        → Over (c.dd ^ c.d) (cofactor_bound c * c.dd) (mul (absolute (volume v)) (mul (cofactor v i a) (inverse (volume v)))) }
{}

/// The columns of a monomial: derivative factors first, then coefficient values.
pub fn columns()
    ensures { (c : CellNumbers) (v : Simplex) (w : List Fraction) → IsNumbered c v w → is_zero_fraction (volume v)
        ≡ false
        → (is : List ℕ) (ws : List (List Fraction)) → AllByRecursion (AllOver c.dw c.nw) ws
        → AllOver (column_denominator c v (length is) (length ws)) (column_numerator c v (length is) (length ws)) (column_values c.d v is ws) }
{}

/// Within the room no step of a kernel passes: up to the volume factor, also of a degenerate cell, and then to the columns, rows and entries.
pub fn kernel()
    ensures volume { (w : Weight) (c : CellNumbers) (v : Simplex) (values : List Fraction) → IsNumbered c v values
        → room w c < 2 ^ 127 → StepsFit (steps_to_volume c.d v) }
    ensures preamble { (w : Weight) (c : CellNumbers) (v : Simplex) (values : List Fraction) → IsNumbered c v values
        → room w c < 2 ^ 127 → is_zero_fraction (volume v) ≡ false
        → StepsFit (preamble_steps c.d v) }
    ensures entry { (w : Weight) (c : CellNumbers) (v : Simplex) (values : List Fraction) → IsNumbered c v values
        → is_zero_fraction (volume v) ≡ false → IsAdmitted c.d w → room w c < 2 ^ 127
        → (parts : List EntryPart) → AreBounded w c parts → StepsFit (entry_steps c.d v parts) }
    ensures multiple { (w : Weight) (c : CellNumbers) (v : Simplex) (values : List Fraction) → IsNumbered c v values
        → is_zero_fraction (volume v) ≡ false → IsAdmitted c.d w → room w c < 2 ^ 127
        → (k : Fraction) (p : EntryPart) → IsWithin w c (scaled_part k p)
        → sizes (lcd c.d w) (scaled_part k p).items ≤ size c.d w
        → StepFits (Product k (added (sum_of (part_products c.d v p)))) }
    ensures share { (w : Weight) (c : CellNumbers) (v : Simplex) (values : List Fraction) → IsNumbered c v values
        → is_zero_fraction (volume v) ≡ false → IsAdmitted c.d w
        → (parts : List EntryPart) → AreBounded w c parts
        → Over (common_of w c v) (most w c) (total (map (part_value c.d v) parts)) }
{}

/// What the columns of a monomial, its row and the sum of an entry are.
pub fn values()
    ensures columns { (d : ℕ) (v : Simplex) (is : List ℕ) (ws : List (List Fraction)) → column_values d v is ws
        ≡ map (mul (absolute (volume v))) (columns (ws ++ map (growths d v) is)) }
    ensures row { (d : ℕ) (v : Simplex) (p : EntryPart) → added (sum_of (part_products d v p)) ≡ part_value d v p }
    ensures entry { (d : ℕ) (v : Simplex) (parts : List EntryPart) → added (entry_sum d v parts)
        ≡ total (map (part_value d v) parts) }
{}

/// The shares of a sum of monomials on a cell are those that a kernel adds up, and what bounds the coefficient values bounds those
/// that it multiplies with; where there is a position, these are the coordinates too.
pub fn shares()
    ensures entry { (l : Layout) (v : Simplex) (w : List Fraction) (ms : List Monomial) (a b : ℕ) → share_of l v w ms a b
        ≡ total (map (part_value l.d v) (map (entry_part l v w a b) ms)) }
    ensures values { (n m : ℕ) → 0 < n → (c : Cell) (l : Layout) → IsLawfulOn c l → (v : Simplex) → IsCell v
        → dimension v ≡ l.d → (w : List Fraction) → AllOver n m (all_values l v w) → (xs : List Atom)
        → AllByRecursion (AllOver n m) (value_lists l v w xs) }
    ensures corners { (n m : ℕ) → 0 < n → (c : Cell) (l : Layout) → IsLawfulOn c l → (v : Simplex) → IsCell v
        → dimension v ≡ l.d → (w : List Fraction) → AllOver n m (all_values l v w) → (i : ℕ)
        → AllOver n m (vertex_values v (position_part l.position i) i) }
{}

/// A monomial with at most a weight's numbers of functions and of derivatives has its part in an entry within the weight, where
/// its items are over the weight's denominator.
pub fn parts()
    ensures { (w : Weight) (c : CellNumbers) (k : Cell) (l : Layout) → IsLawfulOn k l → (v : Simplex) → IsCell v
        → dimension v ≡ l.d → 0 < c.dw → (values : List Fraction) → AllOver c.dw c.nw (all_values l v values)
        → (a b : ℕ) (m : Monomial) → length m.atoms ≤ w.f → w.rmin ≤ derivatives m.atoms → derivatives m.atoms ≤ w.rmax
        → HaveBottoms (lcd c.d w) (items_of l m a b) → IsWithin w c (entry_part l v values a b m) }
{}

/// The items of an entry are over lcd, and their sizes there add up to at most `size`, where they come from coefficients that the weight bounds.
pub fn items()
    ensures { (w : Weight) (d : ℕ) (parts : List EntryPart) → AreCounted w d parts (w.cost * w.num)
        → part_sizes (lcd d w) parts ≤ size d w }
{}

/// A row that is a multiple: the parts of its multiplier, and the value of its row.
pub fn multiples()
    ensures multiplier { (l b e : ℕ) (x y : Fraction) → Over l b x → Over l e y → is_zero_fraction x ≡ false
        → Over (size_over l x) e (mul y (inverse x)) }
    ensures value { (d : ℕ) (v : Simplex) (k : Fraction) (p : EntryPart)
        → added (sum_of (part_products d v (scaled_part k p))) ≡ mul k (added (sum_of (part_products d v p))) }
{}

/// Sums of terms over one denominator don't pass, in any order of adding.
pub fn adding()
    ensures value { (l b : ℕ) (t : Adding) → OverAdding l b t → Over l b (added t) }
    ensures steps { (l b : ℕ) (t : Adding) → l < 2 ^ 127 → b < 2 ^ 127 → OverAdding l b t → StepsFit (adding_steps t) }
{}

/// Within the room of an entry's sums no sum of shares passes.
pub fn sums()
    ensures { (xs : List Share) → AllByRecursion IsOver xs → sum_room xs < 2 ^ 127
        → StepsFit (adding_steps (share_sum xs)) }
{}

/// The two ends of the range of derivatives give the greatest numerator. The worked room is that of u*v*dx of degree 1 on intervals with whole coordinates from -1 to 1.
pub fn ends()
    ensures most { (w : Weight) (c : CellNumbers) → w.rmin ≤ w.rmax → most w c ≡ most_at_ends w c }
    ensures computed { (w : Weight) (c : CellNumbers) → w.rmin ≤ w.rmax → room w c
        ≡ room_by (lcd c.d w) (size c.d w) w.f w.rmin w.rmax c }
    ensures worked { room mass_weight (numbers_at 1 1 1) ≡ 786432 }
{}

/// The room by bounds on all numbers of a mesh and its data: multiples of 1/den, of absolute value at most m/den. It bounds the room of each cell.
pub fn every_cell()
    ensures { (w : Weight) (d den m : ℕ) (v : Simplex) (values : List Fraction) → 0 < den → 0 < m
        → AllOver den m (coordinates d v) → AllOver den m values
        → room w (numbers_of d v values) ≤ room w (numbers_at d den m) }
{}
