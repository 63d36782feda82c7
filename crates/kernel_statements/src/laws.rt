//! What is proved of counted rows in general. Each law is the contract of a function that does nothing, for provers to
//! call or cite.

ghost use Rattle.std.specs.Prelude.{◌≡◌, ◌↔◌, true, false, List, [], ◌∷◌, ◌++◌, Contains, map};
ghost use Rattle.algebra.specs.Fraction.{Fraction, mul};
ghost use Rattle.kernel_statements.specs.Counted.{counted_rows, is_multiple, is_zero_row};

/// A row is a multiple of one that isn't zero exactly where some number times this one is the row.
pub fn multiples()
    ensures { (xs ys : List Fraction) → is_zero_row xs ≡ false
        → (is_multiple xs ys ≡ true) ↔ ((k : Fraction) × (map (mul k) xs ≡ ys)) }
{}

/// No counted row is zero or a multiple of one before it, and each row is zero or a multiple of a counted one.
pub fn counted()
    ensures nonzero { (rows : List (List Fraction)) (row : List Fraction) → Contains (counted_rows rows) row
        → is_zero_row row ≡ false }
    ensures apart { (rows before behind : List (List Fraction)) (row other : List Fraction)
        → counted_rows rows ≡ before ++ row ∷ behind
        → Contains before other → is_multiple other row ≡ false }
    ensures all { (rows : List (List Fraction)) (row : List Fraction) → Contains rows row → is_zero_row row ≡ false
        → (other : List Fraction) × Contains (counted_rows rows) other × (is_multiple other row ≡ true) }
{}
