//! What is proved of numbers in general.
//!
//! Each function takes nothing, does nothing and answers nothing: its contract is the law.

ghost use Rattle.std.specs.Prelude.{◌≡◌, Some, Ok, is_some};
ghost use Rattle.algebra.specs.Fraction.{Fraction, add, mul, negative};
ghost use Rattle.algebra.specs.Steps.{fits};
ghost use Rattle.ratio.specs.declared.reduced.Ratio.{Ratio};
ghost use Rattle.ratio.specs.NumberText.{Decimal, decimal_fraction, decimal_value};
ghost use Rattle.ratio.specs.Value.{fraction_of};
ghost use Rattle.ufl_values.specs.declared.value.Value.TheVariants as v;
ghost use Rattle.ufl_values.specs.Exact.{exact};
ghost use Rattle.ufl_values.specs.Numbers.{stepped};
ghost use Rattle.ufl_values.specs.Operators.{sum_of, difference_of, product_of, quotient_of};

/// The number that a fraction is has the fraction as its value, and there is one exactly where both parts in lowest
/// terms are below 2^127.
pub fn exact_numbers()
    ensures value { (x : Fraction) (c : Ratio) → exact x ≡ Some c → fraction_of c ≡ x }
    ensures own { (c : Ratio) → exact (fraction_of c) ≡ Some c }
    ensures fitting { (x : Fraction) → is_some (exact x) ≡ fits x }
{}

/// The number that is written as a decimal has the decimal's value, each digit counted.
pub fn decimals()
    ensures { (d : Decimal) (c : Ratio) → stepped (decimal_value d) ≡ Ok c → fraction_of c ≡ decimal_fraction d }
{}

/// What numbers come to is exact: a sum, a difference and a product are those of the values, and a quotient times the
/// divisor is the dividend.
pub fn arithmetic()
    ensures sum { (c d r : Ratio) → sum_of (v.Number c) (v.Number d) ≡ Ok (v.Number r)
        → fraction_of r ≡ add (fraction_of c) (fraction_of d) }
    ensures difference { (c d r : Ratio) → difference_of (v.Number c) (v.Number d) ≡ Ok (v.Number r)
        → fraction_of r ≡ add (fraction_of c) (negative (fraction_of d)) }
    ensures product { (c d r : Ratio) → product_of (v.Number c) (v.Number d) ≡ Ok (v.Number r)
        → fraction_of r ≡ mul (fraction_of c) (fraction_of d) }
    ensures quotient { (c d r : Ratio) → quotient_of (v.Number c) (v.Number d) ≡ Ok (v.Number r)
        → mul (fraction_of r) (fraction_of d) ≡ fraction_of c }
{}
