//! What is claimed of the definitions: each law is the contract of a function.

ghost use Rattle.std.specs.Prelude.{◌≡◌, ℕ, List, OnSome, option_and_then};
ghost use Rattle.ratio.specs.NumberText.{Decimal, IsDecimal, decimal_value};
ghost use Rattle.ufl_values.specs.Exact.{exact};
ghost use Rattle.ufl_elab.specs.Literals.{literal};

/// A literal is the number of the decimal that its text is by the grammar of numbers, where that fits, and no other
/// text is a literal.
pub fn literals()
    ensures value { (text : List ℕ) (d : Decimal) → IsDecimal text d
        → literal text ≡ option_and_then exact (decimal_value d) }
    ensures lawful { (text : List ℕ) → OnSome (literal text) ((d : Decimal) × IsDecimal text d) }
{}
