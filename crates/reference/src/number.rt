//! Steps on numbers: `Range` exactly where the step of `Ratio` has no answer.

ghost use Rattle.std.specs.Prelude.{◌≡◌, ◌+◌, IfOk};
ghost use Rattle.algebra.specs.Ring.{natural};
ghost use Rattle.algebra.specs.Fraction.{fractions, add, mul, negative, inverse, is_below_zero};
ghost use Rattle.ratio.specs.Value.{fraction_of};

use crate::fault::Fault;
use ratio::Ratio;
use std::cmp::Ordering;

pub fn sum(a: Ratio, b: Ratio) -> Result<Ratio, Fault>
    ensures { IfOk result (λ r. fraction_of r ≡ add (fraction_of a) (fraction_of b)) }
{
    a.add(b).ok_or(Fault::Range)
}

pub fn difference(a: Ratio, b: Ratio) -> Result<Ratio, Fault>
    ensures { IfOk result (λ r. fraction_of r ≡ add (fraction_of a) (negative (fraction_of b))) }
{
    a.sub(b).ok_or(Fault::Range)
}

pub fn product(a: Ratio, b: Ratio) -> Result<Ratio, Fault>
    ensures { IfOk result (λ r. fraction_of r ≡ mul (fraction_of a) (fraction_of b)) }
{
    a.mul(b).ok_or(Fault::Range)
}

/// 0 has none.
pub fn reciprocal(a: Ratio) -> Result<Ratio, Fault>
    ensures { IfOk result (λ r. fraction_of r ≡ inverse (fraction_of a)) }
{
    a.inv().ok_or(Fault::Range)
}

pub fn whole(n: u32) -> Result<Ratio, Fault>
    ensures { IfOk result (λ r. fraction_of r ≡ natural fractions n) }
{
    Ratio::new(n as i128, 1).ok_or(Fault::Range)
}

/// One part in n; 0 has none.
pub fn one_in(n: u32) -> Result<Ratio, Fault>
    ensures { IfOk result (λ r. fraction_of r ≡ inverse (natural fractions n)) }
{
    reciprocal(whole(n)?)
}

/// The sum of two powers.
pub fn power_sum(a: u32, b: u32) -> Result<u32, Fault>
    ensures { IfOk result (λ n. n ≡ a + b) }
{
    a.checked_add(b).ok_or(Fault::Range)
}

pub fn is_negative(a: Ratio) -> bool
    ensures { result ≡ is_below_zero (fraction_of a) }
{
    match a.cmp_zero() {
        Ordering::Less => true,
        Ordering::Equal => false,
        Ordering::Greater => false,
    }
}
