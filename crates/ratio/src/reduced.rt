// Fractions in lowest terms.

ghost use Rattle.std.specs.Prelude.{◌≡◌, ◌≢◌, ℕ, pos, ◌*◌, ◌<◌, ◌^◌, ◌*ℤ◌, unsigned_abs, IsSome, IfSome, ◌↔◌};
ghost use Rattle.algebra.specs.Gcd.{gcd};
ghost use Rattle.algebra.specs.Sign.{signed};

use crate::gcd::greatest_common_divisor;
use crate::parts::{LIMIT, differ, negated, negative, quotient_product, scaled_quotient, total};
use std::cmp::Ordering;

/// A fraction n/d in lowest terms with d above 0, both at most 2^127 - 1 in size; zero is 0/1.
///
/// Contracts see its value, `fraction_of`: two are equal exactly where their values are.
#[derive(Clone, Copy, Debug, PartialEq, Eq)]
pub struct Ratio {
    n: i128,
    d: u128,
    ghost positive: { 0 < d },
    ghost small: { d < 2 ^ 127 },
    ghost fits: { unsigned_abs n < 2 ^ 127 },
    ghost lowest: { gcd (unsigned_abs n) d ≡ 1 },
}

// The pair with this sign, where both parts fit.
fn build(negative: bool, top: u128, bottom: u128) -> Option<Ratio>
    requires positive { 0 < bottom }
    requires lowest { gcd top bottom ≡ 1 }
    ensures passes { IsSome result ↔ ((top < 2 ^ 127) × (bottom < 2 ^ 127)) }
    ensures value { IfSome result (λ r. (r.n ≡ signed negative top) × (r.d ≡ bottom)) }
{
    if top >= LIMIT || bottom >= LIMIT {
        return None;
    }
    let size = top as i128;
    let n = if negative { -size } else { size };
    Some(Ratio { n, d: bottom })
}

impl Ratio {
    ghost use Rattle.ratio.specs.Value.{fraction_of, valued};
    ghost use Rattle.ratio.specs.Parts.{Fits, SumFits};
    ghost use Rattle.algebra.specs.Fraction.{mul as times, add as plus, zero_fraction, one_fraction, negative as minus, absolute, inverse, of_integer, is_zero_fraction};
    ghost use Rattle.algebra.specs.LowestTerms.{top, bottom};
    ghost use Rattle.algebra.specs.Order.{compare_to_zero};
    ghost use Rattle.algebra.specs.Steps.{product, sum, difference, reciprocal, quotient};

    /// 0.
    pub fn zero() -> Ratio
        ensures { fraction_of result ≡ zero_fraction }
    {
        Ratio { n: 0, d: 1 }
    }

    /// 1.
    pub fn one() -> Ratio
        ensures { fraction_of result ≡ one_fraction }
    {
        Ratio { n: 1, d: 1 }
    }

    /// The fraction n/d, or `None` exactly where d is 0 or its lowest terms do not fit.
    pub fn new(n: i128, d: i128) -> Option<Ratio>
        ensures { valued result ≡ quotient n d }
    {
        Ratio::reduced_quotient(n, d)
    }

    /// The numerator in lowest terms.
    pub fn num(self) -> i128
        ensures { result ≡ top (fraction_of self) }
    {
        self.n
    }

    /// The denominator in lowest terms, above 0.
    pub fn den(self) -> i128
        ensures { result ≡ pos (bottom (fraction_of self)) }
    {
        self.d as i128
    }

    /// The sum, or `None` exactly where a number on the way to its lowest terms does not fit.
    pub fn add(self, o: Ratio) -> Option<Ratio>
        ensures { valued result ≡ sum (fraction_of self) (fraction_of o) }
    {
        self.reduced_sum_with(o)
    }

    /// The sum with the negative of `o`.
    pub fn sub(self, o: Ratio) -> Option<Ratio>
        ensures { valued result ≡ difference (fraction_of self) (fraction_of o) }
    {
        self.add(o.neg())
    }

    /// The product, or `None` exactly where its lowest terms do not fit.
    pub fn mul(self, o: Ratio) -> Option<Ratio>
        ensures { valued result ≡ product (fraction_of self) (fraction_of o) }
    {
        self.reduced_product_with(o)
    }

    /// The reciprocal, or `None` exactly at 0.
    pub fn inv(self) -> Option<Ratio>
        ensures { valued result ≡ reciprocal (fraction_of self) }
    {
        let size = self.n.unsigned_abs();
        if size == 0 {
            return None;
        }
        build(negative(self.n), self.d, size)
    }

    /// The negative.
    pub fn neg(self) -> Ratio
        ensures { fraction_of result ≡ minus (fraction_of self) }
    {
        Ratio {
            n: negated(self.n),
            d: self.d,
        }
    }

    /// The absolute value.
    pub fn abs(self) -> Ratio
        ensures { fraction_of result ≡ absolute (fraction_of self) }
    {
        if negative(self.n) { self.neg() } else { self }
    }

    /// Whether it is 0.
    pub fn is_zero(self) -> bool
        ensures { result ≡ is_zero_fraction (fraction_of self) }
    {
        self.n == 0
    }

    /// `Less` below 0, `Equal` at 0, `Greater` above.
    pub fn cmp_zero(self) -> Ordering
        ensures { result ≡ compare_to_zero (fraction_of self) }
    {
        self.n.cmp(&0)
    }

    // A whole number.
    pub(crate) fn whole(n: u128) -> Ratio
        requires { n < 2 ^ 127 }
        ensures { fraction_of result ≡ of_integer (pos n) }
    {
        Ratio { n: n as i128, d: 1 }
    }

    // The reciprocal of a whole number.
    pub(crate) fn one_over(d: u128) -> Ratio
        requires positive { 0 < d }
        requires fits { d < 2 ^ 127 }
        ensures { fraction_of result ≡ inverse (of_integer (pos d)) }
    {
        Ratio { n: 1, d }
    }

    // The quotient of two whole numbers, reduced.
    fn reduced_quotient(n: i128, d: i128) -> Option<Ratio>
        ensures passes { IsSome result ↔ ((d ≢ pos 0) × Fits (unsigned_abs n) (unsigned_abs d)) }
        ensures value { IfSome result (λ r. r.n *ℤ d ≡ n *ℤ pos r.d) }
    {
        let a = n.unsigned_abs();
        let b = d.unsigned_abs();
        if b == 0 {
            return None;
        }
        let g = greatest_common_divisor(a, b);
        build(differ(n, d), a / g, b / g)
    }

    // The product, reduced crosswise before anything is multiplied.
    fn reduced_product_with(self, o: Ratio) -> Option<Ratio>
        ensures passes { IsSome result ↔ Fits (unsigned_abs (self.n *ℤ o.n)) (self.d * o.d) }
        ensures value { IfSome result (λ r. fraction_of r ≡ times (fraction_of self) (fraction_of o)) }
    {
        let a = self.n.unsigned_abs();
        let c = o.n.unsigned_abs();
        let g = greatest_common_divisor(a, o.d);
        let h = greatest_common_divisor(c, self.d);
        let top = quotient_product(a, g, c, h)?;
        let bottom = quotient_product(self.d, h, o.d, g)?;
        build(differ(self.n, o.n), top, bottom)
    }

    // The sum, whose denominators give their common divisor away first (Knuth, The Art of Computer Programming, volume 2, section 4.5.1).
    fn reduced_sum_with(self, o: Ratio) -> Option<Ratio>
        ensures passes { IsSome result ↔ SumFits self.n self.d o.n o.d }
        ensures value { IfSome result (λ r. fraction_of r ≡ plus (fraction_of self) (fraction_of o)) }
    {
        let g = greatest_common_divisor(self.d, o.d);
        let p = scaled_quotient(self.n, o.d, g)?;
        let q = scaled_quotient(o.n, self.d, g)?;
        let t = total(p, q)?;
        let size = t.unsigned_abs();
        let h = greatest_common_divisor(size, g);
        let bottom = quotient_product(self.d, g, o.d, h)?;
        build(negative(t), size / h, bottom)
    }
}

#[cfg(test)]
mod tests {
    use super::*;

    // 1/2^100 + 1/2^100 is 1/2^99, though 2^200 is too wide; and a product is reduced before anything is multiplied.
    #[test]
    fn steps_are_reduced_first(rt: HostRuntime) {
        let small = Ratio::new(1, 1 << 100).expect(&rt, "a fraction");
        assert!(rt; small.add(small) == Ratio::new(1, 1 << 99));
        assert!(rt; small.sub(small) == Some(Ratio::zero()));
        assert!(rt; small.mul(small).is_none());
        let large = small.inv().expect(&rt, "a reciprocal").neg();
        assert!(rt; small.mul(large) == Ratio::new(-1, 1));
        assert!(rt; large.abs() == Ratio::new(1 << 100, 1).expect(&rt, "a number"));
        assert!(rt; large.cmp_zero() == std::cmp::Ordering::Less);
        assert!(rt; !large.is_zero() && large.num() == -(1 << 100) && large.den() == 1);
        assert!(rt; Ratio::new(1, 0).is_none() && Ratio::new(i128::MIN, 1).is_none());
    }
}
