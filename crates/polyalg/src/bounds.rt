//! Laws of bounds: where the coefficients of polynomials are small, no step of a sum, a product, a multiple, a derivative or an
//! integral over a reference cell passes, so that want of memory is the only refusal.
//!
//! `CoefficientsOver l b ts` says of the terms of a polynomial that l times each coefficient is a whole number, and that the
//! absolute values of these numbers add up to at most b.

ghost use Rattle.std.specs.Prelude.{◌≡◌, ℕ, ◌+◌, ◌*◌, ◌<◌, ◌≤◌, ◌^◌, false, is_none, Some, List};
ghost use Rattle.algebra.specs.Fraction.{Fraction};
ghost use Rattle.algebra.specs.Over.{Over};
ghost use Rattle.calculus.specs.Polynomial.{nil, constant, plus, times, derivative};
ghost use Rattle.calculus.specs.LocalFunction.{factorial};
ghost use Rattle.polyalg.specs.Prelude.{value_of, IsPoly, product_passes, sum_passes, derivative_passes, degree_of, product_steps, CoefficientsOver};
ghost use Rattle.polyalg.specs.ReferenceIntegral.{integral_steps};
ghost use Rattle.polyalg.specs.declared.term.Term.{Term};

/// A sum: the bounds add up, and no step of `Poly::add` passes where their sum is below 2^127.
pub fn sums()
    ensures fits { (l b c : ℕ) (left right : List Term) → l < 2 ^ 127 → b + c < 2 ^ 127 →
        CoefficientsOver l b left → CoefficientsOver l c right → sum_passes left right ≡ false }
    ensures bounds { (l b c : ℕ) (left right result : List Term) → 0 < l → IsPoly result →
        value_of result ≡ plus (value_of left) (value_of right) →
        CoefficientsOver l b left → CoefficientsOver l c right → CoefficientsOver l (b + c) result }
{}

/// A product: the bounds are multiplied, and no step of `Poly::mul` passes where the products are below 2^127.
pub fn products()
    ensures fits { (l m b c : ℕ) (left right : List Term) → 0 < l * m → l * m < 2 ^ 127 → b * c < 2 ^ 127 →
        CoefficientsOver l b left → CoefficientsOver m c right → is_none (product_steps nil left right) ≡ false }
    ensures bounds { (l m b c : ℕ) (left right result : List Term) → 0 < l → 0 < m → IsPoly result →
        value_of result ≡ times (value_of left) (value_of right) →
        CoefficientsOver l b left → CoefficientsOver m c right → CoefficientsOver (l * m) (b * c) result }
{}

/// A multiple: likewise for `Poly::scale`.
pub fn multiples()
    ensures fits { (l m b n : ℕ) (x : Fraction) (terms : List Term) → l * m < 2 ^ 127 → b * n < 2 ^ 127 →
        CoefficientsOver l b terms → Over m n x → product_passes x terms ≡ false }
    ensures bounds { (l m b n : ℕ) (x : Fraction) (terms result : List Term) → 0 < l → IsPoly result →
        value_of result ≡ times (constant x) (value_of terms) →
        CoefficientsOver l b terms → Over m n x → CoefficientsOver (l * m) (b * n) result }
{}

/// A derivative: each coefficient is multiplied with an exponent, which is at most the degree.
pub fn derivatives()
    ensures fits { (l b n k : ℕ) (terms : List Term) → l < 2 ^ 127 → b * n < 2 ^ 127 → IsPoly terms → degree_of terms ≤ n →
        CoefficientsOver l b terms → derivative_passes k terms ≡ false }
    ensures bounds { (l b n k : ℕ) (terms result : List Term) → 0 < l → IsPoly terms → IsPoly result →
        value_of result ≡ derivative k (value_of terms) → degree_of terms ≤ n →
        CoefficientsOver l b terms → CoefficientsOver l (b * n) result }
{}

/// The integral over the reference cell of dimension d, with n at least the degree and d together: no step of `ref_integral` passes,
/// and n! * l times the integral is a whole number of absolute value at most n! * b.
pub fn integrals()
    ensures { (l b n d : ℕ) (terms : List Term) → 0 < l → l * factorial n < 2 ^ 127 → b * factorial n < 2 ^ 127 →
        degree_of terms + d ≤ n → CoefficientsOver l b terms →
        (x : Fraction) × (integral_steps d terms ≡ Some x) × Over (l * factorial n) (b * factorial n) x }
{}
