//! The steps by which weights are put together, with each number kept within 127 bits.

ghost use Rattle.std.specs.Prelude.{◌≡◌, ◌≤◌, ◌*◌, ◌+◌, ◌/◌, max, min, unsigned_abs};
ghost use Rattle.algebra.specs.Gcd.{gcd};
ghost use Rattle.weigh.specs.Steps.{lcm, capped, number_step, both_step};
ghost use Rattle.weigh.specs.Weighing.{kept, number_weight, one_weight, share_weight, times_weight, join_weight, plus_weight, index_weight, space_weight, linear_weight, label_weight, part_weight};
ghost use Rattle.admit.specs.Denominators.{HasDenominators};
ghost use Rattle.admit.specs.Put.{put_by};

use monos::Weight;
use ratio::Ratio;

/// The number at which numbers stay: 2^127 - 1.
const MOST: u128 = i128::MAX as u128;

fn kept(n: u128) -> u128
    ensures { result ≡ kept n }
{
    n.min(MOST)
}

fn sum(a: u128, b: u128) -> u128
    ensures { result ≡ kept (a + b) }
{
    kept(a.saturating_add(b))
}

/// A product, kept within 127 bits.
pub fn product(a: u128, b: u128) -> u128
    ensures { result ≡ kept (a * b) }
{
    kept(a.saturating_mul(b))
}

/// By Euclid's steps.
#[tactic(auto, using(algebra::specs::GcdLaws::gcd_of_rest, crate::proofs::StepLaws::last_divisor))]
fn greatest_common_divisor(a: u128, b: u128) -> u128
    ensures { result ≡ gcd a b }
{
    let mut x = a;
    let mut y = b;
    while y != 0 {
        let rest = x % y;
        x = y;
        y = rest;
    }
    x
}

/// How the costs and the numerators of two operands are put together.
#[derive(Clone, Copy, PartialEq, Eq)]
enum Put {
    /// Of either operand: the greater.
    Either,
    /// Of both: the sum.
    Both,
}

fn put_together(how: Put, a: u128, b: u128) -> u128
    ensures { result ≡ kept (put_by how a b) }
{
    match how {
        Put::Either => kept(a.max(b)),
        Put::Both => sum(a, b),
    }
}

/// The numerators of two operands over their common denominator, put together.
fn numerators(how: Put, a: &Weight, b: &Weight, divisor: u128) -> u128
    requires left { 1 ≤ a.now.den }
    requires right { 1 ≤ b.now.den }
    requires divisor { divisor ≡ gcd a.now.den b.now.den }
    ensures { result ≡ kept (put_by how (a.now.num * (lcm a.now.den b.now.den / a.now.den)) (b.now.num * (lcm a.now.den b.now.den / b.now.den))) }
{
    let left = product(a.num, b.den / divisor);
    let right = product(b.num, a.den / divisor);
    put_together(how, left, right)
}

#[tactic(auto, using(crate::proofs::StepLaws::divisor_positive))]
fn common(how: Put, a: Weight, b: Weight) -> Weight
    requires left { HasDenominators a }
    requires right { HasDenominators b }
    ensures value { result ≡ capped kept (both_step (put_by how) a b) }
    ensures denominators { HasDenominators result }
{
    let divisor = greatest_common_divisor(a.den, b.den);
    let part = greatest_common_divisor(a.fac, b.fac);
    Weight {
        cost: put_together(how, a.cost, b.cost),
        deg: kept(a.deg.max(b.deg)),
        g: kept(a.g.max(b.g)),
        f: kept(a.f.max(b.f)),
        rmin: kept(a.rmin.min(b.rmin)),
        rmax: kept(a.rmax.max(b.rmax)),
        num: numerators(how, &a, &b, divisor),
        den: product(a.den / divisor, b.den),
        fac: product(a.fac / part, b.fac),
        s: kept(a.s.max(b.s)),
    }
}

/// Of either operand.
pub fn join(a: Weight, b: Weight) -> Weight
    requires left { HasDenominators a }
    requires right { HasDenominators b }
    ensures value { result ≡ join_weight kept a b }
    ensures denominators { HasDenominators result }
{
    common(Put::Either, a, b)
}

/// Of the sum of both operands.
pub fn plus(a: Weight, b: Weight) -> Weight
    requires left { HasDenominators a }
    requires right { HasDenominators b }
    ensures value { result ≡ plus_weight kept a b }
    ensures denominators { HasDenominators result }
{
    common(Put::Both, a, b)
}

/// Of the number n/m.
fn fraction(n: u128, m: u128) -> Weight
    requires { 1 ≤ m }
    ensures value { result ≡ capped kept (number_step n m) }
    ensures denominators { HasDenominators result }
{
    Weight {
        cost: 1,
        deg: 0,
        g: 1,
        f: 0,
        rmin: 0,
        rmax: 0,
        num: kept(n.max(m)),
        den: kept(m),
        fac: 1,
        s: 1,
    }
}

/// Of a number.
#[tactic(auto, using(algebra::proofs::LowestLaws::bottom_positive))]
pub fn number(c: Ratio) -> Weight
    ensures value { result ≡ number_weight kept c }
    ensures denominators { HasDenominators result }
{
    fraction(c.num().unsigned_abs(), c.den() as u128)
}

/// Of the number 1.
pub fn one() -> Weight
    ensures value { result ≡ one_weight kept }
    ensures denominators { HasDenominators result }
{
    fraction(1, 1)
}

/// Of one part in n.
pub fn share(n: u8) -> Weight
    ensures value { result ≡ share_weight kept n }
    ensures denominators { HasDenominators result }
{
    fraction(1, n.max(1) as u128)
}

/// Of a product.
pub fn times(a: Weight, b: Weight) -> Weight
    requires left { HasDenominators a }
    requires right { HasDenominators b }
    ensures value { result ≡ times_weight kept a b }
    ensures denominators { HasDenominators result }
{
    Weight {
        cost: product(a.cost, b.cost),
        deg: sum(a.deg, b.deg),
        g: sum(a.g, b.g),
        f: sum(a.f, b.f),
        rmin: sum(a.rmin, b.rmin),
        rmax: sum(a.rmax, b.rmax),
        num: product(a.num, b.num),
        den: product(a.den, b.den),
        fac: product(a.fac, b.fac),
        s: product(a.s, b.s),
    }
}

/// With each number kept.
pub fn kept_all(w: Weight) -> Weight
    requires { HasDenominators w }
    ensures value { result ≡ capped kept w }
    ensures denominators { HasDenominators result }
{
    Weight {
        cost: kept(w.cost),
        deg: kept(w.deg),
        g: kept(w.g),
        f: kept(w.f),
        rmin: kept(w.rmin),
        rmax: kept(w.rmax),
        num: kept(w.num),
        den: kept(w.den),
        fac: kept(w.fac),
        s: kept(w.s),
    }
}

/// Of the sum over n values of an index.
pub fn index_sum(n: u8, a: Weight) -> Weight
    requires { HasDenominators a }
    ensures value { result ≡ index_weight kept n a }
    ensures denominators { HasDenominators result }
{
    let all = kept_all(a);
    let cost = product(a.cost, n.max(1) as u128);
    Weight { cost, ..all }
}

/// Of the derivatives in d directions of space.
#[tactic(auto, using(crate::proofs::StepLaws::kept_times))]
pub fn space(d: u8, a: Weight) -> Weight
    requires { HasDenominators a }
    ensures value { result ≡ space_weight kept d a }
    ensures denominators { HasDenominators result }
{
    let all = kept_all(a);
    Weight {
        cost: product(product(a.cost, a.g), d as u128),
        deg: kept(a.deg.saturating_sub(1)),
        rmin: sum(a.rmin, 1),
        rmax: sum(a.rmax, 1),
        num: product(a.num, 3),
        ..all
    }
}

/// Of a linear coefficient.
pub fn linear(a: Weight) -> Weight
    requires { HasDenominators a }
    ensures value { result ≡ linear_weight kept a }
    ensures denominators { HasDenominators result }
{
    let all = kept_all(a);
    Weight {
        cost: product(a.cost, a.g),
        num: product(a.num, a.g),
        rmin: 0,
        ..all
    }
}

/// Of an operand with n indices under a label.
pub fn label(n: usize, a: Weight) -> Weight
    requires { HasDenominators a }
    ensures value { result ≡ label_weight kept n a }
    ensures denominators { HasDenominators result }
{
    let all = kept_all(a);
    let g = sum(a.g, n.max(1) as u128);
    Weight { g, ..all }
}

/// Of some of the monomials.
pub fn part(a: Weight) -> Weight
    requires { HasDenominators a }
    ensures value { result ≡ part_weight kept a }
    ensures denominators { HasDenominators result }
{
    let all = kept_all(a);
    Weight { rmin: 0, ..all }
}
