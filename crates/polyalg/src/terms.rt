//! Steps on terms and small numbers.

ghost use Rattle.std.specs.Prelude.{◌≡◌, ◌<◌, ◌≤◌, OnOk};
ghost use Rattle.ratio.specs.Value.{fraction_of};
ghost use Rattle.algebra.specs.Ring.{natural};
ghost use Rattle.algebra.specs.Fraction.{fractions};
ghost use Rattle.calculus.specs.LocalFunction.{factorial};
ghost use Rattle.polyalg.specs.Prelude.{key, over, kept};

use crate::term::Term;
use ratio::Ratio;
use std::alloc::AllocError;

const WORD: u128 = 0x1_0000_0000;

/// The number by which terms are sorted.
pub fn key(term: &Term) -> u128
    ensures { result ≡ key term.now.e }
{
    let [x, y, z] = term.e;
    (x as u128 * WORD + y as u128) * WORD + z as u128
}

/// Appends a term, unless its coefficient is 0.
pub fn keep(terms: &mut Vec<Term>, term: Term) -> Result<(), AllocError>
    ensures { OnOk result (terms.new.items ≡ kept terms.old.items term) }
{
    if !term.c.is_zero() {
        terms.push(term)?;
    }
    Ok(())
}

/// The whole number n.
pub fn whole(n: u32) -> Ratio
    ensures { fraction_of result ≡ natural fractions n }
{
    quotient(n, 1)
}

/// n/d.
pub fn quotient(n: u32, d: u32) -> Ratio
    requires { 0 < d }
    ensures { fraction_of result ≡ over n d }
{
    Ratio::new(n as i128, d as i128).unwrap()
}

/// `n!`, for n up to 3.
pub fn factorial(n: u8) -> u32
    requires { n ≤ 3 }
    ensures value { result ≡ factorial n }
    ensures positive { 0 < result }
{
    match n {
        0 | 1 => 1,
        2 => 2,
        _ => 6,
    }
}
