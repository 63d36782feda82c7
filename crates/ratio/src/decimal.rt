// Decimals: digits with or without a point, and a power of ten behind them.

ghost use Rattle.std.specs.Prelude.{◌≡◌, ℕ, ◌≤◌, ◌<◌, ◌^◌, Bool, Some, IfSome, OnSome, length};
ghost use Rattle.std.specs.Option.{SomeIff};
ghost use Rattle.std.specs.Str.Parse.{AllDigits, IsNumeral, digits_value};
ghost use Rattle.algebra.specs.Steps.{fitting};
ghost use Rattle.ratio.specs.NumberText.{Decimal, IsDecimal, IsExponent, IsSignedSize, decimal_value, scaled_by_tens};
ghost use Rattle.ratio.specs.Digits.{IsFraction, IsSignificant};
ghost use Rattle.ratio.specs.Value.{valued};

use crate::digits::{appended, digit, split_digits, without_end_zeros};
use crate::parts::LIMIT;
use crate::reduced::Ratio;

// The power of ten behind the digits: its sign and its digits.
#[derive(Clone, Copy)]
struct Exponent {
    negative: bool,
    size: u16,
}

// The largest k with 10^k below 2^127.
const WIDEST: u128 = 38;

// One to three digits, as a number.
fn read_size(digits: &[u8]) -> Option<u16>
    ensures { SomeIff result (IsNumeral 10 digits.now × (length digits.now ≤ 3)) (digits_value 10 digits.now) }
{
    match digits {
        [a] => digit(*a),
        [a, b] => Some(digit(*a)? * 10 + digit(*b)?),
        [a, b, c] => Some((digit(*a)? * 10 + digit(*b)?) * 10 + digit(*c)?),
        _ => None,
    }
}

fn exponent_of(negative: bool, digits: &[u8]) -> Option<Exponent>
    ensures { SomeIff result (IsNumeral 10 digits.now × (length digits.now ≤ 3)) (record { negative = negative; size = digits_value 10 digits.now }) }
{
    let size = read_size(digits)?;
    Some(Exponent { negative, size })
}

// A sign or none, and one to three digits.
fn read_signed_size(text: &[u8]) -> Option<Exponent>
    ensures value { (lowered : Bool) (size : ℕ) → IsSignedSize text.now lowered size → result ≡ Some (record { negative = lowered; size = size }) }
    ensures lawful { IfSome result (λ e. IsSignedSize text.now e.negative e.size) }
{
    match text {
        [b'-', digits @ ..] => exponent_of(true, digits),
        [b'+', digits @ ..] => exponent_of(false, digits),
        _ => exponent_of(false, text),
    }
}

// Nothing, or `e` or `E` and a signed size.
fn read_exponent(text: &[u8]) -> Option<Exponent>
    ensures value { (lowered : Bool) (size : ℕ) → IsExponent text.now lowered size → result ≡ Some (record { negative = lowered; size = size }) }
    ensures lawful { IfSome result (λ e. IsExponent text.now e.negative e.size) }
{
    match text {
        [] => Some(Exponent {
            negative: false,
            size: 0,
        }),
        [b'e', rest @ ..] => read_signed_size(rest),
        [b'E', rest @ ..] => read_signed_size(rest),
        _ => None,
    }
}

fn power_of_ten(k: u128) -> u128
    requires { k ≤ 38 }
    ensures value { result ≡ 10 ^ k }
    ensures fits { result < 2 ^ 127 }
{
    10u128.pow(k as u32)
}

// m * 10^k, where it fits.
fn raised(m: u128, k: u128) -> Option<Ratio>
    requires { 0 < m }
    ensures { valued result ≡ fitting (scaled_by_tens m k 0) }
{
    if k > WIDEST {
        return None;
    }
    let top = m.checked_mul(power_of_ten(k))?;
    if top < LIMIT {
        Some(Ratio::whole(top))
    } else {
        None
    }
}

// m / 10^k, where it fits: a step that fits makes the denominator at least 2^38 times as large, but for the last one.
fn lowered(m: u128, k: u128) -> Option<Ratio>
    requires { m < 2 ^ 127 }
    ensures { valued result ≡ fitting (scaled_by_tens m 0 k) }
{
    let mut value = Ratio::whole(m);
    let mut left = k;
    while left > 0 {
        let step = left.min(WIDEST);
        value = value.mul(Ratio::one_over(power_of_ten(step)))?;
        left -= step;
    }
    Some(value)
}

// m * 10^up / 10^down, where it fits.
fn scaled(m: u128, up: u128, down: u128) -> Option<Ratio>
    requires { m < 2 ^ 127 }
    ensures { valued result ≡ fitting (scaled_by_tens m up down) }
{
    if m == 0 {
        return Some(Ratio::zero());
    }
    if up >= down {
        raised(m, up - down)
    } else {
        lowered(m, down - up)
    }
}

// The digits before and behind the point without the zeros at the end of them all.
fn significant<'a>(whole: &'a [u8], fraction: &'a [u8]) -> (&'a [u8], &'a [u8])
    ensures { IsSignificant whole.now fraction.now result.0.now result.1.now }
{
    let behind = without_end_zeros(fraction);
    if behind.is_empty() {
        (without_end_zeros(whole), behind)
    } else {
        (whole, behind)
    }
}

// The digits of a mantissa with the exponent behind them.
fn assembled(whole: &[u8], fraction: &[u8], exponent: Exponent) -> Option<Ratio>
    requires whole { AllDigits 10 whole.now }
    requires fraction { AllDigits 10 fraction.now }
    ensures { valued result
        ≡ decimal_value (record { whole = whole.now; fraction = fraction.now; lowered = exponent.negative; exponent = exponent.size }) }
{
    let (front, behind) = significant(whole, fraction);
    let m = appended(appended(0, front)?, behind)?;
    let dropped = (whole.len() - front.len()) as u128;
    let kept = behind.len() as u128;
    let size = exponent.size as u128;
    if exponent.negative {
        scaled(m, dropped, kept + size)
    } else {
        scaled(m, dropped + size, kept)
    }
}

// The digits behind a point that the text begins with, and the rest.
fn split_fraction(text: &[u8]) -> (&[u8], &[u8])
    ensures { IsFraction text.now result.0.now result.1.now }
{
    match text {
        [b'.', digits @ ..] => split_digits(digits),
        _ => text.split_at(0),
    }
}

/// The decimal that the whole text is, or `None` exactly where it is none or does not fit.
pub fn read_decimal(text: &[u8]) -> Option<Ratio>
    ensures value { (d : Decimal) → IsDecimal text.now d → valued result ≡ decimal_value d }
    ensures lawful { OnSome result ((d : Decimal) × IsDecimal text.now d) }
{
    let (whole, behind) = split_digits(text);
    let (fraction, rest) = split_fraction(behind);
    if whole.is_empty() && fraction.is_empty() {
        return None;
    }
    let exponent = read_exponent(rest)?;
    assembled(whole, fraction, exponent)
}
