// The tokens of form files: names and keywords, numbers, strings and signs.

ghost use Rattle.std.specs.Prelude.{◌≡◌, ◌+◌, ◌<◌, ◌≤◌, true, length, drop, IfSome};
ghost use Rattle.slices.specs.FormTable.{is_form_sign as form_sign, form_sign_length, fraction_length as length_of_fraction, power_length as length_of_power, exponent_length as length_of_exponent, mantissa_length as length_of_mantissa, form_number_length, with_digits as bytes_with_digits, string_length as length_of_string, begins_number as number_begins, form_token as token_at};

use crate::c_table::{digits_length, is_digit, is_letter, word_length};
use crate::toks::TokKind;

fn is_sign(byte: u8) -> bool
    ensures { result ≡ form_sign byte }
{
    match byte {
        b'+' | b'-' | b'*' | b'/' | b'=' | b'(' | b')' | b'[' | b']' | b',' | b'.' | b':' => true,
        _ => false,
    }
}

// The longest sign at the front.
#[tactic(auto, unfolding(crate::specs::FormTable::form_sign_length))]
fn sign_length(text: &[u8]) -> usize
    ensures value { result ≡ form_sign_length text.now }
    ensures within { result ≤ length text.now }
{
    let Some((first, others)) = text.split_first() else {
        return 0;
    };
    let second = others.get(0).copied().unwrap_or(0);
    let third = others.get(1).copied().unwrap_or(0);
    match (*first, second, third) {
        (b'.', b'.', b'.') => 3,
        (b'*', b'*', _) | (b'+', b'=', _) | (b'-', b'=', _) => 2,
        (byte, _, _) if is_sign(byte) => 1,
        _ => 0,
    }
}

// A point, and the digits behind it.
fn fraction_length(text: &[u8], from: usize) -> usize
    requires { from ≤ length text.now }
    ensures value { result ≡ length_of_fraction (drop from text.now) }
    ensures within { from + result ≤ length text.now }
{
    if from >= text.len() {
        return 0;
    }
    if text[from] != b'.' {
        return 0;
    }
    1 + digits_length(text, from + 1)
}

fn with_digits(before: usize, digits: usize) -> usize
    requires { before ≤ 2 }
    ensures { result ≡ bytes_with_digits before digits }
{
    if digits == 0 {
        0
    } else {
        before + digits.min(3)
    }
}

// Behind the e of an exponent: its length with the e.
fn power_length(text: &[u8], from: usize) -> usize
    requires { from ≤ length text.now }
    ensures value { result ≡ length_of_power (drop from text.now) }
    ensures within { from + result ≤ length text.now + 1 }
{
    if from >= text.len() {
        return 0;
    }
    let sign = text[from];
    if sign == b'+' {
        return with_digits(2, digits_length(text, from + 1));
    }
    if sign == b'-' {
        return with_digits(2, digits_length(text, from + 1));
    }
    with_digits(1, digits_length(text, from))
}

fn exponent_length(text: &[u8], from: usize) -> usize
    requires { from ≤ length text.now }
    ensures value { result ≡ length_of_exponent (drop from text.now) }
    ensures within { from + result ≤ length text.now }
{
    if from >= text.len() {
        return 0;
    }
    let mark = text[from];
    if mark == b'e' {
        return power_length(text, from + 1);
    }
    if mark == b'E' {
        return power_length(text, from + 1);
    }
    0
}

// Whether a number stands at the front: a digit, or a point and a digit.
#[tactic(auto, unfolding(crate::specs::FormTable::begins_number))]
fn begins_number(text: &[u8]) -> bool
    ensures { result ≡ number_begins text.now }
{
    let Some((first, others)) = text.split_first() else {
        return false;
    };
    let second = others.get(0).copied().unwrap_or(0);
    is_digit(*first) || (*first == b'.' && is_digit(second))
}

// The longest number at the front.
#[tactic(auto, unfolding(crate::specs::FormTable::form_number_length, crate::specs::FormTable::mantissa_length))]
fn number_length(text: &[u8]) -> usize
    requires { number_begins text.now ≡ true }
    ensures value { result ≡ form_number_length text.now }
    ensures some { 0 < result }
    ensures within { result ≤ length text.now }
{
    let digits = digits_length(text, 0);
    let mantissa = digits + fraction_length(text, digits);
    mantissa + exponent_length(text, mantissa)
}

// Behind a quote: the length of the rest of the string, or 0 where it doesn't end on this line or has a backslash.
fn string_length(text: &[u8], quote: u8) -> usize
    ensures value { result ≡ length_of_string quote text.now }
    ensures within { result ≤ length text.now }
{
    let mut at = 0;
    'all: loop {
        if at >= text.len() {
            return 0;
        }
        let byte = text[at];
        at += 1;
        if byte == quote {
            return at;
        }
        if byte == b'\n' {
            return 0;
        }
        if byte == b'\\' {
            return 0;
        }
    }
}

/// The longest token at the front, as its length and its kind.
#[tactic(auto, unfolding(crate::specs::FormTable::form_token))]
pub fn form_token(text: &[u8]) -> Option<(usize, TokKind)>
    ensures value { result ≡ token_at text.now }
    ensures within { IfSome result (λ t. (0 < t.0) × (t.0 ≤ length text.now)) }
{
    let (first, others) = text.split_first()?;
    if is_letter(*first) {
        return Some((1 + word_length(others), TokKind::Word));
    }
    if begins_number(text) {
        return Some((number_length(text), TokKind::Number));
    }
    if *first == b'"' || *first == b'\'' {
        return match string_length(others, *first) {
            0 => None,
            length => Some((1 + length, TokKind::Text)),
        };
    }
    match sign_length(text) {
        0 => None,
        length => Some((length, TokKind::Symbol)),
    }
}
