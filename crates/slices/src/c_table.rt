// The tokens of kernels in C: names and keywords, numbers, `"fr.h"`, `#include` and signs.

ghost use Rattle.std.specs.Prelude.{◌≡◌, ◌+◌, ◌<◌, ◌≤◌, length, drop, IfSome};
ghost use Rattle.slices.specs.CTable.{is_letter as letter, is_digit as digit, is_inside_word as inside_word, is_sign as sign, word_length as length_of_word, digits_length as length_of_digits, number_length as length_of_number, sign_length as length_of_sign, c_token as token_at};

use crate::toks::TokKind;

const HEADER: &[u8; 6] = b"\"fr.h\"";

const INCLUDE: &[u8; 8] = b"#include";

pub fn is_letter(byte: u8) -> bool
    ensures { result ≡ letter byte }
{
    (b'a' <= byte && byte <= b'z') || (b'A' <= byte && byte <= b'Z') || byte == b'_'
}

pub fn is_digit(byte: u8) -> bool
    ensures { result ≡ digit byte }
{
    b'0' <= byte && byte <= b'9'
}

fn is_inside_word(byte: u8) -> bool
    ensures { result ≡ inside_word byte }
{
    is_letter(byte) || is_digit(byte)
}

fn is_sign(byte: u8) -> bool
    ensures { result ≡ sign byte }
{
    match byte {
        b'{' | b'}' | b'(' | b')' | b'[' | b']' | b'=' | b',' | b';' | b'*' | b'&' | b'+' | b'<' =>
            true,
        _ => false,
    }
}

// How many bytes at the front are letters and digits.
#[tactic(auto, unfolding(crate::specs::CTable::word_length))]
pub fn word_length(text: &[u8]) -> usize
    ensures value { result ≡ length_of_word text.now }
    ensures within { result ≤ length text.now }
{
    let mut at = 0;
    while at < text.len() {
        if !is_inside_word(text[at]) {
            return at;
        }
        at += 1;
    }
    at
}

// How many bytes from a place on are digits.
#[tactic(auto, unfolding(crate::specs::CTable::digits_length))]
pub fn digits_length(text: &[u8], from: usize) -> usize
    requires { from ≤ length text.now }
    ensures value { result ≡ length_of_digits (drop from text.now) }
    ensures within { from + result ≤ length text.now }
{
    let mut at = from;
    while at < text.len() {
        if !is_digit(text[at]) {
            return at - from;
        }
        at += 1;
    }
    at - from
}

// The digits at the front, with the `u` where one follows.
#[tactic(auto, unfolding(crate::specs::CTable::number_length))]
fn number_length(text: &[u8]) -> usize
    ensures value { result ≡ length_of_number text.now }
    ensures within { result ≤ length text.now }
{
    let digits = digits_length(text, 0);
    if digits < text.len() && text[digits] == b'u' {
        digits + 1
    } else {
        digits
    }
}

#[tactic(auto, unfolding(crate::specs::CTable::sign_length))]
fn sign_length(text: &[u8]) -> usize
    ensures value { result ≡ length_of_sign text.now }
    ensures within { result ≤ length text.now }
{
    let Some((first, others)) = text.split_first() else {
        return 0;
    };
    if *first == b'+' && !others.is_empty() && others[0] == b'+' {
        return 2;
    }
    if is_sign(*first) { 1 } else { 0 }
}

/// The longest token at the front, as its length and its kind.
#[tactic(auto, unfolding(crate::specs::CTable::c_token))]
pub fn c_token(text: &[u8]) -> Option<(usize, TokKind)>
    ensures value { result ≡ token_at text.now }
    ensures within { IfSome result (λ t. (0 < t.0) × (t.0 ≤ length text.now)) }
{
    let (first, others) = text.split_first()?;
    if is_letter(*first) {
        return Some((1 + word_length(others), TokKind::Word));
    }
    if is_digit(*first) {
        return Some((1 + number_length(others), TokKind::Number));
    }
    if text.starts_with(HEADER) {
        return Some((HEADER.len(), TokKind::Text));
    }
    if text.starts_with(INCLUDE) {
        return Some((INCLUDE.len(), TokKind::Symbol));
    }
    match sign_length(text) {
        0 => None,
        length => Some((length, TokKind::Symbol)),
    }
}
