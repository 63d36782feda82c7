// Strings of decimal digits and what they stand for.

ghost use Rattle.std.specs.Prelude.{◌≡◌, ℕ, ◌+◌, ◌*◌, List, ◌∷◌, ◌++◌, MatchOption, ◌<◌, ◌≤◌, ◌^◌, length, replicate};
ghost use Rattle.std.specs.Char.{digit_value};
ghost use Rattle.std.specs.Option.{SomeIff};
ghost use Rattle.std.specs.Str.Parse.{AllDigits, digits_value_after};
ghost use Rattle.ratio.specs.NumberText.{without_end_zeros as trimmed};
ghost use Rattle.ratio.specs.Digits.{BeginsOtherwise};

use crate::parts::LIMIT;

/// The value of a digit, or `None` exactly where the byte is none.
pub fn digit(byte: u8) -> Option<u16>
    ensures { SomeIff result (digit_value byte < 10) (digit_value byte) }
{
    match byte {
        b'0'..=b'9' => Some((byte - b'0') as u16),
        _ => None,
    }
}

/// The text behind its first byte, where that is the one given.
pub fn strip_byte(text: &[u8], byte: u8) -> Option<&[u8]>
    ensures { MatchOption result (¬ ((rest : List ℕ) × (text.now ≡ byte ∷ rest))) (λ rest. text.now ≡ byte ∷ rest.now) }
{
    match text {
        [first, rest @ ..] if *first == byte => Some(rest),
        _ => None,
    }
}

/// The digits that the text begins with, and the rest.
pub fn split_digits(text: &[u8]) -> (&[u8], &[u8])
    ensures whole { result.0.now ++ result.1.now ≡ text.now }
    ensures digits { AllDigits 10 result.0.now }
    ensures rest { BeginsOtherwise result.1.now }
{
    let mut end = 0;
    while end < text.len() && text[end].is_ascii_digit() {
        end += 1;
    }
    text.split_at(end)
}

/// The digits without the zeros at their end.
pub fn without_end_zeros(digits: &[u8]) -> &[u8]
    ensures kept { result.now ≡ trimmed digits.now }
    ensures dropped { (n : ℕ) → length digits.now ≡ length result.now + n → digits.now ≡ result.now ++ replicate n 48 }
    ensures short { length result.now ≤ length digits.now }
{
    let mut end = digits.len();
    while end > 0 && digits[end - 1] == b'0' {
        end -= 1;
    }
    &digits[..end]
}

// The number with one more digit behind it, where that is below 2^127.
fn followed(number: u128, digit: u16) -> Option<u128>
    requires number { number < 2 ^ 127 }
    requires digit { digit < 10 }
    ensures { SomeIff result (number * 10 + digit < 2 ^ 127) (number * 10 + digit) }
{
    let longer = number.checked_mul(10)?.checked_add(digit as u128)?;
    if longer < LIMIT { Some(longer) } else { None }
}

/// The number that the digits write behind those of `start`, or `None` exactly where a byte is no digit or the number is above 2^127 - 1.
pub fn appended(start: u128, digits: &[u8]) -> Option<u128>
    requires { start < 2 ^ 127 }
    ensures { SomeIff result (AllDigits 10 digits.now × (digits_value_after 10 start digits.now < 2 ^ 127)) (digits_value_after 10 start digits.now) }
{
    let mut number = start;
    for byte in digits {
        number = followed(number, digit(*byte)?)?;
    }
    Some(number)
}
