// Numbers of the text.

ghost use Rattle.std.specs.Prelude.{◌≡◌, ◌<◌, ◌^◌};
ghost use Rattle.std.specs.Option.{SomeIff};
ghost use Rattle.std.specs.Char.{digit_value};
ghost use Rattle.std.specs.Str.Parse.{digits_value, AllDigits};
ghost use Rattle.c_text.specs.Numbers.{decimal_value as value_of_decimal, small_value as value_of_small, half_value as value_of_half, table_value as value_of_table, counter_value as value_of_counter, value_behind};

const LIMIT: u128 = 0x1_0000_0000_0000_0000;

fn digit(byte: u8) -> Option<u8>
    ensures { SomeIff result (digit_value byte < 10) (digit_value byte) }
{
    match byte {
        b'0'..=b'9' => Some(byte - b'0'),
        _ => None,
    }
}

// Digits without leading zeros, below 2^64.
fn decimal(text: &[u8]) -> Option<u64>
    ensures { result ≡ value_of_decimal text.now }
{
    if text.is_empty() {
        return None;
    }
    if text[0] == b'0' && text.len() != 1 {
        return None;
    }
    value(text)
}

// The value of a text of digits, below 2^64.
fn value(text: &[u8]) -> Option<u64>
    ensures { SomeIff result (AllDigits 10 text.now × (digits_value 10 text.now < 2 ^ 64)) (digits_value 10 text.now) }
{
    let mut value: u128 = 0;
    for byte in text {
        let Some(digit) = digit(*byte) else {
            return None;
        };
        let next = value * 10 + digit as u128;
        if next >= LIMIT {
            return None;
        }
        value = next;
    }
    Some(value as u64)
}

/// Digits without leading zeros, below 2^32.
#[tactic(auto, unfolding(crate::specs::Numbers::small_value, crate::specs::Numbers::decimal_value))]
pub fn small(text: &[u8]) -> Option<u32>
    ensures { result ≡ value_of_small text.now }
{
    match decimal(text) {
        Some(value) if value < 0x1_0000_0000 => Some(value as u32),
        _ => None,
    }
}

/// Digits without leading zeros, below 2^64, and `u`.
#[tactic(auto, unfolding(crate::specs::Numbers::half_value))]
pub fn half(text: &[u8]) -> Option<u64>
    ensures { result ≡ value_of_half text.now }
{
    if text.is_empty() {
        return None;
    }
    if text[text.len() - 1] == b'u' {
        decimal(&text[..text.len() - 1])
    } else {
        None
    }
}

// The number behind this letter.
#[tactic(auto, unfolding(crate::specs::Numbers::small_value))]
fn number_behind(letter: u8, text: &[u8]) -> Option<u32>
    ensures { result ≡ value_behind letter text.now }
{
    if text.is_empty() {
        return None;
    }
    if text[0] == letter {
        small(&text[1..])
    } else {
        None
    }
}

/// The number of a table: `K0`, `K1` and so on.
#[tactic(auto, unfolding(crate::specs::Numbers::table_value))]
pub fn table_number(text: &[u8]) -> Option<u32>
    ensures { result ≡ value_of_table text.now }
{
    number_behind(b'K', text)
}

/// The number of a counter: `i0`, `i1` and so on.
#[tactic(auto, unfolding(crate::specs::Numbers::counter_value))]
pub fn counter_number(text: &[u8]) -> Option<u32>
    ensures { result ≡ value_of_counter text.now }
{
    number_behind(b'i', text)
}
