//! The words of a line.

ghost use Rattle.std.specs.Prelude.{◌≡◌, ◌∷◌, [], ◌<◌, ◌≤◌, ℕ, length, MatchOption, not, List};
ghost use Rattle.std.specs.List.{position_or_len};
ghost use Rattle.mesh_in.specs.Line.{is_blank, is_some_word, words};
ghost use Rattle.mesh_in.specs.Number.{number_of};

fn is_blank(byte: u8) -> bool
    ensures { result ≡ is_blank byte }
{
    byte == b' ' || byte == b'\t'
}

// Where the first word begins, or the length.
fn word_start(line: &[u8]) -> usize
    ensures place { result ≡ position_or_len (λ b. not (is_blank b)) line.now }
    ensures within { result ≤ length line.now }
{
    for (at, byte) in line.iter().enumerate() {
        if !is_blank(*byte) {
            return at;
        }
    }
    line.len()
}

// Where the word at the front ends.
fn word_end(line: &[u8]) -> usize
    ensures place { result ≡ position_or_len (λ b. is_blank b) line.now }
    ensures within { result ≤ length line.now }
{
    for (at, byte) in line.iter().enumerate() {
        if is_blank(*byte) {
            return at;
        }
    }
    line.len()
}

/// The first word, and what follows it.
pub fn first_word(line: &[u8]) -> Option<(&[u8], &[u8])>
    ensures { MatchOption result (words line.now ≡ []) (λ r. words line.now ≡ r.0.now ∷ words r.1.now) }
{
    let (_, line) = line.split_at(word_start(line));
    if line.is_empty() {
        return None;
    }
    Some(line.split_at(word_end(line)))
}

/// Whether there is a word.
pub fn has_words(line: &[u8]) -> bool
    ensures { result ≡ is_some_word (words line.now) }
{
    first_word(line).is_some()
}

/// The number of a word of decimal digits, which is below 2^32.
pub fn read_number(word: &[u8]) -> Option<u32>
    ensures { result ≡ number_of word.now }
{
    if word.is_empty() {
        return None;
    }
    let mut number: u64 = 0;
    for digit in word {
        if !digit.is_ascii_digit() {
            return None;
        }
        number = number * 10 + (*digit - b'0') as u64;
        if number > u32::MAX as u64 {
            return None;
        }
    }
    Some(number as u32)
}
