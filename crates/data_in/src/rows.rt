//! What the words of one line say.

ghost use Rattle.std.specs.Prelude.{◌≡◌};
ghost use Rattle.std.specs.Option.{option_map};
ghost use Rattle.ratio.specs.Value.{valued};
ghost use Rattle.mesh_in.specs.Line.{words};
ghost use Rattle.mesh_in.specs.MeshText.{keyword, one};
ghost use Rattle.mesh_in.specs.Number.{number_of};
ghost use Rattle.mesh_in.specs.NumberReading.{coordinate_of};
ghost use Rattle.data_in.specs.DataReading.{head_in, value_in};
ghost use Rattle.data_in.specs.Words.{behind_heading, is_heading, pair_of};

use crate::words::{first_word, has_words, read_number};
use ratio::Ratio;

/// The line that begins a block.
#[derive(Clone, Copy)]
pub(crate) struct Head {
    pub(crate) number: u32,
    /// How many values follow.
    pub(crate) count: u32,
}

// What follows the word.
fn skip_keyword<'a>(line: &'a [u8], word: &[u8]) -> Option<&'a [u8]>
    ensures { option_map (λ rest. words rest.now) result ≡ keyword word.now (words line.now) }
{
    let (first, rest) = first_word(line)?;
    if first == word { Some(rest) } else { None }
}

fn first_number(line: &[u8]) -> Option<(u32, &[u8])>
    ensures { option_map (λ r. (r.0, words r.1.now)) result ≡ one number_of (words line.now) }
{
    let (first, rest) = first_word(line)?;
    Some((read_number(first)?, rest))
}

fn read_ratio(word: &[u8]) -> Option<Ratio>
    ensures { valued result ≡ coordinate_of word.now }
{
    Ratio::read(word)
}

fn skip_heading(line: &[u8]) -> Option<&[u8]>
    ensures { option_map (λ rest. words rest.now) result ≡ behind_heading (words line.now) }
{
    skip_keyword(skip_keyword(line, b"data")?, b"1")
}

/// Is it `data 1`?
pub(crate) fn is_heading(line: &[u8]) -> bool
    ensures { result ≡ is_heading (words line.now) }
{
    match skip_heading(line) {
        Some(rest) => !has_words(rest),
        None => false,
    }
}

/// What the words `coefficient NUMBER COUNT` say.
#[tactic(auto, unfolding(crate::specs::DataReading::head_in))]
pub(crate) fn read_head(line: &[u8]) -> Option<Head>
    ensures { option_map pair_of result ≡ head_in (words line.now) }
{
    let rest = skip_keyword(line, b"coefficient")?;
    let (number, rest) = first_number(rest)?;
    let (count, rest) = first_number(rest)?;
    if has_words(rest) {
        return None;
    }
    Some(Head { number, count })
}

/// The one number that the words are.
#[tactic(auto, unfolding(crate::specs::DataReading::value_in))]
pub(crate) fn read_value(line: &[u8]) -> Option<Ratio>
    ensures { valued result ≡ value_in (words line.now) }
{
    let (word, rest) = first_word(line)?;
    if has_words(rest) {
        return None;
    }
    read_ratio(word)
}
