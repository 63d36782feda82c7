//! The lines of a text that have words.

ghost use Rattle.std.specs.Prelude.{◌≡◌, ◌==◌, ◌∷◌, ◌+◌, ◌<◌, ◌≤◌, length, IfOk, IfErr, Err};
ghost use Rattle.std.specs.List.{position_or_len, list_all};
ghost use Rattle.std.specs.Str.Lines.{lines, strip_carriage_return};
ghost use Rattle.mesh_in.specs.Line.{is_plain, content};
ghost use Rattle.data_in.specs.DataReading.{refusal};
ghost use Rattle.data_in.specs.DataText.{longest};

use crate::refusal::{ValueKind, ValueRefusal};
use crate::words::has_words;

/// A line without its comment.
#[derive(Clone, Copy)]
pub(crate) struct Line<'a> {
    /// Counted from 1.
    pub(crate) number: u32,
    pub(crate) text: &'a [u8],
}

impl Line<'_> {
    /// The line is none of those that may come.
    pub(crate) fn refused(&self) -> ValueRefusal
        ensures { result ≡ refusal ValueKind.Syntax self.now.number }
    {
        ValueRefusal {
            kind: ValueKind::Syntax,
            line: self.number,
        }
    }
}

// Where the byte first stands, or the length.
fn place_of(bytes: &[u8], byte: u8) -> usize
    ensures place { result ≡ position_or_len (λ b. b == byte) bytes.now }
    ensures within { result ≤ length bytes.now }
{
    for (at, found) in bytes.iter().enumerate() {
        if *found == byte {
            return at;
        }
    }
    bytes.len()
}

fn without_return(line: &[u8]) -> &[u8]
    ensures { result.now ≡ strip_carriage_return line.now }
{
    if !line.is_empty() && line[line.len() - 1] == b'\r' {
        return &line[..line.len() - 1];
    }
    line
}

// The first line without its end, and what follows it.
fn split_line(text: &[u8]) -> (&[u8], &[u8])
    requires { 0 < length text.now }
    ensures lines { lines text.now ≡ result.0.now ∷ lines result.1.now }
    ensures shorter { length result.1.now < length text.now }
{
    let end = place_of(text, b'\n');
    let (line, rest) = text.split_at(end);
    match rest {
        [] => (line, rest),
        [_, after @ ..] => (without_return(line), after),
    }
}

fn without_comment(line: &[u8]) -> &[u8]
    ensures { result.now ≡ content line.now }
{
    let (text, _) = line.split_at(place_of(line, b'#'));
    text
}

fn is_plain(byte: u8) -> bool
    ensures { result ≡ is_plain byte }
{
    (byte >= 32 && byte <= 126) || byte == b'\t'
}

fn has_plain_bytes(text: &[u8]) -> bool
    ensures { result ≡ list_all is_plain text.now }
{
    text.iter().all(|byte| is_plain(*byte))
}

/// Goes through the lines of a text, and stops at those that have words.
#[derive(Drop)]
pub(crate) struct Lines<'a> {
    rest: &'a [u8],
    // How many lines stand before the rest.
    number: u32,
    ghost room: { number + length rest.now ≤ longest },
}

impl<'a> Lines<'a> {
    ghost use Rattle.std.specs.Prelude.{IfSome};
    ghost use Rattle.data_in.specs.DataReading.{Place, IsOpen, reading};
    ghost use Rattle.data_in.specs.Reader.{left_of, remaining, goes_on};

    pub(crate) fn new(text: &'a [u8]) -> Lines<'a>
        requires { length text.now ≤ longest }
        ensures { (p : Place) → remaining result p ≡ reading 0 p (lines text.now) }
    {
        Lines {
            rest: text,
            number: 0,
        }
    }

    // What the line that was taken last is refused for.
    fn refused(&self, kind: ValueKind) -> ValueRefusal
        ensures { result ≡ refusal kind self.now.number }
    {
        ValueRefusal {
            kind,
            line: self.number,
        }
    }

    /// The next line that has words, if there is one. A line with a byte that may not stand there is refused.
    pub(crate) fn next(&mut self) -> Result<Option<Line<'a>>, ValueRefusal>
        ensures found { IfOk result (λ line. (p : Place) → remaining self.old p ≡ goes_on line self.new p) }
        ensures refused { IfErr result (λ e. (p : Place) → remaining self.old p ≡ Err e) }
        ensures shorter { IfOk result (λ line. IfSome line (λ line. left_of self.new < left_of self.old)) }
    {
        'lines: while !self.rest.is_empty() {
            let (line, rest) = split_line(self.rest);
            self.rest = rest;
            self.number += 1;
            let text = without_comment(line);
            if !has_plain_bytes(text) {
                return Err(self.refused(ValueKind::Lex));
            }
            if has_words(text) {
                return Ok(Some(Line {
                    number: self.number,
                    text,
                }));
            }
        }
        Ok(None)
    }

    /// The next line that has words, where one must come.
    pub(crate) fn row(&mut self) -> Result<Line<'a>, ValueRefusal>
        ensures found { IfOk result (λ line. (p : Place) → remaining self.old p ≡ goes_on (Some line) self.new p) }
        ensures refused { IfErr result (λ e. (p : Place) → IsOpen p → remaining self.old p ≡ Err e) }
        ensures shorter { IfOk result (λ line. left_of self.new < left_of self.old) }
    {
        match self.next()? {
            Some(line) => Ok(line),
            None => Err(self.refused(ValueKind::Syntax)),
        }
    }
}
