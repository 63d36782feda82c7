// The tokens of a text, one by one.

ghost use Rattle.std.specs.Prelude.{◌≡◌, ◌<◌, ◌≤◌, ◌+◌, ◌-◌, ◌^◌, ℕ, length, take, drop, All, IfOk, IfSome, IsTrue};
ghost use Rattle.slices.specs.White.{is_white as white, after_white};

use crate::c_table::c_token;
use std::marker::Model;

/// What a token is.
#[derive(Clone, Copy, Debug, PartialEq, Eq)]
pub enum TokKind {
    /// A name or a keyword.
    Word,
    Number,
    Text,
    Symbol,
    End,
}

/// Which tokens there are.
#[derive(Clone, Copy, Debug)]
pub enum Table {
    /// Those of kernels in C: names and keywords, numbers with the `u` where one follows, `"fr.h"`, `#include` and
    /// signs.
    C,
}

/// A token: its text is the slice of the source at `from`, and ends below 2^32. Lines count from 1.
#[derive(Clone, Copy, Debug)]
pub struct Tok<'a> {
    pub text: &'a [u8],
    pub from: u32,
    pub line: u32,
    pub kind: TokKind,
    pub ghost ends: { from + length text.now < 2 ^ 32 },
}

/// A place where no token starts.
#[derive(Clone, Copy, Debug, PartialEq, Eq)]
pub struct LexAt {
    pub from: u32,
    pub line: u32,
}

/// The tokens of a text that are still to come. Contracts see it as the text, and how far it is read.
#[derive(Drop)]
pub struct Toks<'a> {
    text: &'a [u8],
    table: Table,
    at: usize,
    line: usize,
}

impl<'a> Model for Toks<'a> {
    ghost use Rattle.std.specs.Prelude.{◌<◌, ◌≤◌, ◌+◌, ◌^◌, length};
    ghost use Rattle.slices.specs.Tokens.{Reader};

    ghost Value = { Reader };

    ghost view = { λ t. record { source = t.text.now; at = t.at; line = t.line } };

    ghost invariant = { λ t. (length t.text.now < 2 ^ 32) × (t.at ≤ length t.text.now) × (t.line ≤ t.at + 1) };
}

#[tactic(auto, unfolding(crate::specs::White::is_white))]
fn is_white(byte: u8) -> bool
    ensures { result ≡ white byte }
{
    byte == b' ' || byte == b'\t' || byte == b'\r' || byte == b'\n'
}

// Where the white space at a place ends, and in which line.
fn past_white(text: &[u8], from: usize, line: usize) -> (usize, usize)
    requires short { length text.now < 2 ^ 32 }
    requires place { from ≤ length text.now }
    requires lines { line ≤ from + 1 }
    ensures left { after_white (drop from text.now) from line
        ≡ record { bytes = drop result.0 text.now; from = result.0; line = result.1 } }
    ensures within { (from ≤ result.0) × (result.0 ≤ length text.now) × (result.1 ≤ result.0 + 1) }
{
    let mut at = from;
    let mut lines = line;
    while at < text.len() {
        let byte = text[at];
        if !is_white(byte) {
            return (at, lines);
        }
        if byte == b'\n' {
            lines += 1;
        }
        at += 1;
    }
    (at, lines)
}

impl<'a> Toks<'a> {
    ghost use Rattle.slices.specs.Tokens.{IsStep, begins};

    /// The tokens of a text of fewer than 2^32 bytes.
    pub fn new(text: &'a [u8], table: Table) -> Toks<'a>
        requires { length text.now < 2 ^ 32 }
        ensures { result ≡ begins text.now }
    {
        Toks {
            text,
            table,
            at: 0,
            line: 1,
        }
    }

    /// The next token, the longest at its place; None exactly at the end. Where no token starts, the answer is that
    /// place, now and at every further call.
    pub fn next(&mut self) -> Option<Result<Tok<'a>, LexAt>>
        ensures step { IsStep self.old result self.new }
        ensures source { self.new.source ≡ self.old.source }
        ensures slice { IfSome result (λ r. IfOk r (λ t. t.text.now
            ≡ take (length t.text.now) (drop t.from self.old.source))) }
        ensures rises { IfSome result (λ r. IfOk r (λ t. (self.old.at ≤ t.from)
            × (self.new.at ≡ t.from + length t.text.now) × (0 < length t.text.now))) }
        ensures gap { IfSome result (λ r. IfOk r (λ t. All (λ b. IsTrue (white b))
            (take (t.from - self.old.at) (drop self.old.at self.old.source)))) }
    {
        let (at, line) = past_white(self.text, self.at, self.line);
        self.at = at;
        self.line = line;
        let rest = &self.text[at..];
        if rest.is_empty() {
            return None;
        }
        let from = at as u32;
        let line = line as u32;
        let Some((length, kind)) = c_token(rest) else {
            return Some(Err(LexAt { from, line }));
        };
        self.at = at + length;
        Some(Ok(Tok {
            text: &rest[..length],
            from,
            line,
            kind,
        }))
    }
}
