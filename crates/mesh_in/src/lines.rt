//! The lines of a text that have words.

ghost use Rattle.std.specs.Prelude.{◌≡◌, ◌==◌, ◌∷◌, ◌+◌, ◌<◌, ◌≤◌, ℕ, List, length, IfOk, IfErr, IfSome, OnOk, Err};
ghost use Rattle.std.specs.List.{position_or_len, list_all};
ghost use Rattle.std.specs.Str.Lines.{lines, strip_carriage_return};
ghost use Rattle.mesh_in.specs.Line.{is_plain, content};
ghost use Rattle.mesh_in.specs.Refusal.{refusal};
ghost use Rattle.mesh_in.specs.MeshText.{longest};

use crate::refusal::{MeshKind, MeshRefusal};
use crate::words::has_words;

/// A line without its comment.
#[derive(Clone, Copy)]
pub struct Line<'a> {
    /// Counted from 1.
    pub number: u32,
    pub text: &'a [u8],
}

impl Line<'_> {
    pub fn refused(&self, kind: MeshKind) -> MeshRefusal
        ensures { result ≡ refusal kind self.now.number }
    {
        MeshRefusal {
            kind,
            line: self.number,
            cell: 0,
        }
    }
}

// Where the byte first stands, or the length.
fn place_of(bytes: &[u8], byte: u8) -> usize
    ensures place { result ≡ position_or_len (λ b. b == byte) bytes.now }
    ensures within { result ≤ length bytes.now }
{
    for (at, found) in bytes.iter().enumerate() {
        if *found == byte {
            return at;
        }
    }
    bytes.len()
}

fn without_return(line: &[u8]) -> &[u8]
    ensures { result.now ≡ strip_carriage_return line.now }
{
    if !line.is_empty() && line[line.len() - 1] == b'\r' {
        return &line[..line.len() - 1];
    }
    line
}

// The first line without its end, and what follows it.
fn split_line(text: &[u8]) -> (&[u8], &[u8])
    requires { 0 < length text.now }
    ensures lines { lines text.now ≡ result.0.now ∷ lines result.1.now }
    ensures shorter { length result.1.now < length text.now }
{
    let end = place_of(text, b'\n');
    let (line, rest) = text.split_at(end);
    match rest {
        [] => (line, rest),
        [_, after @ ..] => (without_return(line), after),
    }
}

fn without_comment(line: &[u8]) -> &[u8]
    ensures { result.now ≡ content line.now }
{
    let (text, _) = line.split_at(place_of(line, b'#'));
    text
}

fn is_plain(byte: u8) -> bool
    ensures { result ≡ is_plain byte }
{
    (byte >= 32 && byte <= 126) || byte == b'\t'
}

fn has_plain_bytes(text: &[u8]) -> bool
    ensures { result ≡ list_all is_plain text.now }
{
    text.iter().all(|byte| is_plain(*byte))
}

/// Goes through the lines of a text, and stops at those that have words.
#[derive(Drop)]
pub struct Lines<'a> {
    rest: &'a [u8],
    // How many lines stand before the rest.
    number: u32,
    ghost room: { number + length rest.now ≤ longest },
}

impl<'a> Lines<'a> {
    ghost use Rattle.mesh_in.specs.MeshText.{Said, IsOpen, after_row, reading};
    ghost use Rattle.mesh_in.specs.HeaderLine.{header_line};
    ghost use Rattle.mesh_in.specs.Reader.{remaining, goes_on, row_number};

    pub fn new(text: &'a [u8]) -> Lines<'a>
        requires { length text.now ≤ longest }
        ensures says { (said : Said) → remaining result said ≡ reading 0 said (lines text.now) }
        ensures row { row_number result ≡ header_line text.now }
    {
        Lines {
            rest: text,
            number: 0,
        }
    }

    // What the line that was taken last is refused for.
    fn refused(&self, kind: MeshKind) -> MeshRefusal
        ensures { result ≡ refusal kind self.now.number }
    {
        MeshRefusal {
            kind,
            line: self.number,
            cell: 0,
        }
    }

    /// The next line that has words, if there is one. A line with a byte that may not stand there is refused.
    fn next(&mut self) -> Result<Option<Line<'a>>, MeshRefusal>
        ensures found { IfOk result (λ line. (said : Said) → remaining self.old said ≡ goes_on line self.new said) }
        ensures number { IfOk result (λ line. IfSome line (λ line. line.number ≡ row_number self.old)) }
        ensures refused { IfErr result (λ e. (said : Said) → remaining self.old said ≡ Err e) }
    {
        'lines: while !self.rest.is_empty() {
            let (line, rest) = split_line(self.rest);
            self.rest = rest;
            self.number += 1;
            let text = without_comment(line);
            if !has_plain_bytes(text) {
                return Err(self.refused(MeshKind::Lex));
            }
            if has_words(text) {
                return Ok(Some(Line {
                    number: self.number,
                    text,
                }));
            }
        }
        Ok(None)
    }

    /// The next line that has words, where one must come.
    pub fn row(&mut self) -> Result<Line<'a>, MeshRefusal>
        ensures found { IfOk result (λ line. (said : Said) → remaining self.old said ≡ goes_on (Some line) self.new said) }
        ensures number { IfOk result (λ line. line.number ≡ row_number self.old) }
        ensures refused { IfErr result (λ e. (said : Said) → IsOpen said → remaining self.old said ≡ Err e) }
    {
        match self.next()? {
            Some(line) => Ok(line),
            None => Err(self.refused(MeshKind::Syntax)),
        }
    }

    /// That no line with words is left.
    pub fn end(&mut self) -> Result<(), MeshRefusal>
        ensures ok { OnOk result ((said : Said) → remaining self.old said ≡ goes_on None self.new said) }
        ensures refused { IfErr result (λ e. (said : Said) → ((ws : List (List ℕ)) → after_row said ws ≡ Err MeshKind.Syntax) → remaining self.old said ≡ Err e) }
    {
        match self.next()? {
            Some(line) => Err(line.refused(MeshKind::Syntax)),
            None => Ok(()),
        }
    }
}
