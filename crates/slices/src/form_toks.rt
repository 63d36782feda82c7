// The tokens of a form file, one by one.

ghost use Rattle.std.specs.Prelude.{◌≡◌, ◌<◌, ◌≤◌, ◌+◌, ◌-◌, ◌^◌, ℕ, Bool, length, take, drop, IfOk, IfSome};
ghost use Rattle.slices.specs.FormGap.{is_blank as blank, spot, blanks, comment, after_gap, join_length as length_of_join};
ghost use Rattle.slices.specs.FormTokens.{depth_after as bracket_depth, quiet_at};

use crate::form_table::form_token;
use crate::toks::{LexAt, Tok, TokKind};
use std::marker::Model;

/// The most bytes of a form file.
pub const FORM_LIMIT: u32 = 262_144;

/// The tokens of a form file that are still to come. Contracts see it as the file, how far it is read, how many
/// brackets are open, and whether the statement has a token.
///
/// A line feed ends a statement that has a token, unless a bracket is open or a backslash stands directly before it.
#[derive(Drop)]
pub struct FormToks<'a> {
    text: &'a [u8],
    at: usize,
    line: usize,
    depth: usize,
    begun: bool,
}

impl<'a> Model for FormToks<'a> {
    ghost use Rattle.std.specs.Prelude.{◌≡◌, ◌<◌, ◌≤◌, ◌+◌, ◌^◌, true, length};
    ghost use Rattle.slices.specs.FormTokens.{FormReader};

    ghost Value = { FormReader };

    ghost view = { λ t. record { source = t.text.now; at = t.at; line = t.line; depth = t.depth; begun = t.begun } };

    ghost invariant = { λ t. (length t.text.now < 2 ^ 32) × (t.at ≤ length t.text.now) × (t.line ≤ t.at + 1)
        × (t.begun ≡ true → t.line ≤ t.at) × (t.depth ≤ t.at) };
}

#[tactic(auto, unfolding(crate::specs::FormGap::is_blank))]
fn is_blank(byte: u8) -> bool
    ensures { result ≡ blank byte }
{
    byte == b' ' || byte == b'\t' || byte == b'\r'
}

// How many bytes of a joined line the backslash at a place begins, or 0.
fn join_length(text: &[u8], at: usize) -> usize
    requires { at < length text.now }
    ensures value { result ≡ length_of_join (drop (at + 1) text.now) }
    ensures within { at + result ≤ length text.now }
    ensures small { result ≤ 3 }
{
    if at + 1 >= text.len() {
        return 0;
    }
    let second = text[at + 1];
    if second == b'\n' {
        return 2;
    }
    if second != b'\r' {
        return 0;
    }
    if at + 2 >= text.len() {
        return 0;
    }
    let third = text[at + 2];
    if third == b'\n' { 3 } else { 0 }
}

// Where the comment at a place ends: at a line feed, or at the end.
fn past_comment(text: &[u8], from: usize) -> usize
    requires { from ≤ length text.now }
    ensures within { (from ≤ result) × (result ≤ length text.now) }
    ensures value { (quiet : Bool) (line : ℕ)
        → after_gap comment quiet (drop from text.now) from line
        ≡ after_gap blanks quiet (drop result text.now) result line }
{
    let mut at = from;
    while at < text.len() {
        if text[at] == b'\n' {
            return at;
        }
        at += 1;
    }
    at
}

// Where the gap at a place ends, and in which line.
fn past_gap(text: &[u8], from: usize, line: usize, quiet: bool) -> (usize, usize)
    requires short { length text.now < 2 ^ 32 }
    requires place { from ≤ length text.now }
    requires lines { line ≤ from + 1 }
    ensures value { after_gap blanks quiet (drop from text.now) from line ≡ spot result.0 result.1 }
    ensures within { (from ≤ result.0) × (result.0 ≤ length text.now) × (result.1 + from ≤ line + result.0) }
{
    let mut at = from;
    let mut lines = line;
    'all: loop {
        if at >= text.len() {
            return (at, lines);
        }
        let byte = text[at];
        if is_blank(byte) {
            at += 1;
        } else if byte == b'#' {
            at = past_comment(text, at + 1);
        } else if byte == b'\n' {
            if !quiet {
                return (at, lines);
            }
            at += 1;
            lines += 1;
        } else if byte == b'\\' {
            let join = join_length(text, at);
            if join == 0 {
                return (at, lines);
            }
            at += join;
            lines += 1;
        } else {
            return (at, lines);
        }
    }
}

// Whether a line feed ends no statement.
fn is_quiet(begun: bool, depth: usize) -> bool
    ensures { result ≡ quiet_at begun depth }
{
    !begun || depth > 0
}

// How many brackets are open behind this token, by its first byte.
fn depth_after(byte: u8, depth: usize) -> usize
    requires { depth < 2 ^ 32 }
    ensures value { result ≡ bracket_depth byte depth }
    ensures within { result ≤ depth + 1 }
{
    match byte {
        b'(' | b'[' => depth + 1,
        b')' | b']' => depth.saturating_sub(1),
        _ => depth,
    }
}

impl<'a> FormToks<'a> {
    ghost use Rattle.slices.specs.FormTokens.{IsFormStep, form_begins, unread};

    /// The tokens of a form file of fewer than 2^32 bytes.
    pub fn new(text: &'a [u8]) -> FormToks<'a>
        requires { length text.now < 2 ^ 32 }
        ensures { result ≡ form_begins text.now }
    {
        FormToks {
            text,
            at: 0,
            line: 1,
            depth: 0,
            begun: false,
        }
    }

    /// The next token, the longest at its place, or the end of a logical line; None exactly at the end. Where no
    /// token starts, the answer is that place, now and at every further call.
    pub fn next(&mut self) -> Option<Result<Tok<'a>, LexAt>>
        ensures step { IsFormStep self.old result self.new }
        ensures source { self.new.source ≡ self.old.source }
        ensures slice { IfSome result (λ r. IfOk r (λ t. t.text.now
            ≡ take (length t.text.now) (drop t.from self.old.source))) }
        ensures moves { IfSome result (λ r. IfOk r (λ t. unread self.new < unread self.old)) }
        ensures rises { IfSome result (λ r. IfOk r (λ t. (self.old.at ≤ t.from)
            × (self.new.at ≡ t.from + length t.text.now))) }
    {
        let quiet = is_quiet(self.begun, self.depth);
        let (at, line) = past_gap(self.text, self.at, self.line, quiet);
        let from = at as u32;
        let rest = &self.text[at..];
        if at >= self.text.len() {
            if !self.begun {
                return None;
            }
            let line_end = Tok {
                text: rest,
                from,
                line: line as u32,
                kind: TokKind::End,
            };
            self.at = at;
            self.line = line;
            self.begun = false;
            return Some(Ok(line_end));
        }
        let first = self.text[at];
        let token_line = line as u32;
        if first == b'\n' {
            self.at = at + 1;
            self.line = line + 1;
            self.begun = false;
            return Some(Ok(Tok {
                text: &rest[..1],
                from,
                line: token_line,
                kind: TokKind::End,
            }));
        }
        let Some((length, kind)) = form_token(rest) else {
            return Some(Err(LexAt {
                from,
                line: token_line,
            }));
        };
        self.at = at + length;
        self.line = line;
        self.depth = depth_after(first, self.depth);
        self.begun = true;
        Some(Ok(Tok {
            text: &rest[..length],
            from,
            line: token_line,
            kind,
        }))
    }
}
