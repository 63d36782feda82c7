// The tokens of a text, with one token of look-ahead.

ghost use Rattle.std.specs.Prelude.{◌≡◌, ◌<◌, ◌≤◌, ◌^◌, length, map, OnOk, bytes_eq};
ghost use Rattle.slices.specs.Tokens.{rest_of, token_of};
ghost use Rattle.c_text.specs.Stream.{stream_of as stream_of_text, stream_at, stream_behind, text_ahead as text_of_next, Gives, shift as shifted, expect as expected, expects as all_expected, last_line as line_of_last};
ghost use Rattle.c_text.specs.Parser.{stream, left};

use crate::refusal::{KernelKind, KernelRefusal, ReadFault};
use slices::{Table, Tok, Toks};

/// The tokens that are still to be read.
#[derive(Drop)]
pub struct Parser<'a> {
    pub toks: Toks<'a>,
    pub ahead: Option<Tok<'a>>,
    /// What is wrong where a token is wanted and there is none.
    pub end: KernelRefusal,
}

pub fn syntax(line: u32) -> ReadFault
    ensures { result ≡ ReadFault.Refused (record { kind = KernelKind.Syntax; line = line }) }
{
    ReadFault::Refused(KernelRefusal {
        kind: KernelKind::Syntax,
        line,
    })
}

// The line of the last byte.
fn last_line(text: &[u8]) -> u32
    requires { length text.now < 2 ^ 32 }
    ensures { result ≡ line_of_last text.now }
{
    if text.is_empty() {
        return 0;
    }
    let before = &text[..text.len() - 1];
    let feeds = before.iter().filter(|byte| **byte == b'\n').count();
    1 + feeds as u32
}

impl<'a> Parser<'a> {
    #[tactic(auto, unfolding(crate::specs::Stream::stream_of))]
    pub fn new(text: &'a [u8]) -> Parser<'a>
        requires { length text.now < 2 ^ 32 }
        ensures { stream result ≡ stream_of_text text.now }
    {
        let mut parser = Parser {
            toks: Toks::new(text, Table::C),
            ahead: None,
            end: KernelRefusal {
                kind: KernelKind::Syntax,
                line: last_line(text),
            },
        };
        parser.advance();
        parser
    }

    // Reads one token ahead.
    #[tactic(auto, using(slices::proofs::Ahead::tokens_next), unfolding(crate::specs::Stream::stream_behind))]
    fn advance(&mut self)
        ensures { stream self.new ≡ stream_at (rest_of self.old.toks) self.old.end }
    {
        self.ahead = None;
        match self.toks.next() {
            None => {}
            Some(Ok(token)) => self.ahead = Some(token),
            Some(Err(place)) => self.end = KernelRefusal {
                kind: KernelKind::Lex,
                line: place.line,
            },
        }
    }

    /// The next token.
    #[tactic(auto, unfolding(crate::specs::Stream::shift, crate::specs::Stream::stream_behind))]
    pub fn shift(&mut self) -> Result<Tok<'a>, ReadFault>
        ensures read { Gives token_of result (stream self.new) (shifted (stream self.old)) }
        ensures shorter { OnOk result (left self.new < left self.old) }
    {
        let Some(token) = self.ahead else {
            return Err(ReadFault::Refused(self.end));
        };
        self.advance();
        Ok(token)
    }

    /// Whether the next token is this one.
    #[tactic(auto, unfolding(crate::specs::Stream::text_ahead, crate::specs::Stream::stream_behind))]
    pub fn next_is(&self, word: &[u8]) -> bool
        ensures { result ≡ bytes_eq (text_of_next (stream self.now)) word.now }
    {
        match self.ahead {
            Some(token) => token.text == word,
            None => word.is_empty(),
        }
    }

    /// This word or sign; the answer is its line.
    #[tactic(auto, unfolding(crate::specs::Stream::expect))]
    pub fn expect(&mut self, word: &[u8]) -> Result<u32, ReadFault>
        ensures read { Gives (λ line. line) result (stream self.new) (expected word.now (stream self.old)) }
        ensures shorter { OnOk result (left self.new < left self.old) }
    {
        let token = self.shift()?;
        if token.text == word {
            Ok(token.line)
        } else {
            Err(syntax(token.line))
        }
    }

    /// These words and signs.
    #[tactic(auto, unfolding(crate::specs::Stream::expects))]
    pub fn expect_all(&mut self, words: &[&[u8]]) -> Result<(), ReadFault>
        ensures read { Gives (λ x. x) result (stream self.new) (all_expected (map (λ w. w.now) words.now) (stream self.old)) }
        ensures shorter { OnOk result (left self.new ≤ left self.old) }
    {
        for word in words {
            self.expect(word)?;
        }
        Ok(())
    }
}
