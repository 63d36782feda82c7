// Why a form file is refused.

ghost use Rattle.std.specs.Prelude.{[], ◌≡◌, ◌<◌, ◌≤◌, ◌∷◌, length, drop, take, List, Option};
ghost use Rattle.ufl_read.specs.Refusals.{kind_number, line_or, line_started, started, statement_line as line_of_statement, is_foreign as foreign, wordless, wrong_at, refusal_for};

use crate::tokens::{Fault, peek};
use slices::LexAt;
use std::alloc::AllocError;
use ufl_syntax::{Class, Lexeme, Span};

/// What is wrong with a form file. Reading gives the first five, and `Memory`; the others are of its meaning.
#[derive(Clone, Copy, Debug, PartialEq, Eq)]
pub enum FormKind {
    /// More than 262,144 bytes.
    TooLong,
    /// No token starts there.
    Lex,
    /// More than 64 brackets, signs and `**` are open.
    Deep,
    /// The token can't stand there.
    Syntax,
    /// The token is of Python and not of this language.
    Unsupported,
    UnknownName,
    Kind,
    Shape,
    FreeIndex,
    NumberRange,
    Nodes,
    Arity,
    Cost,
    Size,
    NoForm,
    Memory,
}

impl FormKind {
    /// The number that stands before its name in messages, from 1 to 15; none for `Memory`, which is no fault of the
    /// file.
    pub fn number(self) -> Option<u8>
        ensures { result ≡ kind_number self }
    {
        match self {
            FormKind::TooLong => Some(1),
            FormKind::Lex => Some(2),
            FormKind::Deep => Some(3),
            FormKind::Syntax => Some(4),
            FormKind::Unsupported => Some(5),
            FormKind::UnknownName => Some(6),
            FormKind::Kind => Some(7),
            FormKind::Shape => Some(8),
            FormKind::FreeIndex => Some(9),
            FormKind::NumberRange => Some(10),
            FormKind::Nodes => Some(11),
            FormKind::Arity => Some(12),
            FormKind::Cost => Some(13),
            FormKind::Size => Some(14),
            FormKind::NoForm => Some(15),
            FormKind::Memory => None,
        }
    }
}

/// Why a form file is refused: the line on which the statement begins, counted from 1, or 0 where no statement is
/// refused; and the refused word, by its place in the file and its length in bytes, both 0 where there is none.
#[derive(Clone, Copy, Debug, PartialEq, Eq)]
pub struct FormRefusal {
    pub kind: FormKind,
    pub line: u32,
    pub from: u32,
    pub len: u32,
}

impl FormRefusal {
    /// A refusal that names no word.
    pub fn new(kind: FormKind, line: u32) -> FormRefusal
        ensures { result ≡ wordless kind line }
    {
        FormRefusal {
            kind,
            line,
            from: 0,
            len: 0,
        }
    }
}

impl From<AllocError> for FormRefusal {
    ghost use Rattle.ufl_read.specs.declared.refusal.FormKind.TheVariants.{Memory};

    ghost from_gives = { λ _ e. e ≡ wordless Memory 0 };

    fn from(_error: AllocError) -> FormRefusal {
        FormRefusal::new(FormKind::Memory, 0)
    }
}

// The line on which the statement begins, behind one more token.
fn after_token(line: Option<u32>, token: Lexeme) -> Option<u32>
    ensures { result ≡ line_started line token.class token.line }
{
    match (token.class, line) {
        (Class::End, _) => None,
        (_, Some(line)) => Some(line),
        (_, None) => Some(token.line),
    }
}

// The line on which the statement behind these tokens begins: its own, where it has no token among them.
fn statement_line(tokens: &[Lexeme], own: u32) -> u32
    ensures { result ≡ line_of_statement tokens.now own }
{
    let mut line = None;
    let mut at = 0;
    'all: loop {
        let Some(token) = peek(tokens, at) else {
            return match line {
                Some(line) => line,
                None => own,
            };
        };
        line = after_token(line, token);
        at += 1;
    }
}

fn is_foreign(class: Class) -> bool
    ensures { result ≡ foreign class }
{
    match class {
        Class::From | Class::Import | Class::Foreign => true,
        _ => false,
    }
}

// The refusal of a token that can't stand behind these.
fn wrong(front: &[Lexeme], bad: Lexeme) -> FormRefusal
    ensures { result ≡ wrong_at front.now bad }
{
    let line = statement_line(front, bad.line);
    if is_foreign(bad.class) {
        let Span { from, len } = bad.span;
        FormRefusal {
            kind: FormKind::Unsupported,
            line,
            from,
            len,
        }
    } else {
        FormRefusal::new(FormKind::Syntax, line)
    }
}

// The refusal of tokens with a fault, where no token starts there behind them. The tokens of a whole file never end
// too early.
pub fn refusal_of(tokens: &[Lexeme], fault: Fault, lost: Option<LexAt>) -> FormRefusal
    ensures { result ≡ refusal_for tokens.now fault lost }
{
    match fault {
        Fault::Memory => FormRefusal::new(FormKind::Memory, 0),
        Fault::Short => match lost {
            Some(place) => { FormRefusal::new(FormKind::Lex, statement_line(tokens, place.line)) }
            None => FormRefusal::new(FormKind::Syntax, statement_line(tokens, 0)),
        },
        Fault::Wrong(at) => match peek(tokens, at) {
            Some(bad) => wrong(&tokens[..at], bad),
            None => FormRefusal::new(FormKind::Syntax, 0),
        },
        Fault::Deep(at) => match peek(tokens, at) {
            Some(bad) => {
                let line = statement_line(&tokens[..at], bad.line);
                FormRefusal::new(FormKind::Deep, line)
            }
            None => FormRefusal::new(FormKind::Deep, 0),
        },
    }
}
