// Looking at tokens, and why nothing can be read from them.

ghost use Rattle.std.specs.Prelude.{[], ◌∷◌, ◌≡◌, drop, true, MatchOption};
ghost use Rattle.ufl_syntax.specs.Grammar.{is_sign, is_factor};
ghost use Rattle.ufl_syntax.specs.Machine.{both_are, is_first, is_post, same as same_class, token, a_word};
ghost use Rattle.ufl_read.specs.Reads.{IsAt, Reads, Room, IsWord, ends_term as is_end_of_term, unnamed_fault};

use std::alloc::AllocError;
use ufl_syntax::{Class, Lexeme};

/// Why tokens can't be read. The place of a token counts from 0.
#[derive(Clone, Copy, Debug, PartialEq, Eq)]
pub enum Fault {
    Memory,
    /// The tokens end too early.
    Short,
    /// The token at this place can't stand there.
    Wrong(usize),
    /// The token at this place opens more brackets, signs and `**` than may be open.
    Deep(usize),
}

impl From<AllocError> for Fault {
    ghost use Rattle.ufl_read.specs.declared.tokens.Fault.TheVariants.{Memory};

    ghost from_gives = { λ _ e. e ≡ Memory };

    fn from(_error: AllocError) -> Fault {
        Fault::Memory
    }
}

pub fn signs(class: Class) -> bool
    ensures { result ≡ is_sign class }
{
    match class {
        Class::Plus | Class::Minus => true,
        _ => false,
    }
}

pub fn factors(class: Class) -> bool
    ensures { result ≡ is_factor class }
{
    match class {
        Class::Times | Class::Divide => true,
        _ => false,
    }
}

// Whether a sum begins with it.
pub fn starts(class: Class) -> bool
    ensures { result ≡ is_first class }
{
    match class {
        Class::Name(_)
        | Class::Number
        | Class::Text
        | Class::Open
        | Class::OpenList
        | Class::Plus
        | Class::Minus => true,
        _ => false,
    }
}

// Whether it goes on with a postfix.
pub fn follows(class: Class) -> bool
    ensures { result ≡ is_post class }
{
    match class {
        Class::Open | Class::OpenList | Class::Dot => true,
        _ => false,
    }
}

// Whether it doesn't belong to a term before it.
pub fn ends_term(class: Class) -> bool
    ensures { result ≡ is_end_of_term class }
{
    match class {
        Class::Times | Class::Divide | Class::Power | Class::Open | Class::OpenList | Class::Dot =>
            false,
        _ => true,
    }
}

// Whether they begin an argument with a keyword.
pub fn keyed(name: Class, sign: Class) -> bool
    ensures { result ≡ both_are name sign }
{
    match (name, sign) {
        (Class::Name(_), Class::Assign) => true,
        _ => false,
    }
}

pub fn same(wanted: Class, class: Class) -> bool
    ensures { result ≡ same_class wanted class }
{
    wanted == class
}

pub fn peek(tokens: &[Lexeme], at: usize) -> Option<Lexeme>
    ensures { MatchOption result (drop at tokens.now ≡ []) (IsAt tokens.now at) }
{
    tokens.get(at).copied()
}

// A token of this class, and the place after it.
pub fn expect(tokens: &[Lexeme], at: usize, class: Class) -> Result<(Lexeme, usize), Fault>
    ensures { Reads (λ r ts rest. (ts ≡ r.0 ∷ rest)
        × (same_class class r.0.class ≡ true)) (λ r. r.1) (token class) tokens.now at result }
{
    let Some(first) = peek(tokens, at) else {
        return Err(Fault::Short);
    };
    if same(class, first.class) {
        Ok((first, at + 1))
    } else {
        Err(Fault::Wrong(at))
    }
}

// Why a token of another class is no name: with no room left a bracket is too deep before it is wrong.
fn unnamed(class: Class, room: u32, at: usize) -> Fault
    ensures { result ≡ unnamed_fault class room at }
{
    match class {
        Class::Open | Class::OpenList => {
            if room == 0 {
                Fault::Deep(at)
            } else {
                Fault::Wrong(at)
            }
        }
        _ => Fault::Wrong(at),
    }
}

// A name, and the place after it.
pub fn expect_name(tokens: &[Lexeme], at: usize, room: u32) -> Result<(Lexeme, usize), Fault>
    ensures { Reads (λ r ts rest. (ts ≡ r.0 ∷ rest) × IsWord r.0) (λ r. r.1) (a_word room) tokens.now at result }
{
    let Some(first) = peek(tokens, at) else {
        return Err(Fault::Short);
    };
    match first.class {
        Class::Name(_) => Ok((first, at + 1)),
        _ => Err(unnamed(first.class, room, at)),
    }
}

// The room inside one more bracket, sign or `**`.
pub fn deeper(room: u32, at: usize) -> Result<u32, Fault>
    ensures { Room room at result }
{
    if room == 0 {
        Err(Fault::Deep(at))
    } else {
        Ok(room - 1)
    }
}
