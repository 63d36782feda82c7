ghost use Rattle.std.specs.Prelude.{◌≡◌};
ghost use Rattle.std.specs.Str.{bytes_eq};
ghost use Rattle.ufl_syntax.specs.Classes.{is_keyword_of_two, is_keyword_of_three, is_keyword_of_four, is_keyword_of_five, is_longer_keyword, is_other_keyword, word_class as class_of_word, sign_class as class_of_sign, lexeme_of};

use crate::span::Span;
use slices::{Tok, TokKind};

/// What a token is to the grammar.
#[derive(Clone, Copy, Debug, PartialEq, Eq)]
pub enum Class {
    /// A name, and whether it is the word `ufl`.
    Name(bool),
    Number,
    /// A string.
    Text,
    /// The keyword `from`.
    From,
    /// The keyword `import`.
    Import,
    /// Every other keyword, `:` and `...`: parts of Python that form files lack.
    Foreign,
    Plus,
    Minus,
    Times,
    Divide,
    /// `**`
    Power,
    /// `=`
    Assign,
    /// `+=`
    AddAssign,
    /// `-=`
    SubAssign,
    /// `(`
    Open,
    /// `)`
    Close,
    /// `[`
    OpenList,
    /// `]`
    CloseList,
    Comma,
    Dot,
    /// The end of a logical line.
    End,
}

/// A token as the grammar sees it: where it stands, its line, counted from 1, and its class.
#[derive(Clone, Copy, Debug)]
pub struct Lexeme {
    pub span: Span,
    pub line: u32,
    pub class: Class,
}

fn is_spelled(word: &[u8], letters: &[u8]) -> bool
    ensures { result ≡ bytes_eq word.now letters.now }
{
    word == letters
}

// The keywords besides `from` and `import`, by their length.
#[tactic(auto, unfolding(crate::specs::Classes::is_keyword_of_two))]
fn keyword_of_two(word: &[u8]) -> bool
    ensures { result ≡ is_keyword_of_two word.now }
{
    if is_spelled(word, b"as") {
        return true;
    }
    if is_spelled(word, b"if") {
        return true;
    }
    if is_spelled(word, b"in") {
        return true;
    }
    if is_spelled(word, b"is") {
        return true;
    }
    is_spelled(word, b"or")
}

#[tactic(auto, unfolding(crate::specs::Classes::is_keyword_of_three))]
fn keyword_of_three(word: &[u8]) -> bool
    ensures { result ≡ is_keyword_of_three word.now }
{
    if is_spelled(word, b"and") {
        return true;
    }
    if is_spelled(word, b"def") {
        return true;
    }
    if is_spelled(word, b"del") {
        return true;
    }
    if is_spelled(word, b"for") {
        return true;
    }
    if is_spelled(word, b"not") {
        return true;
    }
    is_spelled(word, b"try")
}

#[tactic(auto, unfolding(crate::specs::Classes::is_keyword_of_four))]
fn keyword_of_four(word: &[u8]) -> bool
    ensures { result ≡ is_keyword_of_four word.now }
{
    if is_spelled(word, b"elif") {
        return true;
    }
    if is_spelled(word, b"else") {
        return true;
    }
    if is_spelled(word, b"pass") {
        return true;
    }
    is_spelled(word, b"with")
}

#[tactic(auto, unfolding(crate::specs::Classes::is_keyword_of_five))]
fn keyword_of_five(word: &[u8]) -> bool
    ensures { result ≡ is_keyword_of_five word.now }
{
    if is_spelled(word, b"class") {
        return true;
    }
    if is_spelled(word, b"raise") {
        return true;
    }
    if is_spelled(word, b"while") {
        return true;
    }
    is_spelled(word, b"yield")
}

#[tactic(auto, unfolding(crate::specs::Classes::is_longer_keyword))]
fn longer_keyword(word: &[u8]) -> bool
    ensures { result ≡ is_longer_keyword word.now }
{
    if is_spelled(word, b"assert") {
        return true;
    }
    if is_spelled(word, b"except") {
        return true;
    }
    if is_spelled(word, b"global") {
        return true;
    }
    if is_spelled(word, b"lambda") {
        return true;
    }
    if is_spelled(word, b"return") {
        return true;
    }
    if is_spelled(word, b"finally") {
        return true;
    }
    is_spelled(word, b"nonlocal")
}

#[tactic(auto, unfolding(crate::specs::Classes::word_class))]
fn word_class(word: &[u8]) -> Class
    ensures { result ≡ class_of_word word.now }
{
    if is_spelled(word, b"ufl") {
        return Class::Name(true);
    }
    if is_spelled(word, b"from") {
        return Class::From;
    }
    if is_spelled(word, b"import") {
        return Class::Import;
    }
    if keyword_of_two(word)
        || keyword_of_three(word)
        || keyword_of_four(word)
        || keyword_of_five(word)
        || longer_keyword(word)
    {
        return Class::Foreign;
    }
    Class::Name(false)
}

#[tactic(auto, unfolding(crate::specs::Classes::sign_class))]
fn sign_class(sign: &[u8]) -> Class
    ensures { result ≡ class_of_sign sign.now }
{
    if is_spelled(sign, b"+") {
        return Class::Plus;
    }
    if is_spelled(sign, b"-") {
        return Class::Minus;
    }
    if is_spelled(sign, b"*") {
        return Class::Times;
    }
    if is_spelled(sign, b"/") {
        return Class::Divide;
    }
    if is_spelled(sign, b"**") {
        return Class::Power;
    }
    if is_spelled(sign, b"=") {
        return Class::Assign;
    }
    if is_spelled(sign, b"+=") {
        return Class::AddAssign;
    }
    if is_spelled(sign, b"-=") {
        return Class::SubAssign;
    }
    if is_spelled(sign, b"(") {
        return Class::Open;
    }
    if is_spelled(sign, b")") {
        return Class::Close;
    }
    if is_spelled(sign, b"[") {
        return Class::OpenList;
    }
    if is_spelled(sign, b"]") {
        return Class::CloseList;
    }
    if is_spelled(sign, b",") {
        return Class::Comma;
    }
    if is_spelled(sign, b".") {
        return Class::Dot;
    }
    Class::Foreign
}

impl Lexeme {
    /// A token of a form file, without its text.
    #[inline(always)]
    pub fn new(tok: Tok<'_>) -> Lexeme
        ensures { result ≡ lexeme_of tok.entry }
    {
        let class = match tok.kind {
            TokKind::Word => word_class(tok.text),
            TokKind::Number => Class::Number,
            TokKind::Text => Class::Text,
            TokKind::Symbol => sign_class(tok.text),
            TokKind::End => Class::End,
        };
        let span = Span {
            from: tok.from,
            len: tok.text.len() as u32,
        };
        Lexeme {
            span,
            line: tok.line,
            class,
        }
    }
}
