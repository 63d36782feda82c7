ghost use Rattle.std.specs.Prelude.{◌≡◌, ◌≢◌, ◌<◌, true, is_some, length};
ghost use Rattle.ufl_syntax.specs.declared.tree.AssignOp.TheVariants.{ImportAll};

use crate::span::Span;
use sqlite_items::{Boxed, Items};

/// What a statement does with its targets.
#[derive(Clone, Copy, Debug, PartialEq, Eq)]
pub enum AssignOp {
    /// `=`
    Set,
    /// `+=`
    Plus,
    /// `-=`
    Minus,
    /// `from ufl import *`
    ImportAll,
}

/// A statement. All but `ImportAll` have a target and a value.
#[derive(Drop)]
pub struct Stmt {
    /// The line of its first token, counted from 1.
    pub line: u32,
    /// The names before the sign; none for `ImportAll`.
    pub targets: Items<Span>,
    /// Whether a comma stands among the targets.
    pub unpack: bool,
    pub op: AssignOp,
    /// None for `ImportAll` alone.
    pub value: Option<Syn>,
    pub ghost assigned: { op ≢ ImportAll → (0 < length targets) × (is_some value ≡ true) },
}

/// A value as it is written. Chains of one level are lists, so a tree is no higher than its brackets, signs and `**`
/// nest.
#[cycle(syn)]
#[derive(Drop)]
pub enum Syn {
    Name(Span),
    Number(Span),
    /// A string with its quotes.
    Text(Span),
    /// Items with commas between, with the first comma.
    Tuple(Span, Items<Syn>),
    /// Items in square brackets, with the `[`.
    List(Span, Items<Syn>),
    /// A sign before its operand.
    Sign(Span, Boxed<Syn>),
    /// Operands of `+` and `-`, of `*` and `/`, or the two of one `**`.
    Binary(Boxed<Syn>, Items<Next>),
    /// Calls, indices and attributes of a value that is no such chain, in the order in which they stand.
    Postfix(Boxed<Syn>, Items<Post>),
}

/// An operator and the operand to its right.
#[cycle(syn)]
#[derive(Drop)]
pub struct Next {
    pub op: Span,
    pub right: Syn,
}

/// What follows a value.
#[cycle(syn)]
#[derive(Drop)]
pub enum Post {
    /// A call, with its `(`.
    Call(Span, Items<Arg>),
    /// An index, with its `[`.
    Index(Span, Boxed<Syn>),
    /// An attribute: its name.
    Attr(Span),
}

/// An argument of a call, with its keyword if it has one.
#[cycle(syn)]
#[derive(Drop)]
pub struct Arg {
    pub name: Option<Span>,
    pub value: Syn,
}
