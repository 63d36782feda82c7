//! What a UFL form file is as a tree: its statements, its grammar, and the laws of the grammar.
//!
//! The grammar is a relation on whole lists of tokens (`specs/Grammar.antt`). Its laws say that it is unambiguous, and
//! where reading stops in tokens that no list of statements is. `ufl_read` reads texts by it.
#![tactic(auto)]

mod class;
pub mod laws;
mod span;
mod tree;

pub use class::{Class, Lexeme};
pub use span::Span;
pub use tree::{Arg, AssignOp, Next, Post, Stmt, Syn};
