//! Reads UFL form files: texts of a small part of Python, as statements whose tokens are slices of the text.
//!
//! The grammar and its laws are those of `ufl_syntax`. The descent goes no deeper than brackets, signs and `**` may
//! nest; all else is read in loops.
#![tactic(auto)]

mod file;
pub mod laws;
mod lists;
mod refusal;
mod statements;
mod tokens;
mod values;

pub use file::read_file;
pub use refusal::{FormKind, FormRefusal};
pub use slices::FORM_LIMIT;
pub use statements::{DEPTH_LIMIT, read_statements};
pub use tokens::Fault;
pub use ufl_syntax::{Arg, AssignOp, Next, Post, Span, Stmt, Syn};
