//! Tokens of texts, as slices of their source.
//!
//! `Toks` gives the tokens of a text one by one, takes no memory and copies nothing. A table says which tokens there
//! are; the table `C` is that of kernels in C. The tokens of a text are a function of it, in `specs/Tokens.antt`.
//! `FormToks` gives those of form files, where line feeds end statements and brackets join lines
//! (`specs/FormTokens.antt`).
#![tactic(auto)]

mod c_table;
mod form_table;
mod form_toks;
pub mod laws;
mod toks;

pub use form_toks::{FORM_LIMIT, FormToks};
pub use toks::{LexAt, Table, Tok, TokKind, Toks};
