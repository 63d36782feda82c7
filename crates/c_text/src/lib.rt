//! Kernels as C text: the text of a unit, and the unit of a text.
//!
//! `print_unit` writes the canonical text, `read_unit` reads any text of the language. The grammar and the canonical text are
//! definitions of `specs/`, and `docs/KERNEL_TEXT.md` describes both.
#![tactic(auto)]

mod fraction;
pub mod laws;
mod number;
mod parser;
mod place;
mod print;
mod read;
mod refusal;
mod statement;
#[cfg(test)]
mod tests;

pub use c_unit::{Array, CFun, CStmt, CUnit, Op, Place, Slot};
pub use print::print_unit;
pub use read::{ReadUnit, read_unit};
pub use refusal::{KernelKind, KernelRefusal};
