//! Exact fractions of two 128-bit numbers, always in lowest terms.
//!
//! Each step gives the exact value or refuses by one rule on values (`algebra`'s `Steps`): a product where its reduced result does not fit,
//! a sum where a number on the way to its reduced result does not.
//! `Ratio::read` and `Ratio::write` are the text of a number: `-7/3`, `12`, `0.5e-3`.
#![tactic(auto)]

mod decimal;
mod digits;
mod gcd;
mod parts;
mod reduced;
mod text;

pub use reduced::Ratio;
pub use text::written_is_read;
