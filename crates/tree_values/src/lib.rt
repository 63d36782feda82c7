//! A plain, slow program beside the definitions of `ufl_meaning`: `value` computes the polynomial of a component of a typed tree, `meaning` that of a
//! tree in index notation and `density` that of a form, word for word as they are defined, from the functions, their changes and the names of a
//! `Scene`. Numbers that do not fit are refused.
//!
//! Nothing else uses it.
#![tactic(auto)]

mod component;
mod densities;
mod environment;
mod leaf;
mod meanings;
mod operands;
mod parts;
mod place;
mod poly;
mod scene;
mod summed;
mod term;
mod values;
#[cfg(test)]
mod worked;
#[cfg(test)]
mod worked_forms;
#[cfg(test)]
mod worked_terms;
#[cfg(test)]
mod worked_values;

pub use densities::density;
pub use environment::{Change, Given};
pub use meanings::meaning;
pub use poly::Poly;
pub use scene::{Bound, Scene};
pub use term::Term;
pub use values::value;
