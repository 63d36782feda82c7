//! The integrands of forms in index notation, with the operators on forms carried out, as code.
//!
//! `flatten` gives one for each integral: the component of its integrand, without derivatives by variables and by
//! functions, under the operators around it. On each integrand the operators are the methods of `Integrand`.
#![tactic(auto)]

mod forms;
mod integrand;
mod operator;
mod sides;
mod substitution;
#[cfg(test)]
mod tests;
#[cfg(test)]
mod worked;

pub use forms::flatten;
pub use integrand::Integrand;
pub use operator::Operator;
