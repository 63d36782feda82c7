//! What the table of forms and the arity of an admitted form say of its integrands and its density.
#![tactic(auto)]

pub mod laws;
