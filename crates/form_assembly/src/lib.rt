//! The values of a form on a mesh, by the runs of its functions on the cells.
#![tactic(auto)]

mod form_assembly;
pub mod laws;

pub use form_assembly::FormAssembly;
