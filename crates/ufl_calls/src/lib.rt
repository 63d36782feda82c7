//! What calls make of the values of form files: elements, functions, tensors and forms.
#![tactic(auto)]

mod arguments;
mod attributes;
mod calls;
mod element_calls;
mod form_calls;
mod function_calls;
mod group;
mod made;
mod table;
mod tensor_calls;

pub use arguments::Given;
pub use attributes::{along, transposed};
pub use calls::called;
pub use group::Group;
pub use made::Made;
pub use table::{table_value, text_value};
