//! The values of form files, the words that name them, and what operators make of them.
#![tactic(auto)]

pub mod laws;
mod numbers;
mod operators;
mod refusal;
mod unsupported;
mod value;
mod words;

pub use numbers::{index, marker, part_count, whole_number};
pub use operators::{
    binary, expressed, formed, indexed, minus, mixed, operator_of_one, operator_of_two, plus,
};
pub use refusal::{Reason, placed, refused};
pub use unsupported::is_unsupported;
pub use value::{
    Value, copied_expression, copy_value, expression, height_of, light, list_items, nodes_of,
    tuple_items, turned,
};
pub use words::{
    Keyword, Sign, Word, family_named, function_named, index_number, is_spelled, keyword_named,
    sign_of,
};
