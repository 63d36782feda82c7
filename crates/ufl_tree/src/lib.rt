//! Forms as typed trees.
//!
//! `Tree` is an expression as it is written, each node with the shape, the free indices and the cell of its value; `Plain` is the small index
//! notation that trees are lowered to. What they mean is said by `ufl_meaning`.
#![tactic(auto)]

mod copies;
mod function;
mod plain;
mod tree;

pub use function::{Free, Function, Ix, On, Role};
pub use plain::Plain;
pub use tree::{Node, Op1, Op2, Tree};
