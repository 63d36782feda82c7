//! Where a form's functions live: cells and finite elements.
//!
//! A cell is an interval, a triangle or a tetrahedron. An element is a scalar one (a family and a degree on a cell), or a
//! vector, a tensor or a list of elements over it. `Element` is made by its constructors alone, so that each one is lawful;
//! `parts` gives its scalar parts, in order, with their places in the list of a cell's local values; `weights` gives the local
//! nodes of a part.
#![tactic(auto)]

mod cell;
mod element;
mod element_tree;
mod equality;
mod family;
mod flat;
pub mod laws;
mod node_tables;
mod parts;
mod refusal;

pub use cell::Cell;
pub use element::Element;
pub use element_tree::ElementTree;
pub use equality::{same_cell, same_element};
pub use family::{Family, node_count};
pub use node_tables::{nodes, weights};
pub use parts::{Part, Parts};
pub use refusal::SpaceRefusal;

#[cfg(test)]
mod tests;
