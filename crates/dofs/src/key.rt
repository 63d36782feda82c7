//! Labels as they are sorted.

use crate::support::Support;

/// The label of a local node. Its fields stand in the order in which labels are compared.
#[derive(Clone, Copy, Debug, PartialEq, Eq, PartialOrd, Ord)]
pub struct Key {
    /// The number of the scalar part.
    pub part: u8,
    /// The cell, where no other cell has the node.
    pub cell: Option<u32>,
    pub support: Support,
}
