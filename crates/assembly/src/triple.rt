//! The entries of a matrix.
use ratio::Ratio;

/// An entry that is not zero, with its row and its column, from 0.
#[derive(Clone, Copy)]
pub struct Triple {
    pub row: u32,
    pub col: u32,
    pub value: Ratio,
}
