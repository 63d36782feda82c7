//! The numbers of a cell that its room depends on.

/// What is known of a cell's coordinates and of the coefficient values on it.
#[derive(Clone, Copy, Debug, PartialEq, Eq)]
pub struct CellNumbers {
    /// The dimension.
    pub d: u8,
    /// A common denominator of the coordinates.
    pub dd: u128,
    /// The largest difference of two coordinates in one direction, times `dd`.
    pub j: u128,
    /// The largest coordinate, times `dd`.
    pub m: u128,
    /// The largest coefficient value, times `dw`.
    pub nw: u128,
    /// A common denominator of the coefficient values.
    pub dw: u128,
}
