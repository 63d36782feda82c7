//! Factors of the columns of a monomial.

/// A factor of the columns of a monomial: a list of values that a kernel has on each cell.
#[derive(Clone, Copy, Debug, PartialEq, Eq)]
pub enum Digit {
    /// How each reference coordinate grows in a direction of space, 0 to 2; nothing grows in a direction at or above
    /// the dimension.
    Growth(u8),
    /// So many coefficient values, from an offset on.
    Weights { offset: u32, count: u32 },
    /// A coordinate of so many corners of the cell.
    Corners { axis: u8, count: u32 },
}
