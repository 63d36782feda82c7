//! Layouts: where the local values of a form's functions stand on one cell.

use spaces::Parts;
use sqlite_items::Items;

/// The place of a coefficient's values in the list of all coefficient values on a cell.
#[derive(Debug, Drop)]
pub struct CoefPlace {
    /// The coefficient's number.
    pub number: u32,
    /// Where its values begin.
    pub offset: u32,
    /// Its scalar parts.
    pub parts: Parts,
}

/// The parts of the functions of a form on cells of one dimension.
#[derive(Debug, Drop)]
pub struct Layout {
    /// The dimension of the cell.
    pub d: u8,
    /// The parts of the test function; none where it doesn't occur.
    pub rows: Parts,
    /// The parts of the trial function; none where it doesn't occur.
    pub cols: Parts,
    /// The coefficients that occur, by rising number.
    pub coefs: Items<CoefPlace>,
    /// The parts of the coordinate of space, where it occurs: its values are those of the cell's vertices.
    pub position: Option<Parts>,
}
