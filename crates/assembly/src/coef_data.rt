//! The data of coefficients.

use dofs::DofMap;
use ratio::Ratio;

/// A coefficient that occurs in a form: the rows of its element on the mesh, and its value at each row.
#[derive(Drop)]
pub struct CoefData {
    pub map: DofMap,
    pub values: Vec<Ratio>,
}
