//! The functions of a form: one for each marker that it names, and one for all other cells.

use c_unit::CFun;

/// The function for the cells of a marker.
#[derive(Drop)]
pub struct MarkedFun {
    pub marker: u32,
    pub fun: CFun,
}

/// The functions of a form. A cell runs that of its marker where `marked` has one, and else `plain`. The markers in `marked`
/// rise.
#[derive(Drop)]
pub struct Funs {
    pub plain: CFun,
    pub marked: Vec<MarkedFun>,
}
