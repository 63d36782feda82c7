//! Assembly by rows, for any kernel and any elements: from the functions of a form, a mesh, the rows of the arguments
//! and the data of the coefficients to the entries of the form's matrix.
//!
//! On each cell the function of the cell's marker is run once. X has the coordinates of the cell's vertices in their
//! order, and W the values of the coefficients, one coefficient after the other, at the rows of its local nodes. What
//! it leaves in A is the cell's local tensor, row by row: its value at a local row and a local column is added to the
//! entry at their rows. The values of an entry are added up in the order of the cells.
//!
//! - `Rows` lends the entries row after row, and `assemble` gives all of them: the sums that are not zero, by row and
//!   then by column. An argument that the form doesn't have has one row, number 0.
//! - `cells` gives what each cell adds, by itself: the values of its local tensor that are not zero.
//! - Nothing is run where all cells together have more than 2^24 local entries. Else the first cell whose run stops
//!   is named with the statement that stopped it; where none stops, `Rows` and `assemble` name the first row and
//!   column whose sum passes.
#![tactic(auto)]

mod assembled;
mod coef_data;
mod funs;
mod lent_rows;
mod row_sums;
mod run_refusal;
mod runs;
mod shares;
mod stored;
mod triple;

pub use assembled::assemble;
pub use coef_data::CoefData;
pub use funs::{Funs, MarkedFun};
pub use lent_rows::Rows;
pub use run_refusal::RunRefusal;
pub use shares::{CellShare, cells};
pub use triple::Triple;

#[cfg(test)]
mod tests;
