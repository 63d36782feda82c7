//! What a form file says.

use sqlite_items::Items;
use ufl_expr::Elements;
use ufl_form::Form;

/// An exported form, with the target of the last assignment of its name: the line on which the statement begins, and
/// the name's place in the file and its length in bytes.
#[derive(Drop)]
pub struct Named {
    pub line: u32,
    pub from: u32,
    pub len: u32,
    pub form: Form,
}

/// The forms that a file exports, in order. Coefficient k has the element with the number `coefficients[k]` in
/// `elements`.
#[derive(Drop)]
pub struct UflProgram {
    pub elements: Elements,
    pub coefficients: Items<u16>,
    pub forms: Items<Named>,
}
