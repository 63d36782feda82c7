//! Monomials: products of a number and derivatives of functions.

use ratio::Ratio;
use sqlite_items::Items;
use ufl_tree::Function;

/// A derivative of one component of a function.
#[derive(Clone, Copy, Debug, PartialEq, Eq)]
pub struct Atom {
    pub f: Function,
    /// The place in the flat list of the function's components.
    pub component: u8,
    /// How often it is derived in each direction of space.
    pub dirs: [u8; 3],
}

/// A number times a product of atoms.
#[derive(Debug, Drop)]
pub struct Mono {
    pub c: Ratio,
    pub atoms: Items<Atom>,
}
