//! Functions and indices, the leaves of trees, and the cells of integrals.

/// The part that a function plays in a form.
#[derive(Clone, Copy, Debug, PartialEq, Eq)]
pub enum Role {
    /// The test function, the first argument.
    Test,
    /// The trial function, the last argument where there is one.
    Trial,
    /// The place in the cell, as the vector of its coordinates: neither an argument nor a coefficient.
    Position,
    /// The coefficient of this number.
    Coefficient(u32),
}

/// A whole function.
#[derive(Clone, Copy, Debug, PartialEq, Eq)]
pub struct Function {
    pub role: Role,
    /// The number of its element in a table of elements.
    pub element: u16,
}

/// An index of a component or a direction.
#[derive(Clone, Copy, Debug, PartialEq, Eq)]
pub enum Ix {
    /// This number, counted from 0.
    Fixed(u8),
    /// The value of this name.
    Named(u16),
}

/// A free index: its value is below `dim`.
#[derive(Clone, Copy, Debug, PartialEq, Eq)]
pub struct Free {
    /// The name.
    pub index: u16,
    pub dim: u8,
}

/// The cells that an integral is over.
#[derive(Clone, Copy, Debug, PartialEq, Eq)]
pub enum On {
    /// All of them.
    All,
    /// Those with this marker.
    Marked(u32),
}
