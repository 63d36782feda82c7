//! The families of scalar elements and their local nodes.

ghost use Rattle.std.specs.Prelude.{◌≡◌, ◌≤◌};
ghost use Rattle.spaces.specs.Family.{has_degree, node_count as nodes_of};

use crate::cell::Cell;

/// The family of a scalar element.
#[derive(Clone, Copy, Debug, PartialEq, Eq)]
pub enum Family {
    /// Continuous piecewise polynomials.
    Lagrange,
    /// Piecewise polynomials with no continuity between cells.
    Dg,
    /// One number for the whole mesh.
    Real,
}

impl Family {
    /// Whether the family has elements of this degree: `Lagrange` from 1 to 3, `Dg` from 0 to 3,
    /// `Real` of 0 alone.
    pub fn has_degree(self, degree: u8) -> bool
        ensures { result ≡ has_degree self degree }
    {
        match self {
            Family::Lagrange => 1 <= degree && degree <= 3,
            Family::Dg => degree <= 3,
            Family::Real => degree == 0,
        }
    }
}

/// How many local nodes an element of this degree has on the cell: the points whose barycentric
/// coordinates are multiples of 1/degree, and one for degree 0.
pub fn node_count(cell: Cell, degree: u8) -> u8
    requires { degree ≤ 3 }
    ensures { result ≡ nodes_of cell degree }
{
    let q = degree;
    match cell {
        Cell::Interval => q + 1,
        Cell::Triangle => (q + 1) * (q + 2) / 2,
        Cell::Tetrahedron => (q + 1) * (q + 2) * (q + 3) / 6,
    }
}
