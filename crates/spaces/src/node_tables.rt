//! The local nodes of Lagrange elements.

ghost use Rattle.std.specs.Prelude.{◌≡◌, ◌≤◌, map, IfOk};
ghost use Rattle.spaces.specs.declared.cell.Cell.TheVariants.{Interval, Triangle, Tetrahedron};
ghost use Rattle.spaces.specs.Nodes.{nodes_of, padded};

use crate::cell::Cell;
use std::alloc::{AllocError, Global};

/// The one node of degree 0.
static INSIDE: [[u8; 4]; 1] = [[0, 0, 0, 0]];

static INTERVAL_1: [[u8; 4]; 2] = [[1, 0, 0, 0], [0, 1, 0, 0]];

static INTERVAL_2: [[u8; 4]; 3] = [[2, 0, 0, 0], [0, 2, 0, 0], [1, 1, 0, 0]];

static INTERVAL_3: [[u8; 4]; 4] = [[3, 0, 0, 0], [0, 3, 0, 0], [1, 2, 0, 0], [2, 1, 0, 0]];

static TRIANGLE_1: [[u8; 4]; 3] = [[1, 0, 0, 0], [0, 1, 0, 0], [0, 0, 1, 0]];

static TRIANGLE_2: [[u8; 4]; 6] = [
    [2, 0, 0, 0],
    [0, 2, 0, 0],
    [0, 0, 2, 0],
    [1, 1, 0, 0],
    [1, 0, 1, 0],
    [0, 1, 1, 0],
];

static TRIANGLE_3: [[u8; 4]; 10] = [
    [3, 0, 0, 0],
    [0, 3, 0, 0],
    [0, 0, 3, 0],
    [1, 2, 0, 0],
    [2, 1, 0, 0],
    [1, 0, 2, 0],
    [2, 0, 1, 0],
    [0, 1, 2, 0],
    [0, 2, 1, 0],
    [1, 1, 1, 0],
];

static TETRAHEDRON_1: [[u8; 4]; 4] = [[1, 0, 0, 0], [0, 1, 0, 0], [0, 0, 1, 0], [0, 0, 0, 1]];

static TETRAHEDRON_2: [[u8; 4]; 10] = [
    [2, 0, 0, 0],
    [0, 2, 0, 0],
    [0, 0, 2, 0],
    [0, 0, 0, 2],
    [1, 1, 0, 0],
    [1, 0, 1, 0],
    [1, 0, 0, 1],
    [0, 1, 1, 0],
    [0, 1, 0, 1],
    [0, 0, 1, 1],
];

static TETRAHEDRON_3: [[u8; 4]; 20] = [
    [3, 0, 0, 0],
    [0, 3, 0, 0],
    [0, 0, 3, 0],
    [0, 0, 0, 3],
    [1, 2, 0, 0],
    [2, 1, 0, 0],
    [1, 0, 2, 0],
    [2, 0, 1, 0],
    [1, 0, 0, 2],
    [2, 0, 0, 1],
    [0, 1, 2, 0],
    [0, 2, 1, 0],
    [0, 1, 0, 2],
    [0, 2, 0, 1],
    [0, 0, 1, 2],
    [0, 0, 2, 1],
    [1, 1, 1, 0],
    [1, 1, 0, 1],
    [1, 0, 1, 1],
    [0, 1, 1, 1],
];

/// The weights of the local nodes, one for each vertex of the cell and 0 behind them. They add up to the degree: the node's
/// barycentric coordinates are the weights over the degree.
///
/// Nodes at vertices come first, then those on edges, on triangles and in the cell; within one kind by the vertices that they
/// are between, then by their weights:
///
/// ```text
/// 2                   triangle, degree 2: [2,0,0], [0,2,0], [0,0,2], then [1,1,0], [1,0,1], [0,1,1]
/// 4  5
/// 0  3  1
/// ```
pub fn nodes(alloc: Global, cell: Cell, degree: u8) -> Result<Vec<[u8; 4]>, AllocError>
    requires { degree ≤ 3 }
    ensures { IfOk result (λ v. v.items ≡ map padded (nodes_of cell degree)) }
{
    Vec::from_slice(alloc, weights(cell, degree))
}

/// The same, lent.
pub fn weights(cell: Cell, degree: u8) -> &'static [[u8; 4]]
    requires { degree ≤ 3 }
    ensures { result.now ≡ map padded (nodes_of cell degree) }
{
    match cell {
        Cell::Interval => on_interval(degree),
        Cell::Triangle => on_triangle(degree),
        Cell::Tetrahedron => in_tetrahedron(degree),
    }
}

fn on_interval(degree: u8) -> &'static [[u8; 4]]
    requires { degree ≤ 3 }
    ensures { result.now ≡ map padded (nodes_of Interval degree) }
{
    match degree {
        0 => &INSIDE,
        1 => &INTERVAL_1,
        2 => &INTERVAL_2,
        _ => &INTERVAL_3,
    }
}

fn on_triangle(degree: u8) -> &'static [[u8; 4]]
    requires { degree ≤ 3 }
    ensures { result.now ≡ map padded (nodes_of Triangle degree) }
{
    match degree {
        0 => &INSIDE,
        1 => &TRIANGLE_1,
        2 => &TRIANGLE_2,
        _ => &TRIANGLE_3,
    }
}

fn in_tetrahedron(degree: u8) -> &'static [[u8; 4]]
    requires { degree ≤ 3 }
    ensures { result.now ≡ map padded (nodes_of Tetrahedron degree) }
{
    match degree {
        0 => &INSIDE,
        1 => &TETRAHEDRON_1,
        2 => &TETRAHEDRON_2,
        _ => &TETRAHEDRON_3,
    }
}
