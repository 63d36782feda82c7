//! Meshes, elements and their rows.

ghost use Rattle.std.specs.Prelude.{◌≡◌, length};

use super::*;
use mesh_in::{Mesh, read_mesh};
use spaces::{Cell, Element, Family};
use std::alloc::Global;
use std::test::Fail;

/// Cells `0 1 2` and `2 3 0`: the edge of vertices 0 and 2 has two directions.
const SQUARE: &[u8] = b"mesh 1 triangle 4 2\n0 0\n1 0\n1 1\n0 1\n0 1 2\n2 3 0\n";

const LINE: &[u8] = b"mesh 1 interval 3 2\n0\n1\n3\n0 1\n2 1\n";

/// Vertices 0 and 2 are in no cell.
const UNUSED: &[u8] = b"mesh 1 interval 4 1\n0\n1\n2\n3\n3 1\n";

const NO_CELL: &[u8] = b"mesh 1 interval 2 0\n0\n1\n";

const TETRAHEDRON: &[u8] = b"mesh 1 tetrahedron 4 1\n0 0 0\n1 0 0\n0 1 0\n0 0 1\n3 1 0 2\n";

/// A part, a cell, vertices and weights.
type Label = (u8, Option<u32>, &'static [u32], &'static [u8]);

/// The rows of all cells, one cell after the other, and the labels.
struct Case {
    mesh: &'static [u8],
    family: Family,
    cell: Cell,
    degree: u8,
    rows: &'static [u32],
    labels: &'static [Label],
}

const CASES: [Case; 9] = [
    Case {
        mesh: SQUARE,
        family: Family::Lagrange,
        cell: Cell::Triangle,
        degree: 3,
        rows: &[
            0, 1, 2, 4, 5, 6, 7, 10, 11, 14, 2, 3, 0, 12, 13, 7, 6, 9, 8, 15,
        ],
        labels: &[
            (0, None, &[0], &[3]),
            (0, None, &[1], &[3]),
            (0, None, &[2], &[3]),
            (0, None, &[3], &[3]),
            (0, None, &[0, 1], &[1, 2]),
            (0, None, &[0, 1], &[2, 1]),
            (0, None, &[0, 2], &[1, 2]),
            (0, None, &[0, 2], &[2, 1]),
            (0, None, &[0, 3], &[1, 2]),
            (0, None, &[0, 3], &[2, 1]),
            (0, None, &[1, 2], &[1, 2]),
            (0, None, &[1, 2], &[2, 1]),
            (0, None, &[2, 3], &[1, 2]),
            (0, None, &[2, 3], &[2, 1]),
            (0, None, &[0, 1, 2], &[1, 1, 1]),
            (0, None, &[0, 2, 3], &[1, 1, 1]),
        ],
    },
    Case {
        mesh: SQUARE,
        family: Family::Lagrange,
        cell: Cell::Triangle,
        degree: 2,
        rows: &[0, 1, 2, 4, 5, 7, 2, 3, 0, 8, 5, 6],
        labels: &[
            (0, None, &[0], &[2]),
            (0, None, &[1], &[2]),
            (0, None, &[2], &[2]),
            (0, None, &[3], &[2]),
            (0, None, &[0, 1], &[1, 1]),
            (0, None, &[0, 2], &[1, 1]),
            (0, None, &[0, 3], &[1, 1]),
            (0, None, &[1, 2], &[1, 1]),
            (0, None, &[2, 3], &[1, 1]),
        ],
    },
    Case {
        mesh: LINE,
        family: Family::Dg,
        cell: Cell::Interval,
        degree: 1,
        rows: &[0, 1, 3, 2],
        labels: &[
            (0, Some(0), &[0], &[1]),
            (0, Some(0), &[1], &[1]),
            (0, Some(1), &[1], &[1]),
            (0, Some(1), &[2], &[1]),
        ],
    },
    Case {
        mesh: LINE,
        family: Family::Dg,
        cell: Cell::Interval,
        degree: 0,
        rows: &[0, 1],
        labels: &[(0, Some(0), &[], &[]), (0, Some(1), &[], &[])],
    },
    Case {
        mesh: LINE,
        family: Family::Real,
        cell: Cell::Interval,
        degree: 0,
        rows: &[0, 0],
        labels: &[(0, None, &[], &[])],
    },
    Case {
        mesh: NO_CELL,
        family: Family::Real,
        cell: Cell::Interval,
        degree: 0,
        rows: &[],
        labels: &[(0, None, &[], &[])],
    },
    Case {
        mesh: NO_CELL,
        family: Family::Lagrange,
        cell: Cell::Interval,
        degree: 1,
        rows: &[],
        labels: &[],
    },
    Case {
        mesh: UNUSED,
        family: Family::Lagrange,
        cell: Cell::Interval,
        degree: 1,
        rows: &[1, 0],
        labels: &[(0, None, &[1], &[1]), (0, None, &[3], &[1])],
    },
    Case {
        mesh: TETRAHEDRON,
        family: Family::Lagrange,
        cell: Cell::Tetrahedron,
        degree: 1,
        rows: &[3, 1, 0, 2],
        labels: &[
            (0, None, &[0], &[1]),
            (0, None, &[1], &[1]),
            (0, None, &[2], &[1]),
            (0, None, &[3], &[1]),
        ],
    },
];

/// The rows of all cells.
fn all_rows(alloc: Global, mesh: &Mesh, map: &DofMap) -> Result<Vec<u32>, Fail>
    requires { length map.now.cells ≡ length mesh.now.cells }
{
    let mut rows = Vec::new(alloc);
    for k in 0..mesh.cells() {
        rows.extend_from_slice(map.of_cell(k))?;
    }
    Ok(rows)
}

#[test]
fn numbers_scalar_elements(rt: HostRuntime) -> Result<(), Fail> {
    for case in &CASES {
        let mesh = read_mesh(rt.alloc(), case.mesh)?;
        let element = Element::scalar(case.family, case.cell, case.degree).ok_or("a degree")?;
        assert!(rt; mesh.kind() == element.cell());
        let map = number(rt.alloc(), &mesh, &element)?;
        assert_eq!(rt; all_rows(rt.alloc(), &mesh, &map)?.as_slice(), case.rows);
        assert_eq!(rt; map.count() as usize, case.labels.len());
        for (n, wanted) in case.labels.iter().enumerate() {
            assert!(rt; n < map.count() as usize);
            let label = map.label(n as u32);
            assert_eq!(rt; label.part, wanted.0);
            assert_eq!(rt; label.cell, wanted.1);
            assert_eq!(rt; label.vertices, wanted.2);
            assert_eq!(rt; label.weights, wanted.3);
        }
    }
    Ok(())
}

#[test]
fn numbers_part_after_part(rt: HostRuntime) -> Result<(), Fail> {
    let mesh = read_mesh(rt.alloc(), SQUARE)?;
    let square = Element::scalar(Family::Lagrange, Cell::Triangle, 2).ok_or("a degree")?;
    let linear = Element::scalar(Family::Lagrange, Cell::Triangle, 1).ok_or("a degree")?;
    let velocity = Element::vector(rt.alloc(), square, 2)?;
    let flow = Element::mixed(rt.alloc(), vec![in rt.alloc(); velocity, linear]?)?;
    assert!(rt; mesh.kind() == flow.cell());
    let map = number(rt.alloc(), &mesh, &flow)?;
    assert_eq!(rt; map.count(), 22);
    assert_eq!(rt;
        all_rows(rt.alloc(), &mesh, &map)?.as_slice(),
        [
            0, 1, 2, 4, 5, 7, 9, 10, 11, 13, 14, 16, 18, 19, 20, 2, 3, 0, 8, 5, 6, 11, 12, 9, 17,
            14, 15, 20, 21, 18
        ]
        .as_slice()
    );
    let parts = [(0, 0), (8, 0), (9, 1), (17, 1), (18, 2), (21, 2)];
    for (n, part) in &parts {
        assert!(rt; *n < map.count());
        assert_eq!(rt; map.label(*n).part, *part);
    }
    Ok(())
}

#[test]
fn lends_the_places_of_a_row(rt: HostRuntime) -> Result<(), Fail> {
    let mesh = read_mesh(rt.alloc(), LINE)?;
    let element = Element::scalar(Family::Lagrange, Cell::Interval, 1).ok_or("a degree")?;
    assert!(rt; mesh.kind() == element.cell());
    let map = number(rt.alloc(), &mesh, &element)?;
    let first = RowPlace { cell: 0, local: 1 };
    let second = RowPlace { cell: 1, local: 1 };
    assert_eq!(rt; map.cells_of(1), [first, second].as_slice());
    assert_eq!(rt; map.cells_of(0).len() + map.cells_of(2).len(), 2);
    assert!(rt; map.cells_of(3).is_empty());
    Ok(())
}
