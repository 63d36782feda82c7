//! Elements: what the constructors refuse, and where the parts stand.

use super::*;
use std::alloc::Global;
use std::test::Fail;

fn scalar(family: Family, cell: Cell, degree: u8) -> Result<Element, Fail> {
    Ok(Element::scalar(family, cell, degree).ok_or("it has this degree")?)
}

fn linear(cell: Cell) -> Result<Element, Fail> {
    scalar(Family::Lagrange, cell, 1)
}

fn vector(alloc: Global, dim: u8) -> Result<Element, Fail> {
    Ok(Element::vector(alloc, linear(Cell::Interval)?, dim)?)
}

fn refusal(answer: Result<Element, SpaceRefusal>) -> Option<SpaceRefusal> {
    answer.err()
}

#[test]
fn degrees_of_families(rt: HostRuntime) {
    for (family, degrees) in [
        (Family::Lagrange, [false, true, true, true, false]),
        (Family::Dg, [true, true, true, true, false]),
        (Family::Real, [true, false, false, false, false]),
    ] {
        for degree in 0..5u8 {
            for cell in [Cell::Interval, Cell::Triangle, Cell::Tetrahedron] {
                let made = Element::scalar(family, cell, degree).is_some();
                assert!(rt;
                    made == degrees[degree as usize],
                    "{family:?} {cell:?} {degree}"
                );
            }
        }
        assert!(rt; Element::scalar(family, Cell::Triangle, 255).is_none());
    }
}

// No part, and 65 of them; 256 parts do not count as none.
#[test]
fn sizes_of_vectors_and_tensors(rt: HostRuntime) -> Result<(), Fail> {
    let alloc = rt.alloc();
    for (dim, wanted) in [
        (0, Some(SpaceRefusal::Size)),
        (1, None),
        (64, None),
        (65, Some(SpaceRefusal::Size)),
        (255, Some(SpaceRefusal::Size)),
    ] {
        let answer = Element::vector(alloc, linear(Cell::Triangle)?, dim);
        assert!(rt; refusal(answer) == wanted, "{dim}");
        let nested = Element::vector(alloc, vector(alloc, 2)?, dim);
        assert!(rt;
            refusal(nested) == Some(SpaceRefusal::Kind),
            "{dim} vectors"
        );
    }
    for (rows, cols, wanted) in [
        (0, 3, Some(SpaceRefusal::Size)),
        (3, 0, Some(SpaceRefusal::Size)),
        (3, 3, None),
        (8, 8, None),
        (5, 13, Some(SpaceRefusal::Size)),
        (16, 16, Some(SpaceRefusal::Size)),
    ] {
        let answer = Element::tensor(alloc, linear(Cell::Tetrahedron)?, rows, cols);
        assert!(rt; refusal(answer) == wanted, "{rows} {cols}");
        let nested = Element::tensor(alloc, vector(alloc, 2)?, rows, cols);
        assert!(rt;
            refusal(nested) == Some(SpaceRefusal::Kind),
            "{rows} {cols} vectors"
        );
    }
    Ok(())
}

/// So many lists of one element around the scalar element.
fn nested(alloc: Global, levels: u8) -> Result<Result<Element, SpaceRefusal>, Fail> {
    let mut element = linear(Cell::Interval)?;
    for _ in 0..levels {
        element = match Element::mixed(alloc, vec![in alloc; element]?) {
            Ok(list) => list,
            Err(refusal) => return Ok(Err(refusal)),
        };
    }
    Ok(Ok(element))
}

#[test]
fn refusals_of_lists(rt: HostRuntime) -> Result<(), Fail> {
    let alloc = rt.alloc();
    let none = Element::mixed(alloc, Vec::new(alloc));
    assert!(rt; refusal(none) == Some(SpaceRefusal::Kind));
    for (cell, wanted) in [
        (Cell::Interval, None),
        (Cell::Triangle, Some(SpaceRefusal::Kind)),
    ] {
        let parts = vec![in alloc; linear(Cell::Interval)?, linear(cell)?]?;
        assert!(rt; refusal(Element::mixed(alloc, parts)) == wanted, "{cell:?}");
    }
    // The cells come before the size.
    for (second, wanted) in [(32, None), (33, Some(SpaceRefusal::Size))] {
        let parts = vec![in alloc; vector(alloc, 32)?, vector(alloc, second)?]?;
        assert!(rt; refusal(Element::mixed(alloc, parts)) == wanted, "{second}");
        let parts = vec![in alloc;
            vector(alloc, 32)?,
            vector(alloc, second)?,
            linear(Cell::Triangle)?,
        ]?;
        assert!(rt;
            refusal(Element::mixed(alloc, parts)) == Some(SpaceRefusal::Kind),
            "{second}"
        );
    }
    for (levels, wanted) in [(63, None), (64, Some(SpaceRefusal::Size))] {
        assert!(rt; refusal(nested(alloc, levels)?) == wanted, "{levels}");
    }
    Ok(())
}

// Two components of degree 2 and a pressure of degree 1: 6 + 6 + 3 local values.
#[test]
fn parts_of_taylor_hood(rt: HostRuntime) -> Result<(), Fail> {
    let alloc = rt.alloc();
    let velocity = Element::vector(alloc, scalar(Family::Lagrange, Cell::Triangle, 2)?, 2)?;
    let parts = vec![in alloc; velocity, linear(Cell::Triangle)?]?;
    let element = Element::mixed(alloc, parts)?.copy(alloc)?;
    assert_eq!(rt; element.cell(), Cell::Triangle);
    assert_eq!(rt; element.value_size(), 3);
    let parts = element.parts(alloc)?;
    assert_eq!(rt; parts.local, 15);
    for (component, wanted) in [
        (0, Some((2, 6, 0))),
        (1, Some((2, 6, 6))),
        (2, Some((1, 3, 12))),
        (3, None),
        (255, None),
    ] {
        let part = element.part_of(component);
        assert!(rt;
            part.map(|p| (p.degree, p.nodes, p.offset)) == wanted,
            "{component}"
        );
        assert!(rt;
            part == parts.items.as_slice().get(component as usize).copied(),
            "{component}"
        );
    }
    Ok(())
}

#[test]
fn parts_of_a_tensor_and_of_a_constant(rt: HostRuntime) -> Result<(), Fail> {
    let alloc = rt.alloc();
    let tensor = Element::tensor(alloc, scalar(Family::Dg, Cell::Tetrahedron, 3)?, 2, 3)?;
    let parts = tensor.parts(alloc)?;
    assert_eq!(rt; parts.local, 120);
    assert_eq!(rt; tensor.part_of(5).map(|p| p.offset), Some(100));
    let constant = scalar(Family::Real, Cell::Interval, 0)?.copy(alloc)?;
    let parts = constant.parts(alloc)?;
    assert_eq!(rt; parts.local, 1);
    assert_eq!(rt; constant.value_size(), 1);
    Ok(())
}

/// How many nodes the degrees 0 to 3 have.
const COUNTS: [(Cell, [usize; 4]); 3] = [
    (Cell::Interval, [1, 2, 3, 4]),
    (Cell::Triangle, [1, 3, 6, 10]),
    (Cell::Tetrahedron, [1, 4, 10, 20]),
];

#[test]
fn nodes_in_order(rt: HostRuntime) -> Result<(), Fail> {
    let lists: [(Cell, u8, &[[u8; 4]]); 4] = [
        (Cell::Tetrahedron, 0, &[[0, 0, 0, 0]]),
        (
            Cell::Interval,
            3,
            &[[3, 0, 0, 0], [0, 3, 0, 0], [1, 2, 0, 0], [2, 1, 0, 0]],
        ),
        (
            Cell::Triangle,
            3,
            &[
                [3, 0, 0, 0],
                [0, 3, 0, 0],
                [0, 0, 3, 0],
                [1, 2, 0, 0],
                [2, 1, 0, 0],
                [1, 0, 2, 0],
                [2, 0, 1, 0],
                [0, 1, 2, 0],
                [0, 2, 1, 0],
                [1, 1, 1, 0],
            ],
        ),
        (
            Cell::Tetrahedron,
            2,
            &[
                [2, 0, 0, 0],
                [0, 2, 0, 0],
                [0, 0, 2, 0],
                [0, 0, 0, 2],
                [1, 1, 0, 0],
                [1, 0, 1, 0],
                [1, 0, 0, 1],
                [0, 1, 1, 0],
                [0, 1, 0, 1],
                [0, 0, 1, 1],
            ],
        ),
    ];
    for (cell, degree, wanted) in &lists {
        assert!(rt; *degree <= 3);
        assert!(rt;
            nodes(rt.alloc(), *cell, *degree)?.as_slice() == *wanted,
            "{cell:?} {degree}"
        );
    }
    for (cell, counts) in COUNTS {
        for degree in 0..4u8 {
            let listed = nodes(rt.alloc(), cell, degree)?.len();
            assert!(rt; listed == counts[degree as usize], "{cell:?} {degree}");
        }
    }
    Ok(())
}
