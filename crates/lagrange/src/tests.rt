//! Basis functions with their values and integrals.

ghost use Rattle.std.specs.Prelude.{◌<◌, ◌≤◌};
ghost use Rattle.spaces.specs.Family.{node_count as nodes_of_cell};

use super::*;
use polyalg::{Poly, ref_integral};
use ratio::Ratio;
use spaces::{Cell, node_count, weights};
use std::alloc::Global;
use std::test::Fail;

/// The number times (weight/degree)^exponent.
fn scaled(start: Ratio, weight: u8, degree: u8, exponent: u32) -> Option<Ratio> {
    let coordinate = Ratio::new(weight as i128, degree as i128)?;
    let mut product = start;
    for _ in 0..exponent {
        product = product.mul(coordinate)?;
    }
    Some(product)
}

/// The value at the node of these weights.
fn value_at(p: &Poly, weights: [u8; 4], degree: u8) -> Option<Ratio> {
    let [_, x, y, z] = weights;
    let mut sum = Ratio::zero();
    for term in p.terms() {
        let [a, b, c] = term.e;
        let first = scaled(term.c, x, degree, a)?;
        let second = scaled(first, y, degree, b)?;
        let value = scaled(second, z, degree, c)?;
        sum = sum.add(value)?;
    }
    Some(sum)
}

/// Whether the function of each node is 1 there and 0 at the other nodes of its degree.
fn is_nodal(alloc: Global, cell: Cell, degree: u8) -> Result<bool, Fail>
    requires { degree ≤ 3 }
{
    let places = weights(cell, degree);
    for node in 0..node_count(cell, degree) {
        let function = basis(alloc, cell, degree, node)?;
        for (i, place) in places.iter().enumerate() {
            let wanted = if i == node as usize {
                Ratio::one()
            } else {
                Ratio::zero()
            };
            if value_at(&function, *place, degree) != Some(wanted) {
                return Ok(false);
            }
        }
    }
    Ok(true)
}

#[test]
fn one_at_its_node_and_zero_at_the_others(rt: HostRuntime) -> Result<(), Fail> {
    for cell in [Cell::Interval, Cell::Triangle, Cell::Tetrahedron] {
        for degree in 1..4u8 {
            assert!(rt; is_nodal(rt.alloc(), cell, degree)?, "{cell:?} {degree}");
        }
        let constant = basis(rt.alloc(), cell, 0, 0)?;
        assert_eq!(rt; constant.terms().len(), 1);
        assert!(rt; constant.terms()[0].c == Ratio::one() && constant.terms()[0].e == [0, 0, 0]);
    }
    Ok(())
}

/// The integral over the reference cell of the product of two basis functions, given by degree and node.
fn integral(
    alloc: Global,
    cell: Cell,
    first: (u8, u8),
    second: (u8, u8),
) -> Result<Option<Ratio>, Fail>
    requires first_degree { first.0 ≤ 3 }
    requires first_node { first.1 < nodes_of_cell cell first.0 }
    requires second_degree { second.0 ≤ 3 }
    requires second_node { second.1 < nodes_of_cell cell second.0 }
{
    let (degree, node) = first;
    let left = basis(alloc, cell, degree, node)?;
    let (degree, node) = second;
    let right = basis(alloc, cell, degree, node)?;
    let product = left.mul(alloc, &right)?;
    Ok(ref_integral(&product, cell.dim()))
}

// The mass matrices of degree 2 on the unit interval and of degree 1, and the integrals of single functions of degree 3.
#[test]
fn integrals_of_products(rt: HostRuntime) -> Result<(), Fail> {
    for (cell, first, second, n, d) in [
        (Cell::Interval, (2, 0), (2, 0), 2, 15),
        (Cell::Interval, (2, 0), (2, 1), -1, 30),
        (Cell::Interval, (2, 0), (2, 2), 1, 15),
        (Cell::Interval, (2, 1), (2, 1), 2, 15),
        (Cell::Interval, (2, 1), (2, 2), 1, 15),
        (Cell::Interval, (2, 2), (2, 2), 8, 15),
        (Cell::Interval, (3, 1), (0, 0), 1, 8),
        (Cell::Interval, (3, 2), (0, 0), 3, 8),
        (Cell::Triangle, (1, 2), (1, 2), 1, 12),
        (Cell::Triangle, (1, 0), (1, 2), 1, 24),
        (Cell::Triangle, (3, 0), (0, 0), 1, 60),
        (Cell::Triangle, (3, 5), (0, 0), 3, 80),
        (Cell::Triangle, (3, 9), (0, 0), 9, 40),
        (Cell::Tetrahedron, (1, 3), (1, 3), 1, 60),
        (Cell::Tetrahedron, (1, 0), (1, 3), 1, 120),
        (Cell::Tetrahedron, (3, 3), (0, 0), 1, 240),
        (Cell::Tetrahedron, (3, 11), (0, 0), 0, 1),
        (Cell::Tetrahedron, (3, 19), (0, 0), 3, 80),
    ] {
        assert!(rt; first.0 <= 3 && second.0 <= 3);
        assert!(rt; first.1 < node_count(cell, first.0) && second.1 < node_count(cell, second.0));
        let value = integral(rt.alloc(), cell, first, second)?;
        assert!(rt; value == Ratio::new(n, d), "{cell:?} {first:?} {second:?}");
    }
    Ok(())
}
