// Worked numbers, computed by the definitions.

use crate::{
    Axis, Fault, Point, Poly, cell_integral, integral_value, local_function, shadow_integral,
    volume,
};
use ratio::Ratio;
use std::alloc::Global;

fn ratio(n: i128, d: i128) -> Result<Ratio, Fault> {
    Ratio::new(n, d).ok_or(Fault::Range)
}

fn point(x: i128, y: i128, z: i128) -> Result<Point, Fault> {
    Ok(Point {
        x: ratio(x, 1)?,
        y: ratio(y, 1)?,
        z: ratio(z, 1)?,
    })
}

fn on_line(n: i128, d: i128) -> Result<Point, Fault> {
    Ok(Point {
        x: ratio(n, d)?,
        y: Ratio::zero(),
        z: Ratio::zero(),
    })
}

// The integral of the product of the linear functions of two nodes.
fn mass_share(alloc: Global, v: &[Point], first: &[u32], second: &[u32]) -> Result<Ratio, Fault> {
    let f = local_function(alloc, v, first)?;
    let g = local_function(alloc, v, second)?;
    let product = f.product(alloc, &g)?;
    integral_value(alloc, v, &product)
}

#[test]
fn shares_of_the_mass_form(rt: HostRuntime) -> Result<(), Fault> {
    let alloc = rt.alloc();
    for (start, end, same, other) in [
        ((0, 1), (2, 1), (2, 3), (1, 3)),
        ((2, 1), (0, 1), (2, 3), (1, 3)),
        ((1, 3), (-5, 7), (22, 63), (11, 63)),
    ] {
        let v = [on_line(start.0, start.1)?, on_line(end.0, end.1)?];
        let first = mass_share(alloc, &v, &[1, 0], &[1, 0])?;
        assert!(rt; first == ratio(same.0, same.1)?);
        let second = mass_share(alloc, &v, &[0, 1], &[0, 1])?;
        assert!(rt; second == ratio(same.0, same.1)?);
        let mixed = mass_share(alloc, &v, &[1, 0], &[0, 1])?;
        assert!(rt; mixed == ratio(other.0, other.1)?);
    }
    Ok(())
}

// The integral of x^a (1 - x)^b over the unit interval.
fn beta(alloc: Global, a: u32, b: u32) -> Result<Ratio, Fault> {
    let x = Poly::coordinate(alloc, Axis::X)?;
    let one = Poly::one(alloc)?;
    let rest = one.difference(alloc, &x)?;
    let left = x.power(alloc, a)?;
    let right = rest.power(alloc, b)?;
    let product = left.product(alloc, &right)?;
    let v = [on_line(0, 1)?, on_line(1, 1)?];
    integral_value(alloc, &v, &product)
}

#[test]
fn reference_integrals(rt: HostRuntime) -> Result<(), Fault> {
    for (a, b, want) in [
        (0, 0, 1),
        (1, 0, 2),
        (0, 3, 4),
        (1, 1, 6),
        (2, 1, 12),
        (2, 2, 30),
        (3, 2, 60),
    ] {
        let value = beta(rt.alloc(), a, b)?;
        assert!(rt; value == ratio(1, want)?);
    }
    Ok(())
}

#[test]
fn either_way_round_a_triangle(rt: HostRuntime) -> Result<(), Fault> {
    let alloc = rt.alloc();
    let (a, b, c) = (point(0, 0, 0)?, point(1, 0, 0)?, point(0, 1, 0)?);
    let x = Poly::coordinate(alloc, Axis::X)?;
    for (v, sign) in [([a, b, c], 1), ([a, c, b], -1)] {
        let size = volume(&v)?;
        assert!(rt; size == ratio(sign, 1)?);
        let shadow = shadow_integral(alloc, &v, &x)?;
        let signed = shadow.constant_term()?;
        assert!(rt; signed == ratio(sign, 6)?);
        let value = integral_value(alloc, &v, &x)?;
        assert!(rt; value == ratio(1, 6)?);
    }
    Ok(())
}

// Facets that stand upright have flat shadows.
#[test]
fn tetrahedra_with_upright_facets(rt: HostRuntime) -> Result<(), Fault> {
    let alloc = rt.alloc();
    let one = Poly::one(alloc)?;
    let x = Poly::coordinate(alloc, Axis::X)?;
    let first = [
        point(0, 0, 0)?,
        point(2, 0, 0)?,
        point(0, 3, 0)?,
        point(0, 0, 1)?,
    ];
    let second = [
        point(1, 1, 0)?,
        point(1, 1, 3)?,
        point(2, 1, 0)?,
        point(1, 3, 1)?,
    ];
    for (v, moment) in [(first, (1, 2)), (second, (5, 4))] {
        let size = integral_value(alloc, &v, &one)?;
        assert!(rt; size == Ratio::one());
        let value = integral_value(alloc, &v, &x)?;
        assert!(rt; value == ratio(moment.0, moment.1)?);
    }
    Ok(())
}

#[test]
fn quadratic_functions(rt: HostRuntime) -> Result<(), Fault> {
    let alloc = rt.alloc();
    let line = [on_line(0, 1)?, on_line(1, 1)?];
    let middle = local_function(alloc, &line, &[1, 1])?;
    let value = integral_value(alloc, &line, &middle)?;
    assert!(rt; value == ratio(2, 3)?);
    let end = local_function(alloc, &line, &[2, 0])?;
    let value = integral_value(alloc, &line, &end)?;
    assert!(rt; value == ratio(1, 6)?);
    let plane = [point(0, 0, 0)?, point(1, 0, 0)?, point(0, 1, 0)?];
    let edge = local_function(alloc, &plane, &[1, 1, 0])?;
    let value = integral_value(alloc, &plane, &edge)?;
    assert!(rt; value == ratio(1, 6)?);
    let corner = local_function(alloc, &plane, &[2, 0, 0])?;
    let value = integral_value(alloc, &plane, &corner)?;
    assert!(rt; value == Ratio::zero());
    Ok(())
}

#[test]
fn refusals(rt: HostRuntime) -> Result<(), Fault> {
    let alloc = rt.alloc();
    let one = Poly::one(alloc)?;
    let lone = [on_line(0, 1)?];
    assert!(rt; volume(&lone) == Err(Fault::Shape));
    let wide = [
        on_line(-170141183460469231731687303715884105727, 1)?,
        on_line(1, 1)?,
    ];
    assert!(rt; volume(&wide) == Err(Fault::Range));
    let flat = [on_line(1, 1)?, on_line(1, 1)?];
    let none = cell_integral(alloc, &flat, &one)?;
    let value = none.constant_term()?;
    assert!(rt; value.is_zero());
    Ok(())
}
