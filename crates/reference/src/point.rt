// Points of space, and points whose coordinates are polynomials.

ghost use Rattle.std.specs.Prelude.{◌≡◌, IfOk};
ghost use Rattle.algebra.specs.Fraction.{add, negative as minus_fraction};
ghost use Rattle.ratio.specs.Value.{fraction_of};

use crate::fault::Fault;
use crate::number;
use crate::poly::Poly;
use crate::term::Axis;
use ratio::Ratio;
use std::alloc::Global;

/// A point of space; in the plane and on the line, the coordinates that are not used are not read.
#[derive(Clone, Copy)]
pub struct Point {
    pub x: Ratio,
    pub y: Ratio,
    pub z: Ratio,
}

/// A point whose coordinates are polynomials.
#[derive(Drop)]
pub struct MovingPoint {
    pub x: Poly,
    pub y: Poly,
    pub z: Poly,
}

impl Point {
    ghost use Rattle.calculus.specs.Integral.{shadow_point};
    ghost use Rattle.reference.specs.PointValue.{point_of};

    /// Its shadow on the line, without y.
    pub fn on_line(self) -> Point
        ensures { point_of result ≡ shadow_point 1 (point_of self) }
    {
        Point {
            x: self.x,
            y: self.z,
            z: self.z,
        }
    }

    /// The difference of each coordinate.
    pub fn less(self, a: Point) -> Result<Point, Fault>
        ensures x { IfOk result (λ r. fraction_of r.x ≡ add (fraction_of self.x) (minus_fraction (fraction_of a.x))) }
        ensures y { IfOk result (λ r. fraction_of r.y ≡ add (fraction_of self.y) (minus_fraction (fraction_of a.y))) }
        ensures z { IfOk result (λ r. fraction_of r.z ≡ add (fraction_of self.z) (minus_fraction (fraction_of a.z))) }
    {
        Ok(Point {
            x: number::difference(self.x, a.x)?,
            y: number::difference(self.y, a.y)?,
            z: number::difference(self.z, a.z)?,
        })
    }
}

impl MovingPoint {
    ghost use Rattle.reference.specs.PolyValue.{value_of};
    ghost use Rattle.calculus.specs.Polynomial.{plus, negative};
    ghost use Rattle.calculus.specs.Simplex.{moving_point, constant_point};
    ghost use Rattle.reference.specs.PointValue.{point_of, moving_of};

    /// The point (x, y, z).
    pub fn moving(alloc: Global) -> Result<MovingPoint, Fault>
        ensures { IfOk result (λ r. moving_of r ≡ moving_point) }
    {
        Ok(MovingPoint {
            x: Poly::coordinate(alloc, Axis::X)?,
            y: Poly::coordinate(alloc, Axis::Y)?,
            z: Poly::coordinate(alloc, Axis::Z)?,
        })
    }

    /// A point that does not move.
    pub fn fixed(alloc: Global, p: Point) -> Result<MovingPoint, Fault>
        ensures { IfOk result (λ r. moving_of r ≡ constant_point (point_of p)) }
    {
        Ok(MovingPoint {
            x: Poly::constant(alloc, p.x)?,
            y: Poly::constant(alloc, p.y)?,
            z: Poly::constant(alloc, p.z)?,
        })
    }

    /// The difference of each coordinate.
    pub fn less(&self, alloc: Global, a: &MovingPoint) -> Result<MovingPoint, Fault>
        ensures x { IfOk result (λ r. value_of r.x ≡ plus (value_of self.now.x) (negative (value_of a.now.x))) }
        ensures y { IfOk result (λ r. value_of r.y ≡ plus (value_of self.now.y) (negative (value_of a.now.y))) }
        ensures z { IfOk result (λ r. value_of r.z ≡ plus (value_of self.now.z) (negative (value_of a.now.z))) }
    {
        Ok(MovingPoint {
            x: self.x.difference(alloc, &a.x)?,
            y: self.y.difference(alloc, &a.y)?,
            z: self.z.difference(alloc, &a.z)?,
        })
    }
}
