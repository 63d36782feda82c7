// Barycentric coordinates as polynomials.

ghost use Rattle.std.specs.Prelude.{◌≡◌, ℕ, Bool, nat_eq, [], ◌∷◌, IfOk};
ghost use Rattle.calculus.specs.Polynomial.{plus, times, negative, polynomials};
ghost use Rattle.calculus.specs.Simplex.{volume_in, moving_point, with_vertex, barycentric as barycentric_of};
ghost use Rattle.reference.specs.PolyValue.{value_of};
ghost use Rattle.reference.specs.PointValue.{point_of, simplex_of, moving_of, vertex_or_moving};

use crate::fault::Fault;
use crate::number;
use crate::point::{MovingPoint, Point};
use crate::poly::Poly;
use crate::simplex::volume;
use std::alloc::Global;

// a b - c e.
fn minor(alloc: Global, a: &Poly, b: &Poly, c: &Poly, e: &Poly) -> Result<Poly, Fault>
    ensures { IfOk result (λ r. value_of r ≡ plus (times (value_of a.now) (value_of b.now)) (negative (times (value_of c.now) (value_of e.now)))) }
{
    let first = a.product(alloc, b)?;
    let second = c.product(alloc, e)?;
    first.difference(alloc, &second)
}

fn length(alloc: Global, a: &MovingPoint, b: &MovingPoint) -> Result<Poly, Fault>
    ensures { IfOk result (λ r. value_of r ≡ volume_in polynomials (moving_of a.now ∷ moving_of b.now ∷ [])) }
{
    b.x.difference(alloc, &a.x)
}

fn area(alloc: Global, a: &MovingPoint, b: &MovingPoint, c: &MovingPoint) -> Result<Poly, Fault>
    ensures { IfOk result (λ r. value_of r ≡ volume_in polynomials (moving_of a.now ∷ moving_of b.now ∷ moving_of c.now ∷ [])) }
{
    let b = b.less(alloc, a)?;
    let c = c.less(alloc, a)?;
    minor(alloc, &b.x, &c.y, &c.x, &b.y)
}

fn space(
    alloc: Global,
    a: &MovingPoint,
    b: &MovingPoint,
    c: &MovingPoint,
    e: &MovingPoint,
) -> Result<Poly, Fault>
    ensures { IfOk result (λ r. value_of r ≡ volume_in polynomials (moving_of a.now ∷ moving_of b.now ∷ moving_of c.now ∷ moving_of e.now ∷ [])) }
{
    let b = b.less(alloc, a)?;
    let c = c.less(alloc, a)?;
    let e = e.less(alloc, a)?;
    let first = minor(alloc, &c.y, &e.z, &e.y, &c.z)?;
    let second = minor(alloc, &b.y, &e.z, &e.y, &b.z)?;
    let third = minor(alloc, &b.y, &c.z, &c.y, &b.z)?;
    let two = minor(alloc, &b.x, &first, &c.x, &second)?;
    let last = e.x.product(alloc, &third)?;
    two.sum(alloc, &last)
}

// Vertex v as it stands, or the moving point in its place.
fn vertex(alloc: Global, v: Point, moves: bool) -> Result<MovingPoint, Fault>
    ensures { IfOk result (λ r. moving_of r ≡ vertex_or_moving moves v) }
{
    if moves {
        MovingPoint::moving(alloc)
    } else {
        MovingPoint::fixed(alloc, v)
    }
}

// The length of an interval with the moving point in place of vertex j.
fn moved_length(alloc: Global, a: Point, b: Point, j: usize) -> Result<Poly, Fault>
    ensures { IfOk result (λ r. value_of r ≡ volume_in polynomials (with_vertex moving_point j (point_of a ∷ point_of b ∷ []))) }
{
    let a = vertex(alloc, a, j == 0)?;
    let b = vertex(alloc, b, j == 1)?;
    length(alloc, &a, &b)
}

fn moved_area(alloc: Global, a: Point, b: Point, c: Point, j: usize) -> Result<Poly, Fault>
    ensures { IfOk result (λ r. value_of r ≡ volume_in polynomials (with_vertex moving_point j (point_of a ∷ point_of b ∷ point_of c ∷ []))) }
{
    let a = vertex(alloc, a, j == 0)?;
    let b = vertex(alloc, b, j == 1)?;
    let c = vertex(alloc, c, j == 2)?;
    area(alloc, &a, &b, &c)
}

fn moved_space(
    alloc: Global,
    a: Point,
    b: Point,
    c: Point,
    e: Point,
    j: usize,
) -> Result<Poly, Fault>
    ensures { IfOk result (λ r. value_of r ≡ volume_in polynomials (with_vertex moving_point j (point_of a ∷ point_of b ∷ point_of c ∷ point_of e ∷ []))) }
{
    let a = vertex(alloc, a, j == 0)?;
    let b = vertex(alloc, b, j == 1)?;
    let c = vertex(alloc, c, j == 2)?;
    let e = vertex(alloc, e, j == 3)?;
    space(alloc, &a, &b, &c, &e)
}

// The volume factor with the moving point in place of vertex j.
fn moved_volume(alloc: Global, v: &[Point], j: usize) -> Result<Poly, Fault>
    ensures { IfOk result (λ r. value_of r ≡ volume_in polynomials (with_vertex moving_point j (simplex_of v.now))) }
{
    match v {
        [a, b] => moved_length(alloc, *a, *b, j),
        [a, b, c] => moved_area(alloc, *a, *b, *c, j),
        [a, b, c, e] => moved_space(alloc, *a, *b, *c, *e, j),
        _ => Err(Fault::Shape),
    }
}

/// Barycentric coordinate j of a cell that is not flat.
#[tactic(auto, unfolding(calculus::specs::Simplex::barycentric))]
pub fn barycentric(alloc: Global, v: &[Point], j: usize) -> Result<Poly, Fault>
    ensures { IfOk result (λ r. value_of r ≡ barycentric_of (simplex_of v.now) j) }
{
    let scale = number::reciprocal(volume(v)?)?;
    let scale = Poly::constant(alloc, scale)?;
    let top = moved_volume(alloc, v, j)?;
    scale.product(alloc, &top)
}
