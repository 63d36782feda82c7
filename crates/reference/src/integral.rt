// Integrals over intervals, triangles and tetrahedra, facet by facet.

ghost use Rattle.std.specs.Prelude.{◌≡◌, [], ◌∷◌, IfOk};
ghost use Rattle.ratio.specs.Value.{fraction_of};
ghost use Rattle.calculus.specs.Polynomial.{times, constant};
ghost use Rattle.calculus.specs.Simplex.{dimension, barycentric as barycentric_of};
ghost use Rattle.calculus.specs.Integral.{height, over_shadow, shadow_integral as shadow_integral_of, cell_integral as cell_integral_of, integral_value as integral_value_of};
ghost use Rattle.reference.specs.PolyValue.{value_of};
ghost use Rattle.reference.specs.PointValue.{point_of, simplex_of};

use crate::coordinates::barycentric;
use crate::fault::Fault;
use crate::number;
use crate::point::Point;
use crate::poly::Poly;
use crate::simplex::volume;
use crate::term::Axis;
use ratio::Ratio;
use std::alloc::Global;

// c times barycentric coordinate j of a shadow.
fn share(alloc: Global, c: Ratio, shadow: &[Point], j: usize) -> Result<Poly, Fault>
    ensures { IfOk result (λ r. value_of r ≡ times (constant (fraction_of c)) (barycentric_of (simplex_of shadow.now) j)) }
{
    let coordinate = barycentric(alloc, shadow, j)?;
    let c = Poly::constant(alloc, c)?;
    c.product(alloc, &coordinate)
}

// y along a facet of a triangle, over its shadow on the line.
fn line_height(alloc: Global, u: Point, w: Point) -> Result<Poly, Fault>
    ensures { IfOk result (λ r. value_of r ≡ height 1 (point_of u ∷ point_of w ∷ [])) }
{
    let shadow = [u.on_line(), w.on_line()];
    let first = share(alloc, u.y, &shadow, 0)?;
    let second = share(alloc, w.y, &shadow, 1)?;
    let height = first.sum(alloc, &second)?;
    Ok(height)
}

// z along a facet of a tetrahedron, over its shadow in the plane.
fn plane_height(alloc: Global, u: Point, v: Point, w: Point) -> Result<Poly, Fault>
    ensures { IfOk result (λ r. value_of r ≡ height 2 (point_of u ∷ point_of v ∷ point_of w ∷ [])) }
{
    let shadow = [u, v, w];
    let first = share(alloc, u.z, &shadow, 0)?;
    let second = share(alloc, v.z, &shadow, 1)?;
    let third = share(alloc, w.z, &shadow, 2)?;
    let two = second.sum(alloc, &third)?;
    let height = first.sum(alloc, &two)?;
    Ok(height)
}

fn interval(alloc: Global, u: Point, w: Point, p: &Poly) -> Result<Poly, Fault>
    ensures { IfOk result (λ r. value_of r ≡ shadow_integral_of 1 (point_of u ∷ point_of w ∷ []) (value_of p.now)) }
{
    let inner = p.antiderivative(alloc, Axis::X)?;
    let end = Poly::constant(alloc, w.x)?;
    let upper = inner.replaced(alloc, Axis::X, &end)?;
    let start = Poly::constant(alloc, u.x)?;
    let lower = inner.replaced(alloc, Axis::X, &start)?;
    let integral = upper.difference(alloc, &lower)?;
    Ok(integral)
}

// A facet of a triangle.
fn over_line(alloc: Global, u: Point, w: Point, q: &Poly) -> Result<Poly, Fault>
    ensures { IfOk result (λ r. value_of r ≡ over_shadow (λ v p. shadow_integral_of 1 v p) 1 1 (point_of u ∷ point_of w ∷ []) (value_of q.now)) }
{
    let start = u.on_line();
    let end = w.on_line();
    let size = volume(&[start, end])?;
    if size.is_zero() {
        return Ok(Poly::zero(alloc));
    }
    let height = line_height(alloc, u, w)?;
    let moved = q.replaced(alloc, Axis::Y, &height)?;
    let integral = interval(alloc, start, end, &moved)?;
    Ok(integral)
}

fn triangle(alloc: Global, a: Point, b: Point, c: Point, p: &Poly) -> Result<Poly, Fault>
    ensures { IfOk result (λ r. value_of r ≡ shadow_integral_of 2 (point_of a ∷ point_of b ∷ point_of c ∷ []) (value_of p.now)) }
{
    let inner = p.antiderivative(alloc, Axis::Y)?;
    let first = over_line(alloc, b, c, &inner)?;
    let second = over_line(alloc, a, c, &inner)?;
    let third = over_line(alloc, a, b, &inner)?;
    let two = second.difference(alloc, &first)?;
    let integral = two.difference(alloc, &third)?;
    Ok(integral)
}

// A facet of a tetrahedron.
fn over_plane(alloc: Global, u: Point, v: Point, w: Point, q: &Poly) -> Result<Poly, Fault>
    ensures { IfOk result (λ r. value_of r ≡ over_shadow (λ v p. shadow_integral_of 2 v p) 2 2 (point_of u ∷ point_of v ∷ point_of w ∷ []) (value_of q.now)) }
{
    let size = volume(&[u, v, w])?;
    if size.is_zero() {
        return Ok(Poly::zero(alloc));
    }
    let height = plane_height(alloc, u, v, w)?;
    let moved = q.replaced(alloc, Axis::Z, &height)?;
    let integral = triangle(alloc, u, v, w, &moved)?;
    Ok(integral)
}

fn tetrahedron(
    alloc: Global,
    a: Point,
    b: Point,
    c: Point,
    e: Point,
    p: &Poly,
) -> Result<Poly, Fault>
    ensures { IfOk result (λ r. value_of r ≡ shadow_integral_of 3 (point_of a ∷ point_of b ∷ point_of c ∷ point_of e ∷ []) (value_of p.now)) }
{
    let inner = p.antiderivative(alloc, Axis::Z)?;
    let first = over_plane(alloc, b, c, e, &inner)?;
    let second = over_plane(alloc, a, c, e, &inner)?;
    let third = over_plane(alloc, a, b, e, &inner)?;
    let fourth = over_plane(alloc, a, b, c, &inner)?;
    let two = first.difference(alloc, &second)?;
    let three = two.sum(alloc, &third)?;
    let integral = three.difference(alloc, &fourth)?;
    Ok(integral)
}

/// The shadow integral over an interval, a triangle or a tetrahedron.
pub fn shadow_integral(alloc: Global, v: &[Point], p: &Poly) -> Result<Poly, Fault>
    ensures { IfOk result (λ r. value_of r ≡ shadow_integral_of (dimension (simplex_of v.now)) (simplex_of v.now) (value_of p.now)) }
{
    match v {
        [u, w] => interval(alloc, *u, *w, p),
        [a, b, c] => triangle(alloc, *a, *b, *c, p),
        [a, b, c, e] => tetrahedron(alloc, *a, *b, *c, *e, p),
        _ => Err(Fault::Shape),
    }
}

/// The cell integral, which does not depend on the order of the vertices.
pub fn cell_integral(alloc: Global, v: &[Point], p: &Poly) -> Result<Poly, Fault>
    ensures { IfOk result (λ r. value_of r ≡ cell_integral_of (simplex_of v.now) (value_of p.now)) }
{
    let size = volume(v)?;
    let integral = shadow_integral(alloc, v, p)?;
    if number::is_negative(size) {
        let turned = integral.negated(alloc)?;
        Ok(turned)
    } else {
        Ok(integral)
    }
}

/// The cell integral as a number.
pub fn integral_value(alloc: Global, v: &[Point], p: &Poly) -> Result<Ratio, Fault>
    ensures { IfOk result (λ r. fraction_of r ≡ integral_value_of (simplex_of v.now) (value_of p.now)) }
{
    let integral = cell_integral(alloc, v, p)?;
    integral.constant_term()
}
