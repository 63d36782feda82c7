// Points, volume factors and barycentric coordinates.

ghost use Rattle.std.specs.Prelude.{◌≡◌, [], ◌∷◌, IfOk};
ghost use Rattle.algebra.specs.Fraction.{add, mul, negative as minus_fraction};
ghost use Rattle.ratio.specs.Value.{fraction_of};
ghost use Rattle.calculus.specs.Simplex.{volume as volume_factor};
ghost use Rattle.reference.specs.PointValue.{point_of, simplex_of};

use crate::fault::Fault;
use crate::number;
use crate::point::Point;
use ratio::Ratio;

// a b - c e.
fn minor(a: Ratio, b: Ratio, c: Ratio, e: Ratio) -> Result<Ratio, Fault>
    ensures { IfOk result (λ r. fraction_of r ≡ add (mul (fraction_of a) (fraction_of b)) (minus_fraction (mul (fraction_of c) (fraction_of e)))) }
{
    let first = number::product(a, b)?;
    let second = number::product(c, e)?;
    number::difference(first, second)
}

#[tactic(auto, unfolding(calculus::specs::Simplex::volume))]
fn length(a: Point, b: Point) -> Result<Ratio, Fault>
    ensures { IfOk result (λ r. fraction_of r ≡ volume_factor (point_of a ∷ point_of b ∷ [])) }
{
    number::difference(b.x, a.x)
}

#[tactic(auto, unfolding(calculus::specs::Simplex::volume))]
fn area(a: Point, b: Point, c: Point) -> Result<Ratio, Fault>
    ensures { IfOk result (λ r. fraction_of r ≡ volume_factor (point_of a ∷ point_of b ∷ point_of c ∷ [])) }
{
    let bx = number::difference(b.x, a.x)?;
    let by = number::difference(b.y, a.y)?;
    let cx = number::difference(c.x, a.x)?;
    let cy = number::difference(c.y, a.y)?;
    minor(bx, cy, cx, by)
}

#[tactic(auto, unfolding(calculus::specs::Simplex::volume))]
fn space(a: Point, b: Point, c: Point, e: Point) -> Result<Ratio, Fault>
    ensures { IfOk result (λ r. fraction_of r ≡ volume_factor (point_of a ∷ point_of b ∷ point_of c ∷ point_of e ∷ [])) }
{
    let b = b.less(a)?;
    let c = c.less(a)?;
    let e = e.less(a)?;
    let first = minor(c.y, e.z, e.y, c.z)?;
    let second = minor(b.y, e.z, e.y, b.z)?;
    let third = minor(b.y, c.z, c.y, b.z)?;
    let two = minor(b.x, first, c.x, second)?;
    let last = number::product(e.x, third)?;
    number::sum(two, last)
}

/// The volume factor of an interval, a triangle or a tetrahedron.
pub fn volume(v: &[Point]) -> Result<Ratio, Fault>
    ensures { IfOk result (λ r. fraction_of r ≡ volume_factor (simplex_of v.now)) }
{
    match v {
        [a, b] => length(*a, *b),
        [a, b, c] => area(*a, *b, *c),
        [a, b, c, e] => space(*a, *b, *c, *e),
        _ => Err(Fault::Shape),
    }
}
