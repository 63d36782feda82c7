// A term of a polynomial: a fraction times powers of the coordinates.

ghost use Rattle.std.specs.Prelude.{◌≡◌, ◌+◌, ℕ, suc, IfOk, IsTrue, ◌↔◌};
ghost use Rattle.algebra.specs.Ring.{natural};
ghost use Rattle.algebra.specs.Fraction.{fractions, mul, inverse};
ghost use Rattle.ratio.specs.Value.{fraction_of};

use crate::fault::Fault;
use crate::number;
use ratio::Ratio;

/// A coordinate of space.
#[derive(Clone, Copy, Debug, PartialEq, Eq)]
pub enum Axis {
    X,
    Y,
    Z,
}

/// The fraction `coefficient` times x, y and z to these powers.
#[derive(Clone, Copy)]
pub struct Term {
    pub coefficient: Ratio,
    pub x: u32,
    pub y: u32,
    pub z: u32,
}

// The coefficient and the power of the antiderivative of one power.
fn integrated(coefficient: Ratio, power: u32) -> Result<(Ratio, u32), Fault>
    ensures coefficient { IfOk result (λ r. fraction_of r.0 ≡ mul (fraction_of coefficient) (inverse (natural fractions (suc power)))) }
    ensures power { IfOk result (λ r. r.1 ≡ suc power) }
{
    let next = number::power_sum(1, power)?;
    let divisor = number::reciprocal(number::whole(next)?)?;
    Ok((number::product(coefficient, divisor)?, next))
}

impl Term {
    ghost use Rattle.calculus.specs.Polynomial.{Polynomial, constant, coordinate, times, negative, antiderivative, replaced, power as raised_to};
    ghost use Rattle.reference.specs.TermValue.{term_of, number_of};

    pub fn constant(coefficient: Ratio) -> Term
        ensures { term_of result ≡ constant (fraction_of coefficient) }
    {
        Term {
            coefficient,
            x: 0,
            y: 0,
            z: 0,
        }
    }

    pub fn coordinate(axis: Axis) -> Term
        ensures { term_of result ≡ coordinate (number_of axis) }
    {
        let coefficient = Ratio::one();
        match axis {
            Axis::X => Term {
                coefficient,
                x: 1,
                y: 0,
                z: 0,
            },
            Axis::Y => Term {
                coefficient,
                x: 0,
                y: 1,
                z: 0,
            },
            Axis::Z => Term {
                coefficient,
                x: 0,
                y: 0,
                z: 1,
            },
        }
    }

    /// Whether it has no coordinate.
    pub fn is_constant(self) -> bool
        ensures { IsTrue result ↔ ((self.x ≡ 0) × (self.y ≡ 0) × (self.z ≡ 0)) }
    {
        self.x == 0 && self.y == 0 && self.z == 0
    }

    pub fn negated(self) -> Term
        ensures { term_of result ≡ negative (term_of self) }
    {
        Term {
            coefficient: self.coefficient.neg(),
            x: self.x,
            y: self.y,
            z: self.z,
        }
    }

    pub fn product(self, t: Term) -> Result<Term, Fault>
        ensures { IfOk result (λ r. term_of r ≡ times (term_of self) (term_of t)) }
    {
        Ok(Term {
            coefficient: number::product(self.coefficient, t.coefficient)?,
            x: number::power_sum(self.x, t.x)?,
            y: number::power_sum(self.y, t.y)?,
            z: number::power_sum(self.z, t.z)?,
        })
    }

    /// The power of a coordinate, and the term without it.
    pub fn split(self, axis: Axis) -> (u32, Term)
        ensures factors { term_of self ≡ times (term_of result.1) (raised_to (coordinate (number_of axis)) result.0) }
        ensures without { (q : Polynomial) → replaced (number_of axis) q (term_of result.1) ≡ term_of result.1 }
    {
        let Term {
            coefficient,
            x,
            y,
            z,
        } = self;
        match axis {
            Axis::X => (
                x,
                Term {
                    coefficient,
                    x: 0,
                    y,
                    z,
                },
            ),
            Axis::Y => (
                y,
                Term {
                    coefficient,
                    x,
                    y: 0,
                    z,
                },
            ),
            Axis::Z => (
                z,
                Term {
                    coefficient,
                    x,
                    y,
                    z: 0,
                },
            ),
        }
    }

    pub fn antiderivative(self, axis: Axis) -> Result<Term, Fault>
        ensures { IfOk result (λ r. term_of r ≡ antiderivative (number_of axis) (term_of self)) }
    {
        let Term {
            coefficient,
            x,
            y,
            z,
        } = self;
        match axis {
            Axis::X => {
                let (coefficient, x) = integrated(coefficient, x)?;
                Ok(Term {
                    coefficient,
                    x,
                    y,
                    z,
                })
            }
            Axis::Y => {
                let (coefficient, y) = integrated(coefficient, y)?;
                Ok(Term {
                    coefficient,
                    x,
                    y,
                    z,
                })
            }
            Axis::Z => {
                let (coefficient, z) = integrated(coefficient, z)?;
                Ok(Term {
                    coefficient,
                    x,
                    y,
                    z,
                })
            }
        }
    }
}
