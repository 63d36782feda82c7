//! Terms of polynomials in the coordinates of space and up to three parameters.

ghost use Rattle.std.specs.Prelude.{◌≡◌, ◌-◌, IfOk, IfSome, get_or};
ghost use Rattle.ratio.specs.Value.{fraction_of};
ghost use Rattle.calculus.specs.Polynomial.{constant, coordinate, times, negative, coefficient_of};
ghost use Rattle.ufl_meaning.specs.Environment.{parameter, parameter_number};
ghost use Rattle.ufl_meaning.specs.Operators.{along};
ghost use Rattle.tree_values.specs.TermValue.{term_of, powers_of, part_value};

use ratio::Ratio;
use reference::{Fault, number};

/// The fraction `coefficient` times x, y, z and the parameters 0, 1 and 2 to these powers.
#[derive(Clone, Copy)]
pub struct Term {
    pub coefficient: Ratio,
    pub x: u32,
    pub y: u32,
    pub z: u32,
    pub first: u32,
    pub second: u32,
    pub third: u32,
}

fn lower(power: u32) -> u32
    ensures { result ≡ power - 1 }
{
    if power == 0 { 0 } else { power - 1 }
}

impl Term {
    pub fn constant(coefficient: Ratio) -> Term
        ensures { term_of result ≡ constant (fraction_of coefficient) }
    {
        Term {
            coefficient,
            x: 0,
            y: 0,
            z: 0,
            first: 0,
            second: 0,
            third: 0,
        }
    }

    /// The coordinate in a direction of space; there are three.
    pub fn coordinate(direction: u8) -> Option<Term>
        ensures { IfSome result (λ t. term_of t ≡ coordinate direction) }
    {
        let coefficient = Ratio::one();
        match direction {
            0 => Some(Term {
                coefficient,
                x: 1,
                y: 0,
                z: 0,
                first: 0,
                second: 0,
                third: 0,
            }),
            1 => Some(Term {
                coefficient,
                x: 0,
                y: 1,
                z: 0,
                first: 0,
                second: 0,
                third: 0,
            }),
            2 => Some(Term {
                coefficient,
                x: 0,
                y: 0,
                z: 1,
                first: 0,
                second: 0,
                third: 0,
            }),
            _ => None,
        }
    }

    /// The parameter of this number, if it is one of the three.
    pub fn parameter(k: usize) -> Option<Term>
        ensures { IfSome result (λ t. term_of t ≡ parameter k) }
    {
        let coefficient = Ratio::one();
        match k {
            0 => Some(Term {
                coefficient,
                x: 0,
                y: 0,
                z: 0,
                first: 1,
                second: 0,
                third: 0,
            }),
            1 => Some(Term {
                coefficient,
                x: 0,
                y: 0,
                z: 0,
                first: 0,
                second: 1,
                third: 0,
            }),
            2 => Some(Term {
                coefficient,
                x: 0,
                y: 0,
                z: 0,
                first: 0,
                second: 0,
                third: 1,
            }),
            _ => None,
        }
    }

    pub fn negated(self) -> Term
        ensures { term_of result ≡ negative (term_of self) }
    {
        Term {
            coefficient: self.coefficient.neg(),
            ..self
        }
    }

    pub fn product(self, t: Term) -> Result<Term, Fault>
        ensures { IfOk result (λ r. term_of r ≡ times (term_of self) (term_of t)) }
    {
        Ok(Term {
            coefficient: number::product(self.coefficient, t.coefficient)?,
            x: number::power_sum(self.x, t.x)?,
            y: number::power_sum(self.y, t.y)?,
            z: number::power_sum(self.z, t.z)?,
            first: number::power_sum(self.first, t.first)?,
            second: number::power_sum(self.second, t.second)?,
            third: number::power_sum(self.third, t.third)?,
        })
    }

    /// The derivative in a direction of space.
    pub fn along(self, direction: u8) -> Result<Term, Fault>
        ensures { IfOk result (λ r. term_of r ≡ along direction (term_of self)) }
    {
        if direction == 0 {
            Ok(Term {
                coefficient: number::product(number::whole(self.x)?, self.coefficient)?,
                x: lower(self.x),
                ..self
            })
        } else if direction == 1 {
            Ok(Term {
                coefficient: number::product(number::whole(self.y)?, self.coefficient)?,
                y: lower(self.y),
                ..self
            })
        } else if direction == 2 {
            Ok(Term {
                coefficient: number::product(number::whole(self.z)?, self.coefficient)?,
                z: lower(self.z),
                ..self
            })
        } else {
            Ok(Term::constant(Ratio::zero()))
        }
    }

    /// The term without this parameter, where its power is 1; else nothing.
    pub fn linear_part(self, k: usize) -> Option<Term>
        ensures { part_value result ≡ coefficient_of (parameter_number k) 1 (term_of self) }
    {
        if k == 0 {
            self.first_part()
        } else if k == 1 {
            self.second_part()
        } else if k == 2 {
            self.third_part()
        } else {
            None
        }
    }

    /// The power of a parameter.
    fn power(self, k: usize) -> u32
        ensures { result ≡ get_or (powers_of self) (parameter_number k) 0 }
    {
        if k == 0 {
            self.first
        } else if k == 1 {
            self.second
        } else if k == 2 {
            self.third
        } else {
            0
        }
    }

    /// The term itself, where the power of this parameter is 0; else nothing.
    pub fn constant_part(self, k: usize) -> Option<Term>
        ensures { part_value result ≡ coefficient_of (parameter_number k) 0 (term_of self) }
    {
        if self.power(k) == 0 { Some(self) } else { None }
    }

    fn first_part(self) -> Option<Term>
        ensures { part_value result ≡ coefficient_of 3 1 (term_of self) }
    {
        if self.first == 1 {
            Some(Term { first: 0, ..self })
        } else {
            None
        }
    }

    fn second_part(self) -> Option<Term>
        ensures { part_value result ≡ coefficient_of 4 1 (term_of self) }
    {
        if self.second == 1 {
            Some(Term { second: 0, ..self })
        } else {
            None
        }
    }

    fn third_part(self) -> Option<Term>
        ensures { part_value result ≡ coefficient_of 5 1 (term_of self) }
    {
        if self.third == 1 {
            Some(Term { third: 0, ..self })
        } else {
            None
        }
    }
}
