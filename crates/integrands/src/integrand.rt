//! The integrand of an integral, in index notation.

ghost use Rattle.std.specs.Prelude.{◌≡◌, IfOk};
ghost use Rattle.ufl_tree.specs.Reading.{term_of};
ghost use Rattle.integrands.specs.Integrands.{integrand_of};
ghost use Rattle.integrands.specs.Keeping.{IsApplied};
ghost use Rattle.integrands.specs.declared.operator.Operator.TheVariants as v;

use crate::operator::{Operator, under};
use crate::sides::{left_side, right_side};
use crate::substitution::{Substitution, substituted};
use std::alloc::{AllocError, Global};
use ufl_tree::{Function, On, Plain, Role};

/// What is integrated over some cells: a scalar without free indices and, where an operator is applied to it,
/// without derivatives by variables and by functions.
#[derive(Drop)]
pub struct Integrand {
    pub on: On,
    pub body: Plain,
}

impl Integrand {
    /// The integrand under an operator on forms, over the same cells.
    pub fn under(self, alloc: Global, operator: Operator) -> Result<Integrand, AllocError>
        ensures { IfOk result (λ r. IsApplied operator (integrand_of self) (integrand_of r)) }
    {
        let Integrand { on, body } = self;
        let body = under(alloc, operator, body)?;
        Ok(Integrand { on, body })
    }

    /// The part that is linear in the trial function.
    pub fn left(&self, alloc: Global) -> Result<Integrand, AllocError>
        ensures { IfOk result (λ r. IsApplied v.Left (integrand_of self.now) (integrand_of r)) }
    {
        let body = left_side(alloc, &self.body)?;
        Ok(Integrand { on: self.on, body })
    }

    /// The negative of the part without the trial function.
    pub fn right(&self, alloc: Global) -> Result<Integrand, AllocError>
        ensures { IfOk result (λ r. IsApplied v.Right (integrand_of self.now) (integrand_of r)) }
    {
        let body = right_side(alloc, &self.body)?;
        Ok(Integrand { on: self.on, body })
    }

    /// The function f in place of the one of the role `last`, whose element it has.
    pub fn action(&self, alloc: Global, last: Role, f: Function) -> Result<Integrand, AllocError>
        ensures { IfOk result (λ r. IsApplied (v.Action last f.role) (integrand_of self.now) (integrand_of r)) }
    {
        let replaced = Substitution::Replaced { last, by: f.role };
        let body = substituted(alloc, replaced, &self.body)?;
        Ok(Integrand { on: self.on, body })
    }

    /// The test and the trial function exchanged.
    pub fn adjoint(&self, alloc: Global) -> Result<Integrand, AllocError>
        ensures { IfOk result (λ r. IsApplied v.Adjoint (integrand_of self.now) (integrand_of r)) }
    {
        let body = substituted(alloc, Substitution::Exchanged, &self.body)?;
        Ok(Integrand { on: self.on, body })
    }
}
