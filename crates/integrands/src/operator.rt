//! Operators on the bodies of integrands.

ghost use Rattle.std.specs.Prelude.{◌≡◌, IfOk};
ghost use Rattle.ufl_tree.specs.Reading.{term_of};
ghost use Rattle.ufl_tree.specs.Term as t;
ghost use Rattle.integrands.specs.Flattening.{under};

use crate::sides::{left_side, right_side};
use crate::substitution::{Substitution, substituted};
use derivatives::{Derivation, derivative};
use passes::nodes::prod;
use ratio::Ratio;
use std::alloc::{AllocError, Global};
use ufl_tree::{Plain, Role};

/// An operator on forms, as it acts on each integrand. Functions are told apart by their roles alone, and one that
/// takes the place of another has that one's element.
#[derive(Clone, Copy)]
pub enum Operator {
    /// Times this number.
    Scale(Ratio),
    /// The part that is linear in the trial function.
    Left,
    /// The negative of the part without the trial function.
    Right,
    /// The function of the role `by` in place of that of the role `last`.
    Action { last: Role, by: Role },
    /// The test and the trial function exchanged.
    Adjoint,
    /// The derivative by the function of the role `coef` in the direction of that of the role `dir`.
    Derivative { coef: Role, dir: Role },
}

#[tactic(auto, using(ufl_tree::proofs::ReadingLaws::plain_readings))]
fn scaled(alloc: Global, c: Ratio, e: Plain) -> Result<Plain, AllocError>
    ensures { IfOk result (λ r. term_of r ≡ t.prod (t.num c) (term_of e)) }
{
    prod(alloc, Plain::Num(c), e)
}

/// What an operator makes of a body, which is moved or let go.
pub fn under(alloc: Global, operator: Operator, e: Plain) -> Result<Plain, AllocError>
    ensures { IfOk result (λ r. term_of r ≡ under operator (term_of e)) }
{
    match operator {
        Operator::Scale(c) => scaled(alloc, c, e),
        Operator::Left => left_side(alloc, &e),
        Operator::Right => right_side(alloc, &e),
        Operator::Action { last, by } => {
            substituted(alloc, Substitution::Replaced { last, by }, &e)
        }
        Operator::Adjoint => substituted(alloc, Substitution::Exchanged, &e),
        Operator::Derivative { coef, dir } => {
            derivative(alloc, &Derivation::Function { coef, dir }, &e)
        }
    }
}
