//! The left and the right side of an equation that is linear in the trial function.

ghost use Rattle.std.specs.Prelude.{◌≡◌, IfOk, map};
ghost use Rattle.ufl_tree.specs.Reading.{term_of};
ghost use Rattle.ufl_tree.specs.Term as t;
ghost use Rattle.integrands.specs.Sides.{without_trial, left_side, right_side};

use crate::substitution::{Substitution, substituted};
use derivatives::is_same_role;
use passes::nodes::{dx, function, neg, over, pick, prod, sum, zero};
use sqlite_items::Items;
use std::alloc::{AllocError, Global};
use ufl_tree::{Function, Ix, Plain, Role};

/// The part without the trial function.
fn without_trial(alloc: Global, e: &Plain) -> Result<Plain, AllocError>
    ensures { IfOk result (λ r. term_of r ≡ without_trial (term_of e.now)) }
{
    substituted(alloc, Substitution::Without(Role::Trial), e)
}

/// A component of the trial function; of another function 0.
fn trial(alloc: Global, f: Function, at: &[Ix]) -> Result<Plain, AllocError>
    ensures { IfOk result (λ r. term_of r ≡ left_side (t.fun f at.now)) }
{
    if is_same_role(f.role, Role::Trial) {
        function(alloc, f, at)
    } else {
        Ok(zero())
    }
}

/// The part of a product with one factor of the trial function, by those of its factors.
fn of_product(
    alloc: Global,
    a: &Plain,
    b: &Plain,
    left: Plain,
    right: Plain,
) -> Result<Plain, AllocError>
    ensures { IfOk result (λ r. term_of r
        ≡ t.sum (t.prod (term_of left) (without_trial (term_of b.now)))
        (t.prod (without_trial (term_of a.now)) (term_of right))) }
{
    let first = prod(alloc, left, without_trial(alloc, b)?)?;
    let second = prod(alloc, without_trial(alloc, a)?, right)?;
    sum(alloc, first, second)
}

/// The part with one factor of the trial function.
#[tactic(auto, using(ufl_tree::proofs::ReadingLaws::plain_readings))]
#[cycle(taking_sides)]
pub fn left_side(alloc: Global, e: &Plain) -> Result<Plain, AllocError>
    ensures { IfOk result (λ r. term_of r ≡ left_side (term_of e.now)) }
{
    match e {
        Plain::Num(_) => Ok(zero()),
        Plain::Fun { f, at } => trial(alloc, *f, at.as_slice()),
        Plain::Mark { body, .. } => left_side(alloc, body.get()),
        Plain::Neg(a) => {
            let inner = left_side(alloc, a.get())?;
            neg(alloc, inner)
        }
        Plain::Sum(a, b) => {
            let left = left_side(alloc, a.get())?;
            let right = left_side(alloc, b.get())?;
            sum(alloc, left, right)
        }
        Plain::Prod(a, b) => {
            let left = left_side(alloc, a.get())?;
            let right = left_side(alloc, b.get())?;
            of_product(alloc, a.get(), b.get(), left, right)
        }
        Plain::Over { index, dim, body } => {
            let inner = left_side(alloc, body.get())?;
            over(alloc, *index, *dim, inner)
        }
        Plain::Dx { at, body } => {
            let inner = left_side(alloc, body.get())?;
            dx(alloc, *at, inner)
        }
        Plain::Delta(_, _) => Ok(zero()),
        Plain::Pick { at, items } => {
            let all = left_sides(alloc, items.as_slice())?;
            Ok(pick(*at, all))
        }
        Plain::Raise { .. } => Ok(zero()),
        Plain::Turn { .. } => Ok(zero()),
    }
}

#[cycle(taking_sides)]
fn left_sides(alloc: Global, items: &[Plain]) -> Result<Items<Plain>, AllocError>
    ensures { IfOk result (λ ps. map term_of ps ≡ map (λ e. left_side (term_of e)) items.now) }
{
    let mut all = Items::new(alloc);
    for e in items {
        all.push(left_side(alloc, e)?)?;
    }
    Ok(all)
}

/// The negative of the part without the trial function.
pub fn right_side(alloc: Global, e: &Plain) -> Result<Plain, AllocError>
    ensures { IfOk result (λ r. term_of r ≡ right_side (term_of e.now)) }
{
    let rest = without_trial(alloc, e)?;
    neg(alloc, rest)
}
