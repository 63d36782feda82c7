//! Functions in place of others, in trees without derivatives by variables and by functions.

ghost use Rattle.std.specs.Prelude.{◌≡◌, IfOk, map, if◌then◌else◌};
ghost use Rattle.ufl_meaning.specs.Environment.{same_role, other_argument as other_of};
ghost use Rattle.ufl_tree.specs.Reading.{term_of};
ghost use Rattle.ufl_tree.specs.Term as t;
ghost use Rattle.lower.specs.Renaming.{zero_term};
ghost use Rattle.integrands.specs.Substitution.{in_role, put, substituted};

use derivatives::{is_same_role, of_role};
use passes::nodes::{delta, dx, function, mark, neg, over, pick, prod, sum, zero};
use sqlite_items::Items;
use std::alloc::{AllocError, Global};
use ufl_tree::{Function, Ix, Plain, Role};

/// Which functions stand for others.
#[derive(Clone, Copy)]
pub enum Substitution {
    /// 0 for the function of this role.
    Without(Role),
    /// The function of the role `by` for that of the role `last`.
    Replaced { last: Role, by: Role },
    /// The test function for the trial function, and the trial function for the test function.
    Exchanged,
}

fn other_argument(role: Role) -> Role
    ensures { result ≡ other_of role }
{
    match role {
        Role::Test => Role::Trial,
        Role::Trial => Role::Test,
        Role::Position => Role::Position,
        Role::Coefficient(n) => Role::Coefficient(n),
    }
}

/// A component of a function where it hasn't this role, else 0.
fn without(alloc: Global, is: bool, f: Function, at: &[Ix]) -> Result<Plain, AllocError>
    ensures { IfOk result (λ r. term_of r ≡ (if is then zero_term else t.fun f at.now)) }
{
    if is {
        Ok(zero())
    } else {
        function(alloc, f, at)
    }
}

/// A component of the function of the role `by` where it is to stand for f.
fn replaced(alloc: Global, is: bool, by: Role, f: Function, at: &[Ix]) -> Result<Plain, AllocError>
    ensures { IfOk result (λ r. term_of r ≡ (if is then in_role by f at.now else t.fun f at.now)) }
{
    if is {
        of_role(alloc, by, f, at)
    } else {
        function(alloc, f, at)
    }
}

/// What stands for a component of a function.
fn put(alloc: Global, by: Substitution, f: Function, at: &[Ix]) -> Result<Plain, AllocError>
    ensures { IfOk result (λ r. term_of r ≡ put by f at.now) }
{
    match by {
        Substitution::Without(w) => without(alloc, is_same_role(f.role, w), f, at),
        Substitution::Replaced { last, by } => {
            replaced(alloc, is_same_role(f.role, last), by, f, at)
        }
        Substitution::Exchanged => of_role(alloc, other_argument(f.role), f, at),
    }
}

/// The tree with functions in place of others.
#[tactic(auto, using(ufl_tree::proofs::ReadingLaws::plain_readings))]
#[cycle(substituting)]
pub fn substituted(alloc: Global, by: Substitution, e: &Plain) -> Result<Plain, AllocError>
    ensures { IfOk result (λ r. term_of r ≡ substituted by (term_of e.now)) }
{
    match e {
        Plain::Num(c) => Ok(Plain::Num(*c)),
        Plain::Fun { f, at } => put(alloc, by, *f, at.as_slice()),
        Plain::Mark { label, at, body } => {
            let inner = substituted(alloc, by, body.get())?;
            mark(alloc, *label, at.as_slice(), inner)
        }
        Plain::Neg(a) => {
            let inner = substituted(alloc, by, a.get())?;
            neg(alloc, inner)
        }
        Plain::Sum(a, b) => {
            let left = substituted(alloc, by, a.get())?;
            let right = substituted(alloc, by, b.get())?;
            sum(alloc, left, right)
        }
        Plain::Prod(a, b) => {
            let left = substituted(alloc, by, a.get())?;
            let right = substituted(alloc, by, b.get())?;
            prod(alloc, left, right)
        }
        Plain::Over { index, dim, body } => {
            let inner = substituted(alloc, by, body.get())?;
            over(alloc, *index, *dim, inner)
        }
        Plain::Dx { at, body } => {
            let inner = substituted(alloc, by, body.get())?;
            dx(alloc, *at, inner)
        }
        Plain::Delta(i, j) => Ok(delta(*i, *j)),
        Plain::Pick { at, items } => {
            let all = all_substituted(alloc, by, items.as_slice())?;
            Ok(pick(*at, all))
        }
        Plain::Raise { .. } => Ok(zero()),
        Plain::Turn { .. } => Ok(zero()),
    }
}

#[cycle(substituting)]
fn all_substituted(
    alloc: Global,
    by: Substitution,
    items: &[Plain],
) -> Result<Items<Plain>, AllocError>
    ensures { IfOk result (λ ps. map term_of ps ≡ map (λ e. substituted by (term_of e)) items.now) }
{
    let mut all = Items::new(alloc);
    for e in items {
        all.push(substituted(alloc, by, e)?)?;
    }
    Ok(all)
}
