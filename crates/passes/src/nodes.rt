//! Nodes of index notation.

ghost use Rattle.std.specs.Prelude.{◌≡◌, ℕ, IfOk, [], ◌∷◌, map, if◌then◌else◌};
ghost use Rattle.ufl_tree.specs.Reading.{term_of, terms_of};
ghost use Rattle.ufl_tree.specs.Term as t;
ghost use Rattle.lower.specs.Lowering.{nothing, minus_term, power_term};
ghost use Rattle.lower.specs.Renaming.{zero_term, unit_term};
ghost use Rattle.passes.specs.Names.{sums_around};
ghost use Rattle.passes.specs.Spots.{kept};

use crate::names::name;
use sqlite_items::{Boxed, Items};
use std::alloc::{AllocError, Global};
use ufl_tree::{Free, Function, Ix, Plain};

/// The first component.
pub const ZERO: Ix = Ix::Fixed(0);

/// 0.
#[tactic(auto, using(ufl_tree::proofs::ReadingLaws::plain_readings))]
pub fn zero() -> Plain
    ensures { term_of result ≡ zero_term }
{
    Plain::Delta(Ix::Fixed(0), Ix::Fixed(1))
}

/// 1.
#[tactic(auto, using(ufl_tree::proofs::ReadingLaws::plain_readings))]
pub fn unit() -> Plain
    ensures { term_of result ≡ unit_term }
{
    Plain::Delta(Ix::Fixed(0), Ix::Fixed(0))
}

/// A component of a function.
#[tactic(auto, using(ufl_tree::proofs::ReadingLaws::plain_readings))]
pub fn function(alloc: Global, f: Function, at: &[Ix]) -> Result<Plain, AllocError>
    ensures { IfOk result (λ r. term_of r ≡ t.fun f at.now) }
{
    Ok(Plain::Fun {
        f,
        at: Items::from_slice(alloc, at)?,
    })
}

/// A component of a variable.
#[tactic(auto, using(ufl_tree::proofs::ReadingLaws::plain_readings))]
pub fn mark(alloc: Global, label: u32, at: &[Ix], body: Plain) -> Result<Plain, AllocError>
    ensures { IfOk result (λ r. term_of r ≡ t.mark label at.now (term_of body)) }
{
    Ok(Plain::Mark {
        label,
        at: Items::from_slice(alloc, at)?,
        body: Boxed::new(alloc, body)?,
    })
}

/// The derivative by a component of a variable.
#[tactic(auto, using(ufl_tree::proofs::ReadingLaws::plain_readings))]
pub fn raise(alloc: Global, label: u32, at: &[Ix], body: Plain) -> Result<Plain, AllocError>
    ensures { IfOk result (λ r. term_of r ≡ t.raise label at.now (term_of body)) }
{
    Ok(Plain::Raise {
        label,
        at: Items::from_slice(alloc, at)?,
        body: Boxed::new(alloc, body)?,
    })
}

#[tactic(auto, using(ufl_tree::proofs::ReadingLaws::plain_readings))]
pub fn neg(alloc: Global, a: Plain) -> Result<Plain, AllocError>
    ensures { IfOk result (λ r. term_of r ≡ t.neg (term_of a)) }
{
    Ok(Plain::Neg(Boxed::new(alloc, a)?))
}

#[tactic(auto, using(ufl_tree::proofs::ReadingLaws::plain_readings))]
pub fn sum(alloc: Global, a: Plain, b: Plain) -> Result<Plain, AllocError>
    ensures { IfOk result (λ r. term_of r ≡ t.sum (term_of a) (term_of b)) }
{
    Ok(Plain::Sum(Boxed::new(alloc, a)?, Boxed::new(alloc, b)?))
}

/// The difference of two trees.
pub fn minus(alloc: Global, a: Plain, b: Plain) -> Result<Plain, AllocError>
    ensures { IfOk result (λ r. term_of r ≡ minus_term (term_of a) (term_of b)) }
{
    let less = neg(alloc, b)?;
    sum(alloc, a, less)
}

#[tactic(auto, using(ufl_tree::proofs::ReadingLaws::plain_readings))]
pub fn prod(alloc: Global, a: Plain, b: Plain) -> Result<Plain, AllocError>
    ensures { IfOk result (λ r. term_of r ≡ t.prod (term_of a) (term_of b)) }
{
    Ok(Plain::Prod(Boxed::new(alloc, a)?, Boxed::new(alloc, b)?))
}

/// The derivative in a direction.
#[tactic(auto, using(ufl_tree::proofs::ReadingLaws::plain_readings))]
pub fn dx(alloc: Global, at: Ix, body: Plain) -> Result<Plain, AllocError>
    ensures { IfOk result (λ r. term_of r ≡ t.dx at (term_of body)) }
{
    Ok(Plain::Dx {
        at,
        body: Boxed::new(alloc, body)?,
    })
}

/// The sum over the values of a name.
#[tactic(auto, using(ufl_tree::proofs::ReadingLaws::plain_readings))]
pub fn over(alloc: Global, index: u16, dim: u8, body: Plain) -> Result<Plain, AllocError>
    ensures { IfOk result (λ r. term_of r ≡ t.over index dim (term_of body)) }
{
    Ok(Plain::Over {
        index,
        dim,
        body: Boxed::new(alloc, body)?,
    })
}

/// 0, with the weight of the tree.
pub fn nothing(alloc: Global, next: u32, e: Plain) -> Result<Plain, AllocError>
    ensures { IfOk result (λ r. term_of r ≡ nothing (term_of e) next) }
{
    let index = name(next)?;
    over(alloc, index, 0, e)
}

/// The tree, or 0 with its weight.
pub fn kept(alloc: Global, next: u32, is: bool, e: Plain) -> Result<Plain, AllocError>
    ensures { IfOk result (λ r. term_of r ≡ kept is next (term_of e)) }
{
    if is { Ok(e) } else { nothing(alloc, next, e) }
}

/// The sums over the values of the names from `next` on, one for each size.
pub fn sums_around(alloc: Global, sizes: &[u8], next: u32, body: Plain) -> Result<Plain, AllocError>
    ensures { IfOk result (λ r. term_of r ≡ sums_around sizes.now next (term_of body)) }
{
    let Some((first, rest)) = sizes.split_first() else {
        return Ok(body);
    };
    let index = name(next)?;
    let inner = sums_around(alloc, rest, next + 1, body)?;
    over(alloc, index, *first, inner)
}

/// The sizes of indices.
pub fn sizes_of(alloc: Global, free: &[Free]) -> Result<Items<u8>, AllocError>
    ensures { IfOk result (λ r. r ≡ map (λ x. x.dim) free.now) }
{
    let mut all = Items::new(alloc);
    for one in free {
        all.push(one.dim)?;
    }
    Ok(all)
}

/// The item of this number.
#[tactic(auto, using(ufl_tree::proofs::ReadingLaws::plain_readings))]
pub fn pick(at: Ix, items: Items<Plain>) -> Plain
    ensures { term_of result ≡ t.pick at (terms_of (map term_of items)) }
{
    Plain::Pick { at, items }
}

/// The item of this number, of two.
#[tactic(auto, using(ufl_tree::proofs::ReadingLaws::plain_readings))]
pub fn of_two(alloc: Global, at: Ix, x: Plain, y: Plain) -> Result<Plain, AllocError>
    ensures { IfOk result (λ r. term_of r ≡ t.pick at (t.term (term_of x) (t.term (term_of y) t.no_terms))) }
{
    let mut items = Items::new(alloc);
    items.push(x)?;
    items.push(y)?;
    Ok(Plain::Pick { at, items })
}

/// The item of this number, of three.
#[tactic(auto, using(ufl_tree::proofs::ReadingLaws::plain_readings))]
pub fn of_three(alloc: Global, at: Ix, x: Plain, y: Plain, z: Plain) -> Result<Plain, AllocError>
    ensures { IfOk result (λ r. term_of r
        ≡ t.pick at (t.term (term_of x) (t.term (term_of y) (t.term (term_of z) t.no_terms)))) }
{
    let mut items = Items::new(alloc);
    items.push(x)?;
    items.push(y)?;
    items.push(z)?;
    Ok(Plain::Pick { at, items })
}

/// A power.
pub fn power(alloc: Global, base: &Plain, n: u8) -> Result<Plain, AllocError>
    ensures { IfOk result (λ r. term_of r ≡ power_term (term_of base.now) n) }
{
    if n == 0 {
        return Ok(unit());
    }
    let mut all = base.copy(alloc)?;
    for k in 1..n {
        all = prod(alloc, all, base.copy(alloc)?)?;
    }
    Ok(all)
}

/// A component of the identity matrix; any other component is 0.
#[tactic(auto, using(ufl_tree::proofs::ReadingLaws::plain_readings))]
pub fn delta(row: Ix, col: Ix) -> Plain
    ensures { term_of result ≡ t.delta row col }
{
    Plain::Delta(row, col)
}
