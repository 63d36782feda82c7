//! The monomials of a tree, node by node.

ghost use Rattle.std.specs.Prelude.{◌≡◌, ◌==◌, [], map, if◌then◌else◌, IfOk, IfErr};
ghost use Rattle.algebra.specs.Fraction.{one_fraction};
ghost use Rattle.ufl_tree.specs.Indices.{index_value as value_of_index, index_values, with_name};
ghost use Rattle.ufl_tree.specs.declared.function.Ix.{Ix};
ghost use Rattle.ufl_tree.specs.Term.{over as over_term, neg, dx, pick};
ghost use Rattle.ufl_tree.specs.Places.{table_of, function_place as place_of_function};
ghost use Rattle.ufl_tree.specs.Reading.{term_of, terms_of};
ghost use Rattle.monos.specs.Monomial.{monomials_of};
ghost use Rattle.normal.specs.Monomials.{number_mono, function_mono};
ghost use Rattle.normal.specs.Gathering.{names_of, IsSumOf, IsSafe};
ghost use Rattle.normal.specs.declared.refusal.NormalRefusal.TheVariants.{Memory};

use crate::collect::{derivative_of_sum, product_of_sums};
use crate::lists::{joined, negated, number, single};
use crate::names::{Bound, index_value, with_bound};
use crate::places::function_place;
use crate::refusal::NormalRefusal;
use monos::{Atom, Mono};
use ratio::Ratio;
use std::alloc::{AllocError, Global};
use ufl_expr::Elements;
use ufl_tree::{Function, Ix, Plain};

/// One monomial for a component of a function, none where it has no such component.
fn function(
    alloc: Global,
    elements: &Elements,
    f: Function,
    bounds: &[Bound],
    at: &[Ix],
) -> Result<Vec<Mono>, AllocError>
    ensures { IfOk result (λ ms. monomials_of ms.items ≡ function_mono f (place_of_function (table_of elements.now) f
        (index_values (names_of bounds.now) at.now))) }
{
    let Some(component) = function_place(elements, f, bounds, at) else {
        return Ok(Vec::new(alloc));
    };
    let atom = Atom {
        f,
        component,
        dirs: [0; 3],
    };
    single(alloc, Ratio::one(), &[atom])
}

/// 1 where both numbers are equal, else 0.
fn unit(alloc: Global, i: u8, j: u8) -> Result<Vec<Mono>, AllocError>
    ensures { IfOk result (λ ms. monomials_of ms.items ≡ (if i == j then number_mono one_fraction else [])) }
{
    if i == j {
        single(alloc, Ratio::one(), &[])
    } else {
        Ok(Vec::new(alloc))
    }
}

/// The monomials of a tree where the indices have these values. Those of products and of derivatives are put
/// together at once.
#[cycle(walk)]
pub fn sum(
    alloc: Global,
    elements: &Elements,
    bounds: &[Bound],
    e: &Plain,
) -> Result<Vec<Mono>, NormalRefusal>
    ensures value { IfOk result (λ ms. IsSumOf (table_of elements.now) (term_of e.now) (names_of bounds.now)
        (monomials_of ms.items)) }
    ensures range { IfErr result (λ r. IsSafe (table_of elements.now) (term_of e.now) → r ≡ Memory) }
{
    match e {
        Plain::Num(c) => Ok(number(alloc, *c)?),
        Plain::Fun { f, at } => Ok(function(alloc, elements, *f, bounds, at.as_slice())?),
        Plain::Mark { body, .. } => sum(alloc, elements, bounds, body.get()),
        Plain::Neg(a) => opposite(alloc, elements, bounds, a.get()),
        Plain::Sum(a, b) => {
            let left = sum(alloc, elements, bounds, a.get())?;
            let right = sum(alloc, elements, bounds, b.get())?;
            Ok(joined(left, right)?)
        }
        Plain::Prod(a, b) => {
            let first = sum(alloc, elements, bounds, a.get())?;
            if first.is_empty() {
                return Ok(first);
            }
            let second = sum(alloc, elements, bounds, b.get())?;
            product_of_sums(alloc, first, second)
        }
        Plain::Over { index, dim, body } => over(alloc, elements, bounds, *index, *dim, body.get()),
        Plain::Dx { at, body } => derivative(alloc, elements, bounds, *at, body.get()),
        Plain::Delta(i, j) => Ok(unit(alloc, index_value(bounds, *i), index_value(bounds, *j))?),
        Plain::Pick { at, items } => item(
            alloc,
            elements,
            bounds,
            items.as_slice(),
            index_value(bounds, *at),
        ),
        Plain::Raise { .. } => Ok(Vec::new(alloc)),
        Plain::Turn { .. } => Ok(Vec::new(alloc)),
    }
}

/// The negative of a tree.
#[cycle(walk)]
fn opposite(
    alloc: Global,
    elements: &Elements,
    bounds: &[Bound],
    a: &Plain,
) -> Result<Vec<Mono>, NormalRefusal>
    ensures value { IfOk result (λ ms. IsSumOf (table_of elements.now) (neg (term_of a.now)) (names_of bounds.now)
        (monomials_of ms.items)) }
    ensures range { IfErr result (λ r. IsSafe (table_of elements.now) (neg (term_of a.now)) → r ≡ Memory) }
{
    let ms = sum(alloc, elements, bounds, a)?;
    Ok(negated(alloc, ms)?)
}

/// The derivative of a tree in a direction.
#[cycle(walk)]
fn derivative(
    alloc: Global,
    elements: &Elements,
    bounds: &[Bound],
    at: Ix,
    body: &Plain,
) -> Result<Vec<Mono>, NormalRefusal>
    ensures value { IfOk result (λ ms. IsSumOf (table_of elements.now) (dx at (term_of body.now))
        (names_of bounds.now) (monomials_of ms.items)) }
    ensures range { IfErr result (λ r. IsSafe (table_of elements.now) (dx at (term_of body.now)) → r ≡ Memory) }
{
    let ms = sum(alloc, elements, bounds, body)?;
    derivative_of_sum(alloc, ms, index_value(bounds, at))
}

/// A tree where one name more has a value.
#[cycle(walk)]
fn at_value(
    alloc: Global,
    elements: &Elements,
    bounds: &[Bound],
    index: u16,
    value: u8,
    body: &Plain,
) -> Result<Vec<Mono>, NormalRefusal>
    ensures value { IfOk result (λ ms. IsSumOf (table_of elements.now) (term_of body.now) (with_name index value
        (names_of bounds.now)) (monomials_of ms.items)) }
    ensures range { IfErr result (λ r. IsSafe (table_of elements.now) (term_of body.now) → r ≡ Memory) }
{
    let inner = with_bound(alloc, bounds, index, value)?;
    sum(alloc, elements, inner.as_slice(), body)
}

/// The sum over the values of a name.
#[cycle(walk)]
fn over(
    alloc: Global,
    elements: &Elements,
    bounds: &[Bound],
    index: u16,
    dim: u8,
    body: &Plain,
) -> Result<Vec<Mono>, NormalRefusal>
    ensures value { IfOk result (λ ms. IsSumOf (table_of elements.now) (over_term index dim (term_of body.now))
        (names_of bounds.now) (monomials_of ms.items)) }
    ensures range { IfErr result (λ r. IsSafe (table_of elements.now) (over_term index dim (term_of body.now)) → r
        ≡ Memory) }
{
    let mut all = Vec::new(alloc);
    for k in 0..dim {
        let ms = at_value(alloc, elements, bounds, index, k, body)?;
        all = joined(all, ms)?;
    }
    Ok(all)
}

/// The tree of this number, counted from 0; 0 where there are not so many.
#[cycle(walk)]
fn item(
    alloc: Global,
    elements: &Elements,
    bounds: &[Bound],
    items: &[Plain],
    which: u8,
) -> Result<Vec<Mono>, NormalRefusal>
    ensures value { IfOk result (λ ms. (i : Ix) → value_of_index (names_of bounds.now) i ≡ which → IsSumOf
        (table_of elements.now) (pick i (terms_of (map term_of items.now))) (names_of bounds.now)
        (monomials_of ms.items)) }
    ensures range { IfErr result (λ r. (i : Ix) → IsSafe (table_of elements.now) (pick i (terms_of
        (map term_of items.now))) → r ≡ Memory) }
{
    match items.get(which as usize) {
        Some(item) => sum(alloc, elements, bounds, item),
        None => Ok(Vec::new(alloc)),
    }
}
