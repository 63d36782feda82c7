//! What the value of a tree depends on.

ghost use Rattle.std.specs.Prelude.{◌≡◌, IfOk, [], ◌∷◌, ◌++◌, if◌then◌else◌};
ghost use Rattle.ufl_tree.specs.Indices.{index_value, index_values, with_names};
ghost use Rattle.tree_values.specs.Scene.{names_of, assigned};

use crate::environment::{Change, Given};
use reference::Fault;
use spaces::Element;
use sqlite_items::Items;
use std::alloc::Global;
use ufl_tree::{Free, Ix};

/// The value of a name.
#[derive(Clone, Copy)]
pub struct Bound {
    pub index: u16,
    pub value: u8,
}

/// The elements by their numbers, the functions, the marker of the cell, what was changed of the functions, one change after the other, and the names.
#[derive(Clone, Copy)]
pub struct Scene<'a> {
    pub elements: &'a [Element],
    pub functions: &'a [Given],
    pub marker: u32,
    pub changes: &'a [Change],
    pub names: &'a [Bound],
}

fn chosen(is: bool, this: u8, other: u8) -> u8
    ensures { result ≡ (if is then this else other) }
{
    if is { this } else { other }
}

/// The value of a name; a name that isn't bound is 0.
pub fn look(names: &[Bound], index: u16) -> u8
    ensures { result ≡ names_of names.now index }
{
    let mut value = 0;
    for one in names {
        value = chosen(index == one.index, one.value, value);
    }
    value
}

/// The value of an index.
pub fn number(names: &[Bound], at: Ix) -> u8
    ensures { result ≡ index_value (names_of names.now) at }
{
    match at {
        Ix::Fixed(k) => k,
        Ix::Named(i) => look(names, i),
    }
}

/// The values of indices, with more numbers behind them.
pub fn numbers(alloc: Global, names: &[Bound], at: &[Ix], more: &[u8]) -> Result<Items<u8>, Fault>
    ensures { IfOk result (λ r. r ≡ index_values (names_of names.now) at.now ++ more.now) }
{
    let mut all = Items::new(alloc);
    for i in at {
        all.push(number(names, *i))?;
    }
    for k in more {
        all.push(*k)?;
    }
    Ok(all)
}

/// The names with one more.
pub fn with_bound(
    alloc: Global,
    names: &[Bound],
    index: u16,
    value: u8,
) -> Result<Items<Bound>, Fault>
    ensures { IfOk result (λ r. r ≡ names.now ++ record { index = index; value = value } ∷ []) }
{
    let mut all = Items::from_slice(alloc, names)?;
    all.push(Bound { index, value })?;
    Ok(all)
}

/// The names with those of a binding, which take the numbers of a component.
pub fn with_all_bound(
    alloc: Global,
    names: &[Bound],
    by: &[u16],
    at: &[u8],
) -> Result<Items<Bound>, Fault>
    ensures { IfOk result (λ r. names_of r ≡ with_names by.now at.now (names_of names.now)) }
{
    let Some((index, by)) = by.split_first() else {
        return Ok(Items::from_slice(alloc, names)?);
    };
    let Some((value, at)) = at.split_first() else {
        return Ok(Items::from_slice(alloc, names)?);
    };
    let more = with_bound(alloc, names, *index, *value)?;
    with_all_bound(alloc, more.as_slice(), by, at)
}

/// The names with each choice of values of some indices.
pub fn assignments(
    alloc: Global,
    summed: &[Free],
    names: &[Bound],
) -> Result<Items<Items<Bound>>, Fault>
    ensures { IfOk result (λ r. r ≡ assigned summed.now names.now) }
{
    let mut all = Items::new(alloc);
    let Some((first, rest)) = summed.split_first() else {
        all.push(Items::from_slice(alloc, names)?)?;
        return Ok(all);
    };
    for k in 0..first.dim {
        let more = with_bound(alloc, names, first.index, k)?;
        all.append(assignments(alloc, rest, more.as_slice())?)?;
    }
    Ok(all)
}
