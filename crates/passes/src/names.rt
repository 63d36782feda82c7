//! The indices that stand for the names of a tree.

ghost use Rattle.std.specs.Prelude.{◌≡◌, ◌+◌, ◌++◌, ◌<◌, ◌^◌, length, IfOk, OnOk, if◌then◌else◌};
ghost use Rattle.lower.specs.Lowering.{with_indices};
ghost use Rattle.lower.specs.Renaming.{renamed, all_renamed};
ghost use Rattle.passes.specs.Names.{renaming_of, with_names_from, names_from};

use sqlite_items::Items;
use std::alloc::{AllocError, Global};
use ufl_expr::Elements;
use ufl_tree::{Free, Ix};

/// The index that stands for a name.
#[derive(Clone, Copy)]
pub struct Binding {
    pub name: u16,
    pub index: Ix,
}

/// The elements by their numbers, and the names that others stand for: of two bindings of a name the later one holds.
#[derive(Clone, Copy)]
pub struct Scope<'a> {
    pub elements: &'a Elements,
    pub names: &'a [Binding],
}

fn chosen(is: bool, this: Ix, other: Ix) -> Ix
    ensures { result ≡ (if is then this else other) }
{
    if is { this } else { other }
}

/// The index that stands for a name.
fn look(names: &[Binding], name: u16) -> Ix
    ensures { result ≡ renaming_of names.now name }
{
    let mut index = Ix::Named(name);
    for one in names {
        index = chosen(name == one.name, one.index, index);
    }
    index
}

/// The index that stands for an index.
pub fn renamed(names: &[Binding], at: Ix) -> Ix
    ensures { result ≡ renamed (renaming_of names.now) at }
{
    match at {
        Ix::Fixed(k) => Ix::Fixed(k),
        Ix::Named(name) => look(names, name),
    }
}

/// The indices that stand for these, with more behind them.
pub fn all_renamed(
    alloc: Global,
    names: &[Binding],
    at: &[Ix],
    more: &[Ix],
) -> Result<Items<Ix>, AllocError>
    ensures { IfOk result (λ r. r ≡ all_renamed (renaming_of names.now) at.now ++ more.now) }
{
    let mut all = Items::new(alloc);
    for i in at {
        all.push(renamed(names, *i))?;
    }
    for k in more {
        all.push(*k)?;
    }
    Ok(all)
}

/// The name of this number, if there is one: there are 65,536.
pub fn name(number: u32) -> Result<u16, AllocError>
    ensures is { IfOk result (λ k. k ≡ number) }
    ensures small { OnOk result (number < 2 ^ 16) }
{
    if number < 65536 {
        Ok(number as u16)
    } else {
        Err(AllocError)
    }
}

fn bind(all: &mut Items<Binding>, by: &[u16], at: &[Ix]) -> Result<(), AllocError>
    ensures { OnOk result (renaming_of all.new ≡ with_indices by.now at.now (renaming_of all.old)) }
{
    let Some((name, by)) = by.split_first() else {
        return Ok(());
    };
    let Some((index, at)) = at.split_first() else {
        return Ok(());
    };
    all.push(Binding {
        name: *name,
        index: *index,
    })?;
    bind(all, by, at)
}

/// The names with those of a binding, for which the indices of a component stand.
pub fn with_bound(
    alloc: Global,
    names: &[Binding],
    by: &[u16],
    at: &[Ix],
) -> Result<Items<Binding>, AllocError>
    ensures { IfOk result (λ r. renaming_of r ≡ with_indices by.now at.now (renaming_of names.now)) }
{
    let mut all = Items::from_slice(alloc, names)?;
    bind(&mut all, by, at)?;
    Ok(all)
}

fn bind_summed(all: &mut Items<Binding>, free: &[Free], next: u32) -> Result<(), AllocError>
    ensures { OnOk result (renaming_of all.new ≡ with_names_from free.now next (renaming_of all.old)) }
{
    let Some((first, free)) = free.split_first() else {
        return Ok(());
    };
    let index = Ix::Named(name(next)?);
    all.push(Binding {
        name: first.index,
        index,
    })?;
    bind_summed(all, free, next + 1)
}

/// The names with those of indices that are summed, for which the names from `next` on stand.
pub fn with_summed(
    alloc: Global,
    names: &[Binding],
    free: &[Free],
    next: u32,
) -> Result<Items<Binding>, AllocError>
    ensures { IfOk result (λ r. renaming_of r ≡ with_names_from free.now next (renaming_of names.now)) }
{
    let mut all = Items::from_slice(alloc, names)?;
    bind_summed(&mut all, free, next)?;
    Ok(all)
}

fn push_names(all: &mut Items<Ix>, sizes: &[u8], next: u32) -> Result<(), AllocError>
    ensures { OnOk result (all.new ≡ all.old ++ names_from sizes.now next) }
{
    let Some((_, sizes)) = sizes.split_first() else {
        return Ok(());
    };
    all.push(Ix::Named(name(next)?))?;
    push_names(all, sizes, next + 1)
}

/// The names from `next` on, one for each size.
pub fn names_from(alloc: Global, sizes: &[u8], next: u32) -> Result<Items<Ix>, AllocError>
    ensures { IfOk result (λ r. r ≡ names_from sizes.now next) }
{
    let mut all = Items::new(alloc);
    push_names(&mut all, sizes, next)?;
    Ok(all)
}

/// The number behind `count` names from `next` on, if all of these are names.
pub fn behind(next: u32, count: usize) -> Result<u32, AllocError>
    ensures { IfOk result (λ n. n ≡ next + count) }
{
    match u32::try_from(count) {
        Ok(count) => next.checked_add(count).ok_or(AllocError),
        Err(_) => Err(AllocError),
    }
}
