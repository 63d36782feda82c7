//! The value of a tree in index notation, word for word as it is defined.

ghost use Rattle.std.specs.Prelude.{◌≡◌, IfOk};
ghost use Rattle.calculus.specs.Integral.{sum_below};
ghost use Rattle.tree_values.specs.PolyValue.{value_of};
ghost use Rattle.tree_values.specs.Meaning.{meaning_in, meaning_changed, meaning_with, picked_in};

use crate::environment::{Change, offset, used, with_change};
use crate::leaf::{function, unit};
use crate::poly::Poly;
use crate::scene::{Scene, number, numbers, with_bound};
use reference::Fault;
use sqlite_items::Items;
use std::alloc::Global;
use ufl_tree::Plain;

/// The value of a tree. `Range` where a number doesn't fit, a mixed element in a list has more than 255 scalar parts, or more than three
/// derivatives by variables or functions are nested.
#[cycle(meanings)]
pub fn meaning(alloc: Global, scene: &Scene, e: &Plain) -> Result<Poly, Fault>
    ensures { IfOk result (λ p. value_of p ≡ meaning_in scene.now e.now) }
{
    match e {
        Plain::Num(c) => Poly::constant(alloc, *c),
        Plain::Fun { f, at } => {
            let place = numbers(alloc, scene.names, at.as_slice(), &[])?;
            function(alloc, scene, *f, place.as_slice())
        }
        Plain::Mark { label, at, body } => {
            let place = numbers(alloc, scene.names, at.as_slice(), &[])?;
            let moved = offset(alloc, scene.changes, *label, place.as_slice())?;
            meaning(alloc, scene, body.get())?.sum(alloc, &moved)
        }
        Plain::Neg(a) => meaning(alloc, scene, a.get())?.negated(alloc),
        Plain::Sum(a, b) => {
            let right = meaning(alloc, scene, b.get())?;
            meaning(alloc, scene, a.get())?.sum(alloc, &right)
        }
        Plain::Prod(a, b) => {
            let right = meaning(alloc, scene, b.get())?;
            meaning(alloc, scene, a.get())?.product(alloc, &right)
        }
        Plain::Over { index, dim, body } => over(alloc, scene, *index, *dim, body.get()),
        Plain::Dx { at, body } => {
            let direction = number(scene.names, *at);
            meaning(alloc, scene, body.get())?.along(alloc, direction)
        }
        Plain::Delta(i, j) => unit(alloc, number(scene.names, *i), number(scene.names, *j)),
        Plain::Pick { at, items } => {
            let which = number(scene.names, *at);
            picked(alloc, scene, items.as_slice(), which)
        }
        Plain::Raise { label, at, body } => {
            let at = numbers(alloc, scene.names, at.as_slice(), &[])?;
            let change = Change::Raised { label: *label, at };
            changed(alloc, scene, body.get(), change)?.linear_part(alloc, used(scene.changes))
        }
        Plain::Turn { coef, dir, body } => {
            let change = Change::Turned {
                coef: coef.role,
                dir: dir.role,
            };
            changed(alloc, scene, body.get(), change)?.linear_part(alloc, used(scene.changes))
        }
    }
}

/// The value under one more change.
#[cycle(meanings)]
fn changed(alloc: Global, scene: &Scene, e: &Plain, change: Change) -> Result<Poly, Fault>
    ensures { IfOk result (λ p. value_of p ≡ meaning_changed scene.now e.now change) }
{
    let changes = with_change(alloc, scene.changes, change)?;
    let here = Scene {
        changes: changes.as_slice(),
        ..*scene
    };
    meaning(alloc, &here, e)
}

/// The value where a name has this number.
#[cycle(meanings)]
fn named(alloc: Global, scene: &Scene, e: &Plain, index: u16, k: u8) -> Result<Poly, Fault>
    ensures { IfOk result (λ p. value_of p ≡ meaning_with scene.now e.now index k) }
{
    let names = with_bound(alloc, scene.names, index, k)?;
    let here = Scene {
        names: names.as_slice(),
        ..*scene
    };
    meaning(alloc, &here, e)
}

#[cycle(meanings)]
fn over(alloc: Global, scene: &Scene, index: u16, dim: u8, body: &Plain) -> Result<Poly, Fault>
    ensures { IfOk result (λ p. value_of p ≡ sum_below dim (meaning_with scene.now body.now index)) }
{
    let mut total = Poly::zero(alloc);
    for k in 0..dim {
        total = total.sum(alloc, &named(alloc, scene, body, index, k)?)?;
    }
    Ok(total)
}

#[cycle(meanings)]
fn picked(alloc: Global, scene: &Scene, items: &[Plain], which: u8) -> Result<Poly, Fault>
    ensures { IfOk result (λ p. value_of p ≡ picked_in scene.now items.now which) }
{
    match items.get(which as usize) {
        Some(item) => meaning(alloc, scene, item),
        None => Ok(Poly::zero(alloc)),
    }
}
