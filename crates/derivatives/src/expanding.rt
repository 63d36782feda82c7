//! All derivatives by variables and by functions of a tree, carried out.

ghost use Rattle.std.specs.Prelude.{◌≡◌, IfOk, map};
ghost use Rattle.ufl_tree.specs.declared.function.Ix.TheVariants.{Named};
ghost use Rattle.ufl_tree.specs.Reading.{term_of};
ghost use Rattle.ufl_tree.specs.Term as t;
ghost use Rattle.lower.specs.Renaming.{all_renamed, with_index};
ghost use Rattle.passes.specs.Names.{renaming_of};
ghost use Rattle.perturb.specs.Expanding.{by_variable, linear, expand};
ghost use Rattle.derivatives.specs.Expanded.{IsExpansion};

use crate::above::names_above;
use crate::derivation::{Derivation, derivative};
use passes::above::all_above;
use passes::names::{Binding, all_renamed, name, renamed, with_bound};
use passes::nodes::{delta, dx, neg, over, pick, prod, sum};
use sqlite_items::{Boxed, Items};
use std::alloc::{AllocError, Global};
use ufl_tree::{Function, Ix, Plain, Role};

/// A component of a function, under other names.
fn function(alloc: Global, names: &[Binding], f: Function, at: &[Ix]) -> Result<Plain, AllocError>
    ensures { IfOk result (λ r. term_of r ≡ t.fun f (all_renamed (renaming_of names.now) at.now)) }
{
    let at = all_renamed(alloc, names, at, &[])?;
    Ok(Plain::Fun { f, at })
}

/// A component of a variable, under other names.
fn mark(
    alloc: Global,
    names: &[Binding],
    label: u32,
    at: &[Ix],
    body: Plain,
) -> Result<Plain, AllocError>
    ensures { IfOk result (λ r. term_of r
        ≡ t.mark label (all_renamed (renaming_of names.now) at.now) (term_of body)) }
{
    let at = all_renamed(alloc, names, at, &[])?;
    let body = Boxed::new(alloc, body)?;
    Ok(Plain::Mark { label, at, body })
}

/// The derivative by a component of a variable, under other names.
fn raised(
    alloc: Global,
    names: &[Binding],
    label: u32,
    at: &[Ix],
    body: Plain,
) -> Result<Plain, AllocError>
    ensures { IfOk result (λ r. term_of r
        ≡ by_variable label (all_renamed (renaming_of names.now) at.now) (term_of body)) }
{
    let at = all_renamed(alloc, names, at, &[])?;
    derivative(alloc, &Derivation::Variable { label, at }, &body)
}

/// The derivative by a function in the direction of another.
fn turned(alloc: Global, coef: Role, dir: Role, body: Plain) -> Result<Plain, AllocError>
    ensures { IfOk result (λ r. term_of r ≡ linear coef dir (term_of body)) }
{
    derivative(alloc, &Derivation::Function { coef, dir }, &body)
}

/// The tree under other names, with its derivatives carried out; its sums take the names from `next` on.
#[cycle(expanding)]
fn expanded(alloc: Global, names: &[Binding], e: &Plain, next: u32) -> Result<Plain, AllocError>
    ensures { IfOk result (λ r. term_of r ≡ expand (term_of e.now) (renaming_of names.now) next) }
{
    match e {
        Plain::Num(c) => Ok(Plain::Num(*c)),
        Plain::Fun { f, at } => function(alloc, names, *f, at.as_slice()),
        Plain::Mark { label, at, body } => {
            let inner = expanded(alloc, names, body.get(), next)?;
            mark(alloc, names, *label, at.as_slice(), inner)
        }
        Plain::Neg(a) => {
            let inner = expanded(alloc, names, a.get(), next)?;
            neg(alloc, inner)
        }
        Plain::Sum(a, b) => {
            let left = expanded(alloc, names, a.get(), next)?;
            let right = expanded(alloc, names, b.get(), next)?;
            sum(alloc, left, right)
        }
        Plain::Prod(a, b) => {
            let left = expanded(alloc, names, a.get(), next)?;
            let right = expanded(alloc, names, b.get(), next)?;
            prod(alloc, left, right)
        }
        Plain::Over { index, dim, body } => { summed(alloc, names, *index, *dim, body.get(), next) }
        Plain::Dx { at, body } => {
            let inner = expanded(alloc, names, body.get(), next)?;
            dx(alloc, renamed(names, *at), inner)
        }
        Plain::Delta(i, j) => Ok(delta(renamed(names, *i), renamed(names, *j))),
        Plain::Pick { at, items } => {
            let all = all_expanded(alloc, names, items.as_slice(), next)?;
            Ok(pick(renamed(names, *at), all))
        }
        Plain::Raise { label, at, body } => {
            let inner = expanded(alloc, names, body.get(), next)?;
            raised(alloc, names, *label, at.as_slice(), inner)
        }
        Plain::Turn { coef, dir, body } => {
            let inner = expanded(alloc, names, body.get(), next)?;
            turned(alloc, coef.role, dir.role, inner)
        }
    }
}

/// A sum over the values of a name, for which the name `next` stands.
#[cycle(expanding)]
fn summed(
    alloc: Global,
    names: &[Binding],
    index: u16,
    dim: u8,
    body: &Plain,
    next: u32,
) -> Result<Plain, AllocError>
    ensures { IfOk result (λ r. term_of r ≡ expand (t.over index dim (term_of body.now)) (renaming_of names.now) next) }
{
    let own = name(next)?;
    let inside = with_bound(alloc, names, &[index], &[Ix::Named(own)])?;
    let inner = expanded(alloc, inside.as_slice(), body, next + 1)?;
    over(alloc, own, dim, inner)
}

#[cycle(expanding)]
fn all_expanded(
    alloc: Global,
    names: &[Binding],
    items: &[Plain],
    next: u32,
) -> Result<Items<Plain>, AllocError>
    ensures { IfOk result (λ ps. map term_of ps
        ≡ map (λ e. expand (term_of e) (renaming_of names.now) next) items.now) }
{
    let mut all = Items::new(alloc);
    for e in items {
        all.push(expanded(alloc, names, e, next)?)?;
    }
    Ok(all)
}

/// The tree without derivatives by variables and by functions. Free names stay; the sums take the least names above
/// all names of the tree. A tree that needs more names than there are runs out of memory.
pub fn expand(alloc: Global, e: &Plain) -> Result<Plain, AllocError>
    ensures { IfOk result (λ r. IsExpansion (term_of e.now) (term_of r)) }
{
    expanded(alloc, &[], e, names_above(e))
}

/// The derivative of a tree by the component at these indices of the variable of this label: the linear coefficient
/// in what is added to it. A variable of the label with another number of indices is another component. The tree's
/// own derivatives are carried out too.
pub fn by_variable(alloc: Global, e: &Plain, label: u32, at: &[Ix]) -> Result<Plain, AllocError>
    ensures { IfOk result (λ r. IsExpansion (t.raise label at.now (term_of e.now)) (term_of r)) }
{
    let next = all_above(at).max(names_above(e));
    let body = expanded(alloc, &[], e, next)?;
    raised(alloc, &[], label, at, body)
}

/// The derivative of a tree by the function `coef` in the direction `dir`: the linear coefficient of t where t
/// times `dir` is added to `coef`. Functions are told apart by their roles alone, and each keeps its element. The
/// tree's own derivatives are carried out too.
pub fn gateaux(alloc: Global, e: &Plain, coef: Function, dir: Function) -> Result<Plain, AllocError>
    ensures { IfOk result (λ r. IsExpansion (t.turn coef dir (term_of e.now)) (term_of r)) }
{
    let body = expand(alloc, e)?;
    turned(alloc, coef.role, dir.role, body)
}
