//! Lowering, node by node.

ghost use Rattle.std.specs.Prelude.{◌≡◌, ◌≤◌, ◌+◌, suc, IfOk, [], ◌∷◌, map, length};
ghost use Rattle.ufl_tree.specs.declared.function.Ix.TheVariants.{Fixed, Named};
ghost use Rattle.ufl_tree.specs.declared.tree.Op1.TheVariants.{Sym, Skew, Dev};
ghost use Rattle.ufl_tree.specs.Indices.{front, back, followed_by, first_size, last_size};
ghost use Rattle.ufl_tree.specs.Places.{table_of};
ghost use Rattle.ufl_tree.specs.Reading.{term_of, terms_of, typed_of};
ghost use Rattle.ufl_tree.specs.Term as t;
ghost use Rattle.lower.specs.Lowering.{Lowered, lower, grad_term, nabla_grad_term, curl_term, matrix_term, trace_term, one_term, minus_term, chosen_term, identity_term, rotated_term};
ghost use Rattle.lower.specs.Shares.{share_of};
ghost use Rattle.ufl_tree.specs.Typed.{shape_of};
ghost use Rattle.weigh.specs.Prelude.{IsLawfulTable};
ghost use Rattle.lower.specs.Fitting.{IsFitting};
ghost use Rattle.passes.specs.Names.{sums_around};
ghost use Rattle.passes.specs.Pairs.{both};
ghost use Rattle.passes.specs.Kept.{HasMeaning, HasWeight};
ghost use Rattle.passes.specs.Component.{first_name, summed_at, component_in, unsummed_in, bound_in, slope, slopes, AreAxes};

use crate::above::{all_above, names_above};
use crate::indices::{
    back, before, entry_of, first_size, followed_by, front, last_size, of_matrix, of_vector,
    only_of,
};
use crate::names::{Scope, all_renamed, behind, name, renamed, with_bound, with_summed};
use crate::nodes::{
    ZERO, delta, dx, function, kept, mark, minus, neg, nothing, of_three, of_two, over, pick,
    power, prod, raise, sizes_of, sum, sums_around, zero,
};
use crate::pairs::{Axes, Places, cross, is_cross, joined, operand_places};
use crate::pieces::piece;
use crate::shares::share;
use crate::summed::summed;
use sqlite_items::Items;
use std::alloc::{AllocError, Global};
use ufl_expr::{Elements, Expr};
use ufl_tree::{Free, Ix, Node, Op1, Op2, Plain, Tree};

/// A component of the identity matrix; any other component is 0.
fn identity(at: &[Ix]) -> Plain
    ensures { term_of result ≡ identity_term at.now }
{
    let entry = entry_of(at);
    if entry.is {
        delta(entry.row, entry.col)
    } else {
        zero()
    }
}

/// A component of a tree; the names from `next` on are free.
#[cycle(lowering)]
fn component(
    alloc: Global,
    scope: &Scope,
    tree: &Tree,
    at: &[Ix],
    next: u32,
) -> Result<Plain, AllocError>
    ensures { IfOk result (λ p. term_of p ≡ component_in scope.now tree.now at.now next) }
{
    let repeated = summed(alloc, tree)?;
    if repeated.is_empty() {
        unsummed(alloc, scope, tree, at, next)
    } else {
        with_sums(alloc, scope, tree, repeated.as_slice(), at, next)
    }
}

/// A component of a node that sums these indices.
#[cycle(lowering)]
fn with_sums(
    alloc: Global,
    scope: &Scope,
    tree: &Tree,
    repeated: &[Free],
    at: &[Ix],
    next: u32,
) -> Result<Plain, AllocError>
    requires { repeated.now ≡ summed_at (typed_of tree.now) }
    ensures { IfOk result (λ p. term_of p ≡ component_in scope.now tree.now at.now next) }
{
    let names = with_summed(alloc, scope.names, repeated, next)?;
    let here = Scope {
        names: names.as_slice(),
        ..*scope
    };
    let inner = behind(next, repeated.len())?;
    let body = unsummed(alloc, &here, tree, at, inner)?;
    let sizes = sizes_of(alloc, repeated)?;
    sums_around(alloc, sizes.as_slice(), next, body)
}

/// A component of a node without its index sums.
#[cycle(lowering)]
fn unsummed(
    alloc: Global,
    scope: &Scope,
    tree: &Tree,
    at: &[Ix],
    next: u32,
) -> Result<Plain, AllocError>
    ensures { IfOk result (λ p. term_of p ≡ unsummed_in scope.now tree.now at.now next) }
{
    match &tree.node {
        Node::Number(c) => Ok(Plain::Num(*c)),
        Node::Identity(_) => Ok(identity(at)),
        Node::Fun(f) => function(alloc, *f, at),
        Node::Piece { f, which } => piece(alloc, scope.elements, *f, *which, at, next),
        Node::One(op, a) => one(alloc, scope, *op, a.get(), at, next),
        Node::Two(_, _, _) => two(alloc, scope, tree, at, next),
        Node::Power(a, n) => {
            let base = component(alloc, scope, a.get(), &[], next)?;
            power(alloc, &base, *n)
        }
        Node::Index(a, by) => {
            let place = all_renamed(alloc, scope.names, by.as_slice(), at)?;
            component(alloc, scope, a.get(), place.as_slice(), next)
        }
        Node::Partial(a, i) => {
            let body = component(alloc, scope, a.get(), at, next)?;
            dx(alloc, renamed(scope.names, *i), body)
        }
        Node::Tensor(a, by) => tensor(alloc, scope, a.get(), by.as_slice(), at, next),
        Node::List(items) => chosen(alloc, scope, items.as_slice(), at, next),
        Node::Variable(label, a) => {
            let body = component(alloc, scope, a.get(), at, next)?;
            mark(alloc, *label, at, body)
        }
        Node::Diff { label, by: _, body } => diff(alloc, scope, body.get(), *label, at, next),
    }
}

/// A component of an operator of two operands without its index sums; no other node comes here. It takes the node, since the tree
/// that is left to lower has to grow smaller for both operands.
#[cycle(lowering)]
fn two(alloc: Global, scope: &Scope, tree: &Tree, at: &[Ix], next: u32) -> Result<Plain, AllocError>
    ensures { IfOk result (λ p. term_of p ≡ unsummed_in scope.now tree.now at.now next) }
{
    let Node::Two(op, a, b) = &tree.node else {
        return Err(AllocError);
    };
    let (a, b) = (a.get(), b.get());
    if is_cross(*op) {
        let second = axes(alloc, scope, b, next)?;
        return crossed(alloc, scope, a, &second, at, next);
    }
    let (shape, other) = (a.shape.as_slice(), b.shape.as_slice());
    let places = operand_places(alloc, *op, shape, other, at, next)?;
    let sizes = places.sizes.as_slice();
    let factor = within(alloc, scope, b, places.right.as_slice(), sizes, next)?;
    paired(alloc, scope, a, *op, &places, factor, next)
}

/// A component of the cross product of a vector in space with one of these components.
#[cycle(lowering)]
fn crossed(
    alloc: Global,
    scope: &Scope,
    a: &Tree,
    other: &Axes,
    at: &[Ix],
    next: u32,
) -> Result<Plain, AllocError>
    ensures { (g : Lowered) → AreAxes g next other.now → IfOk result (λ p. term_of p
        ≡ rotated_term (λ j k. t.prod (component_in scope.now a.now (Fixed j ∷ []) next) (g (Fixed k ∷ []) next))
        at.now next) }
{
    let own = axes(alloc, scope, a, next)?;
    cross(alloc, &own, other, at, next)
}

/// The sum or the product of a component of the left operand with one of the right, summed over the names from `next` on.
#[cycle(lowering)]
fn paired(
    alloc: Global,
    scope: &Scope,
    a: &Tree,
    op: Op2,
    places: &Places,
    other: Plain,
    next: u32,
) -> Result<Plain, AllocError>
    ensures { IfOk result (λ p. term_of p ≡ sums_around places.now.sizes next
        (both op (component_in scope.now a.now places.now.left (next + length places.now.sizes)) (term_of other))) }
{
    let sizes = places.sizes.as_slice();
    let own = within(alloc, scope, a, places.left.as_slice(), sizes, next)?;
    joined(alloc, op, sizes, next, own, other)
}

/// A component of an operand, within sums of these sizes over the names from `next` on.
#[cycle(lowering)]
fn within(
    alloc: Global,
    scope: &Scope,
    a: &Tree,
    at: &[Ix],
    sizes: &[u8],
    next: u32,
) -> Result<Plain, AllocError>
    ensures { IfOk result (λ p. term_of p ≡ component_in scope.now a.now at.now (next + length sizes.now)) }
{
    let inner = behind(next, sizes.len())?;
    component(alloc, scope, a, at, inner)
}

/// The derivative of a component by one of a variable.
#[cycle(lowering)]
fn diff(
    alloc: Global,
    scope: &Scope,
    a: &Tree,
    label: u32,
    at: &[Ix],
    next: u32,
) -> Result<Plain, AllocError>
    ensures { IfOk result (λ p. term_of p
        ≡ t.raise label (back a.now.shape at.now) (component_in scope.now a.now (front a.now.shape at.now) next)) }
{
    let shape = a.shape.as_slice();
    let body = component(alloc, scope, a, front(shape, at), next)?;
    raise(alloc, label, back(shape, at), body)
}

/// A component of a binding: the scalar where its indices stand for the names.
#[cycle(lowering)]
fn tensor(
    alloc: Global,
    scope: &Scope,
    a: &Tree,
    by: &[u16],
    at: &[Ix],
    next: u32,
) -> Result<Plain, AllocError>
    ensures { IfOk result (λ p. term_of p ≡ bound_in scope.now a.now by.now at.now next) }
{
    let names = with_bound(alloc, scope.names, by, at)?;
    let here = Scope {
        names: names.as_slice(),
        ..*scope
    };
    component(alloc, &here, a, &[], next)
}

/// A component of each of these.
#[cycle(lowering)]
fn components(
    alloc: Global,
    scope: &Scope,
    trees: &[Tree],
    at: &[Ix],
    next: u32,
) -> Result<Items<Plain>, AllocError>
    ensures { IfOk result (λ ps. map term_of ps ≡ map (λ a. component_in scope.now a at.now next) trees.now) }
{
    let mut all = Items::new(alloc);
    for tree in trees {
        all.push(component(alloc, scope, tree, at, next)?)?;
    }
    Ok(all)
}

/// A component of a list of trees.
#[cycle(lowering)]
fn chosen(
    alloc: Global,
    scope: &Scope,
    trees: &[Tree],
    at: &[Ix],
    next: u32,
) -> Result<Plain, AllocError>
    ensures { IfOk result (λ p. term_of p
        ≡ chosen_term (λ c. terms_of (map (λ a. component_in scope.now a c next) trees.now)) at.now next) }
{
    match at.split_first() {
        Some((i, rest)) => {
            let items = components(alloc, scope, trees, rest, next)?;
            Ok(pick(*i, items))
        }
        None => {
            let items = components(alloc, scope, trees, &[], next)?;
            nothing(alloc, next, pick(ZERO, items))
        }
    }
}

#[cycle(lowering)]
fn one(
    alloc: Global,
    scope: &Scope,
    op: Op1,
    a: &Tree,
    at: &[Ix],
    next: u32,
) -> Result<Plain, AllocError>
    ensures { IfOk result (λ p. term_of p
        ≡ one_term share_of op a.now.shape (component_in scope.now a.now) at.now next) }
{
    match op {
        Op1::Neg => {
            let body = component(alloc, scope, a, at, next)?;
            neg(alloc, body)
        }
        Op1::Grad => grad(alloc, scope, a, at, next),
        Op1::NablaGrad => nabla_grad(alloc, scope, a, at, next),
        Op1::Div => div(alloc, scope, a, last_size(a.shape.as_slice()), at, next),
        Op1::NablaDiv => nabla_div(alloc, scope, a, first_size(a.shape.as_slice()), at, next),
        Op1::Curl => curl(alloc, scope, a, at, next),
        Op1::Transpose => transpose(alloc, scope, a, at, next),
        Op1::Trace => trace(alloc, scope, a, first_size(a.shape.as_slice()), next),
        Op1::Sym => sym(alloc, scope, a, at, next),
        Op1::Skew => skew(alloc, scope, a, at, next),
        Op1::Dev => dev(alloc, scope, a, at, next),
    }
}

#[cycle(lowering)]
fn grad(alloc: Global, scope: &Scope, a: &Tree, at: &[Ix], next: u32) -> Result<Plain, AllocError>
    ensures { IfOk result (λ p. term_of p ≡ grad_term (component_in scope.now a.now) at.now next) }
{
    match at.split_last() {
        Some((i, rest)) => {
            let body = component(alloc, scope, a, rest, next)?;
            dx(alloc, *i, body)
        }
        None => flat_slope(alloc, scope, a, next),
    }
}

#[cycle(lowering)]
fn nabla_grad(
    alloc: Global,
    scope: &Scope,
    a: &Tree,
    at: &[Ix],
    next: u32,
) -> Result<Plain, AllocError>
    ensures { IfOk result (λ p. term_of p ≡ nabla_grad_term (component_in scope.now a.now) at.now next) }
{
    match at.split_first() {
        Some((i, rest)) => {
            let body = component(alloc, scope, a, rest, next)?;
            dx(alloc, *i, body)
        }
        None => flat_slope(alloc, scope, a, next),
    }
}

/// A derivative at a component that it doesn't have: 0, with its weight.
#[cycle(lowering)]
fn flat_slope(alloc: Global, scope: &Scope, a: &Tree, next: u32) -> Result<Plain, AllocError>
    ensures { IfOk result (λ p. term_of p ≡ t.over next 0 (t.dx (Fixed 0) (component_in scope.now a.now [] next))) }
{
    let body = component(alloc, scope, a, &[], next)?;
    let slope = dx(alloc, ZERO, body)?;
    nothing(alloc, next, slope)
}

#[cycle(lowering)]
fn div(
    alloc: Global,
    scope: &Scope,
    a: &Tree,
    size: u8,
    at: &[Ix],
    next: u32,
) -> Result<Plain, AllocError>
    ensures { IfOk result (λ p. term_of p
        ≡ t.over next size (t.dx (Named next) (component_in scope.now a.now (followed_by at.now (Named next))
        (suc next)))) }
{
    let index = name(next)?;
    let place = followed_by(alloc, at, Ix::Named(index))?;
    let body = component(alloc, scope, a, place.as_slice(), next + 1)?;
    let slope = dx(alloc, Ix::Named(index), body)?;
    over(alloc, index, size, slope)
}

#[cycle(lowering)]
fn nabla_div(
    alloc: Global,
    scope: &Scope,
    a: &Tree,
    size: u8,
    at: &[Ix],
    next: u32,
) -> Result<Plain, AllocError>
    ensures { IfOk result (λ p. term_of p
        ≡ t.over next size (t.dx (Named next) (component_in scope.now a.now (Named next ∷ at.now) (suc next)))) }
{
    let index = name(next)?;
    let place = before(alloc, Ix::Named(index), at)?;
    let body = component(alloc, scope, a, place.as_slice(), next + 1)?;
    let slope = dx(alloc, Ix::Named(index), body)?;
    over(alloc, index, size, slope)
}

#[cycle(lowering)]
fn trace(alloc: Global, scope: &Scope, a: &Tree, size: u8, next: u32) -> Result<Plain, AllocError>
    ensures { IfOk result (λ p. term_of p ≡ trace_term size (component_in scope.now a.now) next) }
{
    let index = name(next)?;
    let (i, j) = (Ix::Named(index), Ix::Named(index));
    let body = entry(alloc, scope, a, i, j, next + 1)?;
    over(alloc, index, size, body)
}

/// An entry of a matrix.
#[cycle(lowering)]
fn entry(
    alloc: Global,
    scope: &Scope,
    a: &Tree,
    i: Ix,
    j: Ix,
    next: u32,
) -> Result<Plain, AllocError>
    ensures { IfOk result (λ p. term_of p ≡ component_in scope.now a.now (i ∷ j ∷ []) next) }
{
    let place = of_matrix(alloc, i, j)?;
    component(alloc, scope, a, place.as_slice(), next)
}

#[cycle(lowering)]
fn transpose(
    alloc: Global,
    scope: &Scope,
    a: &Tree,
    at: &[Ix],
    next: u32,
) -> Result<Plain, AllocError>
    ensures { IfOk result (λ p. term_of p
        ≡ matrix_term (λ i j. component_in scope.now a.now (j ∷ i ∷ []) next) at.now next) }
{
    let spot = entry_of(at);
    let turned = entry(alloc, scope, a, spot.col, spot.row, next)?;
    kept(alloc, next, spot.is, turned)
}

#[cycle(lowering)]
fn sym(alloc: Global, scope: &Scope, a: &Tree, at: &[Ix], next: u32) -> Result<Plain, AllocError>
    ensures { IfOk result (λ p. term_of p ≡ one_term share_of Sym [] (component_in scope.now a.now) at.now next) }
{
    let spot = entry_of(at);
    let own = entry(alloc, scope, a, spot.row, spot.col, next)?;
    let turned = entry(alloc, scope, a, spot.col, spot.row, next)?;
    let both = sum(alloc, own, turned)?;
    let half = prod(alloc, share(2), both)?;
    kept(alloc, next, spot.is, half)
}

#[cycle(lowering)]
fn skew(alloc: Global, scope: &Scope, a: &Tree, at: &[Ix], next: u32) -> Result<Plain, AllocError>
    ensures { IfOk result (λ p. term_of p ≡ one_term share_of Skew [] (component_in scope.now a.now) at.now next) }
{
    let spot = entry_of(at);
    let own = entry(alloc, scope, a, spot.row, spot.col, next)?;
    let turned = entry(alloc, scope, a, spot.col, spot.row, next)?;
    let both = minus(alloc, own, turned)?;
    let half = prod(alloc, share(2), both)?;
    kept(alloc, next, spot.is, half)
}

#[cycle(lowering)]
fn dev(alloc: Global, scope: &Scope, a: &Tree, at: &[Ix], next: u32) -> Result<Plain, AllocError>
    ensures { IfOk result (λ p. term_of p
        ≡ one_term share_of Dev a.now.shape (component_in scope.now a.now) at.now next) }
{
    let spot = entry_of(at);
    let size = first_size(a.shape.as_slice());
    let own = entry(alloc, scope, a, spot.row, spot.col, next)?;
    let sum = trace(alloc, scope, a, size, next)?;
    let mean = prod(alloc, sum, share(size.max(1)))?;
    let along = prod(alloc, mean, delta(spot.row, spot.col))?;
    let rest = minus(alloc, own, along)?;
    kept(alloc, next, spot.is, rest)
}

#[cycle(lowering)]
fn curl(alloc: Global, scope: &Scope, a: &Tree, at: &[Ix], next: u32) -> Result<Plain, AllocError>
    ensures { IfOk result (λ p. term_of p ≡ curl_term a.now.shape (component_in scope.now a.now) at.now next) }
{
    if a.shape.is_empty() {
        return scalar_curl(alloc, scope, a, at, next);
    }
    if at.is_empty() {
        plane_curl(alloc, scope, a, next)
    } else {
        space_curl(alloc, scope, a, at, next)
    }
}

/// The rotation of a scalar in the plane, which is a vector.
#[cycle(lowering)]
fn scalar_curl(
    alloc: Global,
    scope: &Scope,
    a: &Tree,
    at: &[Ix],
    next: u32,
) -> Result<Plain, AllocError>
    ensures { IfOk result (λ p. term_of p ≡ curl_term [] (component_in scope.now a.now) at.now next) }
{
    match only_of(at) {
        Some(i) => {
            let up = component(alloc, scope, a, &[], next)?;
            let first = dx(alloc, Ix::Fixed(1), up)?;
            let along = component(alloc, scope, a, &[], next)?;
            let slope = dx(alloc, Ix::Fixed(0), along)?;
            let second = neg(alloc, slope)?;
            of_two(alloc, i, first, second)
        }
        None => flat_slope(alloc, scope, a, next),
    }
}

/// The rotation of a vector in the plane, which is a scalar.
#[cycle(lowering)]
fn plane_curl(alloc: Global, scope: &Scope, a: &Tree, next: u32) -> Result<Plain, AllocError>
    ensures { IfOk result (λ p. term_of p ≡ slopes (component_in scope.now a.now) next 0 1) }
{
    slopes(alloc, scope, a, 0, 1, next)
}

/// The rotation of a vector in space.
#[cycle(lowering)]
fn space_curl(
    alloc: Global,
    scope: &Scope,
    a: &Tree,
    at: &[Ix],
    next: u32,
) -> Result<Plain, AllocError>
    ensures { IfOk result (λ p. term_of p ≡ rotated_term (slope (component_in scope.now a.now) next) at.now next) }
{
    match only_of(at) {
        Some(i) => {
            let x = slopes(alloc, scope, a, 1, 2, next)?;
            let y = slopes(alloc, scope, a, 2, 0, next)?;
            let z = slopes(alloc, scope, a, 0, 1, next)?;
            of_three(alloc, i, x, y, z)
        }
        None => {
            let first = slopes(alloc, scope, a, 0, 0, next)?;
            nothing(alloc, next, first)
        }
    }
}

/// The derivative of component k in the direction j, less that of j in the direction k.
#[cycle(lowering)]
fn slopes(
    alloc: Global,
    scope: &Scope,
    a: &Tree,
    j: u8,
    k: u8,
    next: u32,
) -> Result<Plain, AllocError>
    ensures { IfOk result (λ p. term_of p ≡ slopes (component_in scope.now a.now) next j k) }
{
    let first = slope(alloc, scope, a, j, k, next)?;
    let second = slope(alloc, scope, a, k, j, next)?;
    minus(alloc, first, second)
}

#[cycle(lowering)]
fn slope(
    alloc: Global,
    scope: &Scope,
    a: &Tree,
    j: u8,
    k: u8,
    next: u32,
) -> Result<Plain, AllocError>
    ensures { IfOk result (λ p. term_of p ≡ slope (component_in scope.now a.now) next j k) }
{
    let body = axis(alloc, scope, a, k, next)?;
    dx(alloc, Ix::Fixed(j), body)
}

/// The components of a vector in space.
#[cycle(lowering)]
fn axes(alloc: Global, scope: &Scope, a: &Tree, next: u32) -> Result<Axes, AllocError>
    ensures { IfOk result (λ v. AreAxes (component_in scope.now a.now) next v) }
{
    let x = axis(alloc, scope, a, 0, next)?;
    let y = axis(alloc, scope, a, 1, next)?;
    let z = axis(alloc, scope, a, 2, next)?;
    Ok(Axes { x, y, z })
}

#[cycle(lowering)]
fn axis(alloc: Global, scope: &Scope, a: &Tree, k: u8, next: u32) -> Result<Plain, AllocError>
    ensures { IfOk result (λ p. term_of p ≡ component_in scope.now a.now (Fixed k ∷ []) next) }
{
    let place = of_vector(alloc, Ix::Fixed(k))?;
    component(alloc, scope, a, place.as_slice(), next)
}

/// The component of an expression at these indices, as a tree in index notation. Sums take names that occur neither in the expression nor
/// among the indices, the least ones; an expression that needs more than there are runs out of memory.
pub fn lower(alloc: Global, e: &Expr, at: &[Ix], elements: &Elements) -> Result<Plain, AllocError>
    ensures tree { IfOk result (λ p. term_of p
        ≡ lower share_of (table_of elements.now) (typed_of e.now) Named at.now (first_name (typed_of e.now) at.now)) }

    ensures meaning { IsLawfulTable (table_of elements.now) → IsFitting (table_of elements.now) (typed_of e.now)
        → IfOk result (λ p. HasMeaning (table_of elements.now) (typed_of e.now) at.now (term_of p)) }
    ensures weight { IsFitting (table_of elements.now) (typed_of e.now)
        → length at.now ≤ length (shape_of (typed_of e.now))
        → IfOk result (λ p. HasWeight (table_of elements.now) (typed_of e.now) (term_of p)) }
{
    let scope = Scope {
        elements,
        names: &[],
    };
    let tree = e.tree();
    let next = names_above(tree).max(all_above(at));
    component(alloc, &scope, tree, at, next)
}
