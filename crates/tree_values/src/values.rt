//! The value of a typed tree, word for word as it is defined.

ghost use Rattle.std.specs.Prelude.{◌≡◌, ℕ, IfOk, [], ◌∷◌, map};
ghost use Rattle.calculus.specs.Integral.{sum_below};
ghost use Rattle.ufl_meaning.specs.Operators.{along, one_value, grad_value, nabla_grad_value, curl_value, matrix_value, turned_over, trace_value};
ghost use Rattle.ufl_tree.specs.Indices.{followed_by};
ghost use Rattle.tree_values.specs.PolyValue.{value_of};
ghost use Rattle.tree_values.specs.Value.{value_in, unsummed_in, chosen_in, bound_in, diff_in, half_of, dev_of};

use crate::component::{
    Spot, before, behind, first_part, last_part, measured, of_matrix, of_vector,
};
use crate::environment::{Change, offset, used, with_change};
use crate::leaf::{function, identity, piece, unit};
use crate::operands::{combined, first_size, last_size, other_axes, wanted};
use crate::poly::Poly;
use crate::scene::{Scene, assignments, number, numbers, with_all_bound};
use crate::summed::summed;
use reference::Fault;
use reference::number::one_in;
use sqlite_items::Items;
use std::alloc::Global;
use ufl_tree::{Node, Op1, Tree};

/// The component of a tree at the numbers `at`. `Range` where a number doesn't fit, a mixed element in a list has more than 255 scalar parts, or more
/// than three derivatives by variables are nested.
#[cycle(values)]
pub fn value(alloc: Global, scene: &Scene, tree: &Tree, at: &[u8]) -> Result<Poly, Fault>
    ensures { IfOk result (λ p. value_of p ≡ value_in scene.now tree.now at.now) }
{
    let repeated = summed(alloc, tree)?;
    let choices = assignments(alloc, repeated.as_slice(), scene.names)?;
    let all = choices.as_slice();
    let mut total = Poly::zero(alloc);
    for names in all {
        let here = Scene {
            names: names.as_slice(),
            ..*scene
        };
        total = total.sum(alloc, &unsummed(alloc, &here, tree, at)?)?;
    }
    Ok(total)
}

/// The component of a node without its index sums.
#[cycle(values)]
fn unsummed(alloc: Global, scene: &Scene, tree: &Tree, at: &[u8]) -> Result<Poly, Fault>
    ensures { IfOk result (λ p. value_of p ≡ unsummed_in scene.now tree.now at.now) }
{
    match &tree.node {
        Node::Number(c) => Poly::constant(alloc, *c),
        Node::Identity(_) => identity(alloc, at),
        Node::Fun(f) => function(alloc, scene, *f, at),
        Node::Piece { f, which } => piece(alloc, scene, *f, *which, at),
        Node::One(op, a) => one(alloc, scene, a.get(), *op, at),
        Node::Two(op, a, b) => {
            let (a, b) = (a.get(), b.get());
            let wanted = wanted(alloc, *op, a.shape.as_slice(), b.shape.as_slice(), at)?;
            let left = values(alloc, scene, a, wanted.left.as_slice())?;
            let right = values(alloc, scene, b, wanted.right.as_slice())?;
            combined(alloc, *op, left.as_slice(), right.as_slice())
        }
        Node::Power(a, n) => value(alloc, scene, a.get(), &[])?.power(alloc, *n),
        Node::Index(a, by) => {
            let place = numbers(alloc, scene.names, by.as_slice(), at)?;
            value(alloc, scene, a.get(), place.as_slice())
        }
        Node::Partial(a, i) => {
            let direction = number(scene.names, *i);
            value(alloc, scene, a.get(), at)?.along(alloc, direction)
        }
        Node::Tensor(a, by) => tensor(alloc, scene, a.get(), by.as_slice(), at),
        Node::List(items) => chosen(alloc, scene, items.as_slice(), at),
        Node::Variable(label, a) => {
            let moved = offset(alloc, scene.changes, *label, at)?;
            value(alloc, scene, a.get(), at)?.sum(alloc, &moved)
        }
        Node::Diff { label, by: _, body } => diff(alloc, scene, body.get(), *label, at),
    }
}

/// Components of a tree.
#[cycle(values)]
fn values(
    alloc: Global,
    scene: &Scene,
    a: &Tree,
    wanted: &[Items<u8>],
) -> Result<Items<Poly>, Fault>
    ensures { IfOk result (λ ps. map value_of ps ≡ map (value_in scene.now a.now) wanted.now) }
{
    let mut all = Items::new(alloc);
    for at in wanted {
        all.push(value(alloc, scene, a, at.as_slice())?)?;
    }
    Ok(all)
}

#[cycle(values)]
fn tensor(alloc: Global, scene: &Scene, a: &Tree, by: &[u16], at: &[u8]) -> Result<Poly, Fault>
    ensures { IfOk result (λ p. value_of p ≡ bound_in scene.now a.now by.now at.now) }
{
    let names = with_all_bound(alloc, scene.names, by, at)?;
    let here = Scene {
        names: names.as_slice(),
        ..*scene
    };
    value(alloc, &here, a, &[])
}

/// The linear part in what is added to a component of a variable.
#[cycle(values)]
fn diff(alloc: Global, scene: &Scene, a: &Tree, label: u32, at: &[u8]) -> Result<Poly, Fault>
    ensures { IfOk result (λ p. value_of p ≡ diff_in scene.now a.now label at.now) }
{
    let shape = a.shape.as_slice();
    let raised = Change::Raised {
        label,
        at: Items::from_slice(alloc, last_part(shape, at))?,
    };
    let changes = with_change(alloc, scene.changes, raised)?;
    let here = Scene {
        changes: changes.as_slice(),
        ..*scene
    };
    value(alloc, &here, a, first_part(shape, at))?.linear_part(alloc, used(scene.changes))
}

#[cycle(values)]
fn chosen(alloc: Global, scene: &Scene, items: &[Tree], at: &[u8]) -> Result<Poly, Fault>
    ensures { IfOk result (λ p. value_of p ≡ chosen_in scene.now items.now at.now) }
{
    let Some((i, rest)) = at.split_first() else {
        return Ok(Poly::zero(alloc));
    };
    match items.get(*i as usize) {
        Some(item) => value(alloc, scene, item, rest),
        None => Ok(Poly::zero(alloc)),
    }
}

#[cycle(values)]
fn one(alloc: Global, scene: &Scene, a: &Tree, op: Op1, at: &[u8]) -> Result<Poly, Fault>
    ensures { IfOk result (λ p. value_of p ≡ one_value op a.now.shape (value_in scene.now a.now) at.now) }
{
    match op {
        Op1::Neg => value(alloc, scene, a, at)?.negated(alloc),
        Op1::Grad => grad(alloc, scene, a, at),
        Op1::NablaGrad => nabla_grad(alloc, scene, a, at),
        Op1::Div => div(alloc, scene, a, last_size(a.shape.as_slice()), at),
        Op1::NablaDiv => nabla_div(alloc, scene, a, first_size(a.shape.as_slice()), at),
        Op1::Curl => curl(alloc, scene, a, at),
        Op1::Transpose => transpose(alloc, scene, a, at),
        Op1::Trace => trace(alloc, scene, a, first_size(a.shape.as_slice())),
        Op1::Sym => half(alloc, scene, a, false, at),
        Op1::Skew => half(alloc, scene, a, true, at),
        Op1::Dev => dev(alloc, scene, a, first_size(a.shape.as_slice()), at),
    }
}

#[cycle(values)]
fn grad(alloc: Global, scene: &Scene, a: &Tree, at: &[u8]) -> Result<Poly, Fault>
    ensures { IfOk result (λ p. value_of p ≡ grad_value (value_in scene.now a.now) at.now) }
{
    match at.split_last() {
        Some((i, rest)) => value(alloc, scene, a, rest)?.along(alloc, *i),
        None => Ok(Poly::zero(alloc)),
    }
}

#[cycle(values)]
fn nabla_grad(alloc: Global, scene: &Scene, a: &Tree, at: &[u8]) -> Result<Poly, Fault>
    ensures { IfOk result (λ p. value_of p ≡ nabla_grad_value (value_in scene.now a.now) at.now) }
{
    match at.split_first() {
        Some((i, rest)) => value(alloc, scene, a, rest)?.along(alloc, *i),
        None => Ok(Poly::zero(alloc)),
    }
}

#[cycle(values)]
fn div(alloc: Global, scene: &Scene, a: &Tree, size: u8, at: &[u8]) -> Result<Poly, Fault>
    ensures { IfOk result (λ p. value_of p ≡ sum_below size (λ k. along k (value_in scene.now a.now (followed_by at.now k)))) }
{
    let mut total = Poly::zero(alloc);
    for k in 0..size {
        let place = behind(alloc, at, k)?;
        let part = value(alloc, scene, a, place.as_slice())?.along(alloc, k)?;
        total = total.sum(alloc, &part)?;
    }
    Ok(total)
}

#[cycle(values)]
fn nabla_div(alloc: Global, scene: &Scene, a: &Tree, size: u8, at: &[u8]) -> Result<Poly, Fault>
    ensures { IfOk result (λ p. value_of p ≡ sum_below size (λ k. along k (value_in scene.now a.now (k ∷ at.now)))) }
{
    let mut total = Poly::zero(alloc);
    for k in 0..size {
        let place = before(alloc, k, at)?;
        let part = value(alloc, scene, a, place.as_slice())?.along(alloc, k)?;
        total = total.sum(alloc, &part)?;
    }
    Ok(total)
}

#[cycle(values)]
fn trace(alloc: Global, scene: &Scene, a: &Tree, size: u8) -> Result<Poly, Fault>
    ensures { IfOk result (λ p. value_of p ≡ trace_value size (value_in scene.now a.now)) }
{
    let mut total = Poly::zero(alloc);
    for k in 0..size {
        total = total.sum(alloc, &entry(alloc, scene, a, k, k)?)?;
    }
    Ok(total)
}

#[cycle(values)]
fn entry(alloc: Global, scene: &Scene, a: &Tree, i: u8, j: u8) -> Result<Poly, Fault>
    ensures { IfOk result (λ p. value_of p ≡ value_in scene.now a.now (i ∷ j ∷ [])) }
{
    let place = of_matrix(alloc, i, j)?;
    value(alloc, scene, a, place.as_slice())
}

#[cycle(values)]
fn transpose(alloc: Global, scene: &Scene, a: &Tree, at: &[u8]) -> Result<Poly, Fault>
    ensures { IfOk result (λ p. value_of p ≡ matrix_value (turned_over (value_in scene.now a.now)) at.now) }
{
    match measured(at) {
        Spot::Matrix(i, j) => entry(alloc, scene, a, j, i),
        Spot::Scalar => Ok(Poly::zero(alloc)),
        Spot::Vector(_) => Ok(Poly::zero(alloc)),
        Spot::Longer => Ok(Poly::zero(alloc)),
    }
}

#[cycle(values)]
fn half(alloc: Global, scene: &Scene, a: &Tree, skew: bool, at: &[u8]) -> Result<Poly, Fault>
    ensures { IfOk result (λ p. value_of p ≡ half_of skew (value_in scene.now a.now) at.now) }
{
    let Spot::Matrix(i, j) = measured(at) else {
        return Ok(Poly::zero(alloc));
    };
    let first = entry(alloc, scene, a, i, j)?;
    let second = entry(alloc, scene, a, j, i)?;
    let both = if skew {
        first.difference(alloc, &second)?
    } else {
        first.sum(alloc, &second)?
    };
    Poly::constant(alloc, one_in(2)?)?.product(alloc, &both)
}

#[cycle(values)]
fn dev(alloc: Global, scene: &Scene, a: &Tree, size: u8, at: &[u8]) -> Result<Poly, Fault>
    ensures { IfOk result (λ p. value_of p ≡ dev_of size (value_in scene.now a.now) at.now) }
{
    let Spot::Matrix(i, j) = measured(at) else {
        return Ok(Poly::zero(alloc));
    };
    let part = Poly::constant(alloc, one_in(size as u32)?)?;
    let mean = trace(alloc, scene, a, size)?.product(alloc, &part)?;
    let along_identity = mean.product(alloc, &unit(alloc, i, j)?)?;
    entry(alloc, scene, a, i, j)?.difference(alloc, &along_identity)
}

#[cycle(values)]
fn curl(alloc: Global, scene: &Scene, a: &Tree, at: &[u8]) -> Result<Poly, Fault>
    ensures { IfOk result (λ p. value_of p ≡ curl_value a.now.shape (value_in scene.now a.now) at.now) }
{
    match measured(a.shape.as_slice()) {
        Spot::Scalar => scalar_curl(alloc, scene, a, at),
        Spot::Vector(_) => vector_curl(alloc, scene, a, at),
        Spot::Matrix(_, _) => Ok(Poly::zero(alloc)),
        Spot::Longer => Ok(Poly::zero(alloc)),
    }
}

#[cycle(values)]
fn scalar_curl(alloc: Global, scene: &Scene, a: &Tree, at: &[u8]) -> Result<Poly, Fault>
    ensures { IfOk result (λ p. value_of p ≡ curl_value [] (value_in scene.now a.now) at.now) }
{
    let Spot::Vector(i) = measured(at) else {
        return Ok(Poly::zero(alloc));
    };
    match i {
        0 => value(alloc, scene, a, &[])?.along(alloc, 1),
        1 => value(alloc, scene, a, &[])?.along(alloc, 0)?.negated(alloc),
        _ => Ok(Poly::zero(alloc)),
    }
}

#[cycle(values)]
fn vector_curl(alloc: Global, scene: &Scene, a: &Tree, at: &[u8]) -> Result<Poly, Fault>
    ensures { (n : ℕ) → IfOk result (λ p. value_of p ≡ curl_value (n ∷ []) (value_in scene.now a.now) at.now) }
{
    let axes = match measured(at) {
        Spot::Scalar => Some((0, 1)),
        Spot::Vector(i) => other_axes(i),
        Spot::Matrix(_, _) => None,
        Spot::Longer => None,
    };
    let Some((j, k)) = axes else {
        return Ok(Poly::zero(alloc));
    };
    let first = slope(alloc, scene, a, j, k)?;
    first.difference(alloc, &slope(alloc, scene, a, k, j)?)
}

#[cycle(values)]
fn slope(alloc: Global, scene: &Scene, a: &Tree, j: u8, k: u8) -> Result<Poly, Fault>
    ensures { IfOk result (λ p. value_of p ≡ along j (value_in scene.now a.now (k ∷ []))) }
{
    let place = of_vector(alloc, k)?;
    value(alloc, scene, a, place.as_slice())?.along(alloc, j)
}
