//! The weights of typed trees, by their nodes.

ghost use Rattle.std.specs.Prelude.{◌≡◌, ◌≤◌, ◌+◌, ◌==◌, ◌++◌, if◌then◌else◌, length, map};
ghost use Rattle.ufl_tree.specs.Indices.{named, direction, count_of, repeated, first_size, last_size};
ghost use Rattle.ufl_tree.specs.Places.{table_of};
ghost use Rattle.ufl_tree.specs.Reading.{typed_of, typed_list, tree_with};
ghost use Rattle.ufl_tree.specs.Typed.{Kind};
ghost use Rattle.monos.specs.Summed.{summed};
ghost use Rattle.weigh.specs.Weighing.{kept, directions, power_weight, times_weight, index_weight, space_weight, names_weight, sizes_weight, curl_weight, dot_weight, product_weight, one_operand, two_operands, weight_with, list_weight};
ghost use Rattle.admit.specs.Denominators.{HasDenominators};

use crate::functions::function;
use crate::steps::{index_sum, join, label, linear, number, one, plus, share, space, times};
use monos::Weight;
use spaces::Cell;
use ufl_expr::Elements;
use ufl_tree::{Free, Ix, Node, Op1, Op2, Tree};

/// How many directions a derivative has: the dimension of the cell, and 1 where no function occurs.
fn directions(cell: Option<Cell>) -> u8
    ensures { result ≡ directions cell }
{
    cell.map_or(1, |c| c.dim())
}

/// How often an index occurs.
fn count(index: u16, all: &[Free]) -> usize
    ensures value { result ≡ count_of index all.now }
    ensures few { result ≤ length all.now }
{
    let Some((first, rest)) = all.split_first() else {
        return 0;
    };
    let more = count(index, rest);
    if first.index == index { more + 1 } else { more }
}

/// How often an index occurs at the places of a shape.
fn count_at(index: u16, at: &[Ix], shape: &[u8]) -> usize
    ensures value { result ≡ count_of index (named at.now shape.now) }
    ensures few { result ≤ length at.now }
{
    let Some((place, at)) = at.split_first() else {
        return 0;
    };
    let Some((_, shape)) = shape.split_first() else {
        return 0;
    };
    let more = count_at(index, at, shape);
    match place {
        Ix::Named(other) => if *other == index { more + 1 } else { more },
        Ix::Fixed(_) => more,
    }
}

/// One of three counts is 1, and the others are 0.
fn is_once(a: usize, b: usize, c: usize) -> bool
    ensures { result ≡ (a + (b + c) == 1) }
{
    match (a, b, c) {
        (1, 0, 0) | (0, 1, 0) | (0, 0, 1) => true,
        _ => false,
    }
}

/// Summed over an index, if it is.
fn over_one(is: bool, dim: u8, a: Weight) -> Weight
    requires { HasDenominators a }
    ensures value { result ≡ (if is then index_weight kept dim a else a) }
    ensures denominators { HasDenominators result }
{
    if is { index_sum(dim, a) } else { a }
}

/// Summed over the indices that occur twice at the places of a shape.
fn over_places(at: &[Ix], shape: &[u8], a: Weight) -> Weight
    requires { HasDenominators a }
    ensures value { result ≡ names_weight kept (repeated (named at.now shape.now)) a }
    ensures denominators { HasDenominators result }
{
    let Some((place, at)) = at.split_first() else {
        return a;
    };
    let Some((dim, shape)) = shape.split_first() else {
        return a;
    };
    let rest = over_places(at, shape, a);
    match place {
        Ix::Named(index) => over_one(count_at(*index, at, shape) == 1, *dim, rest),
        Ix::Fixed(_) => rest,
    }
}

/// Summed over the indices that occur twice among free ones and at the places of a shape.
fn over_free_and_places(free: &[Free], at: &[Ix], shape: &[u8], a: Weight) -> Weight
    requires { HasDenominators a }
    ensures value { result ≡ names_weight kept (repeated (free.now ++ named at.now shape.now)) a }
    ensures denominators { HasDenominators result }
{
    let Some((first, free)) = free.split_first() else {
        return over_places(at, shape, a);
    };
    let rest = over_free_and_places(free, at, shape, a);
    let is = is_once(
        count(first.index, free),
        count_at(first.index, at, shape),
        0,
    );
    over_one(is, first.dim, rest)
}

/// Summed over the indices that occur twice in two lists.
fn over_common(left: &[Free], right: &[Free], a: Weight) -> Weight
    requires { HasDenominators a }
    ensures value { result ≡ names_weight kept (repeated (left.now ++ right.now)) a }
    ensures denominators { HasDenominators result }
{
    let Some((first, rest)) = left.split_first() else {
        return over_free_and_places(right, &[], &[], a);
    };
    let all = over_common(rest, right, a);
    let is = is_once(count(first.index, rest), count(first.index, right), 0);
    over_one(is, first.dim, all)
}

fn first_size(shape: &[u8]) -> u8
    ensures { result ≡ first_size shape.now }
{
    shape.first().copied().unwrap_or(0)
}

fn last_size(shape: &[u8]) -> u8
    ensures { result ≡ last_size shape.now }
{
    let Some((first, rest)) = shape.split_first() else {
        return 0;
    };
    if rest.is_empty() {
        *first
    } else {
        last_size(rest)
    }
}

/// Of one component of a product of tensors: the inner index is summed, if there is one.
fn dot(shape: &[u8], both: Weight) -> Weight
    requires { HasDenominators both }
    ensures value { (a b : Weight) → both ≡ times_weight kept a b → result ≡ dot_weight kept shape.now a b }
    ensures denominators { HasDenominators result }
{
    if shape.is_empty() {
        both
    } else {
        index_sum(last_size(shape), both)
    }
}

/// Summed over all indices of a shape.
fn over_shape(shape: &[u8], a: Weight) -> Weight
    requires { HasDenominators a }
    ensures value { result ≡ sizes_weight kept shape.now a }
    ensures denominators { HasDenominators result }
{
    match shape.split_first() {
        None => a,
        Some((first, rest)) => index_sum(*first, over_shape(rest, a)),
    }
}

fn curl(shape: &[u8], a: Weight) -> Weight
    requires { HasDenominators a }
    ensures value { result ≡ curl_weight kept shape.now a }
    ensures denominators { HasDenominators result }
{
    if shape.is_empty() {
        join(a, a)
    } else {
        plus(a, a)
    }
}

/// Of an operator with an operand of this shape and weight, in d directions.
fn one_operand(op: Op1, shape: &[u8], d: u8, a: Weight) -> Weight
    requires { HasDenominators a }
    ensures value { result ≡ one_operand kept op shape.now d a }
    ensures denominators { HasDenominators result }
{
    match op {
        Op1::Neg | Op1::Transpose => a,
        Op1::Grad | Op1::NablaGrad => space(d, a),
        Op1::Div => index_sum(last_size(shape), space(d, a)),
        Op1::NablaDiv => index_sum(first_size(shape), space(d, a)),
        Op1::Curl => curl(shape, space(d, a)),
        Op1::Trace => index_sum(first_size(shape), a),
        Op1::Sym | Op1::Skew => times(share(2), plus(a, a)),
        Op1::Dev => {
            let n = first_size(shape);
            plus(a, times(times(index_sum(n, a), share(n)), one()))
        }
    }
}

/// Of an operator with operands of these shapes and weights.
fn two_operands(op: Op2, left: &[u8], right: &[u8], a: Weight, b: Weight) -> Weight
    requires left { HasDenominators a }
    requires right { HasDenominators b }
    ensures value { result ≡ two_operands kept op left.now right.now a b }
    ensures denominators { HasDenominators result }
{
    match op {
        Op2::Sum => plus(a, b),
        Op2::Product => if right.is_empty() {
            times(a, b)
        } else {
            dot(left, times(a, b))
        },
        Op2::Dot => dot(left, times(a, b)),
        Op2::Inner => over_shape(left, times(a, b)),
        Op2::Outer => times(a, b),
        Op2::Cross => plus(times(a, b), times(a, b)),
    }
}

/// Of the n-fold product.
fn power(a: Weight, n: u8) -> Weight
    requires { HasDenominators a }
    ensures value { result ≡ power_weight kept a n }
    ensures denominators { HasDenominators result }
{
    if n == 0 {
        return one();
    }
    let mut all = a;
    for _k in 1..n {
        all = times(all, a);
    }
    all
}

/// The weight of a tree.
#[cycle(weights)]
pub fn tree_weight(elements: &Elements, tree: &Tree) -> Weight
    ensures value { result ≡ weight_with kept (table_of elements.now) (typed_of tree.now) }
    ensures denominators { HasDenominators result }
{
    node_weight(elements, &tree.node)
}

/// Of what stands at a node, whatever the node says of its value.
#[tactic(auto, using(ufl_tree::proofs::ReadingLaws::readings, crate::proofs::TreeLaws::kind_of_tree))]
#[cycle(weights)]
fn node_weight(elements: &Elements, node: &Node) -> Weight
    ensures value { (k : Kind) → result ≡ weight_with kept (table_of elements.now) (typed_of (tree_with node.now k)) }
    ensures denominators { HasDenominators result }
{
    match node {
        Node::Number(c) => number(*c),
        Node::Identity(_) => one(),
        Node::Fun(f) => function(elements, *f),
        Node::Piece { f, .. } => function(elements, *f),
        Node::One(op, a) => {
            let a = a.get();
            one_operand(
                *op,
                a.shape.as_slice(),
                directions(a.cell),
                tree_weight(elements, a),
            )
        }
        Node::Two(op, a, b) => {
            let (a, b) = (a.get(), b.get());
            pair_weight(
                *op,
                a,
                b,
                tree_weight(elements, a),
                tree_weight(elements, b),
            )
        }
        Node::Power(a, n) => power(tree_weight(elements, a.get()), *n),
        Node::Index(a, at) => {
            let a = a.get();
            over_free_and_places(
                a.free.as_slice(),
                at.as_slice(),
                a.shape.as_slice(),
                tree_weight(elements, a),
            )
        }
        Node::Partial(a, at) => partial_weight(a.get(), *at, tree_weight(elements, a.get())),
        Node::Tensor(a, _) => tree_weight(elements, a.get()),
        Node::List(items) => list_weight(elements, items.as_slice()),
        Node::Variable(_, a) => {
            let a = a.get();
            label(a.shape.len(), tree_weight(elements, a))
        }
        Node::Diff { body, .. } => linear(tree_weight(elements, body.get())),
    }
}

/// Of an operator with these two operands and their weights; an index of both factors of a product is summed.
fn pair_weight(op: Op2, a: &Tree, b: &Tree, left: Weight, right: Weight) -> Weight
    requires left { HasDenominators left }
    requires right { HasDenominators right }
    ensures value { result ≡ names_weight kept (summed op a.now.free b.now.free) (two_operands kept op a.now.shape b.now.shape left right) }
    ensures denominators { HasDenominators result }
{
    let both = two_operands(op, a.shape.as_slice(), b.shape.as_slice(), left, right);
    match op {
        Op2::Product => over_common(a.free.as_slice(), b.free.as_slice(), both),
        Op2::Sum | Op2::Dot | Op2::Inner | Op2::Outer | Op2::Cross => both,
    }
}

/// Of the derivative in this direction of an operand with this weight.
fn partial_weight(a: &Tree, at: Ix, w: Weight) -> Weight
    requires { HasDenominators w }
    ensures value { result ≡ names_weight kept (repeated (a.now.free ++ direction at a.now.cell)) (space_weight kept (directions a.now.cell) w) }
    ensures denominators { HasDenominators result }
{
    let size = a.cell.map_or(0, |c| c.dim());
    over_free_and_places(
        a.free.as_slice(),
        &[at],
        &[size],
        space(directions(a.cell), w),
    )
}

/// Of a list: whichever item is taken.
#[cycle(weights)]
fn list_weight(elements: &Elements, trees: &[Tree]) -> Weight
    ensures value { result ≡ list_weight kept (table_of elements.now) (typed_list (map typed_of trees.now)) }
    ensures denominators { HasDenominators result }
{
    let Some((last, front)) = trees.split_last() else {
        return one();
    };
    let mut all = tree_weight(elements, last);
    for k in 0..front.len() {
        all = join(tree_weight(elements, &front[front.len() - 1 - k]), all);
    }
    all
}
