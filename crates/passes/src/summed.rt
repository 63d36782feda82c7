//! The indices that a node sums.

ghost use Rattle.std.specs.Prelude.{◌≡◌, ◌≤◌, ◌++◌, IfOk, length};
ghost use Rattle.ufl_tree.specs.Indices as spec;
ghost use Rattle.ufl_tree.specs.Reading.{typed_of};
ghost use Rattle.monos.specs.Summed.{summed as summed_by};
ghost use Rattle.passes.specs.Component.{summed_at};

use spaces::Cell;
use sqlite_items::Items;
use std::alloc::{AllocError, Global};
use ufl_tree::{Free, Ix, Node, Op2, Tree};

fn count(index: u16, free: &[Free]) -> usize
    ensures is { result ≡ spec.count_of index free.now }
    ensures few { result ≤ length free.now }
{
    let Some((first, rest)) = free.split_first() else {
        return 0;
    };
    let more = count(index, rest);
    if first.index == index { more + 1 } else { more }
}

fn repeated(alloc: Global, free: &[Free]) -> Result<Items<Free>, AllocError>
    ensures { IfOk result (λ r. r ≡ spec.repeated free.now) }
{
    let mut all = Items::new(alloc);
    let Some((first, rest)) = free.split_first() else {
        return Ok(all);
    };
    let more = repeated(alloc, rest)?;
    if count(first.index, rest) != 1 {
        return Ok(more);
    }
    all.push(*first)?;
    all.append(more)?;
    Ok(all)
}

fn named(alloc: Global, at: &[Ix], shape: &[u8]) -> Result<Items<Free>, AllocError>
    ensures { IfOk result (λ r. r ≡ spec.named at.now shape.now) }
{
    let mut all = Items::new(alloc);
    let Some((first, at)) = at.split_first() else {
        return Ok(all);
    };
    let Some((dim, shape)) = shape.split_first() else {
        return Ok(all);
    };
    let more = named(alloc, at, shape)?;
    match first {
        Ix::Fixed(_) => Ok(more),
        Ix::Named(i) => {
            all.push(Free {
                index: *i,
                dim: *dim,
            })?;
            all.append(more)?;
            Ok(all)
        }
    }
}

fn cell_size(cell: Option<Cell>) -> u8
    ensures { result ≡ spec.cell_size cell }
{
    match cell {
        Some(c) => c.dim(),
        None => 0,
    }
}

fn joined(alloc: Global, xs: &[Free], ys: Items<Free>) -> Result<Items<Free>, AllocError>
    ensures { IfOk result (λ r. r ≡ spec.repeated (xs.now ++ ys)) }
{
    let mut all = Items::from_slice(alloc, xs)?;
    all.append(ys)?;
    repeated(alloc, all.as_slice())
}

/// The indices that an operator sums.
fn of_operator(
    alloc: Global,
    op: Op2,
    left: &[Free],
    right: &[Free],
) -> Result<Items<Free>, AllocError>
    ensures { IfOk result (λ r. r ≡ summed_by op left.now right.now) }
{
    match op {
        Op2::Product => joined(alloc, left, Items::from_slice(alloc, right)?),
        Op2::Sum => Ok(Items::new(alloc)),
        Op2::Dot => Ok(Items::new(alloc)),
        Op2::Inner => Ok(Items::new(alloc)),
        Op2::Outer => Ok(Items::new(alloc)),
        Op2::Cross => Ok(Items::new(alloc)),
    }
}

/// The indices that occur twice at a product, at an index or at a derivative.
pub fn summed(alloc: Global, tree: &Tree) -> Result<Items<Free>, AllocError>
    ensures { IfOk result (λ r. r ≡ summed_at (typed_of tree.now)) }
{
    match &tree.node {
        Node::Two(op, a, b) => {
            let (a, b) = (a.get(), b.get());
            of_operator(alloc, *op, a.free.as_slice(), b.free.as_slice())
        }
        Node::Index(a, at) => {
            let a = a.get();
            let right = named(alloc, at.as_slice(), a.shape.as_slice())?;
            joined(alloc, a.free.as_slice(), right)
        }
        Node::Partial(a, i) => {
            let a = a.get();
            let right = named(alloc, &[*i], &[cell_size(a.cell)])?;
            joined(alloc, a.free.as_slice(), right)
        }
        Node::Number(_) => Ok(Items::new(alloc)),
        Node::Identity(_) => Ok(Items::new(alloc)),
        Node::Fun(_) => Ok(Items::new(alloc)),
        Node::Piece { .. } => Ok(Items::new(alloc)),
        Node::One(_, _) => Ok(Items::new(alloc)),
        Node::Power(_, _) => Ok(Items::new(alloc)),
        Node::Tensor(_, _) => Ok(Items::new(alloc)),
        Node::List(_) => Ok(Items::new(alloc)),
        Node::Variable(_, _) => Ok(Items::new(alloc)),
        Node::Diff { .. } => Ok(Items::new(alloc)),
    }
}
