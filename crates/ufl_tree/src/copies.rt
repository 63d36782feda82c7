//! Equal copies of trees.

ghost use Rattle.std.specs.Prelude.{◌≡◌, IfOk};

use crate::function::{Free, Ix};
use crate::plain::Plain;
use crate::tree::{Node, Tree};
use sqlite_items::{Boxed, Items};
use std::alloc::{AllocError, Global};

/// The same sizes.
pub fn copy_sizes(alloc: Global, sizes: &Items<u8>) -> Result<Items<u8>, AllocError>
    ensures { IfOk result (λ r. r ≡ sizes.now) }
{
    Items::from_slice(alloc, sizes.as_slice())
}

/// The same names.
pub fn copy_names(alloc: Global, names: &Items<u16>) -> Result<Items<u16>, AllocError>
    ensures { IfOk result (λ r. r ≡ names.now) }
{
    Items::from_slice(alloc, names.as_slice())
}

/// The same free indices.
pub fn copy_frees(alloc: Global, free: &Items<Free>) -> Result<Items<Free>, AllocError>
    ensures { IfOk result (λ r. r ≡ free.now) }
{
    Items::from_slice(alloc, free.as_slice())
}

/// The same indices.
pub fn copy_indices(alloc: Global, at: &Items<Ix>) -> Result<Items<Ix>, AllocError>
    ensures { IfOk result (λ r. r ≡ at.now) }
{
    Items::from_slice(alloc, at.as_slice())
}

impl Tree {
    /// An equal tree.
    pub fn copy(&self, alloc: Global) -> Result<Tree, AllocError>
        ensures { IfOk result (λ t. t ≡ self.now) }
    {
        copy_tree(alloc, self)
    }
}

#[cycle(copies)]
fn copy_tree(alloc: Global, tree: &Tree) -> Result<Tree, AllocError>
    ensures { IfOk result (λ r. r ≡ tree.now) }
{
    let node = copy_node(alloc, &tree.node)?;
    let shape = copy_sizes(alloc, &tree.shape)?;
    let free = copy_frees(alloc, &tree.free)?;
    Ok(Tree {
        node,
        shape,
        free,
        cell: tree.cell,
    })
}

#[cycle(copies)]
fn copy_node(alloc: Global, node: &Node) -> Result<Node, AllocError>
    ensures { IfOk result (λ r. r ≡ node.now) }
{
    match node {
        Node::Number(c) => Ok(Node::Number(*c)),
        Node::Identity(n) => Ok(Node::Identity(*n)),
        Node::Fun(f) => Ok(Node::Fun(*f)),
        Node::Piece { f, which } => Ok(Node::Piece {
            f: *f,
            which: *which,
        }),
        Node::One(op, a) => Ok(Node::One(*op, copy_part(alloc, a)?)),
        Node::Two(op, a, b) => Ok(Node::Two(*op, copy_part(alloc, a)?, copy_part(alloc, b)?)),
        Node::Power(a, n) => Ok(Node::Power(copy_part(alloc, a)?, *n)),
        Node::Index(a, at) => Ok(Node::Index(copy_part(alloc, a)?, copy_indices(alloc, at)?)),
        Node::Partial(a, i) => Ok(Node::Partial(copy_part(alloc, a)?, *i)),
        Node::Tensor(a, by) => Ok(Node::Tensor(copy_part(alloc, a)?, copy_names(alloc, by)?)),
        Node::List(items) => Ok(Node::List(copy_list(alloc, items.as_slice())?)),
        Node::Variable(label, a) => Ok(Node::Variable(*label, copy_part(alloc, a)?)),
        Node::Diff { label, by, body } => Ok(Node::Diff {
            label: *label,
            by: copy_sizes(alloc, by)?,
            body: copy_part(alloc, body)?,
        }),
    }
}

#[cycle(copies)]
fn copy_part(alloc: Global, tree: &Boxed<Tree>) -> Result<Boxed<Tree>, AllocError>
    ensures { IfOk result (λ r. r ≡ tree.now) }
{
    Boxed::new(alloc, copy_tree(alloc, tree.get())?)
}

#[cycle(copies)]
fn copy_list(alloc: Global, items: &[Tree]) -> Result<Items<Tree>, AllocError>
    ensures { IfOk result (λ r. r ≡ items.now) }
{
    let mut all = Items::new(alloc);
    for tree in items {
        all.push(copy_tree(alloc, tree)?)?;
    }
    Ok(all)
}

/// An equal tree.
#[cycle(plains)]
pub fn copy_plain(alloc: Global, e: &Plain) -> Result<Plain, AllocError>
    ensures { IfOk result (λ r. r ≡ e.now) }
{
    match e {
        Plain::Num(c) => Ok(Plain::Num(*c)),
        Plain::Fun { f, at } => Ok(Plain::Fun {
            f: *f,
            at: copy_indices(alloc, at)?,
        }),
        Plain::Mark { label, at, body } => Ok(Plain::Mark {
            label: *label,
            at: copy_indices(alloc, at)?,
            body: copy_boxed(alloc, body)?,
        }),
        Plain::Neg(a) => Ok(Plain::Neg(copy_boxed(alloc, a)?)),
        Plain::Sum(a, b) => Ok(Plain::Sum(copy_boxed(alloc, a)?, copy_boxed(alloc, b)?)),
        Plain::Prod(a, b) => Ok(Plain::Prod(copy_boxed(alloc, a)?, copy_boxed(alloc, b)?)),
        Plain::Over { index, dim, body } => Ok(Plain::Over {
            index: *index,
            dim: *dim,
            body: copy_boxed(alloc, body)?,
        }),
        Plain::Dx { at, body } => Ok(Plain::Dx {
            at: *at,
            body: copy_boxed(alloc, body)?,
        }),
        Plain::Delta(i, j) => Ok(Plain::Delta(*i, *j)),
        Plain::Pick { at, items } => Ok(Plain::Pick {
            at: *at,
            items: copy_items(alloc, items.as_slice())?,
        }),
        Plain::Raise { label, at, body } => Ok(Plain::Raise {
            label: *label,
            at: copy_indices(alloc, at)?,
            body: copy_boxed(alloc, body)?,
        }),
        Plain::Turn { coef, dir, body } => Ok(Plain::Turn {
            coef: *coef,
            dir: *dir,
            body: copy_boxed(alloc, body)?,
        }),
    }
}

#[cycle(plains)]
fn copy_boxed(alloc: Global, e: &Boxed<Plain>) -> Result<Boxed<Plain>, AllocError>
    ensures { IfOk result (λ r. r ≡ e.now) }
{
    Boxed::new(alloc, copy_plain(alloc, e.get())?)
}

#[cycle(plains)]
fn copy_items(alloc: Global, items: &[Plain]) -> Result<Items<Plain>, AllocError>
    ensures { IfOk result (λ r. r ≡ items.now) }
{
    let mut all = Items::new(alloc);
    for e in items {
        all.push(copy_plain(alloc, e)?)?;
    }
    Ok(all)
}

#[cfg(test)]
mod tests {
    use super::*;
    use crate::tree::Op1;
    use ratio::Ratio;

    #[test]
    fn equal_copies(rt: HostRuntime) -> Result<(), AllocError> {
        let alloc = rt.alloc();
        let one = Tree {
            node: Node::Number(Ratio::one()),
            shape: Items::new(alloc),
            free: Items::new(alloc),
            cell: None,
        };
        let negative = Tree {
            node: Node::One(Op1::Neg, Boxed::new(alloc, one)?),
            shape: Items::new(alloc),
            free: Items::new(alloc),
            cell: None,
        };
        let copied = negative.copy(alloc)?;
        assert!(rt;
            matches!(&copied.node, Node::One(Op1::Neg, a) if matches!(a.get().node, Node::Number(_)))
        );
        let plain = Plain::Neg(Boxed::new(alloc, Plain::Delta(Ix::Fixed(1), Ix::Named(2)))?);
        let copied = plain.copy(alloc)?;
        assert!(rt;
            matches!(&copied, Plain::Neg(a) if matches!(a.get(), Plain::Delta(Ix::Fixed(1), Ix::Named(2))))
        );
        Ok(())
    }
}
