//! Expressions as plain data: any tree can be written.

use crate::function::{Free, Function, Ix};
use ratio::Ratio;
use spaces::Cell;
use sqlite_items::{Boxed, Items};

/// Operators of one operand.
#[derive(Clone, Copy, Debug, PartialEq, Eq)]
pub enum Op1 {
    Neg,
    /// The derivatives, with the direction as the last index.
    Grad,
    /// The derivatives, with the direction as the first index.
    NablaGrad,
    /// The divergence over the last index.
    Div,
    /// The divergence over the first index.
    NablaDiv,
    /// The rotation: of a vector in space, of a vector or a scalar in the plane.
    Curl,
    Transpose,
    Trace,
    /// The symmetric part of a square matrix.
    Sym,
    /// The skew part of a square matrix.
    Skew,
    /// A square matrix less its part along the identity.
    Dev,
}

/// Operators of two operands.
#[derive(Clone, Copy, Debug, PartialEq, Eq)]
pub enum Op2 {
    Sum,
    /// A scalar with anything, a matrix with a vector, or two matrices; an index of both is summed.
    Product,
    /// One index summed: the last of the first operand with the first of the second.
    Dot,
    /// All indices summed.
    Inner,
    /// No index summed.
    Outer,
    /// The cross product in space.
    Cross,
}

/// A node with what it says of its value.
#[cycle(trees)]
#[derive(Drop)]
pub struct Tree {
    pub node: Node,
    /// The sizes of the value's indices: none for a scalar, two for a matrix.
    pub shape: Items<u8>,
    /// The free indices, by rising number.
    pub free: Items<Free>,
    /// The cell of the functions that occur.
    pub cell: Option<Cell>,
}

/// What stands at a node of a tree.
#[cycle(trees)]
#[derive(Drop)]
pub enum Node {
    Number(Ratio),
    /// The identity matrix of this size.
    Identity(u8),
    Fun(Function),
    /// The sub-element `which` of a function of a mixed element.
    Piece {
        f: Function,
        which: u8,
    },
    One(Op1, Boxed<Tree>),
    Two(Op2, Boxed<Tree>, Boxed<Tree>),
    Power(Boxed<Tree>, u8),
    /// The component at these indices; an index that occurs twice is summed.
    Index(Boxed<Tree>, Items<Ix>),
    /// The derivative in this direction; an index that occurs twice is summed.
    Partial(Boxed<Tree>, Ix),
    /// The tensor whose component is the scalar at these values of the named indices.
    Tensor(Boxed<Tree>, Items<u16>),
    List(Items<Tree>),
    /// The operand under this label.
    Variable(u32, Boxed<Tree>),
    /// The derivative of `body` by the variable of this label, whose shape is `by`.
    Diff {
        label: u32,
        by: Items<u8>,
        body: Boxed<Tree>,
    },
}
