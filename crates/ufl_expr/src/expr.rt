//! Expressions and their builders.

ghost use Rattle.std.specs.Prelude.{◌≡◌, ◌≤◌, IfOk, Ok, length, map};
ghost use Rattle.ufl_tree.specs.Reading.{typed_of, typed_list, kind_of, tree_with};
ghost use Rattle.ufl_tree.specs.Places.{table_of};
ghost use Rattle.ufl_expr.specs.Answer.{Gives};
ghost use Rattle.ufl_expr.specs.Sizes.{nodes_of, height_of};
ghost use Rattle.ufl_expr.specs.Table.{IsTyped, plain_kind, identity_kind, one_kind, two_kind, power_kind, index_kind, partial_kind, tensor_kind, variable_kind, has_argument, label_of, list_kind};
ghost use Rattle.ufl_expr.specs.Elements.{position_space, number_of, function_in, piece_in};
ghost use Rattle.ufl_expr.specs.Extent.{IsExtent};
ghost use Rattle.ufl_expr.specs.Signatures.{kind_in};
ghost use Rattle.ufl_expr.specs.Building.{built, diff_by, positioned};

use crate::arguments::label_of;
use crate::elements::Elements;
use crate::functions::function_signature;
use crate::lists::list_signature;
use crate::pieces::piece_signature;
use crate::refusal::TypeRefusal;
use crate::signature::{
    Signature, diff_signature, identity_signature, index_signature, one_signature,
    partial_signature, power_signature, tensor_signature, two_signature, variable_signature,
};
use ratio::Ratio;
use spaces::Cell;
use sqlite_items::{Boxed, Items};
use std::alloc::{AllocError, Global};
use std::marker::Model;
use ufl_tree::{Free, Function, Ix, Node, Op1, Op2, Role, Tree};

/// Most nodes of an expression or a form.
pub const MOST_NODES: u32 = 10_000;

/// Greatest height of an expression or a form; a leaf is 1 high.
pub const MOST_HEIGHT: u32 = 128;

/// A typed tree whose nodes all obey the typing table, with at most 10,000 of them and a height of at most 128.
#[derive(Drop)]
pub struct Expr {
    tree: Tree,
    nodes: u32,
    height: u32,
}

impl Model for Expr {
    ghost use Rattle.ufl_tree.specs.declared.tree.Tree.{Tree};

    ghost Value = { Tree };

    ghost use Rattle.ufl_tree.specs.contracts.tree.Tree as t;
    ghost use Rattle.std.specs.Coded.{codes};

    ghost coded = { Prim.hlevel (codes, t.the_row.coded) };

    ghost use Rattle.ufl_expr.specs.Invariant.{IsSound};

    ghost view = { λ e. e.tree };

    ghost invariant = { IsSound };
}

/// The tree of a node and its signature, unless it is too large.
#[tactic(auto, unfolding(crate::specs::Building::built, crate::specs::Building::fits))]
fn finish(node: Node, signature: Signature, nodes: u32, height: u32) -> Result<Expr, TypeRefusal>
    requires typed { IsTyped (typed_of (tree_with node (kind_in signature))) }
    requires count { nodes ≡ nodes_of (typed_of (tree_with node (kind_in signature))) }
    requires depth { height ≡ height_of (typed_of (tree_with node (kind_in signature))) }
    ensures { result ≡ built (Ok (kind_in signature)) node }
{
    if nodes > MOST_NODES || height > MOST_HEIGHT {
        return Err(TypeRefusal::Nodes);
    }
    let Signature { shape, free, cell } = signature;
    let tree = Tree {
        node,
        shape,
        free,
        cell,
    };
    Ok(Expr {
        tree,
        nodes,
        height,
    })
}

/// The nodes of several trees together, and the height of the highest.
struct Extent {
    nodes: u32,
    height: u32,
}

/// The extent of the trees of the items.
fn extent_of(items: &[Expr]) -> Extent
    requires { length items.now ≤ 255 }
    ensures extent { IsExtent (typed_list (map typed_of items.now)) result.nodes result.height }
    ensures few { result.nodes ≤ 2550000 }
    ensures flat { result.height ≤ 128 }
{
    let mut nodes: u32 = 0;
    let mut height: u32 = 0;
    for item in items {
        nodes += item.nodes;
        height = height.max(item.height);
    }
    Extent { nodes, height }
}

/// The trees of the items.
fn trees(alloc: Global, items: Vec<Expr>) -> Result<Items<Tree>, AllocError>
    ensures { IfOk result (λ trees. trees ≡ items.items) }
{
    let mut all = Items::new(alloc);
    for item in items {
        let Expr { tree, .. } = item;
        all.push(tree)?;
    }
    Ok(all)
}

impl Expr {
    /// The tree.
    pub fn tree(&self) -> &Tree
        ensures same { result.now ≡ self.now }
        ensures typed { IsTyped (typed_of self.now) }
        ensures few { nodes_of (typed_of self.now) ≤ 10000 }
        ensures flat { height_of (typed_of self.now) ≤ 128 }
    {
        &self.tree
    }

    /// The sizes of the value's indices: none for a scalar, two for a matrix.
    pub fn shape(&self) -> &[u8]
        ensures { result.now ≡ self.now.shape }
    {
        self.tree.shape.as_slice()
    }

    /// The free indices, by rising number.
    pub fn free(&self) -> &[Free]
        ensures { result.now ≡ self.now.free }
    {
        self.tree.free.as_slice()
    }

    /// The cell of the functions that occur.
    pub fn cell(&self) -> Option<Cell>
        ensures { result ≡ self.now.cell }
    {
        self.tree.cell
    }

    /// What stands at the root.
    pub fn node(&self) -> &Node
        ensures { result.now ≡ self.now.node }
    {
        &self.tree.node
    }

    /// How many nodes the tree has, from 1 to 10,000.
    pub fn nodes(&self) -> u32
        ensures count { result ≡ nodes_of (typed_of self.now) }
        ensures few { result ≤ 10000 }
    {
        self.nodes
    }

    /// The height of the tree, from 1 to 128.
    pub fn height(&self) -> u32
        ensures depth { result ≡ height_of (typed_of self.now) }
        ensures flat { result ≤ 128 }
    {
        self.height
    }

    /// An equal expression.
    pub fn copy(&self, alloc: Global) -> Result<Expr, AllocError>
        ensures { IfOk result (λ e. e ≡ self.now) }
    {
        Ok(Expr {
            tree: self.tree.copy(alloc)?,
            nodes: self.nodes,
            height: self.height,
        })
    }

    /// A number, which is a scalar.
    pub fn number(alloc: Global, c: Ratio) -> Result<Expr, TypeRefusal>
        ensures { Gives result (built (Ok plain_kind) (Node.Number c)) }
    {
        let signature = Signature {
            shape: Items::new(alloc),
            free: Items::new(alloc),
            cell: None,
        };
        finish(Node::Number(c), signature, 1, 1)
    }

    /// The identity matrix of n rows. `Kind` exactly where n isn't 1 to 64.
    pub fn identity(alloc: Global, n: u8) -> Result<Expr, TypeRefusal>
        ensures { Gives result (built (identity_kind n) (Node.Identity n)) }
    {
        let signature = identity_signature(alloc, n)?;
        finish(Node::Identity(n), signature, 1, 1)
    }

    /// A function of an element in the table, with its shape and cell. `Kind` exactly where there is no such element, or f is a position
    /// whose element isn't that of `position`.
    pub fn function(alloc: Global, f: Function, elements: &Elements) -> Result<Expr, TypeRefusal>
        ensures { Gives result (built (function_in (table_of elements.now) f) (Node.Fun f)) }
    {
        let signature = function_signature(alloc, f, elements)?;
        finish(Node::Fun(f), signature, 1, 1)
    }

    /// The position in a cell, a vector of the cell's dimension. `Kind` exactly where its element, the Lagrange vector element of degree 1 on
    /// the cell, isn't in the table.
    pub fn position(alloc: Global, cell: Cell, elements: &Elements) -> Result<Expr, TypeRefusal>
        ensures { Gives result (positioned cell (number_of (position_space cell) (table_of elements.now))) }
    {
        let Some(element) = elements.position(cell) else {
            return Err(TypeRefusal::Kind);
        };
        let f = Function {
            role: Role::Position,
            element,
        };
        Expr::function(alloc, f, elements)
    }

    /// The sub-element `which` of a function of a mixed element in the table, with its shape and cell. `Kind` exactly where there is none.
    pub fn piece(
        alloc: Global,
        f: Function,
        elements: &Elements,
        which: u8,
    ) -> Result<Expr, TypeRefusal>
        ensures { Gives result (built (piece_in (table_of elements.now) f which) (Node.Piece f which)) }
    {
        let signature = piece_signature(alloc, f, elements, which)?;
        finish(Node::Piece { f, which }, signature, 1, 1)
    }

    /// An operator of one operand. A derivative is refused as `Kind` exactly where no function occurs; an operator is refused as `Shape`
    /// exactly where it takes no operand of this shape.
    pub fn one(alloc: Global, op: Op1, a: Expr) -> Result<Expr, TypeRefusal>
        ensures { Gives result (built (one_kind op (kind_of a)) (Node.One op a)) }
    {
        let Expr {
            tree,
            nodes,
            height,
        } = a;
        let signature = one_signature(alloc, op, &tree)?;
        let node = Node::One(op, Boxed::new(alloc, tree)?);
        finish(node, signature, nodes + 1, height + 1)
    }

    /// An operator of two operands. `Kind` exactly where they are on two cells, then `Shape` exactly where their shapes don't go together, then
    /// `FreeIndex` exactly where their free indices don't.
    pub fn two(alloc: Global, op: Op2, a: Expr, b: Expr) -> Result<Expr, TypeRefusal>
        ensures { Gives result (built (two_kind op (kind_of a) (kind_of b)) (Node.Two op a b)) }
    {
        let Expr {
            tree: left,
            nodes: m,
            height: h,
        } = a;
        let Expr {
            tree: right,
            nodes: n,
            height: k,
        } = b;
        let signature = two_signature(alloc, op, &left, &right)?;
        let node = Node::Two(op, Boxed::new(alloc, left)?, Boxed::new(alloc, right)?);
        finish(node, signature, m + n + 1, h.max(k) + 1)
    }

    /// A power of a scalar, else `Shape`, without free indices, else `FreeIndex`.
    pub fn power(alloc: Global, a: Expr, n: u8) -> Result<Expr, TypeRefusal>
        requires { n ≤ 127 }
        ensures { Gives result (built (power_kind (kind_of a)) (Node.Power a n)) }
    {
        let Expr {
            tree,
            nodes,
            height,
        } = a;
        let signature = power_signature(alloc, &tree)?;
        let node = Node::Power(Boxed::new(alloc, tree)?, n);
        finish(node, signature, nodes + 1, height + 1)
    }

    /// The component at these indices; an index that occurs twice, in the operand or here, is summed. `Shape` exactly where there are more
    /// indices than sizes or a number isn't below its size, then `FreeIndex` exactly where an index occurs more than twice or has two sizes.
    pub fn index(alloc: Global, a: Expr, at: &[Ix]) -> Result<Expr, TypeRefusal>
        ensures { Gives result (built (index_kind (kind_of a) at.now) (Node.Index a at.now)) }
    {
        let Expr {
            tree,
            nodes,
            height,
        } = a;
        let signature = index_signature(alloc, &tree, at)?;
        let node = Node::Index(Boxed::new(alloc, tree)?, Items::from_slice(alloc, at)?);
        finish(node, signature, nodes + 1, height + 1)
    }

    /// The derivative in this direction; an index that occurs in the operand too is summed. `Kind` exactly where no function occurs, then
    /// `Shape` exactly where a number isn't below the dimension, then `FreeIndex` exactly where the index has another size in the operand.
    pub fn partial(alloc: Global, a: Expr, at: Ix) -> Result<Expr, TypeRefusal>
        ensures { Gives result (built (partial_kind (kind_of a) at) (Node.Partial a at)) }
    {
        let Expr {
            tree,
            nodes,
            height,
        } = a;
        let signature = partial_signature(alloc, &tree, at)?;
        let node = Node::Partial(Boxed::new(alloc, tree)?, at);
        finish(node, signature, nodes + 1, height + 1)
    }

    /// The tensor whose components are the values of a scalar, else `Shape`, at the values of distinct free indices of it, else `FreeIndex`.
    pub fn tensor(alloc: Global, a: Expr, by: &[u16]) -> Result<Expr, TypeRefusal>
        ensures { Gives result (built (tensor_kind (kind_of a) by.now) (Node.Tensor a by.now)) }
    {
        let Expr {
            tree,
            nodes,
            height,
        } = a;
        let signature = tensor_signature(alloc, &tree, by)?;
        let node = Node::Tensor(Boxed::new(alloc, tree)?, Items::from_slice(alloc, by)?);
        finish(node, signature, nodes + 1, height + 1)
    }

    /// The operand under this label. `Kind` exactly where an argument occurs, then `FreeIndex` exactly where an index is free.
    pub fn variable(alloc: Global, label: u32, a: Expr) -> Result<Expr, TypeRefusal>
        ensures { Gives result (built (variable_kind (has_argument (typed_of a)) (kind_of a)) (Node.Variable label a)) }
    {
        let Expr {
            tree,
            nodes,
            height,
        } = a;
        let signature = variable_signature(alloc, &tree)?;
        let node = Node::Variable(label, Boxed::new(alloc, tree)?);
        finish(node, signature, nodes + 1, height + 1)
    }

    /// The derivative of f by the variable v. `Kind` exactly where v is none, or stands on another cell than f.
    pub fn diff(alloc: Global, f: Expr, v: &Expr) -> Result<Expr, TypeRefusal>
        ensures { Gives result (diff_by (label_of (typed_of v.now)) f v.now) }
    {
        let Expr {
            tree,
            nodes,
            height,
        } = f;
        let variable = v.tree();
        let label = label_of(variable)?;
        let signature = diff_signature(alloc, &tree, variable)?;
        let by = Items::from_slice(alloc, variable.shape.as_slice())?;
        let body = Boxed::new(alloc, tree)?;
        finish(
            Node::Diff { label, by, body },
            signature,
            nodes + 1,
            height + 1,
        )
    }

    /// The items, one after the other under a new first index. `Kind` exactly where two items are on different cells, then `Shape` exactly
    /// where there is none or more than 255 or two have different shapes, then `FreeIndex` exactly where two have different free indices.
    pub fn list(alloc: Global, items: Vec<Expr>) -> Result<Expr, TypeRefusal>
        ensures { Gives result (built (list_kind (map kind_of items.items)) (Node.List items.items)) }
    {
        let signature = list_signature(alloc, items.as_slice())?;
        let Extent { nodes, height } = extent_of(items.as_slice());
        let trees = trees(alloc, items)?;
        finish(Node::List(trees), signature, nodes + 1, height + 1)
    }
}
