//! Arguments and labels in trees.

ghost use Rattle.std.specs.Prelude.{◌≡◌, map};
ghost use Rattle.ufl_tree.specs.Reading.{typed_of, typed_list, tree_with};
ghost use Rattle.ufl_tree.specs.Typed.{Kind};
ghost use Rattle.ufl_expr.specs.Table.{is_argument, has_argument, have_argument, label_of};

use crate::refusal::TypeRefusal;
use ufl_tree::{Node, Role, Tree};

/// A test or a trial function.
fn is_argument(role: Role) -> bool
    ensures { result ≡ is_argument role }
{
    match role {
        Role::Test | Role::Trial => true,
        Role::Position | Role::Coefficient(_) => false,
    }
}

/// An argument occurs in the tree.
#[cycle(arguments)]
pub(crate) fn has_argument(tree: &Tree) -> bool
    ensures { result ≡ has_argument (typed_of tree.now) }
{
    node_argument(&tree.node)
}

/// An argument occurs in what stands at a node, whatever the node says of its value.
#[tactic(auto, using(ufl_tree::proofs::ReadingLaws::readings))]
#[cycle(arguments)]
fn node_argument(node: &Node) -> bool
    ensures { (k : Kind) → result ≡ has_argument (typed_of (tree_with node.now k)) }
{
    match node {
        Node::Number(_) | Node::Identity(_) => false,
        Node::Fun(f) => is_argument(f.role),
        Node::Piece { f, .. } => is_argument(f.role),
        Node::One(_, a) => has_argument(a.get()),
        Node::Two(_, a, b) => has_argument(a.get()) || has_argument(b.get()),
        Node::Power(a, _) => has_argument(a.get()),
        Node::Index(a, _) => has_argument(a.get()),
        Node::Partial(a, _) => has_argument(a.get()),
        Node::Tensor(a, _) => has_argument(a.get()),
        Node::List(items) => have_argument(items.as_slice()),
        Node::Variable(_, a) => has_argument(a.get()),
        Node::Diff { body, .. } => has_argument(body.get()),
    }
}

/// An argument occurs in one of the trees.
#[cycle(arguments)]
fn have_argument(trees: &[Tree]) -> bool
    ensures { result ≡ have_argument (typed_list (map typed_of trees.now)) }
{
    for tree in trees {
        if has_argument(tree) {
            return true;
        }
    }
    false
}

/// The label of a variable. `Kind` exactly where the tree is none.
pub(crate) fn label_of(tree: &Tree) -> Result<u32, TypeRefusal>
    ensures { result ≡ label_of (typed_of tree.now) }
{
    node_label(&tree.node)
}

#[tactic(auto, using(ufl_tree::proofs::ReadingLaws::readings))]
fn node_label(node: &Node) -> Result<u32, TypeRefusal>
    ensures { (k : Kind) → result ≡ label_of (typed_of (tree_with node.now k)) }
{
    match node {
        Node::Variable(label, _) => Ok(*label),
        Node::Number(_) | Node::Identity(_) | Node::Fun(_) | Node::Piece { .. } => Err(
            TypeRefusal::Kind,
        ),
        Node::One(_, _) | Node::Two(_, _, _) | Node::Power(_, _) => Err(TypeRefusal::Kind),
        Node::Index(_, _) | Node::Partial(_, _) | Node::Tensor(_, _) => Err(TypeRefusal::Kind),
        Node::List(_) | Node::Diff { .. } => Err(TypeRefusal::Kind),
    }
}
