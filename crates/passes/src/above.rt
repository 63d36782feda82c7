//! The least number that is above all names of a tree.

ghost use Rattle.std.specs.Prelude.{◌≡◌, ◌≤◌, map};
ghost use Rattle.ufl_tree.specs.Reading.{typed_of, typed_list, tree_with};
ghost use Rattle.ufl_tree.specs.Typed.{Kind};
ghost use Rattle.lower.specs.Keeping.{above, all_above, names_above, all_names_above};

use ufl_tree::{Ix, Node, Tree};

/// The least number that is above the name of an index.
pub fn above(i: Ix) -> u32
    ensures { result ≡ above i }
{
    match i {
        Ix::Fixed(_) => 0,
        Ix::Named(name) => name as u32 + 1,
    }
}

/// The least number that is above all names among these indices.
pub fn all_above(at: &[Ix]) -> u32
    ensures { result ≡ all_above at.now }
{
    match at.split_first() {
        Some((first, rest)) => above(*first).max(all_above(rest)),
        None => 0,
    }
}

/// The least number that is above all names in index places of the tree.
#[cycle(names)]
pub fn names_above(tree: &Tree) -> u32
    ensures { result ≡ names_above (typed_of tree.now) }
{
    node_names(&tree.node)
}

/// Of what stands at a node, whatever the node says of its value.
#[tactic(auto, using(ufl_tree::proofs::ReadingLaws::readings))]
#[cycle(names)]
fn node_names(node: &Node) -> u32
    ensures { (k : Kind) → result ≡ names_above (typed_of (tree_with node.now k)) }
{
    match node {
        Node::Number(_) => 0,
        Node::Identity(_) => 0,
        Node::Fun(_) => 0,
        Node::Piece { .. } => 0,
        Node::One(_, a) => names_above(a.get()),
        Node::Two(_, a, b) => names_above(a.get()).max(names_above(b.get())),
        Node::Power(a, _) => names_above(a.get()),
        Node::Index(a, at) => names_above(a.get()).max(all_above(at.as_slice())),
        Node::Partial(a, i) => names_above(a.get()).max(above(*i)),
        Node::Tensor(a, _) => names_above(a.get()),
        Node::List(items) => list_names(items.as_slice()),
        Node::Variable(_, a) => names_above(a.get()),
        Node::Diff { body, .. } => names_above(body.get()),
    }
}

#[cycle(names)]
fn list_names(trees: &[Tree]) -> u32
    ensures { result ≡ all_names_above (typed_list (map typed_of trees.now)) }
{
    let mut most: u32 = 0;
    for tree in trees {
        most = most.max(names_above(tree));
    }
    most
}
