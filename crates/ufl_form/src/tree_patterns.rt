//! The pattern set of an expression.

ghost use Rattle.std.specs.Prelude.{◌≡◌, map};
ghost use Rattle.ufl_tree.specs.Reading.{typed_of, typed_list, tree_with};
ghost use Rattle.ufl_tree.specs.Typed.{Kind};
ghost use Rattle.ufl_form.specs.Patterns.{no_pairs, both, tree_patterns, patterns_behind};

use crate::pattern_set::PatternSet;
use ufl_tree::{Node, Op2, Tree};

/// Of a sum both sets, of a product the sums of their pairs.
fn both(op: Op2, a: PatternSet, b: PatternSet) -> PatternSet
    ensures { result ≡ both op a b }
{
    match op {
        Op2::Sum => a.united(b),
        Op2::Product | Op2::Dot | Op2::Inner | Op2::Outer | Op2::Cross => a.product(b),
    }
}

/// The pattern set of a tree.
#[cycle(sets)]
pub(crate) fn tree_patterns(tree: &Tree) -> PatternSet
    ensures { result ≡ tree_patterns (typed_of tree.now) }
{
    node_patterns(&tree.node)
}

/// Of what stands at a node, whatever the node says of its value.
#[tactic(auto, using(ufl_tree::proofs::ReadingLaws::readings))]
#[cycle(sets)]
fn node_patterns(node: &Node) -> PatternSet
    ensures { (k : Kind) → result ≡ tree_patterns (typed_of (tree_with node.now k)) }
{
    match node {
        Node::Number(_) | Node::Identity(_) => PatternSet::unit(),
        Node::Fun(f) => PatternSet::of_role(f.role),
        Node::Piece { f, .. } => PatternSet::of_role(f.role),
        Node::One(_, a) => tree_patterns(a.get()),
        Node::Two(op, a, b) => both(*op, tree_patterns(a.get()), tree_patterns(b.get())),
        Node::Power(a, n) => tree_patterns(a.get()).raised(*n),
        Node::Index(a, _) => tree_patterns(a.get()),
        Node::Partial(a, _) => tree_patterns(a.get()),
        Node::Tensor(a, _) => tree_patterns(a.get()),
        Node::List(items) => patterns_of_all(items.as_slice()),
        Node::Variable(_, a) => tree_patterns(a.get()),
        Node::Diff { body, .. } => tree_patterns(body.get()),
    }
}

/// The sets of all trees, united.
#[cycle(sets)]
fn patterns_of_all(trees: &[Tree]) -> PatternSet
    ensures { result ≡ patterns_behind no_pairs (typed_list (map typed_of trees.now)) }
{
    let mut all = PatternSet::none();
    for tree in trees {
        all = all.united(tree_patterns(tree));
    }
    all
}
