//! The walk over a form that marks its functions.

ghost use Rattle.std.specs.Prelude.{◌≡◌, map};
ghost use Rattle.ufl_tree.specs.Reading.{typed_of, typed_list, tree_with};
ghost use Rattle.ufl_tree.specs.Typed.{Kind};
ghost use Rattle.ufl_form.specs.Reading.{form_of};
ghost use Rattle.form_layouts.specs.Marks.{with_tree, with_trees, with_form};

use crate::marks::Marks;
use ufl_form::FormTree;
use ufl_tree::{Node, Tree};

/// Marks the functions of a tree.
#[cycle(trees)]
fn mark_tree(tree: &Tree, marks: &mut Marks)
    ensures { marks.new ≡ with_tree (typed_of tree.now) marks.old }
{
    mark_node(&tree.node, marks)
}

/// Marks those of what stands at a node, whatever the node says of its value.
#[tactic(auto, using(ufl_tree::proofs::ReadingLaws::readings, crate::proofs::MarkLaws::trees))]
#[cycle(trees)]
fn mark_node(node: &Node, marks: &mut Marks)
    ensures { (k : Kind) → marks.new ≡ with_tree (typed_of (tree_with node.now k)) marks.old }
{
    match node {
        Node::Number(_) | Node::Identity(_) => {}
        Node::Fun(f) => marks.add(f.role),
        Node::Piece { f, .. } => marks.add(f.role),
        Node::One(_, a) => mark_tree(a.get(), marks),
        Node::Two(_, a, b) => {
            mark_tree(a.get(), marks);
            mark_tree(b.get(), marks);
        }
        Node::Power(a, _) => mark_tree(a.get(), marks),
        Node::Index(a, _) => mark_tree(a.get(), marks),
        Node::Partial(a, _) => mark_tree(a.get(), marks),
        Node::Tensor(a, _) => mark_tree(a.get(), marks),
        Node::List(items) => mark_all(items.as_slice(), marks),
        Node::Variable(_, a) => mark_tree(a.get(), marks),
        Node::Diff { body, .. } => mark_tree(body.get(), marks),
    }
}

/// Marks those of all trees.
#[tactic(auto, using(crate::proofs::MarkLaws::trees))]
#[cycle(trees)]
fn mark_all(trees: &[Tree], marks: &mut Marks)
    ensures { marks.new ≡ with_trees (typed_list (map typed_of trees.now)) marks.old }
{
    for tree in trees {
        mark_tree(tree, marks);
    }
}

/// Marks the functions of a form: those of its integrands, those put in the place of an argument, and the directions
/// of its derivatives.
#[tactic(auto, using(ufl_form::proofs::FormReadings::form_readings, crate::proofs::MarkLaws::forms))]
pub(crate) fn mark_form(form: &FormTree, marks: &mut Marks)
    ensures { marks.new ≡ with_form (form_of form.now) marks.old }
{
    match form {
        FormTree::Integral { body, .. } => mark_tree(body.tree(), marks),
        FormTree::Sum(f, g) => {
            mark_form(f.get(), marks);
            mark_form(g.get(), marks);
        }
        FormTree::Scale(_, f) => mark_form(f.get(), marks),
        FormTree::Left(f) => mark_form(f.get(), marks),
        FormTree::Right(f) => mark_form(f.get(), marks),
        FormTree::Action { body, f, .. } => {
            mark_form(body.get(), marks);
            marks.add(f.role);
        }
        FormTree::Adjoint(f) => mark_form(f.get(), marks),
        FormTree::Derivative { body, du, .. } => {
            mark_form(body.get(), marks);
            marks.add(du.role);
        }
    }
}
