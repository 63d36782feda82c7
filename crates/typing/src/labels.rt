//! The sizes that the code keeps are bytes.

ghost use Rattle.std.specs.Prelude.{map};
ghost use Rattle.ufl_tree.specs.Places.{table_of};
ghost use Rattle.ufl_tree.specs.Reading.{typed_of, typed_list, tree_with};
ghost use Rattle.ufl_tree.specs.Typed.{Kind};
ghost use Rattle.ufl_form.specs.Fits.{Fits};
ghost use Rattle.ufl_form.specs.Reading.{form_of};
ghost use Rattle.typing.specs.Parts.{HaveByteParts, ArePartsFitting};
ghost use Rattle.typing.specs.Sizes.{AreBytes, HasByteLabels, HaveByteLabels};

use ufl_expr::Elements;
use ufl_form::{Form, FormTree};
use ufl_tree::{Node, Tree};

fn bytes(sizes: &[u8])
    ensures { AreBytes sizes.now }
{}

#[cycle(labels)]
fn tree_labels(tree: &Tree)
    ensures { HasByteLabels (typed_of tree.now) }
{
    node_labels(&tree.node);
}

#[tactic(auto, using(ufl_tree::proofs::ReadingLaws::readings))]
#[cycle(labels)]
fn node_labels(node: &Node)
    ensures { (k : Kind) → HasByteLabels (typed_of (tree_with node.now k)) }
{
    match node {
        Node::Number(_) => (),
        Node::Identity(_) => (),
        Node::Fun(_) => (),
        Node::Piece { .. } => (),
        Node::One(_, a) => tree_labels(a.get()),
        Node::Two(_, a, b) => {
            tree_labels(a.get());
            tree_labels(b.get());
        }
        Node::Power(a, _) => tree_labels(a.get()),
        Node::Index(a, _) => tree_labels(a.get()),
        Node::Partial(a, _) => tree_labels(a.get()),
        Node::Tensor(a, _) => tree_labels(a.get()),
        Node::List(items) => list_labels(items.as_slice()),
        Node::Variable(_, a) => tree_labels(a.get()),
        Node::Diff { by, body, .. } => {
            bytes(by.as_slice());
            tree_labels(body.get());
        }
    }
}

#[cycle(labels)]
fn list_labels(trees: &[Tree])
    ensures { HaveByteLabels (typed_list (map typed_of trees.now)) }
{
    for tree in trees {
        tree_labels(tree);
    }
}

#[tactic(auto, using(ufl_form::proofs::FormReadings::form_readings))]
fn form_labels(form: &FormTree)
    ensures { HaveByteParts (form_of form.now) }
{
    match form {
        FormTree::Integral { body, .. } => tree_labels(body.tree()),
        FormTree::Sum(f, g) => {
            form_labels(f.get());
            form_labels(g.get());
        }
        FormTree::Scale(_, f) => form_labels(f.get()),
        FormTree::Left(f) => form_labels(f.get()),
        FormTree::Right(f) => form_labels(f.get()),
        FormTree::Action { body, .. } => form_labels(body.get()),
        FormTree::Adjoint(f) => form_labels(f.get()),
        FormTree::Derivative { body, .. } => form_labels(body.get()),
    }
}

/// A form that fits the elements can be lowered over them. Asks nothing and answers nothing: the walk over the form
/// shows that the sizes that it keeps are bytes, in time linear in its nodes.
pub fn fitting(form: &Form, elements: &Elements)
    ensures { Fits (table_of elements.now) form.now → ArePartsFitting (table_of elements.now) (form_of form.now) }
{
    elements.lawful();
    form_labels(form.tree());
}
