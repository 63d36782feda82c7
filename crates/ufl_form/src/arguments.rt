//! The elements of the arguments of an expression: each argument has one.

ghost use Rattle.std.specs.Prelude.{◌≡◌, map, Some};
ghost use Rattle.ufl_tree.specs.Reading.{typed_of, typed_list, tree_with};
ghost use Rattle.ufl_tree.specs.Typed.{Kind};
ghost use Rattle.ufl_form.specs.Arguments.{no_arguments, argument, joined_element, joined, joined_both, tree_arguments, arguments_behind};

use ufl_tree::{Function, Node, Role, Tree};

/// The numbers of the elements of the test and the trial function, where they occur.
#[derive(Clone, Copy, Debug, PartialEq, Eq)]
pub(crate) struct Arguments {
    pub test: Option<u16>,
    pub trial: Option<u16>,
}

impl Arguments {
    /// No arguments.
    pub(crate) fn none() -> Arguments
        ensures { result ≡ no_arguments }
    {
        Arguments {
            test: None,
            trial: None,
        }
    }

    /// The function, where it is an argument.
    pub(crate) fn of(f: Function) -> Arguments
        ensures { result ≡ argument f }
    {
        match f.role {
            Role::Test => Arguments {
                test: Some(f.element),
                trial: None,
            },
            Role::Trial => Arguments {
                test: None,
                trial: Some(f.element),
            },
            Role::Position | Role::Coefficient(_) => Arguments::none(),
        }
    }
}

/// The element of an argument that occurs in two operands, or `None` exactly where it has two.
fn joined_element(a: Option<u16>, b: Option<u16>) -> Option<Option<u16>>
    ensures { result ≡ joined_element a b }
{
    match (a, b) {
        (None, element) => Some(element),
        (Some(element), None) => Some(Some(element)),
        (Some(element), Some(other)) => if element == other {
            Some(Some(element))
        } else {
            None
        },
    }
}

/// The arguments of two operands, or `None` exactly where one has two elements.
pub(crate) fn joined(a: Arguments, b: Arguments) -> Option<Arguments>
    ensures { result ≡ joined a b }
{
    match (
        joined_element(a.test, b.test),
        joined_element(a.trial, b.trial),
    ) {
        (Some(test), Some(trial)) => Some(Arguments { test, trial }),
        (Some(_), None) => None,
        (None, _) => None,
    }
}

/// The same, where the operands may have none already.
fn joined_both(a: Option<Arguments>, b: Option<Arguments>) -> Option<Arguments>
    ensures { result ≡ joined_both a b }
{
    match (a, b) {
        (Some(a), Some(b)) => joined(a, b),
        (Some(_), None) => None,
        (None, _) => None,
    }
}

/// The arguments of a tree, or `None` exactly where one has two elements.
#[cycle(elements)]
pub(crate) fn tree_arguments(tree: &Tree) -> Option<Arguments>
    ensures { result ≡ tree_arguments (typed_of tree.now) }
{
    node_arguments(&tree.node)
}

/// Of what stands at a node, whatever the node says of its value.
#[tactic(auto, using(ufl_tree::proofs::ReadingLaws::readings))]
#[cycle(elements)]
fn node_arguments(node: &Node) -> Option<Arguments>
    ensures { (k : Kind) → result ≡ tree_arguments (typed_of (tree_with node.now k)) }
{
    match node {
        Node::Number(_) | Node::Identity(_) => Some(Arguments::none()),
        Node::Fun(f) => Some(Arguments::of(*f)),
        Node::Piece { f, .. } => Some(Arguments::of(*f)),
        Node::One(_, a) => tree_arguments(a.get()),
        Node::Two(_, a, b) => joined_both(tree_arguments(a.get()), tree_arguments(b.get())),
        Node::Power(a, _) => tree_arguments(a.get()),
        Node::Index(a, _) => tree_arguments(a.get()),
        Node::Partial(a, _) => tree_arguments(a.get()),
        Node::Tensor(a, _) => tree_arguments(a.get()),
        Node::List(items) => arguments_of_all(items.as_slice()),
        Node::Variable(_, a) => tree_arguments(a.get()),
        Node::Diff { body, .. } => tree_arguments(body.get()),
    }
}

/// Of several trees together.
#[cycle(elements)]
fn arguments_of_all(trees: &[Tree]) -> Option<Arguments>
    ensures { result ≡ arguments_behind (Some no_arguments) (typed_list (map typed_of trees.now)) }
{
    let mut all = Some(Arguments::none());
    for tree in trees {
        all = joined_both(all, tree_arguments(tree));
    }
    all
}
