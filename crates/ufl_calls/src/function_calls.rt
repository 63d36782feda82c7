//! Calls that give functions.

ghost use Rattle.std.specs.Prelude.{◌≡◌, Ok, true};
ghost use Rattle.spaces.specs.Family.{has_degree};
ghost use Rattle.ufl_tree.specs.Reading.{typed_of, tree_with};
ghost use Rattle.ufl_tree.specs.Typed.{Kind};
ghost use Rattle.ufl_values.specs.Answer.{Answers, Makes};
ghost use Rattle.ufl_calls.specs.Functions.{only_element, only_cell, function_at, whole_function, one_for_each, argument_of, coefficient_in, constant_of, vector_constant_of, position_of, arguments_of, split_of};

use crate::arguments::one;
use crate::element_calls::cell_of;
use crate::made::Made;
use spaces::{Cell, Element, Family};
use sqlite_items::Items;
use std::alloc::Global;
use ufl_tree::{Function, Node, Role};
use ufl_values::{Reason, Value};

/// The element that is the only argument, else `Kind`.
fn element(places: Items<Value>) -> Result<Element, Reason>
    ensures { result ≡ only_element places }
{
    match one(places)? {
        Value::Element(element) => Ok(element),
        _ => Err(Reason::Kind),
    }
}

/// The whole function that stands at a node, else `Kind`.
#[tactic(auto, using(ufl_tree::proofs::ReadingLaws::readings))]
fn function_at(node: &Node) -> Result<Function, Reason>
    ensures { (k : Kind) → result ≡ function_at (typed_of (tree_with node.now k)) }
{
    match node {
        Node::Fun(f) => Ok(*f),
        Node::Number(_) | Node::Identity(_) | Node::Piece { .. } => Err(Reason::Kind),
        Node::One(_, _) | Node::Two(_, _, _) | Node::Power(_, _) => Err(Reason::Kind),
        Node::Index(_, _) | Node::Partial(_, _) | Node::Tensor(_, _) => Err(Reason::Kind),
        Node::List(_) | Node::Diff { .. } | Node::Variable(_, _) => Err(Reason::Kind),
    }
}

/// The whole function that the value is, else `Kind`.
pub fn whole_function(value: &Value) -> Result<Function, Reason>
    ensures { result ≡ whole_function value.now }
{
    match value {
        Value::Expr(e) => function_at(&e.tree().node),
        _ => Err(Reason::Kind),
    }
}

/// `TestFunction(V)` and `TrialFunction(V)`
pub fn argument(
    alloc: Global,
    made: &mut Made,
    role: Role,
    places: Items<Value>,
) -> Result<Value, Reason>
    ensures { Makes result made.new (argument_of role places made.old) }
{
    let element = element(places)?;
    let f = made.function(role, element)?;
    made.whole(alloc, f)
}

/// `Coefficient(V)`
pub fn coefficient(alloc: Global, made: &mut Made, places: Items<Value>) -> Result<Value, Reason>
    ensures { Makes result made.new (coefficient_in places made.old) }
{
    let element = element(places)?;
    let f = made.coefficient(element)?;
    made.whole(alloc, f)
}

/// The cell that is the only argument, else `Kind`.
fn only_cell(places: Items<Value>) -> Result<Cell, Reason>
    ensures { result ≡ only_cell places }
{
    let only = one(places)?;
    cell_of(&only)
}

/// `Constant(cell)`
pub fn constant(alloc: Global, made: &mut Made, places: Items<Value>) -> Result<Value, Reason>
    ensures { Makes result made.new (constant_of places made.old) }
{
    let cell = only_cell(places)?;
    let element = Element::scalar(Family::Real, cell, 0).ok_or(Reason::Kind)?;
    let f = made.coefficient(element)?;
    made.whole(alloc, f)
}

/// The vector element with a part for each coordinate, or want of memory.
fn one_for_each(alloc: Global, family: Family, cell: Cell, degree: u8) -> Result<Element, Reason>
    requires { has_degree family degree ≡ true }
    ensures { Answers result (Ok (one_for_each family cell degree)) }
{
    let part = Element::scalar(family, cell, degree).ok_or(Reason::Kind)?;
    match Element::vector(alloc, part, cell.dim()) {
        Ok(element) => Ok(element),
        // A scalar element for each of one to three coordinates is refused for nothing else.
        Err(_) => Err(Reason::Memory),
    }
}

/// `VectorConstant(cell)`
pub fn vector_constant(
    alloc: Global,
    made: &mut Made,
    places: Items<Value>,
) -> Result<Value, Reason>
    ensures { Makes result made.new (vector_constant_of places made.old) }
{
    let cell = only_cell(places)?;
    let element = one_for_each(alloc, Family::Real, cell, 0)?;
    let f = made.coefficient(element)?;
    made.whole(alloc, f)
}

/// `TestFunctions(W)` and `TrialFunctions(W)`
pub fn arguments(
    alloc: Global,
    made: &mut Made,
    role: Role,
    places: Items<Value>,
) -> Result<Value, Reason>
    ensures { Makes result made.new (arguments_of role places made.old) }
{
    let element = element(places)?;
    let f = made.function(role, element)?;
    made.pieces(alloc, f)
}

/// `SpatialCoordinate(cell)`, whose element is the Lagrange vector element of degree 1.
pub fn position(alloc: Global, made: &mut Made, places: Items<Value>) -> Result<Value, Reason>
    ensures { Makes result made.new (position_of places made.old) }
{
    let cell = only_cell(places)?;
    let element = one_for_each(alloc, Family::Lagrange, cell, 1)?;
    let f = made.function(Role::Position, element)?;
    made.whole(alloc, f)
}

/// `split(w)`
pub fn split(alloc: Global, made: &Made, places: Items<Value>) -> Result<Value, Reason>
    ensures { Makes result made.now (split_of places made.now) }
{
    let only = one(places)?;
    let f = whole_function(&only)?;
    made.pieces(alloc, f)
}
