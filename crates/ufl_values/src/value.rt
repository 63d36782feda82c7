//! The values that names are bound to.

ghost use Rattle.std.specs.Prelude.{◌≡◌, ◌<◌, min, map, reverse, IfOk};
ghost use Rattle.std.specs.Option.{option_copied};
ghost use Rattle.ufl_values.specs.Answer.{Answers};
ghost use Rattle.ufl_values.specs.Values.{total, highest, nodes_of, height_of, tuple_of, list_of, light, expression_of};

use crate::refusal::Reason;
use crate::words::Word;
use ratio::Ratio;
use spaces::{Cell, Element, Family};
use sqlite_items::Items;
use std::alloc::{AllocError, Global};
use ufl_expr::Expr;
use ufl_form::Form;
use ufl_tree::On;

/// A value. A number stands for a scalar expression wherever one is wanted.
#[derive(Drop)]
pub enum Value {
    Number(Ratio),
    Expr(Expr),
    Form(Form),
    Element(Element),
    /// A function of the table of names.
    Function(Word),
    Cell(Cell),
    /// The index of this number.
    Index(u16),
    /// `dx` and `dx(k)`: the cells that an integral with it is over.
    Measure(On),
    /// A string, by the family of elements and the cell that it names.
    Text(Option<Family>, Option<Cell>),
    Tuple(Items<Value>),
    List(Items<Value>),
}

/// How many nodes the value has, at most 4,294,967,295.
#[tactic(auto, using(crate::proofs::Readings::node_readings))]
#[cycle(nodes)]
pub fn nodes_of(value: &Value) -> u32
    ensures { result ≡ min (nodes_of value.now) 4294967295 }
{
    match value {
        Value::Expr(e) => e.nodes(),
        Value::Form(f) => f.nodes(),
        Value::Tuple(items) => nodes_of_all(items.as_slice()).saturating_add(1),
        Value::List(items) => nodes_of_all(items.as_slice()).saturating_add(1),
        Value::Number(_) => 1,
        Value::Element(_) => 1,
        Value::Function(_) => 1,
        Value::Cell(_) => 1,
        Value::Index(_) => 1,
        Value::Measure(_) => 1,
        Value::Text(_, _) => 1,
    }
}

/// How many nodes the values have together.
#[cycle(nodes)]
fn nodes_of_all(values: &[Value]) -> u32
    ensures { result ≡ min (total (map nodes_of values.now)) 4294967295 }
{
    let mut count: u32 = 0;
    for value in values {
        count = count.saturating_add(nodes_of(value));
    }
    count
}

/// The height of the value, at most 4,294,967,295.
#[tactic(auto, using(crate::proofs::Readings::height_readings))]
#[cycle(heights)]
pub fn height_of(value: &Value) -> u32
    ensures { result ≡ min (height_of value.now) 4294967295 }
{
    match value {
        Value::Expr(e) => e.height(),
        Value::Form(f) => f.height(),
        Value::Tuple(items) => height_of_all(items.as_slice()).saturating_add(1),
        Value::List(items) => height_of_all(items.as_slice()).saturating_add(1),
        Value::Number(_) => 1,
        Value::Element(_) => 1,
        Value::Function(_) => 1,
        Value::Cell(_) => 1,
        Value::Index(_) => 1,
        Value::Measure(_) => 1,
        Value::Text(_, _) => 1,
    }
}

/// The height of the highest value, 0 where there is none.
#[cycle(heights)]
fn height_of_all(values: &[Value]) -> u32
    ensures { result ≡ min (highest (map height_of values.now)) 4294967295 }
{
    let mut height: u32 = 0;
    for value in values {
        height = height.max(height_of(value));
    }
    height
}

/// The items of a tuple, or `None` exactly where the value is none.
#[tactic(auto, using(crate::proofs::Readings::tuple_readings))]
pub fn tuple_items(value: &Value) -> Option<&[Value]>
    ensures { option_copied result ≡ tuple_of value.now }
{
    match value {
        Value::Tuple(items) => Some(items.as_slice()),
        Value::List(_) => None,
        Value::Number(_) => None,
        Value::Expr(_) => None,
        Value::Form(_) => None,
        Value::Element(_) => None,
        Value::Function(_) => None,
        Value::Cell(_) => None,
        Value::Index(_) => None,
        Value::Measure(_) => None,
        Value::Text(_, _) => None,
    }
}

/// The items of a list, or `None` exactly where the value is none.
#[tactic(auto, using(crate::proofs::Readings::list_readings))]
pub fn list_items(value: &Value) -> Option<&[Value]>
    ensures { option_copied result ≡ list_of value.now }
{
    match value {
        Value::List(items) => Some(items.as_slice()),
        Value::Tuple(_) => None,
        Value::Number(_) => None,
        Value::Expr(_) => None,
        Value::Form(_) => None,
        Value::Element(_) => None,
        Value::Function(_) => None,
        Value::Cell(_) => None,
        Value::Index(_) => None,
        Value::Measure(_) => None,
        Value::Text(_, _) => None,
    }
}

/// The value, or `dx` in place of one with more nodes than this.
#[tactic(auto, unfolding(crate::specs::Values::light))]
pub fn light(value: Value, most: u32) -> Value
    requires { most < 4294967295 }
    ensures { result ≡ light value most }
{
    if nodes_of(&value) > most {
        Value::Measure(On::All)
    } else {
        value
    }
}

/// An equal value.
#[cycle(copies)]
pub fn copy_value(alloc: Global, value: &Value) -> Result<Value, AllocError>
    ensures { IfOk result (λ r. r ≡ value.now) }
{
    match value {
        Value::Number(c) => Ok(Value::Number(*c)),
        Value::Expr(e) => Ok(Value::Expr(e.copy(alloc)?)),
        Value::Form(f) => Ok(Value::Form(f.copy(alloc)?)),
        Value::Element(e) => Ok(Value::Element(e.copy(alloc)?)),
        Value::Function(word) => Ok(Value::Function(*word)),
        Value::Cell(cell) => Ok(Value::Cell(*cell)),
        Value::Index(index) => Ok(Value::Index(*index)),
        Value::Measure(on) => Ok(Value::Measure(*on)),
        Value::Text(family, cell) => Ok(Value::Text(*family, *cell)),
        Value::Tuple(items) => Ok(Value::Tuple(copy_values(alloc, items.as_slice())?)),
        Value::List(items) => Ok(Value::List(copy_values(alloc, items.as_slice())?)),
    }
}

/// Equal values.
#[cycle(copies)]
fn copy_values(alloc: Global, values: &[Value]) -> Result<Items<Value>, AllocError>
    ensures { IfOk result (λ r. r ≡ values.now) }
{
    let mut all = Items::new(alloc);
    for value in values {
        all.push(copy_value(alloc, value)?)?;
    }
    Ok(all)
}

/// The expression that the value is or that its number stands for, else `Kind`.
pub fn expression(alloc: Global, value: Value) -> Result<Expr, Reason>
    ensures { Answers result (expression_of value) }
{
    match value {
        Value::Number(c) => Ok(Expr::number(alloc, c)?),
        Value::Expr(e) => Ok(e),
        _ => Err(Reason::Kind),
    }
}

/// A copy of the expression that the value is or that its number stands for, else `Kind`.
pub fn copied_expression(alloc: Global, value: &Value) -> Result<Expr, Reason>
    ensures { Answers result (expression_of value.now) }
{
    match value {
        Value::Number(c) => Ok(Expr::number(alloc, *c)?),
        Value::Expr(e) => Ok(e.copy(alloc)?),
        _ => Err(Reason::Kind),
    }
}

/// The values from the last to the first, so that `pop` gives the first.
pub fn turned(alloc: Global, values: Items<Value>) -> Result<Items<Value>, AllocError>
    ensures { IfOk result (λ r. r ≡ reverse values) }
{
    let mut rest = values;
    let mut all = Items::new(alloc);
    while let Some(value) = rest.pop() {
        all.push(value)?;
    }
    Ok(all)
}
