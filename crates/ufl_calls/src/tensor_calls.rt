//! Calls that give expressions of expressions.

ghost use Rattle.std.specs.Prelude.{◌≡◌, ◌⊎◌, Result, Ok, Err, IfOk, IfErr};
ghost use Rattle.ufl_tree.specs.declared.tree.Tree.{Tree};
ghost use Rattle.ufl_expr.specs.declared.refusal.TypeRefusal.{TypeRefusal as Refusal};
ghost use Rattle.ufl_expr.specs.Answer.{Gives};
ghost use Rattle.ufl_values.specs.declared.refusal.Reason.TheVariants.{Memory};
ghost use Rattle.ufl_values.specs.Answer.{Answers, Makes};
ghost use Rattle.ufl_calls.specs.Tensors.{operator_of_one, operator_of_two, derivative_along, partial_along, identity, ranked, is_other, index_number_of, index_numbers_of, one_number, bound_by, variable, diff, tensor, tensor_of_list, tensor_by, rank_of_list, listed, taken, item_of, items_of};
ghost use Rattle.ufl_values.specs.Values.{tuple_of};

use crate::arguments::{one, only_list, two};
use crate::made::Made;
use sqlite_items::Items;
use std::alloc::{AllocError, Global};
use ufl_expr::{Expr, TypeRefusal};
use ufl_tree::{Op1, Op2};
use ufl_values::{
    Reason, Value, expressed, expression, index, operator_of_one as one_of,
    operator_of_two as two_of, tuple_items, whole_number,
};

/// An operator of one expression.
pub fn operator_of_one(alloc: Global, op: Op1, places: Items<Value>) -> Result<Value, Reason>
    ensures { Answers result (operator_of_one op places) }
{
    let operand = one(places)?;
    one_of(alloc, op, operand)
}

/// An operator of two expressions.
pub fn operator_of_two(alloc: Global, op: Op2, places: Items<Value>) -> Result<Value, Reason>
    ensures { Answers result (operator_of_two op places) }
{
    let (a, b) = two(places)?;
    two_of(alloc, op, a, b)
}

/// `Dx(f, i)`
pub fn derivative_along(alloc: Global, places: Items<Value>) -> Result<Value, Reason>
    ensures { Answers result (derivative_along places) }
{
    let (f, at) = two(places)?;
    partial_along(alloc, f, &at)
}

/// The derivative of an expression in a direction.
fn partial_along(alloc: Global, f: Value, at: &Value) -> Result<Value, Reason>
    ensures { Answers result (partial_along f at.now) }
{
    let operand = expression(alloc, f)?;
    let at = index(at)?;
    expressed(Expr::partial(alloc, operand, at))
}

/// `Identity(n)`
pub fn identity(alloc: Global, places: Items<Value>) -> Result<Value, Reason>
    ensures { Answers result (identity places) }
{
    let Value::Number(c) = one(places)? else {
        return Err(Reason::Kind);
    };
    match whole_number(c) {
        Some(n) => expressed(Expr::identity(alloc, n)),
        None => Err(Reason::Kind),
    }
}

/// A tensor of the wrong rank is refused as `Shape`, unless it is refused as `Kind` already.
fn ranked(answer: Result<Expr, TypeRefusal>, is_wrong: bool) -> Result<Expr, Reason>
    ensures { (want : Result Tree Refusal) → Gives answer want → Answers result (ranked is_wrong want) }
{
    if !is_wrong {
        return Ok(answer?);
    }
    match answer {
        Err(TypeRefusal::Kind) => Err(Reason::Kind),
        Err(TypeRefusal::Memory) => Err(Reason::Memory),
        Ok(_) => Err(Reason::Shape),
        Err(TypeRefusal::Shape) => Err(Reason::Shape),
        Err(TypeRefusal::FreeIndex) => Err(Reason::Shape),
        Err(TypeRefusal::Nodes) => Err(Reason::Shape),
    }
}

/// Another rank is wanted.
fn is_other(rank: usize, wanted: Option<usize>) -> bool
    ensures { result ≡ is_other rank wanted }
{
    match wanted {
        Some(wanted) => rank != wanted,
        None => false,
    }
}

/// The rank of a list of these items.
fn rank_of_list(items: &[Expr]) -> usize
    ensures { result ≡ rank_of_list items.now }
{
    match items.first() {
        Some(item) => item.shape().len() + 1,
        None => 0,
    }
}

/// The tensor of these items, of the rank that is wanted.
fn listed(alloc: Global, wanted: Option<usize>, items: Vec<Expr>) -> Result<Expr, Reason>
    ensures { Answers result (listed wanted items.items) }
{
    let is_wrong = is_other(rank_of_list(items.as_slice()), wanted);
    ranked(Expr::list(alloc, items), is_wrong)
}

/// The expression that an item of a list is or that its number stands for, or the tensor of its own items where it is a
/// list; `None` where it is another value.
#[tactic(auto, using(crate::proofs::ItemReadings::item_readings))]
#[cycle(lists)]
fn item(alloc: Global, value: &Value) -> Result<Option<Expr>, Reason>
    ensures { Answers result (taken (item_of value.now)) }
{
    match value {
        Value::Number(c) => Ok(Some(expression(alloc, Value::Number(*c))?)),
        Value::Expr(e) => Ok(Some(e.copy(alloc)?)),
        Value::List(inner) => Ok(Some(listed(alloc, None, items(alloc, inner.as_slice())?)?)),
        Value::Tuple(_) => Ok(None),
        Value::Form(_) => Ok(None),
        Value::Element(_) => Ok(None),
        Value::Function(_) => Ok(None),
        Value::Cell(_) => Ok(None),
        Value::Index(_) => Ok(None),
        Value::Measure(_) => Ok(None),
        Value::Text(_, _) => Ok(None),
    }
}

/// The items of a list as expressions. What its inner lists refuse comes first, from left to right, then `Kind` where
/// another item is no expression.
#[cycle(lists)]
fn items(alloc: Global, values: &[Value]) -> Result<Vec<Expr>, Reason>
    ensures found { IfOk result (λ items. items_of values.now ≡ Ok items.items) }
    ensures refused { IfErr result (λ e. (e ≡ Memory) ⊎ (items_of values.now ≡ Err e)) }
{
    let mut all = Vec::new(alloc);
    let mut is_odd = false;
    for value in values {
        match item(alloc, value)? {
            Some(e) => all.push(e).map_err(AllocError::from)?,
            None => is_odd = true,
        }
    }
    if is_odd {
        return Err(Reason::Kind);
    }
    Ok(all)
}

/// The number of the index that the value is, else `Kind`.
fn index_number(value: &Value) -> Result<u16, Reason>
    ensures { result ≡ index_number_of value.now }
{
    match value {
        Value::Index(number) => Ok(*number),
        _ => Err(Reason::Kind),
    }
}

/// The numbers of these indices, else `Kind`.
fn index_numbers(alloc: Global, values: &[Value]) -> Result<Items<u16>, Reason>
    ensures { Answers result (index_numbers_of values.now) }
{
    let mut all = Items::new(alloc);
    for value in values {
        all.push(index_number(value)?)?;
    }
    Ok(all)
}

/// The number of the index that the value is.
fn one_number(alloc: Global, value: &Value) -> Result<Items<u16>, Reason>
    ensures { Answers result (one_number value.now) }
{
    let number = index_number(value)?;
    Ok(Items::from_slice(alloc, &[number])?)
}

/// The numbers of the index that the value is, or of those of a tuple.
fn bound_indices(alloc: Global, by: &Value) -> Result<Items<u16>, Reason>
    ensures { Answers result (bound_by (tuple_of by.now) by.now) }
{
    match tuple_items(by) {
        Some(items) => index_numbers(alloc, items),
        None => one_number(alloc, by),
    }
}

/// The tensor of the items of a list.
fn tensor_of_list(alloc: Global, wanted: Option<usize>, values: &[Value]) -> Result<Value, Reason>
    ensures { Answers result (tensor_of_list wanted values.now) }
{
    let tensor = listed(alloc, wanted, items(alloc, values)?)?;
    Ok(Value::Expr(tensor))
}

/// The tensor of an expression with these indices bound.
fn tensor_by(alloc: Global, wanted: Option<usize>, body: Value, by: &Value) -> Result<Value, Reason>
    ensures { Answers result (tensor_by wanted body by.now) }
{
    let body = expression(alloc, body)?;
    let by = bound_indices(alloc, by)?;
    let is_wrong = is_other(by.len(), wanted);
    let tensor = ranked(Expr::tensor(alloc, body, by.as_slice()), is_wrong)?;
    Ok(Value::Expr(tensor))
}

/// `as_vector`, `as_matrix` and `as_tensor`, of the rank 1, 2 or any: of a list, or of an expression and the indices to
/// bind.
pub fn tensor(alloc: Global, wanted: Option<usize>, places: Items<Value>) -> Result<Value, Reason>
    ensures { Answers result (tensor wanted places) }
{
    if let Some(items) = only_list(places.as_slice()) {
        return tensor_of_list(alloc, wanted, items);
    }
    let (body, by) = two(places)?;
    tensor_by(alloc, wanted, body, &by)
}

/// `variable(e)`
pub fn variable(alloc: Global, made: &mut Made, places: Items<Value>) -> Result<Value, Reason>
    ensures { Makes result made.new (variable places made.old) }
{
    let only = one(places)?;
    let operand = expression(alloc, only)?;
    let label = made.label()?;
    expressed(Expr::variable(alloc, label, operand))
}

/// `diff(f, v)`
pub fn diff(alloc: Global, places: Items<Value>) -> Result<Value, Reason>
    ensures { Answers result (diff places) }
{
    let (f, v) = two(places)?;
    let f = expression(alloc, f)?;
    let v = expression(alloc, v)?;
    expressed(Expr::diff(alloc, f, &v))
}
