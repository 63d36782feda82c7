//! Signs, operators between two values, and components.

ghost use Rattle.std.specs.Prelude.{◌≡◌, ◌<◌, ◌≤◌, ◌⊎◌, List, Result, IfOk};
ghost use Rattle.std.specs.Bool.{OnTrue, OnFalse};
ghost use Rattle.ratio.specs.Value.{fraction_of, valued};
ghost use Rattle.ufl_tree.specs.declared.function.Ix.{Ix as Index};
ghost use Rattle.ufl_tree.specs.declared.tree.Tree.{Tree};
ghost use Rattle.ufl_expr.specs.declared.expr.TheConstants.{MOST_NODES, MOST_HEIGHT};
ghost use Rattle.ufl_expr.specs.declared.refusal.TypeRefusal.{TypeRefusal as Refusal};
ghost use Rattle.ufl_expr.specs.Answer.{Gives};
ghost use Rattle.ufl_form.specs.declared.form_tree.FormTree.{FormTree};
ghost use Rattle.ufl_values.specs.declared.refusal.Reason.{Reason as Why};
ghost use Rattle.ufl_values.specs.declared.value.Value.TheVariants as v;
ghost use Rattle.ufl_values.specs.Answer.{Answers, typed_as};
ghost use Rattle.ufl_values.specs.Numbers.{index_of, indices_of, power_of as number_power};
ghost use Rattle.ufl_values.specs.Operators.{two_of, one_of, scaled, integral_of, minus_one, plus_of, minus_of, number_plus, form_plus, sum_of, built_then, sum_tree, sum_form, difference_tree, difference_form_by, number_minus, difference_forms, form_minus, difference_of, difference_trees, mixed_of, number_times, tree_times, form_times, element_times, product_of, reciprocal_of, number_over, tree_over, form_over, quotient_of, exponent_of, power_of, binary_of, one_index, indices_at, component_of, indexed_by, indexed_of};

use crate::numbers::{index, number, numbered, whole_number};
use crate::refusal::Reason;
use crate::value::{Value, expression, tuple_items};
use crate::words::Sign;
use ratio::Ratio;
use spaces::Element;
use sqlite_items::Items;
use std::alloc::{AllocError, Global};
use ufl_expr::{Expr, MOST_HEIGHT, MOST_NODES, TypeRefusal};
use ufl_form::Form;
use ufl_tree::{Ix, On, Op1, Op2};

/// Largest exponent.
const MOST_POWER: u8 = 127;

/// The value of an expression that a builder gave, or the reason of its refusal.
pub fn expressed(answer: Result<Expr, TypeRefusal>) -> Result<Value, Reason>
    ensures { (want : Result Tree Refusal) → Gives answer want → Answers result (typed_as v.Expr want) }
{
    match answer {
        Ok(e) => Ok(Value::Expr(e)),
        Err(refusal) => Err(Reason::from(refusal)),
    }
}

/// The value of a form that a builder gave, or the reason of its refusal.
pub fn formed(answer: Result<Form, TypeRefusal>) -> Result<Value, Reason>
    ensures { (want : Result FormTree Refusal) → Gives answer want → Answers result (typed_as v.Form want) }
{
    match answer {
        Ok(f) => Ok(Value::Form(f)),
        Err(refusal) => Err(Reason::from(refusal)),
    }
}

/// An operator of one expression. `Kind` where the value is neither an expression nor a number, then what the builder
/// refuses.
pub fn operator_of_one(alloc: Global, op: Op1, a: Value) -> Result<Value, Reason>
    ensures { Answers result (one_of op a) }
{
    let operand = expression(alloc, a)?;
    expressed(Expr::one(alloc, op, operand))
}

/// An operator of two expressions. `Kind` where a value is neither an expression nor a number, then what the builder
/// refuses.
pub fn operator_of_two(alloc: Global, op: Op2, a: Value, b: Value) -> Result<Value, Reason>
    ensures { Answers result (two_of op a b) }
{
    let left = expression(alloc, a)?;
    let right = expression(alloc, b)?;
    expressed(Expr::two(alloc, op, left, right))
}

/// The integral of a value over these cells.
fn integral(alloc: Global, a: Value, on: On) -> Result<Value, Reason>
    ensures { Answers result (integral_of a on) }
{
    let body = expression(alloc, a)?;
    formed(Form::integral(on, body))
}

/// A form times a number.
fn scaled(alloc: Global, c: Ratio, f: Form) -> Result<Value, Reason>
    ensures { Answers result (scaled c f) }
{
    formed(Form::scale_form(alloc, c, f))
}

fn minus_one() -> Result<Ratio, Reason>
    ensures { result ≡ minus_one }
{
    number(Some(Ratio::one().neg()))
}

/// `+a` is a itself where a is a number, an expression or a form, else `Kind`.
pub fn plus(a: Value) -> Result<Value, Reason>
    ensures { result ≡ plus_of a }
{
    match a {
        Value::Number(c) => Ok(Value::Number(c)),
        Value::Expr(e) => Ok(Value::Expr(e)),
        Value::Form(f) => Ok(Value::Form(f)),
        _ => Err(Reason::Kind),
    }
}

/// `-a` of a number, an expression or a form, else `Kind`. That of a form is the form times -1.
pub fn minus(alloc: Global, a: Value) -> Result<Value, Reason>
    ensures { Answers result (minus_of a) }
{
    match a {
        Value::Number(c) => numbered(Some(c.neg())),
        Value::Expr(e) => expressed(Expr::one(alloc, Op1::Neg, e)),
        Value::Form(f) => scaled(alloc, minus_one()?, f),
        _ => Err(Reason::Kind),
    }
}

/// `c + b`
fn number_plus(alloc: Global, c: Ratio, b: Value) -> Result<Value, Reason>
    ensures { Answers result (number_plus c b) }
{
    match b {
        Value::Number(d) => numbered(c.add(d)),
        Value::Expr(e) => { operator_of_two(alloc, Op2::Sum, Value::Number(c), Value::Expr(e)) }
        _ => Err(Reason::Kind),
    }
}

/// `f + b`
fn form_plus(alloc: Global, f: Form, b: Value) -> Result<Value, Reason>
    ensures { Answers result (form_plus f b) }
{
    match b {
        Value::Form(g) => formed(Form::add_forms(alloc, f, g)),
        _ => Err(Reason::Kind),
    }
}

/// `a + b`
fn sum(alloc: Global, a: Value, b: Value) -> Result<Value, Reason>
    ensures { Answers result (sum_of a b) }
{
    match a {
        Value::Number(c) => number_plus(alloc, c, b),
        Value::Expr(e) => operator_of_two(alloc, Op2::Sum, Value::Expr(e), b),
        Value::Form(f) => form_plus(alloc, f, b),
        _ => Err(Reason::Kind),
    }
}

/// A tree with so many nodes and of this height is no part of a larger one.
fn is_full(nodes: u32, height: u32) -> bool
    ensures full { OnTrue result ((MOST_NODES ≤ nodes) ⊎ (MOST_HEIGHT ≤ height)) }
    ensures room { OnFalse result ((nodes < MOST_NODES) × (height < MOST_HEIGHT)) }
{
    if nodes >= MOST_NODES {
        return true;
    }
    height >= MOST_HEIGHT
}

/// The sum with the expression that a builder gave, or its refusal.
fn sum_with(alloc: Global, a: Expr, b: Result<Expr, TypeRefusal>) -> Result<Expr, TypeRefusal>
    ensures { (want : Result Tree Refusal) → Gives b want → Gives result (built_then want (λ m. sum_tree a m)) }
{
    match b {
        Ok(b) => Expr::two(alloc, Op2::Sum, a, b),
        Err(refusal) => Err(refusal),
    }
}

/// `a - b` of expressions: the sum with the negative. What the sum refuses for its kind, shapes and free indices comes
/// before the size of the negative, so where that would be too large the sum with b itself is asked, which is too large
/// as well.
fn difference_of_trees(alloc: Global, a: Expr, b: Expr) -> Result<Expr, TypeRefusal>
    ensures { Gives result (difference_tree a b) }
{
    if is_full(b.nodes(), b.height()) {
        return Expr::two(alloc, Op2::Sum, a, b);
    }
    sum_with(alloc, a, Expr::one(alloc, Op1::Neg, b))
}

/// The sum with the form that a builder gave, or its refusal.
fn form_sum_with(alloc: Global, f: Form, g: Result<Form, TypeRefusal>) -> Result<Form, TypeRefusal>
    ensures { (want : Result FormTree Refusal) → Gives g want → Gives result (built_then want (λ m. sum_form f m)) }
{
    match g {
        Ok(g) => Form::add_forms(alloc, f, g),
        Err(refusal) => Err(refusal),
    }
}

/// `f - g`: the sum with g times this number, -1, with the refusals in the same order.
fn difference_of_forms(alloc: Global, c: Ratio, f: Form, g: Form) -> Result<Form, TypeRefusal>
    ensures { Gives result (difference_form_by c f g) }
{
    let _lawful = g.tree();
    if is_full(g.nodes(), g.height()) {
        return Form::add_forms(alloc, f, g);
    }
    form_sum_with(alloc, f, Form::scale_form(alloc, c, g))
}

/// `a - b` of expressions.
fn difference_of_two(alloc: Global, a: Value, b: Value) -> Result<Value, Reason>
    ensures { Answers result (difference_trees a b) }
{
    let left = expression(alloc, a)?;
    let right = expression(alloc, b)?;
    expressed(difference_of_trees(alloc, left, right))
}

/// `c - b`
fn number_minus(alloc: Global, c: Ratio, b: Value) -> Result<Value, Reason>
    ensures { Answers result (number_minus c b) }
{
    match b {
        Value::Number(d) => numbered(c.sub(d)),
        Value::Expr(e) => difference_of_two(alloc, Value::Number(c), Value::Expr(e)),
        _ => Err(Reason::Kind),
    }
}

/// `f - g`
#[tactic(auto, unfolding(crate::specs::Operators::difference_forms))]
fn difference_of_two_forms(alloc: Global, f: Form, g: Form) -> Result<Value, Reason>
    ensures { Answers result (difference_forms f g) }
{
    match minus_one() {
        Ok(c) => formed(difference_of_forms(alloc, c, f, g)),
        Err(reason) => Err(reason),
    }
}

/// `f - b`
fn form_minus(alloc: Global, f: Form, b: Value) -> Result<Value, Reason>
    ensures { Answers result (form_minus f b) }
{
    match b {
        Value::Form(g) => difference_of_two_forms(alloc, f, g),
        _ => Err(Reason::Kind),
    }
}

/// `a - b`
fn difference(alloc: Global, a: Value, b: Value) -> Result<Value, Reason>
    ensures { Answers result (difference_of a b) }
{
    match a {
        Value::Number(c) => number_minus(alloc, c, b),
        Value::Expr(e) => difference_of_two(alloc, Value::Expr(e), b),
        Value::Form(f) => form_minus(alloc, f, b),
        _ => Err(Reason::Kind),
    }
}

/// The mixed element of these elements, or the reason why there is none.
pub fn mixed(alloc: Global, parts: Vec<Element>) -> Result<Value, Reason>
    ensures { Answers result (mixed_of parts.items) }
{
    match Element::mixed(alloc, parts) {
        Ok(element) => Ok(Value::Element(element)),
        Err(refusal) => Err(Reason::from(refusal)),
    }
}

/// `c * b`
fn number_times(alloc: Global, c: Ratio, b: Value) -> Result<Value, Reason>
    ensures { Answers result (number_times c b) }
{
    match b {
        Value::Number(d) => numbered(c.mul(d)),
        Value::Expr(e) => { operator_of_two(alloc, Op2::Product, Value::Number(c), Value::Expr(e)) }
        Value::Form(f) => scaled(alloc, c, f),
        Value::Measure(on) => integral(alloc, Value::Number(c), on),
        _ => Err(Reason::Kind),
    }
}

/// `a * b` of an expression.
fn expression_times(alloc: Global, a: Expr, b: Value) -> Result<Value, Reason>
    ensures { Answers result (tree_times a b) }
{
    match b {
        Value::Number(c) => {
            operator_of_two(alloc, Op2::Product, Value::Expr(a), Value::Number(c))
        }
        Value::Expr(e) => expressed(Expr::two(alloc, Op2::Product, a, e)),
        Value::Measure(on) => integral(alloc, Value::Expr(a), on),
        _ => Err(Reason::Kind),
    }
}

/// `f * b`
fn form_times(alloc: Global, f: Form, b: Value) -> Result<Value, Reason>
    ensures { Answers result (form_times f b) }
{
    match b {
        Value::Number(c) => scaled(alloc, c, f),
        _ => Err(Reason::Kind),
    }
}

/// The mixed element of two.
fn element_times(alloc: Global, a: Element, b: Value) -> Result<Value, Reason>
    ensures { Answers result (element_times a b) }
{
    match b {
        Value::Element(other) => {
            let mut parts = Vec::new(alloc);
            parts.push(a).map_err(AllocError::from)?;
            parts.push(other).map_err(AllocError::from)?;
            mixed(alloc, parts)
        }
        _ => Err(Reason::Kind),
    }
}

/// `a * b`
fn product(alloc: Global, a: Value, b: Value) -> Result<Value, Reason>
    ensures { Answers result (product_of a b) }
{
    match a {
        Value::Number(c) => number_times(alloc, c, b),
        Value::Expr(e) => expression_times(alloc, e, b),
        Value::Form(f) => form_times(alloc, f, b),
        Value::Element(e) => element_times(alloc, e, b),
        _ => Err(Reason::Kind),
    }
}

/// The reciprocal of a number. `NumberRange` exactly at 0, and this reason exactly where the divisor is no number.
fn reciprocal(divisor: Value, otherwise: Reason) -> Result<Ratio, Reason>
    ensures { result ≡ reciprocal_of otherwise divisor }
{
    match divisor {
        Value::Number(c) => number(c.inv()),
        _ => Err(otherwise),
    }
}

/// `c / b`
fn number_over(c: Ratio, b: Value) -> Result<Value, Reason>
    ensures { Answers result (number_over c b) }
{
    let inverse = reciprocal(b, Reason::Unsupported)?;
    numbered(c.mul(inverse))
}

/// `a / b` of an expression.
fn expression_over(alloc: Global, a: Expr, b: Value) -> Result<Value, Reason>
    ensures { Answers result (tree_over a b) }
{
    let inverse = reciprocal(b, Reason::Unsupported)?;
    operator_of_two(alloc, Op2::Product, Value::Expr(a), Value::Number(inverse))
}

/// `f / b`
fn form_over(alloc: Global, f: Form, b: Value) -> Result<Value, Reason>
    ensures { Answers result (form_over f b) }
{
    let inverse = reciprocal(b, Reason::Kind)?;
    scaled(alloc, inverse, f)
}

/// `a / b`
fn quotient(alloc: Global, a: Value, b: Value) -> Result<Value, Reason>
    ensures { Answers result (quotient_of a b) }
{
    match a {
        Value::Number(c) => number_over(c, b),
        Value::Expr(e) => expression_over(alloc, e, b),
        Value::Form(f) => form_over(alloc, f, b),
        _ => Err(Reason::Kind),
    }
}

/// A whole number from 0 to 127, else `Unsupported`.
fn exponent(value: Value) -> Result<u8, Reason>
    ensures exponent { result ≡ exponent_of value }
    ensures small { IfOk result (λ n. n ≤ 127) }
{
    let Value::Number(c) = value else {
        return Err(Reason::Unsupported);
    };
    let Some(n) = whole_number(c) else {
        return Err(Reason::Unsupported);
    };
    if n > MOST_POWER {
        return Err(Reason::Unsupported);
    }
    Ok(n)
}

/// The product of n times the number, unless a step to it passes.
fn power_of(c: Ratio, n: u8) -> Option<Ratio>
    ensures { valued result ≡ number_power (fraction_of c) n }
{
    let mut all = Ratio::one();
    for _factor in 0..n {
        all = all.mul(c)?;
    }
    Some(all)
}

/// `a ** b`
fn power(alloc: Global, a: Value, b: Value) -> Result<Value, Reason>
    ensures { Answers result (power_of a b) }
{
    match a {
        Value::Number(c) => {
            let n = exponent(b)?;
            numbered(power_of(c, n))
        }
        Value::Expr(e) => {
            let n = exponent(b)?;
            expressed(Expr::power(alloc, e, n))
        }
        _ => Err(Reason::Kind),
    }
}

/// The value of an operator between two values. Numbers come to the exact number, or `NumberRange` where a step passes
/// or the divisor is 0; with an expression or a form they are numbers in its tree. `Kind` where the operator takes no
/// such values.
pub fn binary(alloc: Global, sign: Sign, a: Value, b: Value) -> Result<Value, Reason>
    ensures { Answers result (binary_of sign a b) }
{
    match sign {
        Sign::Plus => sum(alloc, a, b),
        Sign::Minus => difference(alloc, a, b),
        Sign::Times => product(alloc, a, b),
        Sign::Over => quotient(alloc, a, b),
        Sign::Power => power(alloc, a, b),
    }
}

/// The indices of these values, each an index or a whole number, else `Kind`.
fn indices(alloc: Global, values: &[Value]) -> Result<Items<Ix>, Reason>
    ensures { Answers result (indices_of values.now) }
{
    let mut all = Items::new(alloc);
    for value in values {
        let at = index(value)?;
        all.push(at)?;
    }
    Ok(all)
}

/// The index that this value is.
fn one_index(alloc: Global, value: &Value) -> Result<Items<Ix>, Reason>
    ensures { Answers result (one_index (index_of value.now)) }
{
    let at = index(value)?;
    Ok(Items::from_slice(alloc, &[at])?)
}

/// The indices of a tuple, or the index that this value is.
fn one_or_more(alloc: Global, at: &Value) -> Result<Items<Ix>, Reason>
    ensures { Answers result (indices_at at.now) }
{
    match tuple_items(at) {
        Some(items) => indices(alloc, items),
        None => one_index(alloc, at),
    }
}

/// A component of an expression, unless there are no such indices.
fn component(alloc: Global, base: Expr, at: Result<Items<Ix>, Reason>) -> Result<Value, Reason>
    ensures { (want : Result (List Index) Why) → Answers at want → Answers result (component_of base want) }
{
    match at {
        Ok(at) => expressed(Expr::index(alloc, base, at.as_slice())),
        Err(reason) => Err(reason),
    }
}

/// A component of the expression that a value is or that its number stands for, unless there are no such indices.
fn indexed_by(alloc: Global, a: Value, at: Result<Items<Ix>, Reason>) -> Result<Value, Reason>
    ensures { (want : Result (List Index) Why) → Answers at want → Answers result (indexed_by a want) }
{
    let base = expression(alloc, a)?;
    component(alloc, base, at)
}

/// `a[at]`: a component of the expression that a is or that its number stands for. `at` is an index, a whole number or
/// a tuple of these, else `Kind`; then what the builder refuses.
pub fn indexed(alloc: Global, a: Value, at: Value) -> Result<Value, Reason>
    ensures { Answers result (indexed_of a at) }
{
    let found = one_or_more(alloc, &at);
    indexed_by(alloc, a, found)
}
