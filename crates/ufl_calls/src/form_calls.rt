//! Calls that give forms of forms.

ghost use Rattle.std.specs.Prelude.{◌≡◌, Result};
ghost use Rattle.ufl_tree.specs.Places.{table_of};
ghost use Rattle.ufl_form.specs.Patterns.{has_test, has_trial};
ghost use Rattle.ufl_form.specs.Reading.{form_of};
ghost use Rattle.ufl_form.specs.Table.{form_patterns};
ghost use Rattle.ufl_values.specs.declared.refusal.Reason.{Reason as Why};
ghost use Rattle.ufl_values.specs.declared.value.Value.{Value as AnyValue};
ghost use Rattle.ufl_values.specs.Answer.{Answers};
ghost use Rattle.ufl_calls.specs.Forms.{form_in, only_form, left, right, pair_of, pair_with, both_sides, system, adjoint, action, action_on, next_argument, next_derivative, derivative_along, derivative_by, derivative_of_three, derivative_of_two, derivative};

use crate::arguments::{one, three, two};
use crate::function_calls::whole_function;
use crate::group::Group;
use crate::made::Made;
use sqlite_items::Items;
use std::alloc::Global;
use ufl_form::{Form, PatternSet, patterns};
use ufl_tree::{Function, Role};
use ufl_values::{Reason, Value, formed};

/// The form that the value is, else `Kind`.
fn form(value: Value) -> Result<Form, Reason>
    ensures { result ≡ form_in value }
{
    match value {
        Value::Form(f) => Ok(f),
        _ => Err(Reason::Kind),
    }
}

/// The form that the only argument is, else `Kind`.
fn only_form(places: Items<Value>) -> Result<Form, Reason>
    ensures { result ≡ only_form places }
{
    let only = one(places)?;
    form(only)
}

/// `lhs(F)`
pub fn left(alloc: Global, places: Items<Value>) -> Result<Value, Reason>
    ensures { Answers result (left places) }
{
    let f = only_form(places)?;
    formed(Form::left(alloc, f))
}

/// `rhs(F)`
pub fn right(alloc: Global, places: Items<Value>) -> Result<Value, Reason>
    ensures { Answers result (right places) }
{
    let f = only_form(places)?;
    formed(Form::right(alloc, f))
}

/// The tuple of two values.
fn pair(alloc: Global, a: Value, b: Value) -> Result<Value, Reason>
    ensures { Answers result (pair_of a b) }
{
    let mut both = Group::new(alloc);
    both.push(a)?;
    both.push(b)?;
    Ok(Value::Tuple(both.finish()?))
}

/// The tuple of a value and another, unless there is none.
fn pair_with(alloc: Global, a: Value, b: Result<Value, Reason>) -> Result<Value, Reason>
    ensures { (want : Result AnyValue Why) → Answers b want → Answers result (pair_with a want) }
{
    match b {
        Ok(b) => pair(alloc, a, b),
        Err(reason) => Err(reason),
    }
}

/// The tuple of both sides of a form.
fn both_sides(alloc: Global, f: Form) -> Result<Value, Reason>
    ensures { Answers result (both_sides f) }
{
    let copy = f.copy(alloc)?;
    let left = formed(Form::left(alloc, copy))?;
    pair_with(alloc, left, formed(Form::right(alloc, f)))
}

/// `system(F)`, the tuple of both sides.
pub fn system(alloc: Global, places: Items<Value>) -> Result<Value, Reason>
    ensures { Answers result (system places) }
{
    let f = only_form(places)?;
    both_sides(alloc, f)
}

/// `adjoint(F)`
pub fn adjoint(alloc: Global, places: Items<Value>) -> Result<Value, Reason>
    ensures { Answers result (adjoint places) }
{
    let f = only_form(places)?;
    formed(Form::adjoint(alloc, f))
}

/// `action(F, f)`
pub fn action(alloc: Global, places: Items<Value>) -> Result<Value, Reason>
    ensures { Answers result (action places) }
{
    let (f, coefficient) = two(places)?;
    action_on(alloc, f, &coefficient)
}

/// The form with the coefficient in place of its last argument.
fn action_on(alloc: Global, f: Value, coefficient: &Value) -> Result<Value, Reason>
    ensures { Answers result (action_on f coefficient.now) }
{
    let f = form(f)?;
    let coefficient = whole_function(coefficient)?;
    formed(Form::action(alloc, f, coefficient))
}

/// Some pair has a test function.
fn has_test(set: PatternSet) -> bool
    ensures { result ≡ has_test set }
{
    let PatternSet { one, more, .. } = set;
    one.zero || one.one || one.more || more.zero || more.one || more.more
}

/// Some pair has a trial function.
fn has_trial(set: PatternSet) -> bool
    ensures { result ≡ has_trial set }
{
    let PatternSet { zero, one, more } = set;
    zero.one || zero.more || one.one || one.more || more.one || more.more
}

/// The next argument of the form, on the element of w; `Kind` exactly where the form has a trial function.
fn next_argument(f: &Form, w: Function) -> Result<Function, Reason>
    ensures { result ≡ next_argument (form_patterns (form_of f.now)) w }
{
    let set = patterns(f);
    if has_trial(set) {
        return Err(Reason::Kind);
    }
    let role = if has_test(set) {
        Role::Trial
    } else {
        Role::Test
    };
    let element = w.element;
    Ok(Function { role, element })
}

/// The derivative of the form by w in the direction of du.
fn derivative_along(
    alloc: Global,
    made: &Made,
    f: Value,
    w: &Value,
    du: &Value,
) -> Result<Value, Reason>
    ensures { Answers result (derivative_along (table_of made.now.elements) f w.now du.now) }
{
    let f = form(f)?;
    let w = whole_function(w)?;
    let du = whole_function(du)?;
    formed(Form::derivative(alloc, f, w, du, &made.elements))
}

/// The derivative in the direction of the next argument.
fn next_derivative(alloc: Global, made: &Made, f: Form, w: Function) -> Result<Value, Reason>
    ensures { Answers result (next_derivative (table_of made.now.elements) f w) }
{
    let du = next_argument(&f, w)?;
    formed(Form::derivative(alloc, f, w, du, &made.elements))
}

/// The derivative of the form by w in the direction of the next argument.
fn derivative_by(alloc: Global, made: &Made, f: Value, w: &Value) -> Result<Value, Reason>
    ensures { Answers result (derivative_by (table_of made.now.elements) f w.now) }
{
    let f = form(f)?;
    let w = whole_function(w)?;
    next_derivative(alloc, made, f, w)
}

/// `derivative(F, w, du)`
fn derivative_of_three(alloc: Global, made: &Made, places: Items<Value>) -> Result<Value, Reason>
    ensures { Answers result (derivative_of_three (table_of made.now.elements) places) }
{
    let (f, w, du) = three(places)?;
    derivative_along(alloc, made, f, &w, &du)
}

/// `derivative(F, w)`
fn derivative_of_two(alloc: Global, made: &Made, places: Items<Value>) -> Result<Value, Reason>
    ensures { Answers result (derivative_of_two (table_of made.now.elements) places) }
{
    let (f, w) = two(places)?;
    derivative_by(alloc, made, f, &w)
}

/// `derivative(F, w, du)` and `derivative(F, w)`
pub fn derivative(alloc: Global, made: &Made, places: Items<Value>) -> Result<Value, Reason>
    ensures { Answers result (derivative (table_of made.now.elements) places) }
{
    if places.len() == 3 {
        derivative_of_three(alloc, made, places)
    } else {
        derivative_of_two(alloc, made, places)
    }
}
