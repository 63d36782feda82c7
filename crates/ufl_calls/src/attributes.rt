//! Attributes of values.

ghost use Rattle.std.specs.Prelude.{◌≡◌};
ghost use Rattle.ufl_values.specs.Answer.{Answers};
ghost use Rattle.ufl_calls.specs.declared.made.Made.{Made};
ghost use Rattle.ufl_calls.specs.Calls.{Finds, transposed, derivatives, along_operand, along};

use crate::arguments::{Given, unknown_keyword};
use std::alloc::Global;
use ufl_expr::Expr;
use ufl_read::FormRefusal;
use ufl_syntax::Span;
use ufl_tree::Op1;
use ufl_values::{Reason, Value, expression, index, operator_of_one, refused};

/// `a.T`
pub fn transposed(alloc: Global, a: Value) -> Result<Value, Reason>
    ensures { Answers result (transposed a) }
{
    operator_of_one(alloc, Op1::Transpose, a)
}

/// The derivatives in the directions of these values, one after the other.
fn derivatives(alloc: Global, a: Expr, directions: &[Value]) -> Result<Expr, Reason>
    ensures { Answers result (derivatives a directions.now) }
{
    let mut all = a;
    for direction in directions {
        all = Expr::partial(alloc, all, index(direction)?)?;
    }
    Ok(all)
}

/// The operand of `.dx` with so many arguments: an expression, and one argument at least, else `Kind`.
fn operand(alloc: Global, a: Value, count: usize) -> Result<Expr, Reason>
    ensures { Answers result (along_operand a count) }
{
    if count == 0 {
        return Err(Reason::Kind);
    }
    expression(alloc, a)
}

/// `a.dx(..)`
pub fn along(
    alloc: Global,
    line: u32,
    a: Value,
    word: Span,
    given: Given,
) -> Result<Value, FormRefusal>
    ensures { (m : Made) → Finds result m (along line a word given m) }
{
    let Given { places, keyed } = given;
    let count = places.len().saturating_add(keyed.len());
    let operand = match operand(alloc, a, count) {
        Ok(operand) => operand,
        Err(reason) => return Err(refused(reason, line, word)),
    };
    if let Some(keyword) = unknown_keyword(keyed.as_slice(), None) {
        return Err(refused(Reason::Unsupported, line, keyword));
    }
    match derivatives(alloc, operand, places.as_slice()) {
        Ok(e) => Ok(Value::Expr(e)),
        Err(reason) => Err(refused(reason, line, word)),
    }
}
