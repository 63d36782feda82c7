//! Calls.

ghost use Rattle.std.specs.Prelude.{◌≡◌};
ghost use Rattle.ufl_values.specs.Answer.{Answers, Makes};
ghost use Rattle.ufl_calls.specs.Calls.{keyword, marked, Finds, valued, plain, applied, applied_to, keyword_refused, function_called, called};

use crate::arguments::{Given, keyword_value, unknown_keyword};
use crate::element_calls::{finite_element, mixed_element, tensor_element, vector_element};
use crate::form_calls::{action, adjoint, derivative, left, right, system};
use crate::function_calls::{
    argument, arguments, coefficient, constant, position, split, vector_constant,
};
use crate::made::Made;
use crate::tensor_calls::{
    derivative_along, diff, identity, operator_of_one, operator_of_two, tensor, variable,
};
use sqlite_items::Items;
use std::alloc::Global;
use ufl_read::FormRefusal;
use ufl_syntax::Span;
use ufl_tree::{On, Role};
use ufl_values::{Keyword, Reason, Value, Word, marker, placed, refused};

/// The keyword that the function takes.
fn keyword(function: Word) -> Option<Keyword>
    ensures { result ≡ keyword function }
{
    match function {
        Word::VectorElement => Some(Keyword::Dim),
        Word::TensorElement => Some(Keyword::Shape),
        _ => None,
    }
}

/// The value of a function that makes nothing.
#[tactic(auto, using(crate::proofs::CallLaws::exact_answers))]
fn valued(alloc: Global, function: Word, places: Items<Value>) -> Result<Value, Reason>
    ensures { Answers result (valued function places) }
{
    match function {
        Word::FiniteElement => finite_element(places),
        Word::VectorElement => vector_element(alloc, places, None),
        Word::TensorElement => tensor_element(alloc, places, None),
        Word::MixedElement => mixed_element(alloc, places),
        Word::One(op) => operator_of_one(alloc, op, places),
        Word::Two(op) => operator_of_two(alloc, op, places),
        Word::Dx => derivative_along(alloc, places),
        Word::Identity => identity(alloc, places),
        Word::AsVector => tensor(alloc, Some(1), places),
        Word::AsMatrix => tensor(alloc, Some(2), places),
        Word::AsTensor => tensor(alloc, None, places),
        Word::Diff => diff(alloc, places),
        Word::Lhs => left(alloc, places),
        Word::Rhs => right(alloc, places),
        Word::System => system(alloc, places),
        Word::Action => action(alloc, places),
        Word::Adjoint => adjoint(alloc, places),
        _ => Err(Reason::Kind),
    }
}

/// The function's value at these arguments, without a keyword.
#[tactic(auto, using(crate::proofs::CallLaws::unmade_makes))]
fn plain(
    alloc: Global,
    made: &mut Made,
    function: Word,
    places: Items<Value>,
) -> Result<Value, Reason>
    ensures { Makes result made.new (plain function places made.old) }
{
    match function {
        Word::TestFunction => argument(alloc, made, Role::Test, places),
        Word::TrialFunction => argument(alloc, made, Role::Trial, places),
        Word::TestFunctions => arguments(alloc, made, Role::Test, places),
        Word::TrialFunctions => arguments(alloc, made, Role::Trial, places),
        Word::Split => split(alloc, made, places),
        Word::Coefficient => coefficient(alloc, made, places),
        Word::Constant => constant(alloc, made, places),
        Word::VectorConstant => vector_constant(alloc, made, places),
        Word::SpatialCoordinate => position(alloc, made, places),
        Word::Variable => variable(alloc, made, places),
        Word::Derivative => derivative(alloc, made, places),
        _ => valued(alloc, function, places),
    }
}

/// The function's value at these arguments, with that of its keyword where it takes one.
#[tactic(auto, using(crate::proofs::CallLaws::unmade_makes))]
fn applied(
    alloc: Global,
    made: &mut Made,
    function: Word,
    places: Items<Value>,
    extra: Option<Value>,
) -> Result<Value, Reason>
    ensures { Makes result made.new (applied function places extra made.old) }
{
    match function {
        Word::VectorElement => vector_element(alloc, places, extra),
        Word::TensorElement => tensor_element(alloc, places, extra),
        _ => plain(alloc, made, function, places),
    }
}

/// The function's value at the arguments of a call.
fn applied_to(alloc: Global, made: &mut Made, function: Word, given: Given) -> Result<Value, Reason>
    ensures { Makes result made.new (applied_to function given made.old) }
{
    let Given { places, keyed } = given;
    let extra = keyword_value(alloc, keyed.as_slice(), keyword(function))?;
    applied(alloc, made, function, places, extra)
}

/// The refusal of a call with a keyword that it doesn't take, which comes after `Kind` of the call.
fn keyword_refused(
    answer: Result<Value, Reason>,
    line: u32,
    word: Span,
    keyword: Span,
) -> FormRefusal
    ensures { result ≡ keyword_refused answer line word keyword }
{
    match answer {
        Err(Reason::Kind) => refused(Reason::Kind, line, word),
        Err(Reason::Memory) => refused(Reason::Memory, line, word),
        _ => refused(Reason::Unsupported, line, keyword),
    }
}

/// The value of a call of a function of the table. Its refusal as `Kind` comes before that of a keyword that it doesn't
/// take.
#[tactic(auto, using(crate::proofs::CallLaws::placed_finds, crate::proofs::CallLaws::refused_finds))]
fn function_called(
    alloc: Global,
    line: u32,
    made: &mut Made,
    function: Word,
    word: Span,
    given: Given,
) -> Result<Value, FormRefusal>
    ensures { Finds result made.new (function_called line function word given made.old) }
{
    let unknown = unknown_keyword(given.keyed.as_slice(), keyword(function));
    let answer = applied_to(alloc, made, function, given);
    match unknown {
        Some(keyword) => Err(keyword_refused(answer, line, word, keyword)),
        None => placed(answer, line, word),
    }
}

/// `dx(k)`: the measure over the cells with this marker.
fn marked(given: Given) -> Result<Value, Reason>
    ensures { result ≡ marked given }
{
    let Given { places, keyed } = given;
    match (places.as_slice(), keyed.as_slice()) {
        ([Value::Number(k)], []) => Ok(Value::Measure(On::Marked(marker(*k)?))),
        _ => Err(Reason::Unsupported),
    }
}

/// The value of a call of this value.
#[tactic(auto, using(crate::proofs::CallLaws::exact_finds))]
fn call(
    alloc: Global,
    line: u32,
    made: &mut Made,
    callee: &Value,
    word: Span,
    given: Given,
) -> Result<Value, FormRefusal>
    ensures { Finds result made.new (called line callee.now word given made.old) }
{
    match callee {
        Value::Function(function) => function_called(alloc, line, made, *function, word, given),
        Value::Measure(On::All) => placed(marked(given), line, word),
        _ => Err(refused(Reason::Kind, line, word)),
    }
}

/// The value of a call.
pub fn called(
    alloc: Global,
    line: u32,
    made: &mut Made,
    callee: Value,
    word: Span,
    given: Given,
) -> Result<Value, FormRefusal>
    ensures { Finds result made.new (called line callee word given made.old) }
{
    call(alloc, line, made, &callee, word, given)
}
