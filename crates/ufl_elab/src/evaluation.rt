//! The values of what is written.

ghost use Rattle.std.specs.Prelude.{◌≡◌, ℕ, [], ◌∷◌, ◌++◌, List, map, Ok, IfSome};
ghost use Rattle.ufl_syntax.specs.Spans.{word_at};
ghost use Rattle.ufl_values.specs.declared.value.Value.{Value as AnyValue};
ghost use Rattle.ufl_calls.specs.declared.made.Made.{Made as AllMade};
ghost use Rattle.ufl_calls.specs.declared.arguments.Given.{Given as AnyGiven};
ghost use Rattle.ufl_calls.specs.Groups.{IsGroup};
ghost use Rattle.ufl_calls.specs.Calls.{Finds, Refusable};
ghost use Rattle.ufl_elab.specs.declared.head.Head.{Head as AnyHead};
ghost use Rattle.ufl_elab.specs.Evaluation.{step, closed, worth, whole, name_of, number_of, signed_by, operated, indexed_by, attribute, applied, collected, values_from, chain_of, given_with, arguments_of, no_arguments, posts_of, eval_of, next_of, post_of, arg_of};
ghost use Rattle.ufl_elab.specs.Literals.{literal};
ghost use Rattle.ufl_elab.specs.Names.{value_in};
ghost use Rattle.ufl_elab.specs.Statements.{value_of};
ghost use Rattle.ufl_elab.specs.Answers.{file_in, names_in, place_in, Gathers};

use crate::head::Head;
use crate::names::Names;
use crate::shared::Shared;
use ratio::Ratio;
use sqlite_items::Items;
use std::alloc::Global;
use ufl_calls::{Given, Group, Made, along, called, text_value, transposed};
use ufl_expr::MOST_NODES;
use ufl_read::FormRefusal;
use ufl_syntax::{Arg, Next, Post, Span, Syn};
use ufl_values::{
    Reason, Sign, Value, binary, indexed, is_spelled, keyword_named, minus, placed, plus, refused,
    sign_of,
};

// ---- steps, each over what its operand came to: what is let go is let go here

/// The value of a chain that ends here; a `.dx` without its call is `Kind`.
fn closed(alloc: Global, line: u32, head: Head) -> Result<Value, FormRefusal>
    ensures { (m : AllMade) → Finds result m (closed line head m) }
{
    match head {
        Head::Whole(value) => Ok(value),
        Head::Named(shared, _) => Ok(shared.into_value(alloc)?),
        Head::Along(_, word) => Err(refused(Reason::Kind, line, word)),
    }
}

/// The value of what came to this.
fn worth(alloc: Global, line: u32, head: Result<Head, FormRefusal>) -> Result<Value, FormRefusal>
    ensures { (want : Refusable AnyHead) (m : AllMade) → Finds head m want → Finds result m (worth line want) }
{
    closed(alloc, line, head?)
}

/// A value that stands for itself.
fn whole(value: Result<Value, FormRefusal>) -> Result<Head, FormRefusal>
    ensures { (want : Refusable AnyValue) (m : AllMade) → Finds value m want → Finds result m (whole want) }
{
    Ok(Head::Whole(value?))
}

/// The value of a name.
fn name(alloc: Global, line: u32, names: &Names<'_>, word: Span) -> Result<Head, FormRefusal>
    ensures { (m : AllMade) → Finds result m
        (name_of (place_in names.now line) word (value_in (names_in names.now) (word_at (file_in names.now) word)) m) }
{
    match names.value(alloc, names.text(word)) {
        Ok(value) => Ok(Head::Named(value, word)),
        Err(reason) => Err(refused(reason, line, word)),
    }
}

/// The number that a literal stands for.
fn literal(text: &[u8]) -> Option<Ratio>
    ensures { result ≡ literal text.now }
{
    Ratio::read_decimal(text)
}

/// A literal.
fn number(line: u32, names: &Names<'_>, word: Span) -> Result<Head, FormRefusal>
    ensures { (m : AllMade) → Finds result m
        (number_of (place_in names.now line) word (literal (word_at (file_in names.now) word)) m) }
{
    match literal(names.text(word)) {
        Some(c) => Ok(Head::Whole(Value::Number(c))),
        None => Err(refused(Reason::NumberRange, line, word)),
    }
}

/// A sign before an operand.
fn signed(
    alloc: Global,
    line: u32,
    names: &Names<'_>,
    word: Span,
    operand: Result<Head, FormRefusal>,
) -> Result<Head, FormRefusal>
    ensures { (want : Refusable AnyHead) (m : AllMade) → Finds operand m want
        → Finds result m (signed_by (place_in names.now line) word want) }
{
    let value = worth(alloc, line, operand)?;
    let answer = match sign_of(names.text(word)) {
        Sign::Plus => plus(value),
        _ => minus(alloc, value),
    };
    Ok(Head::Whole(placed(answer, line, word)?))
}

/// An operator between a value and what stands to the right.
fn operated(
    alloc: Global,
    line: u32,
    names: &Names<'_>,
    op: Span,
    left: Value,
    right: Result<Head, FormRefusal>,
) -> Result<Value, FormRefusal>
    ensures { (want : Refusable AnyHead) (m : AllMade) → Finds right m want
        → Finds result m (operated (place_in names.now line) op left want) }
{
    let right = worth(alloc, line, right)?;
    placed(
        binary(alloc, sign_of(names.text(op)), left, right),
        line,
        op,
    )
}

/// An index of a value.
fn indexed_by(
    alloc: Global,
    line: u32,
    names: &Names<'_>,
    bracket: Span,
    base: Value,
    at: Result<Head, FormRefusal>,
) -> Result<Head, FormRefusal>
    ensures { (want : Refusable AnyHead) (m : AllMade) → Finds at m want
        → Finds result m (indexed_by (place_in names.now line) bracket base want) }
{
    let at = worth(alloc, line, at)?;
    Ok(Head::Whole(placed(indexed(alloc, base, at), line, bracket)?))
}

/// An attribute of a value.
fn attribute(
    alloc: Global,
    line: u32,
    names: &Names<'_>,
    word: Span,
    value: Value,
) -> Result<Head, FormRefusal>
    ensures { (m : AllMade) → Finds result m (attribute (place_in names.now line) word value m) }
{
    let text = names.text(word);
    if is_spelled(text, b"T") {
        return Ok(Head::Whole(placed(transposed(alloc, value), line, word)?));
    }
    if is_spelled(text, b"dx") {
        return Ok(Head::Along(value, word));
    }
    Err(refused(Reason::Unsupported, line, word))
}

/// A call of what a chain has come to. Its word is its bracket, or the name where a bare name is called.
fn applied(
    alloc: Global,
    line: u32,
    made: &mut Made,
    head: Head,
    bracket: Span,
    given: Given,
) -> Result<Value, FormRefusal>
    ensures { Finds result made.new (applied line head bracket given made.old) }
{
    match head {
        Head::Whole(callee) => called(alloc, line, made, callee, bracket, given),
        Head::Named(callee, name) => {
            let callee = callee.into_value(alloc)?;
            called(alloc, line, made, callee, name, given)
        }
        Head::Along(operand, word) => along(alloc, line, operand, word, given),
    }
}

/// A call with these arguments.
fn call(
    alloc: Global,
    line: u32,
    made: &mut Made,
    head: Head,
    bracket: Span,
    given: Result<Given, FormRefusal>,
) -> Result<Head, FormRefusal>
    ensures { (want : Refusable AnyGiven) → Finds given made.old want
        → Finds result made.new (step want (λ g n. whole (applied line head bracket g n))) }
{
    whole(applied(alloc, line, made, head, bracket, given?))
}

/// The group with one more item for which it has no room: the item counts, and isn't copied.
fn overfull(alloc: Global, group: &Group, item: &Shared) -> Option<Group>
    ensures { (vs : List AnyValue) → IsGroup vs group.now → IfSome result (IsGroup (vs ++ item.now ∷ [])) }
{
    let nodes = group.nodes.saturating_add(item.nodes());
    if nodes < MOST_NODES {
        return None;
    }
    Some(Group {
        alloc,
        items: Items::new(alloc),
        nodes,
        height: group.height.max(item.height()),
    })
}

/// The group with a name's value behind its items, where it has no room for that.
fn counted(alloc: Global, group: &Group, item: &Result<Head, FormRefusal>) -> Option<Group>
    ensures { (want : Refusable AnyHead) (m : AllMade) (line : ℕ) (vs : List AnyValue) → IsGroup vs group.now
        → Finds item.now m want → IfSome result (λ all. Gathers (Ok all) m vs (worth line want)) }
{
    match item {
        Ok(Head::Named(shared, _)) => overfull(alloc, group, shared),
        Ok(Head::Whole(_)) | Ok(Head::Along(_, _)) | Err(_) => None,
    }
}

/// One more item of a tuple or a list.
fn gathered(
    alloc: Global,
    line: u32,
    group: Group,
    item: Result<Head, FormRefusal>,
) -> Result<Group, FormRefusal>
    ensures { (want : Refusable AnyHead) (m : AllMade) (vs : List AnyValue) → IsGroup vs group
        → Finds item m want → Gathers result m vs (worth line want) }
{
    if let Some(all) = counted(alloc, &group, &item) {
        return Ok(all);
    }
    let value = worth(alloc, line, item)?;
    let mut all = group;
    all.push(value)?;
    Ok(all)
}

/// All items of a tuple or a list, whose first comma or bracket this is.
fn collected(line: u32, word: Span, group: Group) -> Result<Items<Value>, FormRefusal>
    ensures { (vs : List AnyValue) (m : AllMade) → IsGroup vs group
        → Finds result m (collected line word (Ok (vs, m))) }
{
    placed(group.finish(), line, word)
}

/// One more argument.
fn given_with(
    alloc: Global,
    line: u32,
    names: &Names<'_>,
    given: Given,
    keyword: Option<Span>,
    value: Result<Head, FormRefusal>,
) -> Result<Given, FormRefusal>
    ensures { (want : Refusable AnyHead) (m : AllMade) → Finds value m want
        → Finds result m (given_with (place_in names.now line) given keyword want) }
{
    let value = worth(alloc, line, value)?;
    let mut all = given;
    match keyword {
        Some(word) => all.push_keyed(word, keyword_named(names.text(word)), value)?,
        None => all.push(value)?,
    }
    Ok(all)
}

// ---- what is written

/// What is written, as far as its chain has come.
#[tactic(auto, using(crate::proofs::Readings::readings))]
#[cycle(evaluation)]
fn evaluate(
    alloc: Global,
    line: u32,
    names: &Names<'_>,
    made: &mut Made,
    written: &Syn,
) -> Result<Head, FormRefusal>
    ensures { Finds result made.new (eval_of (place_in names.now line) written.now made.old) }
{
    match written {
        Syn::Name(word) => name(alloc, line, names, *word),
        Syn::Number(word) => number(line, names, *word),
        Syn::Text(word) => Ok(Head::Whole(text_value(names.text(*word)))),
        Syn::Tuple(comma, items) => {
            let values = values(alloc, line, names, made, *comma, items.as_slice())?;
            Ok(Head::Whole(Value::Tuple(values)))
        }
        Syn::List(bracket, items) => {
            let values = values(alloc, line, names, made, *bracket, items.as_slice())?;
            Ok(Head::Whole(Value::List(values)))
        }
        Syn::Sign(sign, operand) => {
            let operand = evaluate(alloc, line, names, made, operand.get());
            signed(alloc, line, names, *sign, operand)
        }
        Syn::Binary(first, rest) => {
            let first = evaluate(alloc, line, names, made, first.get())?;
            whole(chain(alloc, line, names, made, first, rest.as_slice()))
        }
        Syn::Postfix(first, rest) => {
            let start = evaluate(alloc, line, names, made, first.get())?;
            posts(alloc, line, names, made, start, rest.as_slice())
        }
    }
}

/// The values of the items of a tuple or a list, in order.
#[cycle(evaluation)]
fn values(
    alloc: Global,
    line: u32,
    names: &Names<'_>,
    made: &mut Made,
    word: Span,
    written: &[Syn],
) -> Result<Items<Value>, FormRefusal>
    ensures { Finds result made.new (collected line word
        (values_from line [] (map (eval_of (place_in names.now line)) written.now) made.old)) }
{
    let mut all = Group::new(alloc);
    for item in written {
        let value = evaluate(alloc, line, names, made, item);
        all = gathered(alloc, line, all, value)?;
    }
    collected(line, word, all)
}

/// The value of operators of one level, from left to right.
#[cycle(evaluation)]
fn chain(
    alloc: Global,
    line: u32,
    names: &Names<'_>,
    made: &mut Made,
    first: Head,
    rest: &[Next],
) -> Result<Value, FormRefusal>
    ensures { Finds result made.new (step (closed line first made.old)
        (chain_of (place_in names.now line) (map (next_of (place_in names.now line)) rest.now))) }
{
    let start = closed(alloc, line, first)?;
    let mut all = start;
    for next in rest {
        let right = operand(alloc, line, names, made, next);
        all = operated(alloc, line, names, next.op, all, right)?;
    }
    Ok(all)
}

/// What calls, indices and attributes make of a value, from left to right.
#[cycle(evaluation)]
fn posts(
    alloc: Global,
    line: u32,
    names: &Names<'_>,
    made: &mut Made,
    start: Head,
    rest: &[Post],
) -> Result<Head, FormRefusal>
    ensures { Finds result made.new
        (posts_of (map (post_of (place_in names.now line)) rest.now) start made.old) }
{
    let mut all = start;
    for post in rest {
        all = step(alloc, line, names, made, all, post)?;
    }
    Ok(all)
}

/// What one call, index or attribute makes of a value.
#[tactic(auto, using(crate::proofs::Readings::readings))]
#[cycle(evaluation)]
fn step(
    alloc: Global,
    line: u32,
    names: &Names<'_>,
    made: &mut Made,
    start: Head,
    post: &Post,
) -> Result<Head, FormRefusal>
    ensures { Finds result made.new (post_of (place_in names.now line) post.now start made.old) }
{
    match post {
        Post::Call(bracket, written) => {
            let given = arguments(alloc, line, names, made, written.as_slice());
            call(alloc, line, made, start, *bracket, given)
        }
        Post::Index(bracket, written) => {
            let base = closed(alloc, line, start)?;
            let at = evaluate(alloc, line, names, made, written.get());
            indexed_by(alloc, line, names, *bracket, base, at)
        }
        Post::Attr(word) => attribute(alloc, line, names, *word, closed(alloc, line, start)?),
    }
}

/// The values of arguments, in order.
#[cycle(evaluation)]
fn arguments(
    alloc: Global,
    line: u32,
    names: &Names<'_>,
    made: &mut Made,
    written: &[Arg],
) -> Result<Given, FormRefusal>
    ensures { Finds result made.new
        (arguments_of (place_in names.now line) (map (arg_of (place_in names.now line)) written.now)
        no_arguments made.old) }
{
    let mut given = Given::new(alloc);
    for argument in written {
        let value = argument_value(alloc, line, names, made, argument);
        given = given_with(alloc, line, names, given, argument.name, value)?;
    }
    Ok(given)
}

/// What stands to the right of an operator.
#[tactic(auto, using(crate::proofs::Readings::readings))]
#[cycle(evaluation)]
fn operand(
    alloc: Global,
    line: u32,
    names: &Names<'_>,
    made: &mut Made,
    next: &Next,
) -> Result<Head, FormRefusal>
    ensures { Finds result made.new ((next_of (place_in names.now line) next.now).right made.old) }
{
    evaluate(alloc, line, names, made, &next.right)
}

/// What an argument is.
#[tactic(auto, using(crate::proofs::Readings::readings))]
#[cycle(evaluation)]
fn argument_value(
    alloc: Global,
    line: u32,
    names: &Names<'_>,
    made: &mut Made,
    argument: &Arg,
) -> Result<Head, FormRefusal>
    ensures { Finds result made.new ((arg_of (place_in names.now line) argument.now).value made.old) }
{
    evaluate(alloc, line, names, made, &argument.value)
}

/// The value of what is written in a statement that begins on this line. The value of a bare name is shared with it.
pub fn value(
    alloc: Global,
    line: u32,
    names: &Names<'_>,
    made: &mut Made,
    written: &Syn,
) -> Result<Shared, FormRefusal>
    ensures { Finds result made.new (value_of (place_in names.now line) written.now made.old) }
{
    match evaluate(alloc, line, names, made, written)? {
        Head::Named(shared, _) => Ok(shared),
        head => Ok(Shared::new(alloc, closed(alloc, line, head)?)?),
    }
}
