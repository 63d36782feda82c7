//! Statements, one after the other.

ghost use Rattle.std.specs.Prelude.{◌≡◌, true, length, OnOk};
ghost use Rattle.ufl_values.specs.declared.value.Value.{Value as AnyValue};
ghost use Rattle.ufl_values.specs.Refused.{placed};
ghost use Rattle.ufl_values.specs.Operators.{binary_of};
ghost use Rattle.ufl_calls.specs.declared.made.Made.{Made as AllMade};
ghost use Rattle.ufl_calls.specs.Made.{unmade};
ghost use Rattle.ufl_calls.specs.Calls.{Finds, Refusable, at_word};
ghost use Rattle.ufl_elab.specs.Evaluation.{step};
ghost use Rattle.ufl_elab.specs.Statements.{updated, assigned, counted, counted_items, bind_each, bound, named, bound_after, statement, statements};
ghost use Rattle.ufl_elab.specs.Programs.{program, Gives};
ghost use Rattle.ufl_elab.specs.Answers.{file_in, names_in, place_in, state_in, Leaves};

use crate::evaluation::value;
use crate::exports::exported;
use crate::names::Names;
use crate::program::UflProgram;
use crate::shared::Shared;
use sqlite_items::Items;
use std::alloc::{AllocError, Global};
use ufl_calls::Made;
use ufl_read::FormRefusal;
use ufl_syntax::{AssignOp, Span, Stmt, Syn};
use ufl_values::{Reason, Sign, Value, binary, placed, refused, turned};

/// The old value with the change added or subtracted, in a statement with this target.
fn changed(
    alloc: Global,
    line: u32,
    sign: Sign,
    target: Span,
    old: Shared,
    change: Result<Shared, FormRefusal>,
) -> Result<Shared, FormRefusal>
    ensures { (want : Refusable AnyValue) (m : AllMade) → Finds change m want
        → Finds result m (step want (λ b n. at_word line target (unmade (binary_of sign old b) n))) }
{
    let change = change?.into_value(alloc)?;
    let old = old.into_value(alloc)?;
    let new = placed(binary(alloc, sign, old, change), line, target)?;
    Ok(Shared::new(alloc, new)?)
}

/// The value of a target that is changed, and its change. The old value comes first.
fn updated(
    alloc: Global,
    line: u32,
    names: &Names<'_>,
    made: &mut Made,
    sign: Sign,
    target: Span,
    written: &Syn,
) -> Result<Shared, FormRefusal>
    ensures { Finds result made.new (updated (place_in names.now line) sign target written.now made.old) }
{
    let old = match names.value(alloc, names.text(target)) {
        Ok(old) => old,
        Err(reason) => return Err(refused(reason, line, target)),
    };
    let change = value(alloc, line, names, made, written);
    changed(alloc, line, sign, target, old, change)
}

/// The value that a statement assigns.
fn assigned(
    alloc: Global,
    line: u32,
    names: &Names<'_>,
    made: &mut Made,
    op: AssignOp,
    target: Span,
    written: &Syn,
) -> Result<Shared, FormRefusal>
    ensures { Finds result made.new (assigned (place_in names.now line) op target written.now made.old) }
{
    match op {
        AssignOp::Plus => updated(alloc, line, names, made, Sign::Plus, target, written),
        AssignOp::Minus => updated(alloc, line, names, made, Sign::Minus, target, written),
        AssignOp::Set => value(alloc, line, names, made, written),
        AssignOp::ImportAll => value(alloc, line, names, made, written),
    }
}

/// The items of a tuple or a list of so many, else `Kind`.
fn counted_items(value: Value, count: usize) -> Result<Items<Value>, Reason>
    ensures { result ≡ counted_items count value }
{
    match value {
        Value::Tuple(items) => counted(items, count),
        Value::List(items) => counted(items, count),
        _ => Err(Reason::Kind),
    }
}

/// The items, where there are so many.
fn counted(items: Items<Value>, count: usize) -> Result<Items<Value>, Reason>
    ensures { result ≡ counted count items }
{
    if items.len() == count {
        Ok(items)
    } else {
        Err(Reason::Kind)
    }
}

/// Binds each target to its item, in order.
fn bind_each(
    alloc: Global,
    line: u32,
    names: &mut Names<'_>,
    targets: &[Span],
    items: Items<Value>,
) -> Result<(), AllocError>
    requires { length items ≡ length targets.now }
    ensures file { file_in names.new ≡ file_in names.old }
    ensures names { OnOk result (names_in names.new
        ≡ bind_each (file_in names.old) line targets.now items (names_in names.old)) }
{
    let mut rest = turned(alloc, items)?;
    for target in targets {
        if let Some(item) = rest.pop() {
            names.assign(*target, line, Shared::new(alloc, item)?)?;
        }
    }
    Ok(())
}

/// Binds the targets of a statement with a comma among them to the items of its value.
fn unpack(
    alloc: Global,
    line: u32,
    names: &mut Names<'_>,
    first: Span,
    targets: &[Span],
    value: Shared,
) -> Result<(), FormRefusal>
    ensures file { file_in names.new ≡ file_in names.old }
    ensures names { Leaves result (names_in names.new)
        (placed (bound (file_in names.old) true line first targets.now value (names_in names.old)) line first) }
{
    match counted_items(value.into_value(alloc)?, targets.len()) {
        Ok(items) => Ok(bind_each(alloc, line, names, targets, items)?),
        Err(reason) => Err(refused(reason, line, first)),
    }
}

/// Binds the targets of a statement to its value.
fn bind(
    alloc: Global,
    names: &mut Names<'_>,
    st: &Stmt,
    first: Span,
    value: Shared,
) -> Result<(), FormRefusal>
    ensures file { file_in names.new ≡ file_in names.old }
    ensures names { Leaves result (names_in names.new)
        (placed (bound (file_in names.old) st.now.unpack st.now.line first st.now.targets value (names_in names.old))
        st.now.line first) }
{
    if st.unpack {
        return unpack(alloc, st.line, names, first, st.targets.as_slice(), value);
    }
    Ok(names.assign(first, st.line, value)?)
}

/// Binds the targets of a statement to its value, if all names have no more nodes then than they may.
fn name(
    alloc: Global,
    names: &mut Names<'_>,
    st: &Stmt,
    first: Span,
    value: Shared,
) -> Result<(), FormRefusal>
    ensures file { file_in names.new ≡ file_in names.old }
    ensures names { Leaves result (names_in names.new)
        (named (file_in names.old) st.now first value (names_in names.old)) }
{
    bind(alloc, names, st, first, value)?;
    if names.is_full() {
        return Err(refused(Reason::Nodes, st.line, first));
    }
    Ok(())
}

/// A statement with a target and a value.
fn assignment(
    alloc: Global,
    names: &mut Names<'_>,
    made: &mut Made,
    st: &Stmt,
    first: Span,
    written: &Syn,
) -> Result<(), FormRefusal>
    ensures file { file_in names.new ≡ file_in names.old }
    ensures state { Leaves result (state_in names.new made.new) (bound_after (file_in names.old) st.now first
        (assigned (place_in names.old st.now.line) st.now.op first written.now made.old) (names_in names.old)) }
{
    let value = assigned(alloc, st.line, names, made, st.op, first, written)?;
    name(alloc, names, st, first, value)
}

/// One statement. An import does nothing.
#[tactic(auto, unfolding(crate::specs::Statements::statement))]
fn statement(
    alloc: Global,
    names: &mut Names<'_>,
    made: &mut Made,
    st: &Stmt,
) -> Result<(), FormRefusal>
    ensures file { file_in names.new ≡ file_in names.old }
    ensures state { Leaves result (state_in names.new made.new)
        (statement (file_in names.old) st.now (state_in names.old made.old)) }
{
    match (&st.value, st.targets.as_slice()) {
        (Some(written), [first, ..]) => assignment(alloc, names, made, st, *first, written),
        _ => Ok(()),
    }
}

/// The statements of a file, in order.
fn statements(
    alloc: Global,
    names: &mut Names<'_>,
    made: &mut Made,
    sts: &[Stmt],
) -> Result<(), FormRefusal>
    ensures file { file_in names.new ≡ file_in names.old }
    ensures state { Leaves result (state_in names.new made.new)
        (statements (file_in names.old) sts.now (state_in names.old made.old)) }
{
    for st in sts {
        statement(alloc, names, made, st)?;
    }
    Ok(())
}

/// The program of the file whose statements these are: the forms that it exports, or the first refusal, with the line
/// on which its statement begins and the refused word.
#[tactic(auto, unfolding(crate::specs::Programs::program))]
pub fn elaborate(alloc: Global, file: &[u8], sts: &[Stmt]) -> Result<UflProgram, FormRefusal>
    ensures { Gives result (program file.now sts.now) }
{
    let mut names = Names::new(alloc, file);
    let mut made = Made::new(alloc);
    statements(alloc, &mut names, &mut made, sts)?;
    let forms = exported(alloc, names, sts)?;
    let Made {
        elements,
        coefficients,
        ..
    } = made;
    Ok(UflProgram {
        elements,
        coefficients,
        forms,
    })
}
