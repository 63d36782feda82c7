// Statements, which are read in loops.

ghost use Rattle.std.specs.Prelude.{[], ◌∷◌, ◌++◌, ◌≡◌, List, IfOk, IfErr};
ghost use Rattle.ufl_syntax.specs.Grammar.{LaterNames, Names, Statement, File};
ghost use Rattle.ufl_syntax.specs.Machine.{a_statement, after_first, after_target, later_names};
ghost use Rattle.ufl_syntax.specs.declared.tree.Stmt.{Stmt};
ghost use Rattle.ufl_syntax.specs.declared.span.Span.{Span};
ghost use Rattle.ufl_read.specs.Reads.{Reads, ReadsAll, IsEnded, IsAssigned, IsImport, IsWord, IsSign, ended_parts, assigned_parts, import_parts, bracket_parts, IsRefusal};

use crate::lists::add;
use crate::tokens::{Fault, expect, expect_name, peek, same};
use crate::values::value;
use sqlite_items::Items;
use std::alloc::{AllocError, Global};
use ufl_syntax::{AssignOp, Class, Lexeme, Span, Stmt, Syn};

/// How many brackets, signs and `**` may be open at one token.
pub const DEPTH_LIMIT: u32 = 64;

// A value and the end of its line.
fn ended(alloc: Global, tokens: &[Lexeme], at: usize, room: u32) -> Result<(Syn, usize), Fault>
    ensures { ReadsAll (λ r ts rest. IsEnded room ts r.0 rest) (λ r. r.1) (ended_parts room) tokens.now at result }
{
    let (all, past) = value(alloc, tokens, at, room)?;
    let (_end, end) = expect(tokens, past, Class::End)?;
    Ok((all, end))
}

// A `=`, a value and the end of its line.
fn assigned(alloc: Global, tokens: &[Lexeme], at: usize, room: u32) -> Result<(Syn, usize), Fault>
    ensures { ReadsAll (λ r ts rest. IsAssigned room ts r.0 rest) (λ r. r.1) (assigned_parts room)
        tokens.now at result }
{
    let (_sign, past) = expect(tokens, at, Class::Assign)?;
    ended(alloc, tokens, past, room)
}

// The names that may stand after a comma, behind those before.
fn later_targets(
    tokens: &[Lexeme],
    from: usize,
    before: Items<Span>,
) -> Result<(Items<Span>, usize), Fault>
    ensures { Reads (λ r ts rest. (names : List Span) × LaterNames ts names rest
        × (r.0 ≡ before ++ names)) (λ r. r.1) later_names tokens.now from result }
{
    let mut names = before;
    let mut at = from;
    'all: loop {
        let Some(name) = peek(tokens, at) else {
            return Ok((names, at));
        };
        let Class::Name(_) = name.class else {
            return Ok((names, at));
        };
        names.push(name.span)?;
        at += 1;
        let Some(comma) = peek(tokens, at) else {
            return Ok((names, at));
        };
        if !same(Class::Comma, comma.class) {
            return Ok((names, at));
        }
        at += 1;
    }
}

fn one_target(alloc: Global, name: Span) -> Result<Items<Span>, AllocError>
    ensures { IfOk result (λ names. names ≡ name ∷ []) }
{
    let mut names = Items::new(alloc);
    add(alloc, &mut names, name)?;
    Ok(names)
}

// What a sign after one name does.
fn assign_op(class: Class) -> Option<AssignOp>
    ensures { IsSign class result }
{
    match class {
        Class::Assign => Some(AssignOp::Set),
        Class::AddAssign => Some(AssignOp::Plus),
        Class::SubAssign => Some(AssignOp::Minus),
        _ => None,
    }
}

// What follows the first name of a statement.
fn named(
    alloc: Global,
    tokens: &[Lexeme],
    first: Lexeme,
    at: usize,
    room: u32,
) -> Result<(Stmt, usize), Fault>
    requires { IsWord first }
    ensures { Reads (λ r ts rest. Statement room (first ∷ ts) r.0 rest) (λ r. r.1) (after_first room)
        tokens.now at result }
{
    let Some(sign) = peek(tokens, at) else {
        return Err(Fault::Short);
    };
    let line = first.line;
    let targets = one_target(alloc, first.span)?;
    if let Some(op) = assign_op(sign.class) {
        let (value, end) = ended(alloc, tokens, at + 1, room)?;
        let value = Some(value);
        return Ok((
            Stmt {
                line,
                targets,
                unpack: false,
                op,
                value,
            },
            end,
        ));
    }
    if !same(Class::Comma, sign.class) {
        return Err(Fault::Wrong(at));
    }
    let (targets, past) = later_targets(tokens, at + 1, targets)?;
    let (value, end) = assigned(alloc, tokens, past, room)?;
    let value = Some(value);
    Ok((
        Stmt {
            line,
            targets,
            unpack: true,
            op: AssignOp::Set,
            value,
        },
        end,
    ))
}

// `ufl import *` and the end of the line.
fn import_rest(tokens: &[Lexeme], at: usize) -> Result<usize, Fault>
    ensures { ReadsAll (λ r ts rest. IsImport ts rest) (λ r. r) import_parts tokens.now at result }
{
    let (_ufl, past) = expect(tokens, at, Class::Name(true))?;
    let (_import, past_import) = expect(tokens, past, Class::Import)?;
    let (_star, past_star) = expect(tokens, past_import, Class::Times)?;
    let (_end, end) = expect(tokens, past_star, Class::End)?;
    Ok(end)
}

// The names that begin with this one, and whether a comma follows it.
fn target_list(
    alloc: Global,
    tokens: &[Lexeme],
    first: Lexeme,
    at: usize,
) -> Result<(Items<Span>, bool, usize), Fault>
    requires { IsWord first }
    ensures { Reads (λ r ts rest. Names (first ∷ ts) r.0 r.1 rest) (λ r. r.2) after_target tokens.now at result }
{
    let targets = one_target(alloc, first.span)?;
    let Some(comma) = peek(tokens, at) else {
        return Ok((targets, false, at));
    };
    if !same(Class::Comma, comma.class) {
        return Ok((targets, false, at));
    }
    let (targets, end) = later_targets(tokens, at + 1, targets)?;
    Ok((targets, true, end))
}

// What follows the bracket that begins a statement.
fn bracketed(
    alloc: Global,
    tokens: &[Lexeme],
    bracket: Lexeme,
    at: usize,
    room: u32,
) -> Result<(Stmt, usize), Fault>
    requires { bracket.class ≡ Class.Open }
    ensures { ReadsAll (λ r ts rest. Statement room (bracket ∷ ts) r.0 rest) (λ r. r.1) (bracket_parts room)
        tokens.now at result }
{
    let (first, past_first) = expect_name(tokens, at, room)?;
    let (targets, unpack, past_names) = target_list(alloc, tokens, first, past_first)?;
    let (_close, past) = expect(tokens, past_names, Class::Close)?;
    let (value, end) = assigned(alloc, tokens, past, room)?;
    let line = bracket.line;
    let value = Some(value);
    Ok((
        Stmt {
            line,
            targets,
            unpack,
            op: AssignOp::Set,
            value,
        },
        end,
    ))
}

// A statement, and the place after it.
fn statement(alloc: Global, tokens: &[Lexeme], at: usize, room: u32) -> Result<(Stmt, usize), Fault>
    ensures { Reads (λ r ts rest. Statement room ts r.0 rest) (λ r. r.1) (a_statement room) tokens.now at result }
{
    let Some(first) = peek(tokens, at) else {
        return Err(Fault::Short);
    };
    match first.class {
        Class::Name(_) => named(alloc, tokens, first, at + 1, room),
        Class::Open => bracketed(alloc, tokens, first, at + 1, room),
        Class::From => {
            let end = import_rest(tokens, at + 1)?;
            let (line, targets) = (first.line, Items::new(alloc));
            Ok((
                Stmt {
                    line,
                    targets,
                    unpack: false,
                    op: AssignOp::ImportAll,
                    value: None,
                },
                end,
            ))
        }
        _ => Err(Fault::Wrong(at)),
    }
}

/// The statements that all the tokens are.
///
/// The fault is at the first token such that no list of statements begins with the tokens up to it, or the tokens end
/// too early.
pub fn read_statements(alloc: Global, tokens: &[Lexeme]) -> Result<Items<Stmt>, Fault>
    ensures found { IfOk result (λ sts. File DEPTH_LIMIT tokens.now sts []) }
    ensures only { IfOk result (λ sts. (xs : List Stmt) → File DEPTH_LIMIT tokens.now xs [] → sts ≡ xs) }
    ensures refused { IfErr result (λ f. IsRefusal DEPTH_LIMIT tokens.now f) }
{
    let mut all = Items::new(alloc);
    let mut at = 0;
    'all: loop {
        if at >= tokens.len() {
            return Ok(all);
        }
        let (one, end) = statement(alloc, tokens, at, DEPTH_LIMIT)?;
        all.push(one)?;
        at = end;
    }
}
