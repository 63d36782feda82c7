// Values by recursive descent: a function for each part of the grammar, which answers the part and the place after it.
// `room` is how many brackets, signs and `**` may still be open inside.

ghost use Rattle.std.specs.Prelude.{[], ◌∷◌, ◌++◌, ◌≡◌, ◌+◌, ◌<◌, ℕ, List, true, drop, length, IfOk, IfSome};
ghost use Rattle.ufl_syntax.specs.Grammar.{is_sign, Value, Later, Sum, Term, Signed, Postfix, OnePost, Args, OneArg, Atom};
ghost use Rattle.ufl_syntax.specs.Grammar.{chain as as_chain, applied as as_applied};
ghost use Rattle.ufl_syntax.specs.Machine.{a_value, a_later, a_sum, a_term, a_signed, a_power, a_postfix, an_atom, posts, a_post, args, an_arg};
ghost use Rattle.ufl_syntax.specs.declared.tree.Syn.{Syn};
ghost use Rattle.ufl_read.specs.Levels.{IsChain, IsOperand, a_chain, an_operand, is_joining, joined};
ghost use Rattle.ufl_read.specs.Reads.{IsAt, Reads, EndsTerm};
ghost use Rattle.ufl_syntax.specs.declared.class.Lexeme.{Lexeme};

use crate::lists::add;
use crate::tokens::{
    Fault, deeper, ends_term, expect, expect_name, factors, follows, keyed, peek, same, signs,
    starts,
};
use sqlite_items::{Boxed, Items};
use std::alloc::{AllocError, Global};
use ufl_syntax::{Arg, Class, Lexeme, Next, Post, Syn};

// A chain of one part is that part.
#[inline(always)]
fn chained(alloc: Global, first: Syn, chain: Items<Next>) -> Result<Syn, AllocError>
    ensures { IfOk result (λ e. e ≡ as_chain first chain) }
{
    if chain.is_empty() {
        return Ok(first);
    }
    Ok(Syn::Binary(Boxed::new(alloc, first)?, chain))
}

// A value with what stands behind it. Behind a chain, which brackets may hold, the chain goes on.
fn applied(alloc: Global, first: Syn, all: Items<Post>) -> Result<Syn, AllocError>
    ensures { IfOk result (λ e. e ≡ as_applied first all) }
{
    if all.is_empty() {
        return Ok(first);
    }
    match first {
        Syn::Postfix(base, before) => {
            let mut posts = before;
            posts.append(all)?;
            Ok(Syn::Postfix(base, posts))
        }
        other => Ok(Syn::Postfix(Boxed::new(alloc, other)?, all)),
    }
}

#[cycle(reader)]
pub fn value(alloc: Global, tokens: &[Lexeme], at: usize, room: u32) -> Result<(Syn, usize), Fault>
    ensures { Reads (λ r ts rest. Value room ts r.0 rest) (λ r. r.1) (a_value room) tokens.now at result }
{
    let (first, past) = sum(alloc, tokens, at, room)?;
    let Some(comma) = peek(tokens, past) else {
        return Ok((first, past));
    };
    if !same(Class::Comma, comma.class) {
        return Ok((first, past));
    }
    let mut before = Items::new(alloc);
    add(alloc, &mut before, first)?;
    let (items, end) = later(alloc, tokens, past + 1, room, before)?;
    Ok((Syn::Tuple(comma.span, items), end))
}

// The items that may stand after a comma or in a list's brackets, behind those before.
#[cycle(reader)]
fn later(
    alloc: Global,
    tokens: &[Lexeme],
    from: usize,
    room: u32,
    before: Items<Syn>,
) -> Result<(Items<Syn>, usize), Fault>
    ensures { Reads (λ r ts rest. (es : List Syn) × Later room ts es rest
        × (r.0 ≡ before ++ es)) (λ r. r.1) (a_later room) tokens.now from result }
{
    let mut items = before;
    let mut at = from;
    'all: loop {
        let Some(first) = peek(tokens, at) else {
            return Ok((items, at));
        };
        if !starts(first.class) {
            return Ok((items, at));
        }
        let (item, past) = sum(alloc, tokens, at, room)?;
        add(alloc, &mut items, item)?;
        let Some(comma) = peek(tokens, past) else {
            return Ok((items, past));
        };
        if !same(Class::Comma, comma.class) {
            return Ok((items, past));
        }
        at = past + 1;
    }
}

// Whether no term before this place goes on there.
fn is_end_of_term(tokens: &[Lexeme], at: usize) -> bool
    ensures { result ≡ true → EndsTerm (drop at tokens.now) }
{
    match peek(tokens, at) {
        Some(next) => ends_term(next.class),
        None => true,
    }
}

// The term that is one token.
fn short_term(tokens: &[Lexeme], at: usize) -> Option<Syn>
    ensures within { IfSome result (λ e. at < length tokens.now) }
    ensures term { IfSome result (λ e. (room : ℕ) → Term room (drop at tokens.now) e (drop (at + 1) tokens.now)) }
    ensures ended { IfSome result (λ e. EndsTerm (drop (at + 1) tokens.now)) }
{
    let first = peek(tokens, at)?;
    if !is_end_of_term(tokens, at + 1) {
        return None;
    }
    match first.class {
        Class::Name(_) => Some(Syn::Name(first.span)),
        Class::Number => Some(Syn::Number(first.span)),
        Class::Text => Some(Syn::Text(first.span)),
        _ => None,
    }
}

// Most terms are one token; these are read without a call for each level below.
#[cycle(reader)]
fn term(alloc: Global, tokens: &[Lexeme], at: usize, room: u32) -> Result<(Syn, usize), Fault>
    ensures { Reads (λ r ts rest. Term room ts r.0 rest) (λ r. r.1) (a_term room) tokens.now at result }
{
    if let Some(short) = short_term(tokens, at) {
        return Ok((short, at + 1));
    }
    chain(alloc, tokens, at, room, Level::Term)
}

#[cycle(reader)]
#[inline(always)]
fn sum(alloc: Global, tokens: &[Lexeme], at: usize, room: u32) -> Result<(Syn, usize), Fault>
    ensures { Reads (λ r ts rest. Sum room ts r.0 rest) (λ r. r.1) (a_sum room) tokens.now at result }
{
    chain(alloc, tokens, at, room, Level::Sum)
}

// Which operators join values: `+` and `-` join terms to a sum, `*` and `/` join factors to a term.
#[derive(Clone, Copy)]
enum Level {
    Sum,
    Term,
}

fn joins(level: Level, class: Class) -> bool
    ensures { result ≡ is_joining level class }
{
    match level {
        Level::Sum => signs(class),
        Level::Term => factors(class),
    }
}

// What stands between the operators of a level.
#[cycle(reader)]
#[inline(always)]
fn operand(
    alloc: Global,
    tokens: &[Lexeme],
    at: usize,
    room: u32,
    level: Level,
) -> Result<(Syn, usize), Fault>
    ensures { Reads (λ r ts rest. IsOperand level room ts r.0 rest) (λ r. r.1) (an_operand level room)
        tokens.now at result }
{
    match level {
        Level::Sum => term(alloc, tokens, at, room),
        Level::Term => signed(alloc, tokens, at, room),
    }
}

// Most chains are one operand; these are read without room for more.
#[cycle(reader)]
fn chain(
    alloc: Global,
    tokens: &[Lexeme],
    from: usize,
    room: u32,
    level: Level,
) -> Result<(Syn, usize), Fault>
    ensures { Reads (λ r ts rest. IsChain level room ts r.0 rest) (λ r. r.1) (a_chain level room)
        tokens.now from result }
{
    let (first, past) = operand(alloc, tokens, from, room, level)?;
    let Some(op) = peek(tokens, past) else {
        return Ok((first, past));
    };
    if !joins(level, op.class) {
        return Ok((first, past));
    }
    chain_from(alloc, tokens, first, past, room, level)
}

// The chain of this operand and those that follow.
#[cycle(reader)]
#[inline(never)]
fn chain_from(
    alloc: Global,
    tokens: &[Lexeme],
    first: Syn,
    from: usize,
    room: u32,
    level: Level,
) -> Result<(Syn, usize), Fault>
    ensures { Reads (λ r ts rest. (start : List Lexeme) → IsOperand level room start first ts
        → IsChain level room start r.0 rest) (λ r. r.1) (joined level room) tokens.now from result }
{
    let mut at = from;
    let mut chain = Items::new(alloc);
    'all: loop {
        let Some(op) = peek(tokens, at) else {
            return Ok((chained(alloc, first, chain)?, at));
        };
        if !joins(level, op.class) {
            return Ok((chained(alloc, first, chain)?, at));
        }
        let (right, end) = operand(alloc, tokens, at + 1, room, level)?;
        add(alloc, &mut chain, Next { op: op.span, right })?;
        at = end;
    }
}

// A sign binds looser than `**` to its right, and tighter to its left.
#[cycle(reader)]
fn signed(alloc: Global, tokens: &[Lexeme], at: usize, room: u32) -> Result<(Syn, usize), Fault>
    ensures { Reads (λ r ts rest. Signed room ts r.0 rest) (λ r. r.1) (a_signed room) tokens.now at result }
{
    let Some(first) = peek(tokens, at) else {
        return Err(Fault::Short);
    };
    if signs(first.class) {
        return sign_of(alloc, tokens, first, at, room);
    }
    let (base, past) = postfix(alloc, tokens, at, room)?;
    let Some(op) = peek(tokens, past) else {
        return Ok((base, past));
    };
    if !same(Class::Power, op.class) {
        return Ok((base, past));
    }
    power_of(alloc, tokens, base, op, past, room)
}

// The sign at a place and its operand.
#[cycle(reader)]
#[inline(never)]
fn sign_of(
    alloc: Global,
    tokens: &[Lexeme],
    sign: Lexeme,
    at: usize,
    room: u32,
) -> Result<(Syn, usize), Fault>
    requires here { IsAt tokens.now at sign }
    requires signs { is_sign sign.class ≡ true }
    ensures { Reads (λ r ts rest. Signed room ts r.0 rest) (λ r. r.1) (a_signed room) tokens.now at result }
{
    let inside = deeper(room, at)?;
    let (inner, end) = signed(alloc, tokens, at + 1, inside)?;
    Ok((Syn::Sign(sign.span, Boxed::new(alloc, inner)?), end))
}

// The power of this base, whose `**` is at a place.
#[cycle(reader)]
#[inline(never)]
fn power_of(
    alloc: Global,
    tokens: &[Lexeme],
    base: Syn,
    op: Lexeme,
    at: usize,
    room: u32,
) -> Result<(Syn, usize), Fault>
    requires here { IsAt tokens.now at op }
    requires power { op.class ≡ Class.Power }
    ensures { Reads (λ r ts rest. (start : List Lexeme) → Postfix room start base ts
        → Signed room start r.0 rest) (λ r. r.1) (a_power room) tokens.now at result }
{
    let inside = deeper(room, at)?;
    let (right, end) = signed(alloc, tokens, at + 1, inside)?;
    let mut chain = Items::new(alloc);
    add(alloc, &mut chain, Next { op: op.span, right })?;
    Ok((Syn::Binary(Boxed::new(alloc, base)?, chain), end))
}

#[cycle(reader)]
fn postfix(alloc: Global, tokens: &[Lexeme], from: usize, room: u32) -> Result<(Syn, usize), Fault>
    ensures { Reads (λ r ts rest. Postfix room ts r.0 rest) (λ r. r.1) (a_postfix room) tokens.now from result }
{
    let (first, past) = atom(alloc, tokens, from, room)?;
    let Some(next) = peek(tokens, past) else {
        return Ok((first, past));
    };
    if !follows(next.class) {
        return Ok((first, past));
    }
    postfix_from(alloc, tokens, first, past, room)
}

// This value with what stands behind it.
#[cycle(reader)]
#[inline(never)]
fn postfix_from(
    alloc: Global,
    tokens: &[Lexeme],
    first: Syn,
    from: usize,
    room: u32,
) -> Result<(Syn, usize), Fault>
    ensures { Reads (λ r ts rest. (start : List Lexeme) → Atom room start first ts
        → Postfix room start r.0 rest) (λ r. r.1) (posts room) tokens.now from result }
{
    let mut at = from;
    let mut all = Items::new(alloc);
    'all: loop {
        let Some(next) = peek(tokens, at) else {
            return Ok((applied(alloc, first, all)?, at));
        };
        if !follows(next.class) {
            return Ok((applied(alloc, first, all)?, at));
        }
        let (one, end) = post(alloc, tokens, at, room)?;
        add(alloc, &mut all, one)?;
        at = end;
    }
}

#[cycle(reader)]
#[inline(never)]
fn post(alloc: Global, tokens: &[Lexeme], at: usize, room: u32) -> Result<(Post, usize), Fault>
    ensures { Reads (λ r ts rest. OnePost room ts r.0 rest) (λ r. r.1) (a_post room) tokens.now at result }
{
    let Some(first) = peek(tokens, at) else {
        return Err(Fault::Short);
    };
    match first.class {
        Class::Open => {
            let inside = deeper(room, at)?;
            let (given, past) = arguments(alloc, tokens, at + 1, inside)?;
            let (_close, end) = expect(tokens, past, Class::Close)?;
            Ok((Post::Call(first.span, given), end))
        }
        Class::OpenList => {
            let inside = deeper(room, at)?;
            let (inner, past) = value(alloc, tokens, at + 1, inside)?;
            let (_close, end) = expect(tokens, past, Class::CloseList)?;
            Ok((Post::Index(first.span, Boxed::new(alloc, inner)?), end))
        }
        Class::Dot => {
            let (name, end) = expect_name(tokens, at + 1, room)?;
            Ok((Post::Attr(name.span), end))
        }
        _ => Err(Fault::Wrong(at)),
    }
}

#[cycle(reader)]
fn arguments(
    alloc: Global,
    tokens: &[Lexeme],
    from: usize,
    room: u32,
) -> Result<(Items<Arg>, usize), Fault>
    ensures { Reads (λ r ts rest. Args room ts r.0 rest) (λ r. r.1) (args room) tokens.now from result }
{
    let mut all = Items::new(alloc);
    let mut at = from;
    'all: loop {
        let Some(first) = peek(tokens, at) else {
            return Ok((all, at));
        };
        if !starts(first.class) {
            return Ok((all, at));
        }
        let (item, past) = argument(alloc, tokens, at, room)?;
        add(alloc, &mut all, item)?;
        let Some(comma) = peek(tokens, past) else {
            return Ok((all, past));
        };
        if !same(Class::Comma, comma.class) {
            return Ok((all, past));
        }
        at = past + 1;
    }
}

// Its second token says whether it has a keyword.
#[cycle(reader)]
fn argument(alloc: Global, tokens: &[Lexeme], at: usize, room: u32) -> Result<(Arg, usize), Fault>
    ensures { Reads (λ r ts rest. OneArg room ts r.0 rest) (λ r. r.1) (an_arg room) tokens.now at result }
{
    let Some(name) = peek(tokens, at) else {
        return Err(Fault::Short);
    };
    let is_keyed = match peek(tokens, at + 1) {
        Some(sign) => keyed(name.class, sign.class),
        None => false,
    };
    if is_keyed {
        let (value, end) = sum(alloc, tokens, at + 2, room)?;
        let name = Some(name.span);
        return Ok((Arg { name, value }, end));
    }
    let (value, end) = sum(alloc, tokens, at, room)?;
    Ok((Arg { name: None, value }, end))
}

#[cycle(reader)]
fn atom(alloc: Global, tokens: &[Lexeme], at: usize, room: u32) -> Result<(Syn, usize), Fault>
    ensures { Reads (λ r ts rest. Atom room ts r.0 rest) (λ r. r.1) (an_atom room) tokens.now at result }
{
    let Some(first) = peek(tokens, at) else {
        return Err(Fault::Short);
    };
    match first.class {
        Class::Name(_) => Ok((Syn::Name(first.span), at + 1)),
        Class::Number => Ok((Syn::Number(first.span), at + 1)),
        Class::Text => Ok((Syn::Text(first.span), at + 1)),
        Class::Open => {
            let inside = deeper(room, at)?;
            let (inner, past) = value(alloc, tokens, at + 1, inside)?;
            let (_close, end) = expect(tokens, past, Class::Close)?;
            Ok((inner, end))
        }
        Class::OpenList => list_of(alloc, tokens, first, at, room),
        _ => Err(Fault::Wrong(at)),
    }
}

// The list whose bracket is at a place.
#[cycle(reader)]
#[inline(never)]
fn list_of(
    alloc: Global,
    tokens: &[Lexeme],
    bracket: Lexeme,
    at: usize,
    room: u32,
) -> Result<(Syn, usize), Fault>
    requires here { IsAt tokens.now at bracket }
    requires opens { bracket.class ≡ Class.OpenList }
    ensures { Reads (λ r ts rest. Atom room ts r.0 rest) (λ r. r.1) (an_atom room) tokens.now at result }
{
    let inside = deeper(room, at)?;
    let before = Items::new(alloc);
    let (items, past) = later(alloc, tokens, at + 1, inside, before)?;
    let (_close, end) = expect(tokens, past, Class::CloseList)?;
    Ok((Syn::List(bracket.span, items), end))
}
