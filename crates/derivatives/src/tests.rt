//! Worked derivatives.

use crate::{by_variable, expand, gateaux};
use ratio::Ratio;
use sqlite_items::{Boxed, Items};
use std::alloc::{AllocError, Global};
use ufl_tree::{Function, Ix, Plain, Role};

/// What is put on a pile of trees, or made of those on top.
#[derive(Clone, Copy)]
enum Step {
    One,
    Of(Role, &'static [Ix]),
    Neg,
    Sum,
    Prod,
    Over(u16, u8),
    Dx(Ix),
    Delta(Ix, Ix),
    /// Of the two on top.
    Pick(Ix),
    Mark(u32, &'static [Ix]),
    Raise(u32, &'static [Ix]),
    Turn(Role, Role),
}

use Step::{Delta, Dx, Mark, Neg, Of, One, Over, Pick, Prod, Raise, Sum, Turn};

/// The call whose answer is worked out.
#[derive(Clone, Copy)]
enum Call {
    Expand,
    Variable(u32, &'static [Ix]),
    Gateaux(Role, Role),
}

const COEFFICIENT: Role = Role::Coefficient(0);

const OTHER: Role = Role::Coefficient(1);

const W: Step = Of(COEFFICIENT, &[]);

const G: Step = Of(OTHER, &[]);

const V: Step = Of(Role::Test, &[]);

const I: Ix = Ix::Named(8);

const J: Ix = Ix::Named(9);

const FIRST: Ix = Ix::Fixed(0);

const SECOND: Ix = Ix::Fixed(1);

/// A component of the coefficient, and of the variable whose value it is.
const W_I: Step = Of(COEFFICIENT, &[I]);

const M_I: Step = Mark(3, &[I]);

fn put_index(text: &mut Vec<u8>, i: Ix) -> Result<(), AllocError> {
    match i {
        Ix::Fixed(k) => text.push(b'0' + k % 10)?,
        Ix::Named(k) => text.push(b'a' + (k % 26) as u8)?,
    }
    Ok(())
}

fn put_indices(text: &mut Vec<u8>, at: &[Ix]) -> Result<(), AllocError> {
    for i in at {
        put_index(text, *i)?;
    }
    Ok(())
}

fn letter(role: Role) -> u8 {
    match role {
        Role::Test => b'V',
        Role::Trial => b'U',
        Role::Position => b'X',
        Role::Coefficient(0) => b'W',
        Role::Coefficient(_) => b'G',
    }
}

/// A letter with its indices.
fn put_node(text: &mut Vec<u8>, letter: u8, at: &[Ix]) -> Result<(), AllocError> {
    text.push(letter)?;
    put_indices(text, at)
}

/// A letter for each node, with its indices.
#[cycle(sketches)]
fn put(text: &mut Vec<u8>, e: &Plain) -> Result<(), AllocError> {
    match e {
        Plain::Num(_) => put_node(text, b'#', &[]),
        Plain::Fun { f, at } => put_node(text, letter(f.role), at.as_slice()),
        Plain::Mark { label: _, at, body } => {
            put_node(text, b'M', at.as_slice())?;
            put(text, body.get())
        }
        Plain::Neg(a) => {
            put_node(text, b'-', &[])?;
            put(text, a.get())
        }
        Plain::Sum(a, b) => {
            put_node(text, b'+', &[])?;
            put(text, a.get())?;
            put(text, b.get())
        }
        Plain::Prod(a, b) => {
            put_node(text, b'*', &[])?;
            put(text, a.get())?;
            put(text, b.get())
        }
        Plain::Over { index, dim, body } => {
            put_node(text, b'S', &[Ix::Named(*index), Ix::Fixed(*dim)])?;
            put(text, body.get())
        }
        Plain::Dx { at, body } => {
            put_node(text, b'D', &[*at])?;
            put(text, body.get())
        }
        Plain::Delta(i, j) => put_node(text, b'=', &[*i, *j]),
        Plain::Pick { at, items } => {
            put_node(text, b'P', &[*at])?;
            put_all(text, items.as_slice())
        }
        Plain::Raise { label: _, at, body } => {
            put_node(text, b'R', at.as_slice())?;
            put(text, body.get())
        }
        Plain::Turn { body, .. } => {
            put_node(text, b'T', &[])?;
            put(text, body.get())
        }
    }
}

#[cycle(sketches)]
fn put_all(text: &mut Vec<u8>, items: &[Plain]) -> Result<(), AllocError> {
    for e in items {
        put(text, e)?;
    }
    Ok(())
}

/// The tree on top, or 1.
fn top(pile: &mut Items<Plain>) -> Plain {
    match pile.pop() {
        Some(e) => e,
        None => Plain::Num(Ratio::one()),
    }
}

fn top_boxed(alloc: Global, pile: &mut Items<Plain>) -> Result<Boxed<Plain>, AllocError> {
    Boxed::new(alloc, top(pile))
}

fn function(role: Role) -> Function {
    Function { role, element: 0 }
}

fn picked(alloc: Global, at: Ix, pile: &mut Items<Plain>) -> Result<Plain, AllocError> {
    let second = top(pile);
    let mut items = Items::new(alloc);
    items.push(top(pile))?;
    items.push(second)?;
    Ok(Plain::Pick { at, items })
}

fn sum(alloc: Global, pile: &mut Items<Plain>) -> Result<Plain, AllocError> {
    let second = top_boxed(alloc, pile)?;
    Ok(Plain::Sum(top_boxed(alloc, pile)?, second))
}

fn product(alloc: Global, pile: &mut Items<Plain>) -> Result<Plain, AllocError> {
    let second = top_boxed(alloc, pile)?;
    Ok(Plain::Prod(top_boxed(alloc, pile)?, second))
}

fn mark(
    alloc: Global,
    label: u32,
    at: &[Ix],
    pile: &mut Items<Plain>,
) -> Result<Plain, AllocError> {
    let at = Items::from_slice(alloc, at)?;
    let body = top_boxed(alloc, pile)?;
    Ok(Plain::Mark { label, at, body })
}

fn raise(
    alloc: Global,
    label: u32,
    at: &[Ix],
    pile: &mut Items<Plain>,
) -> Result<Plain, AllocError> {
    let at = Items::from_slice(alloc, at)?;
    let body = top_boxed(alloc, pile)?;
    Ok(Plain::Raise { label, at, body })
}

fn turn(
    alloc: Global,
    coef: Role,
    dir: Role,
    pile: &mut Items<Plain>,
) -> Result<Plain, AllocError> {
    let body = top_boxed(alloc, pile)?;
    Ok(Plain::Turn {
        coef: function(coef),
        dir: function(dir),
        body,
    })
}

fn of(alloc: Global, role: Role, at: &[Ix]) -> Result<Plain, AllocError> {
    Ok(Plain::Fun {
        f: function(role),
        at: Items::from_slice(alloc, at)?,
    })
}

fn over(alloc: Global, index: u16, dim: u8, pile: &mut Items<Plain>) -> Result<Plain, AllocError> {
    let body = top_boxed(alloc, pile)?;
    Ok(Plain::Over { index, dim, body })
}

fn dx(alloc: Global, at: Ix, pile: &mut Items<Plain>) -> Result<Plain, AllocError> {
    let body = top_boxed(alloc, pile)?;
    Ok(Plain::Dx { at, body })
}

fn made(alloc: Global, step: Step, pile: &mut Items<Plain>) -> Result<Plain, AllocError> {
    match step {
        Step::One => Ok(Plain::Num(Ratio::one())),
        Step::Of(role, at) => of(alloc, role, at),
        Step::Neg => Ok(Plain::Neg(top_boxed(alloc, pile)?)),
        Step::Sum => sum(alloc, pile),
        Step::Prod => product(alloc, pile),
        Step::Over(index, dim) => over(alloc, index, dim, pile),
        Step::Dx(at) => dx(alloc, at, pile),
        Step::Delta(i, j) => Ok(Plain::Delta(i, j)),
        Step::Pick(at) => picked(alloc, at, pile),
        Step::Mark(label, at) => mark(alloc, label, at, pile),
        Step::Raise(label, at) => raise(alloc, label, at, pile),
        Step::Turn(coef, dir) => turn(alloc, coef, dir, pile),
    }
}

fn built(alloc: Global, steps: &[Step]) -> Result<Plain, AllocError> {
    let mut pile = Items::new(alloc);
    for step in steps {
        let e = made(alloc, *step, &mut pile)?;
        pile.push(e)?;
    }
    Ok(top(&mut pile))
}

fn answer(alloc: Global, steps: &[Step], call: Call) -> Result<Plain, AllocError> {
    let e = built(alloc, steps)?;
    match call {
        Call::Expand => expand(alloc, &e),
        Call::Variable(label, at) => by_variable(alloc, &e, label, at),
        Call::Gateaux(coef, dir) => gateaux(alloc, &e, function(coef), function(dir)),
    }
}

/// A tree, the call, and the sketch of the answer: `=01` is 0 and `=00` is 1.
type Row = (&'static [Step], Call, &'static str);

const ALONG: Call = Call::Gateaux(COEFFICIENT, OTHER);

const NODES: [Row; 9] = [
    (&[One, Neg], ALONG, "-=01"),
    (&[W, V, Sum], ALONG, "+G=01"),
    (&[W, W, Prod], ALONG, "+*GW*WG"),
    (&[W, Dx(SECOND), Mark(3, &[])], ALONG, "D1G"),
    (&[Delta(FIRST, I), W, Pick(I)], ALONG, "Pi=01G"),
    (&[W_I, Over(8, 2)], ALONG, "Sj2Gj"),
    (&[W, Mark(3, &[])], Call::Variable(3, &[]), "+=01=00"),
    (&[W, Mark(3, &[])], Call::Variable(4, &[]), "+=01=01"),
    (&[W, Mark(3, &[])], Call::Variable(3, &[FIRST]), "+=01=01"),
];

const TREES: [Row; 8] = [
    // nothing to carry out: other names for the sums, free names as they are
    (
        &[Of(COEFFICIENT, &[I, J]), Over(8, 2), Over(8, 3)],
        Call::Expand,
        "Sk3Sl2Wlj",
    ),
    // a derivative within a derivative
    (
        &[W, W, Prod, Turn(COEFFICIENT, OTHER)],
        ALONG,
        "++*=01W*GG+*GG*W=01",
    ),
    // the variable's own value is not differentiated by it
    (
        &[W, W, Mark(3, &[]), Prod],
        Call::Variable(3, &[]),
        "+*=01MW*W+=01=00",
    ),
    // by a component with a free name, which the sum does not bind
    (
        &[W_I, M_I, Over(8, 2), Raise(3, &[I])],
        Call::Expand,
        "Sj2+=01*=ji=00",
    ),
    (
        &[W_I, M_I, Over(8, 2)],
        Call::Variable(3, &[I]),
        "Sj2+=01*=ji=00",
    ),
    // within the sum the name is its
    (
        &[W_I, M_I, Raise(3, &[I]), Over(8, 2)],
        Call::Expand,
        "Sj2+=01*=jj=00",
    ),
    // by a variable, and by the function that is its value
    (
        &[W, Mark(3, &[]), W, Prod, Raise(3, &[])],
        ALONG,
        "++*+=01=01W*+=01=00G+*G=01*MW=01",
    ),
    // the direction is a function of the tree too
    (
        &[W, G, Prod, Turn(COEFFICIENT, OTHER)],
        Call::Expand,
        "+*GG*W=01",
    ),
];

fn is_sketch(alloc: Global, row: Row) -> Result<bool, AllocError> {
    let (steps, call, sketch) = row;
    let mut text = Vec::new(alloc);
    put(&mut text, &answer(alloc, steps, call)?)?;
    Ok(text.as_slice() == sketch.as_bytes())
}

#[test]
fn worked_derivatives(rt: HostRuntime) -> Result<(), AllocError> {
    for row in NODES {
        assert!(rt; is_sketch(rt.alloc(), row)?, "{}", row.2);
    }
    for row in TREES {
        assert!(rt; is_sketch(rt.alloc(), row)?, "{}", row.2);
    }
    Ok(())
}
