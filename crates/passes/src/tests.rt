//! Worked components.

ghost use Rattle.std.specs.Prelude.{◌≤◌, IfOk, length};

use crate::lower;
use spaces::{Cell, Element, Family};
use std::alloc::{AllocError, Global};
use ufl_expr::{Elements, Expr, TypeRefusal};
use ufl_tree::{Function, Ix, Op1, Op2, Plain, Role};

fn put_index(text: &mut Vec<u8>, i: Ix) -> Result<(), AllocError> {
    match i {
        Ix::Fixed(k) => text.push(b'0' + k % 10)?,
        Ix::Named(k) => text.push(b'a' + (k % 26) as u8)?,
    }
    Ok(())
}

fn put_indices(text: &mut Vec<u8>, at: &[Ix]) -> Result<(), AllocError> {
    for i in at {
        put_index(text, *i)?;
    }
    Ok(())
}

/// A letter for each node, with its indices.
#[cycle(sketches)]
fn put(text: &mut Vec<u8>, e: &Plain) -> Result<(), AllocError> {
    match e {
        Plain::Num(_) => {
            text.push(b'#')?;
            Ok(())
        }
        Plain::Fun { f: _, at } => {
            text.push(b'U')?;
            put_indices(text, at.as_slice())
        }
        Plain::Mark { label: _, at, body } => {
            text.push(b'M')?;
            put_indices(text, at.as_slice())?;
            put(text, body.get())
        }
        Plain::Neg(a) => {
            text.push(b'-')?;
            put(text, a.get())
        }
        Plain::Sum(a, b) => {
            text.push(b'+')?;
            put(text, a.get())?;
            put(text, b.get())
        }
        Plain::Prod(a, b) => {
            text.push(b'*')?;
            put(text, a.get())?;
            put(text, b.get())
        }
        Plain::Over { index, dim, body } => {
            text.push(b'S')?;
            put_indices(text, &[Ix::Named(*index), Ix::Fixed(*dim)])?;
            put(text, body.get())
        }
        Plain::Dx { at, body } => {
            text.push(b'D')?;
            put_index(text, *at)?;
            put(text, body.get())
        }
        Plain::Delta(i, j) => {
            text.push(b'=')?;
            put_indices(text, &[*i, *j])
        }
        Plain::Pick { at, items } => {
            text.push(b'P')?;
            put_index(text, *at)?;
            put_all(text, items.as_slice())
        }
        Plain::Raise { label: _, at, body } => {
            text.push(b'R')?;
            put_indices(text, at.as_slice())?;
            put(text, body.get())
        }
        Plain::Turn { body, .. } => {
            text.push(b'T')?;
            put(text, body.get())
        }
    }
}

#[cycle(sketches)]
fn put_all(text: &mut Vec<u8>, items: &[Plain]) -> Result<(), AllocError> {
    for e in items {
        put(text, e)?;
    }
    Ok(())
}

/// The first component of a function of the element of this number.
fn function(role: Role, element: u16) -> Function {
    Function { role, element }
}

fn scalar(cell: Cell) -> Result<Element, TypeRefusal> {
    Element::scalar(Family::Lagrange, cell, 1).ok_or(TypeRefusal::Kind)
}

fn vector(alloc: Global, cell: Cell, dim: u8) -> Result<Element, TypeRefusal> {
    match Element::vector(alloc, scalar(cell)?, dim) {
        Ok(element) => Ok(element),
        Err(_) => Err(TypeRefusal::Kind),
    }
}

fn matrix(alloc: Global, cell: Cell, dim: u8) -> Result<Element, TypeRefusal> {
    match Element::tensor(alloc, scalar(cell)?, dim, dim) {
        Ok(element) => Ok(element),
        Err(_) => Err(TypeRefusal::Kind),
    }
}

fn both(alloc: Global, first: Element, second: Element) -> Result<Vec<Element>, AllocError> {
    Ok(vec![in alloc; first, second]?)
}

fn mixed(alloc: Global) -> Result<Element, TypeRefusal> {
    let parts = both(
        alloc,
        scalar(Cell::Triangle)?,
        vector(alloc, Cell::Triangle, 2)?,
    )?;
    match Element::mixed(alloc, parts) {
        Ok(element) => Ok(element),
        Err(_) => Err(TypeRefusal::Kind),
    }
}

/// A scalar, a vector and a matrix in the plane.
fn plane(alloc: Global) -> Result<Elements, TypeRefusal>
    ensures { IfOk result (λ all. length all ≤ 3) }
{
    let mut all = Elements::new(alloc);
    all.add(scalar(Cell::Triangle)?)?;
    all.add(vector(alloc, Cell::Triangle, 2)?)?;
    all.add(matrix(alloc, Cell::Triangle, 2)?)?;
    Ok(all)
}

/// These, a vector in space, and a scalar with a vector in the plane.
fn elements(alloc: Global) -> Result<Elements, TypeRefusal> {
    let mut all = plane(alloc)?;
    all.add(vector(alloc, Cell::Tetrahedron, 3)?)?;
    all.add(mixed(alloc)?)?;
    Ok(all)
}

const SCALAR: u16 = 0;

const VECTOR: u16 = 1;

const MATRIX: u16 = 2;

const SPACE: u16 = 3;

const MIXED: u16 = 4;

const I: Ix = Ix::Named(8);

const J: Ix = Ix::Named(9);

const FIRST: Ix = Ix::Fixed(0);

const SECOND: Ix = Ix::Fixed(1);

/// What is made of a coefficient.
#[derive(Clone, Copy)]
enum Making {
    One(Op1),
    /// With itself.
    Two(Op2),
    Cube,
    At(&'static [Ix]),
    Along(Ix),
    /// The component at some indices, over names.
    Over(&'static [Ix], &'static [u16]),
    Diff,
    Twice,
    Part(u8),
}

fn leaf(alloc: Global, element: u16, all: &Elements) -> Result<Expr, TypeRefusal> {
    Expr::function(alloc, function(Role::Coefficient(0), element), all)
}

fn beside(alloc: Global, first: Expr, second: Expr) -> Result<Vec<Expr>, AllocError> {
    Ok(vec![in alloc; first, second]?)
}

fn diff(alloc: Global, a: Expr) -> Result<Expr, TypeRefusal> {
    let variable = Expr::variable(alloc, 3, a)?;
    let body = Expr::two(
        alloc,
        Op2::Inner,
        variable.copy(alloc)?,
        variable.copy(alloc)?,
    )?;
    Expr::diff(alloc, body, &variable)
}

fn with_itself(alloc: Global, op: Op2, element: u16, all: &Elements) -> Result<Expr, TypeRefusal> {
    let first = leaf(alloc, element, all)?;
    let second = leaf(alloc, element, all)?;
    Expr::two(alloc, op, first, second)
}

fn twice(alloc: Global, element: u16, all: &Elements) -> Result<Expr, TypeRefusal> {
    let first = leaf(alloc, element, all)?;
    let second = leaf(alloc, element, all)?;
    Expr::list(alloc, beside(alloc, first, second)?)
}

fn over(alloc: Global, a: Expr, at: &[Ix], by: &[u16]) -> Result<Expr, TypeRefusal> {
    let component = Expr::index(alloc, a, at)?;
    Expr::tensor(alloc, component, by)
}

fn made(alloc: Global, element: u16, how: Making, all: &Elements) -> Result<Expr, TypeRefusal> {
    match how {
        Making::One(op) => Expr::one(alloc, op, leaf(alloc, element, all)?),
        Making::Two(op) => with_itself(alloc, op, element, all),
        Making::Cube => Expr::power(alloc, leaf(alloc, element, all)?, 3),
        Making::At(at) => Expr::index(alloc, leaf(alloc, element, all)?, at),
        Making::Along(i) => Expr::partial(alloc, leaf(alloc, element, all)?, i),
        Making::Over(at, by) => over(alloc, leaf(alloc, element, all)?, at, by),
        Making::Diff => diff(alloc, leaf(alloc, element, all)?),
        Making::Twice => twice(alloc, element, all),
        Making::Part(n) => Expr::piece(alloc, function(Role::Coefficient(0), element), all, n),
    }
}

/// The element of a coefficient, what is made of it, a component of that, and the sketch of the tree.
type Row = (u16, Making, &'static [Ix], &'static str);

const ROWS: [Row; 26] = [
    (VECTOR, Making::One(Op1::Neg), &[SECOND], "-U1"),
    (VECTOR, Making::One(Op1::Grad), &[FIRST, SECOND], "D1U0"),
    (
        VECTOR,
        Making::One(Op1::NablaGrad),
        &[FIRST, SECOND],
        "D0U1",
    ),
    (MATRIX, Making::One(Op1::Div), &[SECOND], "Sa2DaU1a"),
    (MATRIX, Making::One(Op1::NablaDiv), &[SECOND], "Sa2DaUa1"),
    (SCALAR, Making::One(Op1::Curl), &[SECOND], "P1D1U-D0U"),
    (VECTOR, Making::One(Op1::Curl), &[], "+D0U1-D1U0"),
    (
        SPACE,
        Making::One(Op1::Curl),
        &[FIRST],
        "P0+D1U2-D2U1+D2U0-D0U2+D0U1-D1U0",
    ),
    (MATRIX, Making::One(Op1::Transpose), &[FIRST, SECOND], "U10"),
    (MATRIX, Making::One(Op1::Trace), &[], "Sa2Uaa"),
    (MATRIX, Making::One(Op1::Sym), &[FIRST, SECOND], "*#+U01U10"),
    (
        MATRIX,
        Making::One(Op1::Skew),
        &[FIRST, SECOND],
        "*#+U01-U10",
    ),
    (
        MATRIX,
        Making::One(Op1::Dev),
        &[FIRST, FIRST],
        "+U00-**Sa2Uaa#=00",
    ),
    (VECTOR, Making::Two(Op2::Sum), &[FIRST], "+U0U0"),
    (
        MATRIX,
        Making::Two(Op2::Product),
        &[FIRST, SECOND],
        "Sa2*U0aUa1",
    ),
    (VECTOR, Making::Two(Op2::Dot), &[], "Sa2*UaUa"),
    (MATRIX, Making::Two(Op2::Inner), &[], "Sa2Sb2*UabUab"),
    (VECTOR, Making::Two(Op2::Outer), &[FIRST, SECOND], "*U0U1"),
    (
        SPACE,
        Making::Two(Op2::Cross),
        &[FIRST],
        "P0+*U1U2-*U2U1+*U2U0-*U0U2+*U0U1-*U1U0",
    ),
    (SCALAR, Making::Cube, &[], "**UUU"),
    (MATRIX, Making::At(&[I, I]), &[], "Sj2Ujj"),
    (SCALAR, Making::Along(SECOND), &[], "D1U"),
    (
        MATRIX,
        Making::Over(&[I, J], &[9, 8]),
        &[FIRST, SECOND],
        "U10",
    ),
    (VECTOR, Making::Twice, &[SECOND, FIRST], "P1U0U0"),
    (MIXED, Making::Part(1), &[SECOND], "P1U1U2"),
    (VECTOR, Making::Diff, &[SECOND], "R1Sa2*MaUaMaUa"),
];

fn sketch(alloc: Global, e: &Expr, at: &[Ix], all: &Elements) -> Result<Vec<u8>, AllocError> {
    let mut text = Vec::new(alloc);
    let tree = lower(alloc, e, at, all)?;
    put(&mut text, &tree)?;
    Ok(text)
}

fn sketch_of(alloc: Global, row: Row, all: &Elements) -> Result<Vec<u8>, TypeRefusal> {
    let (element, how, at, _) = row;
    let e = made(alloc, element, how, all)?;
    Ok(sketch(alloc, &e, at, all)?)
}

#[test]
fn worked_components(rt: HostRuntime) -> Result<(), TypeRefusal> {
    let all = elements(rt.alloc())?;
    for row in ROWS {
        let text = sketch_of(rt.alloc(), row, &all)?;
        assert!(rt; text.as_slice() == row.3.as_bytes(), "{}", row.3);
    }
    Ok(())
}
