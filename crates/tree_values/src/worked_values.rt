//! Values of small expressions, against numbers worked out by hand.

use crate::poly::Poly;
use crate::values::value;
use crate::worked::{
    A, B, F, Name, PAIR, SPACE_A, SPACE_F, SPACE_U, SPACE_V, U, V, elements, function, functions,
    gives, scene, table, whole,
};
use reference::Fault;
use sqlite_items::Items;
use std::alloc::{AllocError, Global};
use ufl_expr::{Elements, Expr, TypeRefusal};
use ufl_tree::{Ix, Op1, Op2, Tree};

/// What is put on a pile of expressions, or made of those on top.
#[derive(Clone, Copy)]
pub enum Step {
    Number(i128),
    Identity(u8),
    Of(Name),
    /// A function under a label.
    Under(Name, u32),
    /// A sub-element of `PAIR`.
    Part(u8),
    One(Op1),
    Two(Op2),
    Cube,
    At(&'static [Ix]),
    Along(Ix),
    Over(&'static [u16]),
    Label(u32),
    /// The derivative by the variable on top.
    By,
    /// A list of two.
    Beside,
}

use Step::{Along, At, Beside, By, Cube, Identity, Label, Number, Of, One, Over, Part, Two, Under};

const I: Ix = Ix::Named(7);

const J: Ix = Ix::Named(8);

fn top(pile: &mut Items<Expr>) -> Result<Expr, TypeRefusal> {
    pile.pop().ok_or(TypeRefusal::Kind)
}

fn of(alloc: Global, name: Name, table: &Elements) -> Result<Expr, TypeRefusal> {
    Expr::function(alloc, function(name).ok_or(TypeRefusal::Kind)?, table)
}

fn under(alloc: Global, name: Name, label: u32, table: &Elements) -> Result<Expr, TypeRefusal> {
    Expr::variable(alloc, label, of(alloc, name, table)?)
}

fn part(alloc: Global, which: u8, table: &Elements) -> Result<Expr, TypeRefusal> {
    Expr::piece(
        alloc,
        function(PAIR).ok_or(TypeRefusal::Kind)?,
        table,
        which,
    )
}

fn number(alloc: Global, n: i128) -> Result<Expr, TypeRefusal> {
    let Ok(c) = whole(n) else {
        return Err(TypeRefusal::Kind);
    };
    Expr::number(alloc, c)
}

fn two(alloc: Global, op: Op2, pile: &mut Items<Expr>) -> Result<Expr, TypeRefusal> {
    let b = top(pile)?;
    Expr::two(alloc, op, top(pile)?, b)
}

fn by(alloc: Global, pile: &mut Items<Expr>) -> Result<Expr, TypeRefusal> {
    let v = top(pile)?;
    Expr::diff(alloc, top(pile)?, &v)
}

fn listed(alloc: Global, a: Expr, b: Expr) -> Result<Vec<Expr>, AllocError> {
    Ok(vec![in alloc; a, b]?)
}

fn beside(alloc: Global, pile: &mut Items<Expr>) -> Result<Expr, TypeRefusal> {
    let b = top(pile)?;
    Expr::list(alloc, listed(alloc, top(pile)?, b)?)
}

fn made(
    alloc: Global,
    step: Step,
    pile: &mut Items<Expr>,
    table: &Elements,
) -> Result<Expr, TypeRefusal> {
    match step {
        Step::Number(n) => number(alloc, n),
        Step::Identity(n) => Expr::identity(alloc, n),
        Step::Of(name) => of(alloc, name, table),
        Step::Under(name, label) => under(alloc, name, label, table),
        Step::Part(which) => part(alloc, which, table),
        Step::One(op) => Expr::one(alloc, op, top(pile)?),
        Step::Two(op) => two(alloc, op, pile),
        Step::Cube => Expr::power(alloc, top(pile)?, 3),
        Step::At(at) => Expr::index(alloc, top(pile)?, at),
        Step::Along(i) => Expr::partial(alloc, top(pile)?, i),
        Step::Over(by) => Expr::tensor(alloc, top(pile)?, by),
        Step::Label(label) => Expr::variable(alloc, label, top(pile)?),
        Step::By => by(alloc, pile),
        Step::Beside => beside(alloc, pile),
    }
}

/// What is on top after the steps.
pub fn built(alloc: Global, steps: &[Step], table: &Elements) -> Result<Expr, TypeRefusal> {
    let mut pile = Items::new(alloc);
    for step in steps {
        let e = made(alloc, *step, &mut pile, table)?;
        pile.push(e)?;
    }
    top(&mut pile)
}

fn found(alloc: Global, tree: &Tree, at: &[u8]) -> Result<Poly, Fault> {
    let elements = elements(alloc)?;
    let functions = functions(alloc)?;
    let scene = scene(elements.as_slice(), functions.as_slice());
    value(alloc, &scene, tree, at)
}

/// The steps of an expression, a component, and its value at the point as a fraction.
type Row = (&'static [Step], &'static [u8], i128, i128);

/// The first row that comes otherwise.
fn first_other(alloc: Global, rows: &[Row]) -> Result<Option<usize>, TypeRefusal> {
    let table = table(alloc)?;
    for (i, (steps, at, numerator, denominator)) in rows.iter().enumerate() {
        let e = built(alloc, steps, &table)?;
        if !gives(found(alloc, e.tree(), at), *numerator, *denominator) {
            return Ok(Some(i));
        }
    }
    Ok(None)
}

/// Operators of one operand.
const ONE_IN_THE_PLANE: [Row; 24] = [
    // (18, 4) turns to (-18, -4); the derivatives of f are 6 x y and 3 x^2
    (&[Of(U), One(Op1::Neg)], &[0], -18, 1),
    (&[Of(F), One(Op1::Grad)], &[0], 36, 1),
    (&[Of(F), One(Op1::Grad)], &[1], 12, 1),
    // the derivative of u_0 in y is 2 x y, that of u_1 in x is 2 x
    (&[Of(U), One(Op1::Grad)], &[0, 1], 12, 1),
    (&[Of(U), One(Op1::Grad)], &[1, 0], 4, 1),
    (&[Of(U), One(Op1::NablaGrad)], &[0, 1], 4, 1),
    (&[Of(U), One(Op1::NablaGrad)], &[1, 0], 12, 1),
    // y^2; 2 x + x and 2 x y; 2 x + 3 y^2 and y + 2 x y
    (&[Of(U), One(Op1::Div)], &[], 9, 1),
    (&[Of(U), One(Op1::NablaDiv)], &[], 9, 1),
    (&[Of(A), One(Op1::Div)], &[0], 6, 1),
    (&[Of(A), One(Op1::Div)], &[1], 12, 1),
    (&[Of(A), One(Op1::NablaDiv)], &[0], 31, 1),
    (&[Of(A), One(Op1::NablaDiv)], &[1], 15, 1),
    // 3 x^2 and -6 x y; 2 x - 2 x y
    (&[Of(F), One(Op1::Curl)], &[0], 12, 1),
    (&[Of(F), One(Op1::Curl)], &[1], -36, 1),
    (&[Of(U), One(Op1::Curl)], &[], -8, 1),
    // a is ((4, 6), (27, 18))
    (&[Of(A), One(Op1::Transpose)], &[0, 1], 27, 1),
    (&[Of(A), One(Op1::Trace)], &[], 22, 1),
    (&[Of(A), One(Op1::Sym)], &[0, 1], 33, 2),
    (&[Of(A), One(Op1::Skew)], &[0, 1], -21, 2),
    (&[Of(A), One(Op1::Skew)], &[1, 0], 21, 2),
    (&[Of(A), One(Op1::Dev)], &[0, 0], -7, 1),
    (&[Of(A), One(Op1::Dev)], &[0, 1], 6, 1),
    (&[Of(A), One(Op1::Dev)], &[1, 1], 7, 1),
];

const ONE_IN_SPACE: [Row; 20] = [
    // the derivative of f in z is x y^2; that of u_0 in z 2 y z, that of u_2 in x y
    (&[Of(SPACE_F), One(Op1::Neg)], &[], -90, 1),
    (&[Of(SPACE_F), One(Op1::Grad)], &[2], 18, 1),
    (&[Of(SPACE_U), One(Op1::Grad)], &[0, 2], 30, 1),
    (&[Of(SPACE_U), One(Op1::NablaGrad)], &[0, 2], 3, 1),
    // 0 + 0 + 0; 2 x + 1 + 1, y + z and 0; 2 x + x + 2 z, z + x and 0
    (&[Of(SPACE_U), One(Op1::Div)], &[], 0, 1),
    (&[Of(SPACE_A), One(Op1::Div)], &[0], 6, 1),
    (&[Of(SPACE_A), One(Op1::Div)], &[1], 8, 1),
    (&[Of(SPACE_A), One(Op1::Div)], &[2], 0, 1),
    (&[Of(SPACE_A), One(Op1::NablaDiv)], &[0], 16, 1),
    (&[Of(SPACE_A), One(Op1::NablaDiv)], &[1], 7, 1),
    // x - x^2, 2 y z - y, 2 x z - z^2
    (&[Of(SPACE_U), One(Op1::Curl)], &[0], -2, 1),
    (&[Of(SPACE_U), One(Op1::Curl)], &[1], 27, 1),
    (&[Of(SPACE_U), One(Op1::Curl)], &[2], -5, 1),
    // a is ((4, 3, 5), (6, 15, 2), (25, 10, 9))
    (&[Of(SPACE_A), One(Op1::Transpose)], &[0, 2], 25, 1),
    (&[Of(SPACE_A), One(Op1::Trace)], &[], 28, 1),
    (&[Of(SPACE_A), One(Op1::Sym)], &[0, 2], 15, 1),
    (&[Of(SPACE_A), One(Op1::Skew)], &[0, 2], -10, 1),
    (&[Of(SPACE_A), One(Op1::Dev)], &[0, 0], -16, 3),
    (&[Of(SPACE_A), One(Op1::Dev)], &[1, 2], 2, 1),
    (&[Of(SPACE_A), One(Op1::Dev)], &[2, 2], -1, 3),
];

/// Operators of two operands.
const TWO_IN_THE_PLANE: [Row; 19] = [
    (&[Of(U), Of(V), Two(Op2::Sum)], &[0], 21, 1),
    (&[Of(F), Of(F), Two(Op2::Product)], &[], 1296, 1),
    (&[Of(F), Of(U), Two(Op2::Product)], &[0], 648, 1),
    (&[Of(U), Of(F), Two(Op2::Product)], &[1], 144, 1),
    // 4 * 3 + 6 * 4 and 27 * 3 + 18 * 4; 4 * 2 + 6 * 6 and 27 * 3 + 18 * 1
    (&[Of(A), Of(V), Two(Op2::Product)], &[0], 36, 1),
    (&[Of(A), Of(V), Two(Op2::Product)], &[1], 153, 1),
    (&[Of(A), Of(B), Two(Op2::Product)], &[0, 1], 44, 1),
    (&[Of(A), Of(B), Two(Op2::Product)], &[1, 0], 99, 1),
    // 18 * 3 + 4 * 4; 3 * 4 + 4 * 27
    (&[Of(F), Of(F), Two(Op2::Dot)], &[], 1296, 1),
    (&[Of(U), Of(V), Two(Op2::Dot)], &[], 70, 1),
    (&[Of(A), Of(V), Two(Op2::Dot)], &[1], 153, 1),
    (&[Of(V), Of(A), Two(Op2::Dot)], &[0], 120, 1),
    (&[Of(A), Of(B), Two(Op2::Dot)], &[0, 1], 44, 1),
    // 4 * 3 + 6 * 2 + 27 * 1 + 18 * 6
    (&[Of(F), Of(F), Two(Op2::Inner)], &[], 1296, 1),
    (&[Of(U), Of(V), Two(Op2::Inner)], &[], 70, 1),
    (&[Of(A), Of(B), Two(Op2::Inner)], &[], 159, 1),
    // 18 * 4, 4 * 3; 4 * 6
    (&[Of(U), Of(V), Two(Op2::Outer)], &[0, 1], 72, 1),
    (&[Of(U), Of(V), Two(Op2::Outer)], &[1, 0], 12, 1),
    (&[Of(U), Of(A), Two(Op2::Outer)], &[1, 0, 1], 24, 1),
];

const TWO_IN_SPACE: [Row; 10] = [
    // 75 * 2 + 20 * 15 + 6 * 1; 25 * 2 + 10 * 15 + 9 * 1; 4 * 3 + 3 * 15 + 5 * 10
    (&[Of(SPACE_U), Of(SPACE_V), Two(Op2::Dot)], &[], 456, 1),
    (&[Of(SPACE_A), Of(SPACE_V), Two(Op2::Product)], &[2], 209, 1),
    (&[Of(SPACE_A), Of(SPACE_A), Two(Op2::Dot)], &[0, 1], 107, 1),
    // 16 + 9 + 25 + 36 + 225 + 4 + 625 + 100 + 81
    (&[Of(SPACE_A), Of(SPACE_A), Two(Op2::Inner)], &[], 1121, 1),
    (&[Of(SPACE_U), Of(SPACE_V), Two(Op2::Outer)], &[2, 1], 90, 1),
    // 20 * 1 - 6 * 15, 6 * 2 - 75 * 1, 75 * 15 - 20 * 2
    (&[Of(SPACE_U), Of(SPACE_V), Two(Op2::Cross)], &[0], -70, 1),
    (&[Of(SPACE_U), Of(SPACE_V), Two(Op2::Cross)], &[1], -63, 1),
    (&[Of(SPACE_U), Of(SPACE_V), Two(Op2::Cross)], &[2], 1085, 1),
    (&[Of(SPACE_A), Of(SPACE_A), Two(Op2::Sum)], &[2, 0], 50, 1),
    (
        &[Of(SPACE_F), Of(SPACE_V), Two(Op2::Product)],
        &[1],
        1350,
        1,
    ),
];

/// Other nodes.
const OTHERS: [Row; 16] = [
    (&[Of(F), Cube], &[], 46656, 1),
    (&[Number(7)], &[], 7, 1),
    (
        &[Of(F), Of(F), Two(Op2::Product), Of(F), Beside],
        &[0],
        1296,
        1,
    ),
    (
        &[Of(F), Of(F), Two(Op2::Product), Of(F), Beside],
        &[1],
        36,
        1,
    ),
    (&[Of(A), At(&[Ix::Fixed(1), Ix::Fixed(0)])], &[], 27, 1),
    // as the dot product, the trace and the divergence
    (
        &[Of(U), At(&[I]), Of(V), At(&[I]), Two(Op2::Product)],
        &[],
        70,
        1,
    ),
    (&[Of(A), At(&[I, I])], &[], 22, 1),
    (&[Of(U), At(&[I]), Along(I)], &[], 9, 1),
    (&[Of(F), Along(Ix::Fixed(1))], &[], 12, 1),
    (&[Part(0)], &[2], 5, 1),
    (&[Part(1)], &[], 7, 1),
    (&[Of(A), At(&[I, J]), Over(&[8, 7])], &[0, 1], 27, 1),
    (&[Of(A), At(&[I, J]), Over(&[8, 7])], &[1, 0], 6, 1),
    (&[Identity(2)], &[0, 0], 1, 1),
    (&[Identity(2)], &[1, 1], 1, 1),
    (&[Identity(2)], &[0, 1], 0, 1),
];

const TIMES: Step = Two(Op2::Product);

const INNER: Step = Two(Op2::Inner);

/// variable(f), variable(u) and variable(a)
const W: Step = Under(F, 1);

const W_U: Step = Under(U, 1);

const W_A: Step = Under(A, 1);

/// Variables, and derivatives by them.
const VARIABLES: [Row; 8] = [
    (&[W_U], &[0], 18, 1),
    (&[W_U], &[1], 4, 1),
    // inner(w, w) by w: 2 a
    (&[W_A, W_A, INNER, W_A, By], &[0, 1], 12, 1),
    (&[W_A, W_A, INNER, W_A, By], &[1, 0], 54, 1),
    // q w, where q is w w under another label: 3 w^2 by w, and w by q
    (&[W, W, TIMES, Label(2), W, TIMES, W, By], &[], 3888, 1),
    (
        &[W, W, TIMES, Label(2), W, TIMES, W, W, TIMES, Label(2), By],
        &[],
        36,
        1,
    ),
    // f outside the label stays
    (&[W, Of(F), TIMES, W, By], &[], 36, 1),
    // w w w by w, twice: 6 w
    (&[W, W, TIMES, W, TIMES, W, By, W, By], &[], 216, 1),
];

#[test]
fn operators_of_one_operand(rt: HostRuntime) {
    assert!(rt; first_other(rt.alloc(), &ONE_IN_THE_PLANE) == Ok(None));
    assert!(rt; first_other(rt.alloc(), &ONE_IN_SPACE) == Ok(None));
}

#[test]
fn operators_of_two_operands(rt: HostRuntime) {
    assert!(rt; first_other(rt.alloc(), &TWO_IN_THE_PLANE) == Ok(None));
    assert!(rt; first_other(rt.alloc(), &TWO_IN_SPACE) == Ok(None));
}

#[test]
fn other_nodes(rt: HostRuntime) {
    assert!(rt; first_other(rt.alloc(), &OTHERS) == Ok(None));
    assert!(rt; first_other(rt.alloc(), &VARIABLES) == Ok(None));
}
