//! Integrands of forms, against the density of the form and numbers worked out by hand.

use crate::flatten;
use crate::integrand::Integrand;
use crate::worked::{
    G, PLANE, PLANE_VECTOR, SPACE, SPACE_VECTOR, W, at_point, elements, function, functions, scene,
    table, whole,
};
use ratio::Ratio;
use reference::Fault;
use sqlite_items::Items;
use std::alloc::Global;
use tree_values::{Poly, Scene, density, meaning};
use ufl_expr::{Elements, Expr, TypeRefusal};
use ufl_form::{Form, FormTree};
use ufl_tree::{Ix, On, Op1, Op2, Plain, Role};

/// What is put on a pile of expressions, or made of those on top. Functions are of the row's element.
#[derive(Clone, Copy)]
enum Step {
    Number(i128),
    Of(Role),
    One(Op1),
    Two(Op2),
    Cube,
    At(&'static [Ix]),
    Along(Ix),
    Over(&'static [u16]),
    Label(u32),
    /// The derivative of the second from the top by the variable on top.
    By,
}

use Step::{Along, At, By, Cube, Label, Number, Of, One, Over, Two};

/// What is done to the integral, one change after the other.
#[derive(Clone, Copy)]
enum Change {
    Left,
    Right,
    Action(Role),
    Adjoint,
    /// By w along this function.
    Derivative(Role),
    Half,
    Twice,
}

use Change::{Action, Adjoint, Derivative, Half, Left, Right, Twice};

const TIMES: Step = Two(Op2::Product);

const PLUS: Step = Two(Op2::Sum);

const DOT: Step = Two(Op2::Dot);

const INNER: Step = Two(Op2::Inner);

const GRAD: Step = One(Op1::Grad);

const CURL: Step = One(Op1::Curl);

const DIV: Step = One(Op1::Div);

const V: Step = Of(Role::Test);

const U: Step = Of(Role::Trial);

const OF_W: Step = Of(W);

const I: Ix = Ix::Named(7);

const J: Ix = Ix::Named(8);

const FIRST: Ix = Ix::Fixed(0);

const SECOND: Ix = Ix::Fixed(1);

/// u v - 3 v
const AFFINE: &[Step] = &[U, V, TIMES, Number(-3), V, TIMES, PLUS];

/// (u + 1) (u + 2) v
const SQUARED: &[Step] = &[U, Number(1), PLUS, U, Number(2), PLUS, TIMES, V, TIMES];

/// w w v
const SQUARE: &[Step] = &[OF_W, OF_W, TIMES, V, TIMES];

/// s s v, where s is w under a label
const LABELLED: &[Step] = &[OF_W, Label(1), OF_W, Label(1), TIMES, V, TIMES];

/// The derivative of s s s by s, times v, where s is w under a label
const BY_VARIABLE: &[Step] = &[OF_W, Label(1), Cube, OF_W, Label(1), By, V, TIMES];

/// The derivative of w s by s, times v
const BESIDE_VARIABLE: &[Step] = &[OF_W, OF_W, Label(1), TIMES, OF_W, Label(1), By, V, TIMES];

/// u.dx(0) v
const SLOPE: &[Step] = &[U, Along(FIRST), V, TIMES];

/// inner(grad(w), grad(w))
const ENERGY: &[Step] = &[OF_W, GRAD, OF_W, GRAD, INNER];

/// dot(w, w)
const SIZE: &[Step] = &[OF_W, OF_W, DOT];

/// w[i] w[i]
const SIZE_BY_INDEX: &[Step] = &[OF_W, At(&[I]), OF_W, At(&[I]), TIMES];

/// inner(w, w) dot(w, v)
const CUBIC: &[Step] = &[OF_W, OF_W, INNER, OF_W, V, DOT, TIMES];

/// diff(inner(s, s), s)[0, 1], where s is grad(w) under a label
const BY_MATRIX: &[Step] = &[
    OF_W,
    GRAD,
    Label(1),
    OF_W,
    GRAD,
    Label(1),
    INNER,
    OF_W,
    GRAD,
    Label(1),
    By,
    At(&[FIRST, SECOND]),
];

/// inner(as_matrix(grad(w)[i, j], (j, i)), grad(w))
const EXCHANGED: &[Step] = &[OF_W, GRAD, At(&[I, J]), Over(&[8, 7]), OF_W, GRAD, INNER];

/// dot(curl(u), v)
const ROTATION: &[Step] = &[U, CURL, V, DOT];

/// div(w) div(w)
const SOURCES: &[Step] = &[OF_W, DIV, OF_W, DIV, TIMES];

fn top(pile: &mut Items<Expr>) -> Result<Expr, TypeRefusal> {
    pile.pop().ok_or(TypeRefusal::Kind)
}

fn two(alloc: Global, op: Op2, pile: &mut Items<Expr>) -> Result<Expr, TypeRefusal> {
    let second = top(pile)?;
    Expr::two(alloc, op, top(pile)?, second)
}

fn by(alloc: Global, pile: &mut Items<Expr>) -> Result<Expr, TypeRefusal> {
    let variable = top(pile)?;
    Expr::diff(alloc, top(pile)?, &variable)
}

fn number(alloc: Global, n: i128) -> Result<Expr, TypeRefusal> {
    Expr::number(alloc, Ratio::new(n, 1).ok_or(TypeRefusal::Kind)?)
}

fn made(
    alloc: Global,
    step: Step,
    element: u16,
    pile: &mut Items<Expr>,
    table: &Elements,
) -> Result<Expr, TypeRefusal> {
    match step {
        Step::Number(n) => number(alloc, n),
        Step::Of(role) => Expr::function(alloc, function(role, element), table),
        Step::One(op) => Expr::one(alloc, op, top(pile)?),
        Step::Two(op) => two(alloc, op, pile),
        Step::Cube => Expr::power(alloc, top(pile)?, 3),
        Step::At(at) => Expr::index(alloc, top(pile)?, at),
        Step::Along(i) => Expr::partial(alloc, top(pile)?, i),
        Step::Over(by) => Expr::tensor(alloc, top(pile)?, by),
        Step::Label(label) => Expr::variable(alloc, label, top(pile)?),
        Step::By => by(alloc, pile),
    }
}

fn built(
    alloc: Global,
    steps: &[Step],
    element: u16,
    table: &Elements,
) -> Result<Expr, TypeRefusal> {
    let mut pile = Items::new(alloc);
    for step in steps {
        let e = made(alloc, *step, element, &mut pile, table)?;
        pile.push(e)?;
    }
    top(&mut pile)
}

fn twice(alloc: Global, a: Form) -> Result<Form, TypeRefusal> {
    let b = a.copy(alloc)?;
    Form::add_forms(alloc, a, b)
}

fn half(alloc: Global, a: Form) -> Result<Form, TypeRefusal> {
    Form::scale_form(alloc, Ratio::new(1, 2).ok_or(TypeRefusal::Kind)?, a)
}

fn changed(
    alloc: Global,
    a: Form,
    change: Change,
    element: u16,
    table: &Elements,
) -> Result<Form, TypeRefusal> {
    match change {
        Change::Left => Form::left(alloc, a),
        Change::Right => Form::right(alloc, a),
        Change::Action(role) => Form::action(alloc, a, function(role, element)),
        Change::Adjoint => Form::adjoint(alloc, a),
        Change::Derivative(role) => {
            let (w, du) = (function(W, element), function(role, element));
            Form::derivative(alloc, a, w, du, table)
        }
        Change::Half => half(alloc, a),
        Change::Twice => twice(alloc, a),
    }
}

/// The element, the integrand, the changes, how many integrands there are, and the value of their sum.
type Row = (u16, &'static [Step], &'static [Change], usize, i128);

const OF_SCALARS: [Row; 20] = [
    // u v is 48 and 3 v 24
    (PLANE, AFFINE, &[], 1, 24),
    (PLANE, AFFINE, &[Left], 1, 48),
    (PLANE, AFFINE, &[Right], 1, 24),
    (PLANE, AFFINE, &[Half, Twice, Right], 2, 24),
    // 3 u v; - 2 v
    (PLANE, SQUARED, &[Left], 1, 144),
    (PLANE, SQUARED, &[Right], 1, -16),
    // v.dx(0) u; w.dx(0) v; v.dx(0) w
    (PLANE, SLOPE, &[Adjoint], 1, 6),
    (PLANE, SLOPE, &[Action(W)], 1, 32),
    (PLANE, SLOPE, &[Adjoint, Action(W)], 1, 4),
    // 2 w g v; 2 w u v; 2 w g v where g stands for u; 2 g g v
    (PLANE, SQUARE, &[Derivative(G)], 1, 448),
    (PLANE, SQUARE, &[Derivative(Role::Trial)], 1, 384),
    (PLANE, SQUARE, &[Derivative(Role::Trial), Action(G)], 1, 448),
    (PLANE, SQUARE, &[Derivative(G), Derivative(G)], 1, 784),
    // the part of the derivative without u is nothing
    (PLANE, SQUARE, &[Derivative(Role::Trial), Right], 1, 0),
    // the same where w is under a label
    (PLANE, LABELLED, &[Derivative(G)], 1, 448),
    // 3 w^2 v; 6 w g v; w v; g v
    (PLANE, BY_VARIABLE, &[], 1, 384),
    (PLANE, BY_VARIABLE, &[Derivative(G)], 1, 1344),
    (PLANE, BESIDE_VARIABLE, &[], 1, 32),
    (PLANE, BESIDE_VARIABLE, &[Derivative(G)], 1, 56),
    // in space 6 w g v too
    (SPACE, BY_VARIABLE, &[Derivative(G)], 1, 1344),
];

const OF_VECTORS: [Row; 13] = [
    // 2 (4 7 + 3 2), and 5 15 more in space
    (PLANE_VECTOR, SIZE, &[Derivative(G)], 1, 68),
    (SPACE_VECTOR, SIZE, &[Derivative(G)], 1, 218),
    (PLANE_VECTOR, SIZE_BY_INDEX, &[Derivative(G)], 1, 68),
    (SPACE_VECTOR, SIZE_BY_INDEX, &[Derivative(G)], 1, 218),
    // 2 (4 1 + 1 5), since grad(w) is diagonal; 2 (3 1 + 2 2); in space 2 (1 3)
    (PLANE_VECTOR, ENERGY, &[Derivative(Role::Test)], 1, 18),
    (
        PLANE_VECTOR,
        ENERGY,
        &[Derivative(Role::Test), Derivative(Role::Trial)],
        1,
        14,
    ),
    (SPACE_VECTOR, ENERGY, &[Derivative(G)], 1, 6),
    // 2 (w g) (w v) + (w w) (g v): 2 109 82 + 50 101
    (SPACE_VECTOR, CUBIC, &[Derivative(G)], 1, 22926),
    // 2 g[0].dx(1)
    (PLANE_VECTOR, BY_MATRIX, &[Derivative(G)], 1, 4),
    (SPACE_VECTOR, BY_MATRIX, &[Derivative(G)], 1, 4),
    // 2 inner(transpose(grad(u)), grad(v)): 2 (3 1)
    (
        PLANE_VECTOR,
        EXCHANGED,
        &[Derivative(Role::Test), Derivative(Role::Trial)],
        1,
        6,
    ),
    // dot(curl(v), u)
    (SPACE_VECTOR, ROTATION, &[Adjoint], 1, -26),
    // 2 div(w) div(g): 2 (4 + 1 + 1) 3
    (SPACE_VECTOR, SOURCES, &[Derivative(G)], 1, 36),
];

const THERE: [Row; 1] = [(PLANE, AFFINE, &[Left], 1, 48)];

const ELSEWHERE: [Row; 1] = [(PLANE, AFFINE, &[Left], 1, 0)];

/// Is no derivative by a variable or a function left?
#[cycle(looking)]
fn is_expanded(e: &Plain) -> bool {
    match e {
        Plain::Num(_) => true,
        Plain::Fun { .. } => true,
        Plain::Mark { body, .. } => is_expanded(body.get()),
        Plain::Neg(a) => is_expanded(a.get()),
        Plain::Sum(a, b) => is_expanded(a.get()) && is_expanded(b.get()),
        Plain::Prod(a, b) => is_expanded(a.get()) && is_expanded(b.get()),
        Plain::Over { body, .. } => is_expanded(body.get()),
        Plain::Dx { body, .. } => is_expanded(body.get()),
        Plain::Delta(_, _) => true,
        Plain::Pick { items, .. } => are_expanded(items.as_slice()),
        Plain::Raise { .. } => false,
        Plain::Turn { .. } => false,
    }
}

#[cycle(looking)]
fn are_expanded(items: &[Plain]) -> bool {
    let mut all = true;
    for e in items {
        all = is_expanded(e) && all;
    }
    all
}

/// The value of an integrand at the point; nothing where a derivative is left in it.
fn value_of(alloc: Global, scene: &Scene, p: &Integrand) -> Result<Ratio, Fault> {
    if !is_expanded(&p.body) {
        return Err(Fault::Shape);
    }
    if !(p.on == On::All || p.on == On::Marked(scene.marker)) {
        return Ok(Ratio::zero());
    }
    at_point(&meaning(alloc, scene, &p.body)?)
}

/// The value of the sum of integrands.
fn sum_of(alloc: Global, all: &[Integrand]) -> Result<Ratio, Fault> {
    let elements = elements(alloc)?;
    let functions = functions(alloc)?;
    let scene = scene(elements.as_slice(), functions.as_slice());
    let mut total = Ratio::zero();
    for one in all {
        let value = value_of(alloc, &scene, one)?;
        total = total.add(value).ok_or(Fault::Range)?;
    }
    Ok(total)
}

/// The value of the density of a form.
fn density_of(alloc: Global, form: &FormTree) -> Result<Ratio, Fault> {
    let elements = elements(alloc)?;
    let functions = functions(alloc)?;
    let scene = scene(elements.as_slice(), functions.as_slice());
    at_point(&density(alloc, &scene, form)?)
}

fn form(alloc: Global, on: On, row: Row, table: &Elements) -> Result<Form, TypeRefusal> {
    let (element, body, changes, _, _) = row;
    let mut form = Form::integral(on, built(alloc, body, element, table)?)?;
    for change in changes {
        form = changed(alloc, form, *change, element, table)?;
    }
    Ok(form)
}

/// The integrands of a form are so many and add up to this number, and so does the density.
fn holds(
    alloc: Global,
    form: &Form,
    count: usize,
    n: i128,
    table: &Elements,
) -> Result<bool, TypeRefusal> {
    let all = flatten(alloc, form, table)?;
    let expected = whole(n);
    Ok(
        all.len() == count
            && sum_of(alloc, all.as_slice()) == expected
            && density_of(alloc, form.tree()) == expected,
    )
}

/// The first row that comes otherwise.
fn first_other(alloc: Global, on: On, rows: &[Row]) -> Result<Option<usize>, TypeRefusal> {
    let table = table(alloc)?;
    for (i, row) in rows.iter().enumerate() {
        let form = form(alloc, on, *row, &table)?;
        if !holds(alloc, &form, row.3, row.4, &table)? {
            return Ok(Some(i));
        }
    }
    Ok(None)
}

#[test]
fn integrands_of_scalars(rt: HostRuntime) {
    assert!(rt; first_other(rt.alloc(), On::All, &OF_SCALARS) == Ok(None));
}

#[test]
fn integrands_of_vectors(rt: HostRuntime) {
    assert!(rt; first_other(rt.alloc(), On::All, &OF_VECTORS) == Ok(None));
}

/// On the cells with a marker alone.
#[test]
fn integrands_over_marked_cells(rt: HostRuntime) {
    let alloc = rt.alloc();
    assert!(rt; first_other(alloc, On::Marked(4), &THERE) == Ok(None));
    assert!(rt; first_other(alloc, On::Marked(3), &ELSEWHERE) == Ok(None));
}
