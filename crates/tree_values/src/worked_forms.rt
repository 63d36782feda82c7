//! Densities of small forms, against numbers worked out by hand.

use crate::densities::density;
use crate::poly::Poly;
use crate::worked::{
    LINE, Name, SQUARE, TEST, TRIAL, elements, function, functions, gives, scene, table,
};
use crate::worked_values::{Step, built};
use ratio::Ratio;
use reference::Fault;
use std::alloc::Global;
use ufl_expr::{Elements, TypeRefusal};
use ufl_form::{Form, FormTree};
use ufl_tree::{Function, Ix, On, Op2};

/// What is done to the integral, one change after the other.
#[derive(Clone, Copy)]
enum Change {
    Left,
    Right,
    Action(Name),
    Adjoint,
    /// By w along this function.
    Derivative(Name),
    Half,
    Twice,
}

const TIMES: Step = Step::Two(Op2::Product);

const PLUS: Step = Step::Two(Op2::Sum);

const V: Step = Step::Of(TEST);

const U: Step = Step::Of(TRIAL);

const W: Step = Step::Of(SQUARE);

const DX: Step = Step::Along(Ix::Fixed(0));

/// u v - 3 v
const AFFINE: &[Step] = &[U, V, TIMES, Step::Number(-3), V, TIMES, PLUS];

/// u.dx(0) v
const SLOPE: &[Step] = &[U, DX, V, TIMES];

/// w v
const SOURCE: &[Step] = &[W, V, TIMES];

/// w^3 v
const CUBE: &[Step] = &[W, W, W, V, TIMES, TIMES, TIMES];

/// w^2 v.dx(0)
const OF_SLOPE: &[Step] = &[W, W, V, DX, TIMES, TIMES];

/// w^2 v - 3 v
const SHIFTED: &[Step] = &[W, W, V, TIMES, TIMES, Step::Number(-3), V, TIMES, PLUS];

fn named(name: Name) -> Result<Function, TypeRefusal> {
    function(name).ok_or(TypeRefusal::Kind)
}

fn half(alloc: Global, a: Form) -> Result<Form, TypeRefusal> {
    let half = Ratio::new(1, 2).ok_or(TypeRefusal::Kind)?;
    Form::scale_form(alloc, half, a)
}

fn twice(alloc: Global, a: Form) -> Result<Form, TypeRefusal> {
    let b = a.copy(alloc)?;
    Form::add_forms(alloc, a, b)
}

fn changed(alloc: Global, a: Form, change: Change, table: &Elements) -> Result<Form, TypeRefusal> {
    match change {
        Change::Left => Form::left(alloc, a),
        Change::Right => Form::right(alloc, a),
        Change::Action(f) => Form::action(alloc, a, named(f)?),
        Change::Adjoint => Form::adjoint(alloc, a),
        Change::Derivative(du) => { Form::derivative(alloc, a, named(SQUARE)?, named(du)?, table) }
        Change::Half => half(alloc, a),
        Change::Twice => twice(alloc, a),
    }
}

fn form(
    alloc: Global,
    on: On,
    body: &[Step],
    changes: &[Change],
    table: &Elements,
) -> Result<Form, TypeRefusal> {
    let mut form = Form::integral(on, built(alloc, body, table)?)?;
    for change in changes {
        form = changed(alloc, form, *change, table)?;
    }
    Ok(form)
}

fn found(alloc: Global, form: &FormTree) -> Result<Poly, Fault> {
    let elements = elements(alloc)?;
    let functions = functions(alloc)?;
    let scene = scene(elements.as_slice(), functions.as_slice());
    density(alloc, &scene, form)
}

/// The cells of the integral, an integrand, the changes, and the value of the density on a cell with the marker 4.
type Row = (On, &'static [Step], &'static [Change], i128);

const FORMS: [Row; 19] = [
    // u v is 48 and 3 v 24
    (On::All, AFFINE, &[], 24),
    (On::All, AFFINE, &[Change::Left], 48),
    (On::All, AFFINE, &[Change::Right], 24),
    (On::All, AFFINE, &[Change::Half], 12),
    (On::All, AFFINE, &[Change::Left, Change::Twice], 96),
    // w.dx(0) is 2 x, so 4 * 8; w g; v.dx(0) u
    (On::All, SLOPE, &[Change::Action(SQUARE)], 32),
    (On::All, SOURCE, &[Change::Action(LINE)], 28),
    (On::All, SLOPE, &[Change::Adjoint], 6),
    (
        On::All,
        SLOPE,
        &[Change::Adjoint, Change::Action(SQUARE)],
        4,
    ),
    // 3 w^2 g v; 6 w g^2 v; 3 w^3 v; 6 g^3 v
    (On::All, CUBE, &[Change::Derivative(LINE)], 2688),
    (
        On::All,
        CUBE,
        &[Change::Derivative(LINE), Change::Derivative(LINE)],
        9408,
    ),
    (On::All, CUBE, &[Change::Derivative(SQUARE)], 1536),
    (
        On::All,
        CUBE,
        &[
            Change::Derivative(LINE),
            Change::Derivative(LINE),
            Change::Derivative(LINE),
        ],
        16464,
    ),
    // 2 w u v; the part without u is nothing; 2 w g v; 2 w v u.dx(0)
    (
        On::All,
        SHIFTED,
        &[Change::Derivative(TRIAL), Change::Left],
        384,
    ),
    (
        On::All,
        SHIFTED,
        &[Change::Derivative(TRIAL), Change::Right],
        0,
    ),
    (
        On::All,
        SHIFTED,
        &[Change::Derivative(TRIAL), Change::Action(LINE)],
        448,
    ),
    (
        On::All,
        OF_SLOPE,
        &[Change::Derivative(TRIAL), Change::Adjoint],
        192,
    ),
    (On::Marked(4), AFFINE, &[Change::Left], 48),
    (On::Marked(3), AFFINE, &[Change::Left], 0),
];

/// The first row that comes otherwise.
fn first_other(alloc: Global, rows: &[Row]) -> Result<Option<usize>, TypeRefusal> {
    let table = table(alloc)?;
    for (i, (on, body, changes, number)) in rows.iter().enumerate() {
        let form = form(alloc, *on, body, changes, &table)?;
        if !gives(found(alloc, form.tree()), *number, 1) {
            return Ok(Some(i));
        }
    }
    Ok(None)
}

#[test]
fn densities_of_forms(rt: HostRuntime) {
    assert!(rt; first_other(rt.alloc(), &FORMS) == Ok(None));
}
