//! Worked forms: the coefficients that occur in them, and their layouts.

ghost use Rattle.std.specs.Prelude.{◌+◌, ◌<◌, ◌≤◌, length, IfOk};

use crate::{entry_count, find_occurrences, form_layout};
use monos::Layout;
use spaces::{Cell, Element, Family};
use std::alloc::Global;
use ufl_expr::{Elements, Expr, TypeRefusal};
use ufl_form::Form;
use ufl_tree::{Function, Ix, On, Op2, Role};

const V: Function = Function {
    role: Role::Test,
    element: 0,
};

const U: Function = Function {
    role: Role::Trial,
    element: 0,
};

const W0: Function = Function {
    role: Role::Coefficient(0),
    element: 0,
};

const W1: Function = Function {
    role: Role::Coefficient(1),
    element: 0,
};

/// Of degree 2.
const W2: Function = Function {
    role: Role::Coefficient(2),
    element: 1,
};

/// The elements of the coefficients.
const NUMBERS: [u16; 3] = [0, 0, 1];

/// An integrand.
#[derive(Clone, Copy, Debug)]
enum Body {
    Of(Function),
    Times(Function, Function),
    /// A product and a function.
    More(Function, Function, Function),
    /// The power 0 of a function, times another.
    One(Function, Function),
    /// The derivative of a function by a variable of the other.
    Diff(Function, Function),
    /// A coordinate times a function.
    Coordinate(Function),
}

/// What is done to the form of an integrand.
#[derive(Clone, Copy, Debug)]
enum Step {
    Nothing,
    Marked,
    Left,
    Right,
    Adjoint,
    Action(Function),
    Derivative(Function, Function),
}

/// The table with one more element.
#[tactic(auto, using(ufl_form::proofs::TableLaws::one_more_element))]
fn added(mut elements: Elements, element: Option<Element>) -> Result<Elements, TypeRefusal>
    requires { length elements < 65536 }
    ensures { IfOk result (λ table. length table ≤ length elements + 1) }
{
    match element {
        None => Ok(elements),
        Some(element) => {
            elements.add(element)?;
            Ok(elements)
        }
    }
}

fn positions(alloc: Global) -> Option<Element> {
    Element::vector(
        alloc,
        Element::scalar(Family::Lagrange, Cell::Triangle, 1)?,
        2,
    )
    .ok()
}

/// The elements of the functions above, and that of the position.
fn table(alloc: Global) -> Result<Elements, TypeRefusal> {
    let linear = Element::scalar(Family::Lagrange, Cell::Triangle, 1);
    let quadratic = Element::scalar(Family::Lagrange, Cell::Triangle, 2);
    let elements = added(Elements::new(alloc), linear)?;
    let elements = added(elements, quadratic)?;
    added(elements, positions(alloc))
}

fn function(alloc: Global, f: Function) -> Result<Expr, TypeRefusal> {
    Expr::function(alloc, f, &table(alloc)?)
}

fn product(alloc: Global, a: Expr, b: Expr) -> Result<Expr, TypeRefusal> {
    Expr::two(alloc, Op2::Product, a, b)
}

fn times(alloc: Global, f: Function, g: Function) -> Result<Expr, TypeRefusal> {
    product(alloc, function(alloc, f)?, function(alloc, g)?)
}

fn diff(alloc: Global, f: Function, w: Function) -> Result<Expr, TypeRefusal> {
    let variable = Expr::variable(alloc, 0, function(alloc, w)?)?;
    Expr::diff(alloc, function(alloc, f)?, &variable)
}

fn coordinate(alloc: Global) -> Result<Expr, TypeRefusal> {
    let position = Expr::position(alloc, Cell::Triangle, &table(alloc)?)?;
    Expr::index(alloc, position, &[Ix::Fixed(1)])
}

fn integrand(alloc: Global, body: Body) -> Result<Expr, TypeRefusal> {
    match body {
        Body::Of(f) => function(alloc, f),
        Body::Times(f, g) => times(alloc, f, g),
        Body::More(f, g, h) => Expr::two(alloc, Op2::Sum, times(alloc, f, g)?, function(alloc, h)?),
        Body::One(w, f) => product(
            alloc,
            Expr::power(alloc, function(alloc, w)?, 0)?,
            function(alloc, f)?,
        ),
        Body::Diff(f, w) => diff(alloc, f, w),
        Body::Coordinate(f) => product(alloc, coordinate(alloc)?, function(alloc, f)?),
    }
}

fn integral(alloc: Global, on: On, body: Body) -> Result<Form, TypeRefusal> {
    Form::integral(on, integrand(alloc, body)?)
}

fn cells_of(step: Step) -> On {
    match step {
        Step::Marked => On::Marked(7),
        _ => On::All,
    }
}

fn stepped(alloc: Global, form: Form, step: Step) -> Result<Form, TypeRefusal> {
    match step {
        Step::Nothing => Ok(form),
        Step::Marked => Ok(form),
        Step::Left => Form::left(alloc, form),
        Step::Right => Form::right(alloc, form),
        Step::Adjoint => Form::adjoint(alloc, form),
        Step::Action(f) => Form::action(alloc, form, f),
        Step::Derivative(w, du) => Form::derivative(alloc, form, w, du, &table(alloc)?),
    }
}

fn built(alloc: Global, body: Body, step: Step) -> Result<Form, TypeRefusal> {
    stepped(alloc, integral(alloc, cells_of(step), body)?, step)
}

/// A form, the flags of the coefficients that occur in it, and whether the position does.
type Case = (Body, Step, [bool; 3], bool);

/// Whatever becomes of a coefficient in an integrand, it occurs there. The variable of a derivative doesn't, nor does
/// the function that a form is differentiated by, but its direction does.
const CASES: [Case; 13] = [
    (
        Body::Times(U, V),
        Step::Nothing,
        [false, false, false],
        false,
    ),
    (
        Body::Times(W1, V),
        Step::Nothing,
        [false, true, false],
        false,
    ),
    (
        Body::Times(W2, W0),
        Step::Marked,
        [true, false, true],
        false,
    ),
    (Body::One(W0, V), Step::Nothing, [true, false, false], false),
    (
        Body::Diff(W0, W1),
        Step::Nothing,
        [true, false, false],
        false,
    ),
    (
        Body::Coordinate(W1),
        Step::Nothing,
        [false, true, false],
        true,
    ),
    (
        Body::More(U, V, V),
        Step::Left,
        [false, false, false],
        false,
    ),
    (
        Body::More(W1, V, V),
        Step::Left,
        [false, true, false],
        false,
    ),
    (Body::Times(W0, V), Step::Right, [true, false, false], false),
    (
        Body::Times(W0, U),
        Step::Adjoint,
        [true, false, false],
        false,
    ),
    (
        Body::Times(U, V),
        Step::Action(W1),
        [false, true, false],
        false,
    ),
    (
        Body::Of(V),
        Step::Derivative(W0, U),
        [false, false, false],
        false,
    ),
    (
        Body::Times(W1, V),
        Step::Derivative(W0, W1),
        [false, true, false],
        false,
    ),
];

/// The flags of the first three numbers, of which there are no others.
fn flags(numbers: &[u32]) -> Option<[bool; 3]> {
    let mut flags = [false; 3];
    for number in numbers {
        match *number {
            0 => flags[0] = true,
            1 => flags[1] = true,
            2 => flags[2] = true,
            _ => return None,
        }
    }
    Some(flags)
}

/// The functions that occur are those that are wanted.
fn is_found(alloc: Global, case: Case) -> Result<bool, TypeRefusal> {
    let (body, step, numbers, position) = case;
    let form = built(alloc, body, step)?;
    let found = find_occurrences(alloc, &form, 3)?;
    Ok(flags(found.coefficients.as_slice()) == Some(numbers) && found.position == position)
}

/// The first case in which others occur.
fn first_other(alloc: Global, cases: &[Case]) -> Result<Option<Step>, TypeRefusal> {
    for case in cases {
        if !is_found(alloc, *case)? {
            return Ok(Some(case.1));
        }
    }
    Ok(None)
}

#[test]
fn occurring(rt: HostRuntime) -> Result<(), TypeRefusal> {
    assert!(rt; first_other(rt.alloc(), &CASES)?.is_none());
    Ok(())
}

/// The dimension, the local rows of both arguments, the local values of the position, and the number, the offset and
/// the local values of each coefficient.
fn summary(layout: &Layout) -> ([u32; 4], [u32; 6]) {
    let position = match &layout.position {
        Some(parts) => parts.local,
        None => 0,
    };
    let mut places = [0; 6];
    if let Some(first) = layout.coefs.get(0) {
        places[0] = first.number;
        places[1] = first.offset;
        places[2] = first.parts.local;
    }
    if let Some(second) = layout.coefs.get(1) {
        places[3] = second.number;
        places[4] = second.offset;
        places[5] = second.parts.local;
    }
    (
        [
            layout.d as u32,
            layout.rows.local,
            layout.cols.local,
            position,
        ],
        places,
    )
}

/// The summary of a form's layout, and how many entries it has.
fn summed(alloc: Global, body: Body, step: Step) -> Result<([u32; 4], [u32; 6], u32), TypeRefusal> {
    let form = built(alloc, body, step)?;
    let elements = table(alloc)?;
    let (counts, places) = summary(&form_layout(alloc, &elements, &NUMBERS, &form)?);
    Ok((counts, places, entry_count(&elements, &form)))
}

#[test]
fn layouts(rt: HostRuntime) -> Result<(), TypeRefusal> {
    let functional = summed(rt.alloc(), Body::Times(W0, W2), Step::Nothing)?;
    assert!(rt; functional == ([2, 0, 0, 0], [0, 0, 3, 2, 3, 6], 1));
    let bilinear = summed(rt.alloc(), Body::Coordinate(V), Step::Derivative(W0, U))?;
    assert!(rt; bilinear == ([2, 3, 3, 6], [0; 6], 9));
    Ok(())
}
