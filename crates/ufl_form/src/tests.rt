//! Worked cases of the table of forms.

ghost use Rattle.std.specs.Prelude.{◌+◌, ◌<◌, ◌≤◌, length, IfOk};

use crate::{Form, Numbers, PatternSet, patterns};
use ratio::Ratio;
use spaces::{Cell, Element, Family};
use std::alloc::Global;
use ufl_expr::{Elements, Expr, TypeRefusal};
use ufl_tree::{Function, Ix, On, Op1, Op2, Role};

const V: Function = Function {
    role: Role::Test,
    element: 0,
};

const U: Function = Function {
    role: Role::Trial,
    element: 0,
};

const W: Function = Function {
    role: Role::Coefficient(0),
    element: 0,
};

/// Of another element.
const OTHER_V: Function = Function {
    role: Role::Test,
    element: 1,
};

const OTHER_W: Function = Function {
    role: Role::Coefficient(1),
    element: 1,
};

/// On another cell.
const FAR: Function = Function {
    role: Role::Coefficient(2),
    element: 2,
};

const CONSTANT: Function = Function {
    role: Role::Coefficient(3),
    element: 3,
};

const VECTOR_CONSTANT: Function = Function {
    role: Role::Coefficient(4),
    element: 4,
};

const PLACE: Function = Function {
    role: Role::Position,
    element: 0,
};

const UNKNOWN: Function = Function {
    role: Role::Coefficient(5),
    element: 5,
};

/// An integrand.
#[derive(Clone, Copy)]
enum Body {
    One,
    Of(Function),
    Times(Function, Function),
    /// A product and a function.
    More(Function, Function, Function),
    /// The product of a power and a function.
    Power(Function, u8, Function),
    Gradient(Function),
    /// A component of the gradient at a name.
    Named(Function),
    /// Under so many negatives.
    Deep(Function, u8),
}

/// What is done to the form of an integrand.
#[derive(Clone, Copy)]
enum Step {
    Nothing,
    Add(Body),
    Scale,
    Left,
    Right,
    Adjoint,
    Action(Function),
    Derivative(Function, Function),
}

/// The table with one more element.
#[tactic(auto, using(crate::proofs::TableLaws::one_more_element))]
fn added(mut elements: Elements, element: Option<Element>) -> Result<Elements, TypeRefusal>
    requires { length elements < 65536 }
    ensures { IfOk result (λ table. length table ≤ length elements + 1) }
{
    match element {
        None => Ok(elements),
        Some(element) => {
            elements.add(element)?;
            Ok(elements)
        }
    }
}

/// The elements of the functions above.
fn table(alloc: Global) -> Result<Elements, TypeRefusal> {
    let linear = Element::scalar(Family::Lagrange, Cell::Triangle, 1);
    let quadratic = Element::scalar(Family::Lagrange, Cell::Triangle, 2);
    let far = Element::scalar(Family::Lagrange, Cell::Interval, 1);
    let constant = Element::scalar(Family::Real, Cell::Triangle, 0);
    let elements = added(Elements::new(alloc), linear)?;
    let elements = added(elements, quadratic)?;
    let elements = added(elements, far)?;
    let elements = added(elements, constant)?;
    added(elements, vector_constant(alloc))
}

fn vector_constant(alloc: Global) -> Option<Element> {
    Element::vector(alloc, Element::scalar(Family::Real, Cell::Triangle, 0)?, 2).ok()
}

fn function(alloc: Global, f: Function) -> Result<Expr, TypeRefusal> {
    Expr::function(alloc, f, &table(alloc)?)
}

fn times(alloc: Global, f: Function, g: Function) -> Result<Expr, TypeRefusal> {
    Expr::two(
        alloc,
        Op2::Product,
        function(alloc, f)?,
        function(alloc, g)?,
    )
}

fn more(alloc: Global, f: Function, g: Function, h: Function) -> Result<Expr, TypeRefusal> {
    Expr::two(alloc, Op2::Sum, times(alloc, f, g)?, function(alloc, h)?)
}

fn power(alloc: Global, f: Function, n: u8, g: Function) -> Result<Expr, TypeRefusal> {
    if n > 127 {
        return Err(TypeRefusal::Kind);
    }
    Expr::two(
        alloc,
        Op2::Product,
        Expr::power(alloc, function(alloc, f)?, n)?,
        function(alloc, g)?,
    )
}

fn gradient(alloc: Global, f: Function) -> Result<Expr, TypeRefusal> {
    Expr::one(alloc, Op1::Grad, function(alloc, f)?)
}

fn deep(alloc: Global, f: Function, height: u8) -> Result<Expr, TypeRefusal> {
    let mut e = function(alloc, f)?;
    for _ in 0..height {
        e = Expr::one(alloc, Op1::Neg, e)?;
    }
    Ok(e)
}

fn integrand(alloc: Global, body: Body) -> Result<Expr, TypeRefusal> {
    match body {
        Body::One => Expr::number(alloc, Ratio::one()),
        Body::Of(f) => function(alloc, f),
        Body::Times(f, g) => times(alloc, f, g),
        Body::More(f, g, h) => more(alloc, f, g, h),
        Body::Power(f, n, g) => power(alloc, f, n, g),
        Body::Gradient(f) => gradient(alloc, f),
        Body::Named(f) => Expr::index(alloc, gradient(alloc, f)?, &[Ix::Named(8)]),
        Body::Deep(f, n) => deep(alloc, f, n),
    }
}

fn integral(alloc: Global, body: Body) -> Result<Form, TypeRefusal> {
    Form::integral(On::All, integrand(alloc, body)?)
}

fn stepped(alloc: Global, form: Form, step: Step) -> Result<Form, TypeRefusal> {
    match step {
        Step::Nothing => Ok(form),
        Step::Add(body) => Form::add_forms(alloc, form, integral(alloc, body)?),
        Step::Scale => Form::scale_form(alloc, Ratio::one(), form),
        Step::Left => Form::left(alloc, form),
        Step::Right => Form::right(alloc, form),
        Step::Adjoint => Form::adjoint(alloc, form),
        Step::Action(f) => Form::action(alloc, form, f),
        Step::Derivative(w, du) => Form::derivative(alloc, form, w, du, &table(alloc)?),
    }
}

fn built(alloc: Global, body: Body, step: Step) -> Result<Form, TypeRefusal> {
    stepped(alloc, integral(alloc, body)?, step)
}

/// A pattern set, or a refusal.
type Wanted = Result<PatternSet, TypeRefusal>;

const KIND: Wanted = Err(TypeRefusal::Kind);

const SHAPE: Wanted = Err(TypeRefusal::Shape);

const FREE_INDEX: Wanted = Err(TypeRefusal::FreeIndex);

const NODES: Wanted = Err(TypeRefusal::Nodes);

const NONE: Numbers = Numbers {
    zero: false,
    one: false,
    more: false,
};

const ZERO: Numbers = Numbers {
    zero: true,
    one: false,
    more: false,
};

const ONE: Numbers = Numbers {
    zero: false,
    one: true,
    more: false,
};

const ZERO_OR_ONE: Numbers = Numbers {
    zero: true,
    one: true,
    more: false,
};

/// The pairs with this number of trial functions and no, one or more test functions.
const FUNCTIONAL: Wanted = Ok(PatternSet {
    zero: ZERO,
    one: NONE,
    more: NONE,
});

const LINEAR: Wanted = Ok(PatternSet {
    zero: NONE,
    one: ZERO,
    more: NONE,
});

const IN_TRIAL: Wanted = Ok(PatternSet {
    zero: ONE,
    one: NONE,
    more: NONE,
});

const BILINEAR: Wanted = Ok(PatternSet {
    zero: NONE,
    one: ONE,
    more: NONE,
});

const AFFINE: Wanted = Ok(PatternSet {
    zero: NONE,
    one: ZERO_OR_ONE,
    more: NONE,
});

const SQUARE: Wanted = Ok(PatternSet {
    zero: NONE,
    one: NONE,
    more: ZERO,
});

const NO_PAIR: Wanted = Ok(PatternSet {
    zero: NONE,
    one: NONE,
    more: NONE,
});

/// As high as a form may be once it is an integrand.
const HIGHEST: Body = Body::Deep(V, 126);

const INTEGRALS: [(Body, Step, Wanted); 15] = [
    (Body::Times(U, V), Step::Nothing, BILINEAR),
    (Body::More(U, V, V), Step::Nothing, AFFINE),
    (Body::Times(W, W), Step::Nothing, FUNCTIONAL),
    (Body::Power(W, 2, W), Step::Nothing, FUNCTIONAL),
    (Body::Times(V, V), Step::Nothing, SQUARE),
    (Body::Power(V, 3, W), Step::Nothing, SQUARE),
    (Body::Power(U, 0, V), Step::Nothing, LINEAR),
    (Body::Power(U, 1, V), Step::Nothing, BILINEAR),
    (Body::One, Step::Nothing, KIND),
    (Body::Times(V, OTHER_V), Step::Nothing, KIND),
    (Body::Times(W, FAR), Step::Nothing, KIND),
    (Body::Gradient(V), Step::Nothing, SHAPE),
    (Body::Named(V), Step::Nothing, FREE_INDEX),
    (HIGHEST, Step::Nothing, LINEAR),
    (Body::Deep(V, 127), Step::Nothing, NODES),
];

const SUMS: [(Body, Step, Wanted); 7] = [
    (Body::Times(U, V), Step::Add(Body::Of(V)), AFFINE),
    (Body::Of(V), Step::Add(Body::Of(V)), LINEAR),
    (Body::Of(V), Step::Add(Body::Of(OTHER_V)), KIND),
    (Body::Of(V), Step::Add(Body::Of(FAR)), KIND),
    (HIGHEST, Step::Add(Body::Of(V)), NODES),
    (Body::Of(V), Step::Scale, LINEAR),
    (HIGHEST, Step::Scale, NODES),
];

const PARTS: [(Body, Step, Wanted); 10] = [
    (Body::More(U, V, V), Step::Left, BILINEAR),
    (Body::More(U, V, V), Step::Right, LINEAR),
    (Body::Of(V), Step::Left, NO_PAIR),
    (Body::Of(V), Step::Right, LINEAR),
    (Body::Of(V), Step::Adjoint, IN_TRIAL),
    (Body::Of(U), Step::Adjoint, LINEAR),
    (Body::Times(U, V), Step::Adjoint, BILINEAR),
    (HIGHEST, Step::Left, NODES),
    (HIGHEST, Step::Right, NODES),
    (HIGHEST, Step::Adjoint, NODES),
];

const ACTIONS: [(Body, Step, Wanted); 8] = [
    (Body::Times(U, V), Step::Action(PLACE), KIND),
    (Body::Times(U, V), Step::Action(W), LINEAR),
    (Body::Of(V), Step::Action(W), FUNCTIONAL),
    (Body::Power(U, 0, W), Step::Action(W), KIND),
    (Body::Of(W), Step::Action(W), KIND),
    (Body::Times(U, V), Step::Action(V), KIND),
    (Body::Times(U, V), Step::Action(OTHER_W), KIND),
    (HIGHEST, Step::Action(W), NODES),
];

const DERIVATIVES: [(Body, Step, Wanted); 13] = [
    (Body::Times(W, V), Step::Derivative(W, PLACE), KIND),
    (Body::Times(W, W), Step::Derivative(W, V), LINEAR),
    (Body::Times(W, V), Step::Derivative(W, U), BILINEAR),
    (Body::Times(W, V), Step::Derivative(W, V), SQUARE),
    (
        Body::Times(W, V),
        Step::Derivative(OTHER_W, OTHER_W),
        LINEAR,
    ),
    (Body::Times(W, V), Step::Derivative(V, V), KIND),
    (
        Body::Times(W, V),
        Step::Derivative(CONSTANT, CONSTANT),
        KIND,
    ),
    (
        Body::Times(W, V),
        Step::Derivative(VECTOR_CONSTANT, VECTOR_CONSTANT),
        KIND,
    ),
    (Body::Times(W, V), Step::Derivative(UNKNOWN, UNKNOWN), KIND),
    (Body::Times(W, V), Step::Derivative(W, OTHER_W), KIND),
    (Body::Times(W, V), Step::Derivative(FAR, FAR), KIND),
    (Body::Times(W, OTHER_V), Step::Derivative(W, V), KIND),
    (HIGHEST, Step::Derivative(W, W), NODES),
];

/// The pattern set or the refusal is the wanted one.
fn gives(found: Result<Form, TypeRefusal>, want: Wanted) -> bool {
    match (found, want) {
        (Ok(form), Ok(set)) => patterns(&form) == set,
        (Err(refusal), Err(wanted)) => refusal == wanted,
        _ => false,
    }
}

/// The first case that comes otherwise.
fn first_other(alloc: Global, cases: &[(Body, Step, Wanted)]) -> Option<Body> {
    for (body, step, want) in cases {
        if !gives(built(alloc, *body, *step), *want) {
            return Some(*body);
        }
    }
    None
}

#[test]
fn integrals(rt: HostRuntime) {
    assert!(rt; first_other(rt.alloc(), &INTEGRALS).is_none());
}

#[test]
fn sums_and_parts(rt: HostRuntime) {
    assert!(rt; first_other(rt.alloc(), &SUMS).is_none());
    assert!(rt; first_other(rt.alloc(), &PARTS).is_none());
}

#[test]
fn actions_and_derivatives(rt: HostRuntime) {
    assert!(rt; first_other(rt.alloc(), &ACTIONS).is_none());
    assert!(rt; first_other(rt.alloc(), &DERIVATIVES).is_none());
}

/// Once an argument is replaced, it may come back with another element.
fn twice(alloc: Global) -> Result<Form, TypeRefusal> {
    let acted = built(alloc, Body::Of(V), Step::Action(W))?;
    stepped(alloc, acted, Step::Add(Body::Of(OTHER_V)))
}

#[test]
fn replaced(rt: HostRuntime) {
    assert!(rt; twice(rt.alloc()).is_ok());
}

/// The integral of a product has four nodes.
#[test]
fn copies(rt: HostRuntime) -> Result<(), TypeRefusal> {
    let alloc = rt.alloc();
    let copied = built(alloc, Body::Times(U, V), Step::Add(Body::Of(V)))?.copy(alloc)?;
    assert!(rt; copied.nodes() == 7 && copied.height() == 4);
    assert!(rt; gives(Ok(copied), AFFINE));
    Ok(())
}
