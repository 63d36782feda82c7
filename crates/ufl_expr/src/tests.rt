//! Worked cases of the typing table.

use crate::{Elements, Expr, TypeRefusal};
use ratio::Ratio;
use spaces::{Cell, Element, Family};
use std::alloc::{AllocError, Global};
use ufl_tree::{Free, Function, Ix, Op1, Op2, Role};

const I: Ix = Ix::Named(8);

const J: Ix = Ix::Named(9);

const FIRST: Ix = Ix::Fixed(0);

/// A shape, or a refusal.
type Wanted = Result<&'static [u8], TypeRefusal>;

const KIND: Wanted = Err(TypeRefusal::Kind);

const SHAPE: Wanted = Err(TypeRefusal::Shape);

const FREE_INDEX: Wanted = Err(TypeRefusal::FreeIndex);

const NODES: Wanted = Err(TypeRefusal::Nodes);

/// The component of the identity matrix of n rows at these indices.
#[derive(Clone, Copy)]
struct Part(u8, &'static [Ix]);

/// What is built of an expression.
#[derive(Clone, Copy)]
enum Step {
    One(Op1),
    Two(Op2, Part),
    Square,
    At(&'static [Ix]),
    Along(Ix),
    Over(&'static [u16]),
    Label,
    By(Part),
    Beside(Part),
}

fn component(alloc: Global, of: Part) -> Result<Expr, TypeRefusal> {
    let Part(n, at) = of;
    Expr::index(alloc, Expr::identity(alloc, n)?, at)
}

fn labelled(alloc: Global, a: Expr) -> Result<Expr, TypeRefusal> {
    Expr::variable(alloc, 4, a)
}

fn beside(alloc: Global, first: Expr, second: Expr) -> Result<Vec<Expr>, AllocError> {
    Ok(vec![in alloc; first, second]?)
}

fn stepped(alloc: Global, a: Expr, step: Step) -> Result<Expr, TypeRefusal> {
    match step {
        Step::One(op) => Expr::one(alloc, op, a),
        Step::Two(op, b) => Expr::two(alloc, op, a, component(alloc, b)?),
        Step::Square => Expr::power(alloc, a, 2),
        Step::At(at) => Expr::index(alloc, a, at),
        Step::Along(at) => Expr::partial(alloc, a, at),
        Step::Over(by) => Expr::tensor(alloc, a, by),
        Step::Label => labelled(alloc, a),
        Step::By(v) => Expr::diff(alloc, a, &labelled(alloc, component(alloc, v)?)?),
        Step::Beside(b) => Expr::list(alloc, beside(alloc, a, component(alloc, b)?)?),
    }
}

fn built(alloc: Global, a: Part, step: Step) -> Result<Expr, TypeRefusal> {
    stepped(alloc, component(alloc, a)?, step)
}

/// The shape or the refusal is the wanted one.
fn gives(found: Result<Expr, TypeRefusal>, want: Wanted) -> bool {
    match (found, want) {
        (Ok(e), Ok(shape)) => e.shape() == shape,
        (Err(refusal), Err(wanted)) => refusal == wanted,
        _ => false,
    }
}

const MATRIX: Part = Part(3, &[]);

const ROW: Part = Part(3, &[FIRST]);

const SCALAR: Part = Part(3, &[FIRST, FIRST]);

const ROW_I: Part = Part(3, &[I]);

const ROW_J: Part = Part(3, &[J]);

const ITEM_I: Part = Part(3, &[I, FIRST]);

const ITEM_J: Part = Part(3, &[J, FIRST]);

const SMALL: Part = Part(2, &[]);

const SMALL_ROW: Part = Part(2, &[FIRST]);

const SMALL_ROW_I: Part = Part(2, &[I]);

const SMALL_ITEM_I: Part = Part(2, &[I, FIRST]);

const ONE: [(Part, Step, Wanted); 14] = [
    (MATRIX, Step::One(Op1::Neg), Ok(&[3, 3])),
    (MATRIX, Step::One(Op1::Grad), KIND),
    (MATRIX, Step::One(Op1::NablaGrad), KIND),
    (MATRIX, Step::One(Op1::Div), KIND),
    (MATRIX, Step::One(Op1::NablaDiv), KIND),
    (MATRIX, Step::One(Op1::Curl), KIND),
    (MATRIX, Step::One(Op1::Transpose), Ok(&[3, 3])),
    (MATRIX, Step::One(Op1::Trace), Ok(&[])),
    (MATRIX, Step::One(Op1::Sym), Ok(&[3, 3])),
    (MATRIX, Step::One(Op1::Skew), Ok(&[3, 3])),
    (MATRIX, Step::One(Op1::Dev), Ok(&[3, 3])),
    (ROW, Step::One(Op1::Transpose), SHAPE),
    (ROW, Step::One(Op1::Trace), SHAPE),
    (ROW, Step::One(Op1::Dev), SHAPE),
];

const TWO: [(Part, Step, Wanted); 22] = [
    (MATRIX, Step::Two(Op2::Sum, MATRIX), Ok(&[3, 3])),
    (MATRIX, Step::Two(Op2::Sum, SMALL), SHAPE),
    (ITEM_I, Step::Two(Op2::Sum, ITEM_J), FREE_INDEX),
    (ROW_I, Step::Two(Op2::Sum, SMALL_ROW), SHAPE),
    (SCALAR, Step::Two(Op2::Product, ROW), Ok(&[3])),
    (MATRIX, Step::Two(Op2::Product, ROW), Ok(&[3])),
    (MATRIX, Step::Two(Op2::Product, MATRIX), Ok(&[3, 3])),
    (ROW, Step::Two(Op2::Product, MATRIX), SHAPE),
    (ROW, Step::Two(Op2::Product, ROW), SHAPE),
    (ITEM_I, Step::Two(Op2::Product, ITEM_I), Ok(&[])),
    (ITEM_I, Step::Two(Op2::Product, SMALL_ITEM_I), FREE_INDEX),
    (ROW, Step::Two(Op2::Dot, MATRIX), Ok(&[3])),
    (SCALAR, Step::Two(Op2::Dot, SCALAR), Ok(&[])),
    (SCALAR, Step::Two(Op2::Dot, ROW), SHAPE),
    (MATRIX, Step::Two(Op2::Inner, MATRIX), Ok(&[])),
    (ROW_I, Step::Two(Op2::Inner, ROW_J), Ok(&[])),
    (ROW_I, Step::Two(Op2::Inner, ROW_I), FREE_INDEX),
    (ROW_I, Step::Two(Op2::Inner, SMALL_ROW_I), SHAPE),
    (SMALL, Step::Two(Op2::Outer, ROW), Ok(&[2, 2, 3])),
    (ROW_I, Step::Two(Op2::Outer, ROW_I), FREE_INDEX),
    (ROW, Step::Two(Op2::Cross, ROW_I), Ok(&[3])),
    (SMALL_ROW, Step::Two(Op2::Cross, SMALL_ROW), SHAPE),
];

const OTHERS: [(Part, Step, Wanted); 22] = [
    (SCALAR, Step::Square, Ok(&[])),
    (ROW_I, Step::Square, SHAPE),
    (ITEM_I, Step::Square, FREE_INDEX),
    (MATRIX, Step::At(&[]), Ok(&[3, 3])),
    (MATRIX, Step::At(&[Ix::Fixed(2)]), Ok(&[3])),
    (MATRIX, Step::At(&[Ix::Fixed(3)]), SHAPE),
    (MATRIX, Step::At(&[I, I, I]), SHAPE),
    (MATRIX, Step::At(&[I, I]), Ok(&[])),
    (ROW_I, Step::At(&[I]), Ok(&[])),
    (SCALAR, Step::Along(FIRST), KIND),
    (Part(3, &[I, J]), Step::Over(&[9, 8]), Ok(&[3, 3])),
    (Part(3, &[I, J]), Step::Over(&[9, 9]), FREE_INDEX),
    (Part(3, &[I, J]), Step::Over(&[7]), FREE_INDEX),
    (ROW_I, Step::Over(&[8]), SHAPE),
    (MATRIX, Step::Label, Ok(&[3, 3])),
    (ROW_I, Step::Label, FREE_INDEX),
    (ROW_I, Step::By(SMALL), Ok(&[3, 2, 2])),
    (ROW_I, Step::By(ROW_J), FREE_INDEX),
    (ROW, Step::Beside(ROW), Ok(&[2, 3])),
    (ROW, Step::Beside(SMALL_ROW), SHAPE),
    (ROW_I, Step::Beside(ROW_J), FREE_INDEX),
    (Part(65, &[]), Step::Square, KIND),
];

/// The first case that comes otherwise.
fn first_other(alloc: Global, cases: &[(Part, Step, Wanted)]) -> Option<Part> {
    for (a, step, want) in cases {
        if !gives(built(alloc, *a, *step), *want) {
            return Some(*a);
        }
    }
    None
}

#[test]
fn operators_of_one_operand(rt: HostRuntime) {
    assert!(rt; first_other(rt.alloc(), &ONE).is_none());
}

#[test]
fn operators_of_two_operands(rt: HostRuntime) {
    assert!(rt; first_other(rt.alloc(), &TWO).is_none());
}

#[test]
fn other_builders(rt: HostRuntime) {
    assert!(rt; first_other(rt.alloc(), &OTHERS).is_none());
}

/// A third occurrence of an index, in a tensor of rank three.
fn third(alloc: Global) -> Result<Expr, TypeRefusal> {
    Expr::index(
        alloc,
        built(alloc, MATRIX, Step::Two(Op2::Outer, ROW))?,
        &[I, I, I],
    )
}

/// A number under so many negatives, at most.
fn tower(alloc: Global, height: u32) -> Result<Expr, TypeRefusal> {
    let mut e = Expr::number(alloc, Ratio::one())?;
    for _ in 0..height {
        e = Expr::one(alloc, Op1::Neg, e)?;
    }
    Ok(e)
}

#[test]
fn limits(rt: HostRuntime) {
    let alloc = rt.alloc();
    assert!(rt; gives(third(alloc), FREE_INDEX));
    assert!(rt; gives(tower(alloc, 127), Ok(&[])));
    assert!(rt; gives(tower(alloc, 128), NODES));
    assert!(rt; gives(Expr::list(alloc, Vec::new(alloc)), SHAPE));
    assert!(rt; gives(Expr::identity(alloc, 0), KIND));
}

/// The free indices of a product come by rising number.
#[test]
fn readers(rt: HostRuntime) -> Result<(), TypeRefusal> {
    let alloc = rt.alloc();
    let product = built(alloc, ITEM_J, Step::Two(Op2::Product, ITEM_I))?;
    let copied = product.copy(alloc)?;
    assert!(rt; copied.free() == [Free { index: 8, dim: 3 }, Free { index: 9, dim: 3 }].as_slice());
    assert!(rt; copied.nodes() == 5 && copied.height() == 3);
    assert!(rt; gives(Expr::diff(alloc, copied, &product), KIND));
    Ok(())
}

/// A function of an element of degree 1 on a cell.
#[derive(Clone, Copy)]
enum Of {
    Scalar(Role, Cell),
    Vector(Role, Cell),
}

fn scalar(cell: Cell) -> Option<Element> {
    Element::scalar(Family::Lagrange, cell, 1)
}

fn vector(alloc: Global, cell: Cell) -> Option<Element> {
    Element::vector(alloc, scalar(cell)?, cell.dim()).ok()
}

fn whole(alloc: Global, role: Role, element: Option<Element>) -> Result<Expr, TypeRefusal> {
    let mut elements = Elements::new(alloc);
    if let Some(element) = element {
        elements.add(element)?;
    }
    Expr::function(alloc, Function { role, element: 0 }, &elements)
}

fn function(alloc: Global, of: Of) -> Result<Expr, TypeRefusal> {
    match of {
        Of::Scalar(role, cell) => whole(alloc, role, scalar(cell)),
        Of::Vector(role, cell) => whole(alloc, role, vector(alloc, cell)),
    }
}

fn stepped_from(alloc: Global, of: Of, step: Step) -> Result<Expr, TypeRefusal> {
    stepped(alloc, function(alloc, of)?, step)
}

const FLAT: Of = Of::Scalar(Role::Test, Cell::Triangle);

const FLOW: Of = Of::Vector(Role::Coefficient(3), Cell::Triangle);

const SPACE: Of = Of::Vector(Role::Trial, Cell::Tetrahedron);

const PLACE: Of = Of::Vector(Role::Position, Cell::Triangle);

const NO_PLACE: Of = Of::Scalar(Role::Position, Cell::Triangle);

const FUNCTIONS: [(Of, Step, Wanted); 20] = [
    (PLACE, Step::One(Op1::Grad), Ok(&[2, 2])),
    (PLACE, Step::Label, Ok(&[2])),
    (NO_PLACE, Step::Label, KIND),
    (FLAT, Step::One(Op1::Grad), Ok(&[2])),
    (FLOW, Step::One(Op1::Grad), Ok(&[2, 2])),
    (SPACE, Step::One(Op1::NablaGrad), Ok(&[3, 3])),
    (FLAT, Step::One(Op1::Div), SHAPE),
    (FLOW, Step::One(Op1::Div), Ok(&[])),
    (FLOW, Step::One(Op1::NablaDiv), Ok(&[])),
    (FLAT, Step::One(Op1::Curl), Ok(&[2])),
    (FLOW, Step::One(Op1::Curl), Ok(&[])),
    (SPACE, Step::One(Op1::Curl), Ok(&[3])),
    (FLAT, Step::Along(Ix::Fixed(1)), Ok(&[])),
    (FLAT, Step::Along(Ix::Fixed(2)), SHAPE),
    (SPACE, Step::Along(I), Ok(&[3])),
    (FLAT, Step::Label, KIND),
    (SPACE, Step::Label, KIND),
    (FLOW, Step::Label, Ok(&[2])),
    (FLOW, Step::Two(Op2::Sum, SMALL_ROW), Ok(&[2])),
    (FLOW, Step::Two(Op2::Sum, ROW), SHAPE),
];

/// The first case that comes otherwise.
fn first_other_function(alloc: Global, cases: &[(Of, Step, Wanted)]) -> Option<Of> {
    for (of, step, want) in cases {
        if !gives(stepped_from(alloc, *of, *step), *want) {
            return Some(*of);
        }
    }
    None
}

#[test]
fn functions(rt: HostRuntime) {
    assert!(rt; first_other_function(rt.alloc(), &FUNCTIONS).is_none());
}

/// The position in a cell, with an element in the table.
fn position(alloc: Global, cell: Cell, element: Option<Element>) -> Result<Expr, TypeRefusal> {
    let mut elements = Elements::new(alloc);
    if let Some(element) = element {
        elements.add(element)?;
    }
    Expr::position(alloc, cell, &elements)
}

#[test]
fn positions(rt: HostRuntime) {
    let alloc = rt.alloc();
    let tetrahedron = Cell::Tetrahedron;
    assert!(rt;
        gives(
            position(alloc, Cell::Interval, vector(alloc, Cell::Interval)),
            Ok(&[1])
        )
    );
    assert!(rt;
        gives(
            position(alloc, tetrahedron, vector(alloc, tetrahedron)),
            Ok(&[3])
        )
    );
    assert!(rt;
        gives(
            position(alloc, tetrahedron, vector(alloc, Cell::Triangle)),
            KIND
        )
    );
    assert!(rt; gives(position(alloc, tetrahedron, scalar(tetrahedron)), KIND));
    assert!(rt; gives(position(alloc, tetrahedron, None), KIND));
}

/// Functions on different cells.
fn mixed(alloc: Global) -> Result<Expr, TypeRefusal> {
    Expr::two(
        alloc,
        Op2::Outer,
        function(alloc, FLOW)?,
        function(alloc, SPACE)?,
    )
}

#[test]
fn different_cells(rt: HostRuntime) {
    let alloc = rt.alloc();
    assert!(rt; gives(mixed(alloc), KIND));
    assert!(rt; gives(whole(alloc, Role::Test, None), KIND));
}

/// A vector and a scalar on the triangle.
fn flow_and_pressure(alloc: Global) -> Option<Element> {
    let parts = vec![in alloc; vector(alloc, Cell::Triangle)?, scalar(Cell::Triangle)?].ok()?;
    Element::mixed(alloc, parts).ok()
}

/// The same within a mixed element, before a scalar.
fn nested(alloc: Global) -> Option<Element> {
    let parts = vec![in alloc; flow_and_pressure(alloc)?, scalar(Cell::Triangle)?].ok()?;
    Element::mixed(alloc, parts).ok()
}

fn piece(alloc: Global, element: Option<Element>, which: u8) -> Result<Expr, TypeRefusal> {
    let mut elements = Elements::new(alloc);
    if let Some(element) = element {
        elements.add(element)?;
    }
    let f = Function {
        role: Role::Test,
        element: 0,
    };
    Expr::piece(alloc, f, &elements, which)
}

#[test]
fn parts_of_functions(rt: HostRuntime) {
    let alloc = rt.alloc();
    assert!(rt; gives(piece(alloc, flow_and_pressure(alloc), 0), Ok(&[2])));
    assert!(rt; gives(piece(alloc, flow_and_pressure(alloc), 1), Ok(&[])));
    assert!(rt; gives(piece(alloc, flow_and_pressure(alloc), 2), KIND));
    assert!(rt; gives(piece(alloc, nested(alloc), 0), Ok(&[3])));
    assert!(rt; gives(piece(alloc, scalar(Cell::Triangle), 0), KIND));
}
