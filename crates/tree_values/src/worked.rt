//! What the worked cases share: functions, their elements, and the point (2, 3, 5), at which values are compared.

ghost use Rattle.std.specs.Prelude.{◌+◌, ◌<◌, ◌≤◌, length, IfOk};

use crate::environment::Given;
use crate::poly::Poly;
use crate::scene::Scene;
use crate::term::Term;
use ratio::Ratio;
use reference::Fault;
use reference::number::product;
use spaces::{Cell, Element, Family};
use sqlite_items::Items;
use std::alloc::Global;
use ufl_expr::{Elements, TypeRefusal};
use ufl_tree::{Function, Role};

/// A coefficient and the powers of x, y and z.
type Monomial = (i128, [u8; 3]);

/// A function by its row in `FUNCTIONS`.
pub type Name = usize;

pub const F: Name = 0;

pub const U: Name = 1;

pub const V: Name = 2;

pub const A: Name = 3;

pub const B: Name = 4;

pub const SPACE_F: Name = 5;

pub const SPACE_U: Name = 6;

pub const SPACE_V: Name = 7;

pub const SPACE_A: Name = 8;

pub const PAIR: Name = 9;

pub const TEST: Name = 10;

pub const TRIAL: Name = 11;

pub const SQUARE: Name = 12;

pub const LINE: Name = 13;

pub const PLACE: Name = 14;

pub const FLOW: Name = 15;

/// The role of a function, the number of its element, and each component as a sum of monomials.
type Row = (Role, u16, &'static [&'static [Monomial]]);

const FUNCTIONS: [Row; 16] = [
    // f = 3 x^2 y, which is 36
    (Role::Coefficient(0), 0, &[&[(3, [2, 1, 0])]]),
    // u = (x y^2, x^2), which is (18, 4)
    (
        Role::Coefficient(1),
        1,
        &[&[(1, [1, 2, 0])], &[(1, [2, 0, 0])]],
    ),
    // v = (y, x^2), which is (3, 4)
    (
        Role::Coefficient(2),
        1,
        &[&[(1, [0, 1, 0])], &[(1, [2, 0, 0])]],
    ),
    // a = ((x^2, x y), (y^3, x y^2)), which is ((4, 6), (27, 18))
    (
        Role::Coefficient(3),
        2,
        &[
            &[(1, [2, 0, 0])],
            &[(1, [1, 1, 0])],
            &[(1, [0, 3, 0])],
            &[(1, [1, 2, 0])],
        ],
    ),
    // b = ((y, x), (1, x y)), which is ((3, 2), (1, 6))
    (
        Role::Coefficient(4),
        2,
        &[
            &[(1, [0, 1, 0])],
            &[(1, [1, 0, 0])],
            &[(1, [0, 0, 0])],
            &[(1, [1, 1, 0])],
        ],
    ),
    // in space f = x y^2 z, which is 90
    (Role::Coefficient(5), 3, &[&[(1, [1, 2, 1])]]),
    // u = (y z^2, x^2 z, x y), which is (75, 20, 6)
    (
        Role::Coefficient(6),
        4,
        &[&[(1, [0, 1, 2])], &[(1, [2, 0, 1])], &[(1, [1, 1, 0])]],
    ),
    // v = (x, y z, 1), which is (2, 15, 1)
    (
        Role::Coefficient(7),
        4,
        &[&[(1, [1, 0, 0])], &[(1, [0, 1, 1])], &[(1, [0, 0, 0])]],
    ),
    // a = ((x^2, y, z), (x y, y z, x), (z^2, x z, y^2)), which is ((4, 3, 5), (6, 15, 2), (25, 10, 9))
    (
        Role::Coefficient(8),
        5,
        &[
            &[(1, [2, 0, 0])],
            &[(1, [0, 1, 0])],
            &[(1, [0, 0, 1])],
            &[(1, [1, 1, 0])],
            &[(1, [0, 1, 1])],
            &[(1, [1, 0, 0])],
            &[(1, [0, 0, 2])],
            &[(1, [1, 0, 1])],
            &[(1, [0, 2, 0])],
        ],
    ),
    // the vector (x, y, z) and the scalar 7
    (
        Role::Coefficient(9),
        6,
        &[
            &[(1, [1, 0, 0])],
            &[(1, [0, 1, 0])],
            &[(1, [0, 0, 1])],
            &[(7, [0, 0, 0])],
        ],
    ),
    // x + 2 y, which is 8
    (Role::Test, 0, &[&[(1, [1, 0, 0]), (2, [0, 1, 0])]]),
    // x y, which is 6
    (Role::Trial, 0, &[&[(1, [1, 1, 0])]]),
    // x^2, which is 4
    (Role::Coefficient(10), 0, &[&[(1, [2, 0, 0])]]),
    // 1 + 2 y, which is 7
    (
        Role::Coefficient(11),
        0,
        &[&[(1, [0, 0, 0]), (2, [0, 1, 0])]],
    ),
    // (x, y, z), which is (2, 3, 5)
    (
        Role::Coefficient(12),
        4,
        &[&[(1, [1, 0, 0])], &[(1, [0, 1, 0])], &[(1, [0, 0, 1])]],
    ),
    // (y z, x, 2), which is (15, 2, 2)
    (
        Role::Coefficient(13),
        4,
        &[&[(1, [0, 1, 1])], &[(1, [1, 0, 0])], &[(2, [0, 0, 0])]],
    ),
];

/// The function of this name.
pub fn function(name: Name) -> Option<Function> {
    let (role, element, _) = FUNCTIONS.get(name)?;
    Some(Function {
        role: *role,
        element: *element,
    })
}

pub fn whole(n: i128) -> Result<Ratio, Fault> {
    Ratio::new(n, 1).ok_or(Fault::Range)
}

fn power(alloc: Global, direction: u8, n: u8) -> Result<Poly, Fault> {
    Poly::coordinate(alloc, direction)?.power(alloc, n)
}

fn monomial(alloc: Global, m: Monomial) -> Result<Poly, Fault> {
    let (c, [x, y, z]) = m;
    let all = Poly::constant(alloc, whole(c)?)?;
    let all = all.product(alloc, &power(alloc, 0, x)?)?;
    let all = all.product(alloc, &power(alloc, 1, y)?)?;
    all.product(alloc, &power(alloc, 2, z)?)
}

fn polynomial(alloc: Global, monomials: &[Monomial]) -> Result<Poly, Fault> {
    let mut all = Poly::zero(alloc);
    for m in monomials {
        all = all.sum(alloc, &monomial(alloc, *m)?)?;
    }
    Ok(all)
}

fn polynomials(alloc: Global, parts: &[&[Monomial]]) -> Result<Items<Poly>, Fault> {
    let mut all = Items::new(alloc);
    for part in parts {
        all.push(polynomial(alloc, part)?)?;
    }
    Ok(all)
}

/// All functions, by their components.
pub fn functions(alloc: Global) -> Result<Items<Given>, Fault> {
    let mut all = Items::new(alloc);
    for (role, _, components) in &FUNCTIONS {
        all.push(Given {
            role: *role,
            components: polynomials(alloc, components)?,
        })?;
    }
    Ok(all)
}

fn scalar(cell: Cell) -> Option<Element> {
    Element::scalar(Family::Lagrange, cell, 1)
}

fn vector(alloc: Global, cell: Cell) -> Option<Element> {
    Element::vector(alloc, scalar(cell)?, cell.dim()).ok()
}

fn tensor(alloc: Global, cell: Cell) -> Option<Element> {
    Element::tensor(alloc, scalar(cell)?, cell.dim(), cell.dim()).ok()
}

fn pair(alloc: Global, cell: Cell) -> Option<Element> {
    let parts = vec![in alloc; vector(alloc, cell)?, scalar(cell)?].ok()?;
    Element::mixed(alloc, parts).ok()
}

/// The element of a number in `FUNCTIONS`.
fn element(alloc: Global, number: usize) -> Option<Element> {
    match number {
        0 => scalar(Cell::Triangle),
        1 => vector(alloc, Cell::Triangle),
        2 => tensor(alloc, Cell::Triangle),
        3 => scalar(Cell::Tetrahedron),
        4 => vector(alloc, Cell::Tetrahedron),
        5 => tensor(alloc, Cell::Tetrahedron),
        6 => pair(alloc, Cell::Tetrahedron),
        _ => None,
    }
}

/// All elements, by their numbers.
pub fn elements(alloc: Global) -> Result<Items<Element>, Fault> {
    let mut all = Items::new(alloc);
    for number in 0..7 {
        all.push(element(alloc, number).ok_or(Fault::Shape)?)?;
    }
    Ok(all)
}

/// These elements and functions, on a cell with the marker 4.
pub fn scene<'a>(elements: &'a [Element], functions: &'a [Given]) -> Scene<'a> {
    Scene {
        elements,
        functions,
        marker: 4,
        changes: &[],
        names: &[],
    }
}

/// The table with one more element.
#[tactic(auto, using(ufl_form::proofs::TableLaws::one_more_element))]
fn added(mut table: Elements, element: Option<Element>) -> Result<Elements, TypeRefusal>
    requires { length table < 65536 }
    ensures { IfOk result (λ all. length all ≤ length table + 1) }
{
    match element {
        None => Err(TypeRefusal::Kind),
        Some(element) => {
            table.add(element)?;
            Ok(table)
        }
    }
}

/// The same elements as a table.
pub fn table(alloc: Global) -> Result<Elements, TypeRefusal> {
    let all = added(Elements::new(alloc), element(alloc, 0))?;
    let all = added(all, element(alloc, 1))?;
    let all = added(all, element(alloc, 2))?;
    let all = added(all, element(alloc, 3))?;
    let all = added(all, element(alloc, 4))?;
    let all = added(all, element(alloc, 5))?;
    added(all, element(alloc, 6))
}

fn raised_to(base: i128, n: u32) -> Result<Ratio, Fault> {
    whole(base.checked_pow(n).ok_or(Fault::Range)?)
}

fn term_at_point(t: Term) -> Result<Ratio, Fault> {
    if t.first != 0 || t.second != 0 || t.third != 0 {
        return Err(Fault::Shape);
    }
    let with_x = product(t.coefficient, raised_to(2, t.x)?)?;
    let with_y = product(with_x, raised_to(3, t.y)?)?;
    product(with_y, raised_to(5, t.z)?)
}

/// The value at x = 2, y = 3, z = 5, where no parameter is left.
fn at_point(p: &Poly) -> Result<Ratio, Fault> {
    let mut total = Ratio::zero();
    for t in p.terms() {
        total = total.add(term_at_point(*t)?).ok_or(Fault::Range)?;
    }
    Ok(total)
}

/// A polynomial was found whose value at the point is this fraction.
pub fn gives(found: Result<Poly, Fault>, numerator: i128, denominator: i128) -> bool {
    let Ok(p) = found else {
        return false;
    };
    let Ok(value) = at_point(&p) else {
        return false;
    };
    Ratio::new(numerator, denominator) == Some(value)
}
