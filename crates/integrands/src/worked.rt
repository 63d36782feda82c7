//! What the worked forms share: functions, their elements, and values at the point (2, 3, 5).

ghost use Rattle.std.specs.Prelude.{◌+◌, ◌<◌, ◌≤◌, length, IfOk};

use ratio::Ratio;
use reference::Fault;
use spaces::{Cell, Element, Family};
use sqlite_items::Items;
use std::alloc::Global;
use tree_values::{Given, Poly, Scene, Term};
use ufl_expr::{Elements, TypeRefusal};
use ufl_tree::{Function, Role};

/// The powers of x, y and z in a product of at most two of them, or in 1.
type Powers = (i128, [u8; 3]);

/// The components of a function, each a sum.
type Components = &'static [&'static [Powers]];

pub const W: Role = Role::Coefficient(0);

pub const G: Role = Role::Coefficient(1);

/// By its role, the components of a function; a scalar one is the first of them.
const FUNCTIONS: [(Role, Components); 4] = [
    // (x + 2 y, y z, 1), which is (8, 15, 1)
    (
        Role::Test,
        &[
            &[(1, [1, 0, 0]), (2, [0, 1, 0])],
            &[(1, [0, 1, 1])],
            &[(1, [0, 0, 0])],
        ],
    ),
    // (x y, z, x^2), which is (6, 5, 4)
    (
        Role::Trial,
        &[&[(1, [1, 1, 0])], &[(1, [0, 0, 1])], &[(1, [2, 0, 0])]],
    ),
    // (x^2, y, z), which is (4, 3, 5)
    (
        W,
        &[&[(1, [2, 0, 0])], &[(1, [0, 1, 0])], &[(1, [0, 0, 1])]],
    ),
    // (1 + 2 y, x, y z), which is (7, 2, 15)
    (
        G,
        &[
            &[(1, [0, 0, 0]), (2, [0, 1, 0])],
            &[(1, [1, 0, 0])],
            &[(1, [0, 1, 1])],
        ],
    ),
];

pub const PLANE: u16 = 0;

pub const PLANE_VECTOR: u16 = 1;

pub const SPACE: u16 = 2;

pub const SPACE_VECTOR: u16 = 3;

pub fn function(role: Role, element: u16) -> Function {
    Function { role, element }
}

pub fn whole(n: i128) -> Result<Ratio, Fault> {
    Ratio::new(n, 1).ok_or(Fault::Range)
}

fn power(alloc: Global, direction: u8, n: u8) -> Result<Poly, Fault> {
    Poly::coordinate(alloc, direction)?.power(alloc, n)
}

fn product(alloc: Global, powers: Powers) -> Result<Poly, Fault> {
    let (c, [x, y, z]) = powers;
    let all = Poly::constant(alloc, whole(c)?)?;
    let all = all.product(alloc, &power(alloc, 0, x)?)?;
    let all = all.product(alloc, &power(alloc, 1, y)?)?;
    all.product(alloc, &power(alloc, 2, z)?)
}

fn component(alloc: Global, parts: &[Powers]) -> Result<Poly, Fault> {
    let mut all = Poly::zero(alloc);
    for part in parts {
        all = all.sum(alloc, &product(alloc, *part)?)?;
    }
    Ok(all)
}

fn components(alloc: Global, all: &[&[Powers]]) -> Result<Items<Poly>, Fault> {
    let mut found = Items::new(alloc);
    for parts in all {
        found.push(component(alloc, parts)?)?;
    }
    Ok(found)
}

/// All functions, by their components.
pub fn functions(alloc: Global) -> Result<Items<Given>, Fault> {
    let mut all = Items::new(alloc);
    for (role, parts) in &FUNCTIONS {
        all.push(Given {
            role: *role,
            components: components(alloc, parts)?,
        })?;
    }
    Ok(all)
}

fn scalar(cell: Cell) -> Option<Element> {
    Element::scalar(Family::Lagrange, cell, 1)
}

fn vector(alloc: Global, cell: Cell) -> Option<Element> {
    Element::vector(alloc, scalar(cell)?, cell.dim()).ok()
}

/// The element of a number.
fn element(alloc: Global, number: u16) -> Option<Element> {
    match number {
        0 => scalar(Cell::Triangle),
        1 => vector(alloc, Cell::Triangle),
        2 => scalar(Cell::Tetrahedron),
        3 => vector(alloc, Cell::Tetrahedron),
        _ => None,
    }
}

/// All elements, by their numbers.
pub fn elements(alloc: Global) -> Result<Items<Element>, Fault> {
    let mut all = Items::new(alloc);
    for number in 0..4 {
        all.push(element(alloc, number).ok_or(Fault::Shape)?)?;
    }
    Ok(all)
}

/// The table with one more element.
#[tactic(auto, using(ufl_form::proofs::TableLaws::one_more_element))]
fn added(mut table: Elements, element: Option<Element>) -> Result<Elements, TypeRefusal>
    requires { length table < 65536 }
    ensures { IfOk result (λ all. length all ≤ length table + 1) }
{
    match element {
        None => Err(TypeRefusal::Kind),
        Some(element) => {
            table.add(element)?;
            Ok(table)
        }
    }
}

/// The same elements as a table.
pub fn table(alloc: Global) -> Result<Elements, TypeRefusal> {
    let all = added(Elements::new(alloc), element(alloc, 0))?;
    let all = added(all, element(alloc, 1))?;
    let all = added(all, element(alloc, 2))?;
    added(all, element(alloc, 3))
}

/// These elements and functions, on a cell with the marker 4.
pub fn scene<'a>(elements: &'a [Element], functions: &'a [Given]) -> Scene<'a> {
    Scene {
        elements,
        functions,
        marker: 4,
        changes: &[],
        names: &[],
    }
}

fn times_power(c: Ratio, base: i128, n: u32) -> Result<Ratio, Fault> {
    let power = base.checked_pow(n).ok_or(Fault::Range)?;
    c.mul(whole(power)?).ok_or(Fault::Range)
}

fn term_at_point(t: Term) -> Result<Ratio, Fault> {
    if t.first != 0 || t.second != 0 || t.third != 0 {
        return Err(Fault::Shape);
    }
    let with_x = times_power(t.coefficient, 2, t.x)?;
    let with_y = times_power(with_x, 3, t.y)?;
    times_power(with_y, 5, t.z)
}

/// The value at x = 2, y = 3, z = 5, where no parameter is left.
pub fn at_point(p: &Poly) -> Result<Ratio, Fault> {
    let mut total = Ratio::zero();
    for t in p.terms() {
        total = total.add(term_at_point(*t)?).ok_or(Fault::Range)?;
    }
    Ok(total)
}
