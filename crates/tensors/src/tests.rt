//! Reference tensors that were worked out by hand.

ghost use Rattle.std.specs.Prelude.{◌≡◌, ◌*◌, ◌^◌, ◌≤◌, true, max, slice_get, [], ◌∷◌, IfOk, IfSome};
ghost use Rattle.monos.specs.Layout.{MayBeOn, IsLawfulLayout, position_parts as parts_of_position, role_parts};
ghost use Rattle.monos.specs.Monomial.{derivative_count as derivatives_of};
ghost use Rattle.refint.specs.Reference.{nodes_in};
ghost use Rattle.monomial_products.specs.Products.{IsSmall};

use crate::formed::{entry_count, tensor_of};
use monomial_products::{derivative_count, part_of};
use monos::{Atom, CoefPlace, Layout, Mono};
use ratio::Ratio;
use spaces::{Cell, Element, Family, Part, Parts, node_count};
use sqlite_items::Items;
use std::alloc::{AllocError, Global};
use std::test::Fail;
use ufl_tree::{Function, Role};

/// The parts of an element, where it is on the cell.
fn parts_on(alloc: Global, cell: Cell, element: &Element) -> Result<Option<Parts>, AllocError>
    ensures { IfOk result (λ parts. IfSome parts (MayBeOn cell)) }
{
    // That the tree is lawful makes its parts those of a lawful element.
    let _tree = element.tree();
    if element.cell() != cell {
        return Ok(None);
    }
    Ok(Some(element.parts(alloc)?))
}

/// The parts of these scalar elements, one after the other; none for no element.
fn parts(alloc: Global, cell: Cell, scalars: &[(Family, u8)]) -> Result<Option<Parts>, AllocError>
    ensures { IfOk result (λ parts. IfSome parts (MayBeOn cell)) }
{
    if scalars.is_empty() {
        return Ok(Some(Parts::none(alloc)));
    }
    let mut elements = Vec::new(alloc);
    for (family, degree) in scalars {
        let Some(element) = Element::scalar(*family, cell, *degree) else {
            return Ok(None);
        };
        elements.push(element)?;
    }
    match Element::mixed(alloc, elements) {
        Ok(element) => parts_on(alloc, cell, &element),
        Err(_) => Ok(None),
    }
}

/// The parts of the coordinate of space.
fn position_parts(alloc: Global, cell: Cell) -> Result<Parts, AllocError>
    ensures { IfOk result (λ parts. parts ≡ parts_of_position cell) }
{
    let part = Part {
        family: Family::Lagrange,
        degree: 1,
        nodes: node_count(cell, 1),
        offset: 0,
    };
    Parts::copies(alloc, part, cell.dim())
}

/// The one coefficient, number 3.
fn places(alloc: Global, parts: Parts) -> Result<Items<CoefPlace>, AllocError>
    ensures { IfOk result (λ places. places ≡ record { number = 3; offset = 0; parts = parts } ∷ []) }
{
    let mut places = Items::new(alloc);
    places.push(CoefPlace {
        number: 3,
        offset: 0,
        parts,
    })?;
    Ok(places)
}

/// The layout of a test function, a trial function, coefficient 3 and the position.
fn layout(
    alloc: Global,
    cell: Cell,
    scalars: [&[(Family, u8)]; 3],
) -> Result<Option<Layout>, AllocError>
    ensures { IfOk result (λ l. IfSome l IsLawfulLayout) }
{
    let [test, trial, coefficient] = scalars;
    let Some(rows) = parts(alloc, cell, test)? else {
        return Ok(None);
    };
    let Some(cols) = parts(alloc, cell, trial)? else {
        return Ok(None);
    };
    let Some(values) = parts(alloc, cell, coefficient)? else {
        return Ok(None);
    };
    if values.local > 16777216 {
        return Ok(None);
    }
    Ok(Some(Layout {
        d: cell.dim(),
        rows,
        cols,
        coefs: places(alloc, values)?,
        position: Some(position_parts(alloc, cell)?),
    }))
}

/// The spread times `factor^count`, where that is at most 2^20.
fn spread_by(spread: u64, factor: u8, count: u16) -> Option<u64>
    requires { spread ≤ 2 ^ 20 }
    ensures { IfSome result (λ n. (n ≡ spread * factor ^ count) × (n ≤ 2 ^ 20)) }
{
    let mut product = spread;
    for _ in 0..count {
        product *= factor as u64;
        if product > 1048576 {
            return None;
        }
    }
    Some(product)
}

/// The spread with one atom more, where that is at most 2^20.
fn spread_with(l: &Layout, spread: u64, atom: Atom) -> Option<u64>
    requires { spread ≤ 2 ^ 20 }
    ensures { IfSome result (λ n. (n ≡ spread
        * (max 1 (nodes_in (slice_get (role_parts l.now atom.f.role) atom.component)) * l.now.d ^ derivatives_of atom))
        × (n ≤ 2 ^ 20)) }
{
    let nodes = match part_of(l, atom) {
        Some(part) => part.nodes.max(1),
        None => 1,
    };
    let own = spread * nodes as u64;
    if own > 1048576 {
        return None;
    }
    spread_by(own, l.d, derivative_count(atom))
}

/// Whether there are few atoms, and few rows and columns.
fn is_small(l: &Layout, atoms: &[Atom]) -> bool
    ensures { result ≡ true → IsSmall l.now atoms.now }
{
    if atoms.len() > 256 {
        return false;
    }
    let mut spread: u64 = 1;
    for atom in atoms {
        let Some(with) = spread_with(l, spread, *atom) else {
            return false;
        };
        spread = with;
    }
    true
}

const P1: (Family, u8) = (Family::Lagrange, 1);

const P2: (Family, u8) = (Family::Lagrange, 2);

const P3: (Family, u8) = (Family::Lagrange, 3);

const DG0: (Family, u8) = (Family::Dg, 0);

const REAL: (Family, u8) = (Family::Real, 0);

const V: Role = Role::Test;

const U: Role = Role::Trial;

const F: Role = Role::Coefficient(3);

const X: Role = Role::Position;

const NONE: [u8; 3] = [0, 0, 0];

const ONE: [u8; 3] = [1, 0, 0];

/// A monomial, the scalar parts of test function, trial function and coefficient, and an entry with its row.
#[derive(Clone, Copy)]
struct Case<'a> {
    cell: Cell,
    parts: [&'a [(Family, u8)]; 3],
    c: (i128, i128),
    /// Function, component, and how often it is derived in each direction.
    atoms: &'a [(Role, u8, [u8; 3])],
    /// The local nodes of the test and the trial function.
    entry: (u32, u32),
    row: &'a [(i128, i128)],
}

fn monomial(alloc: Global, c: (i128, i128), atoms: &[(Role, u8, [u8; 3])]) -> Result<Mono, Fail> {
    let mut items = Items::new(alloc);
    for (role, component, dirs) in atoms {
        items.push(Atom {
            f: Function {
                role: *role,
                element: 0,
            },
            component: *component,
            dirs: *dirs,
        })?;
    }
    let c = Ratio::new(c.0, c.1).unwrap_or(Ratio::zero());
    Ok(Mono { c, atoms: items })
}

fn is_row(row: &[Ratio], wanted: &[(i128, i128)]) -> bool {
    row.len() == wanted.len()
        && row
            .iter()
            .zip(wanted)
            .all(|(item, (n, d))| Ratio::new(*n, *d) == Some(*item))
}

/// The number of the entry of local nodes a and b.
fn entry_number((a, b): (u32, u32), cols: u32) -> Option<u32> {
    a.checked_mul(cols)?.checked_add(b)
}

fn has_row(alloc: Global, case: Case<'_>) -> Result<bool, Fail> {
    let Some(l) = layout(alloc, case.cell, case.parts)? else {
        return Ok(false);
    };
    let m = monomial(alloc, case.c, case.atoms)?;
    if !is_small(&l, m.atoms.as_slice()) {
        return Ok(false);
    }
    let tensor = tensor_of(alloc, &m, &l)?;
    let Some(k) = entry_number(case.entry, entry_count(&l.cols)) else {
        return Ok(false);
    };
    if k >= tensor.rows() || tensor.columns() as usize != case.row.len() {
        return Ok(false);
    }
    Ok(is_row(tensor.row(k), case.row))
}

#[test]
fn worked_rows(rt: HostRuntime) -> Result<(), Fail> {
    let cases = [
        // u*v, degree 1
        Case {
            cell: Cell::Interval,
            parts: [&[P1], &[P1], &[]],
            c: (1, 1),
            atoms: &[(V, 0, NONE), (U, 0, NONE)],
            entry: (0, 1),
            row: &[(1, 6)],
        },
        // degree 2
        Case {
            cell: Cell::Triangle,
            parts: [&[P2], &[P2], &[]],
            c: (1, 1),
            atoms: &[(V, 0, NONE), (U, 0, NONE)],
            entry: (3, 4),
            row: &[(2, 45)],
        },
        // degree 3
        Case {
            cell: Cell::Tetrahedron,
            parts: [&[P3], &[P3], &[]],
            c: (1, 1),
            atoms: &[(V, 0, NONE), (U, 0, NONE)],
            entry: (0, 16),
            row: &[(3, 4480)],
        },
        // u.dx(0)*v.dx(0), degree 1
        Case {
            cell: Cell::Triangle,
            parts: [&[P1], &[P1], &[]],
            c: (1, 1),
            atoms: &[(V, 0, ONE), (U, 0, ONE)],
            entry: (0, 1),
            row: &[(-1, 2), (0, 1), (-1, 2), (0, 1)],
        },
        // degree 2
        Case {
            cell: Cell::Interval,
            parts: [&[P2], &[P2], &[]],
            c: (1, 1),
            atoms: &[(V, 0, ONE), (U, 0, ONE)],
            entry: (0, 2),
            row: &[(-8, 3)],
        },
        // degree 3: row and column nodes differ
        Case {
            cell: Cell::Interval,
            parts: [&[P3], &[P3], &[]],
            c: (1, 1),
            atoms: &[(V, 0, ONE), (U, 0, ONE)],
            entry: (1, 2),
            row: &[(-189, 40)],
        },
        // f[1]*u.dx(1)*v, a vector f of degree 1
        Case {
            cell: Cell::Triangle,
            parts: [&[P1], &[P1], &[P1, P1]],
            c: (1, 1),
            atoms: &[(V, 0, NONE), (U, 0, [0, 1, 0]), (F, 1, NONE)],
            entry: (0, 1),
            row: &[(1, 12), (0, 1), (1, 24), (0, 1), (1, 24), (0, 1)],
        },
        // p*div(v) of degrees 2, 2 and 1, at the second component
        Case {
            cell: Cell::Triangle,
            parts: [&[P2, P2, P1], &[P2, P2, P1], &[]],
            c: (-1, 1),
            atoms: &[(V, 1, [0, 1, 0]), (U, 2, NONE)],
            entry: (9, 14),
            row: &[(0, 1), (1, 6)],
        },
        // the same where the row is of another component
        Case {
            cell: Cell::Triangle,
            parts: [&[P2, P2, P1], &[P2, P2, P1], &[]],
            c: (-1, 1),
            atoms: &[(V, 1, [0, 1, 0]), (U, 2, NONE)],
            entry: (3, 14),
            row: &[(0, 1), (0, 1)],
        },
        // a test function of degree 0, and a constant for f
        Case {
            cell: Cell::Triangle,
            parts: [&[DG0], &[P1], &[REAL]],
            c: (3, 1),
            atoms: &[(V, 0, NONE), (U, 0, NONE), (F, 0, NONE)],
            entry: (0, 2),
            row: &[(1, 2)],
        },
        // a derivative of a constant
        Case {
            cell: Cell::Triangle,
            parts: [&[P1], &[P1], &[REAL]],
            c: (1, 1),
            atoms: &[(V, 0, NONE), (U, 0, NONE), (F, 0, ONE)],
            entry: (0, 0),
            row: &[(0, 1), (0, 1)],
        },
        // a derivative in a direction above the dimension
        Case {
            cell: Cell::Interval,
            parts: [&[P1], &[], &[]],
            c: (1, 1),
            atoms: &[(V, 0, [0, 0, 1])],
            entry: (1, 0),
            row: &[(1, 1)],
        },
        // more derivatives than the degree
        Case {
            cell: Cell::Triangle,
            parts: [&[P1], &[], &[P1]],
            c: (1, 1),
            atoms: &[(V, 0, NONE), (F, 0, [1, 1, 0])],
            entry: (1, 0),
            row: &[(0, 1); 12],
        },
        // two test atoms
        Case {
            cell: Cell::Interval,
            parts: [&[P2], &[], &[]],
            c: (2, 1),
            atoms: &[(V, 0, NONE), (V, 0, ONE)],
            entry: (1, 0),
            row: &[(1, 1)],
        },
        // two test atoms of different components
        Case {
            cell: Cell::Interval,
            parts: [&[P1, P1], &[], &[]],
            c: (2, 1),
            atoms: &[(V, 0, NONE), (V, 1, NONE)],
            entry: (1, 0),
            row: &[(0, 1)],
        },
        // no test atom where there is a test function
        Case {
            cell: Cell::Interval,
            parts: [&[P1], &[P1], &[]],
            c: (1, 1),
            atoms: &[(U, 0, NONE)],
            entry: (1, 0),
            row: &[(1, 2)],
        },
        // x[1]*v
        Case {
            cell: Cell::Triangle,
            parts: [&[P1], &[], &[]],
            c: (1, 1),
            atoms: &[(V, 0, NONE), (X, 1, NONE)],
            entry: (2, 0),
            row: &[(1, 24), (1, 24), (1, 12)],
        },
        // atoms in another order: coefficient, trial and test function
        Case {
            cell: Cell::Triangle,
            parts: [&[P1], &[P1], &[P1]],
            c: (1, 1),
            atoms: &[(F, 0, NONE), (U, 0, [0, 1, 0]), (V, 0, NONE)],
            entry: (2, 1),
            row: &[(1, 24), (0, 1), (1, 24), (0, 1), (1, 12), (0, 1)],
        },
        // atoms in another order, with derivatives of a trial and a test atom
        Case {
            cell: Cell::Interval,
            parts: [&[P1], &[P2], &[P1]],
            c: (1, 1),
            atoms: &[(F, 0, ONE), (U, 0, ONE), (V, 0, NONE)],
            entry: (1, 2),
            row: &[(2, 3), (-2, 3)],
        },
        // number
        Case {
            cell: Cell::Tetrahedron,
            parts: [&[], &[], &[]],
            c: (-5, 7),
            atoms: &[],
            entry: (0, 0),
            row: &[(-5, 42)],
        },
        // second derivatives
        Case {
            cell: Cell::Interval,
            parts: [&[P3], &[P3], &[]],
            c: (1, 1),
            atoms: &[(V, 0, [2, 0, 0]), (U, 0, [2, 0, 0])],
            entry: (0, 1),
            row: &[(-81, 2)],
        },
    ];
    for (i, case) in cases.iter().enumerate() {
        assert!(rt; has_row(rt.alloc(), *case)?, "case {i}");
    }
    Ok(())
}
