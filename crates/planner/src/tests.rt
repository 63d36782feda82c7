//! The kernels of u*v on intervals, and of inner(grad(u), grad(v)) and f[0]*u.dx(0)*v + f[1]*u.dx(1)*v on triangles,
//! with functions of degree 1, and what their runs give.

ghost use Rattle.std.specs.Prelude.{◌≡◌, [], ◌∷◌, IfOk};
ghost use Rattle.monos.specs.Monomial.{monomial_of, monomials_of};
ghost use Rattle.room.specs.Room.{mass_weight};
ghost use Rattle.planner.specs.Examples.{linear_parts, linear_layout, derived_atom, derived_product};
ghost use Rattle.planner.specs.Examples.{laplace_monomials, laplace_weight};
ghost use Rattle.planner.specs.Examples.{velocity_parts, velocity, transport_layout, transport_term};
ghost use Rattle.planner.specs.Examples.{transport_monomials, transport_weight};

use crate::planning::plan;
use c_run::{Machine, Ret};
use c_unit::{CFun, CStmt};
use monos::{Atom, CoefPlace, Layout, Mono, Weight};
use ratio::Ratio;
use spaces::{Cell, Element, Family, Parts};
use sqlite_items::Items;
use std::alloc::Global;
use std::test::Fail;
use ufl_tree::{Function, Role};

fn parts(alloc: Global, cell: Cell) -> Result<Parts, Fail>
    ensures { IfOk result (λ parts. parts ≡ linear_parts cell) }
{
    match Element::scalar(Family::Lagrange, cell, 1) {
        Some(element) => Ok(element.parts(alloc)?),
        None => Err("no such element".into()),
    }
}

fn layout(alloc: Global, cell: Cell) -> Result<Layout, Fail>
    ensures { IfOk result (λ l. l ≡ linear_layout cell) }
{
    let rows = parts(alloc, cell)?;
    let cols = parts(alloc, cell)?;
    Ok(Layout {
        d: cell.dim(),
        rows,
        cols,
        coefs: Items::new(alloc),
        position: None,
    })
}

fn parts_of_velocity(alloc: Global) -> Result<Parts, Fail>
    ensures { IfOk result (λ parts. parts ≡ velocity_parts) }
{
    let Some(linear) = Element::scalar(Family::Lagrange, Cell::Triangle, 1) else {
        return Err("no such element".into());
    };
    match Element::vector(alloc, linear, 2) {
        Ok(element) => Ok(element.parts(alloc)?),
        Err(_) => Err("no such element".into()),
    }
}

fn layout_of_transport(alloc: Global) -> Result<Layout, Fail>
    ensures { IfOk result (λ l. l ≡ transport_layout) }
{
    let rows = parts(alloc, Cell::Triangle)?;
    let cols = parts(alloc, Cell::Triangle)?;
    let mut coefs = Items::new(alloc);
    coefs.push(CoefPlace {
        number: 3,
        offset: 0,
        parts: parts_of_velocity(alloc)?,
    })?;
    Ok(Layout {
        d: 2,
        rows,
        cols,
        coefs,
        position: None,
    })
}

fn derived(role: Role, dirs: [u8; 3]) -> Atom
    ensures { result ≡ derived_atom role dirs }
{
    Atom {
        f: Function { role, element: 0 },
        component: 0,
        dirs,
    }
}

fn product(alloc: Global, dirs: [u8; 3]) -> Result<Mono, Fail>
    ensures { IfOk result (λ m. monomial_of m ≡ derived_product dirs) }
{
    let mut atoms = Items::new(alloc);
    atoms.push(derived(Role::Test, dirs))?;
    atoms.push(derived(Role::Trial, dirs))?;
    Ok(Mono {
        c: Ratio::one(),
        atoms,
    })
}

fn velocity_at(component: u8) -> Atom
    ensures { result ≡ velocity component }
{
    Atom {
        f: Function {
            role: Role::Coefficient(3),
            element: 0,
        },
        component,
        dirs: [0, 0, 0],
    }
}

fn transported(alloc: Global, dirs: [u8; 3], component: u8) -> Result<Mono, Fail>
    ensures { IfOk result (λ m. monomial_of m ≡ transport_term dirs component) }
{
    let mut atoms = Items::new(alloc);
    atoms.push(derived(Role::Test, [0, 0, 0]))?;
    atoms.push(derived(Role::Trial, dirs))?;
    atoms.push(velocity_at(component))?;
    Ok(Mono {
        c: Ratio::one(),
        atoms,
    })
}

fn mass(alloc: Global) -> Result<Vec<Mono>, Fail>
    ensures { IfOk result (λ monos. monomials_of monos.items ≡ derived_product (0 ∷ 0 ∷ 0 ∷ []) ∷ []) }
{
    let mut monos = Vec::new(alloc);
    monos.push(product(alloc, [0, 0, 0])?)?;
    Ok(monos)
}

fn laplacian(alloc: Global) -> Result<Vec<Mono>, Fail>
    ensures { IfOk result (λ monos. monomials_of monos.items ≡ laplace_monomials) }
{
    let mut monos = Vec::new(alloc);
    monos.push(product(alloc, [1, 0, 0])?)?;
    monos.push(product(alloc, [0, 1, 0])?)?;
    Ok(monos)
}

fn transport(alloc: Global) -> Result<Vec<Mono>, Fail>
    ensures { IfOk result (λ monos. monomials_of monos.items ≡ transport_monomials) }
{
    let mut monos = Vec::new(alloc);
    monos.push(transported(alloc, [1, 0, 0], 0)?)?;
    monos.push(transported(alloc, [0, 1, 0], 1)?)?;
    Ok(monos)
}

fn weight_of_mass() -> Weight
    ensures { result ≡ mass_weight }
{
    Weight {
        cost: 4,
        deg: 2,
        g: 2,
        f: 2,
        rmin: 0,
        rmax: 0,
        num: 1,
        den: 1,
        fac: 1,
        s: 16,
    }
}

fn weight_of_laplace() -> Weight
    ensures { result ≡ laplace_weight }
{
    Weight {
        cost: 72,
        deg: 0,
        g: 2,
        f: 2,
        rmin: 2,
        rmax: 2,
        num: 9,
        den: 1,
        fac: 1,
        s: 16,
    }
}

fn weight_of_transport() -> Weight
    ensures { result ≡ transport_weight }
{
    Weight {
        cost: 108,
        deg: 2,
        g: 3,
        f: 3,
        rmin: 1,
        rmax: 1,
        num: 3,
        den: 1,
        fac: 1,
        s: 64,
    }
}

fn mass_kernel(alloc: Global) -> Result<CFun, Fail> {
    let l = layout(alloc, Cell::Interval)?;
    let monos = mass(alloc)?;
    Ok(plan(alloc, b"ffc_a", monos.as_slice(), &l, &weight_of_mass())?)
}

fn laplace_kernel(alloc: Global) -> Result<CFun, Fail> {
    let l = layout(alloc, Cell::Triangle)?;
    let monos = laplacian(alloc)?;
    Ok(plan(alloc, b"ffc_a", monos.as_slice(), &l, &weight_of_laplace())?)
}

fn transport_kernel(alloc: Global) -> Result<CFun, Fail> {
    let l = layout_of_transport(alloc)?;
    let monos = transport(alloc)?;
    Ok(plan(
        alloc,
        b"ffc_a",
        monos.as_slice(),
        &l,
        &weight_of_transport(),
    )?)
}

fn numbers(alloc: Global, of: &[(i128, i128)]) -> Result<Vec<Ratio>, Fail> {
    let mut all = Vec::new(alloc);
    for (n, d) in of {
        all.push(Ratio::new(*n, *d).ok_or("doesn't fit")?)?;
    }
    Ok(all)
}

/// A worked run: coordinates of a cell's vertices, coefficient values on it, and the cell's shares.
#[derive(Clone, Copy)]
struct Worked<'a> {
    corners: &'a [(i128, i128)],
    values: &'a [(i128, i128)],
    shares: &'a [(i128, i128)],
}

// How a run of the kernel ends, and what it leaves in A.
fn run(alloc: Global, f: &CFun, of: Worked<'_>) -> Result<(Ret, Vec<Ratio>), Fail> {
    let x = numbers(alloc, of.corners)?;
    let w = numbers(alloc, of.values)?;
    let mut a = vec![in alloc; Ratio::one(); f.a as usize]?;
    let mut machine = Machine::new(alloc, f)?;
    let end = machine.run(x.as_slice(), w.as_slice(), a.as_mut_slice());
    Ok((end, a))
}

// Whether a run gives the cell's shares.
fn gives_shares(alloc: Global, f: &CFun, of: Worked<'_>) -> Result<bool, Fail> {
    let (end, a) = run(alloc, f, of)?;
    let wanted = numbers(alloc, of.shares)?;
    Ok(end.is_good() && a.as_slice() == wanted.as_slice())
}

#[test]
fn shares(rt: HostRuntime) -> Result<(), Fail> {
    let mass = mass_kernel(rt.alloc())?;
    assert_eq!(rt; (mass.x, mass.w, mass.a), (2, 0, 4));
    let on_interval = Worked {
        corners: &[(1, 2), (2, 1)],
        values: &[],
        shares: &[(1, 2), (1, 4), (1, 4), (1, 2)],
    };
    assert!(rt; gives_shares(rt.alloc(), &mass, on_interval)?);
    let laplacian = laplace_kernel(rt.alloc())?;
    assert_eq!(rt; (laplacian.x, laplacian.w, laplacian.a), (6, 0, 9));
    let clockwise = Worked {
        corners: &[(0, 1), (0, 1), (1, 1), (3, 1), (2, 1), (1, 1)],
        values: &[],
        shares: &[
            (1, 2),
            (0, 1),
            (-1, 2),
            (0, 1),
            (1, 2),
            (-1, 2),
            (-1, 2),
            (-1, 2),
            (1, 1),
        ],
    };
    assert!(rt; gives_shares(rt.alloc(), &laplacian, clockwise)?);
    let transport = transport_kernel(rt.alloc())?;
    assert_eq!(rt; (transport.x, transport.w, transport.a), (6, 6, 9));
    let along = Worked {
        corners: &[(0, 1), (0, 1), (1, 1), (0, 1), (1, 1), (2, 1)],
        values: &[(1, 1), (2, 1), (-1, 1), (1, 2), (0, 1), (3, 1)],
        shares: &[
            (-1, 4),
            (1, 12),
            (1, 6),
            (-1, 3),
            (3, 16),
            (7, 48),
            (-1, 12),
            (-3, 16),
            (13, 48),
        ],
    };
    assert!(rt; gives_shares(rt.alloc(), &transport, along)?);
    Ok(())
}

// Each row of u*v is a multiple of the first.
#[test]
fn table_and_statements(rt: HostRuntime) -> Result<(), Fail> {
    let f = mass_kernel(rt.alloc())?;
    assert_eq!(rt; f.tables.len(), 1);
    assert_eq!(rt; f.tables.get(0).map(|table| table.len()), Some(1));
    assert_eq!(rt;
        f.tables.get(0).and_then(|table| table.get(0)).copied(),
        Ratio::new(1, 3)
    );
    assert_eq!(rt; f.body.len(), 15);
    assert!(rt;
        f.body
            .as_slice()
            .iter()
            .all(|statement| !matches!(statement, CStmt::For { .. }))
    );
    Ok(())
}

#[test]
fn a_flat_cell_ends_at_the_reciprocal(rt: HostRuntime) -> Result<(), Fail> {
    let f = mass_kernel(rt.alloc())?;
    let flat = Worked {
        corners: &[(3, 1), (3, 1)],
        values: &[],
        shares: &[],
    };
    let (end, _) = run(rt.alloc(), &f, flat)?;
    assert!(rt; matches!(end, Ret::Zero { at: 2 }));
    Ok(())
}
