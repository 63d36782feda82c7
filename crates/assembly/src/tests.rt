//! The mass matrix on intervals: its rows, and the shares of the cells.

ghost use Rattle.std.specs.Prelude.{◌≡◌, [], Some, IfOk};
ghost use Rattle.spaces.specs.Scalar.{laid_out};
ghost use Rattle.spaces.specs.Space.{scalars};
ghost use Rattle.spaces.specs.Reading.{space_of};
ghost use Rattle.assembly.specs.Assembly.{Fits, assembly_of};

use crate::{Funs, Rows, RunRefusal, cells};
use c_unit::{Array, CFun, CStmt, Place, Slot};
use dofs::{DofMap, number};
use mesh_in::{Mesh, read_mesh};
use monos::Layout;
use ratio::Ratio;
use spaces::{Cell, Element, Family};
use sqlite_items::Items;
use std::alloc::{AllocError, Global};
use std::test::Fail;

fn at(array: Array, base: u32) -> Place {
    Place {
        array,
        slot: Slot {
            base,
            steps: [0, 0, 0, 0],
        },
    }
}

/// The local tensor of degree one: a third of the length twice, and a sixth twice.
fn mass(alloc: Global, third: Ratio, sixth: Ratio) -> Result<CFun, AllocError>
    ensures { IfOk result (λ f. f.a ≡ 4) }
{
    let mut body = Items::new(alloc);
    body.push(CStmt::Sub {
        to: at(Array::T, 0),
        left: at(Array::X, 1),
        right: at(Array::X, 0),
    })?;
    body.push(CStmt::Abs {
        to: at(Array::T, 0),
        arg: at(Array::T, 0),
    })?;
    body.push(CStmt::Set {
        to: at(Array::T, 1),
        value: third,
    })?;
    body.push(CStmt::Set {
        to: at(Array::T, 2),
        value: sixth,
    })?;
    for (n, factor) in [(0, 1), (1, 2), (2, 2), (3, 1)] {
        body.push(CStmt::Mul {
            to: at(Array::A, n),
            left: at(Array::T, 0),
            right: at(Array::T, factor),
        })?;
    }
    Ok(CFun {
        name: Items::new(alloc),
        x: 2,
        w: 0,
        t: 3,
        a: 4,
        tables: Items::new(alloc),
        body,
    })
}

/// One element for both arguments.
fn layout_of(alloc: Global, element: &Element) -> Result<Layout, AllocError>
    ensures rows { IfOk result (λ l. l.rows ≡ laid_out (scalars (space_of element.now))) }
    ensures cols { IfOk result (λ l. l.cols ≡ laid_out (scalars (space_of element.now))) }
{
    Ok(Layout {
        d: 1,
        rows: element.parts(alloc)?,
        cols: element.parts(alloc)?,
        coefs: Items::new(alloc),
        position: None,
    })
}

/// Whether the rows have 2, 3 and 2 entries, and no row comes after them.
fn lends_rows(
    alloc: Global,
    f: &Funs,
    l: &Layout,
    m: &Mesh,
    map: &DofMap,
) -> Result<bool, RunRefusal>
    requires { Fits l.now (assembly_of f.now m.now (Some map.now) (Some map.now) []) }
{
    let mut rows = Rows::new(alloc, f, l, m, Some(map), Some(map), &[])?;
    for count in [2, 3, 2] {
        if rows.next_row().is_none() || rows.entries().len() != count {
            return Ok(false);
        }
    }
    Ok(rows.next_row().is_none())
}

/// Whether there are two shares of four values.
fn gives_shares(
    alloc: Global,
    f: &Funs,
    l: &Layout,
    m: &Mesh,
    map: &DofMap,
) -> Result<bool, RunRefusal>
    requires { Fits l.now (assembly_of f.now m.now (Some map.now) (Some map.now) []) }
{
    let shares = cells(alloc, f, l, m, Some(map), Some(map), &[])?;
    Ok(shares.len() == 2 && shares.iter().all(|share| share.triples.len() == 4))
}

fn agrees(alloc: Global, f: &Funs, l: &Layout, m: &Mesh, map: &DofMap) -> Result<bool, RunRefusal>
    requires { Fits l.now (assembly_of f.now m.now (Some map.now) (Some map.now) []) }
{
    Ok(lends_rows(alloc, f, l, m, map)? && gives_shares(alloc, f, l, m, map)?)
}

#[test]
fn three_rows_and_two_shares(rt: HostRuntime) -> Result<(), Fail> {
    let alloc = rt.alloc();
    let mesh = read_mesh(alloc, b"mesh 1 interval 3 2\n0\n1\n3\n0 1\n2 1\n")?;
    let element = Element::scalar(Family::Lagrange, Cell::Interval, 1).ok_or("a degree")?;
    assert!(rt; mesh.kind() == element.cell());
    let map = number(alloc, &mesh, &element)?;
    let layout = layout_of(alloc, &element)?;
    assert!(rt; layout.rows.local == 2);
    assert!(rt; element.value_size() == 1);
    let third = Ratio::new(1, 3).ok_or("fits")?;
    let sixth = Ratio::new(1, 6).ok_or("fits")?;
    let funs = Funs {
        plain: mass(alloc, third, sixth)?,
        marked: Vec::new(alloc),
    };
    assert!(rt; agrees(alloc, &funs, &layout, &mesh, &map)?);
    Ok(())
}
