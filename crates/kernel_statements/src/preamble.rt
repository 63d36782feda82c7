//! The first statements of a kernel: volume factor, its reciprocal and its size, and the growths of the reference
//! coordinates.

ghost use Rattle.std.specs.Prelude.{◌≡◌, ◌++◌, ◌<◌, ◌≤◌, ◌∷◌, [], IfOk, OnOk};
ghost use Rattle.c_unit.specs.declared.unit.CStmt.{Add, Mul, Sub};
ghost use Rattle.calculus.specs.Jacobian.{next_axis};
ghost use Rattle.kernel_runs.specs.Preamble.{t, x, difference_code, volume_code, interval_preamble, triangle_preamble, cofactor_code, cofactors_code, growth_code, all_differences, all_growths, expansion_code, tetrahedron_preamble, preamble};

use crate::slots::{SIZE, t, x};
use c_unit::CStmt;
use sqlite_items::Items;
use std::alloc::{AllocError, Global};

/// The slots of the volume factor and of its reciprocal, of a zero, and of two products.
const VOLUME: u32 = 18;

const RECIPROCAL: u32 = 19;

const ZERO: u32 = 30;

const SECOND: u32 = 31;

const FIRST: u32 = 32;

// T[to] = T[left] * T[right]
fn emit_product(body: &mut Items<CStmt>, to: u32, left: u32, right: u32) -> Result<(), AllocError>
    ensures { OnOk result (body.new ≡ body.old ++ Mul (t to) (t left) (t right) ∷ []) }
{
    body.push(CStmt::Mul {
        to: t(to),
        left: t(left),
        right: t(right),
    })
}

// T[to] = T[left] - T[right]
fn emit_difference(
    body: &mut Items<CStmt>,
    to: u32,
    left: u32,
    right: u32,
) -> Result<(), AllocError>
    ensures { OnOk result (body.new ≡ body.old ++ Sub (t to) (t left) (t right) ∷ []) }
{
    body.push(CStmt::Sub {
        to: t(to),
        left: t(left),
        right: t(right),
    })
}

// T[to] = T[to] + T[right]
fn emit_sum(body: &mut Items<CStmt>, to: u32, right: u32) -> Result<(), AllocError>
    ensures { OnOk result (body.new ≡ body.old ++ Add (t to) (t to) (t right) ∷ []) }
{
    body.push(CStmt::Add {
        to: t(to),
        left: t(to),
        right: t(right),
    })
}

// Coordinate i of the edge from the first vertex to vertex a + 1.
fn emit_edge(body: &mut Items<CStmt>, d: u8, i: u8, a: u8) -> Result<(), AllocError>
    requires dimension { d ≤ 3 }
    requires axis { i < 3 }
    requires edge { a < 3 }
    ensures { OnOk result (body.new ≡ body.old ++ difference_code d i a) }
{
    body.push(CStmt::Sub {
        to: t((3 * i + a) as u32),
        left: x((d * (a + 1) + i) as u32),
        right: x(i as u32),
    })
}

// The reciprocal of the volume factor and its size.
fn emit_volume(body: &mut Items<CStmt>) -> Result<(), AllocError>
    ensures { OnOk result (body.new ≡ body.old ++ volume_code) }
{
    body.push(CStmt::Inv {
        to: t(RECIPROCAL),
        arg: t(VOLUME),
    })?;
    body.push(CStmt::Abs {
        to: t(SIZE),
        arg: t(VOLUME),
    })
}

fn interval(alloc: Global) -> Result<Items<CStmt>, AllocError>
    ensures { IfOk result (λ body. body ≡ interval_preamble) }
{
    let mut body = Items::new(alloc);
    emit_edge(&mut body, 1, 0, 0)?;
    body.push(CStmt::Copy {
        to: t(VOLUME),
        arg: t(0),
    })?;
    emit_volume(&mut body)?;
    body.push(CStmt::Copy {
        to: t(21),
        arg: t(RECIPROCAL),
    })?;
    Ok(body)
}

// The growths in the plane: the edges' coordinates over the volume factor, two of them with the other sign.
fn emit_plane_growths(body: &mut Items<CStmt>) -> Result<(), AllocError>
    ensures { OnOk result (body.new ≡ body.old ++ Mul (t 21) (t 4) (t 19) ∷ Mul (t 25) (t 0) (t 19)
        ∷ Sub (t 32) (t 30) (t 1)
        ∷ Mul (t 24) (t 32) (t 19) ∷ Sub (t 32) (t 30) (t 3) ∷ Mul (t 22) (t 32) (t 19) ∷ []) }
{
    emit_product(body, 21, 4, RECIPROCAL)?;
    emit_product(body, 25, 0, RECIPROCAL)?;
    emit_difference(body, FIRST, ZERO, 1)?;
    emit_product(body, 24, FIRST, RECIPROCAL)?;
    emit_difference(body, FIRST, ZERO, 3)?;
    emit_product(body, 22, FIRST, RECIPROCAL)
}

fn triangle(alloc: Global) -> Result<Items<CStmt>, AllocError>
    ensures { IfOk result (λ body. body ≡ triangle_preamble) }
{
    let mut body = Items::new(alloc);
    emit_edge(&mut body, 2, 0, 0)?;
    emit_edge(&mut body, 2, 0, 1)?;
    emit_edge(&mut body, 2, 1, 0)?;
    emit_edge(&mut body, 2, 1, 1)?;
    emit_product(&mut body, FIRST, 0, 4)?;
    emit_product(&mut body, SECOND, 1, 3)?;
    emit_difference(&mut body, VOLUME, FIRST, SECOND)?;
    emit_volume(&mut body)?;
    emit_plane_growths(&mut body)?;
    Ok(body)
}

// The axis behind this one, in turn.
fn next(axis: u8) -> u8
    requires { axis < 3 }
    ensures below { result < 3 }
    ensures value { result ≡ next_axis axis }
{
    if axis == 2 { 0 } else { axis + 1 }
}

// The cofactor of row i and column a of the matrix of the edges' coordinates.
fn emit_cofactor(body: &mut Items<CStmt>, a: u8, i: u8) -> Result<(), AllocError>
    requires column { a < 3 }
    requires row { i < 3 }
    ensures { OnOk result (body.new ≡ body.old ++ cofactor_code a i) }
{
    let [b, c] = [next(a), next(next(a))];
    let [j, k] = [next(i), next(next(i))];
    emit_product(body, FIRST, (3 * j + b) as u32, (3 * k + c) as u32)?;
    emit_product(body, SECOND, (3 * j + c) as u32, (3 * k + b) as u32)?;
    emit_difference(body, (9 + 3 * a + i) as u32, FIRST, SECOND)
}

fn emit_cofactors(body: &mut Items<CStmt>, a: u8) -> Result<(), AllocError>
    requires { a < 3 }
    ensures { OnOk result (body.new ≡ body.old ++ cofactors_code a) }
{
    emit_cofactor(body, a, 0)?;
    emit_cofactor(body, a, 1)?;
    emit_cofactor(body, a, 2)?;
    Ok(())
}

// Coordinate i of all three edges.
fn emit_edges(body: &mut Items<CStmt>, i: u8) -> Result<(), AllocError>
    requires { i < 3 }
    ensures { OnOk result (body.new ≡ body.old ++ difference_code 3 i 0 ++ difference_code 3 i 1
        ++ difference_code 3 i 2) }
{
    emit_edge(body, 3, i, 0)?;
    emit_edge(body, 3, i, 1)?;
    emit_edge(body, 3, i, 2)
}

// How reference coordinate a grows in direction i.
fn emit_growth(body: &mut Items<CStmt>, i: u8, a: u8) -> Result<(), AllocError>
    requires direction { i < 3 }
    requires axis { a < 3 }
    ensures { OnOk result (body.new ≡ body.old ++ growth_code i a) }
{
    emit_product(
        body,
        (21 + 3 * i + a) as u32,
        (9 + 3 * a + i) as u32,
        RECIPROCAL,
    )
}

fn emit_growths(body: &mut Items<CStmt>, i: u8) -> Result<(), AllocError>
    requires { i < 3 }
    ensures { OnOk result (body.new ≡ body.old ++ growth_code i 0 ++ growth_code i 1 ++ growth_code i 2) }
{
    emit_growth(body, i, 0)?;
    emit_growth(body, i, 1)?;
    emit_growth(body, i, 2)
}

// The volume factor in space, by its first row.
fn emit_expansion(body: &mut Items<CStmt>) -> Result<(), AllocError>
    ensures { OnOk result (body.new ≡ body.old ++ expansion_code) }
{
    emit_product(body, VOLUME, 0, 9)?;
    emit_product(body, FIRST, 1, 12)?;
    emit_sum(body, VOLUME, FIRST)?;
    emit_product(body, FIRST, 2, 15)?;
    emit_sum(body, VOLUME, FIRST)?;
    emit_volume(body)
}

fn tetrahedron(alloc: Global) -> Result<Items<CStmt>, AllocError>
    ensures { IfOk result (λ body. body ≡ tetrahedron_preamble) }
{
    let mut body = Items::new(alloc);
    emit_edges(&mut body, 0)?;
    emit_edges(&mut body, 1)?;
    emit_edges(&mut body, 2)?;
    emit_cofactors(&mut body, 0)?;
    emit_cofactors(&mut body, 1)?;
    emit_cofactors(&mut body, 2)?;
    emit_expansion(&mut body)?;
    emit_growths(&mut body, 0)?;
    emit_growths(&mut body, 1)?;
    emit_growths(&mut body, 2)?;
    Ok(body)
}

/// The statements before the first monomial, in d dimensions: 5, 15 or 52.
pub fn preamble(alloc: Global, d: u8) -> Result<Items<CStmt>, AllocError>
    requires some { 0 < d }
    requires few { d ≤ 3 }
    ensures { IfOk result (λ body. body ≡ preamble d) }
{
    match d {
        1 => interval(alloc),
        2 => triangle(alloc),
        _ => tetrahedron(alloc),
    }
}
