//! Basis functions, by Silvester's formula.

ghost use Rattle.std.specs.Prelude.{◌≡◌, ◌≢◌, ℕ, ◌+◌, ◌^◌, ◌<◌, ◌≤◌, false, [], length, IfOk, slice_index_or};
ghost use Rattle.algebra.specs.Fraction.{one_fraction, zero_fraction};
ghost use Rattle.calculus.specs.Polynomial.{times, value};
ghost use Rattle.calculus.specs.Simplex.{reference};
ghost use Rattle.calculus.specs.LocalFunction.{degree_of as weight_sum, local_function, node_point, vertex_factor, factorial};
ghost use Rattle.calculus.proofs.Barycentric.{basis_coordinate};
ghost use Rattle.calculus.proofs.LocalFunctions.{factors_of};
ghost use Rattle.polyalg.specs.Prelude.{value_of, IsPoly, degree_of, VariablesBelow, RangeWhere, CoefficientsOver, HasSize};
ghost use Rattle.spaces.specs.Cell.{dimension};
ghost use Rattle.spaces.specs.Family.{node_count};
ghost use Rattle.spaces.specs.Nodes.{nodes_of};
ghost use Rattle.lagrange.specs.Bounds.{basis_bound};

use polyalg::{Poly, PolyFault, factorial, quotient, whole};
use ratio::Ratio;
use spaces::{Cell, weights};
use std::alloc::{AllocError, Global};

/// The basis function of a local node on the reference cell: the product over the vertices of `(1/a!)` times the factors
/// `q*b - m` for m below a, with q the degree, a the weight of the node at the vertex and b the vertex's barycentric coordinate.
///
/// It is 1 at its node and 0 at the other nodes of its degree. Its coefficients are whole numbers over degree!, and the absolute
/// values of degree! times each add up to at most 1, 4, 128, 10368 for degree 0, 1, 2, 3. No step of it passes: want of memory is
/// the only refusal.
pub fn basis(alloc: Global, cell: Cell, degree: u8, node: u8) -> Result<Poly, AllocError>
    requires degree { degree ≤ 3 }
    requires node { node < node_count cell degree }
    ensures function { IfOk result (λ p. value_of p ≡ local_function (reference (dimension cell)) (slice_index_or (nodes_of cell degree) node [])) }
    ensures own { 0 < degree → IfOk result (λ p. value (node_point (slice_index_or (nodes_of cell degree) node [])) (value_of p) ≡ one_fraction) }
    ensures others { (k : ℕ) → k < node_count cell degree → k ≢ node →
        IfOk result (λ p. value (node_point (slice_index_or (nodes_of cell degree) k [])) (value_of p) ≡ zero_fraction) }
    ensures degree { IfOk result (λ p. degree_of p ≤ degree) }
    ensures variables { IfOk result (VariablesBelow (dimension cell)) }
    ensures bounds { IfOk result (CoefficientsOver (factorial degree) (basis_bound degree)) }
{
    let at = weights(cell, degree)[node as usize];
    match product(alloc, cell.dim(), degree, at) {
        Ok(function) => Ok(function),
        Err(PolyFault::Memory) => Err(AllocError),
        Err(PolyFault::Range) => unreachable!(),
    }
}

/// The product of the factors of the vertices, four of them.
fn product(alloc: Global, d: u8, q: u8, weights: [u8; 4]) -> Result<Poly, PolyFault>
    requires dimension { d ≤ 3 }
    requires few { q ≤ 3 }
    requires sum { weight_sum weights ≤ q }
    requires four { length weights ≡ 4 }
    ensures value { IfOk result (λ p. value_of p ≡ factors_of q (basis_coordinate d) 0 weights) }
    ensures degree { IfOk result (λ p. degree_of p ≤ weight_sum weights) }
    ensures variables { IfOk result (VariablesBelow d) }
    ensures lawful { IfOk result IsPoly }
    ensures fits { RangeWhere false result }
{
    let one = Poly::constant(alloc, Ratio::one())?;
    let first = with_factor(alloc, &one, d, q, 0, weights[0])?;
    let second = with_factor(alloc, &first, d, q, 1, weights[1])?;
    let third = with_factor(alloc, &second, d, q, 2, weights[2])?;
    let function = with_factor(alloc, &third, d, q, 3, weights[3])?;
    Ok(function)
}

/// The polynomial times the factor of vertex j with this weight. The coefficients of a factor are over 6 and within 2184, so the
/// product of the factors before vertex j is over 6^j and within 2184^j, and no step passes.
fn with_factor(
    alloc: Global,
    others: &Poly,
    d: u8,
    q: u8,
    j: u8,
    weight: u8,
) -> Result<Poly, PolyFault>
    requires dimension { d ≤ 3 }
    requires vertex { j ≤ 3 }
    requires few { (q ≤ 3) × (weight ≤ 3) }
    requires degree { degree_of others.now ≤ 12 }
    requires lawful { IsPoly others.now }
    requires size { HasSize (6 ^ j) (2184 ^ j) (value_of others.now) }
    ensures value { IfOk result (λ p. value_of p ≡ times (value_of others.now) (vertex_factor q (basis_coordinate d j) weight)) }
    ensures degree { IfOk result (λ p. degree_of p ≤ degree_of others.now + weight) }
    ensures variables { VariablesBelow d others.now → IfOk result (VariablesBelow d) }
    ensures lawful { IfOk result IsPoly }
    ensures fits { RangeWhere false result }
{
    let b = coordinate(alloc, d, j)?;
    let f = factor(alloc, &b, q, weight)?;
    let product = others.mul(alloc, &f)?;
    Ok(product)
}

/// The barycentric coordinate of vertex j on the reference cell of dimension d.
fn coordinate(alloc: Global, d: u8, j: u8) -> Result<Poly, PolyFault>
    requires dimension { d ≤ 3 }
    requires vertex { j ≤ 3 }
    ensures value { IfOk result (λ p. value_of p ≡ basis_coordinate d j) }
    ensures degree { IfOk result (λ p. degree_of p ≤ 1) }
    ensures variables { IfOk result (VariablesBelow d) }
    ensures lawful { IfOk result IsPoly }
    ensures fits { RangeWhere false result }
{
    if j == 0 {
        return corner(alloc, d);
    }
    if j > d {
        let one = Poly::constant(alloc, Ratio::one())?;
        return Ok(one);
    }
    let variable = Poly::variable(alloc, j - 1)?;
    Ok(variable)
}

/// 1 less the coordinates below d.
fn corner(alloc: Global, d: u8) -> Result<Poly, PolyFault>
    requires { d ≤ 3 }
    ensures value { IfOk result (λ p. value_of p ≡ basis_coordinate d 0) }
    ensures degree { IfOk result (λ p. degree_of p ≤ 1) }
    ensures variables { IfOk result (VariablesBelow d) }
    ensures lawful { IfOk result IsPoly }
    ensures fits { RangeWhere false result }
{
    let mut sum = Poly::constant(alloc, Ratio::zero())?;
    for k in 0..d {
        let variable = Poly::variable(alloc, k)?;
        sum = sum.add(alloc, &variable)?;
    }
    let negated = sum.scale(alloc, Ratio::one().neg())?;
    let one = Poly::constant(alloc, Ratio::one())?;
    let corner = one.add(alloc, &negated)?;
    Ok(corner)
}

/// `(1/a!)` times the factors `q*b - m`, m below a, with b the coordinate.
fn factor(alloc: Global, coordinate: &Poly, q: u8, a: u8) -> Result<Poly, PolyFault>
    requires few { (q ≤ 3) × (a ≤ 3) }
    requires degree { degree_of coordinate.now ≤ 1 }
    requires lawful { IsPoly coordinate.now }
    requires size { HasSize 1 4 (value_of coordinate.now) }
    ensures value { IfOk result (λ p. value_of p ≡ vertex_factor q (value_of coordinate.now) a) }
    ensures degree { IfOk result (λ p. degree_of p ≤ a) }
    ensures variables { (d : ℕ) → VariablesBelow d coordinate.now → IfOk result (VariablesBelow d) }
    ensures lawful { IfOk result IsPoly }
    ensures fits { RangeWhere false result }
{
    let scaled = coordinate.scale(alloc, whole(q as u32))?;
    let mut product = Poly::constant(alloc, Ratio::one())?;
    for m in 0..a {
        let root = whole(m as u32).neg();
        let shift = Poly::constant(alloc, root)?;
        let next = scaled.add(alloc, &shift)?;
        product = product.mul(alloc, &next)?;
    }
    let function = product.scale(alloc, quotient(1, factorial(a)))?;
    Ok(function)
}
