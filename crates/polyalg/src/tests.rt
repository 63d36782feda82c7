//! Worked polynomials and integrals.

ghost use Rattle.std.specs.Prelude.{◌≤◌, IfOk};
ghost use Rattle.polyalg.specs.Products.{degree_of};

use super::*;
use crate::poly::single;
use ratio::Ratio;
use std::alloc::Global;
use std::test::Fail;

/// The greatest number that a coefficient can have.
const MOST: i128 = 170_141_183_460_469_231_731_687_303_715_884_105_727;

/// Numerator, denominator, exponents.
type Written = (i128, i128, [u8; 3]);

const ZERO: Written = (0, 1, [0, 0, 0]);

const ONE: Written = (1, 1, [0, 0, 0]);

const X: Written = (1, 1, [1, 0, 0]);

const Y: Written = (1, 1, [0, 1, 0]);

const MINUS_Y: Written = (-1, 1, [0, 1, 0]);

const MOST_X: Written = (MOST, 1, [1, 0, 0]);

fn number(n: i128, d: i128) -> Result<Ratio, Fail> {
    Ok(Ratio::new(n, d).ok_or("it fits")?)
}

fn term(alloc: Global, written: Written) -> Result<Poly, Fail>
    ensures { IfOk result (λ p. degree_of p ≤ 765) }
{
    let (n, d, [a, b, c]) = written;
    let coefficient = number(n, d)?;
    Ok(single(alloc, [a as u32, b as u32, c as u32], coefficient)?)
}

fn binomial(alloc: Global, written: [Written; 2]) -> Result<Poly, Fail>
    ensures { IfOk result (λ p. degree_of p ≤ 765) }
{
    let [first, second] = written;
    let left = term(alloc, first)?;
    let right = term(alloc, second)?;
    Ok(left.add(alloc, &right)?)
}

/// Whether the polynomial has exactly these terms, in this order.
fn has_terms(p: &Poly, written: &[Written]) -> bool {
    let terms = p.terms();
    if terms.len() != written.len() {
        return false;
    }
    for (term, (n, d, [a, b, c])) in terms.iter().zip(written) {
        if term.e != [*a as u32, *b as u32, *c as u32] || Ratio::new(*n, *d) != Some(term.c) {
            return false;
        }
    }
    true
}

/// Whether the answer is the polynomial of these terms, or `Range` where there are none to be.
fn is_answer(answer: Result<Poly, PolyFault>, wanted: Option<&[Written]>) -> bool {
    match (answer, wanted) {
        (Ok(p), Some(terms)) => has_terms(&p, terms),
        (Err(fault), None) => fault == PolyFault::Range,
        _ => false,
    }
}

// (x + y) and (x - y): the terms with xy cancel, and no term of 0 stays.
#[test]
fn sums_and_products(rt: HostRuntime) -> Result<(), Fail> {
    let cases: [(
        [Written; 2],
        [Written; 2],
        Option<&[Written]>,
        Option<&[Written]>,
    ); 5] = [
        (
            [X, Y],
            [X, MINUS_Y],
            Some(&[(2, 1, [1, 0, 0])]),
            Some(&[(-1, 1, [0, 2, 0]), (1, 1, [2, 0, 0])]),
        ),
        (
            [(1, 2, [0, 0, 0]), (3, 1, [1, 1, 2])],
            [(-1, 2, [0, 0, 0]), (2, 3, [0, 0, 1])],
            Some(&[(2, 3, [0, 0, 1]), (3, 1, [1, 1, 2])]),
            Some(&[
                (-1, 4, [0, 0, 0]),
                (1, 3, [0, 0, 1]),
                (-3, 2, [1, 1, 2]),
                (2, 1, [1, 1, 3]),
            ]),
        ),
        ([ZERO, ZERO], [X, Y], Some(&[Y, X]), Some(&[])),
        (
            [MOST_X, ONE],
            [X, ZERO],
            None,
            Some(&[X, (MOST, 1, [2, 0, 0])]),
        ),
        (
            [MOST_X, Y],
            [ONE, ONE],
            Some(&[(2, 1, [0, 0, 0]), Y, MOST_X]),
            None,
        ),
    ];
    for (left, right, sum, product) in &cases {
        let p = binomial(rt.alloc(), *left)?;
        let q = binomial(rt.alloc(), *right)?;
        assert!(rt;
            is_answer(p.add(rt.alloc(), &q), *sum),
            "{left:?} + {right:?}"
        );
        assert!(rt;
            is_answer(p.mul(rt.alloc(), &q), *product),
            "{left:?} * {right:?}"
        );
    }
    Ok(())
}

#[test]
fn multiples(rt: HostRuntime) -> Result<(), Fail> {
    let cases: [([Written; 2], (i128, i128), Option<&[Written]>); 3] = [
        (
            [X, (2, 3, [0, 0, 1])],
            (-3, 2),
            Some(&[(-1, 1, [0, 0, 1]), (-3, 2, [1, 0, 0])]),
        ),
        ([X, Y], (0, 1), Some(&[])),
        ([Y, MOST_X], (2, 1), None),
    ];
    for (written, (n, d), wanted) in &cases {
        let p = binomial(rt.alloc(), *written)?;
        let c = number(*n, *d)?;
        assert!(rt;
            is_answer(p.scale(rt.alloc(), c), *wanted),
            "{written:?} times {n}/{d}"
        );
    }
    Ok(())
}

// In a direction that no variable has, the derivative is 0.
#[test]
fn derivatives(rt: HostRuntime) -> Result<(), Fail> {
    let cases: [([Written; 2], u8, Option<&[Written]>); 6] = [
        ([(1, 3, [3, 1, 0]), Y], 0, Some(&[(1, 1, [2, 1, 0])])),
        ([(1, 3, [3, 1, 0]), Y], 1, Some(&[ONE, (1, 3, [3, 0, 0])])),
        ([(1, 3, [3, 1, 0]), Y], 2, Some(&[])),
        ([(1, 3, [3, 1, 7]), Y], 255, Some(&[])),
        ([(MOST, 2, [0, 0, 2]), X], 2, Some(&[(MOST, 1, [0, 0, 1])])),
        ([(MOST, 1, [0, 0, 2]), X], 2, None),
    ];
    for (written, k, wanted) in &cases {
        let p = binomial(rt.alloc(), *written)?;
        assert!(rt;
            is_answer(p.derive(rt.alloc(), *k), *wanted),
            "{written:?} in direction {k}"
        );
    }
    Ok(())
}

#[test]
fn constants_and_variables(rt: HostRuntime) -> Result<(), Fail> {
    assert!(rt;
        has_terms(
            &Poly::constant(rt.alloc(), number(3, 4)?)?,
            &[(3, 4, [0, 0, 0])]
        )
    );
    assert!(rt; has_terms(&Poly::constant(rt.alloc(), Ratio::zero())?, &[]));
    assert!(rt; has_terms(&Poly::variable(rt.alloc(), 0)?, &[X]));
    assert!(rt; has_terms(&Poly::variable(rt.alloc(), 1)?, &[Y]));
    assert!(rt; has_terms(&Poly::variable(rt.alloc(), 2)?, &[(1, 1, [0, 0, 1])]));
    Ok(())
}

fn on_interval(alloc: Global, c: Ratio, a: u8) -> Result<Option<Ratio>, Fail> {
    let p = single(alloc, [a as u32, 0, 0], c)?;
    Ok(ref_integral(&p, 1))
}

fn on_triangle(alloc: Global, c: Ratio, a: u8, b: u8) -> Result<Option<Ratio>, Fail> {
    let p = single(alloc, [a as u32, b as u32, 0], c)?;
    Ok(ref_integral(&p, 2))
}

fn in_tetrahedron(alloc: Global, coefficient: Ratio, e: [u8; 3]) -> Result<Option<Ratio>, Fail> {
    let [a, b, c] = e;
    let p = single(alloc, [a as u32, b as u32, c as u32], coefficient)?;
    Ok(ref_integral(&p, 3))
}

// a! b! c! / (a+b+c+d)!, for instance 2! 3! / 7! and 2! 3! / 8!. The last factor of x^70 y^70 has more than 127 bits below.
#[test]
fn reference_integrals(rt: HostRuntime) -> Result<(), Fail> {
    for (c, a, wanted) in [
        ((1, 1), 0, Ratio::new(1, 1)),
        ((1, 1), 1, Ratio::new(1, 2)),
        ((-6, 5), 3, Ratio::new(-3, 10)),
        ((1, MOST), 1, None),
    ] {
        let value = on_interval(rt.alloc(), number(c.0, c.1)?, a)?;
        assert!(rt; value == wanted, "x^{a}");
    }
    for (a, b, wanted) in [
        (0, 0, Ratio::new(1, 2)),
        (1, 1, Ratio::new(1, 24)),
        (2, 3, Ratio::new(1, 420)),
        (70, 70, None),
    ] {
        let value = on_triangle(rt.alloc(), Ratio::one(), a, b)?;
        assert!(rt; value == wanted, "x^{a} y^{b}");
    }
    for (e, wanted) in [
        ([0, 0, 0], Ratio::new(1, 6)),
        ([1, 1, 1], Ratio::new(1, 720)),
        ([2, 3, 0], Ratio::new(1, 3360)),
        ([0, 0, 4], Ratio::new(1, 210)),
    ] {
        let value = in_tetrahedron(rt.alloc(), Ratio::one(), e)?;
        assert!(rt; value == wanted, "{e:?}");
    }
    Ok(())
}
