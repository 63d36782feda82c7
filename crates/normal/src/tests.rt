//! Sums of monomials that were worked out by hand.

use crate::refusal::NormalRefusal;
use crate::sums::sum_of_monomials;
use ratio::Ratio;
use spaces::{Cell, Element, Family};
use sqlite_items::{Boxed, Items};
use std::alloc::{AllocError, Global};
use ufl_expr::Elements;
use ufl_tree::{Function, Ix, Plain, Role};

/// A step of making a tree: a leaf, or a node on the last one or two trees.
#[derive(Clone, Copy)]
enum Step {
    Num(i128),
    Fun(Role),
    Delta(Ix, Ix),
    Neg,
    Sum,
    Prod,
    Over(u16, u8),
    Dx(Ix),
    Pick(Ix),
}

const U: Step = Step::Fun(Role::Trial);

const V: Step = Step::Fun(Role::Test);

const W: Step = Step::Fun(Role::Coefficient(0));

const G: Step = Step::Fun(Role::Coefficient(1));

fn number(n: i128) -> Plain {
    match Ratio::new(n, 1) {
        Some(c) => Plain::Num(c),
        None => Plain::Num(Ratio::zero()),
    }
}

/// The last tree, or 0.
fn last(trees: &mut Vec<Plain>) -> Plain {
    match trees.pop() {
        Some(tree) => tree,
        None => Plain::Num(Ratio::zero()),
    }
}

fn picked(alloc: Global, at: Ix, trees: &mut Vec<Plain>) -> Result<Plain, AllocError> {
    let second = last(trees);
    let mut items = Items::new(alloc);
    items.push(last(trees))?;
    items.push(second)?;
    Ok(Plain::Pick { at, items })
}

/// A node on the last tree, or two trees.
fn node(alloc: Global, step: Step, trees: &mut Vec<Plain>) -> Result<Plain, AllocError> {
    let top = Boxed::new(alloc, last(trees))?;
    match step {
        Step::Neg => Ok(Plain::Neg(top)),
        Step::Sum => Ok(Plain::Sum(Boxed::new(alloc, last(trees))?, top)),
        Step::Prod => Ok(Plain::Prod(Boxed::new(alloc, last(trees))?, top)),
        Step::Over(index, dim) => Ok(Plain::Over {
            index,
            dim,
            body: top,
        }),
        Step::Dx(at) => Ok(Plain::Dx { at, body: top }),
        _ => Ok(number(0)),
    }
}

fn tree(alloc: Global, step: Step, trees: &mut Vec<Plain>) -> Result<Plain, AllocError> {
    match step {
        Step::Num(n) => Ok(number(n)),
        Step::Fun(role) => Ok(Plain::Fun {
            f: Function { role, element: 0 },
            at: Items::new(alloc),
        }),
        Step::Delta(i, j) => Ok(Plain::Delta(i, j)),
        Step::Pick(at) => picked(alloc, at, trees),
        step => node(alloc, step, trees),
    }
}

fn made(alloc: Global, steps: &[Step]) -> Result<Plain, AllocError> {
    let mut trees = Vec::new(alloc);
    for step in steps {
        let more = tree(alloc, *step, &mut trees)?;
        trees.push(more)?;
    }
    Ok(last(&mut trees))
}

fn elements(alloc: Global) -> Result<Elements, AllocError> {
    let mut all = Elements::new(alloc);
    if let Some(element) = Element::scalar(Family::Lagrange, Cell::Triangle, 2) {
        all.add(element)?;
    }
    Ok(all)
}

#[test]
fn worked_sums(rt: HostRuntime) -> Result<(), NormalRefusal> {
    let alloc = rt.alloc();
    let i = Step::Dx(Ix::Named(7));
    let one = Ix::Fixed(1);
    let table = elements(alloc)?;
    // the steps, and the number and the count of atoms of each monomial
    let cases: [(&[Step], &[(i128, usize)]); 9] = [
        (
            &[
                U,
                V,
                Step::Prod,
                V,
                U,
                Step::Prod,
                Step::Neg,
                Step::Sum,
                Step::Num(2),
                U,
                Step::Prod,
                V,
                Step::Prod,
                Step::Sum,
            ],
            &[(2, 2)],
        ),
        (
            &[U, V, Step::Prod, V, U, Step::Prod, Step::Neg, Step::Sum],
            &[],
        ),
        (
            &[U, i, V, i, Step::Prod, Step::Over(7, 2)],
            &[(1, 2), (1, 2)],
        ),
        (
            &[U, V, Step::Sum, U, V, Step::Sum, Step::Prod],
            &[(1, 2), (2, 2), (1, 2)],
        ),
        (
            &[W, G, Step::Prod, Step::Dx(one), Step::Dx(one)],
            &[(1, 2), (2, 2), (1, 2)],
        ),
        (&[W, Step::Dx(Ix::Fixed(3))], &[]),
        (
            &[
                U,
                Step::Delta(one, Ix::Named(7)),
                Step::Prod,
                Step::Over(7, 3),
            ],
            &[(1, 1)],
        ),
        (&[U, Step::Num(5), Step::Pick(one)], &[(5, 0)]),
        (&[Step::Num(0)], &[]),
    ];
    for (steps, expected) in cases {
        let tree = made(alloc, steps)?;
        let ms = sum_of_monomials(alloc, &table, &tree)?;
        assert!(rt; ms.len() == expected.len());
        for (m, (number, atoms)) in ms.iter().zip(expected) {
            assert!(rt; Ratio::new(*number, 1) == Some(m.c) && m.atoms.len() == *atoms);
        }
    }
    Ok(())
}

/// 1 + n equal factors.
fn power(alloc: Global, factor: &[Step], n: usize) -> Result<Plain, AllocError> {
    let mut tree = made(alloc, factor)?;
    for _ in 0..n {
        let more = Boxed::new(alloc, made(alloc, factor)?)?;
        tree = Plain::Prod(Boxed::new(alloc, tree)?, more);
    }
    Ok(tree)
}

#[test]
fn powers_are_put_together(rt: HostRuntime) -> Result<(), NormalRefusal> {
    let alloc = rt.alloc();
    let tree = power(alloc, &[W, G, Step::Sum], 19)?;
    let ms = sum_of_monomials(alloc, &elements(alloc)?, &tree)?;
    assert!(rt; ms.len() == 21);
    assert!(rt; ms.iter().any(|m| Ratio::new(184756, 1) == Some(m.c)));
    Ok(())
}
