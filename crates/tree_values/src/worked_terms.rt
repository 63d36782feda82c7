//! Values of small trees in index notation, against numbers worked out by hand.

use crate::meanings::meaning;
use crate::poly::Poly;
use crate::worked::{FLOW, Name, PLACE, elements, function, functions, gives, scene, whole};
use reference::Fault;
use sqlite_items::{Boxed, Items};
use std::alloc::Global;
use ufl_tree::{Function, Ix, Plain};

/// What is put on a pile of trees, or made of those on top. The one summed index is `I`.
#[derive(Clone, Copy)]
enum Step {
    Number(i128),
    Of(Name, Ix),
    Negative,
    Sum,
    Product,
    /// The sum over the values of `I` below this one.
    Over(u8),
    Dx(Ix),
    Delta(Ix, Ix),
    /// The item of this number of the three components of w.
    Item(Ix),
    /// A component of w under label 1.
    Mark(Ix),
    /// The derivative by a component of a label.
    Raise(u32, u8),
    /// The derivative by w along a function.
    Turn(Name),
}

use Step::{Delta, Dx, Item, Mark, Negative, Number, Of, Over, Product, Raise, Sum, Turn};

const I: Ix = Ix::Named(7);

/// Components of w = (x, y, z).
const X: Step = Of(PLACE, Ix::Fixed(0));

const Y: Step = Of(PLACE, Ix::Fixed(1));

/// w[i]
const W_I: Step = Of(PLACE, I);

/// The first component of w under label 1.
const M: Step = Mark(Ix::Fixed(0));

fn top(pile: &mut Items<Plain>) -> Result<Plain, Fault> {
    pile.pop().ok_or(Fault::Shape)
}

fn top_boxed(alloc: Global, pile: &mut Items<Plain>) -> Result<Boxed<Plain>, Fault> {
    Ok(Boxed::new(alloc, top(pile)?)?)
}

fn named(name: Name) -> Result<Function, Fault> {
    function(name).ok_or(Fault::Shape)
}

fn of(alloc: Global, name: Name, i: Ix) -> Result<Plain, Fault> {
    Ok(Plain::Fun {
        f: named(name)?,
        at: Items::from_slice(alloc, &[i])?,
    })
}

fn sum(alloc: Global, pile: &mut Items<Plain>) -> Result<Plain, Fault> {
    let b = top_boxed(alloc, pile)?;
    Ok(Plain::Sum(top_boxed(alloc, pile)?, b))
}

fn product(alloc: Global, pile: &mut Items<Plain>) -> Result<Plain, Fault> {
    let b = top_boxed(alloc, pile)?;
    Ok(Plain::Prod(top_boxed(alloc, pile)?, b))
}

fn item(alloc: Global, at: Ix) -> Result<Plain, Fault> {
    let mut items = Items::new(alloc);
    for k in 0..3 {
        items.push(of(alloc, PLACE, Ix::Fixed(k))?)?;
    }
    Ok(Plain::Pick { at, items })
}

fn mark(alloc: Global, i: Ix) -> Result<Plain, Fault> {
    Ok(Plain::Mark {
        label: 1,
        at: Items::from_slice(alloc, &[i])?,
        body: Boxed::new(alloc, of(alloc, PLACE, i)?)?,
    })
}

fn raise(alloc: Global, label: u32, k: u8, pile: &mut Items<Plain>) -> Result<Plain, Fault> {
    Ok(Plain::Raise {
        label,
        at: Items::from_slice(alloc, &[Ix::Fixed(k)])?,
        body: top_boxed(alloc, pile)?,
    })
}

fn turn(alloc: Global, along: Name, pile: &mut Items<Plain>) -> Result<Plain, Fault> {
    Ok(Plain::Turn {
        coef: named(PLACE)?,
        dir: named(along)?,
        body: top_boxed(alloc, pile)?,
    })
}

fn over(alloc: Global, dim: u8, pile: &mut Items<Plain>) -> Result<Plain, Fault> {
    Ok(Plain::Over {
        index: 7,
        dim,
        body: top_boxed(alloc, pile)?,
    })
}

fn dx(alloc: Global, at: Ix, pile: &mut Items<Plain>) -> Result<Plain, Fault> {
    Ok(Plain::Dx {
        at,
        body: top_boxed(alloc, pile)?,
    })
}

fn made(alloc: Global, step: Step, pile: &mut Items<Plain>) -> Result<Plain, Fault> {
    match step {
        Step::Number(n) => Ok(Plain::Num(whole(n)?)),
        Step::Of(name, i) => of(alloc, name, i),
        Step::Negative => Ok(Plain::Neg(top_boxed(alloc, pile)?)),
        Step::Sum => sum(alloc, pile),
        Step::Product => product(alloc, pile),
        Step::Over(dim) => over(alloc, dim, pile),
        Step::Dx(i) => dx(alloc, i, pile),
        Step::Delta(i, j) => Ok(Plain::Delta(i, j)),
        Step::Item(i) => item(alloc, i),
        Step::Mark(i) => mark(alloc, i),
        Step::Raise(label, k) => raise(alloc, label, k, pile),
        Step::Turn(along) => turn(alloc, along, pile),
    }
}

/// What is on top after the steps.
fn built(alloc: Global, steps: &[Step]) -> Result<Plain, Fault> {
    let mut pile = Items::new(alloc);
    for step in steps {
        let e = made(alloc, *step, &mut pile)?;
        pile.push(e)?;
    }
    top(&mut pile)
}

fn found(alloc: Global, steps: &[Step]) -> Result<Poly, Fault> {
    let elements = elements(alloc)?;
    let functions = functions(alloc)?;
    let scene = scene(elements.as_slice(), functions.as_slice());
    meaning(alloc, &scene, &built(alloc, steps)?)
}

/// The steps of a tree, and its value at the point.
type Row = (&'static [Step], i128);

const TREES: [Row; 15] = [
    (&[Number(7)], 7),
    (&[Y], 3),
    (&[X, Negative], -2),
    (&[X, Y, Sum], 5),
    (&[X, Y, Product], 6),
    // w[i] w[i] over i below 3 and below 2: 4 + 9 + 25
    (&[W_I, W_I, Product, Over(3)], 38),
    (&[W_I, W_I, Product, Over(2)], 13),
    // w[i].dx(i) over i
    (&[W_I, Dx(I), Over(3)], 3),
    (&[Delta(Ix::Fixed(1), Ix::Fixed(1))], 1),
    (&[Delta(Ix::Fixed(0), Ix::Fixed(1))], 0),
    // delta(i, 2) w[i] over i
    (&[Delta(I, Ix::Fixed(2)), W_I, Product, Over(3)], 5),
    (&[Item(Ix::Fixed(1))], 3),
    (&[Item(Ix::Fixed(3))], 0),
    // item i times d[i] over i, where d = (y z, x, 2): 2 * 15 + 3 * 2 + 5 * 2
    (&[Item(I), Of(FLOW, I), Product, Over(3)], 46),
    (&[M], 2),
];

const DERIVATIVES: [Row; 12] = [
    // of x y^2: y^2, 2 x y and nothing
    (&[X, Y, Product, Y, Product, Dx(Ix::Fixed(0))], 9),
    (&[X, Y, Product, Y, Product, Dx(Ix::Fixed(1))], 12),
    (&[X, Y, Product, Y, Product, Dx(Ix::Fixed(2))], 0),
    (&[X, Y, Product, Y, Product, Dx(Ix::Fixed(3))], 0),
    // m[0] m[0] by m[0], where m is w under label 1, and by a component of another label
    (&[M, M, Product, Raise(1, 0)], 4),
    (&[M, M, Product, Raise(2, 0)], 0),
    // m[i] m[i] over i, by m[1]
    (&[Mark(I), Mark(I), Product, Over(3), Raise(1, 1)], 6),
    // m[0]^3 by m[0], twice
    (&[M, M, Product, M, Product, Raise(1, 0), Raise(1, 0)], 12),
    // x x along d: 2 * 2 * 15; x y along w: 2 * 3 twice; x^3 along d twice: 6 * 2 * 15^2
    (&[X, X, Product, Turn(FLOW)], 60),
    (&[X, Y, Product, Turn(PLACE)], 12),
    (&[X, X, Product, X, Product, Turn(FLOW), Turn(FLOW)], 2700),
    // m[0] m[0] by m[0], and along d: 2 * 15
    (&[M, M, Product, Raise(1, 0), Turn(FLOW)], 30),
];

/// The first row that comes otherwise.
fn first_other(alloc: Global, rows: &[Row]) -> Option<usize> {
    for (i, (steps, number)) in rows.iter().enumerate() {
        if !gives(found(alloc, steps), *number, 1) {
            return Some(i);
        }
    }
    None
}

#[test]
fn trees_in_index_notation(rt: HostRuntime) {
    assert!(rt; first_other(rt.alloc(), &TREES).is_none());
    assert!(rt; first_other(rt.alloc(), &DERIVATIVES).is_none());
}
