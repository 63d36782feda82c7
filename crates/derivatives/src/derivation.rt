//! The derivative of a tree that has no derivatives by variables and by functions.

ghost use Rattle.std.specs.Prelude.{◌≡◌, IfOk, map};
ghost use Rattle.ufl_tree.specs.Reading.{term_of};
ghost use Rattle.derivatives.specs.Derivation.{derivative_of};

use crate::rules::{of_function, of_mark, of_product};
use passes::nodes::{dx, neg, over, pick, sum, zero};
use sqlite_items::Items;
use std::alloc::{AllocError, Global};
use ufl_tree::{Ix, Plain, Role};

/// By what a tree is differentiated.
#[derive(Drop)]
pub enum Derivation {
    /// By the component at these indices of the variable of this label.
    Variable { label: u32, at: Items<Ix> },
    /// By the function of the role `coef`, in the direction of that of the role `dir`.
    Function { coef: Role, dir: Role },
}

/// The derivative of a tree that has no derivatives by variables and by functions. Each factor of a product is
/// copied once, for its place in the answer.
#[cycle(differentiating)]
pub fn derivative(alloc: Global, by: &Derivation, e: &Plain) -> Result<Plain, AllocError>
    ensures { IfOk result (λ r. term_of r ≡ derivative_of by.now (term_of e.now)) }
{
    match e {
        Plain::Num(_) => Ok(zero()),
        Plain::Fun { f, at } => of_function(alloc, by, *f, at.as_slice()),
        Plain::Mark { label, at, body } => {
            let slope = derivative(alloc, by, body.get())?;
            of_mark(alloc, by, *label, at.as_slice(), slope)
        }
        Plain::Neg(a) => {
            let slope = derivative(alloc, by, a.get())?;
            neg(alloc, slope)
        }
        Plain::Sum(a, b) => {
            let slope = derivative(alloc, by, a.get())?;
            let other = derivative(alloc, by, b.get())?;
            sum(alloc, slope, other)
        }
        Plain::Prod(a, b) => {
            let slope = derivative(alloc, by, a.get())?;
            let other = derivative(alloc, by, b.get())?;
            of_product(alloc, a.get(), b.get(), slope, other)
        }
        Plain::Over { index, dim, body } => {
            let slope = derivative(alloc, by, body.get())?;
            over(alloc, *index, *dim, slope)
        }
        Plain::Dx { at, body } => {
            let slope = derivative(alloc, by, body.get())?;
            dx(alloc, *at, slope)
        }
        Plain::Delta(_, _) => Ok(zero()),
        Plain::Pick { at, items } => {
            let slopes = all_derivatives(alloc, by, items.as_slice())?;
            Ok(pick(*at, slopes))
        }
        Plain::Raise { .. } => Ok(zero()),
        Plain::Turn { .. } => Ok(zero()),
    }
}

#[cycle(differentiating)]
fn all_derivatives(
    alloc: Global,
    by: &Derivation,
    items: &[Plain],
) -> Result<Items<Plain>, AllocError>
    ensures { IfOk result (λ ps. map term_of ps ≡ map (λ e. derivative_of by.now (term_of e)) items.now) }
{
    let mut all = Items::new(alloc);
    for e in items {
        all.push(derivative(alloc, by, e)?)?;
    }
    Ok(all)
}
