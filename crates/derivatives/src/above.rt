//! The least number that is above all names of a tree in index notation.

ghost use Rattle.std.specs.Prelude.{◌≡◌, ◌≤◌, map};
ghost use Rattle.ufl_tree.specs.Reading.{term_of, terms_of};
ghost use Rattle.derivatives.specs.Naming.{term_above, terms_above};

use passes::above::{above, all_above};
use ufl_tree::Plain;

/// The least number that is above all names of the tree, those that its sums bind too.
#[tactic(auto, using(ufl_tree::proofs::ReadingLaws::plain_readings))]
#[cycle(names)]
pub fn names_above(e: &Plain) -> u32
    ensures { result ≡ term_above (term_of e.now) }
{
    match e {
        Plain::Num(_) => 0,
        Plain::Fun { f: _, at } => all_above(at.as_slice()),
        Plain::Mark { label: _, at, body } => {
            all_above(at.as_slice()).max(names_above(body.get()))
        }
        Plain::Neg(a) => names_above(a.get()),
        Plain::Sum(a, b) => names_above(a.get()).max(names_above(b.get())),
        Plain::Prod(a, b) => names_above(a.get()).max(names_above(b.get())),
        Plain::Over {
            index,
            dim: _,
            body,
        } => (*index as u32 + 1).max(names_above(body.get())),
        Plain::Dx { at, body } => above(*at).max(names_above(body.get())),
        Plain::Delta(i, j) => above(*i).max(above(*j)),
        Plain::Pick { at, items } => above(*at).max(list_names(items.as_slice())),
        Plain::Raise { label: _, at, body } => {
            all_above(at.as_slice()).max(names_above(body.get()))
        }
        Plain::Turn { body, .. } => names_above(body.get()),
    }
}

#[cycle(names)]
fn list_names(items: &[Plain]) -> u32
    ensures { result ≡ terms_above (terms_of (map term_of items.now)) }
{
    let mut most: u32 = 0;
    for e in items {
        most = most.max(names_above(e));
    }
    most
}
