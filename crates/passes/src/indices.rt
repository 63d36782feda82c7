//! The indices of components.

ghost use Rattle.std.specs.Prelude.{◌≡◌, IfOk, [], ◌∷◌};
ghost use Rattle.ufl_tree.specs.Indices.{front, back, followed_by, first_size, last_size, all_but_first};
ghost use Rattle.passes.specs.Spots.{entry_of, only_of};

use sqlite_items::Items;
use std::alloc::{AllocError, Global};
use ufl_tree::Ix;

/// An entry of a matrix.
#[derive(Clone, Copy)]
pub struct Entry {
    pub row: Ix,
    pub col: Ix,
    /// Whether the component has two indices; the first entry stands for one that hasn't.
    pub is: bool,
}

const FIRST: Entry = Entry {
    row: Ix::Fixed(0),
    col: Ix::Fixed(0),
    is: false,
};

/// The entry at the indices of a component.
pub fn entry_of(at: &[Ix]) -> Entry
    ensures { result ≡ entry_of at.now }
{
    let Some((row, rest)) = at.split_first() else {
        return FIRST;
    };
    let Some((col, rest)) = rest.split_first() else {
        return FIRST;
    };
    if rest.is_empty() {
        Entry {
            row: *row,
            col: *col,
            is: true,
        }
    } else {
        FIRST
    }
}

/// The index of a component that has one.
pub fn only_of(at: &[Ix]) -> Option<Ix>
    ensures { result ≡ only_of at.now }
{
    let (first, rest) = at.split_first()?;
    if rest.is_empty() { Some(*first) } else { None }
}

pub fn of_vector(alloc: Global, i: Ix) -> Result<Items<Ix>, AllocError>
    ensures { IfOk result (λ r. r ≡ i ∷ []) }
{
    let mut all = Items::new(alloc);
    all.push(i)?;
    Ok(all)
}

pub fn of_matrix(alloc: Global, i: Ix, j: Ix) -> Result<Items<Ix>, AllocError>
    ensures { IfOk result (λ r. r ≡ i ∷ j ∷ []) }
{
    let mut all = Items::new(alloc);
    all.push(i)?;
    all.push(j)?;
    Ok(all)
}

/// The index before the component's.
pub fn before(alloc: Global, i: Ix, at: &[Ix]) -> Result<Items<Ix>, AllocError>
    ensures { IfOk result (λ r. r ≡ i ∷ at.now) }
{
    let mut all = Items::new(alloc);
    all.push(i)?;
    for k in at {
        all.push(*k)?;
    }
    Ok(all)
}

/// The index behind the component's.
#[tactic(auto, using(crate::proofs::IndexLaws::followed))]
pub fn followed_by(alloc: Global, at: &[Ix], i: Ix) -> Result<Items<Ix>, AllocError>
    ensures { IfOk result (λ r. r ≡ followed_by at.now i) }
{
    let mut all = Items::from_slice(alloc, at)?;
    all.push(i)?;
    Ok(all)
}

/// As many indices as the shape has sizes.
#[tactic(auto, using(crate::proofs::IndexLaws::parts))]
pub fn front<'a>(shape: &[u8], at: &'a [Ix]) -> &'a [Ix]
    ensures { result.now ≡ front shape.now at.now }
{
    if at.len() < shape.len() {
        at
    } else {
        &at[..shape.len()]
    }
}

/// The indices behind them.
#[tactic(auto, using(crate::proofs::IndexLaws::parts))]
pub fn back<'a>(shape: &[u8], at: &'a [Ix]) -> &'a [Ix]
    ensures { result.now ≡ back shape.now at.now }
{
    if at.len() < shape.len() {
        &[]
    } else {
        &at[shape.len()..]
    }
}

pub fn all_but_first(shape: &[u8]) -> &[u8]
    ensures { result.now ≡ all_but_first shape.now }
{
    match shape.split_first() {
        Some((_, rest)) => rest,
        None => &[],
    }
}

pub fn first_size(shape: &[u8]) -> u8
    ensures { result ≡ first_size shape.now }
{
    match shape.split_first() {
        Some((first, _)) => *first,
        None => 0,
    }
}

pub fn last_size(shape: &[u8]) -> u8
    ensures { result ≡ last_size shape.now }
{
    let Some((first, rest)) = shape.split_first() else {
        return 0;
    };
    if rest.is_empty() {
        *first
    } else {
        last_size(rest)
    }
}
