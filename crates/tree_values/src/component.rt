//! Components: lists of numbers.

ghost use Rattle.std.specs.Prelude.{◌≡◌, IfOk, [], ◌∷◌, map};
ghost use Rattle.ufl_tree.specs.Indices.{front, back, followed_by};
ghost use Rattle.tree_values.specs.Component.{spot_of, listed};

use reference::Fault;
use sqlite_items::Items;
use std::alloc::Global;

/// What a component is by its length.
#[derive(Clone, Copy)]
pub enum Spot {
    Scalar,
    Vector(u8),
    Matrix(u8, u8),
    Longer,
}

pub fn measured(at: &[u8]) -> Spot
    ensures { result ≡ spot_of at.now }
{
    let Some((i, rest)) = at.split_first() else {
        return Spot::Scalar;
    };
    let Some((j, rest)) = rest.split_first() else {
        return Spot::Vector(*i);
    };
    if rest.is_empty() {
        Spot::Matrix(*i, *j)
    } else {
        Spot::Longer
    }
}

pub fn of_vector(alloc: Global, i: u8) -> Result<Items<u8>, Fault>
    ensures { IfOk result (λ r. r ≡ i ∷ []) }
{
    let mut all = Items::new(alloc);
    all.push(i)?;
    Ok(all)
}

pub fn of_matrix(alloc: Global, i: u8, j: u8) -> Result<Items<u8>, Fault>
    ensures { IfOk result (λ r. r ≡ i ∷ j ∷ []) }
{
    let mut all = Items::new(alloc);
    all.push(i)?;
    all.push(j)?;
    Ok(all)
}

/// The number before the component.
pub fn before(alloc: Global, i: u8, at: &[u8]) -> Result<Items<u8>, Fault>
    ensures { IfOk result (λ r. r ≡ i ∷ at.now) }
{
    let mut all = Items::new(alloc);
    all.push(i)?;
    for k in at {
        all.push(*k)?;
    }
    Ok(all)
}

/// The number behind the component.
#[tactic(auto, using(crate::proofs::ComponentLaws::followed))]
pub fn behind(alloc: Global, at: &[u8], i: u8) -> Result<Items<u8>, Fault>
    ensures { IfOk result (λ r. r ≡ followed_by at.now i) }
{
    let mut all = Items::from_slice(alloc, at)?;
    all.push(i)?;
    Ok(all)
}

/// As many numbers as the shape has sizes.
#[tactic(auto, using(crate::proofs::ComponentLaws::parts))]
pub fn first_part<'a>(shape: &[u8], at: &'a [u8]) -> &'a [u8]
    ensures { result.now ≡ front shape.now at.now }
{
    if at.len() < shape.len() {
        at
    } else {
        &at[..shape.len()]
    }
}

/// The numbers behind them.
#[tactic(auto, using(crate::proofs::ComponentLaws::parts))]
pub fn last_part<'a>(shape: &[u8], at: &'a [u8]) -> &'a [u8]
    ensures { result.now ≡ back shape.now at.now }
{
    if at.len() < shape.len() {
        &[]
    } else {
        &at[shape.len()..]
    }
}

/// All components of a shape.
pub fn all_of(alloc: Global, shape: &[u8]) -> Result<Items<Items<u8>>, Fault>
    ensures { IfOk result (λ r. r ≡ listed shape.now) }
{
    let mut all = Items::new(alloc);
    let Some((first, rest)) = shape.split_first() else {
        all.push(Items::new(alloc))?;
        return Ok(all);
    };
    let behind = all_of(alloc, rest)?;
    for k in 0..*first {
        all.append(all_before(alloc, k, behind.as_slice())?)?;
    }
    Ok(all)
}

fn all_before(alloc: Global, k: u8, components: &[Items<u8>]) -> Result<Items<Items<u8>>, Fault>
    ensures { IfOk result (λ r. r ≡ map (λ b. k ∷ b) components.now) }
{
    let mut all = Items::new(alloc);
    for at in components {
        all.push(before(alloc, k, at.as_slice())?)?;
    }
    Ok(all)
}
