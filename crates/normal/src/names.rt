//! The values of indices while a tree is walked.

ghost use Rattle.std.specs.Prelude.{◌≡◌, ◌∷◌, IfOk};
ghost use Rattle.ufl_tree.specs.Indices.{index_value as value_of_index};
ghost use Rattle.normal.specs.Gathering.{names_of};

use std::alloc::{AllocError, Global};
use ufl_tree::Ix;

/// An index that a sum binds, at one of its values.
#[derive(Clone, Copy)]
pub struct Bound {
    pub index: u16,
    pub value: u8,
}

/// The value of a name: that of the innermost sum that binds it, and 0 where none does.
fn name_value(bounds: &[Bound], index: u16) -> u8
    ensures { result ≡ names_of bounds.now index }
{
    let Some((inner, outer)) = bounds.split_first() else {
        return 0;
    };
    if index == inner.index {
        inner.value
    } else {
        name_value(outer, index)
    }
}

/// The value of an index.
pub fn index_value(bounds: &[Bound], at: Ix) -> u8
    ensures { result ≡ value_of_index (names_of bounds.now) at }
{
    match at {
        Ix::Fixed(k) => k,
        Ix::Named(i) => name_value(bounds, i),
    }
}

/// What is bound inside a sum.
pub fn with_bound(
    alloc: Global,
    bounds: &[Bound],
    index: u16,
    value: u8,
) -> Result<Vec<Bound>, AllocError>
    ensures { IfOk result (λ inner. inner.items ≡ record { index = index; value = value } ∷ bounds.now) }
{
    let mut inner = Vec::new(alloc);
    inner.push(Bound { index, value })?;
    inner.extend_from_slice(bounds)?;
    Ok(inner)
}
