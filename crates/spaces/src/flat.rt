//! The scalar parts that an element keeps, without memory for a single one.

ghost use Rattle.std.specs.Prelude.{◌≡◌, IfOk};
ghost use Rattle.spaces.specs.Flat.{parts_in};

use crate::parts::{Part, Parts};
use sqlite_items::Items;
use std::alloc::{AllocError, Global};
use std::slice;

/// One part, or a list of them.
#[derive(Debug, Drop)]
pub enum Flat {
    One(Part),
    Many(Parts),
}

/// The parts in order.
pub fn items(flat: &Flat) -> &[Part]
    ensures { result.now ≡ (parts_in flat.now).items }
{
    match flat {
        Flat::One(part) => slice::from_ref(part),
        Flat::Many(parts) => parts.items.as_slice(),
    }
}

/// How many local values they have.
pub fn local(flat: &Flat) -> u32
    ensures { result ≡ (parts_in flat.now).local }
{
    match flat {
        Flat::One(part) => part.nodes as u32,
        Flat::Many(parts) => parts.local,
    }
}

/// The same parts.
pub fn copy_flat(alloc: Global, flat: &Flat) -> Result<Flat, AllocError>
    ensures { IfOk result (λ f. f ≡ flat.now) }
{
    match flat {
        Flat::One(part) => Ok(Flat::One(*part)),
        Flat::Many(parts) => Ok(Flat::Many(Parts {
            items: Items::from_slice(alloc, parts.items.as_slice())?,
            local: parts.local,
        })),
    }
}
