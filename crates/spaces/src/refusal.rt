//! Why an element can't be made.

ghost use Rattle.std.specs.Prelude.{◌≡◌};
ghost use Rattle.spaces.specs.declared.refusal.SpaceRefusal.TheVariants.{Memory};

use std::alloc::AllocError;

/// Why an element can't be made.
#[derive(Clone, Copy, Debug, PartialEq, Eq)]
pub enum SpaceRefusal {
    /// A part that must be scalar isn't, a list has no part, or the cells of its parts differ.
    Kind,
    /// There would be no scalar part, more than 64 of them, or a nesting deeper than 64.
    Size,
    /// Memory ran out.
    Memory,
}

impl From<AllocError> for SpaceRefusal {
    ghost from_gives = { λ _ r. r ≡ Memory };

    fn from(_: AllocError) -> SpaceRefusal {
        SpaceRefusal::Memory
    }
}
