//! Why there is no sum of monomials.

ghost use Rattle.std.specs.Prelude.{◌≡◌};
ghost use Rattle.normal.specs.declared.refusal.NormalRefusal.TheVariants.{Memory};

use std::alloc::{AllocError, AllocFailed};

/// Why there is no sum of monomials.
#[derive(Clone, Copy, Debug, PartialEq, Eq)]
pub enum NormalRefusal {
    /// A step on coefficients, or a number of derivatives, does not fit.
    Range,
    /// Memory ran out.
    Memory,
}

impl From<AllocError> for NormalRefusal {
    ghost from_gives = { λ _ r. r ≡ Memory };

    fn from(_: AllocError) -> NormalRefusal {
        NormalRefusal::Memory
    }
}

impl<T: Drop> From<AllocFailed<T>> for NormalRefusal {
    ghost from_gives = { λ _ r. r ≡ Memory };

    fn from(_: AllocFailed<T>) -> NormalRefusal {
        NormalRefusal::Memory
    }
}
