//! Why a polynomial can't be made.

ghost use Rattle.std.specs.Prelude.{◌≡◌};
ghost use Rattle.polyalg.specs.declared.fault.PolyFault.TheVariants.{Memory};

use std::alloc::{AllocError, AllocFailed};

/// Why a polynomial can't be made.
#[derive(Clone, Copy, Debug, PartialEq, Eq)]
pub enum PolyFault {
    /// Memory ran out.
    Memory,
    /// A step on coefficients does not fit.
    Range,
}

impl<T: Drop> From<AllocFailed<T>> for PolyFault {
    ghost from_gives = { λ _ e. e ≡ Memory };

    fn from(_: AllocFailed<T>) -> PolyFault {
        PolyFault::Memory
    }
}

impl From<AllocError> for PolyFault {
    ghost from_gives = { λ _ e. e ≡ Memory };

    fn from(_: AllocError) -> PolyFault {
        PolyFault::Memory
    }
}
