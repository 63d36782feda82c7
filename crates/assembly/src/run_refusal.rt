//! Why a form is not assembled.

ghost use Rattle.std.specs.Prelude.{◌≡◌};
ghost use Rattle.assembly.specs.declared.run_refusal.RunRefusal.TheVariants.{Memory};

use c_unit::Op;
use ratio::Ratio;
use std::alloc::{AllocError, AllocFailed};
use std::error::Error;
use std::fmt;

/// Why a form could not be assembled. Cells, rows and columns count from 0.
#[derive(Clone, Copy, Debug, PartialEq, Eq)]
pub enum RunRefusal {
    /// All cells together have more than 2^24 local entries. Nothing was run.
    TooManyEntries,
    /// On this cell the kernel asks for the reciprocal of 0, in its statement `at`.
    Zero {
        cell: u32,
        at: u32,
    },
    /// On this cell the exact result of the kernel's statement `at` needs more than 127 bits.
    CellPassed {
        cell: u32,
        at: u32,
        op: Op,
        left: Ratio,
        right: Ratio,
    },
    /// A number in the sum of the entry needs more than 127 bits.
    SumPassed {
        row: u32,
        col: u32,
    },
    Memory,
}

impl fmt::Display for RunRefusal {
    fn fmt<W: fmt::Write>(&self, f: &mut fmt::Formatter<W>) -> fmt::Result {
        match self {
            RunRefusal::TooManyEntries => f.write_str("the cells have too many entries"),
            RunRefusal::Zero { cell, .. } => write!(f, "cell {cell} has no volume"),
            RunRefusal::CellPassed { cell, .. } => write!(
                f,
                "a step of the kernel passes on cell {cell}"
            ),
            RunRefusal::SumPassed { row, col } => write!(f, "the sum of entry {row} {col} passes"),
            RunRefusal::Memory => f.write_str("out of memory"),
        }
    }
}

impl Error for RunRefusal {}

impl From<AllocError> for RunRefusal {
    ghost from_gives = { λ _ e. e ≡ Memory };

    fn from(_error: AllocError) -> RunRefusal {
        RunRefusal::Memory
    }
}

impl<T: Drop> From<AllocFailed<T>> for RunRefusal {
    ghost from_gives = { λ _ e. e ≡ Memory };

    fn from(_error: AllocFailed<T>) -> RunRefusal {
        RunRefusal::Memory
    }
}
