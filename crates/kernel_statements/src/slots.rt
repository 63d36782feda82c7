//! Where the values of a kernel stand.

ghost use Rattle.std.specs.Prelude.{◌≡◌, ◌+◌, ◌*◌, ◌<◌, ◌≤◌, ◌^◌};
ghost use Rattle.c_unit.specs.declared.unit.Array.TheVariants.{T};
ghost use Rattle.kernel_runs.specs.Planned.{place, stepped, first_buffer as first_buffer_of, second_buffer as second_buffer_of, row_buffer as row_buffer_of};
ghost use Rattle.kernel_runs.specs.Preamble.{t, x, growth_slot as growth_slot_of, scratch_slot, size_slot};
ghost use Rattle.kernel_runs.specs.Body.{strip_of, IsDirected, places_for};
ghost use Rattle.kernel_statements.specs.Emitted.{temporaries};

use c_unit::{Array, Place, Slot};
use kernel_runs::{Digit, Strip};

/// The slot of the size of the volume factor.
pub const SIZE: u32 = 20;

/// The slot for products that are added at once.
pub const SCRATCH: u32 = 32;

/// The slots before the columns: nine differences of coordinates, nine cofactors, the volume factor with its
/// reciprocal and its size, nine growths of the reference coordinates, a zero that is never written, and two for
/// products.
pub const FIXED: u32 = 33;

/// The slot of T at `base`, with one step for each turn of an outer loop and one for each turn of a loop inside it.
pub fn stepped(base: u32, outer: u32, inner: u32) -> Slot
    ensures { result ≡ stepped base outer inner }
{
    Slot {
        base,
        steps: [outer, inner, 0, 0],
    }
}

/// Such a slot of an array.
pub fn place(array: Array, base: u32, outer: u32, inner: u32) -> Place
    ensures { result ≡ place array base outer inner }
{
    Place {
        array,
        slot: stepped(base, outer, inner),
    }
}

/// Slot k of T, the same in all turns.
pub fn t(k: u32) -> Place
    ensures { result ≡ t k }
{
    place(Array::T, k, 0, 0)
}

/// Slot k of X.
pub fn x(k: u32) -> Place
    ensures { result ≡ x k }
{
    place(Array::X, k, 0, 0)
}

/// The slots of a factor of columns, in d dimensions.
pub fn strip_of(d: u8, digit: Digit) -> Strip
    requires { IsDirected digit }
    ensures { result ≡ strip_of d digit }
{
    match digit {
        Digit::Growth(direction) => Strip {
            array: Array::T,
            base: 21 + 3 * direction as u32,
            step: 1,
            count: d as u32,
        },
        Digit::Weights { offset, count } => Strip {
            array: Array::W,
            base: offset,
            step: 1,
            count,
        },
        Digit::Corners { axis, count } => Strip {
            array: Array::X,
            base: axis as u32,
            step: d as u32,
            count,
        },
    }
}

/// How many columns and how many counted rows the monomials of a kernel have at most: behind the fixed slots of T
/// stand two buffers for columns and one for the values of the counted rows.
#[derive(Clone, Copy, Debug, PartialEq, Eq)]
pub struct Buffers {
    pub columns: u32,
    pub rows: u32,
}

impl Buffers {
    /// Where the first columns that are formed stand.
    pub fn first(self) -> u32
        ensures { result ≡ first_buffer_of (places_for self.columns) }
    {
        FIXED
    }

    /// Where the second ones stand.
    pub fn second(self) -> u32
        requires { self.columns ≤ 2 ^ 20 }
        ensures { result ≡ second_buffer_of (places_for self.columns) }
    {
        FIXED + self.columns
    }

    /// Where the values of the counted rows stand.
    pub fn values(self) -> u32
        requires { self.columns ≤ 2 ^ 20 }
        ensures { result ≡ row_buffer_of (places_for self.columns) }
    {
        FIXED + self.columns + self.columns
    }

    /// How many slots T has.
    pub fn temporaries(self) -> u32
        requires columns { self.columns ≤ 2 ^ 20 }
        requires rows { self.rows ≤ 2 ^ 20 }
        ensures { result ≡ temporaries self.columns self.rows }
    {
        FIXED + (self.columns + self.columns + self.rows)
    }
}
