//! Why there are no values.

ghost use Rattle.std.specs.Prelude.{◌≡◌};
ghost use Rattle.data_in.specs.DataReading.{out_of_memory};

use std::alloc::{AllocError, AllocFailed};

/// What is wrong with data, by the numbers of its refusals.
#[derive(Clone, Copy, Debug, PartialEq, Eq)]
pub enum ValueKind {
    /// 1: the text has more than 67,108,864 bytes.
    TooLong,
    /// 2: a byte that may stand in no line, outside of comments.
    Lex,
    /// 3: a line that is none of those that may come, or the text ends too early.
    Syntax,
    /// 4: a coefficient that occurs in the form has no block.
    Missing,
    /// 5: a block of a coefficient that there is not.
    Extra,
    /// 6: a block has another number of values than its coefficient has rows.
    WrongCount,
    /// Memory ran out.
    Memory,
}

/// A refusal, with the line of the text that is to blame, counted from 1, and 0 where none is.
#[derive(Clone, Copy, Debug, PartialEq, Eq)]
pub struct ValueRefusal {
    pub kind: ValueKind,
    pub line: u32,
}

impl From<AllocError> for ValueRefusal {
    ghost from_gives = { λ _ e. e ≡ out_of_memory };

    fn from(_error: AllocError) -> ValueRefusal {
        ValueRefusal {
            kind: ValueKind::Memory,
            line: 0,
        }
    }
}

impl<T: Drop> From<AllocFailed<T>> for ValueRefusal {
    ghost from_gives = { λ _ e. e ≡ out_of_memory };

    fn from(_error: AllocFailed<T>) -> ValueRefusal {
        ValueRefusal {
            kind: ValueKind::Memory,
            line: 0,
        }
    }
}
