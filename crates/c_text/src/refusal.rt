// Why a text is refused.

ghost use Rattle.std.specs.Prelude.{◌≡◌};

use std::alloc::AllocError;
use std::fmt;

/// What is wrong with the text of a kernel.
#[derive(Clone, Copy, Debug, PartialEq, Eq)]
pub enum KernelKind {
    /// It has more than 268,435,456 bytes.
    TooLong,
    /// No token starts here.
    Lex,
    /// The grammar can't go on, or a number is out of its range.
    Syntax,
    /// A slot number reaches its size.
    Slot,
    /// A size, a name, a fraction, a table, a loop or the number of statements breaks its rule.
    Bound,
    /// Told by those who run kernels: the function is missing, or its sizes are others.
    Sizes,
    /// Memory ran out.
    Memory,
}

/// What is wrong, and in which line, from 1; line 0 where no line is to blame.
#[derive(Clone, Copy, Debug, PartialEq, Eq)]
pub struct KernelRefusal {
    pub kind: KernelKind,
    pub line: u32,
}

impl fmt::Display for KernelRefusal {
    fn fmt<W: fmt::Write>(&self, f: &mut fmt::Formatter<W>) -> fmt::Result {
        let what = match self.kind {
            KernelKind::TooLong => "the text is too long",
            KernelKind::Lex => "no token starts here",
            KernelKind::Syntax => "the grammar can't go on",
            KernelKind::Slot => "a slot number reaches its size",
            KernelKind::Bound => "a bound is broken",
            KernelKind::Sizes => "the function is missing or has other sizes",
            KernelKind::Memory => "memory ran out",
        };
        write!(f, "line {}: {}", self.line, what)
    }
}

/// Why reading stopped: for want of memory, or at a place of the text.
#[derive(Clone, Copy, Debug)]
pub enum ReadFault {
    Memory,
    Refused(KernelRefusal),
}

impl From<AllocError> for ReadFault {
    ghost use Rattle.c_text.specs.declared.refusal.ReadFault.TheVariants.{Memory};

    ghost from_gives = { λ _ e. e ≡ Memory };

    fn from(_error: AllocError) -> ReadFault {
        ReadFault::Memory
    }
}
