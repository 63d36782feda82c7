//! Why a part of a statement has no value.

ghost use Rattle.std.specs.Prelude.{◌≡◌};
ghost use Rattle.ufl_values.specs.declared.refusal.Reason.TheVariants.{Memory};
ghost use Rattle.ufl_values.specs.Answer.{reason_of_type, reason_of_space};
ghost use Rattle.ufl_values.specs.Refused.{kind_of, refused, placed};

use spaces::SpaceRefusal;
use std::alloc::AllocError;
use ufl_expr::TypeRefusal;
use ufl_read::{FormKind, FormRefusal};
use ufl_syntax::Span;

/// Why a name, an operator or a call has no value.
#[derive(Clone, Copy, Debug, PartialEq, Eq)]
pub enum Reason {
    /// The name is neither assigned nor in the table.
    UnknownName,
    /// A value of another kind or number than the place needs.
    Kind,
    /// The language has it, and this compiler does not.
    Unsupported,
    /// The operator takes no operands of these shapes.
    Shape,
    /// The operator takes no operands with these free indices.
    FreeIndex,
    /// A number does not fit, a step to it passes, or a divisor is 0.
    NumberRange,
    /// The value would be too large.
    Nodes,
    /// Memory ran out.
    Memory,
}

impl From<AllocError> for Reason {
    ghost from_gives = { λ _ r. r ≡ Memory };

    fn from(_: AllocError) -> Reason {
        Reason::Memory
    }
}

impl From<TypeRefusal> for Reason {
    ghost from_gives = { λ e r. r ≡ reason_of_type e };

    fn from(refusal: TypeRefusal) -> Reason {
        match refusal {
            TypeRefusal::Kind => Reason::Kind,
            TypeRefusal::Shape => Reason::Shape,
            TypeRefusal::FreeIndex => Reason::FreeIndex,
            TypeRefusal::Nodes => Reason::Nodes,
            TypeRefusal::Memory => Reason::Memory,
        }
    }
}

impl From<SpaceRefusal> for Reason {
    ghost from_gives = { λ e r. r ≡ reason_of_space e };

    fn from(refusal: SpaceRefusal) -> Reason {
        match refusal {
            SpaceRefusal::Kind => Reason::Kind,
            SpaceRefusal::Size => Reason::Nodes,
            SpaceRefusal::Memory => Reason::Memory,
        }
    }
}

/// The kind of refusal of a form file.
fn kind_of(reason: Reason) -> FormKind
    ensures { result ≡ kind_of reason }
{
    match reason {
        Reason::UnknownName => FormKind::UnknownName,
        Reason::Kind => FormKind::Kind,
        Reason::Unsupported => FormKind::Unsupported,
        Reason::Shape => FormKind::Shape,
        Reason::FreeIndex => FormKind::FreeIndex,
        Reason::NumberRange => FormKind::NumberRange,
        Reason::Nodes => FormKind::Nodes,
        Reason::Memory => FormKind::Memory,
    }
}

/// The refusal of this word in the statement that begins on this line. Want of memory has neither.
pub fn refused(reason: Reason, line: u32, word: Span) -> FormRefusal
    ensures { result ≡ refused reason line word }
{
    match kind_of(reason) {
        FormKind::Memory => FormRefusal::new(FormKind::Memory, 0),
        kind => FormRefusal {
            kind,
            line,
            from: word.from,
            len: word.len,
        },
    }
}

/// What an operator gave, with the line of the statement and the word of a refusal.
pub fn placed<T>(answer: Result<T, Reason>, line: u32, word: Span) -> Result<T, FormRefusal>
    ensures { result ≡ placed answer line word }
{
    match answer {
        Ok(value) => Ok(value),
        Err(reason) => Err(refused(reason, line, word)),
    }
}
