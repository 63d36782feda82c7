//! What a name is bound to.

use crate::shared::Shared;
use ufl_syntax::Span;

/// A value, and the target of its last assignment: the line on which that statement begins, and the word.
#[derive(Drop)]
pub struct Bound {
    pub value: Shared,
    pub line: u32,
    pub from: u32,
    pub len: u32,
}

impl Bound {
    ghost use Rattle.std.specs.Prelude.{◌≡◌};
    ghost use Rattle.ufl_elab.specs.Names.{bound_by};

    /// The value, assigned to the target in a statement that begins on this line.
    pub fn new(value: Shared, line: u32, target: Span) -> Bound
        ensures { result ≡ bound_by target line value }
    {
        Bound {
            value,
            line,
            from: target.from,
            len: target.len,
        }
    }
}
