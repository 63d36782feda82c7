//! What a chain of calls, indices and attributes has come to.

use crate::shared::Shared;
use ufl_syntax::Span;
use ufl_values::Value;

/// What a chain of calls, indices and attributes has come to so far.
#[derive(Drop)]
pub enum Head {
    Whole(Value),
    /// The value of a bare name.
    Named(Shared, Span),
    /// A value whose `.dx` waits for its call.
    Along(Value, Span),
}
