//! Why an expression isn't built.

ghost use Rattle.std.specs.Prelude.{◌≡◌};
ghost use Rattle.ufl_expr.specs.declared.refusal.TypeRefusal.TheVariants.{Memory};

use std::alloc::AllocError;

/// Why an expression isn't built. Where several reasons stand together, the first one in this order is given.
#[derive(Clone, Copy, Debug, PartialEq, Eq)]
pub enum TypeRefusal {
    /// An operand isn't of the kind that the operator takes: operands on two cells, a derivative where no function occurs.
    Kind,
    /// The operator takes no operands of these shapes.
    Shape,
    /// The operator takes no operands with these free indices.
    FreeIndex,
    /// The tree would have more than 10,000 nodes, or be higher than 128.
    Nodes,
    /// Memory ran out.
    Memory,
}

impl From<AllocError> for TypeRefusal {
    ghost from_gives = { λ _ r. r ≡ Memory };

    fn from(_: AllocError) -> TypeRefusal {
        TypeRefusal::Memory
    }
}
