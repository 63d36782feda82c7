//! Why there is no mesh.

ghost use Rattle.std.specs.Prelude.{◌≡◌};
ghost use Rattle.mesh_in.specs.Refusal.{out_of_memory};

use std::alloc::{AllocError, AllocFailed};

/// What is wrong with a mesh, by the numbers of its refusals.
#[derive(Clone, Copy, Debug, PartialEq, Eq)]
pub enum MeshKind {
    /// 1: the text has more than 67,108,864 bytes.
    TooLong,
    /// 2: a byte that may stand in no line, outside of comments.
    Lex,
    /// 3: a line that is none of those that may come, or the text ends too early.
    Syntax,
    /// 4: more than 1,000,000 vertices or cells.
    Count,
    /// 5: a cell names a vertex that there is not.
    VertexRange,
    /// 6: a cell names a vertex twice.
    RepeatedVertex,
    /// 7: the cell is not that of the form.
    WrongCell,
    /// 8: a cell has no volume.
    Degenerate,
    /// 9: the cells have more than 2^24 local entries together.
    TooManyEntries,
    /// Memory ran out.
    Memory,
}

/// A refusal, with the line of the text or the number of the cell that is to blame, and 0 where none is.
#[derive(Clone, Copy, Debug, PartialEq, Eq)]
pub struct MeshRefusal {
    pub kind: MeshKind,
    /// Counted from 1.
    pub line: u32,
    /// Counted from 0, of `Degenerate` alone.
    pub cell: u32,
}

impl From<AllocError> for MeshRefusal {
    ghost from_gives = { λ _ e. e ≡ out_of_memory };

    fn from(_error: AllocError) -> MeshRefusal {
        MeshRefusal {
            kind: MeshKind::Memory,
            line: 0,
            cell: 0,
        }
    }
}

impl<T: Drop> From<AllocFailed<T>> for MeshRefusal {
    ghost from_gives = { λ _ e. e ≡ out_of_memory };

    fn from(_error: AllocFailed<T>) -> MeshRefusal {
        MeshRefusal {
            kind: MeshKind::Memory,
            line: 0,
            cell: 0,
        }
    }
}
