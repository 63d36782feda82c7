//! How a run of the program ends.
ghost use Rattle.std.specs.Prelude.{◌≡◌};
ghost use Rattle.answers.specs.Outcome.{status_of};
ghost use Rattle.answers.specs.declared.outcome.Outcome.TheVariants.{Memory, Mesh};

use assembly::RunRefusal;
use mesh_in::{MeshKind, MeshRefusal};
use std::alloc::AllocError;
use ufl_read::{FormKind, FormRefusal};

/// The name of an exported form: the line of its last assignment, counted from 1, and the name's place in the file and its
/// length in bytes.
#[derive(Clone, Copy, Debug, PartialEq, Eq)]
pub struct FormName {
    pub line: u32,
    pub from: u32,
    pub len: u32,
}

/// Where the numbers of a run passed 127 bits.
#[derive(Clone, Copy, Debug, PartialEq, Eq)]
pub enum Spot {
    /// In the values of a cell.
    Cell { cell: u32 },
    /// In the sum of an entry.
    Sum { row: u32, col: u32 },
}

/// How a run ends.
#[derive(Clone, Copy, Debug, PartialEq, Eq)]
pub enum Outcome {
    /// The whole answer was written.
    Done,
    /// The words have none of the shapes.
    Usage,
    Form(FormRefusal),
    /// The form of this name is none that the program can compile yet.
    NotYet(FormName),
    Mesh(MeshRefusal),
    Passed(Spot),
    /// A file could not be read: 1 is that of the form, 2 that of the mesh.
    ReadFault(u8),
    /// The answer could not be written whole.
    WriteFault,
    Memory,
}

impl Outcome {
    /// The status that the process ends with.
    pub fn status(&self) -> u8
        ensures { result ≡ status_of self.now }
    {
        match self {
            Outcome::Done => 0,
            Outcome::Usage => 2,
            Outcome::Form(_) | Outcome::NotYet(_) => 3,
            Outcome::Mesh(_) => 4,
            Outcome::Passed(_) => 7,
            Outcome::ReadFault(_) => 8,
            Outcome::WriteFault => 9,
            Outcome::Memory => 10,
        }
    }
}

impl From<AllocError> for Outcome {
    ghost from_gives = { λ _ o. o ≡ Memory };

    fn from(_error: AllocError) -> Outcome {
        Outcome::Memory
    }
}

impl From<FormRefusal> for Outcome {
    ghost use Rattle.answers.specs.Outcome.{form_outcome};

    ghost from_gives = { λ r o. o ≡ form_outcome r };

    fn from(refusal: FormRefusal) -> Outcome {
        match refusal.kind {
            FormKind::Memory => Outcome::Memory,
            _ => Outcome::Form(refusal),
        }
    }
}

impl From<MeshRefusal> for Outcome {
    ghost use Rattle.answers.specs.Outcome.{mesh_outcome};

    ghost from_gives = { λ r o. o ≡ mesh_outcome r };

    fn from(refusal: MeshRefusal) -> Outcome {
        match refusal.kind {
            MeshKind::Memory => Outcome::Memory,
            _ => Outcome::Mesh(refusal),
        }
    }
}

impl From<RunRefusal> for Outcome {
    ghost use Rattle.answers.specs.Outcome.{run_outcome};

    ghost from_gives = { λ r o. o ≡ run_outcome r };

    fn from(refusal: RunRefusal) -> Outcome {
        match refusal {
            RunRefusal::TooManyEntries => Outcome::Mesh(MeshRefusal {
                kind: MeshKind::TooManyEntries,
                line: 0,
                cell: 0,
            }),
            RunRefusal::Zero { cell, .. } => Outcome::Mesh(MeshRefusal {
                kind: MeshKind::Degenerate,
                line: 0,
                cell,
            }),
            RunRefusal::CellPassed { cell, .. } => Outcome::Passed(Spot::Cell { cell }),
            RunRefusal::SumPassed { row, col } => Outcome::Passed(Spot::Sum { row, col }),
            RunRefusal::Memory => Outcome::Memory,
        }
    }
}
