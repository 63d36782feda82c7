//! Files that are loaded by name.
ghost use Rattle.std.specs.Prelude.{◌≡◌, ◌≢◌, ℕ, List, ◌++◌, Option, OnOk, OnErr, IsErrOf};
ghost use Rattle.ends.specs.Count.{Rises};
ghost use Rattle.ends.specs.Held.{Held, IsLoad};
ghost use Rattle.ends.specs.declared.files.LoadError.TheVariants.{Memory};

use std::alloc::AllocError;
use std::error::Error;
use std::fmt;

/// Why a file was not loaded.
#[derive(Clone, Copy, Debug, PartialEq, Eq)]
pub enum LoadError {
    /// It isn't there, or reading it failed.
    Fault,
    Memory,
}

impl fmt::Display for LoadError {
    fn fmt<W: fmt::Write>(&self, f: &mut fmt::Formatter<W>) -> fmt::Result {
        f.write_str(match self {
            LoadError::Fault => "the file could not be read",
            LoadError::Memory => "out of memory",
        })
    }
}

impl Error for LoadError {}

impl From<AllocError> for LoadError {
    ghost from_gives = { λ _ e. e ≡ Memory };

    fn from(_e: AllocError) -> LoadError {
        LoadError::Memory
    }
}

/// Files by their names.
pub trait Files {
    /// What the files hold, where it is told.
    ghost content: { Self → Option (List Held) };

    /// How often a load was a fault. It never falls, and stays at 2^64 - 1.
    ghost faults: { Self → ℕ };

    /// The name of the last load that was a fault; empty before the first one.
    ghost last_failed: { Self → List ℕ };

    /// Appends the first bytes of a file to `into`, `most` of them or the whole file. To learn
    /// that a file is longer than a limit, ask for one byte more.
    fn load(&mut self, name: &str, most: u32, into: &mut Vec<u8>) -> Result<(), LoadError>
        ensures content { content self.new ≡ content self.old }
        ensures ok { OnOk result ((bytes : List ℕ) × IsLoad (content self.old) name.now most bytes
            × (into.new.items ≡ into.old.items ++ bytes)) }
        ensures err { OnErr result (into.new.items ≡ into.old.items) }

        ensures fault { IsErrOf result LoadError.Fault → Rises (faults self.old) (faults self.new)
            × (last_failed self.new ≡ name.now) }
        ensures no_fault { result ≢ Err LoadError.Fault → (faults self.new ≡ faults self.old)
            × (last_failed self.new ≡ last_failed self.old) };
}
