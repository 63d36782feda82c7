//! Sinks that bytes are put into.
ghost use Rattle.std.specs.Prelude.{◌≡◌, ℕ, List, Option, OnOk, OnErr};
ghost use Rattle.ends.specs.Count.{Rises};
ghost use Rattle.ends.specs.Told.{appended, TakesPrefix};

use std::error::Error;
use std::fmt;

/// A sink took no more than a prefix of the bytes.
#[derive(Clone, Copy, Debug, PartialEq, Eq)]
pub struct SinkFault;

impl fmt::Display for SinkFault {
    fn fmt<W: fmt::Write>(&self, f: &mut fmt::Formatter<W>) -> fmt::Result {
        f.write_str("the sink could not be written")
    }
}

impl Error for SinkFault {}

/// Where bytes are put, one piece after the other.
pub trait Sink {
    /// The bytes so far, where they are told.
    ghost written: { Self → Option (List ℕ) };

    /// How often a put was a fault. It never falls, and stays at 2^64 - 1.
    ghost faults: { Self → ℕ };

    /// Appends all of the bytes, or a prefix of them at a fault.
    fn put(&mut self, bytes: &[u8]) -> Result<(), SinkFault>
        ensures ok { OnOk result (written self.new ≡ appended (written self.old) bytes.now) }
        ensures no_fault { OnOk result (faults self.new ≡ faults self.old) }
        ensures prefix { OnErr result (TakesPrefix (written self.old) (written self.new) bytes.now) }
        ensures fault { OnErr result (Rises (faults self.old) (faults self.new)) };
}
