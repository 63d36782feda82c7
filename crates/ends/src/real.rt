//! The files and the streams of the system. They tell no content: what a disk or a terminal holds is
//! trusted, and what is proved is that a fault is counted and that no call is unsafe or endless.
ghost use Rattle.std.specs.Prelude.{◌≡◌, ◌≤◌, ◌++◌, ℕ, List, [], length, None};

use crate::files::{Files, LoadError};
use crate::sink::{Sink, SinkFault};
use std::io::{Read, Write};
use std::marker::Model;
use std::{fs, rt};

// How many bytes are read at once.
const CHUNK: usize = 16384;

/// The files of the system.
#[derive(Drop)]
pub struct RealFiles<R> {
    rt: R,
    faults: u64,
    last_failed: Vec<u8>,
}

impl<R> Model for RealFiles<R> {
    ghost use Rattle.std.specs.Prelude.{ℕ, List};

    ghost Value = { ℕ × List ℕ };

    ghost view = { λ f. (f.faults, f.last_failed.items) };
}

// Appends the first bytes of the file to `into`. At an error some of them may be there.
fn append_file(
    rt: &impl rt::Files,
    name: &str,
    most: u32,
    into: &mut Vec<u8>,
) -> Result<(), LoadError>
    ensures { (bytes : List ℕ) × (length bytes ≤ most) × (into.new.items ≡ into.old.items ++ bytes) }
{
    let mut file = fs::open(rt, name).map_err(|_| LoadError::Fault)?;
    let mut buffer = [0u8; CHUNK];
    let mut left = most as usize;
    while left > 0 {
        let want = left.min(CHUNK);
        let count = file
            .read(&mut buffer[..want])
            .map_err(|_| LoadError::Fault)?;
        if count == 0 {
            break;
        }
        into.extend_from_slice(&buffer[..count])?;
        left -= count;
    }
    Ok(())
}

impl<R: rt::Files + AllocGlobal + Drop> RealFiles<R> {
    pub fn new(rt: R) -> RealFiles<R>
        ensures { result ≡ (0, []) }
    {
        let last_failed = Vec::new(rt.alloc());
        RealFiles {
            rt,
            faults: 0,
            last_failed,
        }
    }
}

impl<R: rt::Files + AllocGlobal + Drop> Files for RealFiles<R> {
    ghost content = { λ _. None };

    ghost faults = { λ f. f.0 };

    ghost last_failed = { λ f. f.1 };

    fn load(&mut self, name: &str, most: u32, into: &mut Vec<u8>) -> Result<(), LoadError> {
        let kept_name = Vec::from_slice(self.rt.alloc(), name.as_bytes())?;
        let start = into.len();
        let answer = append_file(&self.rt, name, most, into);
        if let Err(error) = answer {
            into.truncate(start);
            if error == LoadError::Fault {
                self.faults = self.faults.saturating_add(1);
                self.last_failed = kept_name;
            }
        }
        answer
    }
}

/// Standard output or standard error.
#[derive(Drop)]
pub struct StdSink<W> {
    to: W,
    faults: u64,
}

impl<W> Model for StdSink<W> {
    ghost use Rattle.std.specs.Prelude.{ℕ};

    ghost Value = { ℕ };

    ghost view = { λ s. s.faults };
}

impl<W: Write + Drop> StdSink<W> {
    pub fn new(to: W) -> StdSink<W>
        ensures { result ≡ 0 }
    {
        StdSink { to, faults: 0 }
    }
}

impl<W: Write + Drop> Sink for StdSink<W> {
    ghost written = { λ _. None };

    ghost faults = { λ s. s };

    fn put(&mut self, bytes: &[u8]) -> Result<(), SinkFault> {
        let mut rest = bytes;
        while !rest.is_empty() {
            match self.to.write(rest) {
                Ok(count) if count > 0 => rest = &rest[count..],
                _ => {
                    self.faults = self.faults.saturating_add(1);
                    return Err(SinkFault);
                }
            }
        }
        Ok(())
    }
}

#[cfg(test)]
mod tests {
    use super::*;
    use std::test::Fail;

    #[test]
    fn reads_a_file_and_counts_one_that_is_missing(rt: HostRuntime) -> Result<(), Fail> {
        let mut files = RealFiles::new(rt.clone()?);
        let mut into = Vec::new(rt.alloc());
        assert_eq!(rt;
            files.load("no such file", 9, &mut into),
            Err(LoadError::Fault)
        );
        assert_eq!(rt; files.faults, 1);
        assert_eq!(rt; files.last_failed.as_slice(), b"no such file".as_slice());
        assert_eq!(rt; files.load("/dev/zero", 20000, &mut into), Ok(()));
        assert_eq!(rt; into.len(), 20000);
        assert_eq!(rt; files.faults, 1);
        Ok(())
    }

    #[test]
    fn writes_to_standard_output(rt: HostRuntime) -> Result<(), Fail> {
        let mut out = StdSink::new(rt.stdout());
        assert_eq!(rt; out.put(b"written\n"), Ok(()));
        assert_eq!(rt; out.faults, 0);
        Ok(())
    }
}
