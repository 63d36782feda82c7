//! Files that are kept in memory, for tests.
ghost use Rattle.std.specs.Prelude.{◌≡◌, ◌≢◌, ℕ, List, [], ◌++◌, map, take, Option, Some, option_map, false, IsTrue, OnOk, OnErr, IsErrOf};
ghost use Rattle.std.specs.Option.{option_copied};
ghost use Rattle.ends.specs.Count.{Rises};
ghost use Rattle.ends.specs.Held.{IsLoad, bytes_of};
ghost use Rattle.ends.specs.MemFile.{held};

use crate::files::{Files, LoadError};
use std::alloc::Global;
use std::marker::Model;

/// A file in memory.
#[derive(Drop)]
pub struct MemFile {
    pub name: String,
    pub bytes: Vec<u8>,
}

/// Files in memory, some of whose loads fail. A load fails exactly where its number, from 1, is
/// listed, or where there is no file of the name. Of two files of one name the first counts.
#[derive(Drop)]
pub struct MemFiles {
    alloc: Global,
    files: Vec<MemFile>,
    fail: Vec<u64>,
    calls: u64,
    faults: u64,
    last_failed: Vec<u8>,
}

impl Model for MemFiles {
    ghost use Rattle.ends.specs.FilesInMemory.{FilesInMemory};
    ghost use Rattle.std.specs.Prelude.{map};
    ghost use Rattle.ends.specs.MemFile.{held};

    ghost Value = { FilesInMemory };

    ghost view = { λ m. record {
      files = map held m.files.items;
      fail = m.fail.items;
      calls = m.calls;
      faults = m.faults;
      last_failed = m.last_failed.items;
    } };
}

// The bytes of the file with this name.
fn find<'a>(files: &'a [MemFile], name: &str) -> Option<&'a [u8]>
    ensures { option_map (λ x. x.now) result ≡ bytes_of (map held files.now) name.now }
{
    for file in files {
        if file.name.as_str() == name {
            return Some(file.bytes.as_slice());
        }
    }
    None
}

// The first bytes, as many as are wanted or all.
fn first(bytes: &[u8], most: u32) -> &[u8]
    ensures { result.now ≡ take most bytes.now }
{
    let most = most as usize;
    if most < bytes.len() {
        &bytes[..most]
    } else {
        bytes
    }
}

impl MemFiles {
    ghost use Rattle.ends.specs.FilesInMemory.{FilesInMemory};

    /// Files of these names and bytes, of which the loads with the numbers in `fail` are faults.
    pub fn new(alloc: Global, files: Vec<MemFile>, fail: Vec<u64>) -> MemFiles
        ensures { result ≡ record {
          files = map held files.items;
          fail = fail.items;
          calls = 0;
          faults = 0;
          last_failed = [];
        } }
    {
        MemFiles {
            alloc,
            files,
            fail,
            calls: 0,
            faults: 0,
            last_failed: Vec::new(alloc),
        }
    }

    /// How often a load was a fault.
    pub fn faults(&self) -> u64
        ensures { result ≡ self.now.faults }
    {
        self.faults
    }
}

impl Files for MemFiles {
    ghost use Rattle.ends.specs.FilesInMemory.{FilesInMemory, fails, after_load};

    ghost content = { λ m. Some m.files };

    ghost faults = { λ m. m.faults };

    ghost last_failed = { λ m. m.last_failed };

    fn load(&mut self, name: &str, most: u32, into: &mut Vec<u8>) -> Result<(), LoadError>
        ensures content { Some self.new.files ≡ Some self.old.files }
        ensures ok { OnOk result ((bytes : List ℕ) × IsLoad (Some self.old.files) name.now most bytes
            × (into.new.items ≡ into.old.items ++ bytes)) }
        ensures err { OnErr result (into.new.items ≡ into.old.items) }
        ensures fault { IsErrOf result LoadError.Fault → Rises self.old.faults self.new.faults
            × (self.new.last_failed ≡ name.now) }
        ensures no_fault { result ≢ Err LoadError.Fault → (self.new.faults ≡ self.old.faults)
            × (self.new.last_failed ≡ self.old.last_failed) }

        ensures fault_only { IsErrOf result LoadError.Fault → IsTrue (fails self.old name.now) }
        ensures ok_only { OnOk result (fails self.old name.now ≡ false) }
        ensures after { self.new ≡ after_load result self.old name.now }
    {
        self.calls = self.calls.saturating_add(1);
        let kept_name = Vec::from_slice(self.alloc, name.as_bytes())?;
        let found = if self.fail.contains(&self.calls) {
            None
        } else {
            find(&self.files, name)
        };
        match found {
            Some(bytes) => {
                into.extend_from_slice(first(bytes, most))?;
                Ok(())
            }
            None => {
                self.faults = self.faults.saturating_add(1);
                self.last_failed = kept_name;
                Err(LoadError::Fault)
            }
        }
    }
}

#[cfg(test)]
mod tests {
    use super::*;
    use std::test::Fail;

    #[test]
    fn loads_what_is_there_and_not_listed(rt: HostRuntime) -> Result<(), Fail> {
        let file = MemFile {
            name: String::from_str(rt.alloc(), "a")?,
            bytes: Vec::from_slice(rt.alloc(), b"text")?,
        };
        let list = vec![in rt.alloc(); file]?;
        let fail = vec![in rt.alloc(); 3]?;
        let mut files = MemFiles::new(rt.alloc(), list, fail);
        let mut into = vec![in rt.alloc(); b'>']?;
        assert_eq!(rt; files.load("b", 9, &mut into), Err(LoadError::Fault));
        assert_eq!(rt; files.load("a", 3, &mut into), Ok(()));
        assert_eq!(rt; files.load("a", 3, &mut into), Err(LoadError::Fault));
        assert_eq!(rt; files.load("a", 9, &mut into), Ok(()));
        assert_eq!(rt; into.as_slice(), b">textext".as_slice());
        assert_eq!(rt; files.faults(), 2);
        Ok(())
    }
}
