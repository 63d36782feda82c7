//! A sink that is kept in memory, for tests.
ghost use Rattle.std.specs.Prelude.{◌≡◌, ℕ, [], ◌↔◌, List, Option, Some, option_map, IsErr, IsTrue, IfOk, OnOk, OnErr, drop};
ghost use Rattle.ends.specs.Count.{Rises};
ghost use Rattle.ends.specs.Told.{appended, TakesPrefix};
ghost use Rattle.ends.specs.SinkInMemory.{listed};

use crate::sink::{Sink, SinkFault};
use std::alloc::{AllocError, Global};
use std::marker::Model;

/// A sink in memory with a room in bytes, which is taken when it is made. A put fails exactly where
/// its number, from 1, is listed, or where the room is too small for its bytes. A put that fails
/// takes as many bytes as the room allows, and where it is listed, the length beside its number.
#[derive(Drop)]
pub struct MemSink {
    bytes: Vec<u8>,
    room: u32,
    fail: Vec<(u64, u32)>,
    calls: u64,
    faults: u64,
}

impl Model for MemSink {
    ghost use Rattle.std.specs.Prelude.{◌≤◌, vec_len, vec_capacity};
    ghost use Rattle.ends.specs.SinkInMemory.{SinkInMemory};

    ghost Value = { SinkInMemory };

    ghost view = { λ s. record {
      bytes = s.bytes.items;
      room = s.room;
      fail = s.fail.items;
      calls = s.calls;
      faults = s.faults;
    } };

    ghost invariant = { λ s. (vec_len s.bytes ≤ s.room) × (s.room ≤ vec_capacity s.bytes) };
}

// The length in the first pair with this number.
fn length_listed(pairs: &[(u64, u32)], number: u64) -> Option<u32>
    ensures { result ≡ listed pairs.now number }
{
    for pair in pairs {
        if pair.0 == number {
            return Some(pair.1);
        }
    }
    None
}

impl MemSink {
    ghost use Rattle.ends.specs.SinkInMemory.{SinkInMemory};

    /// An empty sink with this room, whose puts with the numbers in `fail` are faults.
    pub fn new(alloc: Global, room: u32, fail: Vec<(u64, u32)>) -> Result<MemSink, AllocError>
        ensures { IfOk result (λ sink. sink ≡ record {
          bytes = [];
          room = room;
          fail = fail.items;
          calls = 0;
          faults = 0;
        }) }
    {
        Ok(MemSink {
            bytes: Vec::with_capacity(alloc, room as usize)?,
            room,
            fail,
            calls: 0,
            faults: 0,
        })
    }

    /// The bytes so far.
    pub fn bytes(&self) -> &[u8]
        ensures { result.now ≡ self.now.bytes }
    {
        self.bytes.as_slice()
    }

    /// How often a put was a fault.
    pub fn faults(&self) -> u64
        ensures { result ≡ self.now.faults }
    {
        self.faults
    }
}

impl Sink for MemSink {
    ghost use Rattle.ends.specs.SinkInMemory.{SinkInMemory, fails, after_put};

    ghost written = { λ s. Some s.bytes };

    ghost faults = { λ s. s.faults };

    fn put(&mut self, bytes: &[u8]) -> Result<(), SinkFault>
        ensures ok { OnOk result (Some self.new.bytes ≡ appended (Some self.old.bytes) bytes.now) }
        ensures no_fault { OnOk result (self.new.faults ≡ self.old.faults) }
        ensures prefix { OnErr result (TakesPrefix (Some self.old.bytes) (Some self.new.bytes) bytes.now) }
        ensures fault { OnErr result (Rises self.old.faults self.new.faults) }

        ensures exact { IsErr result ↔ IsTrue (fails self.old bytes.now) }
        ensures after { self.new ≡ after_put self.old bytes.now }
    {
        self.calls = self.calls.saturating_add(1);
        let left = self.room as usize - self.bytes.len();
        let short = left < bytes.len();
        let listed = length_listed(&self.fail, self.calls);
        let allowed = listed.map_or(left, |most| left.min(most as usize));
        let taken = allowed.min(bytes.len());
        self.bytes.extend_from_slice(&bytes[..taken]).unwrap();
        if short || listed.is_some() {
            self.faults = self.faults.saturating_add(1);
            return Err(SinkFault);
        }
        Ok(())
    }
}

#[cfg(test)]
mod tests {
    use super::*;
    use std::test::Fail;

    #[test]
    fn takes_what_the_room_and_the_list_allow(rt: HostRuntime) -> Result<(), Fail> {
        let fail = vec![in rt.alloc(); (2, 1), (2, 9)]?;
        let mut sink = MemSink::new(rt.alloc(), 6, fail)?;
        assert_eq!(rt; sink.put(b"one"), Ok(()));
        assert_eq!(rt; sink.put(b"two"), Err(SinkFault));
        assert_eq!(rt; sink.put(b"three"), Err(SinkFault));
        assert_eq!(rt; sink.bytes(), b"onetth".as_slice());
        assert_eq!(rt; sink.faults(), 2);
        Ok(())
    }
}
