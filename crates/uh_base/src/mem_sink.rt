//! A sink in memory.
use crate::counts::is_among;
use crate::sink::{Failed, Sink};
use std::alloc::{AllocError, Global};
use std::marker::Model;

/// A sink in memory, of a fixed room, which tells its bytes.
#[derive(Drop)]
pub struct MemSink {
    bytes: Vec<u8>,
    room: usize,
    fail: Vec<u32>,
    puts: u64,
    faults: u64,
}

impl Model for MemSink {
    ghost use Rattle.std.specs.Prelude.{◌≤◌, vec_len, vec_capacity};
    ghost use Rattle.uh_base.specs.MemSink.{HeldBytes};

    ghost Value = { HeldBytes };

    ghost view = { λ s. record { written = s.bytes.items; room = s.room; fail = s.fail.items; puts = s.puts; faults = s.faults } };

    ghost invariant = { λ s. (vec_len s.bytes ≤ s.room) × (s.room ≤ vec_capacity s.bytes) };
}

ghost use Rattle.std.specs.Prelude.{◌≡◌, ◌≤◌, [], IfOk, IsErr, IsTrue, OnErr, OnOk, Some, ◌↔◌};
ghost use Rattle.uh_base.specs.Counts.{Rose};
ghost use Rattle.uh_base.specs.Told.{grown, GrownByPart};
ghost use Rattle.uh_base.specs.MemSink.{HeldBytes, refuses, after_put};

impl MemSink {
    /// A sink of `room` bytes. Puts are numbered from 0; one whose number stands in `fail`, and one past the room,
    /// puts nothing and is a fault.
    pub fn new(alloc: Global, room: usize, fail: Vec<u32>) -> Result<MemSink, AllocError>
        ensures { IfOk result (λ s. s ≡ record { written = []; room = room; fail = fail.items; puts = 0; faults = 0 }) }
    {
        Ok(MemSink {
            bytes: Vec::with_capacity(alloc, room)?,
            room,
            fail,
            puts: 0,
            faults: 0,
        })
    }

    /// What was put.
    pub fn written(&self) -> &[u8]
        ensures { result.now ≡ self.now.written }
    {
        self.bytes.as_slice()
    }
}

impl Sink for MemSink {
    ghost written = { λ s. Some s.written };

    ghost faults = { λ s. s.faults };

    fn put(&mut self, bytes: &[u8]) -> Result<(), Failed>
        ensures refused { IsErr result ↔ IsTrue (refuses self.old bytes.now) }
        ensures after { self.new ≡ after_put self.old bytes.now }
        ensures ok { OnOk result (Some self.new.written ≡ grown (Some self.old.written) bytes.now) }
        ensures part { OnErr result (GrownByPart (Some self.old.written) bytes.now (Some self.new.written)) }
        ensures cause { OnErr result (Rose self.old.faults self.new.faults) }
        ensures never_falls { self.old.faults ≤ self.new.faults }
    {
        let is_failing = is_among(self.puts, self.fail.as_slice());
        self.puts = self.puts.saturating_add(1);
        if is_failing || bytes.len() > self.room - self.bytes.len() {
            self.faults = self.faults.saturating_add(1);
            return Err(Failed);
        }
        match self.bytes.extend_from_slice(bytes) {
            Ok(()) => Ok(()),
            Err(_) => unreachable!(),
        }
    }
}
