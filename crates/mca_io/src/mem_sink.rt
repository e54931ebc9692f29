//! A sink in memory.
ghost use Rattle.std.specs.Prelude.{◌≡◌, ◌<◌, ◌≤◌, [], length, IfOk, OnErr, Some, Ok, Err, if◌then◌else◌, ◌||◌, nat_le};
ghost use Rattle.std.specs.Io.KnownBytes.{WriteAppends};
ghost use Rattle.mca_io.specs.Calls.{is_listed};
ghost use Rattle.mca_io.specs.Devices.{HasCause};
ghost use Rattle.mca_io.specs.MemSink.{write_fails, taken, after_write};

use crate::failed::Failed;
use crate::listed::listed;
use crate::sink::Sink;
use mca_fixed::NoMemory;
use std::alloc::Global;
use std::marker::Model;

/// A sink in memory that fails at chosen writes. Its room in bytes is reserved when it is made, and no
/// write takes memory.
#[derive(Drop)]
pub struct MemSink {
    bytes: Vec<u8>,
    room: usize,
    take: usize,
    failing: Vec<u64>,
    calls: u64,
    faults: u64,
}

impl Model for MemSink {
    ghost use Rattle.std.specs.Prelude.{◌≤◌, vec_len, vec_capacity};
    ghost use Rattle.mca_io.specs.MemSink.{SinkState};

    ghost Value = { SinkState };

    ghost view = { λ s. record { written = s.bytes.items; room = s.room; take = s.take; failing = s.failing.items; calls = s.calls; faults = s.faults } };

    ghost invariant = { λ s. (1 ≤ s.take) × (vec_len s.bytes ≤ s.room) × (s.room ≤ vec_capacity s.bytes) };
}

impl MemSink {
    /// An empty sink with room for `room` bytes. A write takes at most `take` bytes; the writes with
    /// the numbers in `failing`, counted from 1, fail.
    pub fn make(
        alloc: Global,
        room: usize,
        take: usize,
        failing: &[u64],
    ) -> Result<MemSink, NoMemory>
        requires { 1 ≤ take }
        ensures { IfOk result (λ sink. sink ≡ record { written = []; room = room; take = take; failing = failing.now; calls = 0; faults = 0 }) }
    {
        Ok(MemSink {
            bytes: Vec::with_capacity(alloc, room)?,
            room,
            take,
            failing: Vec::from_slice(alloc, failing)?,
            calls: 0,
            faults: 0,
        })
    }

    /// All bytes written so far.
    pub fn written(&self) -> &[u8]
        ensures { result.now ≡ self.now.written }
    {
        &self.bytes
    }

    /// The count of faults.
    pub fn faults(&self) -> u64
        ensures { result ≡ self.now.faults }
    {
        self.faults
    }
}

// Whether the write of this number is to fail, or no room is left.
fn refuses(failing: &[u64], call: u64, room: usize, len: usize) -> bool
    ensures { result ≡ (is_listed failing.now call || nat_le room len) }
{
    listed(failing, call) || room <= len
}

impl Sink for MemSink {
    ghost told = { λ s. record { contents = Some s.written; faults = s.faults } };

    /// Takes the least of `take`, the piece's length and the room that is left. Fails exactly where
    /// its number is listed or the sink is full.
    fn write(&mut self, bytes: &[u8]) -> Result<usize, Failed>
        requires { 0 < length bytes.now }
        ensures some { IfOk result (λ n. 0 < n) }
        ensures bound { IfOk result (λ n. n ≤ length bytes.now) }
        ensures bytes { WriteAppends (Some self.old.written) (Some self.new.written) result bytes.now }
        ensures err { OnErr result (Some self.new.written ≡ Some self.old.written) }
        ensures cause { HasCause self.old.faults self.new.faults result }
        ensures answer { result ≡ (if write_fails self.old then Err record {} else Ok (taken self.old bytes.now)) }
        ensures after { self.new ≡ after_write self.old bytes.now }
    {
        self.calls = self.calls.saturating_add(1);
        if refuses(&self.failing, self.calls, self.room, self.bytes.len()) {
            self.faults = self.faults.saturating_add(1);
            return Err(Failed);
        }
        let n = self.take.min(bytes.len().min(self.room - self.bytes.len()));
        let _ = self.bytes.extend_from_slice(&bytes[..n]);
        Ok(n)
    }
}
