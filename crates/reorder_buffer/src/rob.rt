//! The rows in flight, in program order, in a ring that takes its memory once.
ghost use Rattle.std.specs.Prelude.{◌≡◌, ◌≤◌, [], ◌∷◌, ◌++◌, true, drop, slice_get, IfOk};
ghost use Rattle.circular_buffer.specs.Buffer.{buffer};
ghost use Rattle.mca_fixed.specs.declared.limits.TheConstants.{MOST_ENTRIES};
ghost use Rattle.reorder_buffer.specs.Rob.{has_room};

use circular_buffer::HeapCircularBuffer;
use mca_fixed::NoMemory;
use std::alloc::Global;
use std::marker::Model;

/// A row in flight.
#[derive(Clone, Copy, Debug, PartialEq, Eq)]
pub struct RobEntry {
    /// The number of the row.
    pub row: u32,
    /// The micro-ops that it holds, 1 or more.
    pub uops: u16,
}

/// The reorder buffer. Contracts see its entries, oldest first (`items`), and how many micro-ops it holds
/// at most (`capacity`).
#[derive(Debug, Drop)]
pub struct Rob {
    ring: HeapCircularBuffer<RobEntry>,
    /// The micro-ops of all entries.
    held: u32,
}

impl Model for Rob {
    ghost use Rattle.circular_buffer.specs.Buffer.{Buffer};
    ghost use Rattle.reorder_buffer.specs.declared.rob.RobEntry.{RobEntry};
    ghost use Rattle.reorder_buffer.specs.Rob.{IsCounted};

    ghost Value = { Buffer RobEntry };

    ghost view = { λ s. s.ring };

    ghost invariant = { λ s. IsCounted s.ring s.held };
}

impl Rob {
    /// An empty buffer for `size` micro-ops, at most 4,096. It takes all the memory that the buffer ever
    /// needs.
    pub fn make(alloc: Global, size: u32) -> Result<Rob, NoMemory>
        requires { size ≤ MOST_ENTRIES }
        ensures { IfOk result (λ rob. rob ≡ buffer [] size) }
    {
        // An entry holds one micro-op at least, so there are at most `size` entries.
        let ring = HeapCircularBuffer::with_capacity(alloc, size as usize)?;
        Ok(Rob { ring, held: 0 })
    }

    /// Whether a row of `uops` micro-ops has room beside those in flight. The work is constant.
    pub fn room(&self, uops: u16) -> bool
        ensures { result ≡ has_room self.now uops }
    {
        self.held as usize + uops as usize <= self.ring.capacity()
    }

    /// A row of one micro-op or more, which has room, enters as the youngest. The work is constant.
    pub fn push(&mut self, e: RobEntry)
        requires room { has_room self.old e.uops ≡ true }
        requires some { 1 ≤ e.uops }
        ensures { self.new ≡ buffer (self.old.items ++ e ∷ []) self.old.capacity }
    {
        self.held += e.uops as u32;
        self.ring.push_back(e);
    }

    /// The oldest row in flight; none exactly where none is. The work is constant.
    pub fn front(&self) -> Option<RobEntry>
        ensures { result ≡ slice_get self.now.items 0 }
    {
        self.ring.front().copied()
    }

    /// The oldest row leaves, and gives its micro-ops back; none exactly where no row is in flight. The
    /// work is constant.
    pub fn pop_front(&mut self) -> Option<RobEntry>
        ensures value { result ≡ slice_get self.old.items 0 }
        ensures rest { self.new ≡ buffer (drop 1 self.old.items) self.old.capacity }
    {
        let oldest = self.ring.pop_front();
        if let Some(e) = oldest {
            self.held -= e.uops as u32;
        }
        oldest
    }
}
