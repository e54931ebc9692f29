//! The waits of rows for the order of memory, kept until the rows are gone over in issue order.
ghost use Rattle.std.specs.Prelude.{◌≡◌, ◌<◌, ◌≤◌, ◌+◌, ℕ, Option, length, slice_index_or, IfOk, OnOk};
ghost use Rattle.dep_graph.specs.Peaks.{IsWait, IsKept, kept_at};
ghost use Rattle.mca_fixed.specs.declared.limits.TheConstants.{MOST_ROWS};

use crate::waits::Wait;
use mca_fixed::NoMemory;
use std::alloc::Global;

/// The waits of rows for the order of memory. Few rows wait so, and each other row takes four bytes.
#[derive(Drop)]
pub struct MemoryWaits {
    /// For each row in program order, up to the last one that waited, where its wait stands.
    pub places: Vec<u32>,
    /// The waits, in program order, behind that of the rows that did not wait.
    pub waits: Vec<Wait>,
}

// No wait.
fn no_wait() -> Wait
    ensures { result ≡ record { cycles = 0; row = 0 } }
{
    Wait { cycles: 0, row: 0 }
}

impl MemoryWaits {
    /// Before the first of so many rows.
    pub fn none(alloc: Global, rows: usize) -> Result<MemoryWaits, NoMemory>
        ensures { IfOk result (IsKept 0) }
    {
        let places = Vec::with_capacity(alloc, rows)?;
        let mut waits = Vec::new(alloc);
        waits.push(no_wait())?;
        Ok(MemoryWaits { places, waits })
    }

    // Says of the rows up to row j of which nothing is kept that they did not wait.
    fn fill(&mut self, j: usize) -> Result<(), NoMemory>
        requires { length self.old.places.items ≤ j }
        ensures size { OnOk result (length self.new.places.items ≡ j) }
        ensures same { OnOk result ((k : ℕ) → slice_index_or self.new.places.items k 0
            ≡ slice_index_or self.old.places.items k 0) }
        ensures waits { OnOk result (self.new.waits ≡ self.old.waits) }
    {
        while self.places.len() < j {
            self.places.push(0)?;
        }
        Ok(())
    }

    /// Keeps the wait of row j, the next one.
    pub fn keep(&mut self, j: usize, wait: Wait) -> Result<(), NoMemory>
        requires row { j < MOST_ROWS }
        requires kept { IsKept j self.old }
        ensures kept { OnOk result (IsKept (j + 1) self.new) }
        ensures older { OnOk result ((k : ℕ) → k < j → kept_at self.new k ≡ kept_at self.old k) }
        ensures row { OnOk result ((cycles : ℕ) (blamed : Option ℕ) → IsWait cycles blamed wait →
            IsWait cycles blamed (kept_at self.new j)) }
    {
        if wait.cycles == 0 {
            return Ok(());
        }
        self.fill(j)?;
        self.places.push(self.waits.len() as u32)?;
        self.waits.push(wait)?;
        Ok(())
    }

    // Where the wait of a row stands.
    fn place(&self, j: usize) -> usize
        ensures { result ≡ slice_index_or self.now.places.items j 0 }
    {
        if j < self.places.len() {
            return self.places[j] as usize;
        }
        0
    }

    /// The wait of a row.
    pub fn of(&self, row: u32) -> Wait
        ensures { result ≡ kept_at self.now row }
    {
        let place = self.place(row as usize);
        if place < self.waits.len() {
            return self.waits[place];
        }
        no_wait()
    }
}
