//! What one walk over the rows of a run in program order tells.
ghost use Rattle.std.specs.Prelude.{◌≡◌, IfOk};
ghost use Rattle.cycle_rules.specs.Row.{times};
ghost use Rattle.dep_graph.specs.Peaks.{AreKept, HaveLinks};
ghost use Rattle.dep_graph.specs.Turns.{AreSlots};
ghost use Rattle.dep_graph.specs.Walk.{IsSoundRun, sums_of};

use crate::counts::Counts;
use crate::memory::Fences;
use crate::memory_waits::MemoryWaits;
use crate::order::slot;
use crate::rows::Rows;
use crate::waits::pass;
use crate::walk::Walk;
use cycle_rules::Links;
use mca_fixed::NoMemory;
use std::alloc::Global;

/// What is told of all rows.
#[derive(Drop)]
pub struct Passed {
    /// The slot in which each row issues.
    pub slots: Vec<u64>,
    /// Their waits for the order of memory.
    pub memory: MemoryWaits,
    /// The stalls of dispatch.
    pub stalls: Counts,
}

/// Lets all rows go by, once: to read the times of a long run takes as long as what is done with them.
pub fn pass_all<R: Rows>(alloc: Global, rows: &R, links: &[Links]) -> Result<Passed, NoMemory>
    requires run { IsSoundRun (R.input rows.now) (R.table rows.now) }
    requires links { HaveLinks (R.input rows.now) (R.size rows.now) links.now }
    ensures slots { IfOk result (λ passed. AreSlots (R.input rows.now) (times (R.table rows.now))
        passed.slots.items) }
    ensures memory { IfOk result (λ passed. AreKept (R.input rows.now) (times (R.table rows.now))
        (R.input rows.now).rows passed.memory) }
    ensures stalls { IfOk result (λ passed. passed.stalls ≡ sums_of (R.input rows.now)
        (times (R.table rows.now)) (R.input rows.now).rows) }
{
    let mut slots = Vec::with_capacity(alloc, rows.count())?;
    let mut fences = Fences::none();
    let mut memory = MemoryWaits::none(alloc, rows.count())?;
    let mut walk = Walk::empty();
    let mut stalls = Counts::none();
    for j in 0..rows.count() {
        let slot = slot(rows, j);
        slots.push(slot)?;
        memory.keep(j, pass(rows, links, &mut fences, slot, j))?;
        walk.pass(rows, j, &mut stalls);
    }
    Ok(Passed {
        slots,
        memory,
        stalls,
    })
}
