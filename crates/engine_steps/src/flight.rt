//! The rows in flight, and the parts of the machine that keep them.
ghost use Rattle.std.specs.Prelude.{◌≡◌, ℕ, IfOk};
ghost use Rattle.engine_state.specs.State.{at};
ghost use Rattle.engine_steps.specs.Ranges.{AreRanges};
ghost use Rattle.engine_steps.specs.Flight.{IsFlight};

use crate::rows::Rows;
use crate::wakeup::Wakeup;
use cycle_rules::{NO_UNIT, Times};
use dispatch_unit::Group;
use issue_queues::Queues;
use machine_model::Machine;
use mca_fixed::NoMemory;
use mem_queues::MemQueues;
use reg_files::Files;
use reorder_buffer::Rob;
use std::alloc::Global;

/// What is recorded of the rows, and the parts that keep those in flight.
#[derive(Drop)]
pub struct Flight {
    /// The times of all rows, with 2^64 - 1 for one that is not known.
    pub table: Vec<Times>,
    /// Which rows in flight are ready to issue, and which wait for a cycle.
    pub wakeup: Wakeup,
    pub group: Group,
    pub rob: Rob,
    pub files: Files,
    pub queues: Queues,
    pub memory: MemQueues,
    /// How many rows have retired.
    pub front: usize,
    /// How many rows have dispatched.
    pub head: usize,
}

/// Before the first cycle: no row is in flight.
pub fn start<M: Machine, R: Rows>(alloc: Global, machine: &M, rows: &R) -> Result<Flight, NoMemory>
    requires machine { M.meaning machine.now ≡ (R.input rows.now).machine }
    requires ranges { AreRanges (R.input rows.now) }
    ensures { IfOk result (λ f. IsFlight (R.input rows.now) f 0 (at (R.input rows.now) 0 0 0)) }
{
    let absent = Times {
        dispatch: u64::MAX,
        issue: u64::MAX,
        complete: u64::MAX,
        retire: u64::MAX,
        units: [NO_UNIT; 8],
    };
    let limits = machine.limits();
    let table = vec![in alloc; absent; rows.count()]?;
    let wakeup = Wakeup::make(alloc)?;
    let rob = Rob::make(alloc, limits.reorder)?;
    let files = Files::make(alloc, machine)?;
    let queues = Queues::make(alloc, machine)?;
    let memory = MemQueues::make(alloc, &limits)?;
    let group = Group::make(limits.width);
    Ok(Flight {
        table,
        wakeup,
        group,
        rob,
        files,
        queues,
        memory,
        front: 0,
        head: 0,
    })
}
