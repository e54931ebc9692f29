//! The run, cycle by cycle until all rows have retired.
ghost use Rattle.std.specs.Prelude.{◌≡◌, ◌<◌, ◌≤◌, ◌*◌, ◌^◌, ℕ, length, map, true, IfOk};
ghost use Rattle.cycle_rules.specs.Bind.{row_of, IsBoundBody};
ghost use Rattle.cycle_rules.specs.CycleBound.{cycle_bound};
ghost use Rattle.cycle_rules.specs.Row.{input};
ghost use Rattle.cycle_rules.specs.Run.{IsRun, total_of};
ghost use Rattle.cycle_rules.specs.Events.{retired_below};
ghost use Rattle.engine_state.specs.InTurn.{IssuesInTurn};
ghost use Rattle.engine_steps.specs.Done.{all_retired};
ghost use Rattle.engine_steps.specs.Pipeline.{run_of, IsDone};

use cycle_rules::{Bound, Timeline};
use engine_steps::Pipeline;
use machine_model::Machine;
use mca_fixed::{MOST_ROWS, NoMemory};
use std::alloc::Global;

/// A cycle before which all rows of every run retire.
const LAST_CYCLE: u64 = 1 << 41;

/// Why there is no run.
#[derive(Clone, Copy, Debug, PartialEq, Eq)]
pub enum PlainFault {
    /// No memory was to be had.
    Memory,
}

impl From<NoMemory> for PlainFault {
    fn from(_: NoMemory) -> PlainFault {
        PlainFault::Memory
    }
}

/// The engine that goes over a run cycle by cycle, and in each over the rows in flight.
pub struct PlainEngine;

impl PlainEngine {
    /// The run of a body on a machine, repeated `iterations` times, 1 or more: the one table of times that
    /// the rules give. The body is bound by the machine and not empty, and the run has at most 1,048,576
    /// rows. All rows retire within the cycle bound of the run, and those that share a buffer of one entry
    /// issue in program order.
    ///
    /// A cycle's work grows with the rows in flight, and not with those that have retired.
    ///
    /// # Errors
    ///
    /// Want of memory.
    pub fn run<M: Machine>(
        alloc: Global,
        machine: &M,
        body: &[Bound],
        iterations: u32,
    ) -> Result<Timeline, PlainFault>
        requires bound { IsBoundBody (M.meaning machine.now) body.now }
        requires some { 0 < length body.now }
        requires iterations { 1 ≤ iterations }
        requires rows { iterations * length body.now ≤ MOST_ROWS }
        ensures run { IfOk result (λ t. IsRun (M.meaning machine.now)
            (map row_of body.now) iterations t.rows) }
        ensures bound { IfOk result (λ t. total_of t.rows
            ≤ cycle_bound (input (M.meaning machine.now) (map row_of body.now) iterations)) }
        ensures order { IfOk result (λ t. IssuesInTurn
            (input (M.meaning machine.now) (map row_of body.now) iterations) t.rows) }
    {
        let mut pipeline = Pipeline::make(alloc, machine, body, iterations)?;
        cycles(&mut pipeline);
        Ok(pipeline.finish())
    }
}

// The cycles of a run, until all rows have retired.
fn cycles<M: Machine>(pipeline: &mut Pipeline<M>)
    requires done { IsDone M.meaning M.Mask.holds pipeline.old 0 }
    requires ends { (run_of M.meaning pipeline.old).rows
        ≤ retired_below (run_of M.meaning pipeline.old) (2 ^ 41) }
    ensures run { run_of M.meaning pipeline.new ≡ run_of M.meaning pipeline.old }
    ensures done { (c : ℕ) × (IsDone M.meaning M.Mask.holds pipeline.new c)
        × (all_retired (run_of M.meaning pipeline.new) c ≡ true) }
{
    for c in 0..LAST_CYCLE {
        if pipeline.is_over() {
            return;
        }
        pipeline.turn(c);
    }
}
