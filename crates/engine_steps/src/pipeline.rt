//! A machine with the rows of a run on it, cycle by cycle.
ghost use Rattle.std.specs.Prelude.{◌≡◌, ◌<◌, ◌≤◌, ◌+◌, ◌^◌, ℕ, true, false, ◌||◌};
ghost use Rattle.cycle_rules.specs.Row.{Input};
ghost use Rattle.engine_state.specs.State.{at};
ghost use Rattle.engine_steps.specs.Done.{AreParts, HasDone, IsIdle, Falls, all_retired};

use crate::dispatch::dispatch_rows;
use crate::flight::{Flight, start};
use crate::issue::issue_rows;
use crate::plan::Plan;
use crate::retire::retire_rows;
use crate::rows::Rows;
use crate::wakeup::wake_rows;
use cycle_rules::{Bound, Timeline};
use machine_model::Machine;
use mca_fixed::{Items, NoMemory};
use resource_units::Units;
use std::alloc::Global;

/// A machine, the rows that run on it, and what is recorded of them.
#[derive(Drop)]
pub struct Pipeline<'a, M: Machine> {
    /// The rows: a body, repeated.
    pub rows: Plan<'a, M>,
    /// The units of the machine's resources.
    pub units: Units<'a, M>,
    /// The times that are recorded, and the other parts of the machine.
    pub flight: Flight,
}

// The parts go on to cycle c, before which nothing falls any more.
fn advance<M: Machine, R: Rows>(rows: &R, units: &mut Units<M>, f: &mut Flight, c: u64)
    requires low { c < 2 ^ 42 }
    requires done { (n : ℕ) × (n ≤ c) × (IsIdle (R.input rows.now) n c)
        × (HasDone M.meaning M.Mask.holds (R.input rows.now) units.old f.old n) }
    ensures parts { AreParts M.meaning M.Mask.holds (R.input rows.now) units.new f.new c (at
        (R.input rows.now) c 0 0) }
    ensures table { f.new.table.items ≡ f.old.table.items }
{
    if c > 0 {
        f.group.next_cycle(c);
        units.release_until(c);
        wake_rows(rows, &f.table, &mut f.wakeup, f.front, c);
    }
}

// The events of cycle c, and whether there were any.
fn turn<M: Machine, R: Rows>(rows: &R, units: &mut Units<M>, f: &mut Flight, c: u64) -> bool
    requires low { c < 2 ^ 42 }
    requires done { (n : ℕ) × (n ≤ c) × (IsIdle (R.input rows.now) n c)
        × (HasDone M.meaning M.Mask.holds (R.input rows.now) units.old f.old n) }
    ensures done { HasDone M.meaning M.Mask.holds (R.input rows.now) units.new f.new (c + 1) }
    ensures event { result ≡ true → Falls (R.input rows.now) c }
    ensures none { result ≡ false → IsIdle (R.input rows.now) c (c + 1) }
{
    advance(rows, units, f, c);
    let retired = retire_rows(rows, f, c);
    let issued = issue_rows(rows, units, f, c);
    let dispatched = dispatch_rows(rows, units, f, c);
    any(retired, issued, dispatched)
}

// Whether one of the three is told.
fn any(retired: bool, issued: bool, dispatched: bool) -> bool
    ensures { result ≡ (retired || issued || dispatched) }
{
    retired || issued || dispatched
}

// Whether all rows have retired.
fn is_over<M: Machine, R: Rows>(rows: &R, units: &Units<M>, f: &Flight) -> bool
    ensures { (n : ℕ) → HasDone M.meaning M.Mask.holds (R.input rows.now) units.now f.now n →
        result ≡ all_retired (R.input rows.now) n }
{
    f.front >= rows.count()
}

impl<'a, M: Machine> Pipeline<'a, M> {
    ghost use Rattle.std.specs.Prelude.{◌≡◌, ◌<◌, ◌≤◌, ◌+◌, ◌*◌, ◌^◌, ℕ, length, map, true, false, IfOk};
    ghost use Rattle.cycle_rules.specs.Bind.{row_of, IsBoundBody};
    ghost use Rattle.cycle_rules.specs.CycleBound.{cycle_bound};
    ghost use Rattle.cycle_rules.specs.Row.{input};
    ghost use Rattle.cycle_rules.specs.Run.{IsRunOf};
    ghost use Rattle.mca_fixed.specs.declared.limits.TheConstants.{MOST_ROWS};
    ghost use Rattle.engine_steps.specs.Done.{IsIdle, Falls, all_retired};
    ghost use Rattle.engine_steps.specs.Pipeline.{run_of, IsDone};

    /// The run of a body on a machine, repeated `iterations` times, 1 or more, before its first cycle. The
    /// body is bound by the machine and not empty, and the run has at most 1,048,576 rows. It takes all the
    /// memory that the run needs.
    ///
    /// # Errors
    ///
    /// Want of memory.
    pub fn make(
        alloc: Global,
        machine: &'a M,
        body: &'a [Bound],
        iterations: u32,
    ) -> Result<Pipeline<'a, M>, NoMemory>
        requires bound { IsBoundBody (M.meaning machine.now) body.now }
        requires some { 0 < length body.now }
        requires iterations { 1 ≤ iterations }
        requires rows { iterations * length body.now ≤ MOST_ROWS }
        ensures run { IfOk result (λ p. run_of M.meaning p
            ≡ input (M.meaning machine.entry.now) (map row_of body.entry.now) iterations) }
        ensures done { IfOk result (λ p. IsDone M.meaning M.Mask.holds p 0) }
    {
        let rows = Plan::make(alloc, machine, body, iterations)?;
        let units = Units::make(alloc, machine)?;
        let flight = start(alloc, machine, &rows)?;
        Ok(Pipeline {
            rows,
            units,
            flight,
        })
    }

    /// All events of cycle `c`, where no event falls any more before it; and whether there were any. It
    /// takes no memory. The work grows with the rows that are ready to issue, that wake up, or that have an
    /// event in the cycle.
    pub fn turn(&mut self, c: u64) -> bool
        requires low { c < 2 ^ 42 }
        requires done { (n : ℕ) × (n ≤ c) × (IsIdle (run_of M.meaning self.old) n c)
            × (IsDone M.meaning M.Mask.holds self.old n) }
        ensures run { run_of M.meaning self.new ≡ run_of M.meaning self.old }
        ensures done { IsDone M.meaning M.Mask.holds self.new (c + 1) }
        ensures event { result ≡ true → Falls (run_of M.meaning self.old) c }
        ensures none { result ≡ false → IsIdle (run_of M.meaning self.old) c (c + 1) }
    {
        turn(&self.rows, &mut self.units, &mut self.flight, c)
    }

    /// Whether all rows have retired. The work is constant.
    pub fn is_over(&self) -> bool
        ensures { (n : ℕ) → IsDone M.meaning M.Mask.holds self.now n →
            result ≡ all_retired (run_of M.meaning self.now) n }
    {
        is_over(&self.rows, &self.units, &self.flight)
    }

    /// What is recorded, when all rows have retired.
    pub fn finish(self) -> Timeline
        requires { (n : ℕ) × (IsDone M.meaning M.Mask.holds self n)
            × (all_retired (run_of M.meaning self) n ≡ true) }
        ensures { IsRunOf (run_of M.meaning self.entry) result.rows }
    {
        let Pipeline { flight, .. } = self;
        let Flight { table, .. } = flight;
        Timeline {
            rows: Items::from_vec(table),
        }
    }
}
