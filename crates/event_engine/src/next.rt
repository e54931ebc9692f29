//! The cycle of the next turn.
ghost use Rattle.std.specs.Prelude.{◌≡◌, ◌<◌, ◌≤◌, ◌+◌, ◌-◌, ◌^◌, ℕ, true, false};
ghost use Rattle.cycle_rules.specs.CycleBound.{cycle_bound};
ghost use Rattle.engine_state.specs.State.{recorded};
ghost use Rattle.engine_steps.specs.Done.{HasDone, IsIdle, Falls, all_retired};
ghost use Rattle.engine_steps.specs.Pipeline.{run_of, IsDone};
ghost use Rattle.event_engine.specs.Turn.{IsBounded, IsTurn, IsNextTurn};
ghost use Rattle.event_engine.specs.Tells.{TellsFall, TellsChange};

use crate::agenda::{earlier, front_time, rows_time};
use engine_steps::{Flight, Pipeline, Rows};
use machine_model::Machine;
use resource_units::Units;

// When a share of the dispatch width falls, from cycle c on.
fn fall_time<M: Machine, R: Rows>(rows: &R, units: &Units<M>, f: &Flight, c: u64) -> Option<u64>
    requires start { 0 < c }
    requires done { HasDone M.meaning M.Mask.holds (R.input rows.now) units.now f.now c }
    requires idle { IsIdle (R.input rows.now) (c - 1) c }
    ensures { TellsFall (R.input rows.now) (recorded (R.input rows.now) f.now.table.items) c
        result }
{
    f.group.changes_at()
}

// When a use gives its unit back, from cycle c on.
fn change_time<M: Machine, R: Rows>(rows: &R, units: &Units<M>, f: &Flight, c: u64) -> Option<u64>
    requires start { 0 < c }
    requires low { c < 2 ^ 42 }
    requires done { HasDone M.meaning M.Mask.holds (R.input rows.now) units.now f.now c }
    ensures { TellsChange (R.input rows.now) (recorded (R.input rows.now) f.now.table.items) c
        result }
{
    units.next_change(c - 1)
}

// The first time from cycle c on at which something can change, where nothing fell in the cycle before.
fn next_time<M: Machine, R: Rows>(rows: &R, units: &Units<M>, f: &Flight, c: u64) -> u64
    requires start { 0 < c }
    requires bounded { IsBounded (R.input rows.now) }
    requires low { c ≤ cycle_bound (R.input rows.now) }
    requires done { HasDone M.meaning M.Mask.holds (R.input rows.now) units.now f.now c }
    requires idle { IsIdle (R.input rows.now) (c - 1) c }
    requires more { all_retired (R.input rows.now) c ≡ false }
    ensures { IsTurn (R.input rows.now) c result }
{
    let shares = fall_time(rows, units, f, c);
    let changes = change_time(rows, units, f, c);
    let front = front_time(rows, f, c);
    let agenda = rows_time(rows, f, c);
    match earlier(earlier(shares, changes), earlier(front, agenda)) {
        Some(x) => x,
        None => unreachable!(),
    }
}

// The next turn after one at cycle c, where not all rows have retired.
fn turn_after<M: Machine>(pipeline: &Pipeline<M>, event: bool, c: u64) -> u64
    requires bounded { IsBounded (run_of M.meaning pipeline.now) }
    requires low { c < cycle_bound (run_of M.meaning pipeline.now) }
    requires done { IsDone M.meaning M.Mask.holds pipeline.now (c + 1) }
    requires event { event ≡ true → Falls (run_of M.meaning pipeline.now) c }
    requires none { event ≡ false → IsIdle (run_of M.meaning pipeline.now) c (c + 1) }
    requires more { all_retired (run_of M.meaning pipeline.now) (c + 1) ≡ false }
    ensures { IsTurn (run_of M.meaning pipeline.now) (c + 1) result }
{
    if event {
        return c + 1;
    }
    next_time(&pipeline.rows, &pipeline.units, &pipeline.flight, c + 1)
}

/// The next turn after one at cycle c, in which an event fell or did not; `None` where all rows have
/// retired.
pub fn next_turn<M: Machine>(pipeline: &Pipeline<M>, event: bool, c: u64) -> Option<u64>
    requires bounded { IsBounded (run_of M.meaning pipeline.now) }
    requires low { c < cycle_bound (run_of M.meaning pipeline.now) }
    requires done { IsDone M.meaning M.Mask.holds pipeline.now (c + 1) }
    requires event { event ≡ true → Falls (run_of M.meaning pipeline.now) c }
    requires none { event ≡ false → IsIdle (run_of M.meaning pipeline.now) c (c + 1) }
    ensures { IsNextTurn (run_of M.meaning pipeline.now) (c + 1) result }
{
    if pipeline.is_over() {
        return None;
    }
    Some(turn_after(pipeline, event, c))
}

/// The first turn; `None` where there are no rows.
pub fn first_turn<M: Machine>(pipeline: &Pipeline<M>) -> Option<u64>
    requires done { IsDone M.meaning M.Mask.holds pipeline.now 0 }
    ensures { IsNextTurn (run_of M.meaning pipeline.now) 0 result }
{
    if pipeline.is_over() {
        return None;
    }
    Some(0)
}
