//! When the rows in flight tell that something can change.
ghost use Rattle.std.specs.Prelude.{◌≡◌, ◌<◌, ◌-◌, ◌^◌};
ghost use Rattle.cycle_rules.specs.Row.{times};
ghost use Rattle.engine_state.specs.State.{never, recorded, at};
ghost use Rattle.engine_steps.specs.Flight.{IsFlight};
ghost use Rattle.event_engine.specs.Tells.{earlier, coming, after_completion, TellsHead, TellsFront, TellsAgenda};

use engine_steps::{Flight, Rows};

/// The earlier of two cycles, where there are any.
pub fn earlier(a: Option<u64>, b: Option<u64>) -> Option<u64>
    ensures { result ≡ earlier a b }
{
    match (a, b) {
        (None, b) => b,
        (Some(a), None) => Some(a),
        (Some(a), Some(b)) => Some(a.min(b)),
    }
}

// A time, where it does not lie before cycle c.
fn coming(time: Option<u64>, c: u64) -> Option<u64>
    ensures { result ≡ coming c time }
{
    match time {
        None => None,
        Some(x) => { if x < c { None } else { Some(x) } }
    }
}

// The cycle after a completion, where the row has issued.
fn after_completion(issue: u64, complete: u64) -> Option<u64>
    requires { (issue ≡ never → ⊥) → complete < 2 ^ 63 }
    ensures { result ≡ after_completion issue complete }
{
    if issue == u64::MAX {
        return None;
    }
    Some(complete + 1)
}

/// When the oldest row in flight has completed, if it has issued: a cycle from c on.
pub fn front_time<R: Rows>(rows: &R, f: &Flight, c: u64) -> Option<u64>
    requires start { 0 < c }
    requires low { c < 2 ^ 42 }
    requires more { f.now.front < (R.input rows.now).rows }
    requires flight { IsFlight (R.input rows.now) f.now (c - 1) (at (R.input rows.now) c 0 0) }
    ensures { TellsFront (R.input rows.now) (recorded (R.input rows.now) f.now.table.items) c
        result }
{
    let row = f.table[f.front];
    coming(after_completion(row.issue, row.complete), c)
}

// When the operands of the row that dispatches next are there, where it is reserved: others wait for
// nothing before they have dispatched.
fn head_time<R: Rows>(rows: &R, f: &Flight, c: u64) -> Option<u64>
    requires low { c < 2 ^ 42 }
    requires flight { IsFlight (R.input rows.now) f.now (c - 1) (at (R.input rows.now) c 0 0) }
    ensures { TellsHead (R.input rows.now) (recorded (R.input rows.now) f.now.table.items)
        f.now.head result }
{
    if f.head >= rows.count() {
        return None;
    }
    let reserved = rows.instruction(f.head).reserved;
    if !reserved {
        return None;
    }
    rows.ready_from(&f.table, f.head)
}

/// The first of the times of the rows in flight, and of the row that dispatches next, from cycle c on.
pub fn rows_time<R: Rows>(rows: &R, f: &Flight, c: u64) -> Option<u64>
    requires start { 0 < c }
    requires low { c < 2 ^ 42 }
    requires flight { IsFlight (R.input rows.now) f.now (c - 1) (at (R.input rows.now) c 0 0) }
    ensures { TellsAgenda (R.input rows.now) (recorded (R.input rows.now) f.now.table.items) c
        result }
{
    let first = f.wakeup.agenda.first();
    earlier(first, coming(head_time(rows, f, c), c))
}
