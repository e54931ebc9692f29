//! The waits of rows for values and for the order of memory.
ghost use Rattle.std.specs.Prelude.{◌≡◌, ◌<◌, ◌+◌, ◌-◌, ◌*◌, ◌^◌, ℕ, Bool, if◌then◌else◌};
ghost use Rattle.cycle_rules.specs.Bind.{row_of};
ghost use Rattle.cycle_rules.specs.Row.{times};
ghost use Rattle.cycle_rules.specs.Waits.{register_wait, memory_wait};
ghost use Rattle.dep_graph.specs.Blamed.{register_blamed, memory_blamed};
ghost use Rattle.dep_graph.specs.Peaks.{AreFences, HaveLinks, IsWait};
ghost use Rattle.dep_graph.specs.Turns.{slot_of};
ghost use Rattle.dep_graph.specs.Walk.{IsSoundRun};

use crate::memory::Fences;
use crate::peak::Peak;
use crate::reads::late;
use crate::rows::Rows;
use cycle_rules::{Bound, Links, Times};

/// A wait in cycles, and the row that is blamed for it, where it is above 0.
#[derive(Clone, Copy, Debug)]
pub struct Wait {
    pub cycles: u64,
    pub row: u32,
}

/// What a row waited for before it waited for units.
#[derive(Clone, Copy, Debug)]
pub struct Waits {
    pub register: Wait,
    pub memory: Wait,
}

/// The waits of a row.
#[derive(Clone, Copy, Debug)]
pub struct RowWaits {
    pub before: Waits,
    /// For how many cycles it waited for units after that.
    pub units: u64,
}

/// The first cycle in which a row may issue at all, by the slot in which it issues: a reserved row, to
/// which a second slot belongs, as it dispatches, and others in the cycle after.
pub fn earliest(dispatch: u64, slot: u64) -> u64
    requires { dispatch < 2 ^ 42 }
    ensures { (cycle : ℕ) (reserved : Bool) → slot ≡ 2 * cycle + (if reserved then 1 else 0) →
        result ≡ (if reserved then dispatch else dispatch + 1) }
{
    dispatch + 1 - slot % 2
}

// What is waited from one cycle on until what comes last.
fn until(from: u64, last: Peak) -> Wait
    ensures cycles { result.cycles ≡ last.time - from }
    ensures row { result.row ≡ last.row }
{
    Wait {
        cycles: last.time.saturating_sub(from),
        row: last.row,
    }
}

/// The wait of row j for the values that it reads, by the slot in which it issues.
pub fn register_wait<R: Rows>(rows: &R, links: &[Links], slot: u64, j: usize) -> Wait
    requires run { IsSoundRun (R.input rows.now) (R.table rows.now) }
    requires links { HaveLinks (R.input rows.now) (R.size rows.now) links.now }
    requires row { j < (R.input rows.now).rows }
    requires slot { slot ≡ slot_of (R.input rows.now) (times (R.table rows.now)) j }
    ensures { IsWait (register_wait (R.input rows.now) (times (R.table rows.now)) j)
        (register_blamed (R.input rows.now) (times (R.table rows.now)) j) result }
{
    let from = earliest(rows.times(j).dispatch, slot);
    until(from, late(rows, links, j))
}

// The wait of row j, which is a bound instruction, for the order of memory, by its times, the slot in
// which it issues, and when the older rows let it go.
fn memory_wait<R: Rows>(
    rows: &R,
    links: &[Links],
    fences: &Fences,
    b: &Bound,
    at: &Times,
    slot: u64,
    j: usize,
) -> Wait
    requires run { IsSoundRun (R.input rows.now) (R.table rows.now) }
    requires links { HaveLinks (R.input rows.now) (R.size rows.now) links.now }
    requires row { j < (R.input rows.now).rows }
    requires fences { AreFences (R.input rows.now) (times (R.table rows.now)) j fences.now }
    requires instruction { row_of b.now ≡ (R.input rows.now).row j }
    requires at { at.now ≡ times (R.table rows.now) j }
    requires slot { slot ≡ slot_of (R.input rows.now) (times (R.table rows.now)) j }
    ensures { IsWait (memory_wait (R.input rows.now) (times (R.table rows.now)) j)
        (memory_blamed (R.input rows.now) (times (R.table rows.now)) j) result }
{
    let fence = fences.of_kind(b.kind);
    if fence.time == 0 {
        return until(0, fence);
    }
    let register = register_wait(rows, links, slot, j);
    until(earliest(at.dispatch, slot) + register.cycles, fence)
}

/// Lets row j go by, which issues in a slot, and gives its wait for the order of memory.
pub fn pass<R: Rows>(rows: &R, links: &[Links], fences: &mut Fences, slot: u64, j: usize) -> Wait
    requires run { IsSoundRun (R.input rows.now) (R.table rows.now) }
    requires links { HaveLinks (R.input rows.now) (R.size rows.now) links.now }
    requires row { j < (R.input rows.now).rows }
    requires slot { slot ≡ slot_of (R.input rows.now) (times (R.table rows.now)) j }
    requires fences { AreFences (R.input rows.now) (times (R.table rows.now)) j fences.old }
    ensures fences { AreFences (R.input rows.now) (times (R.table rows.now)) (j + 1) fences.new }
    ensures wait { IsWait (memory_wait (R.input rows.now) (times (R.table rows.now)) j)
        (memory_blamed (R.input rows.now) (times (R.table rows.now)) j) result }
{
    let b = rows.instruction(j);
    let at = rows.times(j);
    let wait = memory_wait(rows, links, fences, b, at, slot, j);
    let no_alias = rows.limits().no_alias;
    fences.pass(j as u32, b.kind, no_alias, at.issue, at.complete);
    wait
}
