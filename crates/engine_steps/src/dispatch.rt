//! The dispatches of a cycle: the rows that come next, as long as they fit.
ghost use Rattle.std.specs.Prelude.{◌≡◌, ◌<◌, ◌≤◌, ◌+◌, ◌^◌, ℕ, List, length, [], ◌∷◌, ◌++◌, true, false, ◌&&◌, nat_lt, if◌then◌else◌};
ghost use Rattle.machine_model.specs.Meaning.{MachineMeaning};
ghost use Rattle.machine_model.specs.declared.limits.Limits.{Limits as LimitsOf};
ghost use Rattle.issue_queues.specs.Waiting.{Waiting as WaitingOf, has_entries, are_below as rows_are_below};
ghost use Rattle.issue_queues.specs.Queues.{StandsFor as QueuesStandFor, IsNaming, named};
ghost use Rattle.mem_queues.specs.Order.{MemRow, is_plain, kind_of, may_go, waits, with_issue};
ghost use Rattle.mem_queues.specs.Queues.{StandsFor as MemoryStandsFor};
ghost use Rattle.cycle_rules.specs.Dispatch.{can_dispatch};
ghost use Rattle.cycle_rules.specs.Pick.{taken_by};
ghost use Rattle.engine_state.specs.State.{now, at, taken_now};
ghost use Rattle.engine_state.specs.Writes.{IsDispatched};
ghost use Rattle.resource_units.specs.Stand.{StandsFor as UnitsStandFor, machine_of};
ghost use Rattle.engine_steps.specs.Others.{enters};
ghost use Rattle.engine_steps.specs.Done.{Falls};
ghost use Rattle.engine_steps.specs.Flight.{IsFlight};

use crate::flight::Flight;
use crate::issue::starts_now;
use crate::memory::{enter_memory, issue_memory};
use crate::rows::Rows;
use crate::wakeup::settle;
use cycle_rules::{Bound, Times};
use issue_queues::Queues;
use machine_model::Machine;
use mem_queues::MemQueues;
use reorder_buffer::RobEntry;
use resource_units::Units;

/// The dispatches of a cycle, which end it, and whether there were any.
pub fn dispatch_rows<M: Machine, R: Rows>(
    rows: &R,
    units: &mut Units<M>,
    f: &mut Flight,
    c: u64,
) -> bool
    requires low { c < 2 ^ 42 }
    requires machine { machine_of M.meaning units.old ≡ (R.input rows.now).machine }
    requires units { UnitsStandFor M.meaning M.Mask.holds c units.old (taken_now
        (R.input rows.now) c f.old.table.items) }
    requires flight { IsFlight (R.input rows.now) f.old c (at (R.input rows.now) c 2 0) }
    ensures flight { IsFlight (R.input rows.now) f.new c (at (R.input rows.now) (c + 1) 0 0) }
    ensures units { UnitsStandFor M.meaning M.Mask.holds c units.new (taken_now
        (R.input rows.now) c f.new.table.items) }
    ensures machine { machine_of M.meaning units.new ≡ (R.input rows.now).machine }
    ensures event { result ≡ true → Falls (R.input rows.now) c }
    ensures none { result ≡ false → f.new.table.items ≡ f.old.table.items }
{
    let mut any = false;
    while dispatches_now(rows, units, f, c) {
        dispatch_head(rows, units, f, c);
        any = true;
    }
    any
}

// Whether there is a next row and it dispatches.
fn dispatches_now<M: Machine, R: Rows>(rows: &R, units: &Units<M>, f: &Flight, c: u64) -> bool
    requires machine { machine_of M.meaning units.now ≡ (R.input rows.now).machine }
    requires units { UnitsStandFor M.meaning M.Mask.holds c units.now (taken_now
        (R.input rows.now) c f.now.table.items) }
    requires flight { IsFlight (R.input rows.now) f.now c (at (R.input rows.now) c 2 f.now.head) }
    ensures { result ≡ (nat_lt f.now.head (R.input rows.now).rows
        && can_dispatch (R.input rows.now) (now
        (R.input rows.now) c f.now.table.items) f.now.head c) }
{
    if f.head >= rows.count() {
        return false;
    }
    fits_now(rows, units, f, c)
}

// Whether the next row fits: all parts have room for it, and it can start where it is reserved.
fn fits_now<M: Machine, R: Rows>(rows: &R, units: &Units<M>, f: &Flight, c: u64) -> bool
    requires row { f.now.head < (R.input rows.now).rows }
    requires machine { machine_of M.meaning units.now ≡ (R.input rows.now).machine }
    requires units { UnitsStandFor M.meaning M.Mask.holds c units.now (taken_now
        (R.input rows.now) c f.now.table.items) }
    requires flight { IsFlight (R.input rows.now) f.now c (at (R.input rows.now) c 2 f.now.head) }
    ensures { result ≡ can_dispatch (R.input rows.now) (now
        (R.input rows.now) c f.now.table.items) f.now.head c }
{
    let j = f.head;
    let b = rows.instruction(j);
    let uops = rows.uops(j);
    let group = f.group.room(uops, b.begins_group);
    let rob = f.rob.room(uops);
    let files = f.files.has_room(b.rd);
    let memory = f.memory.has_room(b.kind);
    let issues = enters_now(rows, units, f, c);
    all(group, rob, files, memory, issues)
}

// Whether all five are told.
fn all(group: bool, rob: bool, files: bool, memory: bool, issues: bool) -> bool
    ensures { result ≡ (group && rob && files && memory && issues) }
{
    group && rob && files && memory && issues
}

// Whether the next row has entries of the buffers of its resources; a reserved row needs none, but must be
// able to start.
fn enters_now<M: Machine, R: Rows>(rows: &R, units: &Units<M>, f: &Flight, c: u64) -> bool
    requires row { f.now.head < (R.input rows.now).rows }
    requires machine { machine_of M.meaning units.now ≡ (R.input rows.now).machine }
    requires units { UnitsStandFor M.meaning M.Mask.holds c units.now (taken_now
        (R.input rows.now) c f.now.table.items) }
    requires flight { IsFlight (R.input rows.now) f.now c (at (R.input rows.now) c 2 f.now.head) }
    ensures { result ≡ enters (R.input rows.now) (now
        (R.input rows.now) c f.now.table.items) f.now.head c }
{
    let b = rows.instruction(f.head);
    let reserved = b.reserved;
    if reserved {
        let memory = f.memory.may_enter(f.head as u32, b.kind, c);
        return starts_now(rows, units, f, f.head, c, memory);
    }
    f.queues.has_entry(b)
}

// The next row dispatches.
fn dispatch_head<M: Machine, R: Rows>(rows: &R, units: &mut Units<M>, f: &mut Flight, c: u64)
    requires low { c < 2 ^ 42 }
    requires row { f.old.head < (R.input rows.now).rows }
    requires machine { machine_of M.meaning units.old ≡ (R.input rows.now).machine }
    requires units { UnitsStandFor M.meaning M.Mask.holds c units.old (taken_now
        (R.input rows.now) c f.old.table.items) }
    requires flight { IsFlight (R.input rows.now) f.old c (at (R.input rows.now) c 2 f.old.head) }
    requires may { can_dispatch (R.input rows.now) (now
        (R.input rows.now) c f.old.table.items) f.old.head c ≡ true }
    ensures flight { IsFlight (R.input rows.now) f.new c (at (R.input rows.now) c 2
        (f.old.head + 1)) }
    ensures units { UnitsStandFor M.meaning M.Mask.holds c units.new (taken_now
        (R.input rows.now) c f.new.table.items) }
    ensures machine { machine_of M.meaning units.new ≡ (R.input rows.now).machine }
    ensures front { f.new.front ≡ f.old.front }
    ensures head { f.new.head ≡ f.old.head + 1 }
    ensures event { Falls (R.input rows.now) c }
{
    let j = f.head;
    let b = rows.instruction(j);
    let uops = rows.uops(j);
    let row = dispatched(rows, units, f, c);
    let complete = row.complete;
    f.table[j] = row;
    f.group.place(uops, b.ends_group);
    f.rob.push(RobEntry {
        row: j as u32,
        uops,
    });
    f.files.take(b.rd);
    enter_memory(&mut f.memory, b.kind, j as u32);
    wait_or_issue(&mut f.queues, &mut f.memory, b, j as u32, c, complete);
    f.head = j + 1;
    settle(rows, &f.table, &mut f.wakeup, j, c);
}

// A row that has entered the memory queues waits to issue; one that is reserved issues, and completes in a
// cycle.
fn wait_or_issue(
    queues: &mut Queues,
    memory: &mut MemQueues,
    b: &Bound,
    row: u32,
    c: u64,
    complete: u64,
)
    requires queues { (m : MachineMeaning) × (rows : List WaitingOf) ×
        (QueuesStandFor m queues.old rows)
        × (IsNaming m b.now) × (b.now.reserved ≡ false → has_entries m rows (named b.now) ≡ true)
        × (length rows < m.limits.reorder) × (rows_are_below row rows ≡ true) }
    requires memory { (limits : LimitsOf) × (since : ℕ) × (rows : List MemRow)
        × (MemoryStandsFor limits memory.old since rows) × (since ≤ c)
        × (is_plain b.now.kind ≡ false → waits row rows ≡ true)
        × (b.now.reserved ≡ true → may_go (kind_of row rows) limits.no_alias row c rows ≡ true) }
    ensures queues { (m : MachineMeaning) (rows : List WaitingOf) →
        QueuesStandFor m queues.old rows →
        IsNaming m b.now → length rows < m.limits.reorder → rows_are_below row rows ≡ true →
        QueuesStandFor m queues.new (if b.now.reserved then rows
        else rows ++ record { row = row; uses = named b.now; ready = false } ∷ []) }
    ensures memory { (limits : LimitsOf) (since : ℕ) (rows : List MemRow) →
        MemoryStandsFor limits memory.old since rows → since ≤ c →
        (is_plain b.now.kind ≡ false → waits row rows ≡ true) →
        (b.now.reserved ≡ true → may_go (kind_of row rows) limits.no_alias row c rows ≡ true) →
        MemoryStandsFor limits memory.new since (if b.now.reserved
        then (if is_plain b.now.kind then rows else with_issue row complete rows) else rows) }
{
    let reserved = b.reserved;
    if reserved {
        issue_memory(memory, b.kind, row, c, complete);
        return;
    }
    queues.enter(row, b, false);
}

// The next row as it dispatches, with the units that it takes where it is reserved.
fn dispatched<M: Machine, R: Rows>(rows: &R, units: &mut Units<M>, f: &Flight, c: u64) -> Times
    requires low { c < 2 ^ 42 }
    requires row { f.now.head < (R.input rows.now).rows }
    requires machine { machine_of M.meaning units.old ≡ (R.input rows.now).machine }
    requires units { UnitsStandFor M.meaning M.Mask.holds c units.old (taken_now
        (R.input rows.now) c f.now.table.items) }
    requires flight { IsFlight (R.input rows.now) f.now c (at (R.input rows.now) c 2 f.now.head) }
    requires may { can_dispatch (R.input rows.now) (now
        (R.input rows.now) c f.now.table.items) f.now.head c ≡ true }
    ensures row { IsDispatched (R.input rows.now) f.now.table.items f.now.head c result }
    ensures units { UnitsStandFor M.meaning M.Mask.holds c units.new
        (taken_now (R.input rows.now) c f.now.table.items ++ (if
        ((R.input rows.now).row f.now.head).reserved
        then taken_by c ((R.input rows.now).row f.now.head).uses result.units else [])) }
    ensures machine { machine_of M.meaning units.new ≡ (R.input rows.now).machine }
{
    let b = rows.instruction(f.head);
    let row = f.table[f.head];
    let reserved = b.reserved;
    if !reserved {
        return Times { dispatch: c, ..row };
    }
    let taken = units.take(b, c);
    Times {
        dispatch: c,
        issue: c,
        complete: c + b.latency as u64,
        retire: row.retire,
        units: taken,
    }
}
