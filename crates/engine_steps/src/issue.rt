//! The issues of a cycle: the rows that are ready are tried in age order.
ghost use Rattle.std.specs.Prelude.{◌≡◌, ◌<◌, ◌≤◌, ◌+◌, ◌^◌, ℕ, List, ◌++◌, true, false, ◌&&◌, ◌||◌};
ghost use Rattle.cycle_rules.specs.Row.{times};
ghost use Rattle.cycle_rules.specs.Pick.{Taken};
ghost use Rattle.cycle_rules.specs.Issue.{may_access, can_start, can_issue};
ghost use Rattle.engine_state.specs.State.{never, now, at, taken_now};
ghost use Rattle.resource_units.specs.Stand.{StandsFor as UnitsStandFor, machine_of};
ghost use Rattle.engine_steps.specs.Done.{Falls};
ghost use Rattle.engine_steps.specs.Refused.{AreRefused};
ghost use Rattle.engine_steps.specs.Flight.{IsFlight};

use crate::flight::Flight;
use crate::memory::{issue_memory, may_access};
use crate::refused::refuse;
use crate::rows::Rows;
use crate::wakeup::wake_readers;
use cycle_rules::Times;
use machine_model::Machine;
use resource_units::Units;
use unit_sets::UnitMask;

/// The issues of a cycle of rows that are not reserved, and whether there were any.
pub fn issue_rows<M: Machine, R: Rows>(
    rows: &R,
    units: &mut Units<M>,
    f: &mut Flight,
    c: u64,
) -> bool
    requires low { c < 2 ^ 42 }
    requires machine { machine_of M.meaning units.old ≡ (R.input rows.now).machine }
    requires units { UnitsStandFor M.meaning M.Mask.holds c units.old (taken_now
        (R.input rows.now) c f.old.table.items) }
    requires flight { IsFlight (R.input rows.now) f.old c (at (R.input rows.now) c 1 0) }
    ensures flight { IsFlight (R.input rows.now) f.new c (at (R.input rows.now) c 2 0) }
    ensures units { UnitsStandFor M.meaning M.Mask.holds c units.new (taken_now
        (R.input rows.now) c f.new.table.items) }
    ensures machine { machine_of M.meaning units.new ≡ (R.input rows.now).machine }
    ensures event { result ≡ true → Falls (R.input rows.now) c }
    ensures none { result ≡ false → f.new.table.items ≡ f.old.table.items }
{
    let mut refused = u64::empty();
    let mut any = false;
    let mut j = f.wakeup.ready.next(refused, f.front, f.head);
    while j < f.head {
        any = either(issue_row(rows, units, f, &mut refused, j, c), any);
        j = f.wakeup.ready.next(refused, j + 1, f.head);
    }
    any
}

// Whether one of the two is told.
fn either(one: bool, other: bool) -> bool
    ensures { result ≡ (one || other) }
{
    one || other
}

// A row in flight issues, if it may; and whether it did.
fn issue_row<M: Machine, R: Rows>(
    rows: &R,
    units: &mut Units<M>,
    f: &mut Flight,
    refused: &mut u64,
    j: usize,
    c: u64,
) -> bool
    requires low { c < 2 ^ 42 }
    requires front { f.old.front ≤ j }
    requires head { j < f.old.head }
    requires machine { machine_of M.meaning units.old ≡ (R.input rows.now).machine }
    requires units { UnitsStandFor M.meaning M.Mask.holds c units.old (taken_now
        (R.input rows.now) c f.old.table.items) }
    requires flight { IsFlight (R.input rows.now) f.old c (at (R.input rows.now) c 1 j) }
    requires refused { AreRefused (R.input rows.now).machine
        (taken_now (R.input rows.now) c f.old.table.items) c refused.old }
    ensures flight { IsFlight (R.input rows.now) f.new c (at (R.input rows.now) c 1 (j + 1)) }
    ensures units { UnitsStandFor M.meaning M.Mask.holds c units.new (taken_now
        (R.input rows.now) c f.new.table.items) }
    ensures machine { machine_of M.meaning units.new ≡ (R.input rows.now).machine }
    ensures front { f.new.front ≡ f.old.front }
    ensures head { f.new.head ≡ f.old.head }
    ensures event { result ≡ true → Falls (R.input rows.now) c }
    ensures none { result ≡ false → f.new.table.items ≡ f.old.table.items }
    ensures refused { AreRefused (R.input rows.now).machine
        (taken_now (R.input rows.now) c f.new.table.items) c refused.new }
{
    if f.table[j].issue != u64::MAX {
        return false;
    }
    let b = rows.instruction(j);
    if b.reserved {
        return false;
    }
    if !issues_now(rows, units, f, j, c) {
        refuse(units, b, refused, c);
        return false;
    }
    issue(rows, units, f, j, c);
    true
}

// Whether a row that has dispatched, and is not reserved, may issue.
fn issues_now<M: Machine, R: Rows>(rows: &R, units: &Units<M>, f: &Flight, j: usize, c: u64) -> bool
    requires front { f.now.front ≤ j }
    requires head { j < f.now.head }
    requires machine { machine_of M.meaning units.now ≡ (R.input rows.now).machine }
    requires units { UnitsStandFor M.meaning M.Mask.holds c units.now (taken_now
        (R.input rows.now) c f.now.table.items) }
    requires flight { IsFlight (R.input rows.now) f.now c (at (R.input rows.now) c 1 j) }
    requires late { c < (now (R.input rows.now) c f.now.table.items j).issue }
    ensures { result ≡ can_issue (R.input rows.now) (now
        (R.input rows.now) c f.now.table.items) j c }
{
    if f.table[j].dispatch >= c {
        return false;
    }
    let memory = may_access(&f.memory, rows.instruction(j).kind, j as u32, c);
    starts_now(rows, units, f, j, c, memory)
}

/// Whether a row has its operands, may access memory, as is told, and finds its units.
pub fn starts_now<M: Machine, R: Rows>(
    rows: &R,
    units: &Units<M>,
    f: &Flight,
    j: usize,
    c: u64,
    memory: bool,
) -> bool
    requires row { j < (R.input rows.now).rows }
    requires machine { machine_of M.meaning units.now ≡ (R.input rows.now).machine }
    requires units { UnitsStandFor M.meaning M.Mask.holds c units.now (taken_now
        (R.input rows.now) c f.now.table.items) }
    requires flight { (p : ℕ) × (IsFlight (R.input rows.now) f.now c (at
        (R.input rows.now) c p j)) }
    requires memory { memory ≡ may_access (R.input rows.now) (now
        (R.input rows.now) c f.now.table.items) j c }
    ensures { result ≡ can_start (R.input rows.now) (now
        (R.input rows.now) c f.now.table.items) j c }
{
    let b = rows.instruction(j);
    let operands = rows.has_operands(&f.table, j, c);
    let found = units.can_take(b, c);
    all(operands, memory, found)
}

// Whether all three are told.
fn all(operands: bool, memory: bool, found: bool) -> bool
    ensures { result ≡ (operands && memory && found) }
{
    operands && memory && found
}

// A row issues.
fn issue<M: Machine, R: Rows>(rows: &R, units: &mut Units<M>, f: &mut Flight, j: usize, c: u64)
    requires low { c < 2 ^ 42 }
    requires front { f.old.front ≤ j }
    requires head { j < f.old.head }
    requires machine { machine_of M.meaning units.old ≡ (R.input rows.now).machine }
    requires units { UnitsStandFor M.meaning M.Mask.holds c units.old (taken_now
        (R.input rows.now) c f.old.table.items) }
    requires flight { IsFlight (R.input rows.now) f.old c (at (R.input rows.now) c 1 j) }
    requires free { ((R.input rows.now).row j).reserved ≡ false }
    requires none { (times f.old.table.items j).issue ≡ never }
    requires may { can_issue (R.input rows.now) (now (R.input rows.now) c f.old.table.items) j c
        ≡ true }
    ensures flight { IsFlight (R.input rows.now) f.new c (at (R.input rows.now) c 1 (j + 1)) }
    ensures units { UnitsStandFor M.meaning M.Mask.holds c units.new (taken_now
        (R.input rows.now) c f.new.table.items) }
    ensures machine { machine_of M.meaning units.new ≡ (R.input rows.now).machine }
    ensures front { f.new.front ≡ f.old.front }
    ensures head { f.new.head ≡ f.old.head }
    ensures taken { (more : List Taken) × (taken_now (R.input rows.now) c f.new.table.items
        ≡ taken_now (R.input rows.now) c f.old.table.items ++ more) }
    ensures event { Falls (R.input rows.now) c }
{
    let b = rows.instruction(j);
    let complete = c + b.latency as u64;
    let row = f.table[j];
    f.table[j] = Times {
        dispatch: row.dispatch,
        issue: c,
        complete,
        retire: row.retire,
        units: units.take(b, c),
    };
    f.queues.leave(j as u32, b);
    issue_memory(&mut f.memory, b.kind, j as u32, c, complete);
    wake_readers(rows, &f.table, &mut f.wakeup, j, f.head, c);
}
