//! The waits of rows for units.
ghost use Rattle.std.specs.Prelude.{◌≡◌, ◌<◌, ◌≤◌, ◌+◌, ◌-◌, ℕ, length, slice_index, ◌&&◌, nat_lt};
ghost use Rattle.cycle_rules.specs.Row.{times, phase};
ghost use Rattle.cycle_rules.specs.Waits.{resource_wait};
ghost use Rattle.critical_chain.specs.declared.graph.EdgeKind.{EdgeKind as EdgeKindOf};
ghost use Rattle.critical_chain.specs.declared.graph.EdgeKind.TheVariants.{Resource};
ghost use Rattle.resource_units.specs.Stand.{StandsFor, machine_of};
ghost use Rattle.dep_graph.specs.Blamed.{edge_of, resource_blamed};
ghost use Rattle.dep_graph.specs.Holders.{AreHolders, taken_along};
ghost use Rattle.dep_graph.specs.Peaks.{AreWaits};
ghost use Rattle.dep_graph.specs.RunGraph.{IsIssueOrder};
ghost use Rattle.dep_graph.specs.Taking.{IsTaking, AreFirst, wait_edge};
ghost use Rattle.dep_graph.specs.Turns.{AreRows, AreSlots, is_before_slot};
ghost use Rattle.dep_graph.specs.Walk.{IsSoundRun};

use crate::holders::{Taker, first_busy, last_holder, take_row};
use crate::order::is_sooner;
use crate::rows::Rows;
use crate::waits::{Wait, Waits, earliest};
use machine_model::Machine;
use resource_units::Units;

// Whether there is a row at a place of the order, which issues before a slot, or in it and before
// row j.
fn issues_before(slots: &[u64], order: &[u32], q: usize, slot: u64, j: u32) -> bool
    requires { AreRows (length slots.now) order.now }
    ensures { result ≡ (nat_lt q (length order.now) && is_before_slot slots.now
        (slice_index order.now q) slot j) }
{
    if q >= order.len() {
        return false;
    }
    let k = order[q];
    is_sooner(slots[k as usize], k, slot, j)
}

// Lets the rows take their units that issue before the one at a place of the order looks for units
// in vain, in the cycle before that of its issue.
fn take_before<M: Machine, R: Rows>(
    rows: &R,
    units: &mut Units<M>,
    last: &mut [Taker],
    order: &[u32],
    slots: &[u64],
    taken: &mut usize,
    i: usize,
)
    requires run { IsSoundRun (R.input rows.now) (R.table rows.now) }
    requires order { IsIssueOrder (R.input rows.now) (times (R.table rows.now)) order.now }
    requires slots { AreSlots (R.input rows.now) (times (R.table rows.now)) slots.now }
    requires place { i < length order.now }
    requires some { 0 < (times (R.table rows.now) (slice_index order.now i)).issue }
    requires taking { IsTaking M.meaning M.Mask.holds (R.input rows.now) (times (R.table rows.now))
        order.now taken.old i units.old last.old }
    ensures taking { IsTaking M.meaning M.Mask.holds (R.input rows.now) (times (R.table rows.now))
        order.now taken.new i units.new last.new }
    ensures first { AreFirst (R.input rows.now) (times (R.table rows.now)) order.now taken.new
        (phase ((R.input rows.now).row (slice_index order.now i))) (slice_index order.now i)
        ((times (R.table rows.now) (slice_index order.now i)).issue - 1) }
{
    let j = order[i];
    let slot = slots[j as usize] - 2;
    while issues_before(slots, order, *taken, slot, j) {
        take_row(rows, units, last, order, *taken);
        *taken += 1;
    }
}

// The row that is blamed where row j finds no unit in cycle c, the one before its issue, if there is
// one.
fn blamed<M: Machine, R: Rows>(
    machine: &M,
    rows: &R,
    units: &Units<M>,
    last: &[Taker],
    order: &[u32],
    taken: usize,
    j: usize,
    c: u64,
) -> Option<u32>
    requires run { IsSoundRun (R.input rows.now) (R.table rows.now) }
    requires order { IsIssueOrder (R.input rows.now) (times (R.table rows.now)) order.now }
    requires row { j < (R.input rows.now).rows }
    requires few { taken ≤ (R.input rows.now).rows }
    requires cycle { c ≡ (times (R.table rows.now) j).issue - 1 }
    requires machine { M.meaning machine.now ≡ (R.input rows.now).machine }
    requires of { machine_of M.meaning units.now ≡ (R.input rows.now).machine }
    requires first { AreFirst (R.input rows.now) (times (R.table rows.now)) order.now taken
        (phase ((R.input rows.now).row j)) j ((times (R.table rows.now) j).issue - 1) }
    requires stands { StandsFor M.meaning M.Mask.holds ((times (R.table rows.now) j).issue - 1)
        units.now (taken_along (R.input rows.now) (times (R.table rows.now)) order.now taken) }
    requires holders { AreHolders (R.input rows.now) (times (R.table rows.now)) order.now taken
        ((times (R.table rows.now) j).issue - 1) last.now }
    ensures { result ≡ resource_blamed (R.input rows.now) (times (R.table rows.now)) j }
{
    let Some(r) = first_busy(units, rows.instruction(j), c) else {
        return None;
    };
    let chosen = units.last_of(r as usize);
    let Some(place) = last_holder(machine, last, taken, chosen, r as usize, c) else {
        return None;
    };
    Some(order[place as usize])
}

// A wait, where some row is blamed for it.
fn wait_for(cycles: u64, row: Option<u32>) -> Wait
    ensures { (kind : EdgeKindOf) (j : ℕ) → edge_of kind cycles j row ≡ wait_edge kind j result }
{
    match row {
        Some(row) => Wait { cycles, row },
        None => Wait { cycles: 0, row: 0 },
    }
}

/// The wait of a row for units.
#[derive(Clone, Copy, Debug)]
pub struct UnitWait {
    /// For how many cycles it waited.
    pub cycles: u64,
    /// The wait for which a row is blamed.
    pub wait: Wait,
}

/// The wait of the row at a place of the order for units, and the row that is blamed for it.
pub fn unit_wait<M: Machine, R: Rows>(
    machine: &M,
    rows: &R,
    units: &mut Units<M>,
    last: &mut [Taker],
    order: &[u32],
    slots: &[u64],
    taken: &mut usize,
    i: usize,
    waits: Waits,
) -> UnitWait
    requires run { IsSoundRun (R.input rows.now) (R.table rows.now) }
    requires order { IsIssueOrder (R.input rows.now) (times (R.table rows.now)) order.now }
    requires slots { AreSlots (R.input rows.now) (times (R.table rows.now)) slots.now }
    requires place { i < length order.now }
    requires machine { M.meaning machine.now ≡ (R.input rows.now).machine }
    requires waits { AreWaits (R.input rows.now) (times (R.table rows.now))
        (slice_index order.now i) waits }
    requires taking { IsTaking M.meaning M.Mask.holds (R.input rows.now) (times (R.table rows.now))
        order.now taken.old i units.old last.old }
    ensures taking { IsTaking M.meaning M.Mask.holds (R.input rows.now) (times (R.table rows.now))
        order.now taken.new (i + 1) units.new last.new }
    ensures cycles { result.cycles ≡ resource_wait (R.input rows.now) (times (R.table rows.now))
        (slice_index order.now i) }
    ensures wait { edge_of Resource (resource_wait (R.input rows.now) (times (R.table rows.now))
        (slice_index order.now i)) (slice_index order.now i) (resource_blamed
        (R.input rows.now) (times (R.table rows.now)) (slice_index order.now i))
        ≡ wait_edge Resource (slice_index order.now i) result.wait }
{
    let j = order[i] as usize;
    let times = rows.times(j);
    let issue = times.issue;
    let from = earliest(times.dispatch, slots[j]);
    let ordered = from + waits.register.cycles + waits.memory.cycles;
    if ordered == issue {
        return UnitWait {
            cycles: 0,
            wait: wait_for(0, None),
        };
    }
    let asks = issue - 1;
    take_before(rows, units, last, order, slots, taken, i);
    units.release_until(asks);
    let cycles = issue - ordered;
    let row = blamed(machine, rows, units, last, order, *taken, j, asks);
    UnitWait {
        cycles,
        wait: wait_for(cycles, row),
    }
}
