//! Which row holds a unit, while the rows of a run go by in issue order.
ghost use Rattle.std.specs.Prelude.{◌≡◌, ◌<◌, ◌≤◌, ◌+◌, ◌-◌, ◌^◌, ℕ, List, [], ◌∷◌, length, map, slice_index, take, true, ◌&&◌, nat_le, nat_lt, is_some, Bool, IfSome};
ghost use Rattle.std.specs.List.{list_all};
ghost use Rattle.cycle_rules.specs.Bind.{row_of, IsBound};
ghost use Rattle.cycle_rules.specs.Pick.{Taken, pick_units, taken_by};
ghost use Rattle.cycle_rules.specs.Row.{times};
ghost use Rattle.resource_units.specs.Stand.{StandsFor, machine_of};
ghost use Rattle.dep_graph.specs.Blamed.{busy_in};
ghost use Rattle.dep_graph.specs.Holders.{AreHolders, IsLast, IsTop, noted, taken_along, taker_at};
ghost use Rattle.dep_graph.specs.RunGraph.{IsIssueOrder};
ghost use Rattle.dep_graph.specs.Walk.{IsSoundRun};

use crate::rows::Rows;
use cycle_rules::{Bound, Source};
use machine_model::{Machine, Use};
use resource_units::Units;
use rv_isa::Reg;
use unit_sets::{UnitMask, next_member};

/// The row that took a unit last, by its place in issue order, and the cycle in which it gives it
/// back.
#[derive(Clone, Copy, Debug)]
pub struct Taker {
    pub place: u32,
    pub until: u64,
}

// Notes the unit that a use takes, if it takes one.
fn note_use(last: &mut [Taker], used: Use, unit: u16, place: u32, c: u64)
    requires known { list_all (λ h. nat_lt h.unit (length last.old)) (taken_by c (used ∷ [])
        (unit ∷ [])) ≡ true }
    requires early { c < 2 ^ 42 }
    ensures { last.new ≡ noted place (taken_by c (used ∷ []) (unit ∷ [])) last.old }
{
    if used.hold == 0 {
        return;
    }
    last[unit as usize] = Taker {
        place,
        until: c + used.hold as u64,
    };
}

// Notes the units that the uses of a row take.
fn note(last: &mut [Taker], uses: &[Use], taken: &[u16], place: u32, c: u64)
    requires few { length uses.now ≤ length taken.now }
    requires known { list_all (λ h. nat_lt h.unit (length last.old)) (taken_by c uses.now taken.now)
        ≡ true }
    requires early { c < 2 ^ 42 }
    ensures { last.new ≡ noted place (taken_by c uses.now taken.now) last.old }
{
    for x in 0..uses.len() {
        note_use(last, uses[x], taken[x], place, c);
    }
}

/// Lets the row at a place of the order take its units.
pub fn take_row<M: Machine, R: Rows>(
    rows: &R,
    units: &mut Units<M>,
    last: &mut [Taker],
    order: &[u32],
    q: usize,
)
    requires run { IsSoundRun (R.input rows.now) (R.table rows.now) }
    requires order { IsIssueOrder (R.input rows.now) (times (R.table rows.now)) order.now }
    requires place { q < length order.now }
    requires machine { machine_of M.meaning units.old ≡ (R.input rows.now).machine }
    requires units { (a : ℕ) × ((a ≤ (times (R.table rows.now) (slice_index order.now q)).issue)
        × (StandsFor M.meaning M.Mask.holds a units.old (taken_along
        (R.input rows.now) (times (R.table rows.now)) order.now q))) }
    requires holders { (a : ℕ) × ((a ≤ (times (R.table rows.now) (slice_index order.now q)).issue)
        × (AreHolders (R.input rows.now) (times (R.table rows.now)) order.now q a last.old)) }
    ensures machine { machine_of M.meaning units.new ≡ (R.input rows.now).machine }
    ensures units { StandsFor M.meaning M.Mask.holds
        (times (R.table rows.now) (slice_index order.now q)).issue units.new (taken_along
        (R.input rows.now) (times (R.table rows.now)) order.now (q + 1)) }
    ensures holders { AreHolders (R.input rows.now) (times (R.table rows.now)) order.now (q + 1)
        (times (R.table rows.now) (slice_index order.now q)).issue last.new }
{
    let k = order[q] as usize;
    let b = rows.instruction(k);
    let c = rows.times(k).issue;
    let taken = units.take(b, c);
    note(last, &b.uses[..b.use_count as usize], &taken, q as u32, c);
}

// No read of a register.
fn no_read() -> Source
    ensures { result ≡ record { reg = 0; read = 0 } }
{
    Source {
        reg: Reg::zero(),
        read: 0,
    }
}

// An instruction that has the first n uses of another.
fn first_uses(b: &Bound, n: u8) -> Bound
    ensures count { result.use_count ≡ n }
    ensures uses { result.uses ≡ b.now.uses }
{
    Bound {
        op: b.op,
        uops: b.uops,
        latency: b.latency,
        use_count: n,
        uses: b.uses,
        reserved: b.reserved,
        read_count: 0,
        reads: [no_read(), no_read()],
        rd: Reg::zero(),
        write: b.write,
        kind: b.kind,
        begins_group: b.begins_group,
        ends_group: b.ends_group,
    }
}

// Whether the first n uses of an instruction find units.
fn are_met<M: Machine>(units: &Units<M>, b: &Bound, n: u8, c: u64) -> bool
    requires bound { IsBound (machine_of M.meaning units.now) b.now }
    requires few { n ≤ b.now.use_count }
    ensures { (taken : List Taken) → StandsFor M.meaning M.Mask.holds c units.now taken →
        result ≡ is_some (pick_units (machine_of M.meaning units.now) taken c (take n
        (row_of b.now).uses)) }
{
    if n == b.use_count {
        return units.can_take(b, c);
    }
    units.can_take(&first_uses(b, n), c)
}

/// The resource of the first use of an instruction that finds no unit in a cycle.
pub fn first_busy<M: Machine>(units: &Units<M>, b: &Bound, c: u64) -> Option<u8>
    requires bound { IsBound (machine_of M.meaning units.now) b.now }
    ensures { (taken : List Taken) → StandsFor M.meaning M.Mask.holds c units.now taken →
        result ≡ busy_in (machine_of M.meaning units.now) taken c (row_of b.now).uses }
{
    for n in 0..b.use_count {
        if !are_met(units, b, n + 1, c) {
            return Some(b.uses[n as usize].resource);
        }
    }
    None
}

// The later of two places, where the second counts.
fn later(best: Option<u32>, counts: bool, place: u32) -> Option<u32>
    ensures { (n : ℕ) (test : ℕ → Bool) (places : ℕ → ℕ) → test n ≡ counts → places n ≡ place →
        IsLast n test places best → IsLast (n + 1) test places result }
{
    if !counts {
        return best;
    }
    match best {
        Some(other) => Some(other.max(place)),
        None => Some(place),
    }
}

// Whether a unit is held in a cycle, and by the last of the rows that have taken units.
fn is_top(taker: Taker, taken: usize, c: u64) -> bool
    ensures held { result ≡ true → c < taker.until }
    ensures last { result ≡ true → taker.place + 1 ≡ taken }
{
    c < taker.until && taker.place as usize + 1 == taken
}

// The place of the last of the rows that have taken units, where it holds a given unit in a cycle,
// and that is one of a set.
fn top_at<K: UnitMask>(
    units: &K,
    last: &[Taker],
    taken: usize,
    unit: Option<u16>,
    c: u64,
) -> Option<u32>
    requires fits { length last.now ≤ K.SIZE }
    ensures { IfSome result (IsTop (K.holds units.now) taken c last.now) }
{
    let unit = unit? as usize;
    if unit >= last.len() {
        return None;
    }
    if !units.has(unit) {
        return None;
    }
    if !is_top(last[unit], taken, c) {
        return None;
    }
    Some(last[unit].place)
}

/// Of the rows that hold a unit of a resource in a cycle the place of the last one, where so many
/// rows have taken units, the first in issue order. Often the last of these holds the unit that was
/// chosen last for the resource, and so is the one; else the work grows with the units of the
/// resource, not with those of the machine.
pub fn last_holder<M: Machine>(
    machine: &M,
    last: &[Taker],
    taken: usize,
    chosen: Option<u16>,
    r: usize,
    c: u64,
) -> Option<u32>
    requires resource { r < (M.meaning machine.now).resource_count }
    requires size { length last.now ≡ (M.meaning machine.now).unit_count }
    requires taken { (u : ℕ) → u < length last.now → c < (taker_at last.now u).until →
        (taker_at last.now u).place < taken }
    ensures { IsLast (M.meaning machine.now).unit_count
        (λ u. (M.meaning machine.now).units r u && nat_lt c (taker_at last.now u).until)
        (λ u. (taker_at last.now u).place) result }
{
    let units = machine.mask(r);
    if let Some(place) = top_at(&units, last, taken, chosen, c) {
        return Some(place);
    }
    let mut best = None;
    let mut pos = 0;
    while pos < last.len() {
        let Some(unit) = next_member(&units, pos, last.len()) else {
            return best;
        };
        let taker = last[unit];
        best = later(best, c < taker.until, taker.place);
        pos = unit + 1;
    }
    best
}
