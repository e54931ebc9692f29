//! Which units the uses of a row find, by the rows that issued before it looks: nothing is kept of them,
//! so each question goes over the rows.
ghost use Rattle.std.specs.Prelude.{true, false, ◌≡◌, ◌+◌, ◌-◌, ◌<◌, ◌≤◌, ◌&&◌, ◌||◌, ◌++◌, ◌∷◌, [], List, ℕ, Option, Some, None, IfSome, IfNone, is_some, length, min, not, nat_lt, nat_le, nat_eq, if◌then◌else◌};
ghost use Rattle.std.specs.List.{list_any, list_all};
ghost use Rattle.machine_model.specs.Meaning.{MachineMeaning};
ghost use Rattle.machine_model.specs.declared.facts.Use.{Use as UseOf};
ghost use Rattle.cycle_rules.specs.Below.{first_from};
ghost use Rattle.cycle_rules.specs.Bind.{AreBound, IsBound};
ghost use Rattle.cycle_rules.specs.Given.{row_in, input_in, earlier_at, place_in, later_place, IsLast};
ghost use Rattle.cycle_rules.specs.Held.{taken_of};
ghost use Rattle.cycle_rules.specs.Pick.{Taken, holds_at, is_free, place_after, pick_unit, pick_units, prepend, taken_by, padded, pick};
ghost use Rattle.cycle_rules.specs.Row.{times};
ghost use Rattle.cycle_rules.specs.Seen.{sees, has_issued};

use crate::given::{Given, Moment, used_by};
use crate::times::NO_UNIT;
use machine_model::{Machine, Use};
use unit_sets::UnitMask;

// Whether a use that took a unit in cycle `from` holds a unit in cycle `c`.
#[tactic(auto, unfolding(crate::specs::Pick::taken_by, crate::specs::Pick::holds_at))]
fn holds(used: &Use, taken: u16, from: u64, c: u64, unit: usize) -> bool
    ensures { result ≡ list_any (λ h. nat_eq h.unit unit && holds_at c h) (taken_by from
        (used.now ∷ []) (taken ∷ [])) }
{
    if used.hold == 0 {
        return false;
    }
    if taken as usize != unit {
        return false;
    }
    if c < from {
        return false;
    }
    c - from < used.hold as u64
}

// Whether one of the uses that took units in cycle `from` holds a unit in cycle `c`.
fn one_holds(uses: &[Use], taken: &[u16], from: u64, c: u64, unit: usize) -> bool
    ensures { result ≡ list_any (λ h. nat_eq h.unit unit && holds_at c h) (taken_by from
        uses.now taken.now) }
{
    for i in 0..uses.len() {
        if i >= taken.len() {
            return false;
        }
        if holds(&uses[i], taken[i], from, c, unit) {
            return true;
        }
    }
    false
}

// The place after the unit that a use took of a resource; `place` where it took none of it.
#[tactic(auto, unfolding(crate::specs::Pick::taken_by, crate::specs::Pick::place_after))]
fn place_of(used: &Use, taken: u16, resource: u8, place: u32) -> u32
    ensures { (from : ℕ) → result ≡ later_place place (place_after resource (taken_by from
        (used.now ∷ []) (taken ∷ []))) }
{
    if used.hold == 0 {
        return place;
    }
    if used.resource != resource {
        return place;
    }
    taken as u32 + 1
}

// The place after the unit that was taken last of a resource; 0 where none was.
fn place_among(uses: &[Use], taken: &[u16], resource: u8) -> u32
    ensures { (from : ℕ) → result ≡ place_after resource (taken_by from uses.now taken.now) }
{
    let mut place = 0;
    for i in 0..uses.len() {
        if i >= taken.len() {
            return place;
        }
        place = place_of(&uses[i], taken[i], resource, place);
    }
    place
}

// Whether a row that issued before another looks holds a unit in the cycle of the look.
fn row_holds(given: &Given, at: Moment, unit: usize, k: usize) -> bool
    requires run { k < given.now.count }
    requires given { k < length given.now.rows.now }
    ensures { (m : MachineMeaning) → result ≡ (has_issued (input_in m
        given.now.body.now given.now.count) (times given.now.rows.now) k at.cycle at.phase at.row
        && list_any (λ h. nat_eq h.unit unit && holds_at at.cycle h) (taken_of (input_in m
        given.now.body.now given.now.count) (times given.now.rows.now) k)) }
{
    if !given.has_issued(at, k) {
        return false;
    }
    let time = given.time(k);
    one_holds(
        used_by(given.row(k)),
        &time.units,
        time.issue,
        at.cycle,
        unit,
    )
}

// Whether some row that issued before another looks holds a unit in the cycle of the look.
fn rows_hold(given: &Given, at: Moment, unit: usize) -> bool
    ensures { (m : MachineMeaning) → result ≡ list_any (λ h. nat_eq h.unit unit && holds_at
        at.cycle h) (earlier_at (input_in m given.now.body.now given.now.count)
        (times given.now.rows.now) at.cycle at.phase at.row) }
{
    for k in 0..given.known() {
        if row_holds(given, at, unit, k) {
            return true;
        }
    }
    false
}

// Whether no earlier use holds a unit: none of a row that issued before, and none of those of this row
// that were met before.
fn is_free(given: &Given, at: Moment, uses: &[Use], taken: &[u16], unit: usize) -> bool
    ensures { (m : MachineMeaning) → result ≡ is_free (earlier_at (input_in m
        given.now.body.now given.now.count) (times given.now.rows.now) at.cycle at.phase at.row
        ++ taken_by at.cycle uses.now taken.now) at.cycle unit }
{
    if rows_hold(given, at, unit) {
        return false;
    }
    !one_holds(uses, taken, at.cycle, at.cycle, unit)
}

// The place after the unit that a row took last of a resource; 0 where it took none, or has not issued
// when another row looks.
fn place_of_row(given: &Given, at: Moment, resource: u8, k: usize) -> u32
    requires run { k < given.now.count }
    requires given { k < length given.now.rows.now }
    ensures { (m : MachineMeaning) → result ≡ place_in (input_in m
        given.now.body.now given.now.count) (times given.now.rows.now) at.cycle at.phase at.row
        resource k }
{
    if !given.has_issued(at, k) {
        return 0;
    }
    place_among(used_by(given.row(k)), &given.time(k).units, resource)
}

// Of the rows that took a unit of a resource the one that issued last, and the place after the unit; 0
// where there is none.
#[derive(Clone, Copy)]
struct Last {
    row: usize,
    place: u32,
}

// The same, with one row more.
fn with_row(given: &Given, at: Moment, resource: u8, k: usize, last: Last) -> Last
    requires run { k < given.now.count }
    requires given { k < length given.now.rows.now }
    requires low { last.row ≤ k }
    requires last { (m : MachineMeaning) → IsLast (input_in m given.now.body.now given.now.count)
        (times given.now.rows.now) at.cycle at.phase at.row resource k last.row last.place }
    ensures low { result.row ≤ k }
    ensures last { (m : MachineMeaning) → IsLast (input_in m given.now.body.now given.now.count)
        (times given.now.rows.now) at.cycle at.phase at.row resource (k + 1)
        result.row result.place }
{
    let place = place_of_row(given, at, resource, k);
    if place == 0 {
        return last;
    }
    if last.place == 0 {
        return Last { row: k, place };
    }
    if given.issues_before(last.row, k) {
        return Last { row: k, place };
    }
    last
}

// The place after the unit that was taken last of a resource by a row that issued before another looks;
// 0 where none was.
fn place_by_rows(given: &Given, at: Moment, resource: u8) -> u32
    ensures { (m : MachineMeaning) → result ≡ place_after resource (earlier_at (input_in m
        given.now.body.now given.now.count) (times given.now.rows.now) at.cycle at.phase at.row) }
{
    let mut last = Last { row: 0, place: 0 };
    for k in 0..given.known() {
        last = with_row(given, at, resource, k, last);
    }
    last.place
}

// The place from which the search for a unit of a resource goes on.
fn place_before(given: &Given, at: Moment, uses: &[Use], taken: &[u16], resource: u8) -> u32
    ensures { (m : MachineMeaning) → result ≡ place_after resource (earlier_at (input_in m
        given.now.body.now given.now.count) (times given.now.rows.now) at.cycle at.phase at.row
        ++ taken_by at.cycle uses.now taken.now) }
{
    let own = place_among(uses, taken, resource);
    if own != 0 {
        return own;
    }
    place_by_rows(given, at, resource)
}

// Whether a resource has a unit, and no earlier use holds it.
fn may_have<M: Machine>(
    machine: &M,
    given: &Given,
    at: Moment,
    uses: &[Use],
    taken: &[u16],
    resource: u8,
    unit: usize,
) -> bool
    requires resource { resource < (M.meaning machine.now).resource_count }
    requires unit { unit < M.UNITS }
    ensures { result ≡ ((M.meaning machine.now).units resource unit && is_free (earlier_at (input_in
        (M.meaning machine.now) given.now.body.now given.now.count) (times given.now.rows.now)
        at.cycle at.phase at.row ++ taken_by at.cycle uses.now taken.now) at.cycle unit) }
{
    if !machine.mask(resource as usize).has(unit) {
        return false;
    }
    is_free(given, at, uses, taken, unit)
}

// The first unit of a resource, from a place on, that no earlier use holds.
fn first_free<M: Machine>(
    machine: &M,
    given: &Given,
    at: Moment,
    uses: &[Use],
    taken: &[u16],
    resource: u8,
    place: usize,
) -> Option<usize>
    requires resource { resource < (M.meaning machine.now).resource_count }
    ensures is { result ≡ first_from place (M.UNITS - place) (λ u.
        (M.meaning machine.now).units resource u && is_free (earlier_at (input_in
        (M.meaning machine.now) given.now.body.now given.now.count) (times given.now.rows.now)
        at.cycle at.phase at.row ++ taken_by at.cycle uses.now taken.now) at.cycle u) }
    ensures low { IfSome result (λ u. u < M.UNITS) }
{
    for unit in place..M::UNITS {
        if may_have(machine, given, at, uses, taken, resource, unit) {
            return Some(unit);
        }
    }
    None
}

// The unit that a use of a resource takes.
fn find_unit<M: Machine>(
    machine: &M,
    given: &Given,
    at: Moment,
    uses: &[Use],
    taken: &[u16],
    resource: u8,
) -> Option<usize>
    requires resource { resource < (M.meaning machine.now).resource_count }
    ensures is { result ≡ pick_unit (M.meaning machine.now) (earlier_at (input_in
        (M.meaning machine.now) given.now.body.now given.now.count) (times given.now.rows.now)
        at.cycle at.phase at.row ++ taken_by at.cycle uses.now taken.now) at.cycle resource }
    ensures low { IfSome result (λ u. u < M.UNITS) }
{
    let place = place_before(given, at, uses, taken, resource);
    match first_free(machine, given, at, uses, taken, resource, place as usize) {
        Some(unit) => Some(unit),
        None => first_free(machine, given, at, uses, taken, resource, 0),
    }
}

// The unit that a use takes, as it is written.
fn find<M: Machine>(
    machine: &M,
    given: &Given,
    at: Moment,
    uses: &[Use],
    taken: &[u16],
    used: &Use,
) -> Option<u16>
    requires resource { used.now.resource < (M.meaning machine.now).resource_count }
    ensures { (earlier : List Taken) → earlier ≡ earlier_at (input_in (M.meaning machine.now)
        given.now.body.now given.now.count) (times given.now.rows.now) at.cycle at.phase at.row
        ++ taken_by at.cycle uses.now taken.now → (rest : List UseOf) →
        pick_units (M.meaning machine.now) earlier at.cycle (used.now ∷ rest) ≡ prepend result
        (λ u. pick_units (M.meaning machine.now) (earlier ++ taken_by at.cycle (used.now ∷ [])
        (u ∷ [])) at.cycle rest) }
{
    if used.hold == 0 {
        return Some(NO_UNIT);
    }
    match find_unit(machine, given, at, uses, taken, used.resource) {
        Some(unit) => Some(unit as u16),
        None => None,
    }
}

/// The units that the uses of a row take where it looks, in the eight places for them; none where one of
/// them finds no unit.
pub(crate) fn pick<M: Machine>(machine: &M, given: &Given, at: Moment) -> Option<[u16; 8]>
    requires bound { AreBound (M.meaning machine.now) given.now.body.now }
    ensures none { IfNone result (pick (input_in (M.meaning machine.now)
        given.now.body.now given.now.count) (sees (input_in (M.meaning machine.now)
        given.now.body.now given.now.count) (times given.now.rows.now) at.phase at.row at.cycle)
        at.row at.cycle ≡ None) }
    ensures some { IfSome result (λ us. is_some (pick (input_in (M.meaning machine.now)
        given.now.body.now given.now.count) (sees (input_in (M.meaning machine.now)
        given.now.body.now given.now.count) (times given.now.rows.now) at.phase at.row at.cycle)
        at.row at.cycle) ≡ true) }
    ensures units { IfSome result (λ us. us ≡ padded (pick (input_in (M.meaning machine.now)
        given.now.body.now given.now.count) (sees (input_in (M.meaning machine.now)
        given.now.body.now given.now.count) (times given.now.rows.now) at.phase at.row at.cycle)
        at.row at.cycle)) }
{
    let uses = used_by(given.row(at.row));
    let mut units = [NO_UNIT; 8];
    for k in 0..uses.len() {
        match find(machine, given, at, &uses[..k], &units[..k], &uses[k]) {
            Some(unit) => units[k] = unit,
            None => return None,
        }
    }
    Some(units)
}
