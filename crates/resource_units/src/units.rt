//! The units of a machine.
ghost use Rattle.std.specs.Prelude.{◌≡◌, ◌<◌, ◌∷◌, [], ℕ, Some, length, nat_lt, nat_le, nat_eq, not, ◌&&◌, slice_index};
ghost use Rattle.cycle_rules.specs.Pick.{padded};
ghost use Rattle.resource_units.specs.Kept.{IsSoonest, passed};
ghost use Rattle.machine_model.specs.declared.limits.TheConstants.{MOST_CYCLES};

use crate::search::{Search, find, finds_all, finds_one};
use cycle_rules::{Bound, NO_UNIT};
use machine_model::{Machine, Use};
use mca_fixed::NoMemory;
use std::alloc::Global;
use unit_sets::{UnitMask, next_member};

/// The units of a machine. Contracts see the uses that took units so far, in issue order (`StandsFor`), as
/// they are seen from a cycle on: cycles never fall from call to call.
#[derive(Drop)]
pub struct Units<'a, M: Machine> {
    machine: &'a M,
    // The units that were not free when they were last looked through.
    search: Search<M::Mask>,
    // For each unit the cycle from which it is free.
    until: Vec<u64>,
    // The least of these times of the units in `search`; the last number where none is held.
    next: u64,
    ghost units: { length until.items ≡ M.UNITS },
}

impl<'a, M: Machine> Units<'a, M> {
    ghost use Rattle.std.specs.Prelude.{◌≡◌, ◌<◌, ◌≤◌, ◌^◌, ℕ, List, [], ◌∷◌, ◌++◌, true, is_some, Some, length, nat_lt, ◌&&◌, slice_index, IfOk};
    ghost use Rattle.machine_model.specs.declared.facts.Use.{Use as UseOf};
    ghost use Rattle.cycle_rules.specs.Pick.{Taken, pick_unit, pick_units, add_front, taken_by, padded};
    ghost use Rattle.cycle_rules.specs.Held.{AllEnd};
    ghost use Rattle.cycle_rules.specs.Bind.{row_of};
    ghost use Rattle.resource_units.specs.Kept.{IsSoonest, AnswersTime, AnswersChange, ComesBefore, last_taken, HasUses, use_at};
    ghost use Rattle.resource_units.specs.Stand.{StandsFor, KeptFrom, machine_of};

    /// The units of a machine, none of which is held. It takes all the memory that the units ever need: a
    /// word for each.
    pub fn make(alloc: Global, machine: &'a M) -> Result<Units<'a, M>, NoMemory>
        ensures empty { IfOk result (λ units. StandsFor M.meaning M.Mask.holds 0 units []) }
        ensures machine { IfOk result (λ units. machine_of M.meaning units
            ≡ M.meaning machine.entry.now) }
    {
        let until = vec![in alloc; 0; M::UNITS]?;
        Ok(Units {
            machine,
            search: Search::blank(),
            until,
            next: u64::MAX,
        })
    }

    /// Whether the uses of an instruction find units in cycle `c`, one after another in use order: each
    /// takes the first unit of its resource, from the one after the unit that was chosen last on, that no
    /// earlier use holds in `c`. They do where no use holds a unit in `c` or later. `b` has the uses of a
    /// write class of the machine. The work is a few instructions for each use; the units that are held are
    /// looked through only where one was given back since they were.
    pub fn can_take(&self, b: &Bound, c: u64) -> bool
        requires { HasUses (machine_of M.meaning self.now) b.now }
        ensures pick { (taken : List Taken) → StandsFor M.meaning M.Mask.holds c self.now taken →
            result ≡ is_some (pick_units (machine_of M.meaning self.now) taken c
            (row_of b.now).uses) }
        ensures free { (taken : List Taken) → StandsFor M.meaning M.Mask.holds c self.now taken →
            AllEnd c taken → result ≡ true }
    {
        let held = self.held(c);
        let uses = &b.uses[..b.use_count as usize];
        if uses.len() == 1 {
            return finds_one(self.machine, &held, &uses[0]);
        }
        let search = Search {
            held,
            places: self.search.places,
        };
        finds_all(self.machine, search, uses)
    }

    /// The least cycle above `c` in which a use that took a unit gives it back; none exactly where there is
    /// no such cycle. Up to there whatever uses find the same units, or none. The work is constant, but for
    /// looking through the units that are held where one was given back since they were.
    pub fn next_change(&self, c: u64) -> Option<u64>
        requires { c < 2 ^ 63 }
        ensures change { (taken : List Taken) → StandsFor M.meaning M.Mask.holds c self.now taken →
            AnswersChange (machine_of M.meaning self.now) c taken result }
        ensures stay { (taken : List Taken) (uses : List UseOf) (b : ℕ) →
            StandsFor M.meaning M.Mask.holds c self.now taken →
            c ≤ b → ComesBefore result b →
            pick_units (machine_of M.meaning self.now) taken c uses ≡ pick_units
            (machine_of M.meaning self.now) taken b uses }
    {
        let next = self.soonest(c);
        if next == u64::MAX { None } else { Some(next) }
    }

    /// The unit that was chosen last for a resource; none exactly where none was. The work is constant.
    pub fn last_of(&self, r: usize) -> Option<u16>
        requires { r < (machine_of M.meaning self.now).resource_count }
        ensures { (taken : List Taken) (c : ℕ) → StandsFor M.meaning M.Mask.holds c self.now taken
            → result ≡ last_taken r taken }
    {
        let place = self.search.places[r];
        if place == 0 { None } else { Some(place - 1) }
    }

    /// Takes the units that the uses of an instruction find in cycle `c`, in use order, and gives their
    /// numbers: `NO_UNIT` for a use without a hold, and for the places behind the last use. The uses can be
    /// met (`can_take`). The work is a few instructions for each use.
    pub fn take(&mut self, b: &Bound, c: u64) -> [u16; 8]
        requires uses { HasUses (machine_of M.meaning self.old) b.now }
        requires cycle { c < 2 ^ 63 }
        requires can { (taken : List Taken) × (StandsFor M.meaning M.Mask.holds c self.old taken
            × (is_some (pick_units (machine_of M.meaning self.old) taken c (row_of b.now).uses)
            ≡ true)) }
        ensures units { (taken : List Taken) → StandsFor M.meaning M.Mask.holds c self.old taken →
            result ≡ padded (pick_units (machine_of M.meaning self.old) taken c
            (row_of b.now).uses) }
        ensures stands { (taken : List Taken) → StandsFor M.meaning M.Mask.holds c self.old taken →
            StandsFor M.meaning M.Mask.holds c self.new (taken ++ taken_by c
            (row_of b.now).uses result) }
        ensures machine { machine_of M.meaning self.new ≡ machine_of M.meaning self.old }
    {
        self.look(c);
        let uses = &b.uses[..b.use_count as usize];
        // Most instructions have one use. Its unit does not go through an array that is written place by
        // place: to read that as a whole, the processor waits until all is written.
        if uses.len() == 1 {
            return only(self.take_use(&uses[0], c));
        }
        let mut units = [NO_UNIT; 8];
        for (k, used) in uses.iter().enumerate() {
            units[k] = self.take_use(used, c);
        }
        units
    }

    /// Forgets the holds that end before cycle `c`: the units stand for the same uses, seen from `c` on.
    /// The work is constant where no unit is given back by `c`, and else grows with the units that are held.
    pub fn release_until(&mut self, c: u64)
        requires { c < 2 ^ 63 }
        ensures stands { (taken : List Taken) (a : ℕ) → a ≤ c →
            StandsFor M.meaning M.Mask.holds a self.old taken →
            StandsFor M.meaning M.Mask.holds c self.new taken }
        ensures machine { machine_of M.meaning self.new ≡ machine_of M.meaning self.old }
    {
        self.look(c);
    }

    // Looks through the units that are held, where one of them is freed by cycle `c`.
    fn look(&mut self, c: u64)
        requires { c < 2 ^ 63 }
        ensures stands { (taken : List Taken) (a : ℕ) → a ≤ c →
            StandsFor M.meaning M.Mask.holds a self.old taken →
            StandsFor M.meaning M.Mask.holds c self.new taken }
        ensures later { c < self.new.next }
        ensures machine { self.new.machine.now ≡ self.old.machine.now }
    {
        if c < self.next {
            return;
        }
        let (held, next) = self.still(c);
        self.search.held = held;
        self.next = next;
    }

    // The units of `search` that are still held in cycle `c`, and the first cycle after it in which one of
    // them is given back.
    fn still(&self, c: u64) -> (M::Mask, u64)
        ensures held { (v : ℕ) → v < M.UNITS → M.Mask.holds result.0 v ≡
            (M.Mask.holds self.now.search.held v && nat_lt c (slice_index self.now.until.items v)) }
        ensures next { IsSoonest M.UNITS (M.Mask.holds result.0)
            (slice_index self.now.until.items) result.1 }
    {
        let mut held = self.search.held;
        let mut next = u64::MAX;
        let mut pos = 0;
        while pos < M::UNITS {
            let unit = match next_member(&self.search.held, pos, M::UNITS) {
                Some(unit) => unit,
                None => return (held, next),
            };
            next = pass(&mut held, unit, self.until[unit], c, next);
            pos = unit + 1;
        }
        (held, next)
    }

    // The units that are held in cycle `c`.
    fn held(&self, c: u64) -> M::Mask
        ensures { KeptFrom M.meaning M.Mask.holds c self.now →
            (u : ℕ) → u < M.UNITS → M.Mask.holds result u ≡ nat_lt c
            (slice_index self.now.until.items u) }
    {
        if c < self.next {
            return self.search.held;
        }
        self.still(c).0
    }

    // The first cycle after `c` in which a unit that is held in `c` is freed; the last number where none is.
    fn soonest(&self, c: u64) -> u64
        requires { c < 2 ^ 63 }
        ensures { (taken : List Taken) → StandsFor M.meaning M.Mask.holds c self.now taken →
            AnswersTime (machine_of M.meaning self.now) c taken result }
    {
        if c < self.next {
            return self.next;
        }
        self.still(c).1
    }

    // Takes a unit for a use in cycle `c`, if it holds one at all.
    fn take_use(&mut self, used: &Use, c: u64) -> u16
        requires resource { used.now.resource < (machine_of M.meaning self.old).resource_count }
        requires short { used.now.hold ≤ MOST_CYCLES }
        requires cycle { c < 2 ^ 63 }
        requires later { c < self.old.next }
        requires can { (earlier : List Taken) × (StandsFor M.meaning M.Mask.holds c self.old earlier
            × (is_some (pick_units (machine_of M.meaning self.old) earlier c (used.now ∷ []))
            ≡ true)) }
        ensures pick { (earlier : List Taken) (rest : List UseOf) →
            StandsFor M.meaning M.Mask.holds c self.old earlier →
            pick_units (machine_of M.meaning self.old) earlier c (used.now ∷ rest)
            ≡ add_front result (pick_units (machine_of M.meaning self.old) (earlier ++ taken_by c
            (used.now ∷ []) (result ∷ [])) c rest) }
        ensures stands { (earlier : List Taken) →
            StandsFor M.meaning M.Mask.holds c self.old earlier →
            StandsFor M.meaning M.Mask.holds c self.new (earlier ++ taken_by c (used.now ∷ [])
            (result ∷ [])) }
        ensures later { c < self.new.next }
        ensures machine { self.new.machine.now ≡ self.old.machine.now }
    {
        if used.hold == 0 {
            return NO_UNIT;
        }
        self.hold(used, c)
    }

    // Takes a unit for a use of one or more cycles, in cycle `c`.
    fn hold(&mut self, used: &Use, c: u64) -> u16
        requires resource { used.now.resource < (machine_of M.meaning self.old).resource_count }
        requires some { 0 < used.now.hold }
        requires short { used.now.hold ≤ MOST_CYCLES }
        requires cycle { c < 2 ^ 63 }
        requires later { c < self.old.next }
        requires can { (earlier : List Taken) × (StandsFor M.meaning M.Mask.holds c self.old earlier
            × (is_some (pick_unit (machine_of M.meaning self.old) earlier c used.now.resource)
            ≡ true)) }
        ensures unit { (earlier : List Taken) → StandsFor M.meaning M.Mask.holds c self.old earlier
            →
            pick_unit (machine_of M.meaning self.old) earlier c used.now.resource ≡ Some result }
        ensures stands { (earlier : List Taken) →
            StandsFor M.meaning M.Mask.holds c self.old earlier →
            StandsFor M.meaning M.Mask.holds c self.new (earlier
            ++ use_at c used.now.resource used.now.hold result ∷ []) }
        ensures later { c < self.new.next }
        ensures machine { self.new.machine.now ≡ self.old.machine.now }
    {
        let unit = match find(self.machine, &mut self.search, used.resource) {
            Some(unit) => unit,
            None => unreachable!(),
        };
        let end = c + used.hold as u64;
        self.until[unit] = end;
        self.next = self.next.min(end);
        unit as u16
    }
}

// The unit of one use, and no unit in the places behind.
fn only(unit: u16) -> [u16; 8]
    ensures { result ≡ padded (Some (unit ∷ [])) }
{
    [
        unit, NO_UNIT, NO_UNIT, NO_UNIT, NO_UNIT, NO_UNIT, NO_UNIT, NO_UNIT,
    ]
}

// Takes a unit that is free in cycle `c` out of those that are held; else the sooner of its time and another.
fn pass<K: UnitMask>(held: &mut K, unit: usize, until: u64, c: u64, next: u64) -> u64
    requires { unit < K.SIZE }
    ensures held { (v : ℕ) → K.holds held.new v ≡ (K.holds held.old v && not (nat_eq v unit
        && nat_le until c)) }
    ensures next { result ≡ passed c until next }
{
    if until <= c {
        held.remove(unit);
        return next;
    }
    until.min(next)
}
