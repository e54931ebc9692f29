//! The search for the units of uses, round robin over those that are free.
ghost use Rattle.std.specs.Prelude.{◌≡◌, ◌<◌, ◌+◌, ℕ, true, false, IfSome, length, replicate, List, [], ◌∷◌, is_some, slice_index, slice_set, not, ◌&&◌, ◌||◌, nat_eq};
ghost use Rattle.unit_sets.specs.Below.{cyclic_from};
ghost use Rattle.machine_model.specs.declared.facts.Use.{Use as UseOf};
ghost use Rattle.cycle_rules.specs.declared.times.TheConstants.{NO_UNIT};
ghost use Rattle.resource_units.specs.Kept.{turned, found_units, knows};

use machine_model::{Machine, Use};
use unit_sets::UnitMask;

/// Which units are held, and where the search goes on for each resource.
#[derive(Drop)]
pub(crate) struct Search<K> {
    /// The units that are held.
    pub(crate) held: K,
    /// For each resource, the place after the unit that was chosen last; 0 where none was.
    pub(crate) places: [u16; 64],
    pub(crate) ghost size: { length places ≡ 64 },
}

// No resource has a place so far.
fn no_places() -> [u16; 64]
    ensures { result ≡ replicate 64 0 }
{
    [0; 64]
}

impl<K: UnitMask> Search<K> {
    /// Where no unit is held and none was chosen.
    pub(crate) fn blank() -> Search<K>
        ensures held { (v : ℕ) → K.holds result.held v ≡ false }
        ensures places { (r : ℕ) → r < 64 → slice_index result.places r ≡ 0 }
    {
        Search {
            held: K::empty(),
            places: no_places(),
        }
    }

    /// Takes the first of `units` that is not held, from the resource's place on and cyclically.
    pub(crate) fn take_unit(&mut self, units: K, resource: usize) -> Option<usize>
        requires resource { resource < 64 }
        requires some { 0 < K.SIZE }
        requires few { (v : ℕ) → K.holds units v ≡ true → v < NO_UNIT }
        ensures found { result ≡ cyclic_from K.SIZE (turned K.SIZE
            (slice_index self.old.places resource)) (λ v. K.holds units v && not
            (K.holds self.old.held v)) }
        ensures held { IfSome result (λ u. (v : ℕ) → K.holds self.new.held v ≡
            (nat_eq v u || K.holds self.old.held v)) }
        ensures places { IfSome result (λ u. self.new.places ≡ slice_set self.old.places resource
            (u + 1)) }
    {
        let place = self.places[resource] as usize;
        let pos = if place < K::SIZE { place } else { 0 };
        let unit = units.without(&self.held).first_from(pos)?;
        self.held.insert(unit);
        self.places[resource] = unit as u16 + 1;
        Some(unit)
    }
}

/// Takes a unit of a resource, round robin over those that are not held.
pub(crate) fn find<M: Machine>(
    machine: &M,
    search: &mut Search<M::Mask>,
    resource: u8,
) -> Option<usize>
    requires { resource < (M.meaning machine.now).resource_count }
    ensures found { result ≡ cyclic_from (M.meaning machine.now).unit_count
        (slice_index search.old.places resource)
        (λ u. (M.meaning machine.now).units resource u && not (M.Mask.holds search.old.held u)) }
    ensures held { IfSome result (λ u. (v : ℕ) → M.Mask.holds search.new.held v ≡
        (nat_eq v u || M.Mask.holds search.old.held v)) }
    ensures places { IfSome result (λ u. search.new.places ≡ slice_set search.old.places resource
        (u + 1)) }
{
    search.take_unit(machine.mask(resource as usize), resource as usize)
}

// Whether a use finds a unit, which it takes in the search.
fn finds<M: Machine>(machine: &M, search: &mut Search<M::Mask>, used: &Use) -> bool
    requires { used.now.resource < (M.meaning machine.now).resource_count }
    ensures { (rest : List UseOf) → is_some (found_units (M.meaning machine.now)
        (M.Mask.holds search.old.held) (slice_index search.old.places) (used.now ∷ rest))
        ≡ (result && is_some (found_units (M.meaning machine.now) (M.Mask.holds search.new.held)
        (slice_index search.new.places) rest)) }
{
    if used.hold == 0 {
        return true;
    }
    find(machine, search, used.resource).is_some()
}

/// Whether all uses find units, one after another.
pub(crate) fn finds_all<M: Machine>(machine: &M, start: Search<M::Mask>, uses: &[Use]) -> bool
    requires { knows (M.meaning machine.now) uses.now ≡ true }
    ensures { result ≡ is_some (found_units (M.meaning machine.now) (M.Mask.holds start.held)
        (slice_index start.places) uses.now) }
{
    let mut search = start;
    for used in uses {
        if !finds(machine, &mut search, used) {
            return false;
        }
    }
    true
}

/// Whether a single use finds a unit. From where the search goes on does not matter then.
pub(crate) fn finds_one<M: Machine>(machine: &M, held: &M::Mask, used: &Use) -> bool
    requires { used.now.resource < (M.meaning machine.now).resource_count }
    ensures { (place : ℕ → ℕ) → result ≡ is_some (found_units (M.meaning machine.now)
        (M.Mask.holds held.now) place (used.now ∷ [])) }
{
    if used.hold == 0 {
        return true;
    }
    let free = machine.mask(used.resource as usize).without(held);
    free.first_from(0).is_some()
}
