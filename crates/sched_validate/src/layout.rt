//! The units of the resources of a table, and the owners of the units.
ghost use Rattle.std.specs.Prelude.{◌≡◌, ℕ, ◌+◌, ◌≤◌, ◌<◌, List, length, map, sum_by, slice_index_or, All, IfOk, ◌||◌, None};
ghost use Rattle.std.specs.List.{list_any};
ghost use Rattle.mca_fixed.specs.declared.limits.TheConstants.{MOST_UNITS};
ghost use Rattle.sched_checks.specs.Resources.{own_units};
ghost use Rattle.sched_validate.specs.Places.{IsPlace};
ghost use Rattle.sched_validate.specs.Spans.{no_set, is_within, spans_of, in_member, MembersArePlaces};
ghost use Rattle.sched_validate.specs.Units.{has_unit, owner_of};
ghost use Rattle.unit_sets.specs.Members.{in_words};

use machine_model::UnitOwner;
use mca_fixed::{Items, MOST_UNITS, NoMemory};
use sched_resolve::{Makeup, Resource};
use std::alloc::Global;
use unit_sets::{UnitMask, UnitSet};

/// The units that a resource has of its own: so many from the first on. A group has none.
#[derive(Clone, Copy)]
struct Span {
    first: usize,
    count: usize,
}

/// How many units a resource has of its own, where they are at most 256.
fn own_units(resource: &Resource) -> usize
    requires { own_units resource.now.makeup ≤ MOST_UNITS }
    ensures { result ≡ own_units resource.now.makeup }
{
    resource.makeup.own_units() as usize
}

/// The units that each resource has of its own.
fn spans(alloc: Global, resources: &[&Resource]) -> Result<Vec<Span>, NoMemory>
    requires { sum_by (λ r. own_units r.makeup) (map (λ r. r.now) resources.now) ≤ MOST_UNITS }
    ensures { IfOk result (λ spans. spans.items ≡ spans_of (map (λ r. r.now) resources.now)) }
{
    let mut spans = Vec::with_capacity(alloc, resources.len())?;
    let mut first = 0;
    for resource in resources {
        let count = own_units(resource);
        spans.push(Span { first, count })?;
        first += count;
    }
    Ok(spans)
}

/// Puts the units that a resource has of its own into a set.
fn add_units(set: &mut UnitSet, span: &Span)
    requires { span.now.first + span.now.count ≤ MOST_UNITS }
    ensures { (v : ℕ) → in_words set.new.words v
        ≡ (is_within span.now v || in_words set.old.words v) }
{
    for u in span.first..span.first + span.count {
        set.insert(u);
    }
}

/// The units of a group: those of its members. A member that is a group itself has none of its own.
fn group(spans: &[Span], members: &[Option<usize>]) -> UnitSet
    requires fit { All (λ s. s.first + s.count ≤ MOST_UNITS) spans.now }
    requires known { All (IsPlace (length spans.now)) members.now }
    ensures { (v : ℕ) → in_words result.words v ≡ list_any (in_member spans.now v) members.now }
{
    let mut units = UnitSet::empty();
    for member in members {
        if let Some(place) = *member {
            add_units(&mut units, &spans[place]);
        }
    }
    units
}

/// The units of a resource.
fn mask(resources: &[&Resource], spans: &[Span], k: usize) -> UnitSet
    requires sum { sum_by (λ r. own_units r.makeup) (map (λ r. r.now) resources.now) ≤ MOST_UNITS }
    requires members { MembersArePlaces (map (λ r. r.now) resources.now) }
    requires spans { spans.now ≡ spans_of (map (λ r. r.now) resources.now) }
    requires known { k < length resources.now }
    ensures { (v : ℕ) → in_words result.words v ≡ has_unit (map (λ r. r.now) resources.now) k v }
{
    match &resources[k].makeup {
        Makeup::Units(_) => {
            let mut units = UnitSet::empty();
            add_units(&mut units, &spans[k]);
            units
        }
        Makeup::Group(members) => group(spans, members.as_slice()),
    }
}

/// The units of each resource.
pub(crate) fn masks(alloc: Global, resources: &[&Resource]) -> Result<Items<UnitSet>, NoMemory>
    requires sum { sum_by (λ r. own_units r.makeup) (map (λ r. r.now) resources.now) ≤ MOST_UNITS }
    requires members { MembersArePlaces (map (λ r. r.now) resources.now) }
    ensures count { IfOk result (λ sets. length sets ≡ length (map (λ r. r.now) resources.now)) }
    ensures units { IfOk result (λ sets. (k v : ℕ) → k < length (map (λ r. r.now) resources.now)
        → in_words (slice_index_or sets k no_set).words v
        ≡ has_unit (map (λ r. r.now) resources.now) k v) }
{
    let spans = spans(alloc, resources)?;
    let mut sets = Vec::with_capacity(alloc, resources.len())?;
    for k in 0..resources.len() {
        sets.push(mask(resources, &spans, k))?;
    }
    Ok(Items::from_vec(sets))
}

/// The resource that owns a unit, and the unit's place in it.
fn owner_at(resources: &[&Resource], unit: usize) -> Option<UnitOwner>
    requires sum { sum_by (λ r. own_units r.makeup) (map (λ r. r.now) resources.now) ≤ MOST_UNITS }
    requires few { length resources.now ≤ 64 }
    requires low { unit < MOST_UNITS }
    ensures { result ≡ owner_of (map (λ r. r.now) resources.now) unit }
{
    let mut first = 0;
    for (number, resource) in resources.iter().enumerate() {
        let count = own_units(resource);
        if unit < first + count {
            return Some(UnitOwner {
                resource: number as u8,
                place: (unit - first) as u32,
            });
        }
        first += count;
    }
    None
}

/// The owner of each unit.
pub(crate) fn owners(
    alloc: Global,
    resources: &[&Resource],
) -> Result<Items<Option<UnitOwner>>, NoMemory>
    requires sum { sum_by (λ r. own_units r.makeup) (map (λ r. r.now) resources.now) ≤ MOST_UNITS }
    requires few { length (map (λ r. r.now) resources.now) ≤ 64 }
    ensures count { IfOk result (λ owners. length owners ≡ MOST_UNITS) }
    ensures owner { IfOk result (λ owners. (v : ℕ) → v < MOST_UNITS
        → slice_index_or owners v None ≡ owner_of (map (λ r. r.now) resources.now) v) }
{
    let mut owners = Vec::with_capacity(alloc, MOST_UNITS)?;
    for unit in 0..MOST_UNITS {
        owners.push(owner_at(resources, unit))?;
    }
    Ok(Items::from_vec(owners))
}
