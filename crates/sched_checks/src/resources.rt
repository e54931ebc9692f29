//! The resources of a table, and what each is made of.
ghost use Rattle.std.specs.Prelude.{◌≡◌, ◌&&◌, map, nat_eq, nat_lt, slice_get, option_map, IfOk, OnOk};
ghost use Rattle.std.specs.List.{list_any};
ghost use Rattle.sched_checks.specs.Resources.{resources_of, units_at, group_at, plain_at, with_part, with_parts, parts_in, parts, total, share};
ghost use Rattle.sched_checks.specs.Parts.{parts_from, numbers_at, units_of, count_at};
ghost use Rattle.sched_checks.specs.Checks.{is_group_member, has_group, group_of_group};

use indexmap::IndexSet;
use mca_fixed::NoMemory;
use sched_resolve::{Entry, Makeup, Resource};
use std::alloc::Global;
use std::marker::Model;

fn resources_of<'a>(alloc: Global, entries: &'a [Entry]) -> Result<Vec<&'a Resource>, NoMemory>
    ensures { IfOk result (λ list. map (λ r. r.now) list.items ≡ resources_of entries.now) }
{
    let mut list = Vec::new(alloc);
    for entry in entries {
        if let Entry::Resource(resource) = entry {
            list.push(resource)?;
        }
    }
    Ok(list)
}

/// The resource of a number.
fn resource_at<'a>(list: &[&'a Resource], number: usize) -> Option<&'a Resource>
    ensures { option_map (λ r. r.now) result ≡ slice_get (map (λ r. r.now) list.now) number }
{
    list.get(number).copied()
}

fn units_at(list: &[&Resource], number: usize) -> u64
    ensures { result ≡ units_at (slice_get (map (λ r. r.now) list.now) number) }
{
    match resource_at(list, number) {
        None => 0,
        Some(resource) => resource.makeup.own_units(),
    }
}

fn group_at(list: &[&Resource], number: usize) -> bool
    ensures { result ≡ group_at (slice_get (map (λ r. r.now) list.now) number) }
{
    match resource_at(list, number) {
        None => false,
        Some(resource) => resource.makeup.is_group(),
    }
}

fn plain_at(list: &[&Resource], number: usize) -> bool
    ensures { result ≡ plain_at (slice_get (map (λ r. r.now) list.now) number) }
{
    match resource_at(list, number) {
        None => false,
        Some(resource) => !resource.makeup.is_group(),
    }
}

/// Puts a member among the parts of its group.
fn put_part(
    list: &[&Resource],
    parts: &mut IndexSet<usize>,
    member: Option<usize>,
) -> Result<(), NoMemory>
    ensures { OnOk result (parts.new.keys ≡ with_part (map (λ r. r.now) list.now) parts.old.keys member) }
{
    match member {
        None => Ok(()),
        Some(number) => {
            if plain_at(list, number) {
                parts.insert(number)?;
            }
            Ok(())
        }
    }
}

fn put_parts(
    list: &[&Resource],
    parts: &mut IndexSet<usize>,
    members: &[Option<usize>],
) -> Result<(), NoMemory>
    ensures { OnOk result (parts.new.keys ≡ with_parts (map (λ r. r.now) list.now) parts.old.keys members.now) }
{
    for member in members {
        put_part(list, parts, *member)?;
    }
    Ok(())
}

/// The parts of the resource of a number.
fn parts_in(
    alloc: Global,
    list: &[&Resource],
    number: usize,
    makeup: &Makeup,
) -> Result<IndexSet<usize>, NoMemory>
    ensures { IfOk result (λ parts. parts.keys ≡ parts_in (map (λ r. r.now) list.now) number makeup.now) }
{
    let mut parts = IndexSet::new(alloc);
    match makeup {
        Makeup::Units(_) => {
            parts.insert(number)?;
        }
        Makeup::Group(members) => put_parts(list, &mut parts, members.as_slice())?,
    }
    Ok(parts)
}

fn all_parts(alloc: Global, list: &[&Resource]) -> Result<Vec<IndexSet<usize>>, NoMemory>
    ensures { IfOk result (λ all. map (λ parts. parts.keys) all.items
        ≡ parts_from (map (λ r. r.now) list.now) 0 (map (λ r. r.now) list.now)) }
{
    let mut all = Vec::with_capacity(alloc, list.len())?;
    for (number, resource) in list.iter().enumerate() {
        all.push(parts_in(alloc, list, number, &resource.makeup)?)?;
    }
    Ok(all)
}

/// The units of some resources together: of fewer than 2^63 numbers below 2^63.
fn units_of(list: &[&Resource], parts: &[usize]) -> u128
    ensures { result ≡ units_of (map (λ r. r.now) list.now) parts.now }
{
    let mut units = 0;
    for part in parts {
        units += u128::from(units_at(list, *part));
    }
    units
}

fn all_units(
    alloc: Global,
    list: &[&Resource],
    all: &[IndexSet<usize>],
) -> Result<Vec<u128>, NoMemory>
    ensures { IfOk result (λ units. units.items
        ≡ map (units_of (map (λ r. r.now) list.now)) (map (λ parts. parts.keys) all.now)) }
{
    let mut units = Vec::with_capacity(alloc, all.len())?;
    for parts in all {
        units.push(units_of(list, parts.as_slice()))?;
    }
    Ok(units)
}

/// The parts at a place, none behind the end.
fn numbers_at(all: &[IndexSet<usize>], number: usize) -> &[usize]
    ensures { result.now ≡ numbers_at (slice_get (map (λ p. p.keys) all.now) number) }
{
    match all.get(number) {
        None => &[],
        Some(parts) => parts.as_slice(),
    }
}

/// Whether the parts at a place have the number of one.
#[tactic(auto, using(crate::proofs::PartsAt::same_number))]
fn has_number_at(all: &[IndexSet<usize>], number: usize, part: usize) -> bool
    ensures { result
        ≡ list_any (λ q. nat_eq q part) (numbers_at (slice_get (map (λ p. p.keys) all.now) number)) }
{
    match all.get(number) {
        None => false,
        Some(parts) => parts.contains(&part),
    }
}

fn count_at(counts: &[u128], number: usize) -> u128
    ensures { result ≡ count_at (slice_get counts.now number) }
{
    match counts.get(number) {
        None => 0,
        Some(count) => *count,
    }
}

/// The resources of a table, by their numbers, with the parts and the units of each. Contracts see the
/// list.
pub struct Resources<'a> {
    list: Vec<&'a Resource>,
    parts: Vec<IndexSet<usize>>,
    units: Vec<u128>,
}

impl<'a> Model for Resources<'a> {
    ghost use Rattle.std.specs.Prelude.{List, ◌≡◌, map};
    ghost use Rattle.sched_resolve.specs.declared.entry.Resource.{Resource};
    ghost use Rattle.sched_checks.specs.Parts.{parts_from, units_of};

    ghost Value = { List Resource };

    ghost view = { λ s. map (λ r. r.now) s.list.items };

    ghost invariant = { λ s. let rs = map (λ r. r.now) s.list.items in let all = parts_from rs 0 rs in
        (map (λ p. p.keys) s.parts.items ≡ all) × (s.units.items ≡ map (units_of rs) all) };
}

/// Written out, so that what drops resources does it by a call: to check the drop of a set takes long.
impl<'a> Drop for Resources<'a> {
    fn drop(self) {
        let Resources {
            list: _,
            parts: _,
            units: _,
        } = self;
    }
}

impl<'a> Resources<'a> {
    /// Those of a table's records.
    pub fn of(alloc: Global, entries: &'a [Entry]) -> Result<Resources<'a>, NoMemory>
        ensures { IfOk result (λ resources. resources ≡ resources_of entries.now) }
    {
        let list = resources_of(alloc, entries)?;
        let parts = all_parts(alloc, &list)?;
        let units = all_units(alloc, &list, &parts)?;
        Ok(Resources { list, parts, units })
    }

    /// The units of a resource.
    pub fn total(&self, number: usize) -> u128
        ensures { result ≡ total self.now number }
    {
        count_at(self.units.as_slice(), number)
    }

    /// The parts of a resource.
    fn parts(&self, number: usize) -> &[usize]
        ensures { result.now ≡ parts self.now number }
    {
        numbers_at(self.parts.as_slice(), number)
    }

    fn is_part(&self, number: usize, part: usize) -> bool
        ensures { result ≡ list_any (λ q. nat_eq q part) (parts self.now number) }
    {
        has_number_at(self.parts.as_slice(), number, part)
    }

    /// Whether a part that has units is a part of the resource too.
    fn has_units_in(&self, number: usize, part: usize) -> bool
        ensures { result
            ≡ (nat_lt 0 (units_at (slice_get self.now part)) && list_any (λ q. nat_eq q part) (parts self.now number)) }
    {
        0 < units_at(self.list.as_slice(), part) && self.is_part(number, part)
    }

    /// Whether two resources have a part in common that has units.
    pub fn share(&self, one: usize, other: usize) -> bool
        ensures { result ≡ share self.now one other }
    {
        self.parts(one)
            .iter()
            .any(|part| self.has_units_in(other, *part))
    }

    fn is_group_member(&self, member: Option<usize>) -> bool
        ensures { result ≡ is_group_member self.now member }
    {
        match member {
            None => false,
            Some(number) => group_at(self.list.as_slice(), number),
        }
    }

    fn any_group(&self, members: &[Option<usize>]) -> bool
        ensures { result ≡ list_any (is_group_member self.now) members.now }
    {
        members.iter().any(|member| self.is_group_member(*member))
    }

    fn has_group(&self, makeup: &Makeup) -> bool
        ensures { result ≡ has_group self.now makeup.now }
    {
        match makeup {
            Makeup::Units(_) => false,
            Makeup::Group(members) => self.any_group(members.as_slice()),
        }
    }

    /// A member of a group is a group.
    pub fn group_of_group(&self, entry: &Entry) -> bool
        ensures { result ≡ group_of_group self.now entry.now }
    {
        match entry {
            Entry::Resource(resource) => self.has_group(&resource.makeup),
            _ => false,
        }
    }
}
