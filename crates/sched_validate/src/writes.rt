//! The numbers of a table's writes.
ghost use Rattle.std.specs.Prelude.{◌≡◌, ◌<◌, ◌^◌, map, slice_get, All, IfOk};
ghost use Rattle.sched_checks.specs.Resources.{place_or_first, uses_by};
ghost use Rattle.sched_validate.specs.Classes.{facts_of, hold_or_one, IsSmallWrite};

use crate::binding::eight;
use crate::narrow::{count, micro_ops};
use machine_model::{Use, WriteFacts};
use mca_fixed::{Items, NoMemory};
use sched_resolve::{Numbers, Write};
use std::alloc::Global;

/// The cycles for which the use at a place holds its unit; 1 where none are given.
fn hold(cycles: &Numbers, place: usize) -> u32
    requires { hold_or_one (slice_get cycles.now place) < 2 ^ 32 }
    ensures { result ≡ hold_or_one (slice_get cycles.now place) }
{
    match cycles.get(place) {
        Some(cycles) => count(cycles),
        None => 1,
    }
}

/// The number of a resource; 0 where there is none.
fn place_or_first(resource: Option<usize>) -> u8
    requires { place_or_first resource < 2 ^ 8 }
    ensures { result ≡ place_or_first resource }
{
    match resource {
        Some(place) => place as u8,
        None => 0,
    }
}

/// The uses of a write, as written.
fn uses(alloc: Global, write: &Write) -> Result<Vec<Use>, NoMemory>
    requires { IsSmallWrite write.now }
    ensures { IfOk result (λ uses. uses.items ≡ uses_by write.now.uses write.now.cycles) }
{
    let mut uses = Vec::with_capacity(alloc, write.uses.len())?;
    for (place, resource) in write.uses.as_slice().iter().enumerate() {
        uses.push(Use {
            resource: place_or_first(*resource),
            hold: hold(&write.cycles, place),
        })?;
    }
    Ok(uses)
}

/// The numbers of a write.
fn facts(alloc: Global, write: &Write) -> Result<WriteFacts, NoMemory>
    requires { IsSmallWrite write.now }
    ensures { IfOk result (λ facts. facts ≡ facts_of write.now) }
{
    let uses = uses(alloc, write)?;
    Ok(WriteFacts {
        latency: count(write.latency),
        uops: micro_ops(write.micro_ops),
        use_count: write.uses.len() as u8,
        uses: eight(&uses),
        begins_group: write.begins_group,
        ends_group: write.ends_group,
    })
}

/// The numbers of all writes, in order.
pub(crate) fn all_facts(alloc: Global, writes: &[&Write]) -> Result<Items<WriteFacts>, NoMemory>
    requires { All (λ w. IsSmallWrite w.now) writes.now }
    ensures { IfOk result (λ facts. facts ≡ map (λ w. facts_of w.now) writes.now) }
{
    let mut all = Vec::with_capacity(alloc, writes.len())?;
    for write in writes {
        all.push(facts(alloc, write)?)?;
    }
    Ok(Items::from_vec(all))
}
