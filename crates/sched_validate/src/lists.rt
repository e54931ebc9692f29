//! The entries of a table by their kinds, each kind in order.
ghost use Rattle.std.specs.Prelude.{◌≡◌, map, slice_get, IfOk};
ghost use Rattle.std.specs.Option.{option_copied};
ghost use Rattle.sched_checks.specs.Resources.{resources_of};
ghost use Rattle.sched_validate.specs.Classes.{writes_of, advances_of};
ghost use Rattle.sched_validate.specs.Lists.{models_of, files_of, retirements_of, load_queues_of, store_queues_of, rewrites_of};

use mca_fixed::NoMemory;
use sched_resolve::{Advance, Entry, File, Model, Queue, Resource, Retirement, Rewrite, Write};
use std::alloc::Global;

/// The entries of a table by their kinds, each kind in order.
#[derive(Clone, Copy)]
pub struct Lists<'e> {
    pub resources: &'e [&'e Resource],
    pub files: &'e [&'e File],
    pub writes: &'e [&'e Write],
    pub rewrites: &'e [&'e Rewrite],
    pub advances: &'e [&'e Advance],
}

/// The resources, by their numbers.
pub(crate) fn resources(alloc: Global, entries: &[Entry]) -> Result<Vec<&Resource>, NoMemory>
    ensures { IfOk result (λ found. map (λ r. r.now) found.items ≡ resources_of entries.entry.now) }
{
    let mut found = Vec::new(alloc);
    for entry in entries {
        if let Entry::Resource(one) = entry {
            found.push(one)?;
        }
    }
    Ok(found)
}

/// The writes, by their numbers.
pub(crate) fn writes(alloc: Global, entries: &[Entry]) -> Result<Vec<&Write>, NoMemory>
    ensures { IfOk result (λ found. map (λ r. r.now) found.items ≡ writes_of entries.entry.now) }
{
    let mut found = Vec::new(alloc);
    for entry in entries {
        if let Entry::Write(one) = entry {
            found.push(one)?;
        }
    }
    Ok(found)
}

/// The advances, by their numbers.
pub(crate) fn advances(alloc: Global, entries: &[Entry]) -> Result<Vec<&Advance>, NoMemory>
    ensures { IfOk result (λ found. map (λ r. r.now) found.items ≡ advances_of entries.entry.now) }
{
    let mut found = Vec::new(alloc);
    for entry in entries {
        if let Entry::Advance(one) = entry {
            found.push(one)?;
        }
    }
    Ok(found)
}

/// The register files, by their numbers.
pub(crate) fn files(alloc: Global, entries: &[Entry]) -> Result<Vec<&File>, NoMemory>
    ensures { IfOk result (λ found. map (λ r. r.now) found.items ≡ files_of entries.entry.now) }
{
    let mut found = Vec::new(alloc);
    for entry in entries {
        if let Entry::File(one) = entry {
            found.push(one)?;
        }
    }
    Ok(found)
}

/// The `InstRW` records.
pub(crate) fn rewrites(alloc: Global, entries: &[Entry]) -> Result<Vec<&Rewrite>, NoMemory>
    ensures { IfOk result (λ found. map (λ r. r.now) found.items ≡ rewrites_of entries.entry.now) }
{
    let mut found = Vec::new(alloc);
    for entry in entries {
        if let Entry::Rewrite(one) = entry {
            found.push(one)?;
        }
    }
    Ok(found)
}

/// The first model, if there is one.
pub(crate) fn model(entries: &[Entry]) -> Option<&Model>
    ensures { option_copied result ≡ slice_get (models_of entries.entry.now) 0 }
{
    for entry in entries {
        if let Entry::Model(one) = entry {
            return Some(one);
        }
    }
    None
}

/// The first retire control unit, if there is one.
pub(crate) fn retirement(entries: &[Entry]) -> Option<&Retirement>
    ensures { option_copied result ≡ slice_get (retirements_of entries.entry.now) 0 }
{
    for entry in entries {
        if let Entry::Retirement(one) = entry {
            return Some(one);
        }
    }
    None
}

/// The first load queue, if there is one.
pub(crate) fn load_queue(entries: &[Entry]) -> Option<&Queue>
    ensures { option_copied result ≡ slice_get (load_queues_of entries.entry.now) 0 }
{
    for entry in entries {
        if let Entry::LoadQueue(one) = entry {
            return Some(one);
        }
    }
    None
}

/// The first store queue, if there is one.
pub(crate) fn store_queue(entries: &[Entry]) -> Option<&Queue>
    ensures { option_copied result ≡ slice_get (store_queues_of entries.entry.now) 0 }
{
    for entry in entries {
        if let Entry::StoreQueue(one) = entry {
            return Some(one);
        }
    }
    None
}
