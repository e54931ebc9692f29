//! The widths and bounds of a table's machine.
ghost use Rattle.std.specs.Prelude.{◌≡◌, ◌<◌, ◌^◌, map};
ghost use Rattle.std.specs.Option.{option_copied};
ghost use Rattle.machine_model.specs.Valid.{AreLimits};
ghost use Rattle.sched_checks.specs.Resources.{count_of, resources_of};
ghost use Rattle.sched_validate.specs.Machine.{or_own, model_of, reorder_of, retire_of, bound_by, limits_of};

use crate::lists::{load_queue, model, retirement, store_queue};
use crate::narrow::count;
use machine_model::{Limits, Tuning};
use sched_resolve::{Entry, Queue, Resource};

/// A number of the command line, where it is not 0, else the machine's own.
fn or_own(tuned: u32, own: u32) -> u32
    ensures { result ≡ or_own tuned own }
{
    if tuned == 0 { own } else { tuned }
}

/// The width of the first model.
#[tactic(auto, using(crate::proofs::Tuned::first_or, crate::proofs::Tuned::first_none))]
fn width(entries: &[Entry]) -> u32
    ensures { count_of (model_of entries.now).width < 2 ^ 32
        → result ≡ count_of (model_of entries.now).width }
{
    match model(entries) {
        Some(model) => count(model.width),
        None => 1,
    }
}

/// The buffer of the first model.
#[tactic(auto, using(crate::proofs::Tuned::first_or, crate::proofs::Tuned::first_none))]
fn buffer(entries: &[Entry]) -> u32
    ensures { count_of (model_of entries.now).buffer < 2 ^ 32
        → result ≡ count_of (model_of entries.now).buffer }
{
    match model(entries) {
        Some(model) => count(model.buffer),
        None => 1,
    }
}

/// The entries of the reorder buffer.
fn reorder(entries: &[Entry]) -> u32
    ensures { count_of (reorder_of entries.now) < 2 ^ 32
        → result ≡ count_of (reorder_of entries.now) }
{
    match retirement(entries) {
        Some(unit) if unit.entries >= 1 => count(unit.entries),
        _ => buffer(entries),
    }
}

/// The retire width.
fn retire(entries: &[Entry]) -> u32
    ensures { retire_of entries.now < 2 ^ 32 → result ≡ retire_of entries.now }
{
    match retirement(entries) {
        Some(unit) => count(unit.width),
        None => 0,
    }
}

/// The bound of a queue: the buffer of its resource.
fn bound(resources: &[&Resource], queue: Option<&Queue>) -> u32
    ensures { bound_by (map (λ r. r.now) resources.now) (option_copied queue.entry) < 2 ^ 32
        → result ≡ bound_by (map (λ r. r.now) resources.now) (option_copied queue.entry) }
{
    let Some(queue) = queue else {
        return 0;
    };
    let Some(place) = queue.resource else {
        return 0;
    };
    match resources.get(place) {
        Some(resource) => count(resource.buffer),
        None => 0,
    }
}

/// The widths and bounds of a table's machine, of these resources.
pub(crate) fn limits(entries: &[Entry], resources: &[&Resource], tuning: &Tuning) -> Limits
    requires resources { map (λ r. r.now) resources.now ≡ resources_of entries.now }
    requires right { AreLimits (limits_of entries.now tuning.now) }
    ensures { result ≡ limits_of entries.now tuning.now }
{
    Limits {
        width: or_own(tuning.dispatch, width(entries)),
        reorder: reorder(entries),
        retire: retire(entries),
        loads: or_own(tuning.loads, bound(resources, load_queue(entries))),
        stores: or_own(tuning.stores, bound(resources, store_queue(entries))),
        registers: tuning.registers,
        no_alias: tuning.no_alias,
    }
}
