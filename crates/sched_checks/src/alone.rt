//! Checks of one record alone, each of a field or two.
ghost use Rattle.std.specs.Prelude.{◌≡◌};
ghost use Rattle.std.specs.List.{list_any};
ghost use Rattle.sched_checks.specs.Checks as spec;

use sched_resolve::{Entry, Makeup};

fn any_unknown(places: &[Option<usize>]) -> bool
    ensures { result ≡ list_any spec.is_unknown places.now }
{
    places.iter().any(|place| place.is_none())
}

fn unknown_member(makeup: &Makeup) -> bool
    ensures { result ≡ spec.unknown_member makeup.now }
{
    match makeup {
        Makeup::Units(_) => false,
        Makeup::Group(members) => any_unknown(members.as_slice()),
    }
}

/// A name of the record stands for nothing of the kind that is wanted there.
pub fn unknown_name(entry: &Entry) -> bool
    ensures { result ≡ spec.unknown_name entry.now }
{
    match entry {
        Entry::Model(_) => false,
        Entry::Resource(resource) => !resource.in_model || unknown_member(&resource.makeup),
        Entry::Write(write) => !write.in_model || any_unknown(write.uses.as_slice()),
        Entry::Advance(advance) => !advance.in_model,
        Entry::File(file) => !file.in_model,
        Entry::Retirement(retirement) => !retirement.in_model,
        Entry::LoadQueue(queue) => !queue.in_model || queue.resource.is_none(),
        Entry::StoreQueue(queue) => !queue.in_model || queue.resource.is_none(),
        Entry::Rewrite(rewrite) => {
            !rewrite.in_model || (0 < rewrite.names && rewrite.write.is_none())
        }
        Entry::Nothing => false,
    }
}

fn is_empty_makeup(makeup: &Makeup) -> bool
    ensures { result ≡ spec.is_empty_makeup makeup.now }
{
    match makeup {
        Makeup::Units(units) => *units == 0,
        Makeup::Group(members) => members.is_empty(),
    }
}

/// A `ProcResource` of 0 units, or a group without members.
pub fn no_units(entry: &Entry) -> bool
    ensures { result ≡ spec.no_units entry.now }
{
    match entry {
        Entry::Resource(resource) => is_empty_makeup(&resource.makeup),
        _ => false,
    }
}

/// A list of this length is there, and not as long as the one that it goes with.
fn lengths_differ(len: usize, other: usize) -> bool
    ensures { result ≡ spec.lengths_differ len other }
{
    len != 0 && len != other
}

/// Lists that go together are not of one length, or an `InstRW` has no or more than three names.
pub fn list_lengths(entry: &Entry) -> bool
    ensures { result ≡ spec.list_lengths entry.now }
{
    match entry {
        Entry::Write(write) => lengths_differ(write.cycles.len(), write.uses.len()),
        Entry::File(file) => lengths_differ(file.costs.len(), file.classes.len()),
        Entry::Rewrite(rewrite) => rewrite.names == 0 || 3 < rewrite.names,
        _ => false,
    }
}

/// `NumMicroOps` is 0.
pub fn zero_micro_ops(entry: &Entry) -> bool
    ensures { result ≡ spec.zero_micro_ops entry.now }
{
    match entry {
        Entry::Write(write) => write.micro_ops == 0,
        _ => false,
    }
}

/// `MicroOpBufferSize` is 0.
pub fn in_order_model(entry: &Entry) -> bool
    ensures { result ≡ spec.in_order_model entry.now }
{
    match entry {
        Entry::Model(model) => model.buffer == 0,
        _ => false,
    }
}

/// A `RegisterFile` eliminates moves.
pub fn move_elimination(entry: &Entry) -> bool
    ensures { result ≡ spec.move_elimination entry.now }
{
    match entry {
        Entry::File(file) => file.eliminates,
        _ => false,
    }
}

/// A second advance of a read after a write.
pub fn two_advances(entry: &Entry) -> bool
    ensures { result ≡ spec.two_advances entry.now }
{
    match entry {
        Entry::Advance(advance) => advance.again,
        _ => false,
    }
}
