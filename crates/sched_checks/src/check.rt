//! The first illness of a table.
ghost use Rattle.std.specs.Prelude.{◌≡◌, ◌≢◌, ◌≤◌, Some, [], length, IfOk, IfSome};
ghost use Rattle.std.specs.List.{list_any};
ghost use Rattle.sched_records.specs.declared.limits.TheConstants.{MOST_RECORDS};
ghost use Rattle.sched_checks.specs.Checks.{is_model};
ghost use Rattle.sched_checks.specs.Illness as spec;
ghost use Rattle.sched_checks.specs.declared.illness.IllKind.TheVariants.{Memory};

use crate::alone::{
    in_order_model, list_lengths, move_elimination, no_units, two_advances, unknown_name,
    zero_micro_ops,
};
use crate::before::RecordsBefore;
use crate::illness::{IllKind, TableIllness};
use crate::registers::file_too_small;
use crate::resources::Resources;
use crate::uses::use_cannot_be_met;
use mca_fixed::NoMemory;
use sched_resolve::Entry;
use std::alloc::Global;

/// The illness of a record behind these, in a table of these resources.
pub fn ill_kind(
    alloc: Global,
    resources: &Resources<'_>,
    earlier: &RecordsBefore<'_>,
    entry: &Entry,
) -> Result<Option<IllKind>, NoMemory>
    ensures first { IfOk result (λ kind. kind ≡ spec.ill_kind resources.now earlier.now entry.now) }
    ensures no_memory { IfOk result (λ kind. kind ≢ Some Memory) }
{
    if earlier.two_models(entry) {
        return Ok(Some(IllKind::TwoModels));
    }
    if unknown_name(entry) {
        return Ok(Some(IllKind::UnknownName));
    }
    if no_units(entry) {
        return Ok(Some(IllKind::NoUnits));
    }
    if resources.group_of_group(entry) {
        return Ok(Some(IllKind::GroupOfGroup));
    }
    if list_lengths(entry) {
        return Ok(Some(IllKind::ListLengths));
    }
    if zero_micro_ops(entry) {
        return Ok(Some(IllKind::ZeroMicroOps));
    }
    if earlier.out_of_range(entry) {
        return Ok(Some(IllKind::OutOfRange));
    }
    if in_order_model(entry) {
        return Ok(Some(IllKind::InOrderModel));
    }
    if move_elimination(entry) {
        return Ok(Some(IllKind::MoveElimination));
    }
    if earlier.two_files(entry) {
        return Ok(Some(IllKind::TwoFilesOneRegister));
    }
    if file_too_small(entry) {
        return Ok(Some(IllKind::FileTooSmall));
    }
    if earlier.two_writes(entry) {
        return Ok(Some(IllKind::TwoWrites));
    }
    if two_advances(entry) {
        return Ok(Some(IllKind::TwoAdvances));
    }
    if earlier.two_queues(entry) {
        return Ok(Some(IllKind::TwoQueues));
    }
    if use_cannot_be_met(alloc, resources, entry)? {
        return Ok(Some(IllKind::UseCannotBeMet));
    }
    Ok(None)
}

fn has_model(entries: &[Entry]) -> bool
    ensures { result ≡ list_any is_model entries.now }
{
    entries.iter().any(|entry| entry.is_model())
}

/// The first illness of the records one by one.
fn first_of_records(
    alloc: Global,
    resources: &Resources<'_>,
    entries: &[Entry],
) -> Result<Option<TableIllness>, NoMemory>
    requires { length entries.now ≤ MOST_RECORDS }
    ensures first { IfOk result (λ illness.
        illness ≡ spec.illness_from resources.now 1 [] entries.now) }
    ensures no_memory { IfOk result (λ illness. IfSome illness (λ f. f.kind ≢ Memory)) }
{
    let mut earlier = RecordsBefore::none(alloc)?;
    for (k, entry) in entries.iter().enumerate() {
        if let Some(kind) = ill_kind(alloc, resources, &earlier, entry)? {
            return Ok(Some(TableIllness {
                number: k as u32 + 1,
                kind,
            }));
        }
        earlier = earlier.with(&entries[..k + 1], entry)?;
    }
    Ok(None)
}

/// The first illness of a table of at most `MOST_RECORDS` records, if it has one.
pub fn first_illness(alloc: Global, entries: &[Entry]) -> Result<Option<TableIllness>, NoMemory>
    requires { length entries.now ≤ MOST_RECORDS }
    ensures first { IfOk result (λ illness. illness ≡ spec.illness_of entries.now) }
    ensures no_memory { IfOk result (λ illness. IfSome illness (λ f. f.kind ≢ Memory)) }
{
    if !has_model(entries) {
        return Ok(Some(TableIllness {
            number: 0,
            kind: IllKind::NoModel,
        }));
    }
    let resources = Resources::of(alloc, entries)?;
    first_of_records(alloc, &resources, entries)
}
