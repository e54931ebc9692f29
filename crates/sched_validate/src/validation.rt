//! Validating the records of a table.
ghost use Rattle.std.specs.Prelude.{◌≡◌, ◌≤◌, length, IfOk, IfErr, None};
ghost use Rattle.sched_records.specs.declared.limits.TheConstants.{MOST_RECORDS};
ghost use Rattle.sched_checks.specs.declared.illness.IllKind.TheVariants.{Memory};
ghost use Rattle.sched_checks.specs.Illness.{illness_of};
ghost use Rattle.sched_resolve.specs.Entries.{entries_of, all_defaults};
ghost use Rattle.sched_validate.specs.Machine.{machine_of};
ghost use Rattle.sched_validate.specs.Validate.{IsIll};

use crate::machine_numbers::MachineNumbers;
use crate::table::CheckedTable;
use machine_model::{Machine, Tuning};
use sched_checks::{IllKind, TableIllness, first_illness};
use sched_records::Records;
use sched_resolve::resolve_records;
use std::alloc::Global;

fn no_memory() -> TableIllness
    ensures { result ≡ record { number = 0; kind = Memory } }
{
    TableIllness {
        number: 0,
        kind: IllKind::Memory,
    }
}

/// The machine of the records of a table, at most `MOST_RECORDS`, with what the command line changes of it; or
/// the first illness of the table.
pub fn validate(
    alloc: Global,
    records: &Records,
    tuning: &Tuning,
) -> Result<CheckedTable, TableIllness>
    requires { length records.now ≤ MOST_RECORDS }
    ensures healthy { IfOk result (λ table. illness_of (entries_of records.now) ≡ None) }
    ensures machine { IfOk result (λ table. ⟦<CheckedTable as Machine>⟧.meaning table
        ≡ machine_of (entries_of records.now) (all_defaults records.now) tuning.now) }
    ensures ill { IfErr result (IsIll (illness_of (entries_of records.now))) }
    ensures no_record { IfErr result (λ f. f.kind ≡ Memory → f.number ≡ 0) }
{
    let entries = match resolve_records(alloc, records.as_slice()) {
        Ok(entries) => entries,
        Err(_) => return Err(no_memory()),
    };
    match first_illness(alloc, entries.list.as_slice()) {
        Ok(None) => {}
        Ok(Some(illness)) => return Err(illness),
        Err(_) => return Err(no_memory()),
    }
    match MachineNumbers::of(alloc, &entries, tuning) {
        Ok(numbers) => Ok(CheckedTable::new(entries, *tuning, numbers)),
        Err(_) => Err(no_memory()),
    }
}
