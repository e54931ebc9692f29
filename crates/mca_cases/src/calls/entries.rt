//! The calls of `sched_resolve` and `sched_checks`: what the records of a table say, and its first illness.
use crate::case::Case;
use crate::fault::{Fault, wrong};
use mca_fixed::MOST_TEXT_BYTES;
use rv_isa::mnemonic;
use sched_checks::first_illness;
use sched_records::{MOST_RECORDS, read_table};
use sched_resolve::{Entries, all_opcodes, resolve_records};
use std::alloc::Global;
use std::fmt::Write;

/// The answer of a call of this group; none for any other call.
pub(crate) fn answer(alloc: Global, call: &str, case: &Case) -> Result<Option<String>, Fault> {
    if call == "resolve_records" {
        return Ok(Some(entries(alloc, case.input("table")?)?));
    }
    if call == "first_illness" {
        return Ok(Some(illness(alloc, case.input("table")?)?));
    }
    Ok(None)
}

/// What the records of a table say.
fn entries_of(alloc: Global, table: &[u8]) -> Result<Entries, Fault> {
    if table.len() > MOST_TEXT_BYTES {
        return Err(wrong(alloc, "longer than the call takes", "table"));
    }
    match read_table(alloc, table) {
        Ok(records) => Ok(resolve_records(alloc, records.as_slice())?),
        Err(refusal) => Err(wrong(alloc, "no records", refusal.kind.name())),
    }
}

/// The entry of each record, a line each; then, for each opcode whose default classes stand for something, what they
/// stand for.
fn entries(alloc: Global, table: &[u8]) -> Result<String, Fault> {
    let entries = entries_of(alloc, table)?;
    let mut out = String::new(alloc);
    for entry in entries.list.as_slice() {
        writeln!(&mut out, "{entry:?}")?;
    }
    for (op, defaults) in all_opcodes().iter().zip(entries.defaults.as_slice()) {
        if defaults.write.is_some() || defaults.rs1.is_some() || defaults.rs2.is_some() {
            let name = mnemonic(*op);
            writeln!(&mut out, "{name}: {defaults:?}")?;
        }
    }
    Ok(out)
}

/// The number and the kind of the first illness of a table, or that it has none.
fn illness(alloc: Global, table: &[u8]) -> Result<String, Fault> {
    let entries = entries_of(alloc, table)?;
    if entries.list.len() > MOST_RECORDS {
        return Err(wrong(alloc, "more records than the call takes", "table"));
    }
    match first_illness(alloc, entries.list.as_slice())? {
        None => Ok(String::from_str(alloc, "no illness")?),
        Some(illness) => {
            let (number, kind) = (illness.number, illness.kind.name());
            Ok(format!(in alloc; "record {number}: {kind}")?)
        }
    }
}
