//! Resolving the records of a table.
ghost use Rattle.std.specs.Prelude.{◌≡◌, map, Contains, IfOk};
ghost use Rattle.sched_records.specs.Classes.{class_of};
ghost use Rattle.sched_resolve.specs.Entries as spec;

use crate::earlier::Earlier;
use crate::entry::{Defaults, Entries, Entry};
use crate::kinds::{
    advance_entry, file_entry, group_of, model_of, queue_entry, resource_entry, retirement_entry,
    rewrite_entry, units_of, write_entry,
};
use crate::name_space::NameSpace;
use crate::names::Names;
use crate::opcodes::all_opcodes;
use crate::reading::class_in;
use mca_fixed::{Items, NoMemory};
use rv_isa::{Op, default_class};
use sched_records::{Class, Record};
use std::alloc::Global;

/// What a record of a class says.
fn entry_by(
    alloc: Global,
    names: &Names,
    earlier: &Earlier,
    one: &Record,
    class: Class,
) -> Result<Entry, NoMemory>
    requires table { names.now ≡ earlier.now.table }
    requires stands { Contains earlier.now.table one.now }
    requires class { class_of one.now.class ≡ Some class }
    ensures { IfOk result (λ e. e ≡ spec.entry_by names.now earlier.now.earlier one.now (Some class)) }
{
    match class {
        Class::SchedMachineModel => Ok(Entry::Model(model_of(one))),
        Class::ProcResource => {
            let resource = resource_entry(alloc, names, units_of(one), one)?;
            Ok(Entry::Resource(resource))
        }
        Class::ProcResGroup => {
            let group = group_of(alloc, names, one)?;
            Ok(Entry::Resource(resource_entry(alloc, names, group, one)?))
        }
        Class::WriteRes => {
            let again = earlier.is_second_write(one);
            Ok(Entry::Write(write_entry(alloc, names, again, 1, one)?))
        }
        Class::SchedWriteRes => Ok(Entry::Write(write_entry(alloc, names, false, 0, one)?)),
        Class::ReadAdvance => Ok(Entry::Advance(advance_entry(alloc, names, earlier, one)?)),
        Class::RegisterFile => Ok(Entry::File(file_entry(alloc, names, one)?)),
        Class::RetireControlUnit => Ok(Entry::Retirement(retirement_entry(names, one))),
        Class::LoadQueue => Ok(Entry::LoadQueue(queue_entry(names, one))),
        Class::StoreQueue => Ok(Entry::StoreQueue(queue_entry(names, one))),
        Class::InstRW => Ok(Entry::Rewrite(rewrite_entry(alloc, names, one)?)),
        Class::SchedWrite => Ok(Entry::Nothing),
        Class::SchedRead => Ok(Entry::Nothing),
    }
}

fn entry_of(
    alloc: Global,
    names: &Names,
    earlier: &Earlier,
    one: &Record,
) -> Result<Entry, NoMemory>
    requires table { names.now ≡ earlier.now.table }
    requires stands { Contains earlier.now.table one.now }
    ensures { IfOk result (λ e. e ≡ spec.entry_of names.now earlier.now.earlier one.now) }
{
    match class_in(one) {
        None => Ok(Entry::Nothing),
        Some(class) => entry_by(alloc, names, earlier, one, class),
    }
}

fn entries_of(alloc: Global, names: &Names, records: &[Record]) -> Result<Items<Entry>, NoMemory>
    requires { names.now ≡ records.now }
    ensures { IfOk result (λ e. e ≡ spec.entries_of records.now) }
{
    let mut found = Vec::with_capacity(alloc, records.len())?;
    let mut earlier = Earlier::none(alloc, records);
    for one in records {
        found.push(entry_of(alloc, names, &earlier, one)?)?;
        earlier = earlier.next(names)?;
    }
    Ok(Items::from_vec(found))
}

#[tactic(auto, unfolding(crate::specs::Entries::defaults_of))]
fn defaults_of(names: &Names, op: Op) -> Defaults
    ensures { result ≡ spec.defaults_of names.now op }
{
    let classes = default_class(op);
    Defaults {
        write: names.place(NameSpace::WrittenClass, classes.write.as_bytes()),
        rs1: names.place(NameSpace::Read, classes.read1.as_bytes()),
        rs2: names.place(NameSpace::Read, classes.read2.as_bytes()),
    }
}

fn defaults_among(alloc: Global, names: &Names, ops: &[Op]) -> Result<Items<Defaults>, NoMemory>
    ensures { IfOk result (λ d. d ≡ map (spec.defaults_of names.now) ops.now) }
{
    let mut found = Vec::with_capacity(alloc, ops.len())?;
    for op in ops {
        found.push(defaults_of(names, *op))?;
    }
    Ok(Items::from_vec(found))
}

#[tactic(auto, unfolding(crate::specs::Entries::all_defaults))]
fn all_defaults(alloc: Global, names: &Names) -> Result<Items<Defaults>, NoMemory>
    ensures { IfOk result (λ d. d ≡ spec.all_defaults names.now) }
{
    defaults_among(alloc, names, all_opcodes())
}

/// What the records say, with their names looked up among these.
fn entries_with(alloc: Global, names: &Names, records: &[Record]) -> Result<Entries, NoMemory>
    requires { names.now ≡ records.now }
    ensures list { IfOk result (λ entries. entries.list ≡ spec.entries_of records.now) }
    ensures defaults { IfOk result (λ entries. entries.defaults ≡ spec.all_defaults names.now) }
{
    let list = entries_of(alloc, names, records)?;
    let defaults = all_defaults(alloc, names)?;
    Ok(Entries { list, defaults })
}

/// What the records say, each by its own class and with its names looked up among all of them.
pub fn resolve_records(alloc: Global, records: &[Record]) -> Result<Entries, NoMemory>
    ensures list { IfOk result (λ entries. entries.list ≡ spec.entries_of records.now) }
    ensures defaults { IfOk result (λ entries. entries.defaults ≡ spec.all_defaults records.now) }
{
    let names = Names::of(alloc, records)?;
    entries_with(alloc, &names, records)
}
