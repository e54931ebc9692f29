//! What a record of each class says.
ghost use Rattle.std.specs.Prelude.{◌≡◌, ◌++◌, map, pos, true, is_some, Contains, IfOk, OnOk};
ghost use Rattle.std.specs.List.{list_any};
ghost use Rattle.std.specs.Option.{option_to_list};
ghost use Rattle.sched_resolve.specs.Reading.{argument, atoms_in, number_or, word_of};
ghost use Rattle.sched_resolve.specs.Names.{place_of, write_named};
ghost use Rattle.sched_resolve.specs.Noted.{advance_class};
ghost use Rattle.sched_resolve.specs.Entries as spec;

use crate::earlier::Earlier;
use crate::entry::{
    Advance, File, Makeup, Model, Queue, Registers, Resource, Retirement, Rewrite, Write,
};
use crate::name_space::NameSpace;
use crate::names::Names;
use crate::numbers::Numbers;
use crate::opcodes::ops_named;
use crate::reading::{
    argument_atoms, argument_instrs, argument_number, argument_word, behind, field_number,
    field_truth, first_word, numbers, shared_field, some_truth, word_of,
};
use mca_fixed::{Items, NoMemory, Text};
use sched_records::{Atom, Field, Record};
use std::alloc::Global;

/// What a `SchedMachineModel` says.
#[tactic(auto, unfolding(crate::specs::Entries::model_of))]
pub fn model_of(one: &Record) -> Model
    ensures { result ≡ spec.model_of one.now }
{
    Model {
        width: field_number(1, one, Field::IssueWidth),
        buffer: field_number(0, one, Field::MicroOpBufferSize),
    }
}

fn resources_named(
    alloc: Global,
    names: &Names,
    atoms: &[Atom],
) -> Result<Items<Option<usize>>, NoMemory>
    ensures { IfOk result (λ r. r ≡ map (place_of NameSpace.Resource names.now) (map word_of atoms.now)) }
{
    let mut found = Vec::with_capacity(alloc, atoms.len())?;
    for atom in atoms {
        found.push(names.place(NameSpace::Resource, word_of(atom)))?;
    }
    Ok(Items::from_vec(found))
}

/// The units of a `ProcResource`.
pub fn units_of(one: &Record) -> Makeup
    ensures { result ≡ Makeup.Units (number_or (pos 0) (argument one.now 0)) }
{
    Makeup::Units(argument_number(0, one, 0))
}

/// The members of a `ProcResGroup`.
pub fn group_of(alloc: Global, names: &Names, one: &Record) -> Result<Makeup, NoMemory>
    ensures { IfOk result (λ m. m ≡ Makeup.Group (spec.resources_named names.now (argument one.now 0))) }
{
    Ok(Makeup::Group(resources_named(alloc, names, argument_atoms(one, 0))?))
}

/// What a `ProcResource` or a `ProcResGroup` of this makeup says.
#[tactic(auto, unfolding(crate::specs::Entries::resource_entry))]
pub fn resource_entry(
    alloc: Global,
    names: &Names,
    makeup: Makeup,
    one: &Record,
) -> Result<Resource, NoMemory>
    ensures { IfOk result (λ r. r ≡ spec.resource_entry names.now makeup one.now) }
{
    Ok(Resource {
        in_model: names.in_model(one),
        name: Text::from_string(String::from_utf8_lossy(alloc, one.name.as_bytes())?),
        makeup,
        buffer: field_number(-1, one, Field::BufferSize),
    })
}

fn either(one: &Record, first: Field, other: Field) -> bool
    ensures { result ≡ spec.either one.now first other }
{
    field_truth(one, first) || field_truth(one, other)
}

/// What a `WriteRes` or a `SchedWriteRes` says whose resources stand in an argument; `again` says whether
/// it is the second of its class.
#[tactic(auto, unfolding(crate::specs::Entries::write_entry))]
pub fn write_entry(
    alloc: Global,
    names: &Names,
    again: bool,
    place: usize,
    one: &Record,
) -> Result<Write, NoMemory>
    ensures { IfOk result (λ w. w ≡ spec.write_entry names.now again (argument one.now place) one.now) }
{
    Ok(Write {
        in_model: names.in_model(one),
        again,
        uses: resources_named(alloc, names, argument_atoms(one, place))?,
        cycles: Numbers::of(shared_field(one, Field::ReleaseAtCycles))?,
        latency: field_number(1, one, Field::Latency),
        micro_ops: field_number(1, one, Field::NumMicroOps),
        begins_group: either(one, Field::BeginGroup, Field::SingleIssue),
        ends_group: either(one, Field::EndGroup, Field::SingleIssue),
        unsupported: field_truth(one, Field::Unsupported),
    })
}

fn push_some(found: &mut Vec<usize>, place: Option<usize>) -> Result<(), NoMemory>
    ensures { OnOk result (found.new.items ≡ found.old.items ++ option_to_list place) }
{
    if let Some(place) = place {
        found.push(place)?;
    }
    Ok(())
}

fn writes_named(alloc: Global, names: &Names, atoms: &[Atom]) -> Result<Items<usize>, NoMemory>
    ensures { IfOk result (λ w. w ≡ spec.all_writes_of names.now (map word_of atoms.now)) }
{
    let mut found = Vec::new(alloc);
    for atom in atoms {
        push_some(&mut found, names.place(NameSpace::OwnWrite, word_of(atom)))?;
        push_some(
            &mut found,
            names.place(NameSpace::WrittenClass, word_of(atom)),
        )?;
    }
    Ok(Items::from_vec(found))
}

fn number_or_own(own: usize, number: Option<usize>) -> usize
    ensures { result ≡ spec.number_or_own own number }
{
    match number {
        None => own,
        Some(number) => number,
    }
}

/// What a `ReadAdvance` says.
#[tactic(auto, unfolding(crate::specs::Entries::advance_entry))]
pub fn advance_entry(
    alloc: Global,
    names: &Names,
    earlier: &Earlier,
    one: &Record,
) -> Result<Advance, NoMemory>
    requires table { names.now ≡ earlier.now.table }
    requires stands { Contains earlier.now.table one.now }
    requires advance { advance_class one.now ≡ true }
    ensures { IfOk result (λ a. a ≡ spec.advance_entry names.now earlier.now.earlier one.now) }
{
    Ok(Advance {
        in_model: names.in_model(one),
        again: earlier.is_second_advance(names, one),
        read: number_or_own(
            earlier.advances(),
            names.place(NameSpace::Read, argument_word(one, 0)),
        ),
        cycles: argument_number(0, one, 1),
        general: argument_atoms(one, 2).is_empty(),
        writes: writes_named(alloc, names, argument_atoms(one, 2))?,
        unsupported: field_truth(one, Field::Unsupported),
    })
}

#[tactic(auto, unfolding(crate::specs::Entries::registers_of))]
fn registers_of(name: &[u8]) -> Registers
    ensures { result ≡ spec.registers_of name.now }
{
    if name == b"GPR".as_slice() || name == b"GPRNoX0".as_slice() {
        return Registers::General;
    }
    if name == b"GPRC".as_slice() {
        return Registers::Compressed;
    }
    Registers::Other
}

fn classes_named(alloc: Global, atoms: &[Atom]) -> Result<Items<Registers>, NoMemory>
    ensures { IfOk result (λ c. c ≡ map spec.registers_of (map word_of atoms.now)) }
{
    let mut found = Vec::with_capacity(alloc, atoms.len())?;
    for atom in atoms {
        found.push(registers_of(word_of(atom)))?;
    }
    Ok(Items::from_vec(found))
}

/// What a `RegisterFile` says.
#[tactic(auto, unfolding(crate::specs::Entries::file_entry))]
pub fn file_entry(alloc: Global, names: &Names, one: &Record) -> Result<File, NoMemory>
    ensures { IfOk result (λ f. f ≡ spec.file_entry names.now one.now) }
{
    Ok(File {
        in_model: names.in_model(one),
        size: argument_number(0, one, 0),
        classes: classes_named(alloc, argument_atoms(one, 1))?,
        costs: numbers(alloc, argument_atoms(one, 2))?,
        eliminates: some_truth(argument_atoms(one, 3)),
    })
}

/// What a `RetireControlUnit` says.
#[tactic(auto, unfolding(crate::specs::Entries::retirement_entry))]
pub fn retirement_entry(names: &Names, one: &Record) -> Retirement
    ensures { result ≡ spec.retirement_entry names.now one.now }
{
    Retirement {
        in_model: names.in_model(one),
        entries: argument_number(0, one, 0),
        width: argument_number(0, one, 1),
    }
}

/// What a `LoadQueue` or a `StoreQueue` says.
#[tactic(auto, unfolding(crate::specs::Entries::queue_entry))]
pub fn queue_entry(names: &Names, one: &Record) -> Queue
    ensures { result ≡ spec.queue_entry names.now one.now }
{
    Queue {
        in_model: names.in_model(one),
        resource: names.place(NameSpace::Resource, argument_word(one, 0)),
    }
}

fn some_write(names: &Names, atoms: &[Atom]) -> bool
    ensures { result ≡ list_any (λ n. is_some (write_named names.now n)) (map word_of atoms.now) }
{
    for atom in atoms {
        if names.is_write(word_of(atom)) {
            return true;
        }
    }
    false
}

/// What an `InstRW` says.
#[tactic(auto, unfolding(crate::specs::Entries::rewrite_entry))]
pub fn rewrite_entry(alloc: Global, names: &Names, one: &Record) -> Result<Rewrite, NoMemory>
    ensures { IfOk result (λ r. r ≡ spec.rewrite_entry names.now one.now) }
{
    let listed = argument_atoms(one, 0);
    Ok(Rewrite {
        in_model: names.in_model(one),
        names: listed.len(),
        write: names.write(first_word(listed)),
        other_write: some_write(names, behind(listed, 1)),
        rs1: names.place(NameSpace::Read, first_word(behind(listed, 1))),
        rs2: names.place(NameSpace::Read, first_word(behind(listed, 2))),
        ops: ops_named(alloc, argument_instrs(one, 1))?,
    })
}
