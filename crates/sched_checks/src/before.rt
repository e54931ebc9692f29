//! The records before a record, and the checks that ask of them.
ghost use Rattle.std.specs.Prelude.{◌≡◌, ◌+◌, ◌<◌, ◌||◌, [], ◌∷◌, ◌++◌, nat_le, nat_lt, count_by, sum_by, IfOk, OnOk};
ghost use Rattle.std.specs.List.{list_any};
ghost use Rattle.mca_fixed.specs.declared.limits.TheConstants.{MOST_UNITS};
ghost use Rattle.rv_isa.specs.declared.op.Op.{Op as OpOf};
ghost use Rattle.sched_checks.specs.Before.{counts_of, counts_with, capped, one_if, ops_of};
ghost use Rattle.sched_checks.specs.Checks as spec;

use crate::ranges::{
    bad_advance, bad_file, bad_model, bad_resource, bad_retirement, bad_write, entry_units,
};
use crate::registers::{file_has, has_twice, note_registers};
use mca_fixed::{MOST_UNITS, NoMemory};
use rv_isa::Op;
use sched_resolve::{Entry, File};
use std::alloc::Global;
use std::marker::Model;

/// Which of the records that may stand once there were, and how many of the others. Numbers stop at the
/// greatest.
#[derive(Clone, Copy)]
struct Counts {
    models: bool,
    resources: u64,
    /// The units of the resources together.
    units: u64,
    files: u64,
    retirements: bool,
    load_queues: bool,
    store_queues: bool,
}

/// One more where it is so.
fn counted(number: u64, is_so: bool) -> u64
    ensures { result ≡ capped (number + one_if is_so) }
{
    number.saturating_add(u64::from(is_so))
}

impl Counts {
    /// Among no records there were none.
    fn none() -> Counts
        ensures { result ≡ counts_of [] }
    {
        Counts {
            models: false,
            resources: 0,
            units: 0,
            files: 0,
            retirements: false,
            load_queues: false,
            store_queues: false,
        }
    }

    /// The counts with one more record.
    fn with(self, entry: &Entry) -> Counts
        ensures { result ≡ counts_with self entry.now }
    {
        Counts {
            models: self.models || entry.is_model(),
            resources: counted(self.resources, entry.is_resource()),
            units: self.units.saturating_add(entry_units(entry)),
            files: counted(self.files, entry.is_file()),
            retirements: self.retirements || entry.is_retirement(),
            load_queues: self.load_queues || entry.is_load_queue(),
            store_queues: self.store_queues || entry.is_store_queue(),
        }
    }
}

/// The opcodes that a record rewrites.
fn ops_of(entry: &Entry) -> &[Op]
    ensures { result.now ≡ ops_of entry.now }
{
    match entry {
        Entry::Rewrite(rewrite) => rewrite.ops.as_slice(),
        _ => &[],
    }
}

fn same_op(one: Op, other: Op) -> bool
    ensures { result ≡ spec.same_op one other }
{
    let first = one.number();
    let second = other.number();
    first == second
}

/// Whether the opcode is among those.
fn is_among(op: Op, ops: &[Op]) -> bool
    ensures { result ≡ list_any (spec.same_op op) ops.now }
{
    ops.iter().any(|other| same_op(op, *other))
}

/// Puts an opcode among others, which name none twice.
fn put_op(ops: &mut Vec<Op>, op: Op) -> Result<(), NoMemory>
    ensures { OnOk result ((o : OpOf) → list_any (spec.same_op o) ops.new.items
        ≡ (list_any (spec.same_op o) ops.old.items || spec.same_op o op)) }
{
    if is_among(op, ops.as_slice()) {
        return Ok(());
    }
    ops.push(op)?;
    Ok(())
}

/// Puts opcodes among others, which name none twice.
fn put_ops(ops: &mut Vec<Op>, more: &[Op]) -> Result<(), NoMemory>
    ensures { OnOk result ((o : OpOf) → list_any (spec.same_op o) ops.new.items
        ≡ (list_any (spec.same_op o) ops.old.items || list_any (spec.same_op o) more.now)) }
{
    for op in more {
        put_op(ops, *op)?;
    }
    Ok(())
}

/// The records before a record, with what the checks ask of them. Contracts see the list.
pub struct RecordsBefore<'a> {
    before: &'a [Entry],
    counts: Counts,
    /// For each register whether a file holds it.
    held: Vec<bool>,
    /// The opcodes that are rewritten, each once.
    rewritten: Vec<Op>,
}

impl<'a> Model for RecordsBefore<'a> {
    ghost use Rattle.std.specs.Prelude.{List, ◌≡◌};
    ghost use Rattle.sched_resolve.specs.declared.entry.Entry.{Entry};
    ghost use Rattle.sched_checks.specs.Before.{counts_of, Holds, Names};

    ghost Value = { List Entry };

    ghost view = { λ s. s.before.now };

    ghost invariant = { λ s. (s.counts ≡ counts_of s.before.now)
        × Holds s.held.items s.before.now × Names s.rewritten.items s.before.now };
}

/// Written out, so that what drops it does so by a call.
impl<'a> Drop for RecordsBefore<'a> {
    fn drop(self) {
        let RecordsBefore {
            before: _,
            counts: _,
            held: _,
            rewritten: _,
        } = self;
    }
}

impl<'a> RecordsBefore<'a> {
    /// No records.
    pub fn none(alloc: Global) -> Result<RecordsBefore<'a>, NoMemory>
        ensures { IfOk result (λ earlier. earlier ≡ []) }
    {
        Ok(RecordsBefore {
            before: &[],
            counts: Counts::none(),
            held: Vec::from_array(alloc, [false; 32])?,
            rewritten: Vec::new(alloc),
        })
    }

    /// The records with one more, which `before` ends with.
    pub fn with(self, before: &'a [Entry], entry: &Entry) -> Result<RecordsBefore<'a>, NoMemory>
        requires { before.now ≡ self ++ entry.now ∷ [] }
        ensures { IfOk result (λ earlier. earlier ≡ before.now) }
    {
        let RecordsBefore {
            before: _,
            counts,
            mut held,
            mut rewritten,
        } = self;
        note_registers(&mut held, entry);
        put_ops(&mut rewritten, ops_of(entry))?;
        Ok(RecordsBefore {
            before,
            counts: counts.with(entry),
            held,
            rewritten,
        })
    }

    /// A second `SchedMachineModel`.
    pub fn two_models(&self, entry: &Entry) -> bool
        ensures { result ≡ spec.two_models self.now entry.now }
    {
        entry.is_model() && self.counts.models
    }

    /// There are as many resources as there may be.
    fn has_all_resources(&self) -> bool
        ensures { result ≡ nat_le 64 (count_by spec.is_resource self.now) }
    {
        64 <= self.counts.resources
    }

    /// There are more units with these than there may be.
    fn has_too_many_units(&self, more: u64) -> bool
        ensures { result ≡ nat_lt MOST_UNITS (sum_by spec.entry_units self.now + more) }
    {
        self.counts.units.saturating_add(more) > MOST_UNITS as u64
    }

    /// There are as many files as there may be.
    fn has_all_files(&self) -> bool
        ensures { result ≡ nat_le 8 (count_by spec.is_file self.now) }
    {
        8 <= self.counts.files
    }

    /// A number is outside its range, or there is one thing more than there may be.
    pub fn out_of_range(&self, entry: &Entry) -> bool
        ensures { result ≡ spec.out_of_range self.now entry.now }
    {
        match entry {
            Entry::Model(model) => bad_model(model),
            Entry::Resource(resource) => {
                bad_resource(resource)
                    || self.has_all_resources()
                    || self.has_too_many_units(resource.makeup.own_units())
            }
            Entry::Write(write) => bad_write(write),
            Entry::Advance(advance) => bad_advance(advance),
            Entry::File(file) => bad_file(file) || self.has_all_files(),
            Entry::Retirement(retirement) => bad_retirement(retirement),
            _ => false,
        }
    }

    fn is_held(&self, register: usize) -> bool
        requires { register < 32 }
        ensures { result ≡ list_any (spec.held_by register) self.now }
    {
        self.held[register]
    }

    fn is_held_twice(&self, register: usize, file: &File) -> bool
        requires { register < 32 }
        ensures { result ≡ spec.held_twice self.now file.now register }
    {
        (file_has(register, file) && self.is_held(register))
            || has_twice(register, file.classes.as_slice())
    }

    fn holds_any_twice(&self, file: &File) -> bool
        ensures { result ≡ spec.two_files self.now (Entry.File file.now) }
    {
        for register in 0..32 {
            if self.is_held_twice(register, file) {
                return true;
            }
        }
        false
    }

    /// A register stands in an earlier file too, or in two classes of this one.
    pub fn two_files(&self, entry: &Entry) -> bool
        ensures { result ≡ spec.two_files self.now entry.now }
    {
        match entry {
            Entry::File(file) => self.holds_any_twice(file),
            _ => false,
        }
    }

    fn is_rewritten(&self, op: Op) -> bool
        ensures { result ≡ list_any (spec.rewrites op) self.now }
    {
        is_among(op, self.rewritten.as_slice())
    }

    fn rewrites_any(&self, ops: &[Op]) -> bool
        ensures { result ≡ list_any (λ o. list_any (spec.rewrites o) self.now) ops.now }
    {
        ops.iter().any(|op| self.is_rewritten(*op))
    }

    /// A second write for a class or an opcode, or a later name of an `InstRW` that is a write.
    pub fn two_writes(&self, entry: &Entry) -> bool
        ensures { result ≡ spec.two_writes self.now entry.now }
    {
        match entry {
            Entry::Write(write) => write.again,
            Entry::Rewrite(rewrite) => {
                rewrite.other_write || self.rewrites_any(rewrite.ops.as_slice())
            }
            _ => false,
        }
    }

    /// A second `RetireControlUnit`, `LoadQueue` or `StoreQueue`.
    pub fn two_queues(&self, entry: &Entry) -> bool
        ensures { result ≡ spec.two_queues self.now entry.now }
    {
        (entry.is_retirement() && self.counts.retirements)
            || (entry.is_load_queue() && self.counts.load_queues)
            || (entry.is_store_queue() && self.counts.store_queues)
    }
}
