//! The machine that the options name, and the report on a program by it.
ghost use Rattle.std.specs.Prelude.{◌≡◌, ◌≤◌, ◌+◌, length, IfOk, IfErr, OnOk, None};
ghost use Rattle.std.specs.Io.KnownBytes.{IsAtEnd};
ghost use Rattle.machine_model.specs.Fixed.{fixed_meaning};
ghost use Rattle.mca_io.specs.Devices.{Rose};
ghost use Rattle.mca_words.specs.InRange.{AreInRange};
ghost use Rattle.sched_checks.specs.Illness.{illness_of};
ghost use Rattle.sched_resolve.specs.Entries.{entries_of, all_defaults};
ghost use Rattle.sched_validate.specs.Machine.{machine_of};
ghost use Rattle.mca_run.specs.Asked.{iterations_of};
ghost use Rattle.mca_run.specs.Machines.{fixed_of, named_machine, built_in_meaning, IsTuned};
ghost use Rattle.mca_run.specs.Refusal.{Contents, IsRunRefusal, IfRefused};
ghost use Rattle.mca_run.specs.Report.{IsMachineReport, IsRunReport};
ghost use Rattle.mca_run.specs.Steps.{TellsName, TellsTable, MayRefuseCode, MayRefuseRecords, IsOfFiles, IsSound};
ghost use Rattle.mca_run.specs.Turns.{program_turns, StepsRiseBy};

use crate::files::read_records;
use crate::program::Program;
use crate::report::report_by;
use crate::status::Status;
use crate::stop::Stop;
use cycle_rules::Steps;
use machine_model::{Dual, Machine, Quad, Tiny, Tuning};
use mca_io::Shelf;
use mca_words::Options;
use sched_records::{MOST_RECORDS, Records};
use sched_validate::{CheckedTable, validate};
use std::alloc::Global;
use std::sync::ledger::Ledger;

/// The built-in machines.
#[derive(Clone, Copy, Debug, PartialEq, Eq)]
pub(crate) enum BuiltIn {
    /// One instruction a cycle.
    Tiny,
    /// Two.
    Dual,
    /// Four.
    Quad,
}

/// The built-in machine of a name.
fn named_machine(name: &[u8]) -> Option<BuiltIn>
    ensures { result ≡ named_machine name.now }
{
    if name == b"tiny".as_slice() {
        Some(BuiltIn::Tiny)
    } else if name == b"dual".as_slice() {
        Some(BuiltIn::Dual)
    } else if name == b"quad".as_slice() {
        Some(BuiltIn::Quad)
    } else {
        None
    }
}

/// What the options change of a machine.
fn tuning(options: &Options) -> Tuning
    requires { AreInRange options.now }
    ensures { IsTuned options.now result }
{
    Tuning::new(
        options.dispatch,
        options.register_file_size,
        options.lqueue,
        options.squeue,
        options.noalias,
    )
}

/// The report on a program by a built-in machine, or the status with which the machine refuses the program.
fn report_built_in<L: Ledger>(
    alloc: Global,
    machine: BuiltIn,
    tuning: &Tuning,
    options: &Options,
    program: &Program,
    steps: &mut Steps<L>,
) -> Result<Vec<u8>, Stop>
    requires sound { IsSound program.now }
    ensures ok { IfOk result (λ bytes. IsMachineReport
        (built_in_meaning machine tuning.now) options.now program.now bytes.items) }
    ensures err { IfErr result (λ stop. MayRefuseCode
        (built_in_meaning machine tuning.now) options.now program.now stop.status) }
    ensures steps { steps.new ≤ steps.old + program_turns
        (built_in_meaning machine tuning.now) (iterations_of options.now) program.now }
{
    match machine {
        BuiltIn::Tiny => report_by(alloc, &Tiny::make(tuning), options, program, steps),
        BuiltIn::Dual => report_by(alloc, &Dual::make(tuning), options, program, steps),
        BuiltIn::Quad => report_by(alloc, &Quad::make(tuning), options, program, steps),
    }
}

/// The machine of the records of a table, or the status that refuses them.
fn checked(alloc: Global, records: &Records, tuning: &Tuning) -> Result<CheckedTable, Stop>
    requires { length records.now ≤ MOST_RECORDS }
    ensures healthy { IfOk result (λ table. illness_of (entries_of records.now) ≡ None) }
    ensures machine { IfOk result (λ table.
        ⟦<CheckedTable as Machine>⟧.meaning table ≡ machine_of (entries_of records.now) (all_defaults records.now) tuning.now) }
    ensures ill { IfErr result (λ stop. MayRefuseRecords records.now stop.status) }
{
    Ok(validate(alloc, records, tuning)?)
}

/// The report on a program by the machine of the table that the options name, or the status that refuses
/// one of them.
fn report_by_table<F: Shelf, L: Ledger>(
    alloc: Global,
    options: &Options,
    shelf: &mut F,
    program: &Program,
    steps: &mut Steps<L>,
) -> Result<Vec<u8>, Stop>
    requires in_range { AreInRange options.now }
    requires table { fixed_of options.now ≡ None }
    requires sound { IsSound program.now }
    ensures ok { IfOk result (λ bytes. (contents : Contents) → TellsName (F.told shelf.old) contents options.now.table →
        IsRunReport contents options.now program.now bytes.items) }
    ensures err { IfErr result (λ stop. (contents : Contents) → TellsName (F.told shelf.old) contents options.now.table →
        IfRefused (IsRunRefusal contents options.now program.now) stop.status) }
    ensures steps { (contents : Contents) → TellsName (F.told shelf.old) contents options.now.table →
        StepsRiseBy contents options.now program.now steps.old steps.new }
    ensures of_files { IfErr result (λ stop. IsOfFiles stop.status) }
    ensures end { OnOk result (IsAtEnd (F.rest shelf.new)) }
    ensures fault { IfErr result (λ stop. stop.status ≡ Status.ReadFault →
        Rose (F.faults shelf.old options.now.table) (F.faults shelf.new options.now.table)) }
{
    let records = read_records(alloc, options, shelf)?;
    let table = checked(alloc, &records, &tuning(options))?;
    report_by(alloc, &table, options, program, steps)
}

/// The report on a program by the machine that the options name, or the status that refuses one of them.
/// A table is read where they name no built-in machine.
pub(crate) fn report_as_asked<F: Shelf, L: Ledger>(
    alloc: Global,
    options: &Options,
    shelf: &mut F,
    program: &Program,
    steps: &mut Steps<L>,
) -> Result<Vec<u8>, Stop>
    requires in_range { AreInRange options.now }
    requires end { IsAtEnd (F.rest shelf.old) }
    requires sound { IsSound program.now }
    ensures ok { IfOk result (λ bytes. (contents : Contents) → TellsTable (F.told shelf.old) contents options.now →
        IsRunReport contents options.now program.now bytes.items) }
    ensures err { IfErr result (λ stop. (contents : Contents) → TellsTable (F.told shelf.old) contents options.now →
        IfRefused (IsRunRefusal contents options.now program.now) stop.status) }
    ensures steps { (contents : Contents) → TellsTable (F.told shelf.old) contents options.now →
        StepsRiseBy contents options.now program.now steps.old steps.new }
    ensures of_files { IfErr result (λ stop. IsOfFiles stop.status) }
    ensures end { OnOk result (IsAtEnd (F.rest shelf.new)) }
    ensures by_table { IfErr result (λ stop. stop.status ≡ Status.ReadFault → fixed_of options.now ≡ None) }
    ensures fault { IfErr result (λ stop. stop.status ≡ Status.ReadFault →
        Rose (F.faults shelf.old options.now.table) (F.faults shelf.new options.now.table)) }
{
    match named_machine(options.mcpu.as_str().as_bytes()) {
        Some(machine) => report_built_in(alloc, machine, &tuning(options), options, program, steps),
        None => report_by_table(alloc, options, shelf, program, steps),
    }
}
