//! The report on a program by a machine.
ghost use Rattle.std.specs.Prelude.{◌≡◌, ◌≤◌, ◌<◌, ◌+◌, ◌*◌, ◌++◌, ℕ, List, [], length, map, IfOk, IfErr, OnOk};
ghost use Rattle.cycle_rules.specs.Bind.{IsBoundBody, row_of};
ghost use Rattle.cycle_rules.specs.CycleBound.{cycle_bound, turn_bound};
ghost use Rattle.cycle_rules.specs.Row.{input};
ghost use Rattle.cycle_rules.specs.Run.{IsRun, total_of};
ghost use Rattle.mca_fixed.specs.declared.limits.TheConstants.{MOST_REPORT_BYTES};
ghost use Rattle.mca_views.specs.Fault.{Over};
ghost use Rattle.mca_views.specs.Lines.{lines};
ghost use Rattle.mca_views.specs.Page.{added};
ghost use Rattle.mca_run.specs.Asked.{iterations_of};
ghost use Rattle.mca_run.specs.Refusal.{rows_at};
ghost use Rattle.mca_run.specs.Regions.{code_at};
ghost use Rattle.mca_run.specs.Report.{IsMachineReport};
ghost use Rattle.mca_run.specs.Steps.{IsSound, IsBodyOf, AreBodies, gap, IsOver, IsOverAll, MayRefuseCode};
ghost use Rattle.mca_run.specs.Turns.{program_turns, region_turns};
ghost use Rattle.mca_run.specs.Whole.{IsRegionReport, IsWholeReport};

use crate::bodies::{bind_regions, check_sizes};
use crate::options::iterations;
use crate::program::Program;
use crate::stop::Stop;
use cycle_rules::{Bound, Steps};
use event_engine::EventEngine;
use machine_model::Machine;
use mca_fixed::{Items, MOST_REPORT_BYTES, MOST_ROWS, NoMemory};
use mca_views::{Page, View, ViewFault, held_up_for, put_region};
use mca_words::Options;
use std::alloc::Global;
use std::sync::ledger::Ledger;

/// An empty line, before each region but the first.
fn put_gap(page: &mut Page, k: usize) -> Result<(), ViewFault>
    requires closed { page.old.open_line ≡ [] }
    ensures ok { OnOk result (page.new ≡ added page.old (lines (gap k))) }
    ensures long { IfErr result (Over page.old.room
        (length (added page.old (lines (gap k))).text)) }
{
    if k == 0 {
        return Ok(());
    }
    page.put_line(b"")
}

/// The report of a region, by its number, behind those of the regions before it.
fn put_report<M: Machine, L: Ledger>(
    alloc: Global,
    page: &mut Page,
    machine: &M,
    options: &Options,
    program: &Program,
    k: usize,
    body: &[Bound],
    steps: &mut Steps<L>,
) -> Result<(), ViewFault>
    requires sound { IsSound program.now }
    requires region { k < length program.now.regions }
    requires bound { IsBodyOf (M.meaning machine.now) (code_at program.now k) body.now }
    requires rows { rows_at program.now (iterations_of options.now) k ≤ MOST_ROWS }
    requires closed { page.old.open_line ≡ [] }
    ensures ok { OnOk result ((report : List (List ℕ))
        × IsRegionReport (M.meaning machine.now) options.now program.now k report
        × (page.new ≡ added page.old (lines (gap k ++ report)))) }
    ensures err { IfErr result (IsOver (M.meaning machine.now) options.now program.now k page.old) }
    ensures steps { steps.new ≤ steps.old
        + region_turns (M.meaning machine.now) (iterations_of options.now) program.now k }
{
    let iterations = iterations(options);
    let run = EventEngine::run(alloc, machine, body, iterations, steps)?;
    let view = View {
        machine,
        code: program.instructions(k),
        names: program.names.as_slice(),
        body,
        iterations,
        run: &run,
    };
    let held = held_up_for(alloc, &view, options)?;
    put_gap(page, k)?;
    put_region(alloc, page, k, program.name(k), &view, options, &held)
}

/// The reports of all regions.
fn put_reports<M: Machine, L: Ledger>(
    alloc: Global,
    machine: &M,
    options: &Options,
    program: &Program,
    bodies: &[Items<Bound>],
    steps: &mut Steps<L>,
) -> Result<Vec<u8>, ViewFault>
    requires sound { IsSound program.now }
    requires bodies { AreBodies (M.meaning machine.now)
        program.now (length program.now.regions) bodies.now }
    requires rows { (k : ℕ) → k < length program.now.regions →
        rows_at program.now (iterations_of options.now) k ≤ MOST_ROWS }
    ensures ok { IfOk result (λ bytes.
        IsWholeReport (M.meaning machine.now) options.now program.now bytes.items) }
    ensures short { IfOk result (λ bytes. length bytes.items ≤ MOST_REPORT_BYTES) }
    ensures err { IfErr result (IsOverAll (M.meaning machine.now) options.now program.now) }
    ensures steps { steps.new ≤ steps.old
        + program_turns (M.meaning machine.now) (iterations_of options.now) program.now }
{
    let mut page = Page::make(alloc, MOST_REPORT_BYTES);
    for k in 0..program.regions.len() {
        put_report(
            alloc,
            &mut page,
            machine,
            options,
            program,
            k,
            bodies[k].as_slice(),
            steps,
        )?;
    }
    Ok(page.into_vec())
}

/// The report on a program by a machine, or the status with which the machine refuses the program: for
/// an instruction that it does not run, then for the rows of a region, then for the length of the report.
/// All regions are bound before the first is run, and one run is kept at a time.
pub(crate) fn report_by<M: Machine, L: Ledger>(
    alloc: Global,
    machine: &M,
    options: &Options,
    program: &Program,
    steps: &mut Steps<L>,
) -> Result<Vec<u8>, Stop>
    requires sound { IsSound program.now }
    ensures ok { IfOk result (λ bytes.
        IsMachineReport (M.meaning machine.now) options.now program.now bytes.items) }
    ensures err { IfErr result (λ stop.
        MayRefuseCode (M.meaning machine.now) options.now program.now stop.status) }
    ensures steps { steps.new ≤ steps.old
        + program_turns (M.meaning machine.now) (iterations_of options.now) program.now }
{
    let bodies = bind_regions(alloc, machine, program)?;
    check_sizes(program, iterations(options))?;
    match put_reports(alloc, machine, options, program, &bodies, steps) {
        Ok(bytes) => Ok(bytes),
        Err(fault) => Err(Stop::from(fault)),
    }
}
