//! The report on the program that a number gives.
ghost use Rattle.std.specs.Prelude.{◌≡◌, ◌∷◌, [], codes, decimal, IfOk};
ghost use Rattle.mca_views.specs.Lines.{lines, labelled};
ghost use Rattle.mca_views.specs.Shown.{shown, IsShown};
ghost use Rattle.mca_views.specs.Summary.{summary_lines};
ghost use Rattle.mca_run.specs.LoadReport.{IsLoadReport};
ghost use Rattle.mca_run.specs.Turns.{LoadStepsRise};

use crate::generator::generate;
use cycle_rules::Steps;
use event_engine::EventEngine;
use machine_model::{Machine, Quad, Tuning};
use mca_fixed::{MOST_REPORT_BYTES, NoMemory};
use mca_views::{Page, View, summary};
use mca_words::Options;
use sched_validate::bind;
use std::alloc::Global;
use std::sync::ledger::Ledger;

/// How often the program is repeated.
const ITERATIONS: u32 = 100;

/// The number behind its label, and an empty line.
fn head(alloc: Global, seed: u32) -> Result<Vec<u8>, NoMemory>
    ensures { IfOk result (λ bytes. bytes.items
        ≡ lines (labelled (codes "Load:") (decimal seed) ∷ [] ∷ [])) }
{
    let mut page = Page::make(alloc, MOST_REPORT_BYTES);
    let line = format!(in alloc; "Load:              {seed}")?;
    let Ok(()) = page.put_line(line.as_bytes()) else {
        return Err(NoMemory);
    };
    let Ok(()) = page.put_line(b"") else {
        return Err(NoMemory);
    };
    Ok(page.into_vec())
}

/// The number, an empty line, and the summary. They are far from the most bytes of a report.
fn text<M: Machine>(
    alloc: Global,
    options: &Options,
    seed: u32,
    view: &View<M>,
) -> Result<Vec<u8>, NoMemory>
    requires shown { IsShown (shown M.meaning view.now) }
    ensures { IfOk result (λ bytes. bytes.items ≡ lines (labelled (codes "Load:") (decimal seed)
        ∷ [] ∷ summary_lines (shown M.meaning view.now))) }
{
    let mut bytes = head(alloc, seed)?;
    let Ok(more) = summary(alloc, view, options, MOST_REPORT_BYTES) else {
        return Err(NoMemory);
    };
    bytes.extend_from_slice(&more)?;
    Ok(bytes)
}

/// The report on the program that a number gives: the number, and the summary of the program's run
/// on the machine `quad`, of 100 iterations. The options have no effect.
pub(crate) fn report_on_load<L: Ledger>(
    alloc: Global,
    options: &Options,
    seed: u32,
    steps: &mut Steps<L>,
) -> Result<Vec<u8>, NoMemory>
    ensures report { IfOk result (λ bytes. IsLoadReport seed bytes.items) }
    ensures steps { LoadStepsRise seed steps.old steps.new }
{
    let machine = Quad::make(&Tuning::new(0, 0, 0, 0, true));
    let code = generate(alloc, seed)?;
    let Ok(body) = bind(alloc, &machine, &code) else {
        return Err(NoMemory);
    };
    let run = EventEngine::run(alloc, &machine, body.as_slice(), ITERATIONS, steps)?;
    let view = View {
        machine: &machine,
        code: &code,
        names: &[],
        body: body.as_slice(),
        iterations: ITERATIONS,
        run: &run,
    };
    text(alloc, options, seed, &view)
}
