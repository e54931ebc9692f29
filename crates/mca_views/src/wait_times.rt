//! How long the rows of each instruction wait, on average.
ghost use Rattle.std.specs.Prelude.{◌≡◌, ◌≤◌, ◌<◌, ◌+◌, ◌++◌, [], ◌∷◌, codes, length, IfOk, OnOk, IfErr};
ghost use Rattle.std.specs.Fmt.{decimal};
ghost use Rattle.mca_views.specs.Fault.{Over};
ghost use Rattle.mca_views.specs.Lines.{line, lines, listed};
ghost use Rattle.mca_views.specs.Page.{added};
ghost use Rattle.mca_views.specs.Shown.{shown, IsShown};
ghost use Rattle.mca_views.specs.Sums.{AreAll};
ghost use Rattle.mca_views.specs.Timeline.{iterations_shown, rows_shown, timeline_lines};
ghost use Rattle.mca_views.specs.WaitTimes.{while_ready, wait_text, wait_line, wait_total, wait_head, wait_lines};
ghost use Rattle.mca_views.specs.WorkedTimes.{limits, one_sum, one_sum_timeline, one_sum_waits, two_sums, two_sums_timeline, two_quotients, two_quotients_waits, first_quotients_timeline, fenced, reserved_row, twelve_cycles, short_row};

use crate::cells::{digits, push_cell};
use crate::fault::ViewFault;
use crate::page::Page;
use crate::sums::{AllSums, Sums, sums_of};
use crate::timelines::{iterations_shown, rows_shown};
use crate::totals::ratio;
use crate::view::View;
use machine_model::Machine;
use mca_fixed::{NoMemory, decimal};
use mca_words::Options;
use rv_isa::spell;
use std::alloc::Global;

/// The waits of the first `timeline_max_iterations` iterations, of all where the limit is 0: for
/// each instruction how often it was run, for how many cycles on average it waited to issue, for
/// how many of them it was ready, and for how many it waited to retire; then the same of all rows.
/// The bytes are at most `room`.
///
/// # Errors
/// `TooLong` where they would be more, and `Memory`.
pub fn waits<M: Machine>(
    alloc: Global,
    v: &View<M>,
    o: &Options,
    room: usize,
) -> Result<Vec<u8>, ViewFault>
    requires shown { IsShown (shown M.meaning v.now) }
    ensures bytes { IfOk result (λ bytes. bytes.items ≡
        lines (wait_lines (shown M.meaning v.now) o.now)) }
    ensures fits { IfOk result (λ bytes. length bytes.items ≤ room) }
    ensures long { IfErr result (Over room
        (length (lines (wait_lines (shown M.meaning v.now) o.now)))) }
{
    let mut page = Page::make(alloc, room);
    put_waits(alloc, &mut page, v, o)?;
    Ok(page.into_vec())
}

/// The lines of the view.
pub(crate) fn put_waits<M: Machine>(
    alloc: Global,
    page: &mut Page,
    v: &View<M>,
    o: &Options,
) -> Result<(), ViewFault>
    requires closed { page.old.open_line ≡ [] }
    requires shown { IsShown (shown M.meaning v.now) }
    ensures ok { OnOk result (page.new ≡ added page.old
        (lines (wait_lines (shown M.meaning v.now) o.now))) }
    ensures long { IfErr result (Over page.old.room (length (added page.old
        (lines (wait_lines (shown M.meaning v.now) o.now))).text)) }
{
    let sums = sums_of(alloc, v, rows_shown(v, o))?;
    put_head(page)?;
    put_places(alloc, page, v, o, &sums)?;
    put_total(alloc, page, v, o, &sums)?;
    Ok(())
}

/// What the numbers are.
fn put_head(page: &mut Page) -> Result<(), ViewFault>
    requires closed { page.old.open_line ≡ [] }
    ensures ok { OnOk result (page.new ≡ added page.old (lines wait_head)) }
    ensures long { IfErr result (Over page.old.room (length (added page.old
        (lines wait_head)).text)) }
{
    page.put_lines(&[
        b"Average Wait times (based on the timeline view):",
        b"[0]: Executions",
        b"[1]: Average time spent waiting in a scheduler's queue",
        b"[2]: Average time spent waiting in a scheduler's queue while ready",
        b"[3]: Average time elapsed from WB until retire stage",
        b"",
        b"       [0]    [1]    [2]    [3]    Instructions:",
    ])
}

/// A line for each instruction.
fn put_places<M: Machine>(
    alloc: Global,
    page: &mut Page,
    v: &View<M>,
    o: &Options,
    sums: &AllSums,
) -> Result<(), ViewFault>
    requires closed { page.old.open_line ≡ [] }
    requires shown { IsShown (shown M.meaning v.now) }
    requires sums { AreAll (shown M.meaning v.now)
        (rows_shown (shown M.meaning v.now) o.now) sums.now }
    ensures ok { OnOk result (page.new ≡ added page.old (lines (listed (length v.now.body.now)
        (wait_line (shown M.meaning v.now) o.now)))) }
    ensures long { IfErr result (Over page.old.room (length (added page.old
        (lines (listed (length v.now.body.now) (wait_line (shown M.meaning v.now) o.now)))).text)) }
{
    for k in 0..v.body.len() {
        let line = wait_line(alloc, v, o, sums, k)?;
        page.put_line(&line)?;
    }
    Ok(())
}

/// The line of an instruction.
fn wait_line<M: Machine>(
    alloc: Global,
    v: &View<M>,
    o: &Options,
    sums: &AllSums,
    k: usize,
) -> Result<Vec<u8>, NoMemory>
    requires place { k < length v.now.body.now }
    requires shown { IsShown (shown M.meaning v.now) }
    requires sums { AreAll (shown M.meaning v.now)
        (rows_shown (shown M.meaning v.now) o.now) sums.now }
    ensures { IfOk result (λ line. line.items ≡ wait_line (shown M.meaning v.now) o.now k) }
{
    let mut label = digits(alloc, k as u64)?;
    label.push(b'.')?;
    let spelling = spell(alloc, &v.code[k], v.names)?;
    let iterations = iterations_shown(v, o);
    wait_text(
        alloc,
        &label,
        iterations,
        iterations,
        sums.places[k],
        &spelling,
    )
}

/// The line of all rows.
fn put_total<M: Machine>(
    alloc: Global,
    page: &mut Page,
    v: &View<M>,
    o: &Options,
    sums: &AllSums,
) -> Result<(), ViewFault>
    requires closed { page.old.open_line ≡ [] }
    requires shown { IsShown (shown M.meaning v.now) }
    requires sums { AreAll (shown M.meaning v.now)
        (rows_shown (shown M.meaning v.now) o.now) sums.now }
    ensures ok { OnOk result (page.new ≡ added page.old
        (lines (wait_total (shown M.meaning v.now) o.now ∷ []))) }
    ensures long { IfErr result (Over page.old.room (length (added page.old
        (lines (wait_total (shown M.meaning v.now) o.now ∷ []))).text)) }
{
    let iterations = iterations_shown(v, o);
    let line = wait_text(
        alloc,
        b"",
        iterations,
        rows_shown(v, o) as u64,
        sums.all,
        b"<total>",
    )?;
    page.put_lines(&[line.as_slice()])
}

/// A label, a count, three averages over so many rows, and a name.
fn wait_text(
    alloc: Global,
    label: &[u8],
    executions: u64,
    rows: u64,
    sums: Sums,
    name: &[u8],
) -> Result<Vec<u8>, NoMemory>
    requires { 1 ≤ rows }
    ensures { IfOk result (λ line. line.items ≡ wait_text label.now executions rows
        sums.to_issue sums.while_ready sums.to_retire name.now) }
{
    let mut line = Vec::new(alloc);
    push_cell(&mut line, label, 7)?;
    push_cell(&mut line, &digits(alloc, executions)?, 7)?;
    push_cell(
        &mut line,
        &decimal(alloc, ratio(sums.to_issue, rows), 1)?,
        7,
    )?;
    push_cell(
        &mut line,
        &decimal(alloc, ratio(sums.while_ready, rows), 1)?,
        7,
    )?;
    push_cell(
        &mut line,
        &decimal(alloc, ratio(sums.to_retire, rows), 1)?,
        7,
    )?;
    line.extend_from_slice(name)?;
    Ok(line)
}

/// Timelines and waits that were worked out by hand.
pub fn worked_times()
    ensures timeline { lines (timeline_lines one_sum (limits 10 80)) ≡ one_sum_timeline }
    ensures waits { lines (wait_lines one_sum (limits 10 80)) ≡ one_sum_waits }
    ensures waiting { lines (timeline_lines two_sums (limits 0 0)) ≡ two_sums_timeline }
    ensures held { lines (wait_lines two_quotients (limits 0 1)) ≡ two_quotients_waits }
    ensures limited { lines (timeline_lines two_quotients (limits 1 10)) ≡
        first_quotients_timeline }
    ensures fenced { while_ready fenced 2 ≡ 0 }
    ensures reserved { reserved_row ≡ codes "[0,0]     DeeER.     div a0, a1, a2\n" }
    ensures tens { twelve_cycles ≡
        codes "Timeline view:\n                    1\nIndex     012345678901\n\n" }
    ensures short { short_row ≡ codes "[3,10]    .    .DER .    nop\n" }
{}
