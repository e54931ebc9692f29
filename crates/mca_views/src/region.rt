//! The report of a region.
ghost use Rattle.std.specs.Prelude.{◌≡◌, ◌++◌, [], ◌∷◌, true, length, IfOk, OnOk, IfErr};
ghost use Rattle.mca_views.specs.Bottleneck.{HasSums, sequence_of};
ghost use Rattle.mca_views.specs.Fault.{Over};
ghost use Rattle.mca_views.specs.Information.{information_lines};
ghost use Rattle.mca_views.specs.Lines.{lines};
ghost use Rattle.mca_views.specs.Page.{added};
ghost use Rattle.mca_views.specs.Pressure.{pressure_lines};
ghost use Rattle.mca_views.specs.Region.{named, region_head, region_lines, part, bottleneck_part, run_part};
ghost use Rattle.mca_views.specs.Shown.{shown, IsShown};
ghost use Rattle.mca_views.specs.Summary.{summary_lines};
ghost use Rattle.mca_views.specs.Timeline.{timeline_lines};
ghost use Rattle.mca_views.specs.WaitTimes.{wait_lines};

use crate::bottlenecks::{HeldUp, put_bottleneck};
use crate::cells::digits;
use crate::fault::ViewFault;
use crate::information::put_information;
use crate::page::Page;
use crate::pressures::put_pressure;
use crate::summaries::put_summary;
use crate::timelines::put_timeline;
use crate::view::View;
use crate::wait_times::put_waits;
use machine_model::Machine;
use mca_fixed::{Name, NoMemory};
use mca_words::Options;
use std::alloc::Global;

/// The report of a region, on a page whose lines are whole: the number of the region, counted from 0,
/// with its name, which is empty for none; then the summary, what held the run up where that is to be
/// shown (`held_up_for`), and the views that the options turn on, each behind an empty line.
///
/// # Errors
/// `TooLong` where the page would have more bytes than its room, and `Memory`. What stands on the page
/// then is not said.
pub fn put_region<M: Machine>(
    alloc: Global,
    page: &mut Page,
    number: usize,
    name: &Name,
    v: &View<M>,
    o: &Options,
    held: &Option<HeldUp>,
) -> Result<(), ViewFault>
    requires closed { page.old.open_line ≡ [] }
    requires shown { IsShown (shown M.meaning v.now) }
    requires sums { HasSums (shown M.meaning v.now) held.now }
    ensures ok { OnOk result (page.new ≡ added page.old
        (lines (region_lines number name.now o.now (shown M.meaning v.now) (sequence_of held.now)))) }
    ensures long { IfErr result (Over page.old.room (length (added page.old
        (lines (region_lines number name.now o.now (shown M.meaning v.now) (sequence_of held.now)))).text)) }
{
    put_head(alloc, page, number, name)?;
    put_run_part(alloc, page, v, held)?;
    put_information_part(alloc, page, o.instruction_info, v)?;
    put_pressure_part(alloc, page, o.resource_pressure, v)?;
    put_timeline_part(alloc, page, v, o)?;
    put_waits_part(alloc, page, v, o)?;
    Ok(())
}

/// The first line.
fn put_head(alloc: Global, page: &mut Page, number: usize, name: &Name) -> Result<(), ViewFault>
    requires closed { page.old.open_line ≡ [] }
    ensures ok { OnOk result (page.new ≡ added page.old
        (lines (region_head number name.now ∷ []))) }
    ensures long { IfErr result (Over page.old.room (length (added page.old
        (lines (region_head number name.now ∷ []))).text)) }
{
    let head = region_head(alloc, number, name)?;
    page.put_lines(&[head.as_slice()])
}

/// The number of a region, and its name where it has one.
fn region_head(alloc: Global, number: usize, name: &Name) -> Result<Vec<u8>, NoMemory>
    ensures { IfOk result (λ line. line.items ≡ region_head number name.now) }
{
    let mut line = Vec::from_slice(alloc, b"[")?;
    line.extend_from_slice(&digits(alloc, number as u64)?)?;
    line.extend_from_slice(b"] Code Region")?;
    push_name(&mut line, name)?;
    Ok(line)
}

/// A name behind a line, where there is one.
fn push_name(line: &mut Vec<u8>, name: &Name) -> Result<(), NoMemory>
    ensures { OnOk result (line.new.items ≡ line.old.items ++ named name.now) }
{
    if name.is_empty() {
        return Ok(());
    }
    line.extend_from_slice(b" - ")?;
    line.extend_from_slice(name.as_bytes())?;
    Ok(())
}

/// The run as a whole: the summary, and what held the run up.
fn put_run_part<M: Machine>(
    alloc: Global,
    page: &mut Page,
    v: &View<M>,
    held: &Option<HeldUp>,
) -> Result<(), ViewFault>
    requires closed { page.old.open_line ≡ [] }
    requires shown { IsShown (shown M.meaning v.now) }
    requires sums { HasSums (shown M.meaning v.now) held.now }
    ensures ok { OnOk result (page.new ≡ added page.old
        (lines (run_part (shown M.meaning v.now) (sequence_of held.now)))) }
    ensures long { IfErr result (Over page.old.room (length (added page.old
        (lines (run_part (shown M.meaning v.now) (sequence_of held.now)))).text)) }
{
    put_summary_part(alloc, page, v)?;
    put_bottleneck_part(alloc, page, v, held)?;
    Ok(())
}

/// What held the run up, where that is to be shown.
fn put_bottleneck_part<M: Machine>(
    alloc: Global,
    page: &mut Page,
    v: &View<M>,
    held: &Option<HeldUp>,
) -> Result<(), ViewFault>
    requires closed { page.old.open_line ≡ [] }
    requires shown { IsShown (shown M.meaning v.now) }
    requires sums { HasSums (shown M.meaning v.now) held.now }
    ensures ok { OnOk result (page.new ≡ added page.old
        (lines (bottleneck_part (shown M.meaning v.now) (sequence_of held.now)))) }
    ensures long { IfErr result (Over page.old.room (length (added page.old
        (lines (bottleneck_part (shown M.meaning v.now) (sequence_of held.now)))).text)) }
{
    let Some(held) = held else {
        return Ok(());
    };
    page.put_line(b"")?;
    put_bottleneck(alloc, page, v, held)?;
    Ok(())
}

/// The summary.
fn put_summary_part<M: Machine>(
    alloc: Global,
    page: &mut Page,
    v: &View<M>,
) -> Result<(), ViewFault>
    requires closed { page.old.open_line ≡ [] }
    requires shown { IsShown (shown M.meaning v.now) }
    ensures ok { OnOk result (page.new ≡ added page.old
        (lines (part true (summary_lines (shown M.meaning v.now))))) }
    ensures long { IfErr result (Over page.old.room (length (added page.old
        (lines (part true (summary_lines (shown M.meaning v.now))))).text)) }
{
    page.put_line(b"")?;
    put_summary(alloc, page, v)?;
    Ok(())
}

/// The numbers of each instruction, where they are on.
fn put_information_part<M: Machine>(
    alloc: Global,
    page: &mut Page,
    on: bool,
    v: &View<M>,
) -> Result<(), ViewFault>
    requires closed { page.old.open_line ≡ [] }
    requires shown { IsShown (shown M.meaning v.now) }
    ensures ok { OnOk result (page.new ≡ added page.old
        (lines (part on (information_lines (shown M.meaning v.now))))) }
    ensures long { IfErr result (Over page.old.room (length (added page.old
        (lines (part on (information_lines (shown M.meaning v.now))))).text)) }
{
    if !on {
        return Ok(());
    }
    page.put_line(b"")?;
    put_information(alloc, page, v)?;
    Ok(())
}

/// The pressure on units, where it is on.
fn put_pressure_part<M: Machine>(
    alloc: Global,
    page: &mut Page,
    on: bool,
    v: &View<M>,
) -> Result<(), ViewFault>
    requires closed { page.old.open_line ≡ [] }
    requires shown { IsShown (shown M.meaning v.now) }
    ensures ok { OnOk result (page.new ≡ added page.old
        (lines (part on (pressure_lines (shown M.meaning v.now))))) }
    ensures long { IfErr result (Over page.old.room (length (added page.old
        (lines (part on (pressure_lines (shown M.meaning v.now))))).text)) }
{
    if !on {
        return Ok(());
    }
    page.put_line(b"")?;
    put_pressure(alloc, page, v)?;
    Ok(())
}

/// The timeline, where the timeline is on.
fn put_timeline_part<M: Machine>(
    alloc: Global,
    page: &mut Page,
    v: &View<M>,
    o: &Options,
) -> Result<(), ViewFault>
    requires closed { page.old.open_line ≡ [] }
    requires shown { IsShown (shown M.meaning v.now) }
    ensures ok { OnOk result (page.new ≡ added page.old
        (lines (part o.now.timeline (timeline_lines (shown M.meaning v.now) o.now)))) }
    ensures long { IfErr result (Over page.old.room (length (added page.old
        (lines (part o.now.timeline (timeline_lines (shown M.meaning v.now) o.now)))).text)) }
{
    if !o.timeline {
        return Ok(());
    }
    page.put_line(b"")?;
    put_timeline(alloc, page, v, o)?;
    Ok(())
}

/// The waits, where the timeline is on.
fn put_waits_part<M: Machine>(
    alloc: Global,
    page: &mut Page,
    v: &View<M>,
    o: &Options,
) -> Result<(), ViewFault>
    requires closed { page.old.open_line ≡ [] }
    requires shown { IsShown (shown M.meaning v.now) }
    ensures ok { OnOk result (page.new ≡ added page.old
        (lines (part o.now.timeline (wait_lines (shown M.meaning v.now) o.now)))) }
    ensures long { IfErr result (Over page.old.room (length (added page.old
        (lines (part o.now.timeline (wait_lines (shown M.meaning v.now) o.now)))).text)) }
{
    if !o.timeline {
        return Ok(());
    }
    page.put_line(b"")?;
    put_waits(alloc, page, v, o)?;
    Ok(())
}
