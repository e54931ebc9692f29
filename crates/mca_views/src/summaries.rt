//! The numbers of a run as a whole, line by line.
ghost use Rattle.std.specs.Prelude.{◌≡◌, ◌≤◌, [], length, IfOk, OnOk, IfErr};
ghost use Rattle.mca_views.specs.Fault.{Over};
ghost use Rattle.mca_views.specs.Lines.{lines};
ghost use Rattle.mca_views.specs.Page.{added};
ghost use Rattle.mca_views.specs.Shown.{shown, IsShown};
ghost use Rattle.mca_views.specs.Summary.{summary_lines};

use crate::cells::{counted, rated};
use crate::fault::ViewFault;
use crate::page::Page;
use crate::totals::{block_throughput, ratio, total_uops};
use crate::view::View;
use machine_model::Machine;
use mca_words::Options;
use std::alloc::Global;

/// The summary of a run: its counts of iterations, instructions, cycles and micro-ops, the dispatch
/// width, micro-ops and instructions for each cycle, and the reciprocal throughput of the body in
/// cycles. No option has an effect. The bytes are at most `room`.
///
/// # Errors
/// `TooLong` where they would be more, and `Memory`.
pub fn summary<M: Machine>(
    alloc: Global,
    v: &View<M>,
    _: &Options,
    room: usize,
) -> Result<Vec<u8>, ViewFault>
    requires shown { IsShown (shown M.meaning v.now) }
    ensures bytes { IfOk result (λ bytes. bytes.items ≡ lines
        (summary_lines (shown M.meaning v.now))) }
    ensures fits { IfOk result (λ bytes. length bytes.items ≤ room) }
    ensures long { IfErr result (Over room (length (lines
        (summary_lines (shown M.meaning v.now))))) }
{
    let mut page = Page::make(alloc, room);
    put_summary(alloc, &mut page, v)?;
    Ok(page.into_vec())
}

/// The lines of a summary.
pub(crate) fn put_summary<M: Machine>(
    alloc: Global,
    page: &mut Page,
    v: &View<M>,
) -> Result<(), ViewFault>
    requires closed { page.old.open_line ≡ [] }
    requires shown { IsShown (shown M.meaning v.now) }
    ensures ok { OnOk result (page.new ≡ added page.old
        (lines (summary_lines (shown M.meaning v.now)))) }
    ensures long { IfErr result (Over page.old.room (length (added page.old
        (lines (summary_lines (shown M.meaning v.now)))).text)) }
{
    let rows = v.run.rows.len() as u64;
    let total = v.run.total();
    let micro_ops = total_uops(v.body, v.iterations);
    let iterations = counted(alloc, "Iterations:", v.iterations as u64)?;
    let instructions = counted(alloc, "Instructions:", rows)?;
    let cycles = counted(alloc, "Total Cycles:", total)?;
    let uops = counted(alloc, "Total uOps:", micro_ops)?;
    let width = counted(alloc, "Dispatch Width:", v.machine.limits().width as u64)?;
    let speed = rated(alloc, "uOps Per Cycle:", ratio(micro_ops, total), 2)?;
    let ipc = rated(alloc, "IPC:", ratio(rows, total), 2)?;
    let block = rated(
        alloc,
        "Block RThroughput:",
        block_throughput(v.machine, v.body),
        1,
    )?;
    page.put_lines(&[
        iterations.as_slice(),
        instructions.as_slice(),
        cycles.as_slice(),
        uops.as_slice(),
        b"",
        width.as_slice(),
        speed.as_slice(),
        ipc.as_slice(),
        block.as_slice(),
    ])
}
