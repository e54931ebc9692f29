//! The numbers of each instruction.
ghost use Rattle.std.specs.Prelude.{◌≡◌, ◌≤◌, ◌<◌, [], length, IfOk, OnOk, IfErr};
ghost use Rattle.mca_views.specs.Fault.{Over};
ghost use Rattle.mca_views.specs.Information.{
  information_head,
  information_line,
  information_lines,
  marked,
};
ghost use Rattle.mca_views.specs.Lines.{lines, listed};
ghost use Rattle.mca_views.specs.Page.{added};
ghost use Rattle.mca_views.specs.Shown.{shown, IsShown};

use crate::cells::{digits, push_cell};
use crate::fault::ViewFault;
use crate::page::Page;
use crate::totals::throughput;
use crate::view::View;
use machine_model::Machine;
use mca_fixed::{NoMemory, decimal};
use mca_words::Options;
use rv_isa::{has_side_effects, is_load, is_store, spell};
use std::alloc::Global;

/// The numbers of each instruction of a region: its micro-ops, its latency in cycles, its reciprocal
/// throughput in cycles, whether it is a load, a store, or has other effects, and its spelling. No
/// option has an effect. The bytes are at most `room`.
///
/// # Errors
/// `TooLong` where they would be more, and `Memory`.
pub fn instruction_info<M: Machine>(
    alloc: Global,
    v: &View<M>,
    _: &Options,
    room: usize,
) -> Result<Vec<u8>, ViewFault>
    requires shown { IsShown (shown M.meaning v.now) }
    ensures bytes { IfOk result (λ bytes. bytes.items ≡ lines
        (information_lines (shown M.meaning v.now))) }
    ensures fits { IfOk result (λ bytes. length bytes.items ≤ room) }
    ensures long { IfErr result (Over room (length (lines
        (information_lines (shown M.meaning v.now))))) }
{
    let mut page = Page::make(alloc, room);
    put_information(alloc, &mut page, v)?;
    Ok(page.into_vec())
}

/// The lines of the view.
pub(crate) fn put_information<M: Machine>(
    alloc: Global,
    page: &mut Page,
    v: &View<M>,
) -> Result<(), ViewFault>
    requires closed { page.old.open_line ≡ [] }
    requires shown { IsShown (shown M.meaning v.now) }
    ensures ok { OnOk result (page.new ≡ added page.old
        (lines (information_lines (shown M.meaning v.now)))) }
    ensures long { IfErr result (Over page.old.room (length (added page.old
        (lines (information_lines (shown M.meaning v.now)))).text)) }
{
    put_head(page)?;
    put_rows(alloc, page, v)
}

/// What the numbers are.
fn put_head(page: &mut Page) -> Result<(), ViewFault>
    requires closed { page.old.open_line ≡ [] }
    ensures ok { OnOk result (page.new ≡ added page.old (lines information_head)) }
    ensures long { IfErr result (Over page.old.room (length (added page.old
        (lines information_head)).text)) }
{
    page.put_lines(&[
        b"Instruction Info:",
        b"[1]: #uOps",
        b"[2]: Latency",
        b"[3]: RThroughput",
        b"[4]: MayLoad",
        b"[5]: MayStore",
        b"[6]: HasSideEffects (U)",
        b"",
        b"[1]    [2]    [3]    [4]    [5]    [6]    Instructions:",
    ])
}

/// The numbers, a line for each instruction.
fn put_rows<M: Machine>(alloc: Global, page: &mut Page, v: &View<M>) -> Result<(), ViewFault>
    requires closed { page.old.open_line ≡ [] }
    requires shown { IsShown (shown M.meaning v.now) }
    ensures ok { OnOk result (page.new ≡ added page.old (lines (listed (length v.now.code.now)
        (information_line (shown M.meaning v.now))))) }
    ensures long { IfErr result (Over page.old.room (length (added page.old
        (lines (listed (length v.now.code.now)
        (information_line (shown M.meaning v.now))))).text)) }
{
    for k in 0..v.code.len() {
        let line = information_line(alloc, v, k)?;
        page.put_line(&line)?;
    }
    Ok(())
}

/// The line of an instruction.
fn information_line<M: Machine>(alloc: Global, v: &View<M>, k: usize) -> Result<Vec<u8>, NoMemory>
    requires place { k < length v.now.code.now }
    requires shown { IsShown (shown M.meaning v.now) }
    ensures { IfOk result (λ line. line.items ≡ information_line (shown M.meaning v.now) k) }
{
    let op = v.code[k].op;
    let bound = &v.body[k];
    let mut line = Vec::new(alloc);
    push_cell(&mut line, &digits(alloc, bound.uops as u64)?, 7)?;
    push_cell(&mut line, &digits(alloc, bound.latency as u64)?, 7)?;
    push_cell(
        &mut line,
        &decimal(alloc, throughput(v.machine, bound), 2)?,
        7,
    )?;
    push_cell(&mut line, marked(is_load(op), b"*"), 7)?;
    push_cell(&mut line, marked(is_store(op), b"*"), 7)?;
    push_cell(&mut line, marked(has_side_effects(op), b"U"), 7)?;
    line.extend_from_slice(&spell(alloc, &v.code[k], v.names)?)?;
    Ok(line)
}

/// A mark where something is so.
fn marked(is: bool, mark: &'static [u8]) -> &'static [u8]
    ensures { result.now ≡ marked is mark.now }
{
    if is { mark } else { b"" }
}
