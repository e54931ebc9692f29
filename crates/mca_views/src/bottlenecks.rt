//! What held a run up: the waits of its rows, the stalls of dispatch, and the critical sequence.
ghost use Rattle.std.specs.Prelude.{◌≡◌, ◌≤◌, ◌<◌, ℕ, List, [], ◌∷◌, ◌+◌, ◌-◌, ◌*◌, ◌++◌, map, take, drop, length, codes, Option, Some, IfOk, OnOk, IfErr, IsOkUnless};
ghost use Rattle.critical_chain.specs.declared.graph.Chain.{Chain as ChainOf};
ghost use Rattle.cycle_rules.specs.Bind.{IsBoundBody};
ghost use Rattle.cycle_rules.specs.Row.{times};
ghost use Rattle.cycle_rules.specs.Run.{IsRunOf};
ghost use Rattle.dep_graph.specs.Stalls.{stalls};
ghost use Rattle.dep_graph.specs.WaitSums.{AreSums};
ghost use Rattle.machine_model.specs.Valid.{IsValidMachine};
ghost use Rattle.mca_words.specs.declared.options.Options.{Options as OptionsOf};
ghost use Rattle.mca_views.specs.Bottleneck.{IsSequence, IsAsked, HasSums, sequence_of, IsBottleneck, IsOver, sum_lines, waited_lines, stall_lines, IsTag, row_tag, kind_word, link_line, sequence_lines, bottleneck_lines};
ghost use Rattle.mca_views.specs.Fault.{Over};
ghost use Rattle.mca_views.specs.Lines.{lines};
ghost use Rattle.mca_views.specs.Page.{added};
ghost use Rattle.mca_views.specs.Shown.{Shown as ShownOf, shown, run_of, IsShown};
ghost use Rattle.mca_views.specs.WorkedBottleneck.{two_products, first_sum, two_products_text};

use crate::cells::counted;
use crate::fault::ViewFault;
use crate::page::Page;
use crate::view::View;
use critical_chain::{Chain, Edge, EdgeKind, critical};
use dep_graph::{WaitSums, run_waits};
use itoa::write_digits;
use machine_model::Machine;
use mca_fixed::NoMemory;
use mca_words::Options;
use std::alloc::Global;

/// At most one chain is the critical sequence of a run, and is to be shown; so one text shows what held it
/// up.
pub fn one_bottleneck()
    ensures sequence { (s : ShownOf) (c d : ChainOf) → IsSequence s c → IsSequence s d → c ≡ d }
    ensures asked { (o : OptionsOf) (s : ShownOf) (c d : Option ChainOf) →
        IsAsked o s c → IsAsked o s d → c ≡ d }
    ensures bytes { (s : ShownOf) (a b : List ℕ) → IsBottleneck s a → IsBottleneck s b → a ≡ b }
{}

/// Where a region can be shown, its body is bound by its valid machine and its table is their run, the
/// run has a critical sequence; so it is known which sequence is to be shown, one or none.
pub fn some_sequence()
    ensures sequence { (numbers size : ℕ) (s : ShownOf) → IsValidMachine numbers size s.machine →
        IsShown s → IsBoundBody s.machine s.body → IsRunOf (run_of s) s.table →
        (c : ChainOf) × IsSequence s c }
    ensures asked { (numbers size : ℕ) (o : OptionsOf) (s : ShownOf) →
        IsValidMachine numbers size s.machine → IsShown s → IsBoundBody s.machine s.body →
        IsRunOf (run_of s) s.table → (chain : Option ChainOf) × IsAsked o s chain }
{}

/// The view of a run that was worked out by hand: two products and their sums. Of the two waits the one that
/// ends first is the critical sequence.
pub fn worked_bottleneck()
    ensures sequence { IsSequence two_products first_sum }
    ensures text { lines (bottleneck_lines two_products first_sum) ≡ two_products_text }
{}

/// What held a run up.
#[derive(Drop)]
pub struct HeldUp {
    /// The critical sequence.
    pub chain: Chain,
    /// For how many cycles rows waited, added up.
    pub waits: WaitSums,
    /// For how many cycles dispatch stalled, by what the next row lacked.
    pub stalls: [u64; 7],
}

/// What held a run up, where `-bottleneck-analysis` is on; none where it is off.
pub fn held_up_for<M: Machine>(
    alloc: Global,
    v: &View<M>,
    o: &Options,
) -> Result<Option<HeldUp>, NoMemory>
    requires shown { IsShown (shown M.meaning v.now) }
    requires bound { IsBoundBody (M.meaning v.now.machine.now) v.now.body.now }
    requires run { IsRunOf (run_of (shown M.meaning v.now)) v.now.run.now.rows }
    ensures asked { IfOk result (λ held. IsAsked o.now (shown M.meaning v.now)
        (sequence_of held)) }
    ensures sums { IfOk result (HasSums (shown M.meaning v.now)) }
{
    if !o.bottleneck_analysis {
        return Ok(None);
    }
    let held = held_up(alloc, v)?;
    Ok(Some(held))
}

/// What held a run up: for how many cycles its rows waited for operands, for the order of memory and for
/// units, added up; for how many cycles dispatch stalled, by what the next row lacked; and the critical
/// sequence, the costliest chain of waits, link by link. The body is bound by the machine and the table is
/// its run. There is one such text (`one_bottleneck`). It has no option. The bytes are at most `room`.
///
/// # Errors
/// `TooLong` where they would be more, and `Memory`.
pub fn bottleneck<M: Machine>(
    alloc: Global,
    v: &View<M>,
    _: &Options,
    room: usize,
) -> Result<Vec<u8>, ViewFault>
    requires shown { IsShown (shown M.meaning v.now) }
    requires bound { IsBoundBody (M.meaning v.now.machine.now) v.now.body.now }
    requires run { IsRunOf (run_of (shown M.meaning v.now)) v.now.run.now.rows }
    ensures bytes { IfOk result (λ bytes. IsBottleneck (shown M.meaning v.now) bytes.items) }
    ensures fits { IfOk result (λ bytes. length bytes.items ≤ room) }
    ensures long { IfErr result (IsOver (shown M.meaning v.now) room) }
{
    let held = held_up(alloc, v)?;
    let mut page = Page::make(alloc, room);
    put_bottleneck(alloc, &mut page, v, &held)?;
    Ok(page.into_vec())
}

/// What held a run up.
fn held_up<M: Machine>(alloc: Global, v: &View<M>) -> Result<HeldUp, NoMemory>
    requires shown { IsShown (shown M.meaning v.now) }
    requires bound { IsBoundBody (M.meaning v.now.machine.now) v.now.body.now }
    requires run { IsRunOf (run_of (shown M.meaning v.now)) v.now.run.now.rows }
    ensures sequence { IfOk result (λ held. IsSequence (shown M.meaning v.now) held.chain) }
    ensures sums { IfOk result (λ held. HasSums (shown M.meaning v.now) (Some held)) }
{
    let waits = run_waits(alloc, v.machine, v.body, v.iterations, v.run)?;
    let chain = critical(alloc, &waits.graph)?;
    Ok(HeldUp {
        chain,
        waits: waits.sums,
        stalls: waits.stalls,
    })
}

/// The lines of the view.
pub(crate) fn put_bottleneck<M: Machine>(
    alloc: Global,
    page: &mut Page,
    v: &View<M>,
    held: &HeldUp,
) -> Result<(), ViewFault>
    requires closed { page.old.open_line ≡ [] }
    requires shown { IsShown (shown M.meaning v.now) }
    requires sums { HasSums (shown M.meaning v.now) (Some held.now) }
    ensures ok { OnOk result (page.new ≡ added page.old
        (lines (bottleneck_lines (shown M.meaning v.now) held.now.chain))) }
    ensures long { IfErr result (Over page.old.room (length (added page.old
        (lines (bottleneck_lines (shown M.meaning v.now) held.now.chain))).text)) }
{
    put_waits(alloc, page, v, held.waits)?;
    put_stalls(alloc, page, v, held.stalls)?;
    put_sequence(alloc, page, v, &held.chain)?;
    Ok(())
}

/// How long rows waited.
fn put_waits<M: Machine>(
    alloc: Global,
    page: &mut Page,
    v: &View<M>,
    waits: WaitSums,
) -> Result<(), ViewFault>
    requires closed { page.old.open_line ≡ [] }
    requires shown { IsShown (shown M.meaning v.now) }
    requires waits { AreSums (run_of (shown M.meaning v.now)) (times v.now.run.now.rows)
        (v.now.iterations * length v.now.body.now) waits }
    ensures ok { OnOk result (page.new ≡ added page.old
        (lines (waited_lines (shown M.meaning v.now)))) }
    ensures long { IfErr result (Over page.old.room (length (added page.old
        (lines (waited_lines (shown M.meaning v.now)))).text)) }
{
    put_sums(alloc, page, waits.registers, waits.memory, waits.resources)
}

/// The sums of the waits, in cycles.
fn put_sums(
    alloc: Global,
    page: &mut Page,
    registers: u64,
    memory: u64,
    resources: u64,
) -> Result<(), ViewFault>
    requires closed { page.old.open_line ≡ [] }
    ensures ok { OnOk result (page.new ≡ added page.old
        (lines (sum_lines registers memory resources))) }
    ensures long { IfErr result (Over page.old.room (length (added page.old
        (lines (sum_lines registers memory resources))).text)) }
{
    let registers = counted(alloc, "Register wait:", registers)?;
    let memory = counted(alloc, "Memory wait:", memory)?;
    let resources = counted(alloc, "Resource wait:", resources)?;
    page.put_lines(&[
        b"Bottleneck analysis:",
        registers.as_slice(),
        memory.as_slice(),
        resources.as_slice(),
        b"",
    ])
}

/// For how long dispatch stalled.
fn put_stalls<M: Machine>(
    alloc: Global,
    page: &mut Page,
    v: &View<M>,
    counts: [u64; 7],
) -> Result<(), ViewFault>
    requires closed { page.old.open_line ≡ [] }
    requires counts { counts ≡ stalls (run_of (shown M.meaning v.now)) (times v.now.run.now.rows) }
    ensures ok { OnOk result (page.new ≡ added page.old
        (lines (stall_lines (shown M.meaning v.now)))) }
    ensures long { IfErr result (Over page.old.room (length (added page.old
        (lines (stall_lines (shown M.meaning v.now)))).text)) }
{
    let group = counted(alloc, "Group:", counts[0])?;
    let reorder = counted(alloc, "Reorder buffer:", counts[1])?;
    let registers = counted(alloc, "Registers:", counts[2])?;
    let loads = counted(alloc, "Load queue:", counts[3])?;
    let stores = counted(alloc, "Store queue:", counts[4])?;
    let buffer = counted(alloc, "Buffer:", counts[5])?;
    let reserved = counted(alloc, "Reserved:", counts[6])?;
    page.put_lines(&[
        b"Dispatch stalls:",
        group.as_slice(),
        reorder.as_slice(),
        registers.as_slice(),
        loads.as_slice(),
        stores.as_slice(),
        buffer.as_slice(),
        reserved.as_slice(),
        b"",
    ])
}

/// A chain: what it costs, and its links.
fn put_sequence<M: Machine>(
    alloc: Global,
    page: &mut Page,
    v: &View<M>,
    chain: &Chain,
) -> Result<(), ViewFault>
    requires closed { page.old.open_line ≡ [] }
    requires some { 0 < length v.now.body.now }
    ensures ok { OnOk result (page.new ≡ added page.old
        (lines (sequence_lines (shown M.meaning v.now) chain.now))) }
    ensures long { IfErr result (Over page.old.room (length (added page.old
        (lines (sequence_lines (shown M.meaning v.now) chain.now))).text)) }
{
    let cost = counted(alloc, "Critical sequence:", chain.cost)?;
    page.put_lines(&[cost.as_slice()])?;
    reserve_links(page, v, chain.links.as_slice())?;
    put_links(page, v, chain.links.as_slice())?;
    Ok(())
}

/// By how many bytes a line of a link may well be longer than that of the last one, by the digits of two
/// places in the body and of the cost.
const MORE_DIGITS: usize = 8;

/// Takes memory ahead for the links of a chain: their last line is about the longest, as the iterations of its
/// rows are the greatest.
fn reserve_links<M: Machine>(page: &mut Page, v: &View<M>, links: &[Edge]) -> Result<(), ViewFault>
    requires some { 0 < length v.now.body.now }
    ensures ok { OnOk result (page.new ≡ page.old) }
    ensures err { IsOkUnless result ViewFault.Memory }
{
    match links.last() {
        Some(last) => {
            let start = write_link(v, *last, &mut tag_of(v, last.from), &mut [0; MOST_LINK]);
            let size = MOST_LINK - start + 1 + MORE_DIGITS;
            page.reserve(links.len().saturating_mul(size))
        }
        None => Ok(()),
    }
}

/// The links of a chain.
fn put_links<M: Machine>(page: &mut Page, v: &View<M>, links: &[Edge]) -> Result<(), ViewFault>
    requires closed { page.old.open_line ≡ [] }
    requires some { 0 < length v.now.body.now }
    ensures ok { OnOk result (page.new ≡ added page.old
        (lines (map (link_line (shown M.meaning v.now)) links.now))) }
    ensures long { IfErr result (Over page.old.room (length (added page.old
        (lines (map (link_line (shown M.meaning v.now)) links.now))).text)) }
{
    let mut tag = tag_of(v, 0);
    let mut buf = [0; MOST_LINK];
    for e in links {
        let start = write_link(v, *e, &mut tag, &mut buf);
        page.put_line(&buf[start..])?;
    }
    Ok(())
}

/// The most bytes of the line of a link: two tags, four bytes between them, the longest word with a space on
/// each side, and a number below 2^64.
const MOST_LINK: usize = 80;

/// Writes the line of a link at the end of a buffer, and answers where it starts. In a chain each link begins
/// with the row that the one before ended with, so that row's tag is kept for it.
#[inline(always)]
fn write_link<M: Machine>(
    v: &View<M>,
    e: Edge,
    tag: &mut RowTag,
    buf: &mut [u8; MOST_LINK],
) -> usize
    requires some { 0 < length v.now.body.now }
    requires tag { IsTag (shown M.meaning v.now) tag.old }
    ensures tag { IsTag (shown M.meaning v.now) tag.new }
    ensures within { result ≤ 80 }
    ensures written { drop result buf.new ≡ link_line (shown M.meaning v.now) e }
{
    retag(v, e.from, tag);
    let start = write_digits(e.cost, buf, MOST_LINK);
    let end = write_kind(e.kind, buf, start);
    let to = write_row(v, e.to, buf, end);
    let start = write_before(b" -> ", buf, to);
    let start = write_tag(tag, buf, start);
    keep_tag(tag, e.to, buf, to, end);
    start
}

/// The most bytes of a tag: two numbers below 2^32, and three bytes about them.
const MOST_TAG: usize = 23;

/// The tag of a row, kept at the end of its bytes.
#[derive(Drop)]
struct RowTag {
    row: u32,
    start: usize,
    bytes: [u8; MOST_TAG],
}

/// Makes the tag that of a row, which it mostly is.
#[inline(always)]
fn retag<M: Machine>(v: &View<M>, row: u32, tag: &mut RowTag)
    requires some { 0 < length v.now.body.now }
    requires tag { IsTag (shown M.meaning v.now) tag.old }
    ensures tag { IsTag (shown M.meaning v.now) tag.new }
    ensures row { tag.new.row ≡ row }
{
    if tag.row != row {
        *tag = tag_of(v, row);
    }
}

/// Makes the tag that of a row, which stands between two places of a buffer.
#[inline(always)]
fn keep_tag(tag: &mut RowTag, row: u32, buf: &[u8], start: usize, end: usize)
    requires low { 23 ≤ end }
    requires high { end ≤ length buf.now }
    requires within { start ≤ end }
    requires short { end ≤ start + 23 }
    ensures row { tag.new.row ≡ row }
    ensures start { tag.new.start + end ≡ start + 23 }
    ensures bytes { drop tag.new.start tag.new.bytes ≡ take (end - start) (drop start buf.now) }
{
    tag.row = row;
    tag.start = start + MOST_TAG - end;
    tag.bytes.copy_from_slice(&buf[end - MOST_TAG..end]);
}

/// The tag of a row.
fn tag_of<M: Machine>(v: &View<M>, row: u32) -> RowTag
    requires { 0 < length v.now.body.now }
    ensures tag { IsTag (shown M.meaning v.now) result }
    ensures row { result.row ≡ row }
{
    let mut bytes = [0; MOST_TAG];
    let start = write_row(v, row, &mut bytes, MOST_TAG);
    RowTag { row, start, bytes }
}

/// Writes the tag of a row so that it ends where `end` says, and answers where it starts.
#[inline(always)]
fn write_row<M: Machine>(v: &View<M>, row: u32, buf: &mut [u8], end: usize) -> usize
    requires some { 0 < length v.now.body.now }
    requires low { 23 ≤ end }
    requires high { end ≤ length buf.old }
    ensures start { result + length (row_tag (shown M.meaning v.now) row) ≡ end }
    ensures short { end ≤ result + 23 }
    ensures written { drop result buf.new
        ≡ row_tag (shown M.meaning v.now) row ++ drop end buf.old }
{
    let j = row as usize;
    let start = write_before(b"]", buf, end);
    let start = write_digits((j % v.body.len()) as u64, buf, start);
    let start = write_before(b",", buf, start);
    let start = write_digits((j / v.body.len()) as u64, buf, start);
    write_before(b"[", buf, start)
}

/// Writes a tag so that it ends where `end` says, and answers where it starts. What lies before it there is
/// written over.
fn write_tag(tag: &RowTag, buf: &mut [u8], end: usize) -> usize
    requires within { tag.now.start ≤ 23 }
    requires low { 23 ≤ end }
    requires high { end ≤ length buf.old }
    ensures start { result ≡ end - 23 + tag.now.start }
    ensures written { drop result buf.new ≡ drop tag.now.start tag.now.bytes ++ drop end buf.old }
    ensures behind { drop end buf.new ≡ drop end buf.old }
{
    write_before(&tag.bytes, buf, end) + tag.start
}

/// Writes what was waited for, with a space on each side, so that it ends where `end` says, and answers where
/// it starts.
fn write_kind(kind: EdgeKind, buf: &mut [u8], end: usize) -> usize
    requires low { 10 ≤ end }
    requires high { end ≤ length buf.old }
    ensures start { result + length (kind_word kind) + 2 ≡ end }
    ensures short { end ≤ result + 10 }
    ensures written { drop result buf.new
        ≡ codes " " ++ kind_word kind ++ codes " " ++ drop end buf.old }
{
    match kind {
        EdgeKind::Register => write_before(b" register ", buf, end),
        EdgeKind::Memory => write_before(b" memory ", buf, end),
        EdgeKind::Resource => write_before(b" resource ", buf, end),
    }
}

/// Writes bytes so that they end where `end` says, and answers where they start.
fn write_before(bytes: &[u8], buf: &mut [u8], end: usize) -> usize
    requires low { length bytes.now ≤ end }
    requires high { end ≤ length buf.old }
    ensures start { result + length bytes.now ≡ end }
    ensures written { drop result buf.new ≡ bytes.now ++ drop end buf.old }
    ensures behind { drop end buf.new ≡ drop end buf.old }
{
    let start = end - bytes.len();
    buf[start..end].copy_from_slice(bytes);
    start
}
