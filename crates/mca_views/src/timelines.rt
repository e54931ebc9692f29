//! The timeline: what each row does in each cycle.
ghost use Rattle.std.specs.Prelude.{◌≡◌, ◌≤◌, ◌<◌, ◌+◌, ◌++◌, ◌%◌, ℕ, [], codes, length, IfOk, OnOk, IfErr};
ghost use Rattle.mca_fixed.specs.Padding.{spaces};
ghost use Rattle.mca_views.specs.Fault.{Over};
ghost use Rattle.mca_views.specs.Lines.{line, lines, listed};
ghost use Rattle.mca_views.specs.Page.{size, more, added};
ghost use Rattle.mca_views.specs.Shown.{shown, spelled, IsShown};
ghost use Rattle.mca_views.specs.Timeline.{letter, ones, tens, tag, limited, lines_of_row, row_lines, iterations_shown, rows_shown, cycles_shown, timeline_head, timeline_lines};

use crate::cells::{cell, digits};
use crate::fault::ViewFault;
use crate::page::Page;
use crate::view::View;
use cycle_rules::Times;
use machine_model::Machine;
use mca_fixed::NoMemory;
use mca_words::Options;
use rv_isa::spell;
use std::alloc::Global;

/// A byte for each cycle.
trait Letters {
    ghost at: { Self → ℕ → ℕ };

    /// The byte of a cycle.
    fn letter(&self, cycle: u64) -> u8
        ensures { result ≡ at self.now cycle };
}

/// The last digit of each cycle.
struct Ones;

impl Letters for Ones {
    ghost at = { λ _. ones };

    #[tactic(auto, unfolding(crate::specs::Timeline::ones))]
    fn letter(&self, cycle: u64) -> u8 {
        b'0' + (cycle % 10) as u8
    }
}

/// The digit before the last, at each tenth cycle.
struct Tens;

impl Letters for Tens {
    ghost at = { λ _. tens };

    #[tactic(auto, unfolding(crate::specs::Timeline::tens))]
    fn letter(&self, cycle: u64) -> u8 {
        if cycle >= 10 && cycle % 10 == 0 {
            b'0' + (cycle / 10 % 10) as u8
        } else {
            b' '
        }
    }
}

/// What a row does in each cycle.
impl Letters for Times {
    ghost at = { letter };

    #[tactic(auto, unfolding(crate::specs::Timeline::letter))]
    fn letter(&self, cycle: u64) -> u8 {
        if cycle < self.dispatch || self.retire < cycle {
            if cycle % 5 == 0 { b'.' } else { b' ' }
        } else if cycle == self.dispatch {
            b'D'
        } else if cycle == self.retire {
            b'R'
        } else if cycle == self.complete {
            b'E'
        } else if cycle < self.issue {
            b'='
        } else if cycle < self.complete {
            b'e'
        } else {
            b'-'
        }
    }
}

/// The bytes of the first cycles.
fn put_letters<L: Letters>(page: &mut Page, letters: &L, cycles: u64) -> Result<(), ViewFault>
    ensures ok { OnOk result (page.new ≡ more page.old (listed cycles (L.at letters.now))) }
    ensures long { IfErr result (Over page.old.room
        (size (more page.old (listed cycles (L.at letters.now))))) }
{
    for c in 0..cycles {
        page.put_byte(letters.letter(c))?;
    }
    Ok(())
}

/// A line of a text, a byte for each of the first cycles, and another text.
fn put_letter_line<L: Letters>(
    page: &mut Page,
    head: &[u8],
    letters: &L,
    cycles: u64,
    tail: &[u8],
) -> Result<(), ViewFault>
    requires { page.old.open_line ≡ [] }
    ensures ok { OnOk result (page.new ≡ added page.old
        (line (head.now ++ listed cycles (L.at letters.now) ++ tail.now))) }
    ensures long { IfErr result (Over page.old.room (length (added page.old
        (line (head.now ++ listed cycles (L.at letters.now) ++ tail.now))).text)) }
{
    page.put(head)?;
    put_letters(page, letters, cycles)?;
    page.put(tail)?;
    page.end()
}

/// The timeline of a run: the numbers of the first `timeline_max_cycles` cycles, and a line for
/// each row of the first `timeline_max_iterations` iterations that dispatches in one of them, with
/// a letter for each of these cycles; a limit of 0 is none. The bytes are at most `room`.
///
/// # Errors
/// `TooLong` where they would be more, and `Memory`.
pub fn timeline<M: Machine>(
    alloc: Global,
    v: &View<M>,
    o: &Options,
    room: usize,
) -> Result<Vec<u8>, ViewFault>
    requires shown { IsShown (shown M.meaning v.now) }
    ensures bytes { IfOk result (λ bytes. bytes.items ≡
        lines (timeline_lines (shown M.meaning v.now) o.now)) }
    ensures fits { IfOk result (λ bytes. length bytes.items ≤ room) }
    ensures long { IfErr result (Over room
        (length (lines (timeline_lines (shown M.meaning v.now) o.now)))) }
{
    let mut page = Page::make(alloc, room);
    put_timeline(alloc, &mut page, v, o)?;
    Ok(page.into_vec())
}

/// The lines of the timeline.
pub(crate) fn put_timeline<M: Machine>(
    alloc: Global,
    page: &mut Page,
    v: &View<M>,
    o: &Options,
) -> Result<(), ViewFault>
    requires closed { page.old.open_line ≡ [] }
    requires shown { IsShown (shown M.meaning v.now) }
    ensures ok { OnOk result (page.new ≡ added page.old
        (lines (timeline_lines (shown M.meaning v.now) o.now))) }
    ensures long { IfErr result (Over page.old.room (length (added page.old
        (lines (timeline_lines (shown M.meaning v.now) o.now))).text)) }
{
    let cycles = limited(o.timeline_max_cycles, v.run.total());
    let rows = rows_shown(v, o);
    put_head(page, cycles)?;
    put_rows(alloc, page, v, cycles, rows)?;
    Ok(())
}

/// A number, but no more than a limit; 0 is no limit.
pub(crate) fn limited(limit: u32, n: u64) -> u64
    ensures is { result ≡ limited limit n }
    ensures some { 1 ≤ n → 1 ≤ result }
    ensures low { result ≤ n }
{
    if limit == 0 {
        return n;
    }
    n.min(limit as u64)
}

/// How many iterations are shown.
pub(crate) fn iterations_shown<M: Machine>(v: &View<M>, o: &Options) -> u64
    requires shown { IsShown (shown M.meaning v.now) }
    ensures is { result ≡ iterations_shown (shown M.meaning v.now) o.now }
    ensures some { 1 ≤ result }
    ensures within { result ≤ v.now.iterations }
{
    limited(o.timeline_max_iterations, v.iterations as u64)
}

/// How many rows they have.
pub(crate) fn rows_shown<M: Machine>(v: &View<M>, o: &Options) -> usize
    requires shown { IsShown (shown M.meaning v.now) }
    ensures is { result ≡ rows_shown (shown M.meaning v.now) o.now }
    ensures some { 1 ≤ result }
    ensures within { result ≤ length v.now.run.now.rows }
{
    iterations_shown(v, o) as usize * v.body.len()
}

/// The numbers of the cycles.
fn put_head(page: &mut Page, cycles: u64) -> Result<(), ViewFault>
    requires { page.old.open_line ≡ [] }
    ensures ok { OnOk result (page.new ≡ added page.old (lines (timeline_head cycles))) }
    ensures long { IfErr result (Over page.old.room (length (added page.old
        (lines (timeline_head cycles))).text)) }
{
    page.put_line(b"Timeline view:")?;
    put_letter_line(page, b"          ", &Tens, cycles, b"")?;
    put_letter_line(page, b"Index     ", &Ones, cycles, b"")?;
    page.put_line(b"")
}

/// Those of the first rows that dispatch in a cycle that is shown.
fn put_rows<M: Machine>(
    alloc: Global,
    page: &mut Page,
    v: &View<M>,
    cycles: u64,
    rows: usize,
) -> Result<(), ViewFault>
    requires closed { page.old.open_line ≡ [] }
    requires shown { IsShown (shown M.meaning v.now) }
    requires rows { rows ≤ length v.now.run.now.rows }
    ensures ok { OnOk result (page.new ≡ added page.old
        (lines (row_lines (shown M.meaning v.now) cycles rows))) }
    ensures long { IfErr result (Over page.old.room (length (added page.old
        (lines (row_lines (shown M.meaning v.now) cycles rows))).text)) }
{
    for j in 0..rows {
        put_row(alloc, page, v, cycles, j)?;
    }
    Ok(())
}

/// A row, where it dispatches in a cycle that is shown.
fn put_row<M: Machine>(
    alloc: Global,
    page: &mut Page,
    v: &View<M>,
    cycles: u64,
    j: usize,
) -> Result<(), ViewFault>
    requires closed { page.old.open_line ≡ [] }
    requires shown { IsShown (shown M.meaning v.now) }
    requires row { j < length v.now.run.now.rows }
    ensures ok { OnOk result (page.new ≡ added page.old
        (lines (lines_of_row (shown M.meaning v.now) cycles j))) }
    ensures long { IfErr result (Over page.old.room (length (added page.old
        (lines (lines_of_row (shown M.meaning v.now) cycles j))).text)) }
{
    let row = &v.run.rows.as_slice()[j];
    if row.dispatch >= cycles {
        return Ok(());
    }
    let place = j % v.body.len();
    let tag = tag(alloc, j / v.body.len(), place)?;
    let spelling = spelled(alloc, v, place)?;
    put_letter_line(page, &cell(alloc, &tag, 10)?, row, cycles, &spelling)
}

/// The iteration and the place of a row, each counted from 0.
fn tag(alloc: Global, iteration: usize, place: usize) -> Result<Vec<u8>, NoMemory>
    ensures { IfOk result (λ text. text.items ≡ tag iteration place) }
{
    let mut text = Vec::from_slice(alloc, b"[")?;
    text.extend_from_slice(&digits(alloc, iteration as u64)?)?;
    text.extend_from_slice(b",")?;
    text.extend_from_slice(&digits(alloc, place as u64)?)?;
    text.extend_from_slice(b"]")?;
    Ok(text)
}

/// Three spaces and the spelling of an instruction.
fn spelled<M: Machine>(alloc: Global, v: &View<M>, place: usize) -> Result<Vec<u8>, NoMemory>
    requires place { place < length v.now.code.now }
    requires shown { IsShown (shown M.meaning v.now) }
    ensures { IfOk result (λ text. text.items ≡ spaces 3 ++ spelled (shown M.meaning v.now) place) }
{
    let mut text = Vec::from_slice(alloc, b"   ")?;
    text.extend_from_slice(&spell(alloc, &v.code[place], v.names)?)?;
    Ok(text)
}
