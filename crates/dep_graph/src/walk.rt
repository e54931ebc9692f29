//! The rows of a run in program order, with what is kept of those before.
ghost use Rattle.std.specs.Prelude.{◌≡◌, ◌<◌, ◌≤◌, ◌+◌, ◌^◌, ℕ, length, ◌||◌, nat_eq, nat_le};
ghost use Rattle.cycle_rules.specs.Bind.{row_of};
ghost use Rattle.cycle_rules.specs.Dispatch.{fits_file};
ghost use Rattle.cycle_rules.specs.Row.{Input, Table, times};
ghost use Rattle.dep_graph.specs.declared.window.Limited.TheVariants.{Registers};
ghost use Rattle.dep_graph.specs.Stalls.{condition};
ghost use Rattle.dep_graph.specs.Thresholds.{start};
ghost use Rattle.dep_graph.specs.Walk.{IsSoundRun, IsWindow, IsFilled, AreFiles, IsWalk, stalls_of, sums_of};

use crate::counts::{Counts, Marks};
use crate::fill::Fill;
use crate::rows::Rows;
use crate::window::{Limited, Window, uops};
use cycle_rules::Bound;
use rv_isa::Reg;

/// What the rows that have gone by take of all that is limited.
#[derive(Drop)]
pub struct Walk {
    /// The cycle in which the next row is the next to dispatch: that of the dispatch before it.
    pub start: u64,
    pub fill: Fill,
    /// Of the reorder buffer.
    pub entries: Window,
    pub registers: Window,
    /// Of the load queue.
    pub loads: Window,
    /// Of the store queue.
    pub stores: Window,
    /// Of each register file.
    pub files: [Window; 8],
}

// Windows of eight register files.
fn empty_files() -> [Window; 8]
    ensures { (g : Input) → AreFiles g 0 result }
{
    [Window::empty(); 8]
}

impl Walk {
    /// Before the first row.
    pub fn empty() -> Walk
        ensures { (g : Input) (t : Table) → IsWalk g t 0 result }
    {
        Walk {
            start: 0,
            fill: Fill::empty(),
            entries: Window::empty(),
            registers: Window::empty(),
            loads: Window::empty(),
            stores: Window::empty(),
            files: empty_files(),
        }
    }

    /// Lets row j go by, and counts its stalls: there are none where it dispatches as soon as it is
    /// the next one, as most rows do.
    pub fn pass<R: Rows>(&mut self, rows: &R, j: usize, counts: &mut Counts)
        requires run { IsSoundRun (R.input rows.now) (R.table rows.now) }
        requires row { j < (R.input rows.now).rows }
        requires walk { IsWalk (R.input rows.now) (times (R.table rows.now)) j self.old }
        requires counts { counts.old ≡ sums_of (R.input rows.now) (times (R.table rows.now)) j }
        ensures walk { IsWalk (R.input rows.now) (times (R.table rows.now)) (j + 1) self.new }
        ensures counts { counts.new ≡ sums_of (R.input rows.now) (times (R.table rows.now))
            (j + 1) }
    {
        if rows.times(j).dispatch == self.start {
            self.pass_at_once(rows, j);
            return;
        }
        let row = self.pass_later(rows, j);
        counts.add(&row);
    }

    // Lets row j go by, which dispatches as soon as it is the next one.
    fn pass_at_once<R: Rows>(&mut self, rows: &R, j: usize)
        requires run { IsSoundRun (R.input rows.now) (R.table rows.now) }
        requires row { j < (R.input rows.now).rows }
        requires walk { IsWalk (R.input rows.now) (times (R.table rows.now)) j self.old }
        requires at_once { (times (R.table rows.now) j).dispatch
            ≡ start (times (R.table rows.now)) j }
        ensures walk { IsWalk (R.input rows.now) (times (R.table rows.now)) (j + 1) self.new }
    {
        let limits = rows.limits();
        let b = rows.instruction(j);
        self.fill.join(uops(limits.reorder, b), b.ends_group);
        self.entries
            .take(rows, Limited::Entries, limits.reorder, b, j);
        take_registers(&mut self.registers, &mut self.files, rows, b, j);
        self.loads.take(rows, Limited::Loads, limits.loads, b, j);
        self.stores.take(rows, Limited::Stores, limits.stores, b, j);
    }

    // Lets row j go by, and gives its stalls.
    fn pass_later<R: Rows>(&mut self, rows: &R, j: usize) -> Counts
        requires run { IsSoundRun (R.input rows.now) (R.table rows.now) }
        requires row { j < (R.input rows.now).rows }
        requires walk { IsWalk (R.input rows.now) (times (R.table rows.now)) j self.old }
        ensures walk { IsWalk (R.input rows.now) (times (R.table rows.now)) (j + 1) self.new }
        ensures counts { result ≡ stalls_of (R.input rows.now) (times (R.table rows.now)) j }
    {
        let limits = rows.limits();
        let start = self.start;
        let end = rows.times(j).dispatch;
        let b = rows.instruction(j);
        let marks = Marks {
            group: fill_group(&mut self.fill, rows, b, j, start, end),
            reorder: self
                .entries
                .take(rows, Limited::Entries, limits.reorder, b, j),
            registers: take_registers(&mut self.registers, &mut self.files, rows, b, j),
            loads: self.loads.take(rows, Limited::Loads, limits.loads, b, j),
            stores: self.stores.take(rows, Limited::Stores, limits.stores, b, j),
        };
        self.start = end;
        Counts::of_row(start, &marks, end, b.reserved)
    }
}

// Goes on to the dispatch of row j, and gives the cycle from which on it found place in a group.
fn fill_group<R: Rows>(fill: &mut Fill, rows: &R, b: &Bound, j: usize, begin: u64, end: u64) -> u64
    requires run { IsSoundRun (R.input rows.now) (R.table rows.now) }
    requires row { j < (R.input rows.now).rows }
    requires instruction { row_of b.now ≡ (R.input rows.now).row j }
    requires begin { begin ≡ start (times (R.table rows.now)) j }
    requires end { end ≡ (times (R.table rows.now) j).dispatch }
    requires fill { IsFilled (R.input rows.now) (times (R.table rows.now)) j begin fill.old }
    ensures fill { IsFilled (R.input rows.now) (times (R.table rows.now)) (j + 1) end fill.new }
    ensures from { (c : ℕ) → begin ≤ c →
        condition (R.input rows.now) (times (R.table rows.now)) j c 0 ≡ nat_le result c }
{
    let limits = rows.limits();
    let width = limits.width;
    let uops = uops(limits.reorder, b);
    let from = fill.place_from(begin, width, uops, b.begins_group);
    fill.pass(width, end - begin);
    fill.join(uops, b.ends_group);
    from
}

// Takes what row j takes of the registers, and of their file, and gives the cycle from which on it
// found both.
#[inline(always)]
fn take_registers<R: Rows>(
    registers: &mut Window,
    files: &mut [Window; 8],
    rows: &R,
    b: &Bound,
    j: usize,
) -> u64
    requires run { IsSoundRun (R.input rows.now) (R.table rows.now) }
    requires row { j < (R.input rows.now).rows }
    requires instruction { row_of b.now ≡ (R.input rows.now).row j }
    requires window { IsWindow (R.input rows.now) Registers
        (R.input rows.now).machine.limits.registers j registers.old }
    requires files { AreFiles (R.input rows.now) j files.old }
    ensures window { IsWindow (R.input rows.now) Registers
        (R.input rows.now).machine.limits.registers (j + 1) registers.new }
    ensures files { AreFiles (R.input rows.now) (j + 1) files.new }
    ensures from { (c : ℕ) → start (times (R.table rows.now)) j ≤ c →
        condition (R.input rows.now) (times (R.table rows.now)) j c 2 ≡ nat_le result c }
{
    let bound = rows.limits().registers;
    let from = registers.take(rows, Limited::Registers, bound, b, j);
    from.max(take_file(files, rows, b.rd, j))
}

// Takes what row j takes of a register file, and gives the cycle from which on it found that.
#[inline(always)]
fn take_file<R: Rows>(files: &mut [Window; 8], rows: &R, rd: Reg, j: usize) -> u64
    requires run { IsSoundRun (R.input rows.now) (R.table rows.now) }
    requires row { j < (R.input rows.now).rows }
    requires writes { rd ≡ ((R.input rows.now).row j).rd }
    requires files { AreFiles (R.input rows.now) j files.old }
    ensures files { AreFiles (R.input rows.now) (j + 1) files.new }
    ensures from { (c : ℕ) → (nat_eq ((R.input rows.now).row j).rd 0
        || fits_file (R.input rows.now) (times (R.table rows.now)) j c
        ((R.input rows.now).machine.file_of ((R.input rows.now).row j).rd)) ≡ nat_le result c }
{
    if rd.number() == 0 {
        return 0;
    }
    let Some(share) = rows.file_of(rd) else {
        return 0;
    };
    let f = share.file as usize;
    let bound = rows.file_size(f);
    files[f].take_weight(
        rows,
        Limited::FileRegisters(share.file),
        bound,
        share.cost,
        j,
    )
}
