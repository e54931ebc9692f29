//! What the rows before a row leave behind, so that its waits are found without a look at them.
ghost use Rattle.std.specs.Prelude.{◌≡◌, ◌<◌, ◌≤◌, ◌+◌, ◌%◌, ◌^◌, ℕ, length, IfOk, true, not, ◌&&◌, ◌||◌, nat_eq, nat_lt, Some, if◌then◌else◌};
ghost use Rattle.machine_model.specs.Valid.{no_class};
ghost use Rattle.cycle_rules.specs.Bind.{row_of, has_class};
ghost use Rattle.cycle_rules.specs.Row.{Input, Table, times};
ghost use Rattle.cycle_rules.specs.Waits.{earliest, memory_at};
ghost use Rattle.cycle_rules.specs.WaitTimes.{seen_from, value_time, read_time, reads_time};
ghost use Rattle.mca_views.specs.Past.{IsPast, IsLatest};
ghost use Rattle.mca_views.specs.Shown.{shown, run_of, IsShown, IsEntry};

use crate::latest::Latest;
use crate::view::View;
use cycle_rules::{Bound, Source, lead_of};
use machine_model::Machine;
use mca_fixed::NoMemory;
use std::alloc::Global;

/// What the rows so far leave behind.
#[derive(Drop)]
pub(crate) struct Past {
    /// For each register the row that wrote it last.
    writers: Vec<Option<usize>>,
    /// The latest cycles as a reserved row finds them, and as any other does.
    of_reserved: Latest,
    of_others: Latest,
}

impl Past {
    /// Before the first row.
    pub(crate) fn none(alloc: Global) -> Result<Past, NoMemory>
        ensures { IfOk result (λ past. (g : Input) (t : Table) → IsPast g t 0 past) }
    {
        let mut writers = Vec::new(alloc);
        writers.resize(32, None)?;
        Ok(Past {
            writers,
            of_reserved: Latest::none(),
            of_others: Latest::none(),
        })
    }

    /// After row j, which stands at a place of the body.
    pub(crate) fn pass<M: Machine>(&mut self, v: &View<M>, j: usize, place: usize)
        requires shown { IsShown (shown M.meaning v.now) }
        requires row { j < length v.now.run.now.rows }
        requires place { place ≡ j % length v.now.body.now }
        requires past { IsPast (run_of (shown M.meaning v.now)) (times v.now.run.now.rows)
            j self.old }
        ensures { IsPast (run_of (shown M.meaning v.now)) (times v.now.run.now.rows)
            (j + 1) self.new }
    {
        let b = &v.body[place];
        let row = &v.run.rows.as_slice()[j];
        let by_reserved = row.issue;
        let by_others = seen_from(b.reserved, false, row.issue);
        self.writers[b.rd.number() as usize] = Some(j);
        self.of_reserved = self
            .of_reserved
            .after(b.kind, by_reserved, by_reserved.max(row.complete));
        self.of_others = self
            .of_others
            .after(b.kind, by_others, by_others.max(row.complete));
    }

    /// The first cycle in which row j, at a place of the body, has its operands and the order of
    /// memory lets it go; no sooner than it may issue at all, and no later than its issue.
    pub(crate) fn memory_at<M: Machine>(&self, v: &View<M>, j: usize, place: usize) -> u64
        requires shown { IsShown (shown M.meaning v.now) }
        requires row { j < length v.now.run.now.rows }
        requires place { place ≡ j % length v.now.body.now }
        requires past { IsPast (run_of (shown M.meaning v.now)) (times v.now.run.now.rows)
            j self.now }
        ensures { result ≡ memory_at (run_of (shown M.meaning v.now)) (times v.now.run.now.rows) j }
    {
        let b = &v.body[place];
        let row = &v.run.rows.as_slice()[j];
        let earliest = earliest(b.reserved, row.dispatch);
        let reads = self.reads_time(v, j, place, b);
        let order = self
            .latest(b.reserved)
            .lets_go(b.kind, v.machine.limits().no_alias);
        let operands = earliest.max(row.issue.min(reads));
        operands.max(row.issue.min(order))
    }

    /// The latest cycles, as a row finds them.
    fn latest(&self, reserved: bool) -> &Latest
        ensures { (g : Input) (t : Table) (j : ℕ) → IsPast g t j self.now →
            IsLatest g t reserved j result.now }
    {
        if reserved {
            &self.of_reserved
        } else {
            &self.of_others
        }
    }

    /// The first cycle in which all reads of an instruction have their values.
    fn reads_time<M: Machine>(&self, v: &View<M>, j: usize, place: usize, b: &Bound) -> u64
        requires shown { IsShown (shown M.meaning v.now) }
        requires row { j < length v.now.run.now.rows }
        requires place { place ≡ j % length v.now.body.now }
        requires past { IsPast (run_of (shown M.meaning v.now)) (times v.now.run.now.rows)
            j self.now }
        requires entry { IsEntry (M.meaning v.now.machine.now) b.now }
        ensures { result ≡ reads_time (run_of (shown M.meaning v.now)) (times v.now.run.now.rows)
            (seen_from (run_of (shown M.meaning v.now)) (times v.now.run.now.rows) b.now.reserved)
            j (row_of b.now).reads }
    {
        let reads = &b.reads[..b.read_count as usize];
        let mut most = 0;
        for k in 0..reads.len() {
            most = most.max(self.read_time(v, j, place, b.reserved, reads[k]));
        }
        most
    }

    /// The first cycle in which a read has its value; 0 where no row makes it.
    fn read_time<M: Machine>(
        &self,
        v: &View<M>,
        j: usize,
        place: usize,
        reserved: bool,
        read: Source,
    ) -> u64
        requires shown { IsShown (shown M.meaning v.now) }
        requires row { j < length v.now.run.now.rows }
        requires place { place ≡ j % length v.now.body.now }
        requires past { IsPast (run_of (shown M.meaning v.now)) (times v.now.run.now.rows)
            j self.now }
        requires class { has_class (M.meaning v.now.machine.now) read ≡ true }
        ensures { result ≡ read_time (run_of (shown M.meaning v.now)) (times v.now.run.now.rows)
            (seen_from (run_of (shown M.meaning v.now)) (times v.now.run.now.rows) reserved)
            j read }
    {
        let reg = read.reg.number() as usize;
        if reg == 0 {
            return 0;
        }
        match self.writers[reg] {
            None => 0,
            Some(k) => value_time(
                v,
                k,
                place_of(k, j, place, v.body.len()),
                reserved,
                read.read,
            ),
        }
    }
}

/// The place of row k in a body of so many instructions, as that of row j is known. Where row k
/// stands in the same iteration or in the one before, that takes no division.
fn place_of(k: usize, j: usize, place: usize, size: usize) -> usize
    requires some { 0 < size }
    requires place { place ≡ j % size }
    ensures { result ≡ k % size }
{
    if k <= j {
        let back = j - k;
        if back <= place {
            return place - back;
        }
        if back - place <= size {
            return size - (back - place);
        }
    }
    k % size
}

/// The first cycle in which the value of row k, at a place of the body, can be read.
fn value_time<M: Machine>(v: &View<M>, k: usize, place: usize, reserved: bool, read: u16) -> u64
    requires shown { IsShown (shown M.meaning v.now) }
    requires row { k < length v.now.run.now.rows }
    requires place { place ≡ k % length v.now.body.now }
    requires class { (nat_eq read no_class || nat_lt read (M.meaning v.now.machine.now).read_count)
        ≡ true }
    ensures { result ≡ value_time (run_of (shown M.meaning v.now)) (times v.now.run.now.rows)
        (seen_from (run_of (shown M.meaning v.now)) (times v.now.run.now.rows) reserved)
        read (Some k) }
{
    let from = &v.body[place];
    let row = &v.run.rows.as_slice()[k];
    let seen = seen_from(from.reserved, reserved, row.issue);
    let lead = lead_of(v.machine, from.latency, read, from.write);
    seen.max(row.issue + lead as u64)
}

/// The first cycle in which a row finds that another has issued: one that is reserved issues behind
/// those of its cycle that are not.
fn seen_from(of_reserved: bool, by_reserved: bool, issue: u64) -> u64
    requires { issue < 2 ^ 42 }
    ensures is { result ≡ (if of_reserved && not by_reserved then issue + 1 else issue) }
    ensures low { result ≤ 2 ^ 42 }
{
    if of_reserved && !by_reserved {
        issue + 1
    } else {
        issue
    }
}

/// The first cycle in which a row may issue at all: that of its dispatch where it is reserved, else
/// the next.
fn earliest(reserved: bool, dispatch: u64) -> u64
    requires { dispatch < 2 ^ 42 }
    ensures { result ≡ (if reserved then dispatch else dispatch + 1) }
{
    if reserved { dispatch } else { dispatch + 1 }
}
