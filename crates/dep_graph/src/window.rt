//! What the rows in flight take of something that is limited, and from which cycle on it leaves
//! room.
ghost use Rattle.std.specs.Prelude.{◌≡◌, ◌<◌, ◌≤◌, ◌+◌, ◌^◌, ℕ, List, length, nat_le, nat_lt, if◌then◌else◌};
ghost use Rattle.cycle_rules.specs.Bind.{row_of};
ghost use Rattle.cycle_rules.specs.Dispatch.{cost_of, cost_in};
ghost use Rattle.cycle_rules.specs.Row.{Input, times, uops_of, is_load, is_store};
ghost use Rattle.dep_graph.specs.declared.window.Limited.{Limited as LimitedOf};
ghost use Rattle.dep_graph.specs.Thresholds.{weight_from, last_retire, IsPointer, IsKept};
ghost use Rattle.dep_graph.specs.Walk.{IsSoundRun, IsWindow, weight_of, is_enough};

use crate::rows::Rows;
use cycle_rules::Bound;
use machine_model::FileShare;
use rv_isa::{Kind, Reg};

/// What is limited of the rows in flight.
#[derive(Clone, Copy, Debug, PartialEq, Eq)]
pub enum Limited {
    /// The entries of the reorder buffer, in micro-ops.
    Entries,
    /// The registers that are written.
    Registers,
    /// The entries of the load queue.
    Loads,
    /// The entries of the store queue.
    Stores,
    /// The physical registers of a register file.
    FileRegisters(u8),
}

/// What the rows from a front on take of something that is limited; those before it have retired by
/// the time the next row finds room.
#[derive(Clone, Copy, Debug)]
pub struct Window {
    pub front: usize,
    pub held: u64,
}

// What a write of a register takes of the registers.
fn registers(rd: Reg) -> u32
    ensures { result ≡ (if nat_lt 0 rd then 1 else 0) }
{
    if rd.number() > 0 { 1 } else { 0 }
}

// What a row of a kind takes of the load queue.
#[tactic(auto, unfolding(cycle_rules::specs::Row::is_load))]
fn loads(kind: Kind) -> u32
    ensures { result ≡ (if is_load kind then 1 else 0) }
{
    match kind {
        Kind::Load => 1,
        Kind::Plain | Kind::Store | Kind::Barrier => 0,
    }
}

// What a row of a kind takes of the store queue.
#[tactic(auto, unfolding(cycle_rules::specs::Row::is_store))]
fn stores(kind: Kind) -> u32
    ensures { result ≡ (if is_store kind then 1 else 0) }
{
    match kind {
        Kind::Store => 1,
        Kind::Plain | Kind::Load | Kind::Barrier => 0,
    }
}

// What a share costs in a register file.
fn cost_of(file: u8, share: Option<FileShare>) -> u32
    ensures { result ≡ cost_of file share }
{
    let Some(share) = share else {
        return 0;
    };
    if share.file == file { share.cost } else { 0 }
}

// What a write of a register costs in a register file.
#[tactic(auto, unfolding(cycle_rules::specs::Dispatch::cost_in))]
fn cost_in<R: Rows>(rows: &R, file: u8, rd: Reg) -> u32
    ensures { result ≡ cost_in (R.input rows.now).machine file rd }
{
    if rd.number() == 0 {
        return 0;
    }
    cost_of(file, rows.file_of(rd))
}

/// The micro-ops of the row of a bound instruction that count: no more than the reorder buffer
/// holds.
#[tactic(auto, unfolding(cycle_rules::specs::Row::uops_of))]
pub fn uops(reorder: u32, b: &Bound) -> u32
    ensures { (g : Input) (j : ℕ) → row_of b.now ≡ g.row j →
        g.machine.limits.reorder ≡ reorder → result ≡ uops_of g j }
{
    let uops = b.uops as u32;
    uops.min(reorder)
}

/// What the row of a bound instruction takes of something that is limited.
pub fn weight<R: Rows>(rows: &R, what: Limited, b: &Bound) -> u32
    ensures { (j : ℕ) → row_of b.now ≡ (R.input rows.now).row j →
        result ≡ weight_of (R.input rows.now) what j }
{
    match what {
        Limited::Entries => uops(rows.limits().reorder, b),
        Limited::Registers => registers(b.rd),
        Limited::Loads => loads(b.kind),
        Limited::Stores => stores(b.kind),
        Limited::FileRegisters(file) => cost_in(rows, file, b.rd),
    }
}

impl Window {
    /// Before the first row.
    pub fn empty() -> Window
        ensures { (g : Input) (what : LimitedOf) (bound : ℕ) → IsWindow g what bound 0 result }
    {
        Window { front: 0, held: 0 }
    }

    /// Takes for row j, which is a bound instruction, what it takes of something, of which 0 for
    /// `bound` is no bound, and gives the cycle from which on it found that; 0 where it takes
    /// nothing, or there is no bound.
    pub fn take<R: Rows>(&mut self, rows: &R, what: Limited, bound: u32, b: &Bound, j: usize) -> u64
        requires run { IsSoundRun (R.input rows.now) (R.table rows.now) }
        requires row { j < (R.input rows.now).rows }
        requires instruction { row_of b.now ≡ (R.input rows.now).row j }
        requires window { IsWindow (R.input rows.now) what bound j self.old }
        requires fits { (bound ≡ 0 → ⊥) → weight_of (R.input rows.now) what j ≤ bound }
        ensures window { IsWindow (R.input rows.now) what bound (j + 1) self.new }
        ensures from { (c : ℕ) → is_enough (weight_of (R.input rows.now) what) bound
            (times (R.table rows.now)) j c ≡ nat_le result c }
    {
        let more = weight(rows, what, b);
        self.take_weight(rows, what, bound, more, j)
    }

    /// The same where it is known how much the row takes.
    pub fn take_weight<R: Rows>(
        &mut self,
        rows: &R,
        what: Limited,
        bound: u32,
        more: u32,
        j: usize,
    ) -> u64
        requires run { IsSoundRun (R.input rows.now) (R.table rows.now) }
        requires row { j < (R.input rows.now).rows }
        requires more { more ≡ weight_of (R.input rows.now) what j }
        requires window { IsWindow (R.input rows.now) what bound j self.old }
        requires fits { (bound ≡ 0 → ⊥) → more ≤ bound }
        ensures window { IsWindow (R.input rows.now) what bound (j + 1) self.new }
        ensures from { (c : ℕ) → is_enough (weight_of (R.input rows.now) what) bound
            (times (R.table rows.now)) j c ≡ nat_le result c }
    {
        if bound == 0 {
            return 0;
        }
        if more == 0 {
            return 0;
        }
        self.advance(rows, what, bound as u64, more as u64, j);
        self.held += more as u64;
        retired(rows, self.front)
    }

    // Row j finds room for so much as soon as the rows before the front have retired.
    fn advance<R: Rows>(&mut self, rows: &R, what: Limited, bound: u64, more: u64, j: usize)
        requires row { j < (R.input rows.now).rows }
        requires kept { IsKept (weight_of (R.input rows.now) what) bound j
            self.old.front self.old.held }
        requires few { bound < 2 ^ 32 }
        requires low { self.old.held ≤ bound }
        requires more { more ≤ bound }
        ensures pointer { IsPointer (weight_of (R.input rows.now) what) bound more j
            self.new.front }
        ensures held { self.new.held ≡ weight_from (weight_of (R.input rows.now) what)
            self.new.front j }
    {
        while self.held + more > bound {
            self.held -= weight(rows, what, rows.instruction(self.front)) as u64;
            self.front += 1;
        }
    }
}

// The retirement of the last of the first rows, 0 for none.
fn retired<R: Rows>(rows: &R, front: usize) -> u64
    requires { front ≤ length (R.table rows.now) }
    ensures { result ≡ last_retire (times (R.table rows.now)) front }
{
    if front == 0 {
        return 0;
    }
    rows.times(front - 1).retire
}
