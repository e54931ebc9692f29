//! Wakeup: which rows in flight are ready to issue, and which wait for a cycle.
ghost use Rattle.std.specs.Prelude.{◌≡◌, ◌<◌, ◌≤◌, ◌+◌, ◌^◌, ◌||◌, ℕ, Bool, length, true, false, nat_eq, Some, IfOk, if◌then◌else◌};
ghost use Rattle.cycle_rules.specs.Bind.{row_of};
ghost use Rattle.cycle_rules.specs.Row.{times};
ghost use Rattle.event_rules.specs.Due.{is_ordered};
ghost use Rattle.event_rules.specs.Skip.{is_read_from};
ghost use Rattle.engine_state.specs.State.{never, IsWritten};
ghost use Rattle.mca_fixed.specs.declared.limits.TheConstants.{MOST_ROWS};
ghost use Rattle.row_sets.specs.Rows.{same_place};
ghost use Rattle.row_sets.specs.Ready.{has_row};
ghost use Rattle.row_sets.specs.Agenda.{NoneWaits, time_of};
ghost use Rattle.engine_steps.specs.Wake.{class_of, class_of_use, AreAwake, AllLater, none_out, except, reads_from};

use crate::rows::Rows;
use cycle_rules::{Bound, Times};
use machine_model::Use;
use mca_fixed::NoMemory;
use row_sets::{Agenda, ReadyRows};
use rv_isa::Kind;
use std::alloc::Global;

/// The class of the rows that have no class of their own.
pub const OTHERS: usize = 63;

/// Which rows in flight are ready to issue, by class, and for which cycle others wait: a row that waits to
/// issue for that in which its last operand is ready, where it is known, and a row that has issued and takes
/// part in the order of memory for its completion. A row that waits for another to issue is in neither.
#[derive(Drop)]
pub struct Wakeup {
    pub ready: ReadyRows,
    pub agenda: Agenda,
}

impl Wakeup {
    /// Before the first cycle: no row is in flight.
    pub fn make(alloc: Global) -> Result<Wakeup, NoMemory>
        ensures { IfOk result (λ w. NoneWaits w.agenda) }
    {
        let ready = ReadyRows::make(alloc)?;
        let agenda = Agenda::make(alloc)?;
        Ok(Wakeup { ready, agenda })
    }
}

// The class of a row with one use.
fn class_of_use(used: &Use) -> usize
    ensures { result ≡ class_of_use used.now }
{
    if used.hold == 0 {
        return OTHERS;
    }
    if used.resource as usize >= OTHERS {
        return OTHERS;
    }
    used.resource as usize
}

/// The class of an instruction: the resource of its one use, where the use holds its unit and the resource's
/// number is below `OTHERS`; `OTHERS` for all others.
pub fn class_of(b: &Bound) -> usize
    requires { b.now.use_count ≤ 8 }
    ensures { result ≡ class_of (row_of b.now).uses }
{
    let uses = &b.uses[..b.use_count as usize];
    if uses.len() != 1 {
        return OTHERS;
    }
    class_of_use(&uses[0])
}

// Whether a row of a kind takes part in the order of memory.
fn is_ordered(kind: Kind) -> bool
    ensures { result ≡ is_ordered kind }
{
    match kind {
        Kind::Plain => false,
        Kind::Load | Kind::Store | Kind::Barrier => true,
    }
}

// Row k is among the ready ones of its class, if it has not issued.
fn rouse<R: Rows>(rows: &R, table: &[Times], ready: &mut ReadyRows, k: usize)
    requires row { k < (R.input rows.now).rows }
    requires size { length table.now ≡ (R.input rows.now).rows }
    ensures kept { (r j : ℕ) → r < 64 → has_row ready.old r j ≡ true →
        has_row ready.new r j ≡ true }
    ensures found { (times table.now k).issue ≡ never → has_row ready.new (class_of
        ((R.input rows.now).row k).uses) k ≡ true }
{
    if table[k].issue != u64::MAX {
        return;
    }
    let b = rows.instruction(k);
    ready.insert(class_of(b), k);
}

/// Rows whose cycle has come by cycle `c` wait no more: those that have not issued are ready.
pub fn wake_rows<R: Rows>(rows: &R, table: &[Times], w: &mut Wakeup, front: usize, c: u64)
    requires size { length table.now ≡ (R.input rows.now).rows }
    requires few { (R.input rows.now).rows ≤ MOST_ROWS }
    requires awake { (head n : ℕ) × (n ≤ c) × (head ≤ (R.input rows.now).rows) × (front ≤ head) ×
        (AreAwake (R.input rows.now) table.now w.old front head n none_out) }
    ensures awake { (head n : ℕ) → n ≤ c → head ≤ (R.input rows.now).rows →
        AreAwake (R.input rows.now) table.now w.old front head n none_out →
        AreAwake (R.input rows.now) table.now w.new front head c none_out }
    ensures later { AllLater w.new.agenda c }
{
    while let Some(k) = w.agenda.take(front, c) {
        rouse(rows, table, &mut w.ready, k);
    }
}

// A row waits for a cycle, where that has not come.
fn wait_for(agenda: &mut Agenda, k: usize, time: u64, c: u64)
    requires { (t : ℕ) → time_of agenda.old k ≡ Some t → t ≡ time }
    ensures later { c < time → (j : ℕ) → time_of agenda.new j ≡ (if same_place j k then Some time
        else time_of agenda.old j) }
    ensures come { time ≤ c → agenda.new ≡ agenda.old }
{
    if time > c {
        agenda.put(k, time);
    }
}

/// Row `k`, in flight, finds its place in cycle `c`. Where it waits and the cycle is known in which its
/// last operand is ready, it is ready or waits for that cycle; where it has issued and takes part in the
/// order of memory, it waits for its completion.
pub fn settle<R: Rows>(rows: &R, table: &[Times], w: &mut Wakeup, k: usize, c: u64)
    requires low { c < 2 ^ 42 }
    requires row { k < (R.input rows.now).rows }
    requires size { length table.now ≡ (R.input rows.now).rows }
    requires kept { (j : ℕ) → j < (R.input rows.now).rows →
        IsWritten ((R.input rows.now).row j) (times table.now j) }
    requires past { (j : ℕ) → j < (R.input rows.now).rows →
        ((times table.now j).issue ≡ never → ⊥) → (times table.now j).issue ≤ c }
    requires awake { (front head : ℕ) × (out : ℕ → Bool) × (front ≤ k) × (k < head) ×
        (AreAwake (R.input rows.now) table.now w.old front head c out) }
    ensures awake { (front head : ℕ) (out : ℕ → Bool) → front ≤ k → k < head →
        AreAwake (R.input rows.now) table.now w.old front head c out →
        AreAwake (R.input rows.now) table.now w.new front head c (except k out) }
    ensures later { AllLater w.old.agenda c → AllLater w.new.agenda c }
{
    let b = rows.instruction(k);
    let issue = table[k].issue;
    if issue != u64::MAX {
        if is_ordered(b.kind) {
            wait_for(&mut w.agenda, k, table[k].complete, c);
        }
        return;
    }
    if b.reserved {
        return;
    }
    if let Some(r) = rows.ready_from(table, k) {
        if r <= c {
            w.ready.insert(class_of(b), k);
        } else {
            w.agenda.put(k, r);
        }
    }
}

// Row j has issued: it is ready no more, and waits for its completion where it takes part in the order of
// memory.
fn leave<R: Rows>(rows: &R, table: &[Times], w: &mut Wakeup, j: usize, c: u64)
    requires row { j < (R.input rows.now).rows }
    requires size { length table.now ≡ (R.input rows.now).rows }
    requires issued { (times table.now j).issue ≡ never → ⊥ }
    requires awake { (front head : ℕ) × (out : ℕ → Bool) × (front ≤ j) × (j < head) ×
        (AreAwake (R.input rows.now) table.now w.old front head c out) }
    ensures awake { (front head : ℕ) (out : ℕ → Bool) → front ≤ j → j < head →
        AreAwake (R.input rows.now) table.now w.old front head c out →
        AreAwake (R.input rows.now) table.now w.new front head c (except j out) }
    ensures later { AllLater w.old.agenda c → AllLater w.new.agenda c }
{
    let b = rows.instruction(j);
    w.ready.remove(class_of(b), j);
    if !is_ordered(b.kind) {
        return;
    }
    wait_for(&mut w.agenda, j, table[j].complete, c);
}

/// Row `j` has issued in cycle `c`: it is ready no more, and those rows in flight that read what it writes
/// find their places.
pub fn wake_readers<R: Rows>(
    rows: &R,
    table: &[Times],
    w: &mut Wakeup,
    j: usize,
    head: usize,
    c: u64,
)
    requires low { c < 2 ^ 42 }
    requires row { j < head }
    requires head { head ≤ (R.input rows.now).rows }
    requires few { (R.input rows.now).rows ≤ MOST_ROWS }
    requires size { length table.now ≡ (R.input rows.now).rows }
    requires kept { (k : ℕ) → k < (R.input rows.now).rows →
        IsWritten ((R.input rows.now).row k) (times table.now k) }
    requires past { (k : ℕ) → k < (R.input rows.now).rows →
        ((times table.now k).issue ≡ never → ⊥) → (times table.now k).issue ≤ c }
    requires issued { (times table.now j).issue ≡ never → ⊥ }
    requires awake { (front : ℕ) × (front ≤ j) ×
        (AreAwake (R.input rows.now) table.now w.old front head c (reads_from
        (R.input rows.now) j)) }
    ensures awake { (front : ℕ) → front ≤ j →
        AreAwake (R.input rows.now) table.now w.old front head c (reads_from
        (R.input rows.now) j) →
        AreAwake (R.input rows.now) table.now w.new front head c none_out }
    ensures later { AllLater w.old.agenda c → AllLater w.new.agenda c }
{
    leave(rows, table, w, j, c);
    for later in rows.readers(j) {
        let k = j + *later as usize;
        if k < head {
            settle(rows, table, w, k, c);
        }
    }
}
