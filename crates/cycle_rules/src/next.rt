//! How long nothing changes for a row: the next cycle in which one of the times of the table falls due.
ghost use Rattle.std.specs.Prelude.{true, false, ◌≡◌, ◌+◌, ◌-◌, ◌^◌, ◌<◌, ◌≤◌, ◌||◌, ℕ, List, length, nat_lt, nat_le, nat_eq, slice_index_or};
ghost use Rattle.std.specs.List.{list_all};
ghost use Rattle.machine_model.specs.Meaning.{MachineMeaning};
ghost use Rattle.machine_model.specs.Valid.{no_class};
ghost use Rattle.cycle_rules.specs.Bind.{AreBound, IsBound, has_class};
ghost use Rattle.cycle_rules.specs.Below.{sum_below};
ghost use Rattle.cycle_rules.specs.Dispatch.{share};
ghost use Rattle.cycle_rules.specs.Given.{row_in, size_in, input_in, may_take};
ghost use Rattle.cycle_rules.specs.Held.{NoChange};
ghost use Rattle.cycle_rules.specs.Issue.{producer};
ghost use Rattle.cycle_rules.specs.Pick.{taken_by};
ghost use Rattle.cycle_rules.specs.Row.{times, lead, advance_of};
ghost use Rattle.cycle_rules.specs.Still.{IsStill, IsRowStill, IsReadStill, no_source};
ghost use Rattle.cycle_rules.specs.declared.bound.Source.{Source as SourceOf};

use crate::bound::Source;
use crate::given::{Given, Step, used_by};
use crate::operands::lead;
use crate::room::shares;
use crate::starts::producer;
use machine_model::{Machine, Use};

// The lesser of a cycle and a time, where that lies behind cycle `c`.
fn nearer(time: u64, c: u64, next: u64) -> u64
    ensures low { result ≤ next }
    ensures later { c < next → c < result }
    ensures still { (b : ℕ) → c ≤ b → b < result → IsStill time c b }
{
    if time > c && time < next { time } else { next }
}

// The same of the time so many cycles after another.
fn nearer_after(time: u64, cycles: u32, c: u64, next: u64) -> u64
    ensures low { result ≤ next }
    ensures later { c < next → c < result }
    ensures still { (b : ℕ) → c ≤ b → b < result → IsStill (time + cycles) c b }
{
    if time > u64::MAX - cycles as u64 {
        return next;
    }
    nearer(time + cycles as u64, c, next)
}

// The same of the cycles in which uses give their units back.
fn nearer_of_uses(uses: &[Use], from: u64, c: u64, next: u64) -> u64
    ensures low { result ≤ next }
    ensures later { c < next → c < result }
    ensures still { (m : MachineMeaning) (units : List ℕ) (b : ℕ) → c ≤ b → b < result →
        NoChange m c b (taken_by from uses.now units) }
{
    let mut nearest = next;
    for used in uses {
        nearest = nearer_after(from, used.hold, c, nearest);
    }
    nearest
}

// The same of all times of a row.
fn nearer_of_row(given: &Given, k: usize, c: u64, next: u64) -> u64
    requires { k < length given.now.rows.now }
    ensures low { result ≤ next }
    ensures later { c < next → c < result }
    ensures still { (m : MachineMeaning) (b : ℕ) → c ≤ b → b < result → IsRowStill (input_in m
        given.now.body.now given.now.count) (times given.now.rows.now) c b k }
{
    let time = given.time(k);
    let dispatch = nearer(time.dispatch, c, next);
    let dispatched = nearer_after(time.dispatch, 1, c, dispatch);
    let issue = nearer(time.issue, c, dispatched);
    let issued = nearer_after(time.issue, 1, c, issue);
    let complete = nearer(time.complete, c, issued);
    let retire = nearer(time.retire, c, complete);
    nearer_of_uses(used_by(given.row(k)), time.issue, c, retire)
}

// The same of all rows.
fn nearer_of_rows(given: &Given, c: u64, next: u64) -> u64
    ensures low { result ≤ next }
    ensures later { c < next → c < result }
    ensures still { (m : MachineMeaning) (b k : ℕ) → c ≤ b → b < result → k < given.now.count →
        k < length given.now.rows.now → IsRowStill (input_in m
        given.now.body.now given.now.count) (times given.now.rows.now) c b k }
{
    let mut nearest = next;
    for k in 0..given.known() {
        nearest = nearer_of_row(given, k, c, nearest);
    }
    nearest
}

// The same of the time from which a value can be read.
fn nearer_of_read<M: Machine>(
    machine: &M,
    given: &Given,
    j: usize,
    source: &Source,
    c: u64,
    next: u64,
) -> u64
    requires bound { AreBound (M.meaning machine.now) given.now.body.now }
    requires class { has_class (M.meaning machine.now) source.now ≡ true }
    requires given { j < length given.now.rows.now }
    ensures low { result ≤ next }
    ensures later { c < next → c < result }
    ensures still { (b : ℕ) → c ≤ b → b < result → IsReadStill (input_in (M.meaning machine.now)
        given.now.body.now given.now.count) (times given.now.rows.now) c b source.now
        (producer (input_in (M.meaning machine.now) given.now.body.now given.now.count) j
        source.now.reg) }
{
    match producer(given, j, source.reg) {
        Some(k) => {
            let cycles = lead(machine, source.read, given.row(k));
            nearer_after(given.time(k).issue, cycles, c, next)
        }
        None => next,
    }
}

// The same of all that a row reads.
fn nearer_of_reads<M: Machine>(
    machine: &M,
    given: &Given,
    j: usize,
    reads: &[Source],
    c: u64,
    next: u64,
) -> u64
    requires bound { AreBound (M.meaning machine.now) given.now.body.now }
    requires classes { list_all (has_class (M.meaning machine.now)) reads.now ≡ true }
    requires given { j < length given.now.rows.now }
    ensures low { result ≤ next }
    ensures later { c < next → c < result }
    ensures still { (b i : ℕ) → c ≤ b → b < result → i < length reads.now → IsReadStill (input_in
        (M.meaning machine.now) given.now.body.now given.now.count) (times given.now.rows.now) c b
        (slice_index_or reads.now i no_source) (producer (input_in (M.meaning machine.now)
        given.now.body.now given.now.count) j (slice_index_or reads.now i no_source).reg) }
{
    let mut nearest = next;
    for source in reads {
        nearest = nearer_of_read(machine, given, j, source, c, nearest);
    }
    nearest
}

// A cycle behind cycle `c` before which no time falls due that matters for a row.
fn next_due<M: Machine>(machine: &M, given: &Given, j: usize, c: u64) -> u64
    requires bound { AreBound (M.meaning machine.now) given.now.body.now }
    requires given { j < length given.now.rows.now }
    requires low { c < 2 ^ 64 - 1 }
    ensures later { c < result }
    ensures rows { (b k : ℕ) → c ≤ b → b < result → k < given.now.count →
        k < length given.now.rows.now → IsRowStill (input_in (M.meaning machine.now)
        given.now.body.now given.now.count) (times given.now.rows.now) c b k }
    ensures reads { (b i : ℕ) → c ≤ b → b < result →
        i < length (row_in given.now.body.now j).reads → IsReadStill (input_in
        (M.meaning machine.now) given.now.body.now given.now.count) (times given.now.rows.now) c b
        (slice_index_or (row_in given.now.body.now j).reads i no_source)
        (producer (input_in (M.meaning machine.now)
        given.now.body.now given.now.count) j
        (slice_index_or (row_in given.now.body.now j).reads i no_source).reg) }
{
    let nearest = nearer_of_rows(given, c, u64::MAX);
    let row = given.row(j);
    nearer_of_reads(
        machine,
        given,
        j,
        &row.reads[..row.read_count as usize],
        c,
        nearest,
    )
}

/// So many cycles are walked through one by one: to look for the next time that falls due costs more.
const FEW_CYCLES: u64 = 32;

/// A cycle behind cycle `c` such that a row may take a step in all cycles from `c` up to it, or in none.
/// `taken` is where the search ends.
pub(crate) fn next_cycle<M: Machine>(
    machine: &M,
    given: &Given,
    j: usize,
    step: Step,
    c: u64,
    taken: u64,
) -> u64
    requires bound { AreBound (M.meaning machine.now) given.now.body.now }
    requires run { j < given.now.count }
    requires given { j < length given.now.rows.now }
    requires taken { c < taken }
    ensures later { c < result }
    ensures same { (b : ℕ) → c ≤ b → b < result → may_take (input_in (M.meaning machine.now)
        given.now.body.now given.now.count) (times given.now.rows.now) j step b
        ≡ may_take (input_in (M.meaning machine.now)
        given.now.body.now given.now.count) (times given.now.rows.now) j step c }
{
    if c == 0 {
        return 1;
    }
    if taken - c < FEW_CYCLES {
        return c + 1;
    }
    let limits = machine.limits();
    if shares(given, limits.width, limits.reorder, j, c) != 0 {
        return c + 1;
    }
    match step {
        Step::ToDispatch => next_due(machine, given, j, c),
        Step::ToIssue => next_due(machine, given, j, c),
        Step::ToRetire => c + 1,
    }
}
