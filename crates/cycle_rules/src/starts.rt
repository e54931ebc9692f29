//! Whether a row finds its operands and may access memory, by the rows that issued before it looks.
ghost use Rattle.std.specs.Prelude.{true, false, ◌≡◌, ◌+◌, ◌<◌, ◌≤◌, ◌&&◌, ◌||◌, ℕ, Option, Some, IfSome, length, nat_lt, nat_le, nat_eq};
ghost use Rattle.std.specs.List.{list_all};
ghost use Rattle.rv_isa.specs.declared.facts.Kind.TheVariants.{Load, Store, Barrier};
ghost use Rattle.machine_model.specs.Valid.{no_class};
ghost use Rattle.cycle_rules.specs.Below.{last_below, all_below};
ghost use Rattle.cycle_rules.specs.Bind.{AreBound, IsBound, has_class};
ghost use Rattle.cycle_rules.specs.Given.{row_in, input_in};
ghost use Rattle.cycle_rules.specs.Issue.{is_ready, has_operand, has_operands, memory_order, older_row, may_access, is_fenced};
ghost use Rattle.cycle_rules.specs.Row.{times, is_store, is_barrier};
ghost use Rattle.cycle_rules.specs.Seen.{sees, has_issued};

use crate::bound::Source;
use crate::given::{Given, Moment};
use crate::operands::lead;
use machine_model::{Kind, Machine};
use rv_isa::Reg;

// Whether a cycle is at least so many cycles after an issue.
fn has_passed(issue: u64, cycles: u32, c: u64) -> bool
    ensures { result ≡ nat_le (issue + cycles) c }
{
    if c < issue {
        return false;
    }
    cycles as u64 <= c - issue
}

// Whether the value of a row can be read by a read of a class.
fn has_value<M: Machine>(machine: &M, given: &Given, at: Moment, read: u16, k: usize) -> bool
    requires bound { AreBound (M.meaning machine.now) given.now.body.now }
    requires class { (nat_eq read no_class || nat_lt read (M.meaning machine.now).read_count)
        ≡ true }
    requires run { k < given.now.count }
    requires given { k < length given.now.rows.now }
    ensures { result ≡ is_ready (input_in (M.meaning machine.now)
        given.now.body.now given.now.count) (sees (input_in (M.meaning machine.now)
        given.now.body.now given.now.count) (times given.now.rows.now) at.phase at.row at.cycle)
        at.cycle read (Some k) }
{
    if !given.has_issued(at, k) {
        return false;
    }
    has_passed(
        given.time(k).issue,
        lead(machine, read, given.row(k)),
        at.cycle,
    )
}

// The youngest row older than row j that writes a register: one of the last iteration, or none.
pub(crate) fn producer(given: &Given, j: usize, reg: Reg) -> Option<usize>
    ensures is { result ≡ last_below j (λ k. nat_eq (row_in given.now.body.now k).rd reg) }
    ensures low { IfSome result (λ k. k < j) }
{
    let mut k = j;
    while k > 0 {
        if j - k >= given.body.len() {
            return None;
        }
        k -= 1;
        if given.row(k).rd.number() == reg.number() {
            return Some(k);
        }
    }
    None
}

// Whether what a row reads can be read.
fn has_operand<M: Machine>(machine: &M, given: &Given, at: Moment, source: &Source) -> bool
    requires bound { AreBound (M.meaning machine.now) given.now.body.now }
    requires class { has_class (M.meaning machine.now) source.now ≡ true }
    requires run { at.row < given.now.count }
    requires given { at.row < length given.now.rows.now }
    ensures { result ≡ has_operand (input_in (M.meaning machine.now)
        given.now.body.now given.now.count) (sees (input_in (M.meaning machine.now)
        given.now.body.now given.now.count) (times given.now.rows.now) at.phase at.row at.cycle)
        at.row at.cycle source.now }
{
    if source.reg.number() == 0 {
        return true;
    }
    match producer(given, at.row, source.reg) {
        Some(k) => has_value(machine, given, at, source.read, k),
        None => true,
    }
}

// Whether all of this can be read.
#[tactic(auto, using(crate::proofs::Below::known_at))]
fn have_operands<M: Machine>(machine: &M, given: &Given, at: Moment, reads: &[Source]) -> bool
    requires bound { AreBound (M.meaning machine.now) given.now.body.now }
    requires classes { list_all (has_class (M.meaning machine.now)) reads.now ≡ true }
    requires run { at.row < given.now.count }
    requires given { at.row < length given.now.rows.now }
    ensures { result ≡ list_all (has_operand (input_in (M.meaning machine.now)
        given.now.body.now given.now.count) (sees (input_in (M.meaning machine.now)
        given.now.body.now given.now.count) (times given.now.rows.now) at.phase at.row at.cycle)
        at.row at.cycle) reads.now }
{
    for source in reads {
        if !has_operand(machine, given, at, source) {
            return false;
        }
    }
    true
}

/// Whether a row has its operands where it looks.
#[tactic(auto, unfolding(crate::specs::Issue::has_operands))]
pub(crate) fn has_operands<M: Machine>(machine: &M, given: &Given, at: Moment) -> bool
    requires bound { AreBound (M.meaning machine.now) given.now.body.now }
    requires run { at.row < given.now.count }
    requires given { at.row < length given.now.rows.now }
    ensures { result ≡ has_operands (input_in (M.meaning machine.now)
        given.now.body.now given.now.count) (sees (input_in (M.meaning machine.now)
        given.now.body.now given.now.count) (times given.now.rows.now) at.phase at.row at.cycle)
        at.row at.cycle }
{
    let row = given.row(at.row);
    have_operands(machine, given, at, &row.reads[..row.read_count as usize])
}

// What the order of memory asks of an older row.
#[derive(Clone, Copy)]
struct Older {
    // Loads may pass stores.
    may_pass: bool,
    // A store or a barrier stands between the two rows.
    fenced: bool,
    issued: bool,
    completed: bool,
}

// Whether a load may issue beside an older row.
#[tactic(auto, unfolding(crate::specs::Issue::memory_order))]
fn load_may(kind: Kind, older: Older) -> bool
    ensures { result ≡ memory_order Load kind (record {
      may_pass = older.may_pass;
      fenced = older.fenced;
      issued = older.issued;
      completed = older.completed;
    }) }
{
    match kind {
        Kind::Plain => true,
        Kind::Load => !older.fenced || older.issued,
        Kind::Store => older.may_pass || older.completed,
        Kind::Barrier => older.completed,
    }
}

// Whether a store may issue beside an older row.
#[tactic(auto, unfolding(crate::specs::Issue::memory_order))]
fn store_may(kind: Kind, older: Older) -> bool
    ensures { result ≡ memory_order Store kind (record {
      may_pass = older.may_pass;
      fenced = older.fenced;
      issued = older.issued;
      completed = older.completed;
    }) }
{
    match kind {
        Kind::Plain => true,
        Kind::Load => older.issued,
        Kind::Store => older.issued,
        Kind::Barrier => older.completed,
    }
}

// Whether a barrier may issue beside an older row.
#[tactic(auto, unfolding(crate::specs::Issue::memory_order))]
fn barrier_may(kind: Kind, older: Older) -> bool
    ensures { result ≡ memory_order Barrier kind (record {
      may_pass = older.may_pass;
      fenced = older.fenced;
      issued = older.issued;
      completed = older.completed;
    }) }
{
    match kind {
        Kind::Plain => true,
        Kind::Load => older.completed,
        Kind::Store => older.completed,
        Kind::Barrier => older.completed,
    }
}

// Whether a row of one kind may issue beside an older one of another.
#[tactic(auto, unfolding(crate::specs::Issue::memory_order))]
fn may_beside(kind: Kind, older_kind: Kind, older: Older) -> bool
    ensures { result ≡ memory_order kind older_kind (record {
      may_pass = older.may_pass;
      fenced = older.fenced;
      issued = older.issued;
      completed = older.completed;
    }) }
{
    match kind {
        Kind::Plain => true,
        Kind::Load => load_may(older_kind, older),
        Kind::Store => store_may(older_kind, older),
        Kind::Barrier => barrier_may(older_kind, older),
    }
}

// Whether a row is a store or a barrier.
#[tactic(auto, unfolding(crate::specs::Row::is_store, crate::specs::Row::is_barrier))]
fn is_fence(kind: Kind) -> bool
    ensures { result ≡ (is_store kind || is_barrier kind) }
{
    match kind {
        Kind::Store | Kind::Barrier => true,
        Kind::Plain | Kind::Load => false,
    }
}

// Whether a fence is found, in a row or before.
fn finds_fence(kind: Kind, fenced: bool) -> bool
    ensures { result ≡ ((is_store kind || is_barrier kind) || fenced) }
{
    is_fence(kind) || fenced
}

// Whether what has been issued has completed.
fn is_done(issued: bool, complete: u64, c: u64) -> bool
    ensures { result ≡ (issued && nat_le complete c) }
{
    issued && complete <= c
}

// Whether a row may issue beside an older one, as it is found.
fn may_pass<M: Machine>(machine: &M, given: &Given, at: Moment, fenced: bool, k: usize) -> bool
    requires run { at.row < given.now.count }
    requires given { at.row < length given.now.rows.now }
    requires older { k < at.row }
    requires fenced { fenced ≡ is_fenced (input_in (M.meaning machine.now)
        given.now.body.now given.now.count) k at.row }
    ensures { result ≡ memory_order (row_in given.now.body.now at.row).kind
        (row_in given.now.body.now k).kind (older_row (input_in (M.meaning machine.now)
        given.now.body.now given.now.count) (sees (input_in (M.meaning machine.now)
        given.now.body.now given.now.count) (times given.now.rows.now) at.phase at.row at.cycle)
        at.row at.cycle k) }
{
    let issued = given.has_issued(at, k);
    let older = Older {
        may_pass: machine.limits().no_alias,
        fenced,
        issued,
        completed: is_done(issued, given.time(k).complete, at.cycle),
    };
    may_beside(given.row(at.row).kind, given.row(k).kind, older)
}

// Whether all older rows let a row issue where it looks.
fn keeps_order<M: Machine>(machine: &M, given: &Given, at: Moment) -> bool
    requires run { at.row < given.now.count }
    requires given { at.row < length given.now.rows.now }
    ensures { result ≡ may_access (input_in (M.meaning machine.now)
        given.now.body.now given.now.count) (sees (input_in (M.meaning machine.now)
        given.now.body.now given.now.count) (times given.now.rows.now) at.phase at.row at.cycle)
        at.row at.cycle }
{
    let mut fenced = false;
    let mut k = at.row;
    while k > 0 {
        k -= 1;
        if !may_pass(machine, given, at, fenced, k) {
            return false;
        }
        fenced = finds_fence(given.row(k).kind, fenced);
    }
    true
}

/// Whether the order of memory lets a row issue where it looks.
pub(crate) fn may_access<M: Machine>(machine: &M, given: &Given, at: Moment) -> bool
    requires run { at.row < given.now.count }
    requires given { at.row < length given.now.rows.now }
    ensures { result ≡ may_access (input_in (M.meaning machine.now)
        given.now.body.now given.now.count) (sees (input_in (M.meaning machine.now)
        given.now.body.now given.now.count) (times given.now.rows.now) at.phase at.row at.cycle)
        at.row at.cycle }
{
    match given.row(at.row).kind {
        Kind::Plain => true,
        Kind::Load => keeps_order(machine, given, at),
        Kind::Store => keeps_order(machine, given, at),
        Kind::Barrier => keeps_order(machine, given, at),
    }
}
