//! Whether a table of times is the run, and where it is not: each field of each row is held against the
//! rules, evaluated on the rows that are given.
//!
//! It shares nothing with an engine and keeps nothing: every test counts over the rows of the table. A
//! step that is given in cycle `c` is right where the rules allow it in `c`, and in none of the cycles
//! before. Those are tried from the first that can be up to `c`, without the cycles in which nothing
//! changes for the row, and the first that passes ends the search: so it ends soon, whatever the times
//! of the table are.
ghost use Rattle.std.specs.Prelude.{true, false, ◌≡◌, ◌+◌, ◌*◌, ◌<◌, ◌≤◌, ◌&&◌, ◌↔◌, ℕ, Option, Some, None, IfSome, IfNone, length, map, not, nat_lt, nat_le, nat_eq, is_some, if◌then◌else◌};
ghost use Rattle.std.specs.Bool.{Decides};
ghost use Rattle.machine_model.specs.Meaning.{MachineMeaning};
ghost use Rattle.cycle_rules.specs.Below.{count_below, Least};
ghost use Rattle.cycle_rules.specs.Bind.{AreBound, IsBoundBody, row_of};
ghost use Rattle.cycle_rules.specs.Dispatch.{can_dispatch, follows};
ghost use Rattle.cycle_rules.specs.Given.{row_in, input_in, may_take, has_all_room};
ghost use Rattle.cycle_rules.specs.Issue.{can_issue, can_start};
ghost use Rattle.cycle_rules.specs.Judged.{IsRight, IsAsRuled, IsFirstWrong, order};
ghost use Rattle.cycle_rules.specs.Retire.{can_retire};
ghost use Rattle.cycle_rules.specs.Row.{times, input};
ghost use Rattle.cycle_rules.specs.Run.{IsRun, IsRunOf};
ghost use Rattle.cycle_rules.specs.Seen.{sees};
ghost use Rattle.cycle_rules.specs.declared.place.Field.{Field as FieldOf};
ghost use Rattle.cycle_rules.specs.declared.place.Field.TheVariants.{Dispatch, Issue, Complete, Retire, Units};

use crate::bound::Bound;
use crate::finds::pick;
use crate::given::{Given, Moment, Step, phase_of};
use crate::next::next_cycle;
use crate::place::{Field, Place};
use crate::room::{
    fits_buffers, fits_group, fits_loads, fits_registers, fits_reorder, fits_stores, has_room,
};
use crate::starts::{has_operands, may_access};
use crate::times::{NO_UNIT, Timeline};
use machine_model::Machine;
use mca_fixed::MOST_ROWS;

// Whether a row may issue where it looks, as far as operands, memory and units are concerned.
fn can_start<M: Machine>(machine: &M, given: &Given, at: Moment) -> bool
    requires bound { AreBound (M.meaning machine.now) given.now.body.now }
    requires run { at.row < given.now.count }
    requires given { at.row < length given.now.rows.now }
    ensures { result ≡ can_start (input_in (M.meaning machine.now)
        given.now.body.now given.now.count) (sees (input_in (M.meaning machine.now)
        given.now.body.now given.now.count) (times given.now.rows.now) at.phase at.row at.cycle)
        at.row at.cycle }
{
    if !has_operands(machine, given, at) {
        return false;
    }
    if !may_access(machine, given, at) {
        return false;
    }
    pick(machine, given, at).is_some()
}

// Whether a cycle is no earlier than the dispatch of the row before, where there is one.
fn follows_dispatch(given: &Given, j: usize, c: u64) -> bool
    requires { j < length given.now.rows.now }
    ensures { result ≡ follows (λ k. (times given.now.rows.now k).dispatch) j c }
{
    if j == 0 {
        return true;
    }
    given.time(j - 1).dispatch <= c
}

// Whether a cycle is no earlier than the retirement of the row before, where there is one.
fn follows_retire(given: &Given, j: usize, c: u64) -> bool
    requires { j < length given.now.rows.now }
    ensures { result ≡ follows (λ k. (times given.now.rows.now k).retire) j c }
{
    if j == 0 {
        return true;
    }
    given.time(j - 1).retire <= c
}

// Whether there is room for a row that dispatches in cycle `c`.
fn has_all_room<M: Machine>(machine: &M, given: &Given, j: usize, c: u64) -> bool
    requires run { j < given.now.count }
    requires given { j < length given.now.rows.now }
    ensures { result ≡ has_all_room (input_in (M.meaning machine.now)
        given.now.body.now given.now.count) (times given.now.rows.now) j c }
{
    if !fits_group(machine, given, j, c) {
        return false;
    }
    if !fits_reorder(machine, given, j, c) {
        return false;
    }
    if !fits_registers(machine, given, j, c) {
        return false;
    }
    if !fits_loads(machine, given, j, c) {
        return false;
    }
    fits_stores(machine, given, j, c)
}

// Whether a row may dispatch in cycle `c`.
fn can_dispatch<M: Machine>(machine: &M, given: &Given, j: usize, c: u64) -> bool
    requires bound { AreBound (M.meaning machine.now) given.now.body.now }
    requires run { j < given.now.count }
    requires given { j < length given.now.rows.now }
    ensures { result ≡ can_dispatch (input_in (M.meaning machine.now)
        given.now.body.now given.now.count) (sees (input_in (M.meaning machine.now)
        given.now.body.now given.now.count) (times given.now.rows.now) 2 j c) j c }
{
    if !follows_dispatch(given, j, c) {
        return false;
    }
    if !has_all_room(machine, given, j, c) {
        return false;
    }
    if given.row(j).reserved {
        let at = Moment {
            cycle: c,
            phase: 2,
            row: j,
        };
        return can_start(machine, given, at);
    }
    fits_buffers(machine, given, j, c)
}

// Whether a row that is not reserved may issue in cycle `c`.
fn can_issue<M: Machine>(machine: &M, given: &Given, j: usize, c: u64) -> bool
    requires bound { AreBound (M.meaning machine.now) given.now.body.now }
    requires run { j < given.now.count }
    requires given { j < length given.now.rows.now }
    ensures { result ≡ can_issue (input_in (M.meaning machine.now)
        given.now.body.now given.now.count) (sees (input_in (M.meaning machine.now)
        given.now.body.now given.now.count) (times given.now.rows.now) 1 j c) j c }
{
    if given.time(j).dispatch >= c {
        return false;
    }
    let at = Moment {
        cycle: c,
        phase: 1,
        row: j,
    };
    can_start(machine, given, at)
}

// 1 for a row that retires in cycle `c`.
fn retires_in(given: &Given, k: usize, c: u64) -> u32
    requires { k < length given.now.rows.now }
    ensures { result ≡ (if nat_eq (times given.now.rows.now k).retire c then 1 else 0) }
{
    if given.time(k).retire == c { 1 } else { 0 }
}

// How many older rows retire in cycle `c`.
#[tactic(auto, using(crate::proofs::Below::count_zero, crate::proofs::Below::count_more))]
fn retiring(given: &Given, j: usize, c: u64) -> u32
    requires run { j < given.now.count }
    requires given { j < length given.now.rows.now }
    ensures { result ≡ count_below j (λ k. nat_eq (times given.now.rows.now k).retire c) }
{
    let mut count = 0;
    for k in 0..j {
        count += retires_in(given, k, c);
    }
    count
}

// Whether a row may retire in cycle `c`.
fn can_retire<M: Machine>(machine: &M, given: &Given, j: usize, c: u64) -> bool
    requires run { j < given.now.count }
    requires given { j < length given.now.rows.now }
    ensures { result ≡ can_retire (input_in (M.meaning machine.now)
        given.now.body.now given.now.count) (sees (input_in (M.meaning machine.now)
        given.now.body.now given.now.count) (times given.now.rows.now) 0 j c) j c }
{
    if given.time(j).issue >= c {
        return false;
    }
    if given.time(j).complete >= c {
        return false;
    }
    if !follows_retire(given, j, c) {
        return false;
    }
    has_room(machine.limits().retire, retiring(given, j, c))
}

// Whether a row may take a step in cycle `c`.
fn may_take<M: Machine>(machine: &M, given: &Given, j: usize, step: Step, c: u64) -> bool
    requires bound { AreBound (M.meaning machine.now) given.now.body.now }
    requires run { j < given.now.count }
    requires given { j < length given.now.rows.now }
    ensures { result ≡ may_take (input_in (M.meaning machine.now)
        given.now.body.now given.now.count) (times given.now.rows.now) j step c }
{
    match step {
        Step::ToDispatch => can_dispatch(machine, given, j, c),
        Step::ToIssue => can_issue(machine, given, j, c),
        Step::ToRetire => can_retire(machine, given, j, c),
    }
}

// A cycle before which a row may not retire, where it may in some cycle.
fn earliest_retire(given: &Given, j: usize) -> u64
    requires given { j < length given.now.rows.now }
    requires room { (times given.now.rows.now j).complete < 18446744073709551615 }
    ensures { (c : ℕ) → c < result → (nat_lt (times given.now.rows.now j).complete c
        && follows (λ k. (times given.now.rows.now k).retire) j c) ≡ false }
{
    let done = given.time(j).complete + 1;
    if j == 0 {
        return done;
    }
    done.max(given.time(j - 1).retire)
}

// A cycle before which a row may not dispatch.
fn earliest_dispatch(given: &Given, j: usize) -> u64
    requires given { j < length given.now.rows.now }
    ensures { (c : ℕ) → c < result → follows (λ k. (times given.now.rows.now k).dispatch) j c
        ≡ false }
{
    if j == 0 {
        return 0;
    }
    given.time(j - 1).dispatch
}

// A cycle before which a row may not take a step, where it may take it in some cycle.
fn earliest<M: Machine>(machine: &M, given: &Given, j: usize, step: Step, taken: u64) -> u64
    requires run { j < given.now.count }
    requires given { j < length given.now.rows.now }
    requires taken { may_take (input_in (M.meaning machine.now)
        given.now.body.now given.now.count) (times given.now.rows.now) j step taken ≡ true }
    ensures { (c : ℕ) → c < result → may_take (input_in (M.meaning machine.now)
        given.now.body.now given.now.count) (times given.now.rows.now) j step c ≡ false }
{
    match step {
        Step::ToDispatch => earliest_dispatch(given, j),
        Step::ToIssue => given.time(j).dispatch + 1,
        Step::ToRetire => earliest_retire(given, j),
    }
}

// Whether a cycle is the least in which a row may take a step.
fn is_least<M: Machine>(machine: &M, given: &Given, j: usize, step: Step, taken: u64) -> bool
    requires bound { AreBound (M.meaning machine.now) given.now.body.now }
    requires run { j < given.now.count }
    requires given { j < length given.now.rows.now }
    ensures { Decides result (Least (may_take (input_in (M.meaning machine.now)
        given.now.body.now given.now.count) (times given.now.rows.now) j step) taken) }
{
    if !may_take(machine, given, j, step, taken) {
        return false;
    }
    let mut c = earliest(machine, given, j, step, taken);
    while c < taken {
        if may_take(machine, given, j, step, c) {
            return false;
        }
        c = next_cycle(machine, given, j, step, c, taken);
    }
    true
}

// Whether the issue of a row is as the rules say.
fn is_issue<M: Machine>(machine: &M, given: &Given, j: usize) -> bool
    requires bound { AreBound (M.meaning machine.now) given.now.body.now }
    requires run { j < given.now.count }
    requires given { j < length given.now.rows.now }
    ensures { Decides result (IsRight (input_in (M.meaning machine.now)
        given.now.body.now given.now.count) (times given.now.rows.now) j Issue) }
{
    let issue = given.time(j).issue;
    if given.row(j).reserved {
        return issue == given.time(j).dispatch;
    }
    is_least(machine, given, j, Step::ToIssue, issue)
}

// Whether one time is so many cycles after another.
fn is_after(time: u64, cycles: u32, later: u64) -> bool
    ensures { Decides result (later ≡ time + cycles) }
{
    if later < time {
        return false;
    }
    later - time == cycles as u64
}

// Whether the completion of a row is as the rules say.
fn is_complete<M: Machine>(machine: &M, given: &Given, j: usize) -> bool
    requires given { j < length given.now.rows.now }
    ensures { Decides result (IsRight (input_in (M.meaning machine.now)
        given.now.body.now given.now.count) (times given.now.rows.now) j Complete) }
{
    let time = given.time(j);
    is_after(time.issue, given.row(j).latency, time.complete)
}

// Whether the units of a row are as the rules say.
fn are_units<M: Machine>(machine: &M, given: &Given, j: usize) -> bool
    requires bound { AreBound (M.meaning machine.now) given.now.body.now }
    requires run { j < given.now.count }
    requires given { j < length given.now.rows.now }
    ensures { Decides result (IsRight (input_in (M.meaning machine.now)
        given.now.body.now given.now.count) (times given.now.rows.now) j Units) }
{
    let time = given.time(j);
    let at = Moment {
        cycle: time.issue,
        phase: phase_of(given.row(j)),
        row: j,
    };
    let units = pick(machine, given, at).unwrap_or([NO_UNIT; 8]);
    time.units == units
}

// The first field of a row that is not as the rules say.
fn first_field<M: Machine>(machine: &M, given: &Given, j: usize) -> Option<Field>
    requires bound { AreBound (M.meaning machine.now) given.now.body.now }
    requires run { j < given.now.count }
    requires given { j < length given.now.rows.now }
    ensures none { IfNone result ((field : FieldOf) → IsRight (input_in (M.meaning machine.now)
        given.now.body.now given.now.count) (times given.now.rows.now) j field) }
    ensures wrong { IfSome result (λ field. IsRight (input_in (M.meaning machine.now)
        given.now.body.now given.now.count) (times given.now.rows.now) j field → ⊥) }
    ensures fields { IfSome result (λ field. (other : FieldOf) → order other < order field →
        IsRight (input_in (M.meaning machine.now) given.now.body.now given.now.count)
        (times given.now.rows.now) j other) }
{
    let time = given.time(j);
    if !is_least(machine, given, j, Step::ToDispatch, time.dispatch) {
        return Some(Field::Dispatch);
    }
    if !is_issue(machine, given, j) {
        return Some(Field::Issue);
    }
    if !is_complete(machine, given, j) {
        return Some(Field::Complete);
    }
    if !is_least(machine, given, j, Step::ToRetire, time.retire) {
        return Some(Field::Retire);
    }
    if !are_units(machine, given, j) {
        return Some(Field::Units);
    }
    None
}

// The first place that is not as the rules say.
fn first_place<M: Machine>(machine: &M, given: &Given) -> Option<Place>
    requires { AreBound (M.meaning machine.now) given.now.body.now }
    ensures none { IfNone result (IsRunOf (input_in (M.meaning machine.now)
        given.now.body.now given.now.count) given.now.rows.now) }
    ensures some { IfSome result (IsFirstWrong (input_in (M.meaning machine.now)
        given.now.body.now given.now.count) given.now.rows.now) }
{
    for j in 0..given.count {
        if j >= given.rows.len() {
            return Some(Place {
                row: j as u32,
                field: Field::Dispatch,
            });
        }
        match first_field(machine, given, j) {
            Some(field) => return Some(Place {
                row: j as u32,
                field,
            }),
            None => {}
        }
    }
    if given.rows.len() > given.count {
        return Some(Place {
            row: given.count as u32,
            field: Field::Dispatch,
        });
    }
    None
}

/// Where a table of times is not the run of a body on a machine: the first row, and in it the first field
/// in the order of `Field`, that is not as the rules say, evaluated on the rows of the table. A row that is
/// missing or too many is wrong in its `Dispatch`. None exactly where the table is the run. Any table may
/// be given. It takes no memory. The work is for each row, and for each cycle in which it waits and a time
/// of the table falls due, a look at all rows: meant for tests, beside an engine.
pub fn check_run<M: Machine>(
    machine: &M,
    body: &[Bound],
    iterations: u32,
    run: &Timeline,
) -> Option<Place>
    requires bound { IsBoundBody (M.meaning machine.now) body.now }
    requires body { 0 < length body.now }
    requires iterations { 1 ≤ iterations }
    requires rows { iterations * length body.now ≤ MOST_ROWS }
    ensures right { (result ≡ None) ↔ IsRun (M.meaning machine.now) (map row_of body.now) iterations
        run.now.rows }
    ensures first { IfSome result (IsFirstWrong (input (M.meaning machine.now)
        (map row_of body.now) iterations) run.now.rows) }
{
    let given = Given {
        body,
        rows: run.rows.as_slice(),
        count: iterations as usize * body.len(),
    };
    first_place(machine, &given)
}
