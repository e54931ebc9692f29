//! The retirements of a cycle: from the oldest row in flight on, in program order.
ghost use Rattle.std.specs.Prelude.{◌≡◌, ◌<◌, ◌+◌, ◌^◌, ℕ, true, false, not, ◌&&◌, ◌||◌, nat_eq, nat_lt};
ghost use Rattle.cycle_rules.specs.Row.{times};
ghost use Rattle.cycle_rules.specs.Retire.{can_retire};
ghost use Rattle.engine_state.specs.State.{never, now, at, taken_now};
ghost use Rattle.engine_state.specs.Flight.{retired_in};
ghost use Rattle.engine_steps.specs.Done.{Falls};
ghost use Rattle.engine_steps.specs.Flight.{IsFlight};

use crate::flight::Flight;
use crate::memory::leave_memory;
use crate::rows::Rows;

/// The retirements of a cycle, and whether there were any.
pub fn retire_rows<R: Rows>(rows: &R, f: &mut Flight, c: u64) -> bool
    requires low { c < 2 ^ 42 }
    requires flight { IsFlight (R.input rows.now) f.old c (at (R.input rows.now) c 0 0) }
    ensures flight { IsFlight (R.input rows.now) f.new c (at (R.input rows.now) c 1 0) }
    ensures taken { taken_now (R.input rows.now) c f.new.table.items
        ≡ taken_now (R.input rows.now) c f.old.table.items }
    ensures event { result ≡ true → Falls (R.input rows.now) c }
    ensures none { result ≡ false → f.new.table.items ≡ f.old.table.items }
{
    let mut count = 0;
    while retires_now(rows, f, c, count) {
        retire_front(rows, f, c);
        count += 1;
    }
    count > 0
}

// Whether the oldest row in flight, if there is one, retires in a cycle in which so many have.
fn retires_now<R: Rows>(rows: &R, f: &Flight, c: u64, count: u32) -> bool
    requires flight { IsFlight (R.input rows.now) f.now c (at (R.input rows.now) c 0 f.now.front) }
    requires count { count ≡ retired_in f.now.table.items c f.now.front }
    ensures { result ≡ (nat_lt f.now.front f.now.head
        && can_retire (R.input rows.now) (now
        (R.input rows.now) c f.now.table.items) f.now.front c) }
{
    if f.front >= f.head {
        return false;
    }
    let row = f.table[f.front];
    may_retire(row.issue, row.complete, c, rows.retire_width(), count)
}

// Whether a row that issued and completed then may retire in a cycle in which so many have.
fn may_retire(issue: u64, complete: u64, c: u64, width: u32, count: u32) -> bool
    ensures { result ≡ (not (nat_eq issue never) && nat_lt complete c
        && (nat_eq width 0 || nat_lt count width)) }
{
    issue != u64::MAX && complete < c && (width == 0 || count < width)
}

// The oldest row in flight retires.
fn retire_front<R: Rows>(rows: &R, f: &mut Flight, c: u64)
    requires low { c < 2 ^ 42 }
    requires row { f.old.front < f.old.head }
    requires flight { IsFlight (R.input rows.now) f.old c (at (R.input rows.now) c 0 f.old.front) }
    requires may { can_retire (R.input rows.now) (now (R.input rows.now) c f.old.table.items)
        f.old.front c ≡ true }
    ensures flight { IsFlight (R.input rows.now) f.new c (at (R.input rows.now) c 0
        (f.old.front + 1)) }
    ensures front { f.new.front ≡ f.old.front + 1 }
    ensures head { f.new.head ≡ f.old.head }
    ensures retire { (times f.new.table.items f.old.front).retire ≡ c }
    ensures others { (k : ℕ) → k < f.old.front → times f.new.table.items k
        ≡ times f.old.table.items k }
    ensures taken { taken_now (R.input rows.now) c f.new.table.items
        ≡ taken_now (R.input rows.now) c f.old.table.items }
{
    let j = f.front;
    let b = rows.instruction(j);
    f.table[j].retire = c;
    f.rob.pop_front();
    f.files.free(b.rd);
    leave_memory(&mut f.memory, b.kind, j as u32, c);
    f.front = j + 1;
}
