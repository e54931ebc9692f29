//! When a value that an instruction reads can be read.
ghost use Rattle.std.specs.Prelude.{◌≡◌, ◌<◌, ◌≤◌, true, ◌||◌, nat_eq, nat_lt};
ghost use Rattle.machine_model.specs.Valid.{no_class};
ghost use Rattle.cycle_rules.specs.Bind.{IsBound};
ghost use Rattle.cycle_rules.specs.Row.{lead, advance_of};
ghost use Rattle.machine_model.specs.declared.limits.TheConstants.{MOST_CYCLES};

use crate::bound::Bound;
use machine_model::Machine;

/// The cycles from the issue of the instruction `from` until a read of the class `read` can read its
/// value: the latency less the machine's advance of that read after that write, at least 0; a read
/// without a class, 65,535, has no advance.
pub fn lead<M: Machine>(machine: &M, read: u16, from: &Bound) -> u32
    requires class { (nat_eq read no_class || nat_lt read (M.meaning machine.now).read_count)
        ≡ true }
    requires from { IsBound (M.meaning machine.now) from.now }
    ensures { result ≡ lead from.now.latency (advance_of
        (M.meaning machine.now) read from.now.write) }
{
    lead_of(machine, from.latency, read, from.write)
}

/// The same of an instruction with this latency, at most 1,000,000, and this write class.
pub fn lead_of<M: Machine>(machine: &M, latency: u32, read: u16, write: u16) -> u32
    requires class { (nat_eq read no_class || nat_lt read (M.meaning machine.now).read_count)
        ≡ true }
    requires write { write < (M.meaning machine.now).write_count }
    requires latency { latency ≤ MOST_CYCLES }
    ensures { result ≡ lead latency (advance_of (M.meaning machine.now) read write) }
{
    let advance = machine.advance(read, write);
    let size = advance.unsigned_abs();
    if advance >= 0 {
        latency.saturating_sub(size)
    } else {
        latency + size
    }
}
