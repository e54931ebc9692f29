//! The dispatch group at a width of 2.
ghost use Rattle.std.specs.Prelude.{◌≡◌, ◌<◌, ◌≤◌, ◌+◌, List};
ghost use Rattle.dispatch_unit.specs.Group.{Dispatched};
ghost use Rattle.dispatch_unit.specs.Kept.{StandsFor, cycle_of};

use dispatch_unit::Group;
use std::alloc::{AllocError, Global};

/// The cycle in which a row dispatches that comes in cycle `now`: the first of four that has place for it.
fn dispatch(group: &mut Group, now: u64, uops: u16, ends: bool) -> u64
    requires stands { (rows : List Dispatched) × (StandsFor group.old rows) }
    requires cycle { cycle_of group.old ≡ now }
    requires early { now < 1000 }
    ensures stands { (rows : List Dispatched) × (StandsFor group.new rows) }
    ensures cycle { cycle_of group.new ≡ result }
    ensures soon { result ≤ now + 4 }
{
    for c in now..now + 4 {
        if group.room(uops, false) {
            group.place(uops, ends);
            return c;
        }
        group.next_cycle(c + 1);
    }
    now + 4
}

/// Five micro-ops fill two cycles and half of a third, so that one more joins them there.
pub fn a_wide_row_fills_groups(alloc: Global) -> Result<String, AllocError> {
    let mut group = Group::make(2);
    let wide = dispatch(&mut group, 0, 5, false);
    let falls = group.changes_at();
    let narrow = dispatch(&mut group, wide, 1, false);
    format!(in alloc;
        "dispatch_unit: 5 micro-ops in cycle {wide}, a share falls in {falls:?}, 1 more in {narrow}"
    )
}

/// A row that ends its group leaves the second place of its cycle empty.
pub fn nothing_joins_an_ended_group(alloc: Global) -> Result<String, AllocError> {
    let mut group = Group::make(2);
    let last = dispatch(&mut group, 0, 1, true);
    let next = dispatch(&mut group, last, 1, false);
    format!(in alloc; "dispatch_unit: the last of a group in cycle {last}, the next row in {next}")
}
