//! Two rows that wait to issue.
ghost use Rattle.std.specs.Prelude.{◌≡◌};

use cycle_rules::{Bound, Source};
use issue_queues::Queues;
use machine_model::{Fixed, Kind, Machine, NO_CLASS, Tuning, Use};
use mca_fixed::NoMemory;
use rv_isa::{Op, Reg};
use std::alloc::Global;

// An instruction that uses no resource.
fn no_use() -> Bound
    ensures { result.use_count ≡ 0 }
{
    let none = Source {
        reg: Reg::zero(),
        read: NO_CLASS,
    };
    Bound {
        op: Op::Addi,
        uops: 1,
        latency: 1,
        use_count: 0,
        uses: [Use {
            resource: 0,
            hold: 0,
        }; 8],
        reserved: false,
        read_count: 0,
        reads: [none; 2],
        rd: Reg::zero(),
        write: 0,
        kind: Kind::Plain,
        begins_group: false,
        ends_group: false,
    }
}

/// The younger row is the first that is ready; when the older one becomes ready, that one comes first.
pub fn the_oldest_ready_row_first(alloc: Global) -> Result<String, NoMemory> {
    let machine: Fixed<2, 32, 2> = Fixed::make(&Tuning::new(0, 0, 0, 0, true));
    let mut queues = Queues::make(alloc, &machine)?;
    let b = no_use();
    if machine.limits().reorder < 2 {
        return Ok(format!(in alloc; "issue_queues: no room")?);
    }
    queues.enter(0, &b, false);
    queues.enter(1, &b, true);
    let first = queues.ready(0);
    queues.wake(0);
    let second = queues.ready(0);
    queues.leave(0, &b);
    let third = queues.ready(0);
    Ok(format!(in alloc;
        "issue_queues: ready {first:?}; after row 0 wakes {second:?}; after it issues {third:?}"
    )?)
}
