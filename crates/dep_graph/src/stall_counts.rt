//! The stalls of a run.
ghost use Rattle.std.specs.Prelude.{◌≡◌, ◌<◌, ◌≤◌, ◌*◌, length, map, sum};
ghost use Rattle.cycle_rules.specs.Bind.{row_of, IsBoundBody};
ghost use Rattle.cycle_rules.specs.Row.{input, times};
ghost use Rattle.cycle_rules.specs.Run.{IsRun};
ghost use Rattle.dep_graph.specs.Walk.{IsSoundRun, sums_of};
ghost use Rattle.dep_graph.specs.Stalls.{stalls, last_dispatch};

use crate::counts::Counts;
use crate::rows::{Rows, Run};
use crate::walk::Walk;
use cycle_rules::{Bound, Timeline};
use machine_model::Machine;
use mca_fixed::MOST_ROWS;

/// How many cycles below the dispatch of the last row are stalls, by what the next row to dispatch
/// lacked first: place in the dispatch group, entries of the reorder buffer, registers, an entry of
/// the load queue, of the store queue, of the buffers of its resources, and for a reserved row what
/// it needs to issue. Together they are the cycle of that dispatch. `run` is the run of the body on
/// the machine, repeated `iterations` times, 1 or more; the body is bound by the machine and not
/// empty, and the run has at most 1,048,576 rows. It takes no memory, and its work grows with the
/// rows, however long the run.
pub fn stalls<M: Machine>(machine: &M, body: &[Bound], iterations: u32, run: &Timeline) -> [u64; 7]
    requires bound { IsBoundBody (M.meaning machine.now) body.now }
    requires some { 0 < length body.now }
    requires iterations { 1 ≤ iterations }
    requires rows { iterations * length body.now ≤ MOST_ROWS }
    requires run { IsRun (M.meaning machine.now) (map row_of body.now) iterations run.now.rows }
    ensures stalls { result ≡ stalls
        (input (M.meaning machine.now) (map row_of body.now) iterations) (times run.now.rows) }
    ensures sum { sum result ≡ last_dispatch (times run.now.rows) (iterations * length body.now) }
{
    let rows = Run::make(machine, body, iterations as usize, run.rows.as_slice());
    count(&rows).listed()
}

// The stalls of all rows.
fn count<R: Rows>(rows: &R) -> Counts
    requires { IsSoundRun (R.input rows.now) (R.table rows.now) }
    ensures { result ≡ sums_of (R.input rows.now) (times (R.table rows.now))
        (R.input rows.now).rows }
{
    let mut walk = Walk::empty();
    let mut counts = Counts::none();
    for j in 0..rows.count() {
        walk.pass(rows, j, &mut counts);
    }
    counts
}
