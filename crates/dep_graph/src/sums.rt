//! How long the rows of a run waited, added up.
ghost use Rattle.std.specs.Prelude.{◌≡◌, ◌<◌, ◌+◌, ℕ, List, length, slice_index};
ghost use Rattle.cycle_rules.specs.Row.{Input, Table, times};
ghost use Rattle.dep_graph.specs.Peaks.{AreRowWaits};
ghost use Rattle.dep_graph.specs.RunGraph.{IsIssueOrder};
ghost use Rattle.dep_graph.specs.WaitSums.{AreSumsAlong};
ghost use Rattle.dep_graph.specs.Walk.{IsSoundRun};

use crate::rows::Rows;
use crate::waits::RowWaits;

/// For how many cycles the rows of a run waited to issue, by what for, added up.
#[derive(Clone, Copy, Debug)]
pub struct WaitSums {
    /// For the values that they read.
    pub registers: u64,
    /// Then for the order of memory.
    pub memory: u64,
    /// Then for units.
    pub resources: u64,
}

impl WaitSums {
    /// Those of no row.
    pub(crate) fn none() -> WaitSums
        ensures { (g : Input) (t : Table) (order : List ℕ) → AreSumsAlong g t order 0 result }
    {
        WaitSums {
            registers: 0,
            memory: 0,
            resources: 0,
        }
    }

    /// With the waits of the row at a place of the issue order.
    pub(crate) fn with_row<R: Rows>(
        self,
        rows: &R,
        order: &[u32],
        i: usize,
        row: RowWaits,
    ) -> WaitSums
        requires run { IsSoundRun (R.input rows.now) (R.table rows.now) }
        requires order { IsIssueOrder (R.input rows.now) (times (R.table rows.now)) order.now }
        requires place { i < length order.now }
        requires waits { AreRowWaits (R.input rows.now) (times (R.table rows.now))
            (slice_index order.now i) row }
        requires sums { AreSumsAlong (R.input rows.now) (times (R.table rows.now)) order.now i self }
        ensures { AreSumsAlong (R.input rows.now) (times (R.table rows.now)) order.now (i + 1)
            result }
    {
        WaitSums {
            registers: self.registers + row.before.register.cycles,
            memory: self.memory + row.before.memory.cycles,
            resources: self.resources + row.units,
        }
    }
}
