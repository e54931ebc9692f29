//! Why the rows of a run wait, and why dispatch stalls.
//!
//! `edges` gives the waits of a run as a graph: from the row that is blamed to the row that waited.
//! It goes over the rows in program order, with the rows that hold memory back last, and then in
//! issue order, with the units and the rows that took them last. Which rows make the values that a
//! row reads is worked out once for each place of the body.
//! `run_waits` gives that graph, the waits added up, by what was waited for, and the stalls, which it
//! counts in its walk in program order.
//! `stalls` counts the cycles in which the next row did not dispatch, by what it lacked first: each
//! lack ends in one cycle, so no cycle is looked at.
//!
//! | file | what it says |
//! |---|---|
//! | `Blamed`, `RunGraph` | the row that is blamed for a wait, and the graph of all waits |
//! | `WaitSums` | the sums of waits |
//! | `Stalls` | what a row lacks, and the counts of stalls |
//! | `PassTimes`, `Peaks` | from which cycle on values are there and older rows let a row go |
//! | `Thresholds`, `Walk`, `RowCounts` | the stalls of one row, and what is kept for them |
//! | `Turns`, `Holders`, `Taking` | the issue order, and who holds a unit along it |
//! | `Worked` | edges and stalls of runs that were worked out by hand |
#![tactic(auto)]

ghost use Rattle.std.specs.Prelude.{◌≡◌, ◌≤◌, ◌*◌, ℕ, List, [], ◌∷◌, length, map};
ghost use Rattle.critical_chain.specs.Graph.{IsGraph};
ghost use Rattle.critical_chain.specs.declared.graph.Graph.{Graph as GraphOf};
ghost use Rattle.cycle_rules.specs.Bind.{IsBoundBody, row_of};
ghost use Rattle.cycle_rules.specs.Row.{input, times};
ghost use Rattle.cycle_rules.specs.Run.{IsRun};
ghost use Rattle.cycle_rules.specs.declared.bound.Bound.{Bound as BoundOf};
ghost use Rattle.cycle_rules.specs.declared.times.Times.{Times as TimesOf};
ghost use Rattle.dep_graph.specs.RunGraph.{IsGraphOf};
ghost use Rattle.machine_model.specs.Meaning.{MachineMeaning};
ghost use Rattle.machine_model.specs.Valid.{IsValidMachine};
ghost use Rattle.mca_fixed.specs.declared.limits.TheConstants.{MOST_ROWS};
ghost use Rattle.dep_graph.specs.Worked.{worked_edges, worked_stalls};

mod counts;
mod deal;
mod fill;
mod graph;
mod holders;
mod memory;
mod memory_waits;
mod order;
mod passed;
mod peak;
mod reads;
mod rows;
mod stall_counts;
mod sums;
mod unit_waits;
mod waits;
mod walk;
mod window;

pub use graph::{RunWaits, edges, run_waits};
pub use stall_counts::stalls;
pub use sums::WaitSums;

/// Waits as edges, and stalls, of runs that were worked out by hand.
pub fn worked()
    ensures edges { worked_edges ≡
        ((0 ∷ 1 ∷ 0 ∷ 3 ∷ []) ∷ (2 ∷ 3 ∷ 0 ∷ 3 ∷ []) ∷ [])
        ∷ ((0 ∷ 1 ∷ 2 ∷ 1 ∷ []) ∷ [])
        ∷ ((0 ∷ 1 ∷ 1 ∷ 3 ∷ []) ∷ (1 ∷ 2 ∷ 1 ∷ 3 ∷ []) ∷ [])
        ∷ [] }
    ensures stalls { worked_stalls ≡
        (1 ∷ 0 ∷ 0 ∷ 0 ∷ 0 ∷ 0 ∷ 0 ∷ [])
        ∷ (2 ∷ 0 ∷ 0 ∷ 0 ∷ 0 ∷ 0 ∷ 0 ∷ [])
        ∷ (1 ∷ 21 ∷ 0 ∷ 0 ∷ 0 ∷ 0 ∷ 0 ∷ [])
        ∷ (0 ∷ 0 ∷ 3 ∷ 0 ∷ 0 ∷ 0 ∷ 0 ∷ [])
        ∷ (0 ∷ 0 ∷ 0 ∷ 6 ∷ 0 ∷ 0 ∷ 0 ∷ [])
        ∷ (1 ∷ 0 ∷ 0 ∷ 0 ∷ 0 ∷ 20 ∷ 0 ∷ [])
        ∷ (0 ∷ 0 ∷ 0 ∷ 0 ∷ 0 ∷ 0 ∷ 3 ∷ [])
        ∷ [] }
{}

/// Each run of a body that is bound by a valid machine, of at most 1,048,576 rows, has a graph of its
/// waits, in which a critical sequence can be sought.
pub fn some_graph()
    ensures { (numbers size : ℕ) (m : MachineMeaning) (body : List BoundOf) (iterations : ℕ)
        (table : List TimesOf) → IsValidMachine numbers size m → IsBoundBody m body →
        iterations * length body ≤ MOST_ROWS → IsRun m (map row_of body) iterations table →
        (graph : GraphOf) × IsGraphOf (input m (map row_of body) iterations) (times table) graph
        × IsGraph graph }
{}
