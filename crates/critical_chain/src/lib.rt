//! The critical sequence of a run: the chain of waits that costs most.
//!
//! The waits of a run are edges between its rows: each leads from the row that was waited for to the row
//! that waited, and costs the cycles of the wait. A chain is a list of edges, each of which starts at the
//! row where the one before ended. `critical` finds the costliest; `check_chain` tells from the labels of
//! the rows that no chain costs more.
//!
//! What a reader must believe stands in `specs/`: `Graph` (what graphs of waits are), `Chain` (chains, the
//! labels of rows, and the one chain that is reported). Labels, order and ties are this project's own.
#![tactic(auto)]

ghost use Rattle.std.specs.Prelude.{◌≡◌, ◌≤◌, ℕ, List};
ghost use Rattle.critical_chain.specs.declared.graph.Edge.{Edge as EdgeOf};
ghost use Rattle.critical_chain.specs.declared.graph.Graph.{Graph as GraphOf};
ghost use Rattle.critical_chain.specs.declared.graph.Chain.{Chain as ChainOf};
ghost use Rattle.critical_chain.specs.Graph.{IsGraph, cost_of};
ghost use Rattle.critical_chain.specs.Chain.{Leads, IsCritical, IsChecked};

mod check;
mod choice;
mod graph;
mod label;
mod order;
mod sequence;

pub use check::check_chain;
pub use graph::{Chain, Edge, EdgeKind, Graph};
pub use sequence::critical;

/// Where a chain passes its check, no chain of the graph costs more.
pub fn checked_is_costliest()
    ensures { (g : GraphOf) (c : ChainOf) → IsGraph g → IsChecked g c →
        (a b : ℕ) (links : List EdgeOf) → Leads g.edges a b links → cost_of links ≤ c.cost }
{}

/// At most one chain is the critical sequence of a graph.
pub fn one_critical()
    ensures { (g : GraphOf) (c d : ChainOf) → IsGraph g → IsCritical g c → IsCritical g d → c ≡ d }
{}

/// Each graph of waits has a critical sequence, one without rows too: the empty chain.
pub fn some_critical()
    ensures { (g : GraphOf) → IsGraph g → (c : ChainOf) × IsCritical g c }
{}
