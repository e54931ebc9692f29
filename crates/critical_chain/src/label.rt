//! The greatest cost of a chain that ends at a row, and the row where the costliest chain ends.
ghost use Rattle.std.specs.Prelude.{◌≡◌, ◌<◌, ◌≤◌, ◌^◌, ℕ, length, slice_index, IfOk};
ghost use Rattle.critical_chain.specs.Graph.{place, IsOrder, AreForward, cost_of};
ghost use Rattle.critical_chain.specs.Chain.{Grows, IsEnd};
ghost use Rattle.critical_chain.specs.Search.{AreReached};

use crate::graph::Edge;
use mca_fixed::NoMemory;
use std::alloc::Global;

/// For each row its label, and the first row in an order that has the greatest. One pass is enough:
/// the edges to a row come after all edges to their starts, and after those to the rows before it.
pub fn labels(alloc: Global, order: &[u32], edges: &[Edge]) -> Result<(Vec<u64>, usize), NoMemory>
    requires some { 0 < length order.now }
    requires order { IsOrder (length order.now) order.now }
    requires edges { AreForward (length order.now) (place order.now) edges.now }
    requires low { cost_of edges.now < 2 ^ 64 }
    ensures len { IfOk result (λ found. length found.0.items ≡ length order.now) }
    ensures grows { IfOk result (λ found. Grows edges.now (slice_index found.0.items)) }
    ensures last { IfOk result (λ found. AreReached edges.now (slice_index found.0.items)) }
    ensures bound { IfOk result (λ found.
        (v : ℕ) → slice_index found.0.items v ≤ cost_of edges.now) }
    ensures end { IfOk result (λ found.
        IsEnd (length order.now) (place order.now) (slice_index found.0.items) found.1) }
{
    let mut labels = vec![in alloc; 0_u64; order.len()]?;
    let mut end = order[0];
    let mut most = 0;
    for e in edges {
        let label = labels[e.from as usize] + e.cost;
        let old = labels[e.to as usize];
        labels[e.to as usize] = old.max(label);
        if most < label {
            most = label;
            end = e.to;
        }
    }
    Ok((labels, end as usize))
}
