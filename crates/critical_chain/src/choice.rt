//! The edge that is taken at a row when the chain is built backwards.
ghost use Rattle.std.specs.Prelude.{◌≡◌, ◌<◌, ◌≤◌, ◌+◌, ◌^◌, ℕ, length, slice_index};
ghost use Rattle.std.specs.Prelude.{Option, None};
ghost use Rattle.critical_chain.specs.Graph.{place, edge_at, IsOrder, AreForward};
ghost use Rattle.critical_chain.specs.Chain.{ends_costliest, goes_first, kind_number};
ghost use Rattle.critical_chain.specs.Search.{IsBest, AreLow};

use crate::graph::{Edge, EdgeKind};
use crate::order::{is_earlier, place_below};

/// The place of a kind in the order in which kinds go first.
pub fn number(kind: EdgeKind) -> u8
    ensures { result ≡ kind_number kind }
{
    match kind {
        EdgeKind::Register => 0,
        EdgeKind::Memory => 1,
        EdgeKind::Resource => 2,
    }
}

/// Whether of two edges to one row the first goes first. The row stands in the order below place
/// `high`, which comes down to just above it where the order has to be read.
fn is_before(order: &[u32], high: &mut usize, x: Edge, y: Edge) -> bool
    requires order { IsOrder (length order.now) order.now }
    requires high { high.old ≤ length order.now }
    requires to { place order.now x.to < high.old }
    requires x { place order.now x.from < place order.now x.to }
    requires y { place order.now y.from < place order.now x.to }
    ensures first { result ≡ goes_first (place order.now) x y }
    ensures to { place order.now x.to < high.new }
    ensures high { high.new ≤ high.old }
{
    if x.from == y.from {
        return number(x.kind) < number(y.kind);
    }
    let place = place_below(order, *high, x.to);
    *high = place + 1;
    is_earlier(order, place, x.from, y.from)
}

/// Whether an edge ends a costliest chain to its row.
fn is_candidate(labels: &[u64], e: Edge) -> bool
    requires from { e.from < length labels.now }
    requires to { e.to < length labels.now }
    requires low { slice_index labels.now e.from + e.cost < 2 ^ 64 }
    ensures { result ≡ ends_costliest (slice_index labels.now) e.to e }
{
    labels[e.from as usize] + e.cost == labels[e.to as usize]
}

/// Of an edge to a row and the one that is taken there among those behind it, if any, the one to
/// take. Edges are given by number. The row stands in the order below place `high`, and still does.
fn taken(
    order: &[u32],
    high: &mut usize,
    edges: &[Edge],
    labels: &[u64],
    behind: Option<usize>,
    i: usize,
) -> Option<usize>
    requires order { IsOrder (length order.now) order.now }
    requires edges { AreForward (length order.now) (place order.now) edges.now }
    requires low { AreLow edges.now labels.now }
    requires i { i < length edges.now }
    requires high { high.old ≤ length order.now }
    requires to { place order.now (edge_at edges.now i).to < high.old }
    requires behind { IsBest edges.now (i + 1) (place order.now) (slice_index labels.now)
        (edge_at edges.now i).to behind }
    ensures best { IsBest edges.now i (place order.now) (slice_index labels.now)
        (edge_at edges.now i).to result }
    ensures to { place order.now (edge_at edges.now i).to < high.new }
    ensures high { high.new ≤ high.old }
{
    let e = edges[i];
    if !is_candidate(labels, e) {
        return behind;
    }
    let Some(k) = behind else {
        return Some(i);
    };
    if is_before(order, high, e, edges[k]) {
        return Some(i);
    }
    behind
}

/// The number of the edge that is taken at a row, if any. No edge from the n-th on leads to the
/// row. Those that do stand together, so the search ends in front of them. The row stands in the
/// order below place `high`, and still does.
pub fn choice_at(
    order: &[u32],
    high: &mut usize,
    edges: &[Edge],
    labels: &[u64],
    v: usize,
    n: usize,
) -> Option<usize>
    requires order { IsOrder (length order.now) order.now }
    requires edges { AreForward (length order.now) (place order.now) edges.now }
    requires low { AreLow edges.now labels.now }
    requires high { high.old ≤ length order.now }
    requires to { place order.now v < high.old }
    requires n { n ≤ length edges.now }
    requires none { IsBest edges.now n (place order.now) (slice_index labels.now) v None }
    ensures best { IsBest edges.now 0 (place order.now) (slice_index labels.now) v result }
    ensures to { place order.now v < high.new }
    ensures high { high.new ≤ high.old }
{
    let mut best = None;
    for i in (0..n).rev() {
        if edges[i].to as usize == v {
            best = taken(order, high, edges, labels, best, i);
        } else if best.is_some() {
            return best;
        }
    }
    best
}
