//! Whether a chain is one of a graph's, and its labels show that none costs more.
ghost use Rattle.std.specs.Prelude.{◌≡◌, ◌<◌, ◌≤◌, ◌^◌, ℕ, length, slice_index, true, false};
ghost use Rattle.std.specs.Bool.{Decides};
ghost use Rattle.critical_chain.specs.Graph.{AreForward, IsGraph, cost_of, edge_at};
ghost use Rattle.critical_chain.specs.Chain.{IsShown, IsChecked, Grows};
ghost use Rattle.critical_chain.specs.Search.{AreJoined, AreRows, IsMatched};

use crate::graph::{Chain, Edge, Graph};

/// Whether each link starts where the one before ended.
fn are_joined(links: &[Edge]) -> bool
    ensures { Decides result (AreJoined links.now) }
{
    for i in 1..links.len() {
        if links[i - 1].to != links[i].from {
            return false;
        }
    }
    true
}

/// Whether there is an n-th link, and it is the edge.
fn is_next(links: &[Edge], n: usize, e: Edge) -> bool
    ensures yes { result ≡ true → (n < length links.now) × (edge_at links.now n ≡ e) }
    ensures no { result ≡ false → n < length links.now → e ≡ edge_at links.now n → ⊥ }
{
    n < links.len() && links[n] == e
}

/// What the links of a chain cost, if they are edges. One pass is enough: the links of a chain stand in the
/// order of the edges.
fn found(edges: &[Edge], links: &[Edge]) -> Option<u64>
    requires edges { (rows : ℕ) × (spot : ℕ → ℕ) × (AreForward rows spot edges.now) }
    requires low { cost_of edges.now < 2 ^ 64 }
    requires joined { AreJoined links.now }
    ensures { IsMatched edges.now links.now result }
{
    let mut n = 0;
    let mut cost = 0_u64;
    for e in edges {
        if is_next(links, n, *e) {
            n += 1;
            cost += e.cost;
        }
    }
    if n < links.len() {
        return None;
    }
    Some(cost)
}

/// Whether the label grows along each edge by its cost at least.
fn do_grow(labels: &[u64], edges: &[Edge]) -> bool
    requires { AreRows edges.now (length labels.now) }
    ensures { Decides result (Grows edges.now (slice_index labels.now)) }
{
    for i in 0..edges.len() {
        let e = edges[i];
        let to = labels[e.to as usize];
        if to < e.cost {
            return false;
        }
        if to - e.cost < labels[e.from as usize] {
            return false;
        }
    }
    true
}

/// Whether no label is above a cost.
fn are_within(labels: &[u64], cost: u64) -> bool
    ensures { Decides result ((v : ℕ) → v < length labels.now → slice_index labels.now v ≤ cost) }
{
    for i in 0..labels.len() {
        if cost < labels[i] {
            return false;
        }
    }
    true
}

/// Whether links are a chain of edges and cost what is said, with labels that show that none costs more.
fn is_shown(rows: usize, edges: &[Edge], links: &[Edge], cost: u64, labels: &[u64]) -> bool
    requires edges { (spot : ℕ → ℕ) × (AreForward rows spot edges.now) }
    requires low { cost_of edges.now < 2 ^ 64 }
    ensures { Decides result (IsShown rows edges.now links.now cost labels.now) }
{
    if labels.len() != rows {
        return false;
    }
    if !are_joined(links) {
        return false;
    }
    let Some(sum) = found(edges, links) else {
        return false;
    };
    if sum != cost {
        return false;
    }
    if !do_grow(labels, edges) {
        return false;
    }
    are_within(labels, cost)
}

/// Whether each link is an edge of the graph and starts where the one before ended, the cost is their sum,
/// there is one label per row, each edge's end has at least the label of its start plus the edge's cost,
/// and no label is above the cost. So it takes no label on trust: where it answers true, no chain of the
/// graph costs more (`checked_is_costliest`). It takes no memory, and goes over rows and edges once.
pub fn check_chain(g: &Graph, c: &Chain) -> bool
    requires graph { IsGraph g.now }
    ensures { Decides result (IsChecked g.now c.now) }
{
    is_shown(
        g.rows as usize,
        g.edges.as_slice(),
        c.links.as_slice(),
        c.cost,
        c.labels.as_slice(),
    )
}
