//! The costliest chain: by labels along the edges, then backwards along the edges that are taken.
ghost use Rattle.std.specs.Prelude.{◌≡◌, ◌<◌, ◌^◌, ℕ, length, slice_index, reverse, IfOk};
ghost use Rattle.critical_chain.specs.Graph.{place, IsOrder, AreForward, IsGraph, cost_of};
ghost use Rattle.critical_chain.specs.Chain.{IsCritical, IsReported, IsShown, IsChecked, IsEnd, IsBuilt};
ghost use Rattle.critical_chain.specs.Search.{AreEnded, AreLow};

use crate::choice::choice_at;
use crate::graph::{Chain, Edge, Graph};
use crate::label::labels;
use mca_fixed::{Items, NoMemory};
use std::alloc::Global;

/// The links of the chain to a row, the last one first. The rows of a chain rise in issue order, by
/// which the edges are sorted, so one walk back over the edges finds all. The order is read only
/// where edges from several rows end a costliest chain at one.
fn links_to(
    alloc: Global,
    order: &[u32],
    edges: &[Edge],
    labels: &[u64],
    end: usize,
) -> Result<Vec<Edge>, NoMemory>
    requires order { IsOrder (length order.now) order.now }
    requires edges { AreForward (length order.now) (place order.now) edges.now }
    requires low { AreLow edges.now labels.now }
    requires rows { length labels.now ≡ length order.now }
    requires last { AreEnded edges.now (slice_index labels.now) }
    requires end { end < length order.now }
    ensures { IfOk result (λ links. IsBuilt edges.now (place order.now) (slice_index labels.now)
        end links.items) }
{
    let mut links = Vec::with_capacity(alloc, order.len())?;
    let mut v = end;
    let mut n = edges.len();
    let mut high = order.len();
    while labels[v] > 0 {
        let Some(i) = choice_at(order, &mut high, edges, labels, v, n) else {
            return Ok(links);
        };
        links.push(edges[i])?;
        v = edges[i].from as usize;
        n = i;
    }
    Ok(links)
}

/// The links in their order.
fn in_order(mut links: Vec<Edge>) -> Vec<Edge>
    ensures { result.items ≡ reverse links.items }
{
    links.reverse();
    links
}

/// The costliest chain of edges between rows in an order.
fn chain_of(alloc: Global, rows: u32, order: &[u32], edges: &[Edge]) -> Result<Chain, NoMemory>
    requires rows { length order.now ≡ rows }
    requires order { IsOrder (length order.now) order.now }
    requires edges { AreForward (length order.now) (place order.now) edges.now }
    requires low { cost_of edges.now < 2 ^ 64 }
    ensures reported { IfOk result (λ c.
        IsReported (length order.now) order.now edges.now c.links c.cost c.labels) }
    ensures shown { IfOk result (λ c.
        IsShown (length order.now) edges.now c.links c.cost c.labels) }
{
    if order.is_empty() {
        return Ok(Chain {
            links: Items::from_vec(Vec::new(alloc)),
            cost: 0,
            labels: Items::from_vec(Vec::new(alloc)),
        });
    }
    let (labels, end) = labels(alloc, order, edges)?;
    let links = links_to(alloc, order, edges, &labels, end)?;
    let cost = labels[end];
    Ok(Chain {
        links: Items::from_vec(in_order(links)),
        cost,
        labels: Items::from_vec(labels),
    })
}

/// The critical sequence of a graph: a chain of its edges, of which none costs more, with the
/// labels of all rows. It ends at the row that is first in issue order of those with the greatest
/// label. From there it is built backwards: of the edges that end a costliest chain at a row the
/// one is taken whose start is first in issue order, and of several from one start a register goes
/// before memory, and memory before a resource. There is one such chain (`one_critical`), and
/// `check_chain` holds of it. The work is linear in rows and edges where few edges lead to one row,
/// and the memory is linear in rows: a label for each, and the links.
pub fn critical(alloc: Global, g: &Graph) -> Result<Chain, NoMemory>
    requires graph { IsGraph g.now }
    ensures critical { IfOk result (λ c. IsCritical g.now c) }
    ensures checked { IfOk result (λ c. IsChecked g.now c) }
{
    chain_of(alloc, g.rows, g.order.as_slice(), g.edges.as_slice())
}
