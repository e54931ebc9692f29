//! The waits of a run as edges.
ghost use Rattle.std.specs.Prelude.{◌≡◌, ◌<◌, ◌≤◌, ◌*◌, ◌++◌, [], length, map, IfOk};
ghost use Rattle.cycle_rules.specs.Bind.{row_of, IsBoundBody};
ghost use Rattle.cycle_rules.specs.Row.{input, times};
ghost use Rattle.cycle_rules.specs.Run.{IsRun};
ghost use Rattle.critical_chain.specs.Graph.{IsGraph};
ghost use Rattle.dep_graph.specs.Blamed.{edges_along};
ghost use Rattle.dep_graph.specs.Peaks.{AreKept, HaveLinks};
ghost use Rattle.dep_graph.specs.RunGraph.{IsGraphOf, IsIssueOrder};
ghost use Rattle.dep_graph.specs.Stalls.{stalls};
ghost use Rattle.dep_graph.specs.Taking.{IsTaking, wait_edge};
ghost use Rattle.dep_graph.specs.Turns.{AreSlots};
ghost use Rattle.dep_graph.specs.WaitSums.{AreSums, AreSumsAlong};
ghost use Rattle.dep_graph.specs.Walk.{IsSoundRun};

use crate::holders::Taker;
use crate::memory_waits::MemoryWaits;
use crate::order::issue_order;
use crate::passed::{Passed, pass_all};
use crate::rows::{Rows, Run};
use crate::sums::WaitSums;
use crate::unit_waits::unit_wait;
use crate::waits::{RowWaits, Wait, Waits, register_wait};
use critical_chain::{Edge, EdgeKind, Graph};
use cycle_rules::{Bound, Links, Timeline, all_links};
use machine_model::Machine;
use mca_fixed::{Items, MOST_ROWS, NoMemory};
use resource_units::Units;
use std::alloc::Global;

/// The waits of a run as a graph: the rows in issue order, and for each row that waited for an
/// operand, for the order of memory or for a unit an edge from the row that is blamed, whose cost
/// is the wait in cycles. The edges are sorted by the row that waited in issue order, then by kind.
/// `run` is the run of the body on the machine, repeated `iterations` times, 1 or more; the body is
/// bound by the machine and not empty, and the run has at most 1,048,576 rows. What is given can be
/// passed to `critical`.
///
/// # Errors
///
/// Want of memory.
pub fn edges<M: Machine>(
    alloc: Global,
    machine: &M,
    body: &[Bound],
    iterations: u32,
    run: &Timeline,
) -> Result<Graph, NoMemory>
    requires bound { IsBoundBody (M.meaning machine.now) body.now }
    requires some { 0 < length body.now }
    requires iterations { 1 ≤ iterations }
    requires rows { iterations * length body.now ≤ MOST_ROWS }
    requires run { IsRun (M.meaning machine.now) (map row_of body.now) iterations run.now.rows }
    ensures waits { IfOk result (λ graph. IsGraphOf
        (input (M.meaning machine.now) (map row_of body.now) iterations)
        (times run.now.rows) graph) }
    ensures graph { IfOk result (λ graph. IsGraph graph) }
{
    let waits = run_waits(alloc, machine, body, iterations, run)?;
    Ok(waits.graph)
}

/// The waits of a run as a graph, as `edges` gives it, and added up; and its stalls, as `stalls` gives
/// them.
#[derive(Drop)]
pub struct RunWaits {
    pub graph: Graph,
    pub sums: WaitSums,
    pub stalls: [u64; 7],
}

/// The waits of a run as a graph; for how many cycles its rows waited in all, each for its operands,
/// then for the order of memory, then for units; and for how many cycles dispatch stalled. What is
/// given, and what comes of it, is as for `edges` and `stalls`.
///
/// # Errors
///
/// Want of memory.
pub fn run_waits<M: Machine>(
    alloc: Global,
    machine: &M,
    body: &[Bound],
    iterations: u32,
    run: &Timeline,
) -> Result<RunWaits, NoMemory>
    requires bound { IsBoundBody (M.meaning machine.now) body.now }
    requires some { 0 < length body.now }
    requires iterations { 1 ≤ iterations }
    requires rows { iterations * length body.now ≤ MOST_ROWS }
    requires run { IsRun (M.meaning machine.now) (map row_of body.now) iterations run.now.rows }
    ensures waits { IfOk result (λ waits. IsGraphOf
        (input (M.meaning machine.now) (map row_of body.now) iterations)
        (times run.now.rows) waits.graph) }
    ensures graph { IfOk result (λ waits. IsGraph waits.graph) }
    ensures sums { IfOk result (λ waits. AreSums
        (input (M.meaning machine.now) (map row_of body.now) iterations)
        (times run.now.rows) (iterations * length body.now) waits.sums) }
    ensures stalls { IfOk result (λ waits. waits.stalls ≡ stalls
        (input (M.meaning machine.now) (map row_of body.now) iterations) (times run.now.rows)) }
{
    let links = all_links(alloc, machine, body)?;
    let rows = Run::make(machine, body, iterations as usize, run.rows.as_slice());
    waits_of(alloc, machine, &rows, &links)
}

// The waits of some rows, by the links of their body.
fn waits_of<M: Machine, R: Rows>(
    alloc: Global,
    machine: &M,
    rows: &R,
    links: &[Links],
) -> Result<RunWaits, NoMemory>
    requires run { IsSoundRun (R.input rows.now) (R.table rows.now) }
    requires links { HaveLinks (R.input rows.now) (R.size rows.now) links.now }
    requires machine { M.meaning machine.now ≡ (R.input rows.now).machine }
    ensures waits { IfOk result (λ waits. IsGraphOf (R.input rows.now) (times (R.table rows.now))
        waits.graph) }
    ensures graph { IfOk result (λ waits. IsGraph waits.graph) }
    ensures sums { IfOk result (λ waits. AreSums (R.input rows.now) (times (R.table rows.now))
        (R.input rows.now).rows waits.sums) }
    ensures stalls { IfOk result (λ waits. waits.stalls ≡ stalls (R.input rows.now)
        (times (R.table rows.now))) }
{
    let Passed {
        slots,
        memory,
        stalls,
    } = pass_all(alloc, rows, links)?;
    let order = issue_order(alloc, rows, &slots)?;
    let Waited { edges, sums } = all_edges(alloc, machine, rows, links, &memory, &order, &slots)?;
    let graph = Graph {
        rows: rows.count() as u32,
        order: Items::from_vec(order),
        edges: Items::from_vec(edges),
    };
    Ok(RunWaits {
        graph,
        sums,
        stalls: stalls.listed(),
    })
}

// Adds the edge of a wait of a row, where it waited.
fn push_wait(edges: &mut Vec<Edge>, kind: EdgeKind, row: u32, wait: Wait) -> Result<(), NoMemory>
    ensures { IfOk result (λ done. edges.new.items ≡ edges.old.items ++ wait_edge kind row wait) }
{
    if wait.cycles == 0 {
        return Ok(());
    }
    edges.push(Edge {
        from: wait.row,
        to: row,
        kind,
        cost: wait.cycles,
    })?;
    Ok(())
}

// The edges of waits, and the waits added up.
#[derive(Drop)]
struct Waited {
    edges: Vec<Edge>,
    sums: WaitSums,
}

// Those of all rows, by the rows in issue order and their waits for the order of memory.
fn all_edges<M: Machine, R: Rows>(
    alloc: Global,
    machine: &M,
    rows: &R,
    links: &[Links],
    memory: &MemoryWaits,
    order: &[u32],
    slots: &[u64],
) -> Result<Waited, NoMemory>
    requires run { IsSoundRun (R.input rows.now) (R.table rows.now) }
    requires machine { M.meaning machine.now ≡ (R.input rows.now).machine }
    requires links { HaveLinks (R.input rows.now) (R.size rows.now) links.now }
    requires memory { AreKept (R.input rows.now) (times (R.table rows.now)) (R.input rows.now).rows
        memory.now }
    requires order { IsIssueOrder (R.input rows.now) (times (R.table rows.now)) order.now }
    requires slots { AreSlots (R.input rows.now) (times (R.table rows.now)) slots.now }
    ensures edges { IfOk result (λ waited. waited.edges.items ≡ edges_along (R.input rows.now)
        (times (R.table rows.now)) order.now) }
    ensures sums { IfOk result (λ waited. AreSumsAlong (R.input rows.now) (times (R.table rows.now))
        order.now (length order.now) waited.sums) }
{
    // Most rows wait for one thing, if for any.
    let edges = Vec::with_capacity(alloc, rows.count())?;
    let mut units = Units::make(alloc, machine)?;
    let mut last = vec![in alloc; Taker { place: 0, until: 0 }; M::UNITS]?;
    edges_in_order(
        machine, rows, links, memory, &mut units, &mut last, order, slots, edges,
    )
}

// The same, with what is kept of the units, of which none has been taken.
fn edges_in_order<M: Machine, R: Rows>(
    machine: &M,
    rows: &R,
    links: &[Links],
    memory: &MemoryWaits,
    units: &mut Units<M>,
    last: &mut [Taker],
    order: &[u32],
    slots: &[u64],
    edges: Vec<Edge>,
) -> Result<Waited, NoMemory>
    requires run { IsSoundRun (R.input rows.now) (R.table rows.now) }
    requires machine { M.meaning machine.now ≡ (R.input rows.now).machine }
    requires links { HaveLinks (R.input rows.now) (R.size rows.now) links.now }
    requires memory { AreKept (R.input rows.now) (times (R.table rows.now)) (R.input rows.now).rows
        memory.now }
    requires order { IsIssueOrder (R.input rows.now) (times (R.table rows.now)) order.now }
    requires slots { AreSlots (R.input rows.now) (times (R.table rows.now)) slots.now }
    requires none { edges.items ≡ [] }
    requires taking { IsTaking M.meaning M.Mask.holds (R.input rows.now) (times (R.table rows.now))
        order.now 0 0 units.old last.old }
    ensures edges { IfOk result (λ waited. waited.edges.items ≡ edges_along (R.input rows.now)
        (times (R.table rows.now)) order.now) }
    ensures sums { IfOk result (λ waited. AreSumsAlong (R.input rows.now) (times (R.table rows.now))
        order.now (length order.now) waited.sums) }
{
    let mut edges = edges;
    let mut sums = WaitSums::none();
    let mut taken = 0;
    for i in 0..order.len() {
        let row = order[i];
        let before = Waits {
            register: register_wait(rows, links, slots[row as usize], row as usize),
            memory: memory.of(row),
        };
        push_wait(&mut edges, EdgeKind::Register, row, before.register)?;
        push_wait(&mut edges, EdgeKind::Memory, row, before.memory)?;
        let found = unit_wait(
            machine, rows, units, last, order, slots, &mut taken, i, before,
        );
        push_wait(&mut edges, EdgeKind::Resource, row, found.wait)?;
        let waits = RowWaits {
            before,
            units: found.cycles,
        };
        sums = sums.with_row(rows, order, i, waits);
    }
    Ok(Waited { edges, sums })
}
