//! The queues: entries of buffers that are held, and the ready rows in program order.
ghost use Rattle.std.specs.Prelude.{◌≡◌, ℕ, ◌+◌, ◌<◌, ◌≤◌, List, [], ◌∷◌, ◌++◌, length, take, slice_index, Bool, true, IfOk, if◌then◌else◌};
ghost use Rattle.std.specs.List.{slice_get};
ghost use Rattle.std.specs.Option.{option_map};
ghost use Rattle.machine_model.specs.Meaning.{MachineMeaning};
ghost use Rattle.unit_sets.specs.Members.{in_word};
ghost use Rattle.node_pool.specs.Pool.{before_key, list_of};
ghost use Rattle.cycle_rules.specs.Row.{entries};
ghost use Rattle.issue_queues.specs.Lanes.{lesser};
ghost use Rattle.issue_queues.specs.Waiting.{Waiting, has_entries, with_ready, without, ready_from, ready_among, lane_of, is_in, IsIn, are_below};

use crate::entries::{free_entries, have_room, take_entries, uses_of};
use cycle_rules::Bound;
use machine_model::Machine;
use mca_fixed::NoMemory;
use node_pool::{Node, NodePool};
use std::alloc::Global;
use unit_sets::UnitMask;

/// The rows that have dispatched and wait to issue.
///
/// Contracts see a list of them, oldest first, each with its uses and whether it is ready
/// (`StandsFor`): each answer is told for every list that the queues stand for, and after a change they
/// stand for the changed form of every such list. A row is ready where whoever keeps the queues says
/// so, by `enter` or `wake`. No call but the two that make queues takes memory, and none but they can
/// fail.
///
/// The ready rows stand in lanes, at most 64 of them. The lane of a row is that of its place in the body,
/// which is its number modulo the length of the body. `ready_among` answers for some of the lanes alone.
#[derive(Drop)]
pub struct Queues {
    // The entries of the buffer of each resource; 0 for no bound.
    bounds: Vec<u32>,
    // Those that are held.
    held: Vec<u32>,
    // The lane of each place of the body.
    lanes: Vec<u8>,
    // Lanes are the numbers below this.
    count: usize,
    // For each lane a list of its ready rows in program order.
    ready: NodePool,
}

// The entries of the buffer of each resource.
fn bounds_of<M: Machine>(alloc: Global, machine: &M) -> Result<Vec<u32>, NoMemory>
    ensures size { IfOk result (λ v. length v.items ≡ (M.meaning machine.now).resource_count) }
    ensures each { IfOk result (λ v. (r : ℕ) → r < (M.meaning machine.now).resource_count
        → slice_index v.items r ≡ entries ((M.meaning machine.now).buffer r)) }
{
    let count = machine.resource_count();
    let mut bounds = Vec::with_capacity(alloc, count)?;
    for r in 0..count {
        bounds.push(entries_of(machine.buffer(r)))?;
    }
    Ok(bounds)
}

// The entries of a buffer; 0 where it counts none.
#[tactic(auto, unfolding(cycle_rules::specs::Row::entries))]
fn entries_of(buffer: i32) -> u32
    ensures { result ≡ entries buffer }
{
    if buffer < 0 { 0 } else { buffer as u32 }
}

// The lane of a row.
fn lane_of(lanes: &[u8], row: u32) -> usize
    requires { 0 < length lanes.now }
    ensures { result ≡ lane_of lanes.now row }
{
    lanes[row as usize % lanes.len()] as usize
}

// The lesser of two numbers, where there are any.
fn lesser(a: Option<u32>, b: Option<u32>) -> Option<u32>
    ensures { result ≡ lesser a b }
{
    match (a, b) {
        (Some(a), Some(b)) => Some(if b < a { b } else { a }),
        (Some(a), None) => Some(a),
        (None, b) => b,
    }
}

// The node of a ready row.
fn node_of(row: u32) -> Node
    ensures { result ≡ record { key = row; value = row } }
{
    Node {
        key: row as u64,
        value: row,
    }
}

// The first row of a list of number `from` or more.
fn first_in(pool: &NodePool, list: usize, from: u32) -> Option<u32>
    requires { list < length pool.now.lists }
    ensures { result ≡ option_map (λ x. x.value)
        (slice_get (list_of pool.now list) (before_key from (list_of pool.now list))) }
{
    match pool.first_at(list, from as u64) {
        None => None,
        Some(node) => Some(node.value),
    }
}

// The lesser of a row and the first one of a list of number `from` or more, if the lane of the list is
// in a set.
fn lesser_among(
    pool: &NodePool,
    lane: usize,
    from: u32,
    among: u64,
    least: Option<u32>,
) -> Option<u32>
    requires list { lane < length pool.now.lists }
    requires few { lane < 64 }
    ensures { result ≡ (if in_word among lane
        then lesser least (option_map (λ x. x.value)
        (slice_get (list_of pool.now lane) (before_key from (list_of pool.now lane))))
        else least) }
{
    if !among.has(lane) {
        return least;
    }
    lesser(least, first_in(pool, lane, from))
}

impl Queues {
    ghost use Rattle.issue_queues.specs.Queues.{StandsFor, IsNaming, lanes_in, named};

    /// The queues of a machine, in which no row waits. All rows are of one lane.
    ///
    /// # Errors
    ///
    /// Want of memory.
    pub fn make<M: Machine>(alloc: Global, machine: &M) -> Result<Queues, NoMemory>
        ensures stands { IfOk result (λ q. StandsFor (M.meaning machine.now) q []) }
        ensures lanes { IfOk result (λ q. lanes_in q ≡ 0 ∷ []) }
    {
        Queues::make_in_lanes(alloc, machine, &[0], 1)
    }

    /// The queues of a machine, in which no row waits. `lanes` has the lane of each place of the body, at
    /// least one, and `count` is how many lanes there are, at most 64.
    ///
    /// # Errors
    ///
    /// Want of memory.
    pub fn make_in_lanes<M: Machine>(
        alloc: Global,
        machine: &M,
        lanes: &[u8],
        count: usize,
    ) -> Result<Queues, NoMemory>
        requires body { 0 < length lanes.now }
        requires few { count ≤ 64 }
        requires within { (i : ℕ) → i < length lanes.now → slice_index lanes.now i < count }
        ensures stands { IfOk result (λ q. StandsFor (M.meaning machine.now) q []) }
        ensures lanes { IfOk result (λ q. lanes_in q ≡ lanes.now) }
    {
        Ok(Queues {
            bounds: bounds_of(alloc, machine)?,
            held: vec![in alloc; 0u32; machine.resource_count()]?,
            lanes: lanes.to_vec(alloc)?,
            count,
            // No more rows wait than the reorder buffer has entries, and each has one node at most.
            ready: NodePool::make(alloc, machine.limits().reorder as usize, count)?,
        })
    }

    /// Whether the buffer of each resource that an instruction names has an entry free; a resource
    /// whose buffer counts no entries always has. It costs a look at each use.
    pub fn has_entry(&self, b: &Bound) -> bool
        requires { (m : MachineMeaning) × (rows : List Waiting) × StandsFor m self.now rows
            × IsNaming m b.now }
        ensures { (m : MachineMeaning) (rows : List Waiting) → StandsFor m self.now rows
            → IsNaming m b.now → result ≡ has_entries m rows (named b.now) }
    {
        have_room(&self.bounds, &self.held, uses_of(b))
    }

    /// A row dispatches and begins to wait, above all that wait. There must be an entry free for it
    /// (`has_entry`), and fewer rows that wait than the reorder buffer has entries. It costs a look at
    /// each pair of uses, of which there are at most eight.
    pub fn enter(&mut self, row: u32, b: &Bound, ready: bool)
        requires { (m : MachineMeaning) × (rows : List Waiting) × StandsFor m self.old rows
            × IsNaming m b.now × (has_entries m rows (named b.now) ≡ true)
            × (length rows < m.limits.reorder) × (are_below row rows ≡ true) }
        ensures stands { (m : MachineMeaning) (rows : List Waiting) → StandsFor m self.old rows
            → IsNaming m b.now → length rows < m.limits.reorder
            → are_below row rows ≡ true → StandsFor m self.new
            (rows ++ record { row = row; uses = named b.now; ready = ready } ∷ []) }
        ensures lanes { lanes_in self.new ≡ lanes_in self.old }
    {
        take_entries(&mut self.held, uses_of(b));
        if ready {
            self.ready
                .push_back(lane_of(&self.lanes, row), node_of(row));
        }
    }

    /// The oldest ready row of number `from` or more, or `None`, exactly where there is none. In each lane
    /// the ready rows below `from` are walked over.
    pub fn ready(&self, from: u32) -> Option<u32>
        requires { (m : MachineMeaning) × (rows : List Waiting) × StandsFor m self.now rows }
        ensures { (m : MachineMeaning) (rows : List Waiting) → StandsFor m self.now rows
            → result ≡ ready_from from rows }
    {
        let mut least = None;
        for lane in 0..self.count {
            least = lesser(least, first_in(&self.ready, lane, from));
        }
        least
    }

    /// The oldest ready row of number `from` or more in the lanes of a set, or `None`, exactly where there
    /// is none. In each of these lanes the ready rows below `from` are walked over, and no row of another
    /// lane is looked at.
    ///
    /// Where the rows of a lane have one list of uses, of one unit, and one of them was refused a unit in
    /// a phase of a cycle, all of them are for the rest of the phase, since units are only taken in it. So
    /// the lane is left out until the phase is over, and the phase costs no visit of each ready row.
    pub fn ready_among(&self, from: u32, among: u64) -> Option<u32>
        requires { (m : MachineMeaning) × (rows : List Waiting) × StandsFor m self.now rows }
        ensures { (m : MachineMeaning) (rows : List Waiting) → StandsFor m self.now rows
            → result ≡ ready_among from (in_word among) (lanes_in self.now) rows }
    {
        let mut least = None;
        for lane in 0..self.count {
            least = lesser_among(&self.ready, lane, from, among, least);
        }
        least
    }

    /// A row that waits becomes ready, or stays so. It is looked for among the ready rows of its lane, oldest
    /// first; one that is younger than all of them is put in its place at once.
    pub fn wake(&mut self, row: u32)
        requires { (m : MachineMeaning) × (rows : List Waiting) × StandsFor m self.old rows
            × (is_in row rows ≡ true) }
        ensures stands { (m : MachineMeaning) (rows : List Waiting) → StandsFor m self.old rows
            → is_in row rows ≡ true → StandsFor m self.new (with_ready row rows) }
        ensures lanes { lanes_in self.new ≡ lanes_in self.old }
    {
        let lane = lane_of(&self.lanes, row);
        if first_in(&self.ready, lane, row) != Some(row) {
            self.ready.insert_sorted(lane, node_of(row));
        }
    }

    /// A row that waits issues, and waits no more: its entries are free. `b` is the instruction with which
    /// it entered. The ready rows of its lane that are older are walked over.
    pub fn leave(&mut self, row: u32, b: &Bound)
        requires { (m : MachineMeaning) × (rows : List Waiting) × (i : ℕ) × StandsFor m self.old rows
            × IsNaming m b.now × IsIn row (named b.now) rows i }
        ensures stands { (m : MachineMeaning) (rows : List Waiting) (i : ℕ) → StandsFor m self.old rows
            → IsNaming m b.now → IsIn row (named b.now) rows i
            → StandsFor m self.new (without row rows) }
        ensures lanes { lanes_in self.new ≡ lanes_in self.old }
    {
        free_entries(&mut self.held, uses_of(b));
        self.ready.remove(lane_of(&self.lanes, row), row);
    }
}
