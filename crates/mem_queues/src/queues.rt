//! The load queue and the store queue, with the barriers between them.
ghost use Rattle.std.specs.Prelude.{◌≡◌, ℕ, ◌+◌, ◌<◌, ◌≤◌, List, [], ◌∷◌, ◌++◌, length, drop, Bool, true, false, ◌&&◌, nat_le, IfOk};
ghost use Rattle.machine_model.specs.declared.limits.Limits.{Limits as LimitsOf};
ghost use Rattle.cycle_rules.specs.Dispatch.{has_room};
ghost use Rattle.mem_queues.specs.Firsts.{goes_by};
ghost use Rattle.mem_queues.specs.Order.{MemRow, has_place, is_plain, may_go, kind_of, with_issue, are_below, waits, retires_as};

use crate::firsts::{fenced_first, is_done, is_free, starts_at, starts_below};
use machine_model::Limits;
use mca_fixed::NoMemory;
use node_pool::{Node, NodePool};
use rv_isa::Kind;
use std::alloc::Global;

// The lists: loads, stores and barriers that have not issued, and all loads and all stores that have not
// retired. Each is in program order.
const WAITING_LOADS: usize = 0;

const WAITING_STORES: usize = 1;

const WAITING_BARRIERS: usize = 2;

const LOADS: usize = 3;

const STORES: usize = 4;

/// The rows that load, store or fence and have not retired.
///
/// Contracts see a list of them, oldest first, each with its kind, whether it has issued and when it
/// completes, and the cycle of the last retirement (`StandsFor`): each answer is told for every list that
/// the queues stand for, and after a change they stand for the changed form of every such list. No call
/// but `make` takes memory, and none but `make` can fail. Every cycle that is given is below 2^42, and no
/// less than that of the last retirement.
///
/// What a call costs does not grow with the number of rows, but for the places where it says so.
#[derive(Drop)]
pub struct MemQueues {
    limits: Limits,
    // How many of the rows load, and how many store.
    loads: u32,
    stores: u32,
    // The last completion of loads, of stores and of barriers that have issued, retired ones among them.
    load_done: u64,
    store_done: u64,
    barrier_done: u64,
    rows: NodePool,
}

// A bound, of which 0 means none, leaves room for one more.
#[tactic(auto, unfolding(cycle_rules::specs::Dispatch::has_room))]
fn has_room(bound: u32, held: u32) -> bool
    ensures { result ≡ has_room bound held }
{
    bound == 0 || held < bound
}

// The node of a row.
fn node_of(row: u32) -> Node
    ensures { result ≡ record { key = row; value = row } }
{
    Node {
        key: row as u64,
        value: row,
    }
}

// The later of two cycles.
fn last(a: u64, b: u64) -> u64
    ensures { (c : ℕ) → nat_le result c ≡ (nat_le a c && nat_le b c) }
{
    if a < b { b } else { a }
}

// A row of a kind that comes next may issue, by what is told of those that are in.
fn goes_by(
    kind: Kind,
    no_alias: bool,
    barriers: bool,
    loads: bool,
    stores: bool,
    load_waits: bool,
    store_waits: bool,
    fenced: bool,
) -> bool
    ensures { result ≡ goes_by kind no_alias barriers loads stores load_waits store_waits fenced }
{
    match kind {
        Kind::Plain => true,
        Kind::Load => barriers && (no_alias || stores) && !fenced,
        Kind::Store => barriers && !load_waits && !store_waits,
        Kind::Barrier => barriers && loads && stores,
    }
}

impl MemQueues {
    ghost use Rattle.mem_queues.specs.Queues.{StandsFor};

    /// The queues of a machine with these limits, which are empty.
    ///
    /// # Errors
    ///
    /// Want of memory.
    pub fn make(alloc: Global, limits: &Limits) -> Result<MemQueues, NoMemory>
        ensures { IfOk result (λ q. StandsFor limits.now q 0 []) }
    {
        Ok(MemQueues {
            limits: *limits,
            loads: 0,
            stores: 0,
            load_done: 0,
            store_done: 0,
            barrier_done: 0,
            // No more rows are in flight than the reorder buffer has entries, and each stands in two lists
            // at most.
            rows: NodePool::make(alloc, 2 * limits.reorder as usize, 5)?,
        })
    }

    /// Whether the queue of a kind has room: a load or a store needs one entry of its own queue, where the
    /// queue has a bound; nothing else needs any.
    pub fn has_room(&self, kind: Kind) -> bool
        ensures { (limits : LimitsOf) (since : ℕ) (rows : List MemRow)
            → StandsFor limits self.now since rows → result ≡ has_place limits rows kind }
    {
        match kind {
            Kind::Load => has_room(self.limits.loads, self.loads),
            Kind::Store => has_room(self.limits.stores, self.stores),
            Kind::Barrier | Kind::Plain => true,
        }
    }

    /// A load, a store or a barrier dispatches and enters as the youngest. Its queue must have room
    /// (`has_room`), and fewer rows be in than the reorder buffer has entries.
    pub fn enter(&mut self, row: u32, kind: Kind)
        requires { (limits : LimitsOf) × (since : ℕ) × (rows : List MemRow)
            × StandsFor limits self.old since rows × (has_place limits rows kind ≡ true)
            × (is_plain kind ≡ false) × (length rows < limits.reorder)
            × (are_below row rows ≡ true) }
        ensures { (limits : LimitsOf) (since : ℕ) (rows : List MemRow)
            → StandsFor limits self.old since rows → is_plain kind ≡ false
            → length rows < limits.reorder → are_below row rows ≡ true
            → StandsFor limits self.new since
            (rows ++ record { row = row; kind = kind; issued = false; complete = 0 } ∷ []) }
    {
        match kind {
            Kind::Load => {
                self.loads += 1;
                self.rows.push_back(WAITING_LOADS, node_of(row));
                self.rows.push_back(LOADS, node_of(row));
            }
            Kind::Store => {
                self.stores += 1;
                self.rows.push_back(WAITING_STORES, node_of(row));
                self.rows.push_back(STORES, node_of(row));
            }
            Kind::Barrier => self.rows.push_back(WAITING_BARRIERS, node_of(row)),
            Kind::Plain => {}
        }
    }

    /// Whether a row that is in and has not issued may issue in cycle `c`, as far as the order of memory is
    /// concerned. For a load behind one that has not issued, the stores that have not issued and are older
    /// than that one are walked over; nothing else is.
    pub fn may_issue(&self, row: u32, c: u64) -> bool
        requires { (limits : LimitsOf) × (since : ℕ) × (rows : List MemRow)
            × StandsFor limits self.now since rows }
        ensures { (limits : LimitsOf) (since : ℕ) (rows : List MemRow)
            → StandsFor limits self.now since rows → since ≤ c → waits row rows ≡ true
            → result ≡ may_go (kind_of row rows) limits.no_alias row c rows }
    {
        if !is_done(&self.rows, WAITING_BARRIERS, self.barrier_done, row, c) {
            return false;
        }
        if starts_at(&self.rows, WAITING_BARRIERS, row) {
            return is_done(&self.rows, WAITING_LOADS, self.load_done, row, c)
                && is_done(&self.rows, WAITING_STORES, self.store_done, row, c);
        }
        if starts_at(&self.rows, WAITING_STORES, row) {
            return !starts_below(&self.rows, WAITING_LOADS, row);
        }
        if !is_free(&self.rows, WAITING_LOADS, WAITING_STORES, row) {
            return false;
        }
        self.limits.no_alias || is_done(&self.rows, WAITING_STORES, self.store_done, row, c)
    }

    /// Whether a row of a kind that comes next, above all rows that are in, may issue in cycle `c`, as far as
    /// the order of memory is concerned: a row that issues as it dispatches is asked for before it is in.
    pub fn may_enter(&self, row: u32, kind: Kind, c: u64) -> bool
        requires { (limits : LimitsOf) × (since : ℕ) × (rows : List MemRow)
            × StandsFor limits self.now since rows }
        ensures { (limits : LimitsOf) (since : ℕ) (rows : List MemRow)
            → StandsFor limits self.now since rows → since ≤ c → are_below row rows ≡ true
            → result ≡ may_go kind limits.no_alias row c rows }
    {
        let barriers = is_done(&self.rows, WAITING_BARRIERS, self.barrier_done, row, c);
        let loads = is_done(&self.rows, WAITING_LOADS, self.load_done, row, c);
        let stores = is_done(&self.rows, WAITING_STORES, self.store_done, row, c);
        let load_waits = starts_below(&self.rows, WAITING_LOADS, row);
        let store_waits = starts_below(&self.rows, WAITING_STORES, row);
        let fenced = fenced_first(&self.rows, WAITING_LOADS, WAITING_STORES);
        goes_by(
            kind,
            self.limits.no_alias,
            barriers,
            loads,
            stores,
            load_waits,
            store_waits,
            fenced,
        )
    }

    /// A row that may issue in cycle `c` issues in it, and completes in cycle `w`. For a load, the loads that
    /// have not issued and are older are walked over.
    pub fn issued(&mut self, row: u32, c: u64, w: u64)
        requires { (limits : LimitsOf) × (since : ℕ) × (rows : List MemRow)
            × StandsFor limits self.old since rows × (since ≤ c) × (waits row rows ≡ true)
            × (may_go (kind_of row rows) limits.no_alias row c rows ≡ true) }
        ensures { (limits : LimitsOf) (since : ℕ) (rows : List MemRow)
            → StandsFor limits self.old since rows → since ≤ c → waits row rows ≡ true
            → may_go (kind_of row rows) limits.no_alias row c rows ≡ true
            → StandsFor limits self.new since (with_issue row w rows) }
    {
        if starts_at(&self.rows, WAITING_BARRIERS, row) {
            self.rows.pop_front(WAITING_BARRIERS);
            self.barrier_done = last(self.barrier_done, w);
        } else if starts_at(&self.rows, WAITING_STORES, row) {
            self.rows.pop_front(WAITING_STORES);
            self.store_done = last(self.store_done, w);
        } else {
            self.rows.remove(WAITING_LOADS, row);
            self.load_done = last(self.load_done, w);
        }
    }

    /// The oldest row, which completed before cycle `c`, retires in it.
    pub fn retired(&mut self, row: u32, c: u64)
        requires { (limits : LimitsOf) × (since : ℕ) × (rows : List MemRow)
            × StandsFor limits self.old since rows × (since ≤ c)
            × (retires_as row c rows ≡ true) }
        ensures { (limits : LimitsOf) (since : ℕ) (rows : List MemRow)
            → StandsFor limits self.old since rows → since ≤ c → retires_as row c rows ≡ true
            → StandsFor limits self.new c (drop 1 rows) }
    {
        if starts_at(&self.rows, LOADS, row) {
            self.rows.pop_front(LOADS);
            self.loads -= 1;
        } else if starts_at(&self.rows, STORES, row) {
            self.rows.pop_front(STORES);
            self.stores -= 1;
        }
    }
}
