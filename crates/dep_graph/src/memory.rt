//! From which cycle on the older rows let a row go, by the order of memory.
ghost use Rattle.std.specs.Prelude.{◌≡◌, ◌<◌, ◌+◌, ℕ, true, ◌||◌, if◌then◌else◌};
ghost use Rattle.rv_isa.specs.declared.facts.Kind.TheVariants.{Load, Store, Barrier};
ghost use Rattle.cycle_rules.specs.Row.{Input, Table, is_store, is_barrier};
ghost use Rattle.dep_graph.specs.PassTimes.{let_go, pass_time};
ghost use Rattle.dep_graph.specs.Peaks.{IsPeak, AreFences};

use crate::peak::Peak;
use rv_isa::Kind;

/// From which cycle on the rows that have gone by let the next one go.
#[derive(Clone, Copy, Debug)]
pub struct Fences {
    /// A load behind a store or a barrier that comes after all of them.
    pub fenced: Peak,
    /// A load.
    pub load: Peak,
    /// A store.
    pub store: Peak,
    /// A barrier.
    pub barrier: Peak,
}

// From which cycle on a row of a kind lets a load go that it is fenced off from.
fn lets_load(kind: Kind, no_alias: bool, issue: u64, complete: u64) -> u64
    ensures { result ≡ let_go Load kind no_alias true issue complete }
{
    match kind {
        Kind::Plain => 0,
        Kind::Load => issue,
        Kind::Store => { if no_alias { 0 } else { complete } }
        Kind::Barrier => complete,
    }
}

// From which cycle on a row of a kind lets a store go.
fn lets_store(kind: Kind, no_alias: bool, issue: u64, complete: u64) -> u64
    ensures { result ≡ let_go Store kind no_alias true issue complete }
{
    match kind {
        Kind::Plain => 0,
        Kind::Load | Kind::Store => issue,
        Kind::Barrier => complete,
    }
}

// From which cycle on a row of a kind lets a barrier go.
fn lets_barrier(kind: Kind, no_alias: bool, issue: u64, complete: u64) -> u64
    ensures { result ≡ let_go Barrier kind no_alias true issue complete }
{
    match kind {
        Kind::Plain => 0,
        Kind::Load | Kind::Store | Kind::Barrier => complete,
    }
}

// Whether a row of a kind fences younger loads off from older ones.
#[tactic(auto, unfolding(cycle_rules::specs::Row::is_store, cycle_rules::specs::Row::is_barrier))]
fn is_fence(kind: Kind) -> bool
    ensures { result ≡ (is_store kind || is_barrier kind) }
{
    match kind {
        Kind::Plain | Kind::Load => false,
        Kind::Store | Kind::Barrier => true,
    }
}

impl Fences {
    /// Before the first row.
    pub fn none() -> Fences
        ensures { (g : Input) (t : Table) → AreFences g t 0 result }
    {
        Fences {
            fenced: Peak::none(),
            load: Peak::none(),
            store: Peak::none(),
            barrier: Peak::none(),
        }
    }

    /// From which cycle on the rows that have gone by let row j of a kind go, and the first of them
    /// that does not before.
    pub fn of_kind(&self, kind: Kind) -> Peak
        ensures { (g : Input) (t : Table) (j : ℕ) → (g.row j).kind ≡ kind →
            AreFences g t j self.now → IsPeak (pass_time g t j) j result }
    {
        match kind {
            Kind::Plain => Peak::none(),
            Kind::Load => self.load,
            Kind::Store => self.store,
            Kind::Barrier => self.barrier,
        }
    }

    /// Lets a row go by.
    pub fn pass(&mut self, row: u32, kind: Kind, no_alias: bool, issue: u64, complete: u64)
        ensures { (g : Input) (t : Table) → (g.row row).kind ≡ kind →
            g.machine.limits.no_alias ≡ no_alias → (t row).issue ≡ issue →
            (t row).complete ≡ complete → AreFences g t row self.old →
            AreFences g t (row + 1) self.new }
    {
        // Most rows do nothing with memory, and hold nothing back.
        if let Kind::Plain = kind {
            return;
        }
        self.fenced
            .raise(lets_load(kind, no_alias, issue, complete), row);
        self.store
            .raise(lets_store(kind, no_alias, issue, complete), row);
        self.barrier
            .raise(lets_barrier(kind, no_alias, issue, complete), row);
        self.load = later(is_fence(kind), self.fenced, self.load);
    }
}

// The one of two that holds.
fn later(is_fence: bool, fenced: Peak, load: Peak) -> Peak
    ensures { result ≡ (if is_fence then fenced else load) }
{
    if is_fence { fenced } else { load }
}
