//! The latest cycles of the rows so far, by kind: in the order of memory a row waits for them.
ghost use Rattle.std.specs.Prelude.{◌≡◌, ◌+◌, ℕ, Bool, max, if◌then◌else◌};
ghost use Rattle.cycle_rules.specs.Row.{Input, Table};
ghost use Rattle.cycle_rules.specs.CycleBound.{max_below};
ghost use Rattle.cycle_rules.specs.WaitTimes.{seen_from, by_phase, pass_time};
ghost use Rattle.mca_views.specs.Past.{IsLatest};

use machine_model::Kind;

/// In cycles; 0 where there is no such row.
#[derive(Clone, Copy, Debug)]
pub(crate) struct Latest {
    /// The latest completion of a barrier, of a store and of a load.
    barriers: u64,
    stores: u64,
    loads: u64,
    /// The latest issue of a store, of a load, and of a load behind which a store or a barrier is.
    issued_stores: u64,
    issued_loads: u64,
    fenced_loads: u64,
}

impl Latest {
    /// Before the first row.
    pub(crate) fn none() -> Latest
        ensures { (g : Input) (t : Table) (reserved : Bool) → IsLatest g t reserved 0 result }
    {
        Latest {
            barriers: 0,
            stores: 0,
            loads: 0,
            issued_stores: 0,
            issued_loads: 0,
            fenced_loads: 0,
        }
    }

    /// After one more row of a kind, by the cycles from which it has issued and has completed.
    pub(crate) fn after(self, kind: Kind, issued: u64, completed: u64) -> Latest
        ensures { (g : Input) (t : Table) (reserved : Bool) (j : ℕ) → IsLatest g t reserved j self →
            kind ≡ (g.row j).kind → issued ≡ seen_from g t reserved j →
            completed ≡ max (seen_from g t reserved j) (t j).complete →
            IsLatest g t reserved (j + 1) result }
    {
        match kind {
            Kind::Plain => self,
            Kind::Load => Latest {
                barriers: self.barriers,
                stores: self.stores,
                loads: self.loads.max(completed),
                issued_stores: self.issued_stores,
                issued_loads: self.issued_loads.max(issued),
                fenced_loads: self.fenced_loads,
            },
            Kind::Store => Latest {
                barriers: self.barriers,
                stores: self.stores.max(completed),
                loads: self.loads,
                issued_stores: self.issued_stores.max(issued),
                issued_loads: self.issued_loads,
                fenced_loads: self.issued_loads,
            },
            Kind::Barrier => Latest {
                barriers: self.barriers.max(completed),
                stores: self.stores,
                loads: self.loads,
                issued_stores: self.issued_stores,
                issued_loads: self.issued_loads,
                fenced_loads: self.issued_loads,
            },
        }
    }

    /// The first cycle in which they let a row of a kind go; 0 where it need not wait. Where loads
    /// may pass stores, a load waits for no store.
    pub(crate) fn lets_go(&self, kind: Kind, may_pass: bool) -> u64
        ensures { (g : Input) (t : Table) (j : ℕ) → IsLatest g t (g.row j).reserved j self.now →
            kind ≡ (g.row j).kind → may_pass ≡ g.machine.limits.no_alias →
            result ≡ max_below j (pass_time g t (by_phase g t j) j) }
    {
        match kind {
            Kind::Plain => 0,
            Kind::Load => self
                .barriers
                .max(self.fenced_loads.max(self.passed(may_pass))),
            Kind::Store => self.barriers.max(self.issued_loads.max(self.issued_stores)),
            Kind::Barrier => self.barriers.max(self.loads.max(self.stores)),
        }
    }

    /// The stores that a load waits for.
    fn passed(&self, may_pass: bool) -> u64
        ensures { result ≡ (if may_pass then 0 else self.now.stores) }
    {
        if may_pass { 0 } else { self.stores }
    }
}
