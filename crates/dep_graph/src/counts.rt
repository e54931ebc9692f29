//! Counts of stalls by what was lacking first.
ghost use Rattle.std.specs.Prelude.{◌≡◌, ◌<◌, ◌≤◌, ◌+◌, ◌-◌, ◌^◌, ℕ, max, if◌then◌else◌};
ghost use Rattle.dep_graph.specs.RowCounts.{AreOfRow, total, both, listed};

/// Cycles in which the next row to dispatch lacked this first.
#[derive(Clone, Copy, Debug)]
pub struct Counts {
    pub group: u64,
    pub reorder: u64,
    pub registers: u64,
    pub loads: u64,
    pub stores: u64,
    pub buffers: u64,
    pub reserved: u64,
}

/// From which cycle on the next row to dispatch has what it needs, and no longer lacks it.
#[derive(Clone, Copy, Debug)]
pub struct Marks {
    pub group: u64,
    pub reorder: u64,
    pub registers: u64,
    pub loads: u64,
    pub stores: u64,
}

// How far a mark moves to a later cycle.
fn rise(mark: &mut u64, from: u64) -> u64
    ensures mark { mark.new ≡ max mark.old from }
    ensures rise { result ≡ mark.new - mark.old }
{
    let old = *mark;
    *mark = old.max(from);
    *mark - old
}

impl Counts {
    /// No stalls.
    pub fn none() -> Counts
        ensures { result ≡ record {
          group = 0;
          reorder = 0;
          registers = 0;
          loads = 0;
          stores = 0;
          buffers = 0;
          reserved = 0;
        } }
    {
        Counts {
            group: 0,
            reorder: 0,
            registers: 0,
            loads: 0,
            stores: 0,
            buffers: 0,
            reserved: 0,
        }
    }

    /// The stalls of a row that was the next one from cycle `start` on and dispatched in cycle
    /// `end`: each lack counts from where those before it ended, and what is left is that of
    /// buffers, or of what a reserved row needs to issue.
    pub fn of_row(start: u64, from: &Marks, end: u64, reserved: bool) -> Counts
        requires start { start ≤ end }
        requires group { from.now.group ≤ end }
        requires reorder { from.now.reorder ≤ end }
        requires registers { from.now.registers ≤ end }
        requires loads { from.now.loads ≤ end }
        requires stores { from.now.stores ≤ end }
        ensures { AreOfRow start from.now end reserved result }
    {
        let mut mark = start;
        let group = rise(&mut mark, from.group);
        let reorder = rise(&mut mark, from.reorder);
        let registers = rise(&mut mark, from.registers);
        let loads = rise(&mut mark, from.loads);
        let stores = rise(&mut mark, from.stores);
        let rest = end - mark;
        Counts {
            group,
            reorder,
            registers,
            loads,
            stores,
            buffers: kept_if(!reserved, rest),
            reserved: kept_if(reserved, rest),
        }
    }

    /// Adds the stalls of a row.
    pub fn add(&mut self, row: &Counts)
        requires { total self.old + total row.now < 2 ^ 64 }
        ensures { self.new ≡ both self.old row.now }
    {
        self.group += row.group;
        self.reorder += row.reorder;
        self.registers += row.registers;
        self.loads += row.loads;
        self.stores += row.stores;
        self.buffers += row.buffers;
        self.reserved += row.reserved;
    }

    /// The counts in a row.
    pub fn listed(&self) -> [u64; 7]
        ensures { result ≡ listed self.now }
    {
        [
            self.group,
            self.reorder,
            self.registers,
            self.loads,
            self.stores,
            self.buffers,
            self.reserved,
        ]
    }
}

// A number, or 0.
fn kept_if(holds: bool, n: u64) -> u64
    ensures { result ≡ (if holds then n else 0) }
{
    if holds { n } else { 0 }
}
