//! How far the dispatch groups are filled.
ghost use Rattle.std.specs.Prelude.{◌≡◌, ◌<◌, ◌≤◌, ◌+◌, ◌-◌, ◌/◌, ◌^◌, ℕ, true, not, ◌&&◌, ◌||◌, nat_eq, nat_le, if◌then◌else◌};
ghost use Rattle.cycle_rules.specs.Row.{Input, Table, uops_of};
ghost use Rattle.cycle_rules.specs.Dispatch.{fits_group};
ghost use Rattle.machine_model.specs.Valid.{AreLimits};
ghost use Rattle.dep_graph.specs.Walk.{IsFilled};
ghost use Rattle.dep_graph.specs.declared.fill.TheConstants.{MOST_LEFT};

/// More micro-ops than are ever left of rows that have dispatched.
pub const MOST_LEFT: u64 = 65_536;

/// What is left, in a cycle, of the rows that have dispatched.
#[derive(Clone, Copy, Debug)]
pub struct Fill {
    /// Micro-ops that take part in this cycle or a later one.
    pub left: u64,
    /// Rows may join what is left.
    pub is_open: bool,
}

// How many micro-ops may be left where a row joins.
fn most_left(is_open: bool, width: u64, uops: u64, begins: bool) -> u64
    ensures { result ≡ (if is_open && not begins && nat_le uops width then width - uops else 0) }
{
    if !is_open {
        return 0;
    }
    if begins {
        return 0;
    }
    width.saturating_sub(uops)
}

// In how many cycles so many micro-ops dispatch. Mostly there are none, since a row finds place at
// once, or they all dispatch in one, and then no division is made: it is slow.
fn cycles_for(uops: u64, width: u64) -> u64
    requires width { 1 ≤ width }
    requires wide { width ≤ 64 }
    requires few { uops ≤ MOST_LEFT }
    ensures { result ≡ (uops + width - 1) / width }
{
    if uops == 0 {
        return 0;
    }
    if uops <= width {
        return 1;
    }
    (uops + width - 1) / width
}

// Whether rows may join what is left in a later cycle.
fn opens(is_open: bool, left: u64) -> bool
    ensures { result ≡ (is_open || nat_eq left 0) }
{
    is_open || left == 0
}

impl Fill {
    /// Before the first row.
    pub fn empty() -> Fill
        ensures { (g : Input) (t : Table) → IsFilled g t 0 0 result }
    {
        Fill {
            left: 0,
            is_open: true,
        }
    }

    /// The cycle from which on row j, of so many micro-ops, finds place in a group, as is seen from
    /// cycle `at` on.
    pub fn place_from(&self, at: u64, width: u32, uops: u32, begins: bool) -> u64
        requires width { 1 ≤ width }
        requires wide { width ≤ 64 }
        requires uops { 1 ≤ uops }
        requires few { self.now.left ≤ MOST_LEFT }
        requires early { at < 2 ^ 42 }
        ensures from { (g : Input) (t : Table) (j : ℕ) → IsFilled g t j at self.now →
            g.machine.limits.width ≡ width → uops_of g j ≡ uops →
            (g.row j).begins_group ≡ begins →
            (c : ℕ) → at ≤ c → fits_group g t j c ≡ nat_le result c }
    {
        let width = width as u64;
        let most = most_left(self.is_open, width, uops as u64, begins);
        let over = self.left.saturating_sub(most);
        at + cycles_for(over, width)
    }

    /// The same some cycles later.
    pub fn pass(&mut self, width: u32, cycles: u64)
        requires width { 1 ≤ width }
        requires wide { width ≤ 64 }
        requires early { cycles < 2 ^ 42 }
        ensures { (g : Input) (t : Table) (j a b : ℕ) → IsFilled g t j a self.old →
            g.machine.limits.width ≡ width → b ≡ a + cycles → IsFilled g t j b self.new }
    {
        self.left = self.left.saturating_sub(width as u64 * cycles);
        self.is_open = opens(self.is_open, self.left);
    }

    /// A row of so many micro-ops, which finds place, dispatches.
    pub fn join(&mut self, uops: u32, ends: bool)
        requires few { self.old.left ≤ MOST_LEFT }
        ensures { (g : Input) (t : Table) (j a : ℕ) → IsFilled g t j a self.old →
            AreLimits g.machine.limits → 1 ≤ uops → uops_of g j ≡ uops →
            (g.row j).ends_group ≡ ends →
            (t j).dispatch ≡ a → fits_group g t j a ≡ true → IsFilled g t (j + 1) a self.new }
    {
        self.left += uops as u64;
        self.is_open = !ends;
    }
}
