//! The micro-ops that dispatch in one cycle: no more than the dispatch width.
ghost use Rattle.std.specs.Prelude.{◌≡◌, ◌<◌, ◌≤◌, ◌+◌, ◌^◌, min, List, [], ◌∷◌, ◌++◌, true, false, not, ◌&&◌, ◌||◌, nat_lt, nat_le, nat_eq};

/// The dispatch group of the present cycle. Contracts see the rows that have dispatched, with their
/// cycles (`StandsFor`), the width (`width_of`) and the present cycle (`cycle_of`).
#[derive(Clone, Copy, Debug, PartialEq, Eq)]
pub struct Group {
    /// Micro-ops a cycle, 1 to 64.
    width: u32,
    /// The present cycle, below 2^42.
    cycle: u64,
    /// Micro-ops that take part in this cycle or a later one.
    left: u64,
    /// No row that ends its group takes part in this cycle.
    is_open: bool,
    ghost low: { 1 ≤ width },
    ghost high: { width ≤ 64 },
    ghost few: { left < 2 ^ 16 },
    ghost early: { cycle < 2 ^ 42 },
}

impl Group {
    ghost use Rattle.dispatch_unit.specs.Group.{Dispatched, has_place, IsNextFall};
    ghost use Rattle.dispatch_unit.specs.Kept.{StandsFor, width_of, cycle_of};

    /// An empty group in cycle 0, of `width` micro-ops a cycle, 1 to 64.
    pub fn make(width: u32) -> Group
        requires low { 1 ≤ width }
        requires high { width ≤ 64 }
        ensures empty { StandsFor result [] }
        ensures width { width_of result ≡ width }
        ensures cycle { cycle_of result ≡ 0 }
    {
        Group {
            width,
            cycle: 0,
            left: 0,
            is_open: true,
        }
    }

    /// Whether the group of the present cycle has place for a row of `uops` micro-ops, which begins its
    /// group or does not. The work is constant.
    pub fn room(&self, uops: u16, begins: bool) -> bool
        ensures { (rows : List Dispatched) → StandsFor self.now rows →
            result ≡ has_place (width_of self.now) (cycle_of self.now) rows uops begins }
    {
        let width = self.width as u64;
        joins(
            self.left.min(width),
            width,
            self.is_open,
            uops as u64,
            begins,
        )
    }

    /// A row of `uops` micro-ops dispatches in the present cycle, which has place for it, and ends its
    /// group or does not. The work is constant.
    pub fn place(&mut self, uops: u16, ends: bool)
        requires { (rows : List Dispatched) × (StandsFor self.old rows)
            × (has_place (width_of self.old) (cycle_of self.old) rows uops false ≡ true) }
        ensures stands { (rows : List Dispatched) → StandsFor self.old rows → StandsFor self.new
            (rows ++ record { uops = uops; from = cycle_of self.old; ends = ends } ∷ []) }
        ensures width { width_of self.new ≡ width_of self.old }
        ensures cycle { cycle_of self.new ≡ cycle_of self.old }
    {
        self.left += uops as u64;
        self.is_open = stays_open(self.is_open, uops, ends);
    }

    /// Cycle `c`, above the present one and below 2^42, becomes the present one. The work is constant,
    /// however many cycles are passed over.
    pub fn next_cycle(&mut self, c: u64)
        requires later { cycle_of self.old < c }
        requires early { c < 2 ^ 42 }
        ensures stands { (rows : List Dispatched) → StandsFor self.old rows →
            StandsFor self.new rows }
        ensures width { width_of self.new ≡ width_of self.old }
        ensures cycle { cycle_of self.new ≡ c }
    {
        let through = self.width as u64 * (c - self.cycle);
        let left = self.left.saturating_sub(through);
        self.is_open = opens(self.is_open, left);
        self.left = left;
        self.cycle = c;
    }

    /// The next cycle in which the share of a row falls; none exactly where no row has a share. The work
    /// is constant.
    pub fn changes_at(&self) -> Option<u64>
        ensures { (rows : List Dispatched) → StandsFor self.now rows →
            IsNextFall (width_of self.now) (cycle_of self.now) rows result }
    {
        if self.left == 0 {
            return None;
        }
        let cycles = (self.left / self.width as u64).max(1);
        Some(self.cycle + cycles)
    }
}

/// Whether a row joins what is taken of a width.
fn joins(taken: u64, width: u64, is_open: bool, uops: u64, begins: bool) -> bool
    requires taken { taken ≤ width }
    requires width { width ≤ 64 }
    ensures { result ≡ (nat_le (taken + min uops width) width
        && (not (begins || nat_lt width uops) || nat_eq taken 0) && is_open) }
{
    taken + uops.min(width) <= width && (!(begins || width < uops) || taken == 0) && is_open
}

/// Whether a group is open after a row has joined it: a row without micro-ops ends nothing.
fn stays_open(is_open: bool, uops: u16, ends: bool) -> bool
    ensures { result ≡ (is_open && (not ends || nat_eq uops 0)) }
{
    is_open && (!ends || uops == 0)
}

/// Whether a group is open in a later cycle, for which so many micro-ops are left.
fn opens(is_open: bool, left: u64) -> bool
    ensures { result ≡ (is_open || nat_eq left 0) }
{
    is_open || left == 0
}
