//! When the rows of a run do what.
ghost use Rattle.std.specs.Prelude.{◌≡◌, ◌<◌, ◌-◌, ◌^◌, length};
ghost use Rattle.cycle_rules.specs.Row.{times};
ghost use Rattle.cycle_rules.specs.Run.{total_of};

use mca_fixed::Items;

/// How a unit is written where there is none.
pub const NO_UNIT: u16 = u16::MAX;

/// The cycles of one row, an instruction in one iteration, counted from 0.
#[derive(Clone, Copy, Debug, PartialEq, Eq)]
pub struct Times {
    /// The cycle in which it enters the reorder buffer.
    pub dispatch: u64,
    /// The cycle in which its execution begins.
    pub issue: u64,
    /// The cycle in which its result is there.
    pub complete: u64,
    /// The cycle in which it leaves the reorder buffer.
    pub retire: u64,
    /// The unit that each of its uses takes, in use order; `NO_UNIT` for none.
    pub units: [u16; 8],
}

/// The rows of a run, in program order.
#[derive(Debug, Drop)]
pub struct Timeline {
    /// One for each instruction and iteration, iteration by iteration.
    pub rows: Items<Times>,
}

impl Timeline {
    /// The cycles of the whole run: one more than the retirement of its last row.
    pub fn total(&self) -> u64
        requires some { 0 < length self.now.rows }
        requires fits { (times self.now.rows (length self.now.rows - 1)).retire < 2 ^ 64 - 1 }
        ensures { result ≡ total_of self.now.rows }
    {
        let rows = self.rows.as_slice();
        rows[rows.len() - 1].retire + 1
    }
}
