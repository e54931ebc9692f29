//! The rows of a run, as an engine asks for them.
ghost use Rattle.std.specs.Prelude.{◌≡◌, ℕ, ◌-◌, ◌<◌, ◌≤◌, ◌^◌, length, true, nat_eq};
ghost use Rattle.std.specs.List.{All, list_any};
ghost use Rattle.cycle_rules.specs.Bind.{row_of};
ghost use Rattle.cycle_rules.specs.Issue.{has_operands};
ghost use Rattle.cycle_rules.specs.Row.{Input, times, uops_of};
ghost use Rattle.event_rules.specs.Due.{ready_from};
ghost use Rattle.event_rules.specs.Skip.{is_read_from};
ghost use Rattle.mca_fixed.specs.declared.limits.TheConstants.{MOST_ROWS};
ghost use Rattle.issue_queues.specs.Queues.{IsNaming};
ghost use Rattle.engine_state.specs.State.{never, now, recorded, IsWritten};

use cycle_rules::{Bound, Times};

/// The rows of a run: a body, repeated iteration by iteration, on a machine.
pub trait Rows {
    ghost input: { Self → Input };

    /// How many rows there are.
    fn count(&self) -> usize
        ensures { result ≡ (input self.now).rows };

    /// How many rows retire in a cycle; 0 for no bound.
    fn retire_width(&self) -> u32
        ensures { result ≡ (input self.now).machine.limits.retire };

    /// The bound instruction that a row is.
    fn instruction(&self, j: usize) -> &Bound
        requires { j < (input self.now).rows }
        ensures row { row_of result.now ≡ (input self.now).row j }
        ensures names { IsNaming (input self.now).machine result.now };

    /// The micro-ops of a row that count: no more than the reorder buffer holds.
    fn uops(&self, j: usize) -> u16
        requires { j < (input self.now).rows }
        ensures { result ≡ uops_of (input self.now) j };

    /// Whether the values that a row reads are there in a cycle, by the table of what is recorded.
    fn has_operands(&self, table: &[Times], j: usize, c: u64) -> bool
        requires row { j < (input self.now).rows }
        requires size { length table.now ≡ (input self.now).rows }
        requires kept { (k : ℕ) → k < (input self.now).rows →
            IsWritten ((input self.now).row k) (times table.now k) }
        ensures { result ≡ has_operands (input self.now) (now (input self.now) c table.now) j c };

    /// The first cycle in which the values that a row reads are there, by the table of what is recorded; or
    /// `None` where a row that writes one of them has not issued.
    fn ready_from(&self, table: &[Times], j: usize) -> Option<u64>
        requires row { j < (input self.now).rows }
        requires size { length table.now ≡ (input self.now).rows }
        requires kept { (k : ℕ) → k < (input self.now).rows →
            IsWritten ((input self.now).row k) (times table.now k) }
        requires low { (k : ℕ) → k < (input self.now).rows →
            ((times table.now k).issue ≡ never → ⊥) → (times table.now k).issue < 2 ^ 42 }
        ensures { result ≡ ready_from (input self.now) (recorded (input self.now) table.now) j };

    /// How many rows later those rows stand that read what a row writes, 1 to `MOST_ROWS` rows.
    /// There may be other rows among them, also past the last one, and a row that reads twice may
    /// stand there twice.
    fn readers(&self, j: usize) -> &[u32]
        requires { j < (input self.now).rows }
        ensures all { (k : ℕ) → j < k → k < (input self.now).rows →
            is_read_from (input self.now) k j ≡ true → list_any (nat_eq (k - j)) result.now ≡ true }
        ensures later { All (λ d. 1 ≤ d) result.now }
        ensures near { All (λ d. d ≤ MOST_ROWS) result.now };
}
