//! What is judged: the rows of a run, and the times that are given of them.
ghost use Rattle.std.specs.Prelude.{◌≡◌, ◌<◌, ◌≤◌, length};
ghost use Rattle.cycle_rules.specs.Bind.{row_of};
ghost use Rattle.cycle_rules.specs.Row.{phase};
ghost use Rattle.mca_fixed.specs.declared.limits.TheConstants.{MOST_ROWS};

use crate::bound::Bound;
use crate::times::Times;
use machine_model::Use;

/// A step that a row takes in the least cycle that the rules allow.
#[derive(Clone, Copy, Debug)]
pub(crate) enum Step {
    ToDispatch,
    ToIssue,
    ToRetire,
}

/// From where a row looks: a cycle, a phase of it (0 rows retire, 1 rows issue, 2 rows dispatch), and
/// the row.
#[derive(Clone, Copy, Debug)]
pub(crate) struct Moment {
    pub(crate) cycle: u64,
    pub(crate) phase: u8,
    pub(crate) row: usize,
}

/// A body, how many rows are run of it, and the rows that are given.
#[derive(Drop)]
pub(crate) struct Given<'a> {
    pub(crate) body: &'a [Bound],
    pub(crate) rows: &'a [Times],
    pub(crate) count: usize,
    pub(crate) ghost some: { 0 < length body.now },
    pub(crate) ghost few: { count ≤ MOST_ROWS },
}

impl<'a> Given<'a> {
    ghost use Rattle.std.specs.Prelude.{◌≡◌, ◌<◌, ◌≤◌, ℕ, length, min, nat_lt};
    ghost use Rattle.machine_model.specs.Meaning.{MachineMeaning};
    ghost use Rattle.cycle_rules.specs.Bind.{row_of, AreBound, IsBound};
    ghost use Rattle.cycle_rules.specs.Dispatch.{is_held};
    ghost use Rattle.cycle_rules.specs.Given.{row_in, input_in, size_in, issue_key};
    ghost use Rattle.cycle_rules.specs.Row.{times};
    ghost use Rattle.cycle_rules.specs.Seen.{comes_before, has_issued};

    /// The bound instruction that a row is.
    pub(crate) fn row(&self, k: usize) -> &Bound
        ensures row { row_of result.now ≡ row_in self.now.body.now k }
        ensures bound { (m : MachineMeaning) → AreBound m self.now.body.now →
            IsBound m result.now }
    {
        &self.body[k % self.body.len()]
    }

    /// The times that are given of a row.
    pub(crate) fn time(&self, k: usize) -> &Times
        requires { k < length self.now.rows.now }
        ensures { result.now ≡ times self.now.rows.now k }
    {
        &self.rows[k]
    }

    /// The micro-ops of a row that count.
    pub(crate) fn uops(&self, reorder: u32, k: usize) -> u32
        ensures { result ≡ size_in self.now.body.now reorder k }
    {
        (self.row(k).uops as u32).min(reorder)
    }

    /// Whether a row holds its entries in cycle `c`: it has not retired.
    pub(crate) fn is_held(&self, k: usize, c: u64) -> bool
        requires { k < length self.now.rows.now }
        ensures { result ≡ is_held (times self.now.rows.now) c k }
    {
        c < self.time(k).retire
    }

    /// How many of the rows that are run are given.
    pub(crate) fn known(&self) -> usize
        ensures { result ≡ min self.now.count (length self.now.rows.now) }
    {
        self.count.min(self.rows.len())
    }

    /// Whether a row issues before another one.
    pub(crate) fn issues_before(&self, a: usize, b: usize) -> bool
        requires first { a < length self.now.rows.now }
        requires second { b < length self.now.rows.now }
        ensures { result ≡ comes_before (issue_key (row_in self.now.body.now)
            (times self.now.rows.now) a) (issue_key (row_in self.now.body.now)
            (times self.now.rows.now) b) }
    {
        let issue = self.time(a).issue;
        let other = self.time(b).issue;
        if issue != other {
            return issue < other;
        }
        let phase = phase_of(self.row(a));
        let last = phase_of(self.row(b));
        if phase != last {
            return phase < last;
        }
        a < b
    }

    /// Whether a row has issued before another looks.
    pub(crate) fn has_issued(&self, at: Moment, k: usize) -> bool
        requires run { k < self.now.count }
        requires given { k < length self.now.rows.now }
        ensures { (m : MachineMeaning) → result ≡ has_issued
            (input_in m self.now.body.now self.now.count) (times self.now.rows.now) k
            at.cycle at.phase at.row }
    {
        let issue = self.time(k).issue;
        if issue != at.cycle {
            return issue < at.cycle;
        }
        let phase = phase_of(self.row(k));
        if phase != at.phase {
            return phase < at.phase;
        }
        k < at.row
    }
}

/// The phase in which a row issues.
#[tactic(auto, unfolding(crate::specs::Row::phase))]
pub(crate) fn phase_of(row: &Bound) -> u8
    ensures { result ≡ phase (row_of row.now) }
{
    if row.reserved { 2 } else { 1 }
}

/// The uses of a row, in use order.
pub(crate) fn used_by(row: &Bound) -> &[Use]
    ensures { result.now ≡ (row_of row.now).uses }
{
    let count = (row.use_count as usize).min(8);
    &row.uses[..count]
}
