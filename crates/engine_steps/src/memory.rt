//! The memory queues as rows come and go: a row that neither loads nor stores nor fences is not in them.
ghost use Rattle.std.specs.Prelude.{◌≡◌, ◌<◌, ◌≤◌, ℕ, List, length, [], ◌∷◌, ◌++◌, true, false, drop, if◌then◌else◌};
ghost use Rattle.machine_model.specs.declared.limits.Limits.{Limits as LimitsOf};
ghost use Rattle.mem_queues.specs.Order.{MemRow, is_plain, kind_of, may_go, retires_as, waits, with_issue, has_place, are_below};
ghost use Rattle.mem_queues.specs.Queues.{StandsFor};

use mem_queues::MemQueues;
use rv_isa::Kind;

// A row of this kind takes no part in the order of memory.
fn is_plain(kind: Kind) -> bool
    ensures { result ≡ is_plain kind }
{
    match kind {
        Kind::Plain => true,
        Kind::Load | Kind::Store | Kind::Barrier => false,
    }
}

/// Whether a row in flight may issue, as far as the order of memory is concerned.
pub fn may_access(memory: &MemQueues, kind: Kind, row: u32, c: u64) -> bool
    requires { (limits : LimitsOf) × (since : ℕ) × (rows : List MemRow) ×
        (StandsFor limits memory.now since rows) }
    ensures { (limits : LimitsOf) (since : ℕ) (rows : List MemRow) →
        StandsFor limits memory.now since rows →
        since ≤ c → (is_plain kind ≡ false → waits row rows ≡ true) → kind_of row rows ≡ kind →
        result ≡ may_go kind limits.no_alias row c rows }
{
    if is_plain(kind) {
        return true;
    }
    memory.may_issue(row, c)
}

/// A row dispatches.
pub fn enter_memory(memory: &mut MemQueues, kind: Kind, row: u32)
    requires { (limits : LimitsOf) × (since : ℕ) × (rows : List MemRow) ×
        (StandsFor limits memory.old since rows)
        × (has_place limits rows kind ≡ true) × (length rows < limits.reorder) ×
        (are_below row rows ≡ true) }
    ensures { (limits : LimitsOf) (since : ℕ) (rows : List MemRow) →
        StandsFor limits memory.old since rows →
        length rows < limits.reorder → are_below row rows ≡ true →
        StandsFor limits memory.new since (if is_plain kind then rows
        else rows ++ record { row = row; kind = kind; issued = false; complete = 0 } ∷ []) }
{
    if is_plain(kind) {
        return;
    }
    memory.enter(row, kind);
}

/// A row issues, and completes in a cycle.
pub fn issue_memory(memory: &mut MemQueues, kind: Kind, row: u32, c: u64, complete: u64)
    requires { (limits : LimitsOf) × (since : ℕ) × (rows : List MemRow) ×
        (StandsFor limits memory.old since rows)
        × (since ≤ c) × (is_plain kind ≡ false → waits row rows ≡ true)
        × (may_go (kind_of row rows) limits.no_alias row c rows ≡ true) }
    ensures { (limits : LimitsOf) (since : ℕ) (rows : List MemRow) →
        StandsFor limits memory.old since rows →
        since ≤ c → (is_plain kind ≡ false → waits row rows ≡ true) →
        may_go (kind_of row rows) limits.no_alias row c rows ≡ true →
        StandsFor limits memory.new since
        (if is_plain kind then rows else with_issue row complete rows) }
{
    if is_plain(kind) {
        return;
    }
    memory.issued(row, c, complete);
}

/// The oldest row retires.
pub fn leave_memory(memory: &mut MemQueues, kind: Kind, row: u32, c: u64)
    requires { (limits : LimitsOf) × (since : ℕ) × (rows : List MemRow) ×
        (StandsFor limits memory.old since rows)
        × (since ≤ c) × (is_plain kind ≡ false → retires_as row c rows ≡ true) }
    ensures { (limits : LimitsOf) (since : ℕ) (rows : List MemRow) →
        StandsFor limits memory.old since rows →
        since ≤ c → (is_plain kind ≡ false → retires_as row c rows ≡ true) →
        StandsFor limits memory.new (if is_plain kind then since else c)
        (if is_plain kind then rows else drop 1 rows) }
{
    if is_plain(kind) {
        return;
    }
    memory.retired(row, c);
}
