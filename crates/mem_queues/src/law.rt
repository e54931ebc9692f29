//! Laws of the rows of a run that load, store or fence.
ghost use Rattle.std.specs.Prelude.{◌≡◌, ◌≢◌, ℕ, ◌+◌, ◌<◌, ◌≤◌, true, not, ◌&&◌, nat_le, [], ◌∷◌, ◌++◌, length, if◌then◌else◌};
ghost use Rattle.cycle_rules.specs.Row.{Input, Table};
ghost use Rattle.cycle_rules.specs.Issue.{may_access};
ghost use Rattle.mem_queues.specs.Order.{are_below, is_plain, kind_of, may_go, waits, with_issue};
ghost use Rattle.mem_queues.specs.Flight.{row_at, rows_from};

/// The test of the queues, over the rows from the oldest in flight on, is the rule of the run: rows that
/// have retired hold nothing back, and those that take no part are not kept.
pub fn one_order()
    ensures { (g : Input) (t : Table) (c front n j : ℕ)
        → ((k : ℕ) → (t k).issue ≤ (t k).complete)
        → ((k : ℕ) → k < front → (t k).issue ≤ c)
        → ((k : ℕ) → k < front → (t k).complete ≤ c)
        → front ≤ j → j ≤ front + n
        → may_go (g.row j).kind g.machine.limits.no_alias j c (rows_from g t c front n)
        ≡ may_access g t j c }
{}

/// How these rows change: with the next row, with the retirement of the oldest, with the issue of one,
/// and from one cycle or table to another in which each stands as it stood.
pub fn same_rows()
    ensures enters { (g : Input) (t : Table) (c front n : ℕ)
        → rows_from g t c front (n + 1) ≡ rows_from g t c front n
        ++ (if is_plain (g.row (front + n)).kind then [] else row_at g t c (front + n) ∷ []) }
    ensures retires { (g : Input) (t : Table) (c front n : ℕ)
        → rows_from g t c front (n + 1) ≡ (if is_plain (g.row front).kind
        then rows_from g t c (front + 1) n
        else row_at g t c front ∷ rows_from g t c (front + 1) n) }
    ensures issues { (g : Input) (s t : Table) (b c front n k : ℕ) → (t k).issue ≤ c
        → ((i : ℕ) → front ≤ i → i < front + n → i ≢ k → row_at g s b i ≡ row_at g t c i)
        → with_issue k (t k).complete (rows_from g s b front n) ≡ rows_from g t c front n }
    ensures stays { (g : Input) (s t : Table) (b c front n : ℕ)
        → ((i : ℕ) → front ≤ i → i < front + n → row_at g s b i ≡ row_at g t c i)
        → rows_from g s b front n ≡ rows_from g t c front n }
{}

/// What is known of one of these rows, and of all of them.
pub fn known_rows()
    ensures kind { (g : Input) (t : Table) (c front n j : ℕ) → front ≤ j → j < front + n
        → kind_of j (rows_from g t c front n) ≡ (g.row j).kind }
    ensures waits { (g : Input) (t : Table) (c front n j : ℕ) → front ≤ j → j < front + n
        → waits j (rows_from g t c front n)
        ≡ (not (is_plain (g.row j).kind) && not (nat_le (t j).issue c)) }
    ensures below { (g : Input) (t : Table) (c front n j : ℕ) → front + n ≤ j
        → are_below j (rows_from g t c front n) ≡ true }
    ensures few { (g : Input) (t : Table) (c front n : ℕ) → length (rows_from g t c front n) ≤ n }
{}
