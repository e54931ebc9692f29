//! Laws of the rows of a run that wait.
ghost use Rattle.std.specs.Prelude.{◌≡◌, ◌≢◌, ℕ, ◌+◌, ◌<◌, ◌≤◌, Bool, true, false, [], ◌∷◌, ◌++◌, nat_lt, length, if◌then◌else◌};
ghost use Rattle.cycle_rules.specs.Row.{Input, Table};
ghost use Rattle.cycle_rules.specs.Dispatch.{fits_buffers};
ghost use Rattle.issue_queues.specs.Waiting.{has_entries, with_ready, without, is_in, IsIn, are_below};
ghost use Rattle.issue_queues.specs.Flight.{also, row_at, rows_from};

/// The entries that the waiting rows in flight leave free are those that the rules of the run see, for
/// the row that dispatches next: rows that have retired have issued, and hold none.
pub fn one_count()
    ensures { (g : Input) (t : Table) (ready : ℕ → Bool) (c front n : ℕ)
        → ((k : ℕ) → k < front → (t k).issue ≤ c)
        → has_entries g.machine (rows_from g t ready c front n) (g.row (front + n)).uses
        ≡ fits_buffers g t (front + n) c }
{}

/// How the rows that wait change: with the next row, with the retirement of the oldest, with what
/// becomes ready, with what issues, and from one cycle or table to another in which the same rows have
/// not issued.
pub fn same_rows()
    ensures enters { (g : Input) (t : Table) (ready : ℕ → Bool) (c front n : ℕ)
        → rows_from g t ready c front (n + 1) ≡ rows_from g t ready c front n
        ++ (if nat_lt c (t (front + n)).issue then row_at g ready (front + n) ∷ [] else []) }
    ensures retires { (g : Input) (t : Table) (ready : ℕ → Bool) (c front n : ℕ) → (t front).issue ≤ c
        → rows_from g t ready c front (n + 1) ≡ rows_from g t ready c (front + 1) n }
    ensures wakes { (g : Input) (t : Table) (ready : ℕ → Bool) (c front n k : ℕ)
        → with_ready k (rows_from g t ready c front n)
        ≡ rows_from g t (also ready k) c front n }
    ensures issues { (g : Input) (s t : Table) (ready : ℕ → Bool) (b c front n k : ℕ) → (t k).issue ≤ c
        → ((i : ℕ) → front ≤ i → i < front + n → i ≢ k
        → nat_lt c (t i).issue ≡ nat_lt b (s i).issue)
        → without k (rows_from g s ready b front n) ≡ rows_from g t ready c front n }
    ensures stays { (g : Input) (s t : Table) (ready now : ℕ → Bool) (b c front n : ℕ)
        → ((i : ℕ) → front ≤ i → i < front + n
        → nat_lt c (t i).issue ≡ nat_lt b (s i).issue)
        → ((i : ℕ) → front ≤ i → i < front + n → ready i ≡ now i)
        → rows_from g s ready b front n ≡ rows_from g t now c front n }
{}

/// What is known of one of these rows, and of all of them.
pub fn known_rows()
    ensures is_in { (g : Input) (t : Table) (ready : ℕ → Bool) (c front n k : ℕ) → front ≤ k → k < front + n
        → c < (t k).issue → is_in k (rows_from g t ready c front n) ≡ true }
    ensures at { (g : Input) (t : Table) (ready : ℕ → Bool) (c front n k : ℕ) → front ≤ k → k < front + n
        → c < (t k).issue
        → (i : ℕ) × IsIn k (g.row k).uses (rows_from g t ready c front n) i }
    ensures below { (g : Input) (t : Table) (ready : ℕ → Bool) (c front n k : ℕ) → front + n ≤ k
        → are_below k (rows_from g t ready c front n) ≡ true }
    ensures few { (g : Input) (t : Table) (ready : ℕ → Bool) (c front n : ℕ)
        → length (rows_from g t ready c front n) ≤ n }
{}
