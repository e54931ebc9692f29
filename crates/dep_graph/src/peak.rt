//! The greatest of the times of some rows, and the first row that reaches it.
ghost use Rattle.std.specs.Prelude.{◌≡◌, ◌<◌, ◌+◌, ℕ};
ghost use Rattle.dep_graph.specs.Peaks.{IsPeak};

/// A time, and the first row that reaches it, where it is above 0.
#[derive(Clone, Copy, Debug)]
pub struct Peak {
    pub time: u64,
    pub row: u32,
}

impl Peak {
    /// That of no rows.
    pub fn none() -> Peak
        ensures peak { (f : ℕ → ℕ) → IsPeak f 0 result }
        ensures time { result.time ≡ 0 }
    {
        Peak { time: 0, row: 0 }
    }

    /// With one row more.
    pub fn raise(&mut self, time: u64, row: u32)
        ensures { (f : ℕ → ℕ) → f row ≡ time → IsPeak f row self.old →
            IsPeak f (row + 1) self.new }
    {
        if self.time < time {
            self.time = time;
            self.row = row;
        }
    }
}
