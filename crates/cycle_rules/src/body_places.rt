//! The place in the body of each row of a run.
ghost use Rattle.std.specs.Prelude.{◌≡◌, ◌<◌, ◌≤◌, ◌+◌, ◌*◌, ◌/◌, ◌%◌, ◌^◌};
ghost use Rattle.mca_fixed.specs.declared.limits.TheConstants.{MOST_ROWS};

/// Which place of its body each row of a run is: the row's number modulo the size of the body.
///
/// A row's iteration is its number times the inverse of the size, which is kept in units of 2^-42
/// and rounded up. For up to 2^21 rows of a body of up to 2^20 instructions what is rounded stays
/// below one iteration, so that a multiplication and a shift stand for the division.
#[derive(Clone, Copy, Debug)]
pub struct BodyPlaces {
    // How many places the body has.
    size: usize,
    // 2^42 divided by the size, rounded down, and one more.
    inverse: usize,
    ghost some: { 1 ≤ size },
    ghost few: { size ≤ MOST_ROWS },
    ghost exact: { inverse ≡ 2 ^ 42 / size + 1 },
}

impl BodyPlaces {
    /// The places of a body of `size` instructions, 1 to `MOST_ROWS`.
    pub fn of(size: usize) -> BodyPlaces
        requires some { 1 ≤ size }
        requires few { size ≤ MOST_ROWS }
        ensures { result.size ≡ size }
    {
        BodyPlaces {
            size,
            inverse: (1 << 42) / size + 1,
        }
    }

    /// The place of row `j`, which is below twice `MOST_ROWS`; the result is below the size.
    pub fn at(&self, j: usize) -> usize
        requires { j < 2 * MOST_ROWS }
        ensures { result ≡ j % self.now.size }
    {
        let iteration = (j * self.inverse) >> 42;
        j - iteration * self.size
    }
}
