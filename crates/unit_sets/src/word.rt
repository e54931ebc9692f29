//! A word of 64 bits as a set of the numbers below 64.
ghost use Rattle.std.specs.Prelude.{◌≡◌, ℕ, ◌<◌, ◌||◌, ◌&&◌, not, nat_eq, MatchOption};
ghost use Rattle.unit_sets.specs.Below.{count_below};
ghost use Rattle.unit_sets.specs.Members.{IsNext, NoneFrom, in_word};

// The numbers of `word`, and u.
pub(crate) fn with_bit(word: u64, u: usize) -> u64
    requires { u < 64 }
    ensures { (v : ℕ) → in_word result v ≡ (nat_eq v u || in_word word v) }
{
    word | 1 << u
}

// The numbers of `word`, except for u.
pub(crate) fn without_bit(word: u64, u: usize) -> u64
    requires { u < 64 }
    ensures { (v : ℕ) → in_word result v ≡ (not (nat_eq v u) && in_word word v) }
{
    word & !(1 << u)
}

// Whether u is in `word`.
pub(crate) fn has_bit(word: u64, u: usize) -> bool
    requires { u < 64 }
    ensures { result ≡ in_word word u }
{
    (word >> u) & 1 == 1
}

/// The least number in `word`, the set of the numbers of its bits, of `pos`, below 64, or more. `None`
/// exactly where there is none.
pub fn next_in(word: u64, pos: usize) -> Option<usize>
    requires { pos < 64 }
    ensures { MatchOption result (NoneFrom 64 (in_word word) pos) (IsNext 64 (in_word word) pos) }
{
    let rest = word & (u64::MAX << pos);
    if rest == 0 {
        None
    } else {
        Some(rest.trailing_zeros() as usize)
    }
}

// The numbers of `word` that are not in `other`.
pub(crate) fn difference(word: u64, other: u64) -> u64
    ensures { (v : ℕ) → in_word result v ≡ (in_word word v && not (in_word other v)) }
{
    word & !other
}

// How many numbers are in `word`.
pub(crate) fn count_in(word: u64) -> usize
    ensures { result ≡ count_below 64 (in_word word) }
{
    word.count_ones() as usize
}
