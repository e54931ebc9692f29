//! The members of a set in rising order.
ghost use Rattle.std.specs.Prelude.{◌≡◌, ◌<◌, ◌≤◌, ℕ, MatchOption};
ghost use Rattle.unit_sets.specs.Members.{IsNext, NoneFrom};

use crate::mask::UnitMask;

/// The least number of a set from `pos` on and below `end`, `SIZE` at most.
pub fn next_member<K: UnitMask>(set: &K, pos: usize, end: usize) -> Option<usize>
    requires within { pos < end }
    requires fits { end ≤ K.SIZE }
    ensures { MatchOption result (NoneFrom end (K.holds set.now) pos) (IsNext end
        (K.holds set.now) pos) }
{
    match set.first_from(pos) {
        Some(unit) if unit >= pos && unit < end => Some(unit),
        _ => None,
    }
}
