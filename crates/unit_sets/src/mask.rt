//! What every set of units can do, and the set that is one word.
ghost use Rattle.std.specs.Prelude.{◌≡◌, ℕ, ◌<◌, ◌≤◌, Bool, false, ◌||◌, ◌&&◌, not, nat_eq};
ghost use Rattle.unit_sets.specs.Below.{count_below, cyclic_from};
ghost use Rattle.unit_sets.specs.Members.{IsFirstFrom, in_word, in_word-bounded};

use crate::word::{count_in, difference, has_bit, next_in, with_bit, without_bit};

/// A set of numbers below `SIZE`, in a fixed number of words. No call takes memory.
pub trait UnitMask: Copy {
    /// One more than the greatest number that a set can hold.
    const SIZE: usize;

    ghost SIZE: { ℕ };

    /// Whether a number is in the set.
    ghost holds: { Self → ℕ → Bool };

    /// The set of no number.
    fn empty() -> Self
        ensures { (v : ℕ) → holds result v ≡ false };

    /// Puts `u`, below `SIZE`, into the set. Where it was in, nothing changes.
    fn insert(&mut self, u: usize)
        requires { u < SIZE }
        ensures { (v : ℕ) → holds self.new v ≡ (nat_eq v u || holds self.old v) };

    /// Takes `u`, below `SIZE`, out of the set. Where it was not in, nothing changes.
    fn remove(&mut self, u: usize)
        requires { u < SIZE }
        ensures { (v : ℕ) → holds self.new v ≡ (not (nat_eq v u) && holds self.old v) };

    /// Whether `u`, below `SIZE`, is in the set.
    fn has(&self, u: usize) -> bool
        requires { u < SIZE }
        ensures { result ≡ holds self.now u };

    /// The first number of the set from `pos`, below `SIZE`, on and cyclically: its least number of `pos`
    /// or more, and where there is none, its least number. `None` exactly for the empty set.
    fn first_from(&self, pos: usize) -> Option<usize>
        requires { pos < SIZE }
        ensures nearest { IsFirstFrom SIZE (holds self.now) pos result }
        ensures cyclic { result ≡ cyclic_from SIZE pos (holds self.now) };

    /// The numbers of this set that are not in `other`.
    fn without(&self, other: &Self) -> Self
        ensures { (v : ℕ) → holds result v ≡ (holds self.now v && not (holds other.now v)) };

    /// How many numbers are in the set, 0 to `SIZE`.
    fn count(&self) -> usize
        ensures { result ≡ count_below SIZE (holds self.now) };

    // A set holds no number of SIZE or more.
    ghost bounded: { (m : Self) (v : ℕ) → SIZE ≤ v → holds m v ≡ false };
}

/// A set of numbers below 64. Bit `u` of the word is set where `u` is in.
impl UnitMask for u64 {
    const SIZE: usize = 64;

    ghost SIZE = { 64 };

    ghost holds = { in_word };

    ghost bounded = { in_word-bounded };

    fn empty() -> u64 {
        0
    }

    fn insert(&mut self, u: usize) {
        *self = with_bit(*self, u);
    }

    fn remove(&mut self, u: usize) {
        *self = without_bit(*self, u);
    }

    fn has(&self, u: usize) -> bool {
        has_bit(*self, u)
    }

    fn first_from(&self, pos: usize) -> Option<usize> {
        match next_in(*self, pos) {
            Some(u) => Some(u),
            None => next_in(*self, 0),
        }
    }

    fn without(&self, other: &u64) -> u64 {
        difference(*self, *other)
    }

    fn count(&self) -> usize {
        count_in(*self)
    }
}
