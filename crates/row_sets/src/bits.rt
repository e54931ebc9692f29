//! Words as sets of 64 numbers.
ghost use Rattle.std.specs.Prelude.{◌≡◌, ℕ, ◌<◌, ◌||◌, nat_eq, if◌then◌else◌};
ghost use Rattle.unit_sets.specs.Members.{in_word};

use unit_sets::UnitMask;

// The numbers of both words.
pub(crate) fn union(a: u64, b: u64) -> u64
    ensures { (v : ℕ) → in_word result v ≡ (in_word a v || in_word b v) }
{
    a | b
}

// The numbers of a word, with `u` or without it.
pub(crate) fn with_member(word: u64, u: usize, is_member: bool) -> u64
    requires { u < 64 }
    ensures { (v : ℕ) → in_word result v ≡ (if nat_eq v u then is_member else in_word word v) }
{
    let mut changed = word;
    if is_member {
        changed.insert(u);
    } else {
        changed.remove(u);
    }
    changed
}
