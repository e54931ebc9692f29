//! The set of four words.
ghost use Rattle.std.specs.Prelude.{◌<◌, MatchOption};
ghost use Rattle.unit_sets.specs.Members.{IsNext, NoneFrom, in_words, in_words-bounded};

use crate::mask::UnitMask;
use crate::word::{count_in, difference, has_bit, next_in, with_bit, without_bit};

/// A set of numbers below 256, in four words.
#[derive(Clone, Copy, Debug, PartialEq, Eq)]
pub struct UnitSet {
    // Bit u % 64 of word u / 64 is set where u is in.
    words: [u64; 4],
}

// The least number in the words of pos or more.
fn next_in_words(words: &[u64; 4], pos: usize) -> Option<usize>
    requires { pos < 256 }
    ensures { let has = in_words words.now in
        MatchOption result (NoneFrom 256 has pos) (IsNext 256 has pos) }
{
    let first = pos / 64;
    if let Some(u) = next_in(words[first], pos % 64) {
        return Some(64 * first + u);
    }
    for k in first + 1..4 {
        if let Some(u) = next_in(words[k], 0) {
            return Some(64 * k + u);
        }
    }
    None
}

impl UnitMask for UnitSet {
    const SIZE: usize = 256;

    ghost SIZE = { 256 };

    ghost holds = { λ s. in_words s.words };

    ghost bounded = { λ s. in_words-bounded s.words };

    fn empty() -> UnitSet {
        UnitSet { words: [0; 4] }
    }

    fn insert(&mut self, u: usize) {
        self.words[u / 64] = with_bit(self.words[u / 64], u % 64);
    }

    fn remove(&mut self, u: usize) {
        self.words[u / 64] = without_bit(self.words[u / 64], u % 64);
    }

    fn has(&self, u: usize) -> bool {
        has_bit(self.words[u / 64], u % 64)
    }

    fn first_from(&self, pos: usize) -> Option<usize> {
        match next_in_words(&self.words, pos) {
            Some(u) => Some(u),
            None => next_in_words(&self.words, 0),
        }
    }

    fn without(&self, other: &UnitSet) -> UnitSet {
        UnitSet {
            words: [
                difference(self.words[0], other.words[0]),
                difference(self.words[1], other.words[1]),
                difference(self.words[2], other.words[2]),
                difference(self.words[3], other.words[3]),
            ],
        }
    }

    fn count(&self) -> usize {
        let mut count = 0;
        for word in &self.words {
            count += count_in(*word);
        }
        count
    }
}
