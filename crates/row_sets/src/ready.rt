//! The rows that are ready, by class.
ghost use Rattle.std.specs.Prelude.{◌≡◌, ℕ, ◌≤◌, ◌<◌, ◌+◌, ◌*◌, length, false, not, slice_index};
ghost use Rattle.unit_sets.specs.Members.{in_word};
ghost use Rattle.row_sets.specs.Kept.{is_in, IsMerged};
ghost use Rattle.row_sets.specs.Rows.{word_of};

use crate::bits::{union, with_member};
use mca_fixed::NoMemory;
use std::alloc::Global;
use unit_sets::{UnitMask, next_in};

/// Sets of rows in flight, one for each of 64 classes.
#[derive(Drop)]
pub struct ReadyRows {
    // For each 64 places a word of each class.
    pub(crate) words: Vec<u64>,
    // For each 64 places the classes that have rows there.
    classes: Vec<u64>,
    // The classes of which a row was ever put in.
    used: u64,
    ghost size: { length words.items ≡ 4096 },
    ghost classes_size: { length classes.items ≡ 64 },
    ghost empty: { (class k : ℕ) → class < 64 →
        in_word (slice_index classes.items (word_of k)) class ≡ false →
        is_in words.items class k ≡ false },
    ghost unused: { (class k : ℕ) → class < 64 → in_word used class ≡ false →
        is_in words.items class k ≡ false },
}

// The numbers in the words of the live classes, of the 64 words from `base` on.
fn merged(words: &[u64], base: usize, live: u64) -> u64
    requires { base + 64 ≤ length words.now }
    ensures { IsMerged words.now base (in_word live) 64 result }
{
    let mut all = 0;
    let mut pos = 0;
    while pos < 64 {
        let class = match next_in(live, pos) {
            Some(class) => class,
            None => return all,
        };
        all = union(all, words[base + class]);
        pos = class + 1;
    }
    all
}

impl ReadyRows {
    ghost use Rattle.std.specs.Prelude.{◌≡◌, ℕ, ◌≤◌, ◌<◌, ◌+◌, false, nat_eq, not, ◌&&◌, ◌||◌, IfOk};
    ghost use Rattle.unit_sets.specs.Members.{in_word};
    ghost use Rattle.row_sets.specs.Rows.{same_place};
    ghost use Rattle.row_sets.specs.Ready.{has_row, IsReady};

    /// No row is ready. It takes 33 KiB.
    ///
    /// # Errors
    ///
    /// Want of memory.
    pub fn make(alloc: Global) -> Result<ReadyRows, NoMemory>
        ensures { IfOk result (λ ready. (class k : ℕ) → class < 64 →
            has_row ready class k ≡ false) }
    {
        let words = vec![in alloc; 0; 4096]?;
        let classes = vec![in alloc; 0; 64]?;
        Ok(ReadyRows {
            words,
            classes,
            used: 0,
        })
    }

    /// Puts row `k` into the set of a class, below 64. The work is constant.
    pub fn insert(&mut self, class: usize, k: usize)
        requires { class < 64 }
        ensures { (r j : ℕ) → r < 64 → has_row self.new r j
            ≡ ((nat_eq r class && same_place j k) || has_row self.old r j) }
    {
        let word = k / 64 % 64;
        self.words[word * 64 + class].insert(k % 64);
        self.classes[word].insert(class);
        self.used.insert(class);
    }

    /// Takes row `k` out of the set of a class, below 64. The work is constant.
    pub fn remove(&mut self, class: usize, k: usize)
        requires { class < 64 }
        ensures { (r j : ℕ) → r < 64 → has_row self.new r j
            ≡ (not (nat_eq r class && same_place j k) && has_row self.old r j) }
    {
        let word = k / 64 % 64;
        let mut rows = self.words[word * 64 + class];
        rows.remove(k % 64);
        self.words[word * 64 + class] = rows;
        self.classes[word] = with_member(self.classes[word], class, rows != 0);
    }

    /// The first row from `from` on and below `end` that is ready as a row of a class that is not
    /// among those passed over, a set of classes; `end` where there is none. At most 4,096 rows lie
    /// between: those in flight, each at a place of its own. The work grows with the words between
    /// and with the classes that have rows there, and is constant where all classes are passed over.
    pub fn next(&self, passed: u64, from: usize, end: usize) -> usize
        requires { from ≤ end }
        ensures from { from ≤ result }
        ensures end { result ≤ end }
        ensures none { (class k : ℕ) → class < 64 → in_word passed class ≡ false → from ≤ k →
            k < result → has_row self.now class k ≡ false }
        ensures ready { result < end → IsReady self.now passed result }
    {
        if self.used.without(&passed) == 0 {
            return end;
        }
        let mut k = from;
        while k < end {
            let bit = k % 64;
            match next_in(self.ready_in(k / 64 % 64, passed), bit) {
                Some(u) => return k + (u - bit).min(end - k),
                None => k += (64 - bit).min(end - k),
            }
        }
        end
    }

    // The rows of a word that are ready as rows of a class that is not among those passed over.
    fn ready_in(&self, word: usize, passed: u64) -> u64
        requires { word < 64 }
        ensures { IsMerged self.now.words.items (word * 64) (λ class. not (in_word passed class)) 64
            result }
    {
        let live = self.classes[word].without(&passed);
        merged(&self.words, word * 64, live)
    }
}
