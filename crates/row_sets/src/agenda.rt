//! The cycles that rows in flight wait for.
ghost use Rattle.std.specs.Prelude.{◌≡◌, ℕ, ◌≤◌, ◌<◌, ◌+◌, ◌*◌, ◌/◌, ◌%◌, ◌^◌, length, true, false, Some, None, slice_index, nat_lt, IfSome, MatchOption, if◌then◌else◌};
ghost use Rattle.unit_sets.specs.Members.{in_word, NoneFrom};
ghost use Rattle.row_sets.specs.declared.agenda.TheConstants.{PLACES};
ghost use Rattle.row_sets.specs.Kept.{is_waiting, IsDue, IsFirstOf, IsSoonest, IsIndex, NoneWaitsIn};
ghost use Rattle.row_sets.specs.Rows.{row_at};

use crate::bits::with_member;
use mca_fixed::NoMemory;
use std::alloc::Global;
use unit_sets::{UnitMask, next_in};

/// How many rows may be in flight. The place of a row is its number modulo this.
pub(crate) const PLACES: usize = 4_096;

/// For each of the rows in flight at most one cycle that it waits for.
#[derive(Drop)]
pub struct Agenda {
    // The rows that wait.
    pub(crate) words: Vec<u64>,
    // The cycle that each waits for, by its place.
    pub(crate) times: Vec<u64>,
    // The words that have rows.
    some: u64,
    // For each of these the place of its row whose cycle comes first.
    soonest: Vec<usize>,
    // The place of the row whose cycle comes first.
    first: Option<usize>,
    ghost words_size: { length words.items ≡ 64 },
    ghost times_size: { length times.items ≡ PLACES },
    ghost soonest_size: { length soonest.items ≡ 64 },
    ghost index: { IsIndex (is_waiting words.items) (slice_index times.items) some
        (slice_index soonest.items) first },
}

// Of a place and one that came first before, if there is one, that whose time comes first.
fn sooner(best: Option<usize>, place: usize, time: u64, times: &[u64]) -> usize
    requires { IfSome best (λ p. p < length times.now) }
    ensures { MatchOption best (result ≡ place) (λ p. result ≡ (if nat_lt time
        (slice_index times.now p) then place else p)) }
{
    match best {
        None => place,
        Some(p) => if time < times[p] { place } else { p },
    }
}

// The place, of those that the numbers of a word name from `base` on, whose time comes first.
fn first_in(word: u64, base: usize, times: &[u64]) -> Option<usize>
    requires { base + 64 ≤ length times.now }
    ensures { MatchOption result (NoneFrom 64 (in_word word) 0) (IsFirstOf (in_word word)
        (λ v. base + v) (slice_index times.now) 64) }
{
    let mut best = None;
    let mut pos = 0;
    while pos < 64 {
        let u = match next_in(word, pos) {
            Some(u) => u,
            None => return best,
        };
        best = Some(sooner(best, base + u, times[base + u], times));
        pos = u + 1;
    }
    best
}

// The place, of those of the numbers of a word, whose time comes first.
fn first_of(word: u64, places: &[usize], times: &[u64]) -> Option<usize>
    requires size { 64 ≤ length places.now }
    requires places { (v : ℕ) → in_word word v ≡ true →
        slice_index places.now v < length times.now }
    ensures { MatchOption result (NoneFrom 64 (in_word word) 0) (IsFirstOf (in_word word)
        (slice_index places.now) (slice_index times.now) 64) }
{
    let mut best = None;
    let mut pos = 0;
    while pos < 64 {
        let u = match next_in(word, pos) {
            Some(u) => u,
            None => return best,
        };
        best = Some(sooner(best, places[u], times[places[u]], times));
        pos = u + 1;
    }
    best
}

// The row at a place, of the 4,096 from `start` on.
fn row_at(start: usize, place: usize) -> usize
    requires start { start < 2 ^ 32 }
    requires place { place < PLACES }
    ensures { result ≡ row_at start place }
{
    start + (place + PLACES - start % PLACES) % PLACES
}

impl Agenda {
    ghost use Rattle.std.specs.Prelude.{◌≡◌, ℕ, ◌<◌, ◌^◌, Some, None, IfOk, MatchOption, if◌then◌else◌};
    ghost use Rattle.row_sets.specs.Rows.{same_place};
    ghost use Rattle.row_sets.specs.Agenda.{time_of, IsFirst, IsTaken, NoneComes, NoneWaits};

    /// No row waits for a cycle. It takes 33 KiB.
    ///
    /// # Errors
    ///
    /// Want of memory.
    pub fn make(alloc: Global) -> Result<Agenda, NoMemory>
        ensures { IfOk result (λ agenda. NoneWaits agenda) }
    {
        let words = vec![in alloc; 0; 64]?;
        let times = vec![in alloc; 0; PLACES]?;
        let soonest = vec![in alloc; 0; 64]?;
        Ok(Agenda {
            words,
            times,
            some: 0,
            soonest,
            first: None,
        })
    }

    /// Lets row `k` wait for a cycle, where it waits for no other. The work is constant.
    pub fn put(&mut self, k: usize, time: u64)
        requires { (t : ℕ) → time_of self.old k ≡ Some t → t ≡ time }
        ensures { (j : ℕ) → time_of self.new j ≡ (if same_place j k then Some time else
            time_of self.old j) }
    {
        if self.waits(k) {
            return;
        }
        self.add(k, time);
    }

    // Whether row `k` waits for a cycle.
    fn waits(&self, k: usize) -> bool
        ensures { result ≡ is_waiting self.now.words.items k }
    {
        self.words[k / 64 % 64].has(k % 64)
    }

    // Lets row `k`, which waits for no cycle, wait for one.
    fn add(&mut self, k: usize, time: u64)
        requires { time_of self.old k ≡ None }
        ensures { (j : ℕ) → time_of self.new j ≡ (if same_place j k then Some time else
            time_of self.old j) }
    {
        let place = k % PLACES;
        let word = k / 64 % 64;
        self.soonest[word] = sooner(self.first_in(word), place, time, &self.times);
        self.first = Some(sooner(self.first, place, time, &self.times));
        self.times[place] = time;
        self.words[word].insert(k % 64);
        self.some.insert(word);
    }

    /// A row, of the 4,096 from `start` on, below 2^32, whose cycle has come by `c`: it waits no
    /// more. `None` where no row's cycle has come. The work is constant then, and else grows with
    /// the rows of one word, and the words, that wait.
    pub fn take(&mut self, start: usize, c: u64) -> Option<usize>
        requires { start < 2 ^ 32 }
        ensures { MatchOption result (NoneComes self.old self.new c)
            (IsTaken self.old self.new start c) }
    {
        let place = match self.due(c) {
            Some(place) => place,
            None => return None,
        };
        let word = place / 64;
        self.words[word].remove(place % 64);
        let next = first_in(self.words[word], 64 * word, &self.times);
        self.some = with_member(self.some, word, next.is_some());
        self.soonest[word] = next.unwrap_or(place);
        self.first = first_of(self.some, &self.soonest, &self.times);
        Some(row_at(start, place))
    }

    /// The first cycle that a row waits for. The work is constant.
    pub fn first(&self) -> Option<u64>
        ensures { MatchOption result (NoneWaits self.now) (IsFirst self.now) }
    {
        match self.first {
            Some(place) => Some(self.times[place]),
            None => None,
        }
    }

    // The place of the row whose cycle comes first, where it has come by `c`.
    fn due(&self, c: u64) -> Option<usize>
        ensures { MatchOption result (NoneComes self.now self.now c) (IsDue
            (is_waiting self.now.words.items) (slice_index self.now.times.items) c) }
    {
        let place = self.first?;
        if self.times[place] > c {
            None
        } else {
            Some(place)
        }
    }

    // The place, of those of a word, whose cycle comes first.
    fn first_in(&self, word: usize) -> Option<usize>
        requires { word < 64 }
        ensures { MatchOption result (NoneWaitsIn (is_waiting self.now.words.items) (64 * word)
            (64 * word + 64)) (IsSoonest (is_waiting self.now.words.items)
            (slice_index self.now.times.items) (64 * word) (64 * word + 64)) }
    {
        if self.some.has(word) {
            Some(self.soonest[word])
        } else {
            None
        }
    }
}
