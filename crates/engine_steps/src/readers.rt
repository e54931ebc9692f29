//! Which rows read what a row writes: the body repeats, so that they stand as many rows later in
//! each iteration.
ghost use Rattle.std.specs.Prelude.{◌≡◌, ◌<◌, ◌≤◌, ◌+◌, ◌-◌, ◌*◌, List, length, IfOk, OnOk};
ghost use Rattle.std.specs.List.{All};
ghost use Rattle.mca_fixed.specs.declared.limits.TheConstants.{MOST_ROWS};
ghost use Rattle.cycle_rules.specs.declared.links.Links.{Links as LinksOf};
ghost use Rattle.cycle_rules.specs.Links.{IsWithin};
ghost use Rattle.engine_steps.specs.Readers.{AreSpans, AreReaders, AreChained, IsAppended, back_at, readers_at};

use cycle_rules::Links;
use mca_fixed::NoMemory;
use std::alloc::Global;

/// Of each place of a body how many rows later those rows stand that read what its row writes.
#[derive(Drop)]
pub(crate) struct Readers {
    // Where the list of each place begins, and after them where that of the last place ends.
    starts: Vec<usize>,
    // The lists, one after another.
    later: Vec<u32>,
    ghost spans: { AreSpans (length starts.items - 1) starts.items (length later.items) },
}

// The links that name a row at each place of a body, by their numbers: those of place p have the
// numbers 2p and 2p + 1.
#[derive(Drop)]
struct Chains {
    // Of each place one more than the greatest number of a link that names it; 0 where none does.
    last: Vec<usize>,
    // Of each link that names a place one more than the next smaller number of a link that names
    // it; 0 where none does.
    earlier: Vec<usize>,
}

// How many rows back the row stands that a link names; 0 where it names none.
fn back_of(links: &[Links], id: usize) -> u32
    requires { id < 2 * length links.now }
    ensures { result ≡ back_at links.now id }
{
    let links = links[id / 2];
    if id % 2 == 0 {
        links.first.back
    } else {
        links.second.back
    }
}

impl Chains {
    // Before the first link.
    fn none(alloc: Global, places: usize) -> Result<Chains, NoMemory>
        requires { places ≤ MOST_ROWS }
        ensures { IfOk result (λ chains. (links : List LinksOf) → length links ≡ places →
            AreChained links 0 chains.last.items chains.earlier.items) }
    {
        let last = vec![in alloc; 0_usize; places]?;
        let earlier = Vec::with_capacity(alloc, 2 * places)?;
        Ok(Chains { last, earlier })
    }

    // Takes the next link in.
    fn note(&mut self, links: &[Links], id: usize) -> Result<(), NoMemory>
        requires id { id < 2 * length links.now }
        requires few { length links.now ≤ MOST_ROWS }
        requires near { All (IsWithin (length links.now)) links.now }
        requires chained { AreChained links.now id self.old.last.items self.old.earlier.items }
        ensures { OnOk result (AreChained links.now (id + 1) self.new.last.items
            self.new.earlier.items) }
    {
        let back = back_of(links, id) as usize;
        if back == 0 {
            self.earlier.push(0)?;
            return Ok(());
        }
        let place = (id / 2 + links.len() - back) % links.len();
        self.earlier.push(self.last[place])?;
        self.last[place] = id + 1;
        Ok(())
    }

    // All links.
    fn of(alloc: Global, links: &[Links]) -> Result<Chains, NoMemory>
        requires few { length links.now ≤ MOST_ROWS }
        requires near { All (IsWithin (length links.now)) links.now }
        ensures { IfOk result (λ chains. AreChained links.now (2 * length links.now)
            chains.last.items chains.earlier.items) }
    {
        let mut chains = Chains::none(alloc, links.len())?;
        for id in 0..2 * links.len() {
            chains.note(links, id)?;
        }
        Ok(chains)
    }

    // Puts behind a list, for each link that names a place, how many rows back it names it.
    fn list(&self, links: &[Links], place: usize, later: &mut Vec<u32>) -> Result<(), NoMemory>
        requires place { place < length links.now }
        requires few { length links.now ≤ MOST_ROWS }
        requires near { All (IsWithin (length links.now)) links.now }
        requires chained { AreChained links.now (2 * length links.now) self.now.last.items
            self.now.earlier.items }
        ensures { OnOk result (IsAppended links.now place 0 later.old.items later.new.items) }
    {
        let mut at = self.last[place];
        while at != 0 {
            later.push(back_of(links, at - 1))?;
            at = self.earlier[at - 1];
        }
        Ok(())
    }
}

impl Readers {
    /// The readers of each place of a body, by the links of all its places: up to `MOST_ROWS`,
    /// which name rows no further back than one iteration. The lists have two numbers a place at most.
    pub(crate) fn of(alloc: Global, links: &[Links]) -> Result<Readers, NoMemory>
        requires few { length links.now ≤ MOST_ROWS }
        requires near { All (IsWithin (length links.now)) links.now }
        ensures { IfOk result (λ readers. AreReaders links.now (length links.now)
            readers.starts.items readers.later.items) }
    {
        let chains = Chains::of(alloc, links)?;
        let mut starts = Vec::with_capacity(alloc, links.len() + 1)?;
        let mut later = Vec::with_capacity(alloc, 2 * links.len())?;
        starts.push(0)?;
        for place in 0..links.len() {
            chains.list(links, place, &mut later)?;
            starts.push(later.len())?;
        }
        Ok(Readers { starts, later })
    }

    /// How many rows later those rows stand that read what the row at a place writes.
    pub(crate) fn at(&self, place: usize) -> &[u32]
        requires { place + 1 < length self.now.starts.items }
        ensures { result.now ≡ readers_at self.now.starts.items self.now.later.items place }
    {
        &self.later[self.starts[place]..self.starts[place + 1]]
    }
}
