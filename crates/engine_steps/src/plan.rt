//! The rows of a body on a machine.
ghost use Rattle.std.specs.Prelude.{◌≡◌, ◌<◌, ◌≤◌, ◌*◌, ◌-◌, ◌%◌, ◌^◌, ℕ, length, map, slice_index_or, IfOk, not, ◌&&◌, nat_eq, nat_le, if◌then◌else◌};
ghost use Rattle.std.specs.List.{All};
ghost use Rattle.cycle_rules.specs.Bind.{row_of, AreBound, IsBoundBody};
ghost use Rattle.issue_queues.specs.Queues.{IsNaming};
ghost use Rattle.event_rules.specs.Due.{later};
ghost use Rattle.cycle_rules.specs.Row.{times};
ghost use Rattle.mca_fixed.specs.declared.limits.TheConstants.{MOST_ROWS};
ghost use Rattle.engine_state.specs.State.{never};
ghost use Rattle.cycle_rules.specs.Links.{AllLinks, IsWithin, no_links};
ghost use Rattle.engine_steps.specs.Links.{was_there, after, link_from};
ghost use Rattle.engine_steps.specs.Readers.{AreReaders};

use crate::readers::Readers;
use crate::rows::Rows;
use cycle_rules::{BodyPlaces, Bound, Link, Links, Times, all_links};
use machine_model::Machine;
use mca_fixed::NoMemory;
use std::alloc::Global;

/// A body that is bound by a machine, and how often it is repeated.
#[derive(Drop)]
pub struct Plan<'a, M: Machine> {
    machine: &'a M,
    body: &'a [Bound],
    iterations: usize,
    // Where the reads of each instruction get their values.
    links: Vec<Links>,
    // Which place of the body each row is.
    places: BodyPlaces,
    // How many rows later those rows stand that read what the row at a place writes.
    readers: Readers,
    ghost some: { 0 < length body.now },
    ghost few: { iterations * length body.now ≤ MOST_ROWS },
    ghost size: { length links.items ≡ length body.now },
    ghost named: { All (λ b. IsNaming (M.meaning machine.now) b) body.now },
    ghost linked: { AllLinks (M.meaning machine.now) (map row_of body.now)
        (length body.now) links.items },
    ghost near: { All (IsWithin (length body.now)) links.items },
    ghost placed: { places.size ≡ length body.now },
    ghost read: { AreReaders links.items (length body.now) readers.starts.items
        readers.later.items },
}

// Whether a time that is recorded, or not yet, lies so many cycles back.
fn has_passed(issue: u64, lead: u32, c: u64) -> bool
    ensures { result ≡ (not (nat_eq issue never) && nat_le issue c && nat_le lead (c - issue)) }
{
    issue != u64::MAX && issue <= c && lead as u64 <= c - issue
}

// Whether row j can read in cycle `c` the value of the row that a link names, by the table of what is
// recorded.
fn was_there(table: &[Times], j: usize, link: Link, c: u64) -> bool
    requires { j < length table.now }
    ensures { result ≡ was_there table.now j c link }
{
    let back = link.back as usize;
    if back == 0 {
        return true;
    }
    if j < back {
        return true;
    }
    has_passed(table[j - back].issue, link.lead, c)
}

// So many cycles after a time that is recorded, or not yet.
fn after(issue: u64, lead: u32) -> Option<u64>
    requires { (issue ≡ never → ⊥) → issue < 2 ^ 42 }
    ensures { result ≡ after issue lead }
{
    if issue == u64::MAX {
        return None;
    }
    Some(issue + lead as u64)
}

// The first cycle in which row j can read the value of the row that a link names, by the table of what is
// recorded.
fn read_from(table: &[Times], j: usize, link: Link) -> Option<u64>
    requires row { j < length table.now }
    requires low { (k : ℕ) → k < length table.now → ((times table.now k).issue ≡ never → ⊥) →
        (times table.now k).issue < 2 ^ 42 }
    ensures { result ≡ link_from table.now j link }
{
    let back = link.back as usize;
    if back == 0 {
        return Some(0);
    }
    if j < back {
        return Some(0);
    }
    after(table[j - back].issue, link.lead)
}

// The later of two times that are known.
fn later(a: Option<u64>, b: Option<u64>) -> Option<u64>
    ensures { result ≡ later a b }
{
    match (a, b) {
        (Some(a), Some(b)) => Some(a.max(b)),
        _ => None,
    }
}

// Whether both are told.
fn both(first: bool, second: bool) -> bool
    ensures { result ≡ (first && second) }
{
    first && second
}

impl<'a, M: Machine> Plan<'a, M> {
    /// The rows of a body, so often repeated.
    pub fn make(
        alloc: Global,
        machine: &'a M,
        body: &'a [Bound],
        iterations: u32,
    ) -> Result<Plan<'a, M>, NoMemory>
        requires bound { IsBoundBody (M.meaning machine.now) body.now }
        requires some { 0 < length body.now }
        requires iterations { 1 ≤ iterations }
        requires rows { iterations * length body.now ≤ MOST_ROWS }
        ensures machine { IfOk result (λ plan. plan.machine.now ≡ machine.entry.now) }
        ensures body { IfOk result (λ plan. plan.body.now ≡ body.entry.now) }
        ensures iterations { IfOk result (λ plan. plan.iterations ≡ iterations) }
    {
        let links = all_links(alloc, machine, body)?;
        let readers = Readers::of(alloc, &links)?;
        Ok(Plan {
            machine,
            body,
            iterations: iterations as usize,
            links,
            places: BodyPlaces::of(body.len()),
            readers,
        })
    }

    // The place of the body at which a row stands.
    fn place(&self, j: usize) -> usize
        requires { j < self.now.iterations * length self.now.body.now }
        ensures place { result ≡ j % length self.now.body.now }
        ensures within { result < length self.now.body.now }
    {
        self.places.at(j)
    }

    // The links of a row.
    fn row_links(&self, j: usize) -> Links
        requires { j < self.now.iterations * length self.now.body.now }
        ensures { result ≡
            slice_index_or self.now.links.items (j % length self.now.body.now) no_links }
    {
        self.links[self.place(j)]
    }
}

impl<'a, M: Machine> Rows for Plan<'a, M> {
    ghost use Rattle.cycle_rules.specs.Row.{input};

    ghost input = { λ p. input (M.meaning p.machine.now) (map row_of p.body.now) p.iterations };

    fn count(&self) -> usize {
        self.iterations * self.body.len()
    }

    fn retire_width(&self) -> u32 {
        self.machine.limits().retire
    }

    fn instruction(&self, j: usize) -> &Bound {
        &self.body[self.place(j)]
    }

    fn uops(&self, j: usize) -> u16 {
        let b = self.instruction(j);
        let reorder = self.machine.limits().reorder as u16;
        b.uops.min(reorder)
    }

    fn has_operands(&self, table: &[Times], j: usize, c: u64) -> bool {
        let links = self.row_links(j);
        let first = was_there(table, j, links.first, c);
        let second = was_there(table, j, links.second, c);
        both(first, second)
    }

    fn ready_from(&self, table: &[Times], j: usize) -> Option<u64> {
        let links = self.row_links(j);
        let first = read_from(table, j, links.first);
        let second = read_from(table, j, links.second);
        later(first, second)
    }

    fn readers(&self, j: usize) -> &[u32] {
        self.readers.at(self.place(j))
    }
}
