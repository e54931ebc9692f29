//! Where the values that an instruction reads come from: how many rows back, and how long they take.
//! The body repeats, so it is so in each iteration.
ghost use Rattle.std.specs.Prelude.{◌≡◌, ◌<◌, ◌≤◌, ◌+◌, ◌*◌, ◌%◌, ℕ, List, length, map, slice_index_or, true, IfOk};
ghost use Rattle.std.specs.List.{All, list_all};
ghost use Rattle.mca_fixed.specs.declared.limits.TheConstants.{MOST_ROWS};
ghost use Rattle.cycle_rules.specs.Bind.{row_of, has_class, AreBound, IsBound};
ghost use Rattle.cycle_rules.specs.Row.{Row, input, no_row};
ghost use Rattle.cycle_rules.specs.Still.{no_source};
ghost use Rattle.cycle_rules.specs.Links.{IsBack, IsLink, AreLinks, AllLinks, AreLast, IsWithin, rd_at};

use crate::bound::{Bound, Source};
use crate::operands::lead;
use machine_model::Machine;
use mca_fixed::NoMemory;
use rv_isa::Reg;
use std::alloc::Global;

/// Where a value that is read comes from, in each iteration alike.
#[derive(Clone, Copy, Debug)]
pub struct Link {
    /// How many rows back the youngest older row stands that writes the register; 0 where no row does.
    pub back: u32,
    /// The cycles from its issue until the value can be read.
    pub lead: u32,
}

/// The links of the two reads of an instruction; that of a read that is not there names no row.
#[derive(Clone, Copy, Debug)]
pub struct Links {
    pub first: Link,
    pub second: Link,
}

// Of each register the last row that wrote it, while the rows of a body that is repeated go by.
#[derive(Drop)]
struct Writers {
    // One more than the row's number; 0 where no row wrote the register.
    last: [usize; 32],
}

// No register has been written.
fn no_rows() -> [usize; 32]
    ensures { (body : List Row) → AreLast body 0 result }
{
    [0; 32]
}

impl Writers {
    // Before the first row.
    fn none() -> Writers
        ensures { (body : List Row) → AreLast body 0 result.last }
    {
        Writers { last: no_rows() }
    }

    // Lets a row go by that writes a register.
    fn note(&mut self, row: usize, rd: Reg)
        requires { row < 2 * MOST_ROWS }
        ensures { (body : List Row) → rd_at body (row % length body) ≡ rd →
            AreLast body row self.old.last → AreLast body (row + 1) self.new.last }
    {
        self.last[rd.number() as usize] = row + 1;
    }

    // How many rows before a place of the body a register was written last, when all rows of the
    // iteration before have gone by; 0 where no instruction writes it.
    fn rows_back(&self, body: &[Bound], place: usize, reg: Reg) -> usize
        requires place { place < length body.now }
        requires few { length body.now ≤ MOST_ROWS }
        requires last { AreLast (map row_of body.now) (length body.now + place) self.now.last }
        ensures { IsBack (map row_of body.now) place reg result }
    {
        let last = self.last[reg.number() as usize];
        if last == 0 {
            return 0;
        }
        body.len() + place + 1 - last
    }
}

// The links of the instruction at a place of the body, by the last writers before it.
fn links_at<M: Machine>(machine: &M, body: &[Bound], place: usize, writers: &Writers) -> Links
    requires bound { AreBound (M.meaning machine.now) body.now }
    requires place { place < length body.now }
    requires few { length body.now ≤ MOST_ROWS }
    requires last { AreLast (map row_of body.now) (length body.now + place) writers.now.last }
    ensures links { (iterations j : ℕ) → j % length (map row_of body.now) ≡ place →
        AreLinks (input (M.meaning machine.now) (map row_of body.now) iterations) j result }
    ensures near { IsWithin (length body.now) result }
{
    links_of(machine, body, place, writers, &body[place])
}

// The same, by the instruction.
fn links_of<M: Machine>(
    machine: &M,
    body: &[Bound],
    place: usize,
    writers: &Writers,
    b: &Bound,
) -> Links
    requires bound { AreBound (M.meaning machine.now) body.now }
    requires place { place < length body.now }
    requires few { length body.now ≤ MOST_ROWS }
    requires last { AreLast (map row_of body.now) (length body.now + place) writers.now.last }
    requires here { row_of b.now ≡ slice_index_or (map row_of body.now) place no_row }
    requires b { IsBound (M.meaning machine.now) b.now }
    ensures links { (iterations j : ℕ) → j % length (map row_of body.now) ≡ place →
        AreLinks (input (M.meaning machine.now) (map row_of body.now) iterations) j result }
    ensures near { IsWithin (length body.now) result }
{
    let reads = &b.reads[..b.read_count as usize];
    let first = link_of(machine, body, place, writers, reads, 0);
    let second = link_of(machine, body, place, writers, reads, 1);
    Links { first, second }
}

// The link of the read with a number, if there is one.
fn link_of<M: Machine>(
    machine: &M,
    body: &[Bound],
    place: usize,
    writers: &Writers,
    reads: &[Source],
    k: usize,
) -> Link
    requires bound { AreBound (M.meaning machine.now) body.now }
    requires place { place < length body.now }
    requires few { length body.now ≤ MOST_ROWS }
    requires last { AreLast (map row_of body.now) (length body.now + place) writers.now.last }
    requires classes { list_all (has_class (M.meaning machine.now)) reads.now ≡ true }
    ensures some { k < length reads.now → (iterations j : ℕ) → j % length (map row_of body.now) ≡ place →
        IsLink (input (M.meaning machine.now) (map row_of body.now) iterations) j
        (slice_index_or reads.now k no_source) result }
    ensures none { length reads.now ≤ k → result.back ≡ 0 }
    ensures near { result.back ≤ length body.now }
{
    if k >= reads.len() {
        return Link { back: 0, lead: 0 };
    }
    let read = reads[k];
    link_to(
        machine,
        body,
        place,
        read,
        writers.rows_back(body, place, read.reg),
    )
}

// The link of a read, by how many rows back its register was written last.
fn link_to<M: Machine>(machine: &M, body: &[Bound], place: usize, read: Source, back: usize) -> Link
    requires bound { AreBound (M.meaning machine.now) body.now }
    requires place { place < length body.now }
    requires few { length body.now ≤ MOST_ROWS }
    requires back { IsBack (map row_of body.now) place read.reg back }
    requires class { has_class (M.meaning machine.now) read ≡ true }
    ensures link { (iterations j : ℕ) → j % length (map row_of body.now) ≡ place →
        IsLink (input (M.meaning machine.now) (map row_of body.now) iterations) j read result }
    ensures near { result.back ≤ length body.now }
{
    if read.reg.number() == 0 {
        return Link { back: 0, lead: 0 };
    }
    if back == 0 {
        return Link { back: 0, lead: 0 };
    }
    let from = &body[(place + body.len() - back) % body.len()];
    Link {
        back: back as u32,
        lead: lead(machine, read.read, from),
    }
}

// The last writers when the rows of one iteration have gone by.
fn writers_once(body: &[Bound]) -> Writers
    requires { length body.now ≤ MOST_ROWS }
    ensures { AreLast (map row_of body.now) (length body.now) result.last }
{
    let mut writers = Writers::none();
    for place in 0..body.len() {
        writers.note(place, body[place].rd);
    }
    writers
}

/// The links of each instruction of a body, of up to 1,048,576, that is bound by the machine. They
/// name rows no further back than one iteration.
///
/// # Errors
///
/// Want of memory.
pub fn all_links<M: Machine>(
    alloc: Global,
    machine: &M,
    body: &[Bound],
) -> Result<Vec<Links>, NoMemory>
    requires bound { AreBound (M.meaning machine.now) body.now }
    requires few { length body.now ≤ MOST_ROWS }
    ensures size { IfOk result (λ links. length links.items ≡ length body.now) }
    ensures linked { IfOk result (λ links. AllLinks (M.meaning machine.now) (map row_of body.now)
        (length body.now) links.items) }
    ensures near { IfOk result (λ links. All (IsWithin (length body.now)) links.items) }
{
    let mut links = Vec::with_capacity(alloc, body.len())?;
    let mut writers = writers_once(body);
    for place in 0..body.len() {
        links.push(links_at(machine, body, place, &writers))?;
        writers.note(body.len() + place, body[place].rd);
    }
    Ok(links)
}
