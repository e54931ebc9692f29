//! The advances of a table's machine.
ghost use Rattle.std.specs.Prelude.{◌≡◌, ◌&&◌, ℕ, List, [], ◌∷◌, ◌++◌, nat_eq, map, All, OnOk, IfOk, Some, None, if◌then◌else◌};
ghost use Rattle.std.specs.List.{list_any};
ghost use Rattle.std.specs.Option.{option_or};
ghost use Rattle.indexmap.specs.IndexMap.{get};
ghost use Rattle.sched_resolve.specs.declared.entry.Advance.{Advance as AdvanceOf};
ghost use Rattle.sched_validate.specs.Advances.{same_pair, StandsFor, IsSmallAdvance};
ghost use Rattle.sched_validate.specs.Classes.{advance_after};

use crate::narrow::signed;
use indexmap::IndexMap;
use mca_fixed::NoMemory;
use sched_resolve::Advance;
use std::alloc::Global;

/// The cycles of the advances that are supported: of a read after a write that one lists, and of a read
/// whose advance lists no write. Of several the first counts.
#[derive(Drop)]
pub struct Advances {
    listed: IndexMap<(usize, usize), i32>,
    general: IndexMap<usize, i32>,
}

/// Keeps the cycles for a read after a write, where none were kept.
fn list_one(
    listed: &mut IndexMap<(usize, usize), i32>,
    key: (usize, usize),
    cycles: i32,
) -> Result<(), NoMemory>
    ensures { OnOk result ((read write : ℕ) → get same_pair listed.new (read, write)
        ≡ option_or (get same_pair listed.old (read, write))
        (if nat_eq key.0 read && nat_eq key.1 write then Some cycles else None)) }
{
    if listed.get(&key).is_none() {
        listed.insert(key, cycles)?;
    }
    Ok(())
}

/// Keeps the cycles for a read, where none were kept.
fn list_general(
    general: &mut IndexMap<usize, i32>,
    read: usize,
    cycles: i32,
) -> Result<(), NoMemory>
    ensures { OnOk result ((r : ℕ) → get nat_eq general.new r
        ≡ option_or (get nat_eq general.old r) (if nat_eq read r then Some cycles else None)) }
{
    if general.get(&read).is_none() {
        general.insert(read, cycles)?;
    }
    Ok(())
}

/// The same of an advance that lists no write, and nothing of any other.
fn note_general(
    general: &mut IndexMap<usize, i32>,
    advance: &Advance,
    cycles: i32,
) -> Result<(), NoMemory>
    ensures { OnOk result ((r : ℕ) → get nat_eq general.new r
        ≡ option_or (get nat_eq general.old r)
        (if nat_eq advance.now.read r && advance.now.general then Some cycles else None)) }
{
    if !advance.general {
        return Ok(());
    }
    list_general(general, advance.read, cycles)
}

/// The cycles of an advance.
fn cycles_of(advance: &Advance) -> i32
    requires { IsSmallAdvance advance.now }
    ensures { result ≡ advance.now.cycles }
{
    signed(advance.cycles)
}

/// Keeps the cycles for a read after these writes, where none were kept.
fn list(
    listed: &mut IndexMap<(usize, usize), i32>,
    read: usize,
    writes: &[usize],
    cycles: i32,
) -> Result<(), NoMemory>
    ensures { OnOk result ((r w : ℕ) → get same_pair listed.new (r, w)
        ≡ option_or (get same_pair listed.old (r, w))
        (if nat_eq read r && list_any (λ v. nat_eq v w) writes.now then Some cycles else None)) }
{
    for write in writes {
        list_one(listed, (read, *write), cycles)?;
    }
    Ok(())
}

/// The cycles that are kept for a read after a write. Many tables list none, and then no key is hashed.
fn listed_at(listed: &IndexMap<(usize, usize), i32>, key: (usize, usize)) -> Option<i32>
    ensures { result ≡ get same_pair listed.now key }
{
    if listed.is_empty() {
        return None;
    }
    listed.get(&key).copied()
}

/// The cycles that are kept for a read, after whatever write; the same.
fn general_at(general: &IndexMap<usize, i32>, read: usize) -> Option<i32>
    ensures { result ≡ get nat_eq general.now read }
{
    if general.is_empty() {
        return None;
    }
    general.get(&read).copied()
}

impl Advances {
    /// No advance.
    pub(crate) fn none(alloc: Global) -> Advances
        ensures { StandsFor result [] }
    {
        Advances {
            listed: IndexMap::new(alloc),
            general: IndexMap::new(alloc),
        }
    }

    /// One more.
    fn add(&mut self, advance: &Advance) -> Result<(), NoMemory>
        requires { IsSmallAdvance advance.now }
        ensures { OnOk result ((all : List AdvanceOf) → StandsFor self.old all
            → StandsFor self.new (all ++ advance.now ∷ [])) }
    {
        if advance.unsupported {
            return Ok(());
        }
        let cycles = cycles_of(advance);
        note_general(&mut self.general, advance, cycles)?;
        list(
            &mut self.listed,
            advance.read,
            advance.writes.as_slice(),
            cycles,
        )?;
        Ok(())
    }

    /// By how many cycles a read comes before the completion of a write.
    pub(crate) fn after(&self, read: usize, write: usize) -> i32
        ensures { (all : List AdvanceOf) → StandsFor self.now all
            → result ≡ advance_after all read write }
    {
        if let Some(cycles) = listed_at(&self.listed, (read, write)) {
            return cycles;
        }
        match general_at(&self.general, read) {
            Some(cycles) => cycles,
            None => 0,
        }
    }
}

/// The advances of a table.
pub(crate) fn kept_advances(alloc: Global, all: &[&Advance]) -> Result<Advances, NoMemory>
    requires { All (λ a. IsSmallAdvance a.now) all.now }
    ensures { IfOk result (λ kept. StandsFor kept (map (λ a. a.now) all.now)) }
{
    let mut kept = Advances::none(alloc);
    for advance in all {
        kept.add(advance)?;
    }
    Ok(kept)
}
