//! What the records that stand before one say of it.
ghost use Rattle.std.specs.Prelude.{◌≡◌, ℕ, ◌+◌, ◌<◌, ◌^◌, ◌-◌, List, [], length, filter, take, map, nat_eq, true, Contains, ◌||◌, ◌&&◌, IfOk, OnOk, if◌then◌else◌};
ghost use Rattle.std.specs.Cmp.Lexicographic.{pointwise};
ghost use Rattle.std.specs.List.{list_any};
ghost use Rattle.sched_resolve.specs.Reading.{word_of};
ghost use Rattle.sched_resolve.specs.Names.{names_in};
ghost use Rattle.sched_resolve.specs.Entries.{is_second_write, is_second_advance};
ghost use Rattle.sched_resolve.specs.Noted.{is_write_res, advance_class, writes_class, is_general, lists};

use crate::name_space::{NameSpace, is_advance};
use crate::names::Names;
use crate::reading::{argument_atoms, argument_word, class_in, word_of};
use indexmap::IndexSet;
use mca_fixed::NoMemory;
use sched_records::{Atom, Class, Record};
use std::alloc::Global;
use std::marker::Model;

/// The first records of a table, with what they say of later ones. Contracts see the table and the
/// records.
pub struct Earlier<'r> {
    records: &'r [Record],
    count: usize,
    /// How many of them are advances.
    advances: usize,
    /// The classes that have a `WriteRes`.
    classes: IndexSet<&'r [u8]>,
    /// The reads that have an advance which lists no name.
    general: IndexSet<usize>,
    /// The reads with the names that their advances list.
    listed: IndexSet<(usize, &'r [u8])>,
}

impl<'r> Model for Earlier<'r> {
    ghost use Rattle.std.specs.Prelude.{take};
    ghost use Rattle.sched_resolve.specs.Noted.{Seen};

    ghost Value = { Seen };

    ghost use Rattle.sched_resolve.specs.Seen.{AreSeen};

    ghost view = { λ s. record { table = s.records.now; earlier = take s.count s.records.now } };

    ghost invariant = { AreSeen };
}

fn is_write_res(class: Option<Class>) -> bool
    ensures { result ≡ is_write_res class }
{
    matches!(class, Some(Class::WriteRes))
}

fn note_class<'r>(classes: &mut IndexSet<&'r [u8]>, one: &'r Record) -> Result<(), NoMemory>
    ensures { OnOk result ((n : List ℕ) → list_any (λ k. pointwise nat_eq n k.now) classes.new.keys ≡ (list_any (λ k. pointwise nat_eq n k.now) classes.old.keys || writes_class n one.now)) }
{
    if !is_write_res(class_in(one)) {
        return Ok(());
    }
    classes.insert(argument_word(one, 0))?;
    Ok(())
}

fn note_general(general: &mut IndexSet<usize>, read: usize, atoms: &[Atom]) -> Result<(), NoMemory>
    ensures { OnOk result ((p : ℕ) → list_any (nat_eq p) general.new.keys ≡ (list_any (nat_eq p) general.old.keys || (nat_eq p read && nat_eq (length atoms.now) 0))) }
{
    if !atoms.is_empty() {
        return Ok(());
    }
    general.insert(read)?;
    Ok(())
}

fn note_listed<'r>(
    listed: &mut IndexSet<(usize, &'r [u8])>,
    read: usize,
    atoms: &'r [Atom],
) -> Result<(), NoMemory>
    ensures { OnOk result ((p : ℕ) (n : List ℕ) → list_any (λ k. nat_eq p k.0 && pointwise nat_eq n k.1.now) listed.new.keys
        ≡ (list_any (λ k. nat_eq p k.0 && pointwise nat_eq n k.1.now) listed.old.keys || (nat_eq p read && list_any (pointwise nat_eq n) (map word_of atoms.now)))) }
{
    for atom in atoms {
        listed.insert((read, word_of(atom)))?;
    }
    Ok(())
}

fn note_advance<'r>(
    general: &mut IndexSet<usize>,
    listed: &mut IndexSet<(usize, &'r [u8])>,
    names: &Names,
    one: &'r Record,
) -> Result<(), NoMemory>
    ensures general { OnOk result ((p : ℕ) → list_any (nat_eq p) general.new.keys ≡ (list_any (nat_eq p) general.old.keys || is_general names.now p one.now)) }
    ensures listed { OnOk result ((p : ℕ) (n : List ℕ) → list_any (λ k. nat_eq p k.0 && pointwise nat_eq n k.1.now) listed.new.keys
        ≡ (list_any (λ k. nat_eq p k.0 && pointwise nat_eq n k.1.now) listed.old.keys || lists names.now p n one.now)) }
{
    if !is_advance(class_in(one)) {
        return Ok(());
    }
    match names.first_place(NameSpace::Read, argument_word(one, 0)) {
        None => Ok(()),
        Some(read) => {
            let atoms = argument_atoms(one, 2);
            note_general(general, read, atoms)?;
            note_listed(listed, read, atoms)?;
            Ok(())
        }
    }
}

fn with_one(advances: usize, one: &Record) -> usize
    requires { advances < 2 ^ 64 - 1 }
    ensures { result ≡ advances + (if advance_class one.now then 1 else 0) }
{
    if is_advance(class_in(one)) {
        advances + 1
    } else {
        advances
    }
}

/// Written out, so that what drops it does so by a call: to check the drop of a set takes long.
impl<'r> Drop for Earlier<'r> {
    fn drop(self) {
        let Earlier {
            records: _,
            count: _,
            advances: _,
            classes: _,
            general: _,
            listed: _,
        } = self;
    }
}

impl<'r> Earlier<'r> {
    /// None of the records of a table.
    pub fn none(alloc: Global, records: &'r [Record]) -> Earlier<'r>
        ensures { result ≡ record { table = records.now; earlier = [] } }
    {
        Earlier {
            records,
            count: 0,
            advances: 0,
            classes: IndexSet::new(alloc),
            general: IndexSet::new(alloc),
            listed: IndexSet::new(alloc),
        }
    }

    /// One record of the table more.
    pub fn next(self, names: &Names) -> Result<Earlier<'r>, NoMemory>
        requires table { names.now ≡ self.table }
        requires more { length self.earlier < length self.table }
        ensures { IfOk result (λ s. s ≡ record { table = self.entry.table; earlier = take (length self.entry.earlier + 1) self.entry.table }) }
    {
        let Earlier {
            records,
            count,
            advances,
            mut classes,
            mut general,
            mut listed,
        } = self;
        let one = &records[count];
        note_class(&mut classes, one)?;
        note_advance(&mut general, &mut listed, names, one)?;
        Ok(Earlier {
            records,
            count: count + 1,
            advances: with_one(advances, one),
            classes,
            general,
            listed,
        })
    }

    /// How many of the records are advances.
    pub fn advances(&self) -> usize
        ensures { result ≡ length (filter advance_class self.now.earlier) }
    {
        self.advances
    }

    /// Whether one of them is a `WriteRes` of the class that this one is of.
    pub fn is_second_write(&self, one: &Record) -> bool
        ensures { result ≡ is_second_write self.now.earlier one.now }
    {
        self.classes.contains(argument_word(one, 0))
    }

    fn is_general(&self, read: usize) -> bool
        ensures { result ≡ list_any (is_general self.now.table read) self.now.earlier }
    {
        self.general.contains(&read)
    }

    fn is_listed(&self, read: usize, name: &[u8]) -> bool
        ensures { result ≡ list_any (lists self.now.table read name.now) self.now.earlier }
    {
        self.listed.contains(&(read, name))
    }

    fn is_some_listed(&self, read: usize, atoms: &[Atom]) -> bool
        ensures { result ≡ list_any (λ n. list_any (lists self.now.table read n) self.now.earlier) (map word_of atoms.now) }
    {
        for atom in atoms {
            if self.is_listed(read, word_of(atom)) {
                return true;
            }
        }
        false
    }

    fn has_advance(&self, read: usize, atoms: &[Atom]) -> bool
        ensures { result ≡ (if nat_eq (length atoms.now) 0 then list_any (is_general self.now.table read) self.now.earlier
            else list_any (λ n. list_any (lists self.now.table read n) self.now.earlier) (map word_of atoms.now)) }
    {
        if atoms.is_empty() {
            return self.is_general(read);
        }
        self.is_some_listed(read, atoms)
    }

    /// Whether one of them is a `ReadAdvance` of the same read, and lists one of the same names, or both
    /// list none.
    pub fn is_second_advance(&self, names: &Names, one: &Record) -> bool
        requires table { names.now ≡ self.now.table }
        requires stands { Contains self.now.table one.now }
        requires advance { advance_class one.now ≡ true }
        ensures { result ≡ is_second_advance self.now.earlier one.now }
    {
        match names.first_place(NameSpace::Read, argument_word(one, 0)) {
            None => false,
            Some(read) => self.has_advance(read, argument_atoms(one, 2)),
        }
    }
}
