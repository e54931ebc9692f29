//! A shelf in memory.
ghost use Rattle.std.specs.Prelude.{◌≡◌, List, ℕ, ◌<◌, ◌≤◌, [], length, IfOk, OnOk, OnErr, Some, None, Ok, Err, true, if◌then◌else◌, is_some, is_err, nat_eq, take, drop, min, ◌++◌, ◌+◌};
ghost use Rattle.std.specs.Cmp.Lexicographic.{pointwise};
ghost use Rattle.std.specs.Io.KnownBytes.{ReadConsumes};
ghost use Rattle.mca_io.specs.Devices.{HasCause, Opens};
ghost use Rattle.mca_io.specs.MemShelf.{content_of, choose_fails, after_choose, call_fails, given, after_read, read_into, IsPlace, rest_of};

use crate::failed::Failed;
use crate::listed::listed;
use crate::shelf::Shelf;
use mca_fixed::{Items, NoMemory, Text};
use std::alloc::Global;
use std::marker::Model;

/// A file in memory.
#[derive(Drop)]
pub struct MemFile {
    pub name: Text,
    pub bytes: Items<u8>,
}

/// Files in memory, on a shelf that fails at chosen calls. Only making it and adding a file take
/// memory.
#[derive(Drop)]
pub struct MemShelf {
    alloc: Global,
    files: Vec<MemFile>,
    chosen: Option<usize>,
    at: usize,
    take: usize,
    failing: Vec<u64>,
    calls: u64,
    faults: u64,
}

impl Model for MemShelf {
    ghost use Rattle.std.specs.Prelude.{◌≤◌, ◌<◌, length, slice_index_or};
    ghost use Rattle.std.specs.Option.{ForSome};
    ghost use Rattle.mca_io.specs.MemShelf.{ShelfState, rest_of, no_file};

    ghost Value = { ShelfState };

    ghost view = { λ s. record {
      files = s.files.items;
      rest = rest_of s.files.items s.chosen s.at;
      take = s.take;
      failing = s.failing.items;
      calls = s.calls;
      faults = s.faults;
    } };

    ghost invariant = { λ s. (1 ≤ s.take) × ForSome s.chosen (λ k. (k < length s.files.items) × (s.at ≤ length (slice_index_or s.files.items k no_file).bytes)) };
}

// The place of the file with this name.
fn place_of(files: &[MemFile], name: &str) -> Option<usize>
    ensures place { IsPlace files.now name.now result }
    ensures content { content_of files.now name.now ≡ rest_of files.now result 0 }
{
    for (place, file) in files.iter().enumerate() {
        if file.name.as_str() == name {
            return Some(place);
        }
    }
    None
}

// Puts these bytes in the place of the file with this name, or adds a file.
fn put_file(
    alloc: Global,
    files: &mut Vec<MemFile>,
    name: &str,
    bytes: Items<u8>,
) -> Result<(), NoMemory>
    ensures ok { OnOk result ((n : List ℕ) → content_of files.new.items n ≡ (if pointwise nat_eq name.now n then Some bytes else content_of files.old.items n)) }
    ensures err { OnErr result (files.new.items ≡ files.old.items) }
{
    match place_of(files, name) {
        Some(place) => files[place].bytes = bytes,
        None => {
            let name = Text::from_string(String::from_str(alloc, name)?);
            files.push(MemFile { name, bytes })?;
        }
    }
    Ok(())
}

impl MemShelf {
    /// A shelf without files. A read gives at most `take` bytes; the calls with the numbers in
    /// `failing`, `choose` and `read` counted together from 1, fail.
    pub fn make(alloc: Global, take: usize, failing: &[u64]) -> Result<MemShelf, NoMemory>
        requires { 1 ≤ take }
        ensures { IfOk result (λ shelf. shelf ≡ record { files = []; rest = None; take = take; failing = failing.now; calls = 0; faults = 0 }) }
    {
        Ok(MemShelf {
            alloc,
            files: Vec::new(alloc),
            chosen: None,
            at: 0,
            take,
            failing: Vec::from_slice(alloc, failing)?,
            calls: 0,
            faults: 0,
        })
    }

    /// Adds a file, in place of the one that had this name. No file is chosen afterwards. A refusal
    /// changes nothing.
    pub fn add_file(&mut self, name: &str, bytes: &[u8]) -> Result<(), NoMemory>
        ensures told { OnOk result ((n : List ℕ) → content_of self.new.files n ≡ (if pointwise nat_eq name.now n then Some bytes.now else content_of self.old.files n)) }
        ensures kept { OnOk result (self.new ≡ record self.old { files = self.new.files; rest = None }) }
        ensures err { OnErr result (self.new ≡ self.old) }
    {
        let bytes = Items::from_vec(Vec::from_slice(self.alloc, bytes)?);
        put_file(self.alloc, &mut self.files, name, bytes)?;
        self.chosen = None;
        Ok(())
    }

    /// The count of faults, which is that of every name.
    pub fn faults(&self) -> u64
        ensures { result ≡ self.now.faults }
    {
        self.faults
    }
}

impl Shelf for MemShelf {
    ghost told = { λ s n. Some (content_of s.files n) };

    ghost chosen = { λ s. is_some s.rest };

    ghost rest = { λ s. s.rest };

    ghost faults = { λ s n. s.faults };

    /// Fails exactly where its number is listed or no file has the name.
    fn choose(&mut self, name: &str) -> Result<(), Failed>
        ensures told { (n : List ℕ) → Some (content_of self.new.files n) ≡ Some (content_of self.old.files n) }
        ensures chosen { OnOk result (is_some self.new.rest ≡ true) }
        ensures opens { OnOk result (Opens (Some (content_of self.old.files name.now)) self.new.rest) }
        ensures err_chosen { OnErr result (is_some self.new.rest ≡ is_some self.old.rest) }
        ensures err_rest { OnErr result (self.new.rest ≡ self.old.rest) }
        ensures later { (n : List ℕ) → self.old.faults ≤ self.new.faults }
        ensures still { OnOk result ((n : List ℕ) → self.new.faults ≡ self.old.faults) }
        ensures cause { HasCause self.old.faults self.new.faults result }
        ensures answer { is_err result ≡ choose_fails self.old name.now }
        ensures after { self.new ≡ after_choose self.old name.now }
    {
        self.calls = self.calls.saturating_add(1);
        if listed(&self.failing, self.calls) {
            self.faults = self.faults.saturating_add(1);
            return Err(Failed);
        }
        match place_of(&self.files, name) {
            None => {
                self.faults = self.faults.saturating_add(1);
                Err(Failed)
            }
            Some(place) => {
                self.chosen = Some(place);
                self.at = 0;
                Ok(())
            }
        }
    }

    /// Gives the least of `take`, the buffer's length and what is left of the file. Fails exactly where
    /// its number is listed, and then leaves the buffer as it was.
    fn read(&mut self, buf: &mut [u8]) -> Result<usize, Failed>
        requires chosen { is_some self.old.rest ≡ true }
        requires room { 0 < length buf.old }
        ensures told { (n : List ℕ) → Some (content_of self.new.files n) ≡ Some (content_of self.old.files n) }
        ensures chosen { is_some self.new.rest ≡ true }
        ensures bound { IfOk result (λ n. n ≤ length buf.new) }
        ensures bytes { ReadConsumes self.old.rest self.new.rest result buf.new }
        ensures err { OnErr result (self.new.rest ≡ self.old.rest) }
        ensures still { OnOk result ((n : List ℕ) → self.new.faults ≡ self.old.faults) }
        ensures cause { (n : List ℕ) → HasCause self.old.faults self.new.faults result }
        ensures answer { result ≡ (if call_fails self.old then Err record {} else Ok (given self.old (length buf.old))) }
        ensures after { self.new ≡ after_read self.old (length buf.old) }
        ensures buffer { buf.new ≡ read_into self.old buf.old }
    {
        self.calls = self.calls.saturating_add(1);
        if listed(&self.failing, self.calls) {
            self.faults = self.faults.saturating_add(1);
            return Err(Failed);
        }
        let Some(place) = self.chosen else {
            unreachable!()
        };
        let n = give(self.files[place].bytes.as_slice(), self.at, self.take, buf);
        self.at += n;
        Ok(n)
    }
}

// Puts what stands from an offset on at the start of the buffer, as much as fits it and at most `most`
// bytes.
fn give(bytes: &[u8], at: usize, most: usize, buf: &mut [u8]) -> usize
    requires { at ≤ length bytes.now }
    ensures count { result ≡ min most (min (length buf.old) (length (drop at bytes.now))) }
    ensures within { at + result ≤ length bytes.now }
    ensures buffer { buf.new ≡ take result (drop at bytes.now) ++ drop result buf.old }
    ensures consumes { drop at bytes.now ≡ take result buf.new ++ drop (at + result) bytes.now }
{
    let n = most.min(buf.len().min(bytes.len() - at));
    buf[..n].copy_from_slice(&bytes[at..at + n]);
    n
}
