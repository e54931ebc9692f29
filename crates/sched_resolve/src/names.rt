//! What the names of a table stand for.
ghost use Rattle.std.specs.Prelude.{◌≡◌, nat_eq, position, is_some, IfOk};
ghost use Rattle.std.specs.Cmp.Lexicographic.{pointwise};
ghost use Rattle.sched_resolve.specs.Names.{names_in, place_of, write_named};
ghost use Rattle.sched_resolve.specs.Places.{HasPlaces};
ghost use Rattle.sched_resolve.specs.Entries.{in_model};

use crate::name_space::{NameSpace, Places, places_of};
use crate::reading::{field, word_in};
use mca_fixed::NoMemory;
use sched_records::{Field, Record};
use std::alloc::Global;
use std::marker::Model;

/// The records of a table, with the places of their names. Contracts see the records.
pub struct Names<'r> {
    records: &'r [Record],
    models: Places<'r>,
    resources: Places<'r>,
    own: Places<'r>,
    written: Places<'r>,
    reads: Places<'r>,
}

impl<'r> Model for Names<'r> {
    ghost use Rattle.std.specs.Prelude.{List};
    ghost use Rattle.sched_records.specs.declared.records.Record.{Record};

    ghost Value = { List Record };

    ghost use Rattle.sched_resolve.specs.Known.{AreKnown};

    ghost view = { λ s. s.records.now };

    ghost invariant = { AreKnown };
}

/// Written out, so that what drops names does it by a call.
impl<'r> Drop for Names<'r> {
    fn drop(self) {
        let Names {
            records: _,
            models: _,
            resources: _,
            own: _,
            written: _,
            reads: _,
        } = self;
    }
}

impl<'r> Names<'r> {
    /// The names of the records.
    pub fn of(alloc: Global, records: &'r [Record]) -> Result<Names<'r>, NoMemory>
        ensures { IfOk result (λ n. n ≡ records.now) }
    {
        let models = places_of(alloc, NameSpace::Model, records)?;
        let resources = places_of(alloc, NameSpace::Resource, records)?;
        let own = places_of(alloc, NameSpace::OwnWrite, records)?;
        let written = places_of(alloc, NameSpace::WrittenClass, records)?;
        let reads = places_of(alloc, NameSpace::Read, records)?;
        Ok(Names {
            records,
            models,
            resources,
            own,
            written,
            reads,
        })
    }

    fn places(&self, space: NameSpace) -> &Places<'r>
        ensures { HasPlaces space self.now result.now }
    {
        match space {
            NameSpace::Model => &self.models,
            NameSpace::Resource => &self.resources,
            NameSpace::OwnWrite => &self.own,
            NameSpace::WrittenClass => &self.written,
            NameSpace::Read => &self.reads,
        }
    }

    /// The place of a name in a name space, the empty name too.
    pub fn first_place(&self, space: NameSpace, name: &[u8]) -> Option<usize>
        ensures { result ≡ position (pointwise nat_eq name.now) (names_in space self.now) }
    {
        self.places(space).first_place(name)
    }

    /// The place of a name in a name space; the empty name has none.
    #[tactic(auto, unfolding(crate::specs::Names::place_of))]
    pub fn place(&self, space: NameSpace, name: &[u8]) -> Option<usize>
        ensures { result ≡ place_of space self.now name.now }
    {
        if name.is_empty() {
            return None;
        }
        self.first_place(space, name)
    }

    /// The write that a name stands for.
    pub fn write(&self, name: &[u8]) -> Option<usize>
        ensures { result ≡ write_named self.now name.now }
    {
        let own = self.place(NameSpace::OwnWrite, name);
        if own.is_some() {
            return own;
        }
        self.place(NameSpace::WrittenClass, name)
    }

    /// Whether a name stands for a write.
    pub fn is_write(&self, name: &[u8]) -> bool
        ensures { result ≡ is_some (write_named self.now name.now) }
    {
        self.write(name).is_some()
    }

    /// Whether `SchedModel` is not given, or names a model.
    #[tactic(auto, unfolding(crate::specs::Entries::in_model))]
    pub fn in_model(&self, one: &Record) -> bool
        ensures { result ≡ in_model self.now one.now }
    {
        match field(one, Field::SchedModel) {
            None => true,
            Some(value) => self.place(NameSpace::Model, word_in(Some(value))).is_some(),
        }
    }
}
