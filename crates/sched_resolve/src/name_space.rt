//! Name spaces: the places that names have in them, each that of the first record which has the name there.
ghost use Rattle.std.specs.Prelude.{◌≡◌, ℕ, List, nat_eq, None, Some, position, IfOk, OnOk, if◌then◌else◌};
ghost use Rattle.std.specs.Cmp.Lexicographic.{pointwise};
ghost use Rattle.std.specs.Option.{option_or};
ghost use Rattle.sched_resolve.specs.Names as spec;
ghost use Rattle.sched_resolve.specs.Places.{first_place, HasPlaces};

use crate::reading::{argument_word, class_in};
use indexmap::IndexMap;
use mca_fixed::NoMemory;
use sched_records::{Class, Record};
use std::alloc::Global;

/// What records are looked up as.
#[derive(Clone, Copy, Debug)]
pub enum NameSpace {
    Model,
    Resource,
    /// A write by the name that it has itself.
    OwnWrite,
    /// A write by the class that it gives the resources of.
    WrittenClass,
    /// A `ReadAdvance` by its read.
    Read,
}

/// Whether records of the class are models.
pub fn is_model(class: Option<Class>) -> bool
    ensures { result ≡ spec.is_model class }
{
    matches!(class, Some(Class::SchedMachineModel))
}

/// Whether records of the class are resources.
pub fn is_resource(class: Option<Class>) -> bool
    ensures { result ≡ spec.is_resource class }
{
    matches!(class, Some(Class::ProcResource | Class::ProcResGroup))
}

/// Whether records of the class are writes.
pub fn is_write(class: Option<Class>) -> bool
    ensures { result ≡ spec.is_write class }
{
    matches!(class, Some(Class::WriteRes | Class::SchedWriteRes))
}

/// Whether records of the class are `ReadAdvance`s.
pub fn is_advance(class: Option<Class>) -> bool
    ensures { result ≡ spec.is_advance class }
{
    matches!(class, Some(Class::ReadAdvance))
}

fn class_written(class: Option<Class>, one: &Record) -> &[u8]
    ensures { result.now ≡ spec.class_written class one.now }
{
    match class {
        Some(Class::WriteRes) => argument_word(one, 0),
        _ => &[],
    }
}

fn own_name(class: Option<Class>, one: &Record) -> &[u8]
    ensures { result.now ≡ spec.own_name class one.now }
{
    match class {
        Some(Class::WriteRes) => &[],
        _ => one.name.as_bytes(),
    }
}

fn has_place(space: NameSpace, class: Option<Class>) -> bool
    ensures { result ≡ spec.has_place space class }
{
    match space {
        NameSpace::Model => is_model(class),
        NameSpace::Resource => is_resource(class),
        NameSpace::OwnWrite => is_write(class),
        NameSpace::WrittenClass => is_write(class),
        NameSpace::Read => is_advance(class),
    }
}

fn name_by(space: NameSpace, class: Option<Class>, one: &Record) -> &[u8]
    ensures { result.now ≡ spec.name_by space class one.now }
{
    match space {
        NameSpace::Model => one.name.as_bytes(),
        NameSpace::Resource => one.name.as_bytes(),
        NameSpace::OwnWrite => own_name(class, one),
        NameSpace::WrittenClass => class_written(class, one),
        NameSpace::Read => argument_word(one, 0),
    }
}

/// Names with the places of the first that have them.
pub struct Places<'r> {
    map: IndexMap<&'r [u8], usize>,
}

/// Written out, so that what drops places does it by a call: to check the drop of a map takes long.
impl<'r> Drop for Places<'r> {
    fn drop(self) {
        let Places { map: _ } = self;
    }
}

impl<'r> Places<'r> {
    fn new(alloc: Global) -> Places<'r>
        ensures { (n : List ℕ) → first_place result n ≡ None }
    {
        Places {
            map: IndexMap::new(alloc),
        }
    }

    /// Puts a name at a place, unless it has one.
    fn put(&mut self, name: &'r [u8], place: usize) -> Result<(), NoMemory>
        ensures { OnOk result ((n : List ℕ) → first_place self.new n ≡ option_or (first_place self.old n) (if pointwise nat_eq n name.now then Some place else None)) }
    {
        if self.map.contains_key(name) {
            return Ok(());
        }
        self.map.insert(name, place)?;
        Ok(())
    }

    /// The place of a name, the empty one too.
    pub fn first_place(&self, name: &[u8]) -> Option<usize>
        ensures { result ≡ first_place self.now name.now }
    {
        self.map.get(name).copied()
    }
}

/// The places of the names of a name space.
pub fn places_of<'r>(
    alloc: Global,
    space: NameSpace,
    records: &'r [Record],
) -> Result<Places<'r>, NoMemory>
    ensures { IfOk result (HasPlaces space records.now) }
{
    let mut places = Places::new(alloc);
    let mut count = 0;
    for one in records {
        let class = class_in(one);
        if has_place(space, class) {
            places.put(name_by(space, class, one), count)?;
            count += 1;
        }
    }
    Ok(places)
}
