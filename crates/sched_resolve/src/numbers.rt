//! The numbers of a field.
ghost use Rattle.std.specs.Prelude.{◌≡◌, map, length, slice_get, option_map, IfOk};
ghost use Rattle.sched_resolve.specs.Reading.{atoms_in, number_of, numbers_in};

use crate::reading::number_of;
use mca_fixed::NoMemory;
use sched_records::{Atom, Shared, Value};
use std::fmt;
use std::marker::Model;

/// The numbers of a list that is the value of a field; none where it is no list. They stay in the
/// value, which a scope gives to many records. Contracts see the numbers.
#[derive(Drop)]
pub struct Numbers {
    value: Option<Shared<Value>>,
}

impl Model for Numbers {
    ghost use Rattle.std.specs.Prelude.{List, ℤ};
    ghost use Rattle.sched_resolve.specs.Reading.{numbers_in};

    ghost Value = { List ℤ };

    ghost view = { λ s. numbers_in s.value };
}

fn atoms_of(value: &Option<Shared<Value>>) -> &[Atom]
    ensures { result.now ≡ atoms_in value.now }
{
    match value {
        None => &[],
        Some(value) => match value.get() {
            Value::List(atoms) => atoms.as_slice(),
            _ => &[],
        },
    }
}

fn once_more(value: Option<&Shared<Value>>) -> Result<Option<Shared<Value>>, NoMemory>
    ensures { IfOk result (λ again. again ≡ option_map (λ v. v.now) value.entry) }
{
    match value {
        None => Ok(None),
        Some(value) => Ok(Some(value.again()?)),
    }
}

impl Numbers {
    /// The numbers of a field's value.
    pub(crate) fn of(value: Option<&Shared<Value>>) -> Result<Numbers, NoMemory>
        ensures { IfOk result (λ numbers. numbers ≡ numbers_in (option_map (λ v. v.now) value.entry)) }
    {
        Ok(Numbers {
            value: once_more(value)?,
        })
    }

    fn atoms(&self) -> &[Atom]
        ensures { map number_of result.now ≡ self.now }
    {
        atoms_of(&self.value)
    }

    /// How many they are.
    pub fn len(&self) -> usize
        ensures { result ≡ length self.now }
    {
        self.atoms().len()
    }

    /// The number at a place from 0; none past the last.
    pub fn get(&self, place: usize) -> Option<i64>
        ensures { result ≡ slice_get self.now place }
    {
        match self.atoms().get(place) {
            None => None,
            Some(atom) => Some(number_of(atom)),
        }
    }
}

impl fmt::Debug for Numbers {
    fn fmt<W: fmt::Write>(&self, f: &mut fmt::Formatter<W>) -> fmt::Result {
        f.debug_list()
            .entries(self.atoms().iter().map(|atom| number_of(atom)))
            .finish()
    }
}
