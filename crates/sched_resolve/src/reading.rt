//! Reading a record: its class, its arguments and its fields.
ghost use Rattle.std.specs.Prelude.{◌≡◌, nat_eq, option_map, drop, map, IfOk};
ghost use Rattle.std.specs.Cmp.Lexicographic.{pointwise};
ghost use Rattle.std.specs.List.{list_any};
ghost use Rattle.sched_records.specs.Classes.{class_of};
ghost use Rattle.sched_resolve.specs.Reading.{argument, value_among, field, number_of, word_of, truth_of, number_or, word_in, is_true, atoms_in, instrs_in};
ghost use Rattle.sched_resolve.specs.Entries.{first_name};

use mca_fixed::{Items, Name, NoMemory};
use sched_records::{Atom, Class, Field, Member, Record, Shared, Value, class_of};
use std::alloc::Global;

/// The class of a record; none where its name is that of no class.
pub fn class_in(one: &Record) -> Option<Class>
    ensures { result ≡ class_of one.now.class }
{
    class_of(one.class.as_bytes())
}

/// An argument, by its place from 0.
pub fn argument(one: &Record, place: usize) -> Option<&Value>
    ensures { option_map (λ v. v.now) result ≡ argument one.now place }
{
    one.args.as_slice().get(place)
}

fn value_among<'r>(name: &[u8], members: &'r [Member]) -> Option<&'r Shared<Value>>
    ensures { option_map (λ v. v.now) result ≡ value_among name.now members.now }
{
    for member in members {
        if member.name.as_bytes() == name {
            return Some(&member.value);
        }
    }
    None
}

/// The value of a field that is given, with its owners.
#[tactic(auto, unfolding(crate::specs::Reading::field))]
pub fn shared_field(one: &Record, name: Field) -> Option<&Shared<Value>>
    ensures { option_map (λ v. v.now) result ≡ field one.now name }
{
    value_among(name.name().as_bytes(), one.members.as_slice())
}

/// The value of a field that is given.
pub fn field(one: &Record, name: Field) -> Option<&Value>
    ensures { option_map (λ v. v.now) result ≡ field one.now name }
{
    match shared_field(one, name) {
        None => None,
        Some(value) => Some(value.get()),
    }
}

/// The number of an atom, 0 where it is none.
pub fn number_of(atom: &Atom) -> i64
    ensures { result ≡ number_of atom.now }
{
    match atom {
        Atom::Number(number) => *number,
        Atom::Quoted(_) => 0,
        Atom::Word(_) => 0,
    }
}

/// The name of an atom, empty where it is none.
pub fn word_of(atom: &Atom) -> &[u8]
    ensures { result.now ≡ word_of atom.now }
{
    match atom {
        Atom::Number(_) => &[],
        Atom::Quoted(_) => &[],
        Atom::Word(name) => name.as_bytes(),
    }
}

/// Whether an atom says `true`.
pub fn truth_of(atom: &Atom) -> bool
    ensures { result ≡ truth_of atom.now }
{
    match atom {
        Atom::Number(number) => *number != 0,
        Atom::Quoted(_) => false,
        Atom::Word(name) => name.as_bytes() == b"true".as_slice(),
    }
}

fn number_in(default: i64, value: Option<&Value>) -> i64
    ensures { result ≡ number_or default (option_map (λ v. v.now) value.entry) }
{
    match value {
        Some(Value::One(atom)) => number_of(atom),
        _ => default,
    }
}

/// The name that a value is, empty where it is none.
pub fn word_in(value: Option<&Value>) -> &[u8]
    ensures { result.now ≡ word_in (option_map (λ v. v.now) value.entry) }
{
    match value {
        Some(Value::One(atom)) => word_of(atom),
        _ => &[],
    }
}

fn is_true(value: Option<&Value>) -> bool
    ensures { result ≡ is_true (option_map (λ v. v.now) value.entry) }
{
    match value {
        Some(Value::One(atom)) => truth_of(atom),
        _ => false,
    }
}

fn atoms_in(value: Option<&Value>) -> &[Atom]
    ensures { result.now ≡ atoms_in (option_map (λ v. v.now) value.entry) }
{
    match value {
        Some(Value::List(atoms)) => atoms.as_slice(),
        _ => &[],
    }
}

fn instrs_in(value: Option<&Value>) -> &[Name]
    ensures { result.now ≡ instrs_in (option_map (λ v. v.now) value.entry) }
{
    match value {
        Some(Value::Instrs(names)) => names.as_slice(),
        _ => &[],
    }
}

/// The number of an argument.
pub fn argument_number(default: i64, one: &Record, place: usize) -> i64
    ensures { result ≡ number_or default (argument one.now place) }
{
    number_in(default, argument(one, place))
}

/// The name that an argument is, empty where it is none.
pub fn argument_word(one: &Record, place: usize) -> &[u8]
    ensures { result.now ≡ word_in (argument one.now place) }
{
    word_in(argument(one, place))
}

/// The elements of an argument that is a list.
pub fn argument_atoms(one: &Record, place: usize) -> &[Atom]
    ensures { result.now ≡ atoms_in (argument one.now place) }
{
    atoms_in(argument(one, place))
}

/// The names of an argument that is `(instrs ..)`.
pub fn argument_instrs(one: &Record, place: usize) -> &[Name]
    ensures { result.now ≡ instrs_in (argument one.now place) }
{
    instrs_in(argument(one, place))
}

/// The number of a field.
pub fn field_number(default: i64, one: &Record, name: Field) -> i64
    ensures { result ≡ number_or default (field one.now name) }
{
    number_in(default, field(one, name))
}

/// Whether a field says `true`.
pub fn field_truth(one: &Record, name: Field) -> bool
    ensures { result ≡ is_true (field one.now name) }
{
    is_true(field(one, name))
}

/// The numbers of a list.
pub fn numbers(alloc: Global, atoms: &[Atom]) -> Result<Items<i64>, NoMemory>
    ensures { IfOk result (λ n. n ≡ map number_of atoms.now) }
{
    let mut found = Vec::with_capacity(alloc, atoms.len())?;
    for atom in atoms {
        found.push(number_of(atom))?;
    }
    Ok(Items::from_vec(found))
}

/// Whether some element of a list says `true`.
pub fn some_truth(atoms: &[Atom]) -> bool
    ensures { result ≡ list_any truth_of atoms.now }
{
    atoms.iter().any(|a| truth_of(a))
}

/// The elements behind the first `count`.
pub fn behind(atoms: &[Atom], count: usize) -> &[Atom]
    ensures { result.now ≡ drop count atoms.now }
{
    match atoms.get(count..) {
        Some(rest) => rest,
        None => &[],
    }
}

/// The name of the first element, empty where there is none.
pub fn first_word(atoms: &[Atom]) -> &[u8]
    ensures { result.now ≡ first_name (map word_of atoms.now) }
{
    match atoms.first() {
        Some(atom) => word_of(atom),
        None => &[],
    }
}
