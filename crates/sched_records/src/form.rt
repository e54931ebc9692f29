//! The forms of values.
ghost use Rattle.std.specs.Prelude.{◌≡◌, ◌<◌, length, OnOk};
ghost use Rattle.std.specs.List.{list_all};
ghost use Rattle.sched_records.specs.Shown.{seen};
ghost use Rattle.sched_records.specs.Gives.{Gives};
ghost use Rattle.sched_records.specs.Forms.{is_bit, is_truth_word, has_atom_form, is_one, is_each, is_instrs, has_form, is_of, unless_wide, checked, value_as};

use crate::class::{AtomForm, ValueForm};
use crate::records::{Atom, Value};
use crate::refusal::{TableKind, TableRefusal};
use crate::tokens::{Token, Tokens};
use crate::value::{Found, value};
use std::alloc::Global;

fn is_bit(number: i64) -> bool
    ensures { result ≡ is_bit number }
{
    match number {
        0 => true,
        1 => true,
        _ => false,
    }
}

fn is_truth_word(word: &[u8]) -> bool
    ensures { result ≡ is_truth_word word.now }
{
    word == b"true".as_slice() || word == b"false".as_slice()
}

fn has_atom_form(form: AtomForm, atom: &Atom) -> bool
    ensures { result ≡ has_atom_form form atom.now }
{
    match form {
        AtomForm::Number => matches!(atom, Atom::Number(_)),
        AtomForm::Name => matches!(atom, Atom::Word(_)),
        AtomForm::Truth => match atom {
            Atom::Number(number) => is_bit(*number),
            Atom::Quoted(_) => false,
            Atom::Word(word) => is_truth_word(word.as_bytes()),
        },
    }
}

fn is_one(form: AtomForm, value: &Value) -> bool
    ensures { result ≡ is_one form value.now }
{
    match value {
        Value::One(atom) => has_atom_form(form, atom),
        _ => false,
    }
}

fn all_have(form: AtomForm, atoms: &[Atom]) -> bool
    ensures { result ≡ list_all (has_atom_form form) atoms.now }
{
    for atom in atoms {
        if !has_atom_form(form, atom) {
            return false;
        }
    }
    true
}

fn is_each(form: AtomForm, value: &Value) -> bool
    ensures { result ≡ is_each form value.now }
{
    match value {
        Value::List(atoms) => all_have(form, atoms.as_slice()),
        _ => false,
    }
}

fn has_form(form: ValueForm, value: &Value) -> bool
    ensures { result ≡ has_form form value.now }
{
    match form {
        ValueForm::One(form) => is_one(form, value),
        ValueForm::Each(form) => is_each(form, value),
        ValueForm::Instrs => matches!(value, Value::Instrs(_)),
        ValueForm::Any => true,
    }
}

fn is_of(form: Option<ValueForm>, value: &Value) -> bool
    ensures { result ≡ is_of form value.now }
{
    match form {
        None => false,
        Some(form) => has_form(form, value),
    }
}

fn unless_wide(wide: Option<u32>, value: Value) -> Result<Value, TableRefusal>
    ensures { result ≡ unless_wide wide value }
{
    match wide {
        None => Ok(value),
        Some(line) => Err(TableRefusal {
            line,
            kind: TableKind::BadValue,
        }),
    }
}

fn checked(form: Option<ValueForm>, token: &Token<'_>, found: Found) -> Result<Value, TableRefusal>
    ensures { result ≡ checked form (seen token.now) found }
{
    if !is_of(form, &found.value) {
        return Err(token.fault(TableKind::BadValue));
    }
    unless_wide(found.wide, found.value)
}

/// Reads a value of a form. Where no form is left, the value is one argument too many.
#[tactic(auto, unfolding(crate::specs::Forms::value_as))]
pub fn value_as(
    alloc: Global,
    form: Option<ValueForm>,
    tokens: &mut Tokens<'_>,
) -> Result<Value, TableRefusal>
    ensures read { Gives (λ v. (v, tokens.new)) result (value_as form tokens.old) }
    ensures shorter { OnOk result (length tokens.new < length tokens.old) }
{
    let token = tokens.first();
    let found = value(alloc, tokens)?;
    checked(form, &token, found)
}
