//! The fields that a record gets from its body and from the scopes around it.
ghost use Rattle.std.specs.Prelude.{◌≡◌, ◌∷◌, ◌++◌, nat_eq, find, map, option_map, IfOk};
ghost use Rattle.std.specs.List.{filter_map, list_any};
ghost use Rattle.sched_records.specs.Members.{is_given_by, value_in, resolved, member_of, members};

use crate::class::Class;
use crate::field::Field;
use crate::records::{Member, Value};
use crate::shared::Shared;
use mca_fixed::{Items, Name, NoMemory};
use std::alloc::Global;

/// A field with the value that a body or a scope gives it.
#[derive(Drop)]
pub struct Given {
    pub field: Field,
    pub value: Shared<Value>,
}

/// A `let` scope: what it gives, and whether its items stand in braces or it has one item.
#[derive(Drop)]
pub struct Scope {
    pub given: Items<Given>,
    pub braced: bool,
}

/// Whether the field is given.
pub fn is_given(field: Field, given: &[Given]) -> bool
    ensures { result ≡ list_any (is_given_by field) given.now }
{
    for one in given {
        if field.is(one.field) {
            return true;
        }
    }
    false
}

fn value_in(field: Field, given: &[Given]) -> Option<&Shared<Value>>
    ensures { option_map (λ v. v.now) result ≡ value_in field given.now }
{
    for one in given {
        if field.is(one.field) {
            return Some(&one.value);
        }
    }
    None
}

fn value_around(field: Field, scopes: &[Scope]) -> Option<&Shared<Value>>
    ensures { option_map (λ v. v.now) result ≡ resolved field (map (λ s. s.given) scopes.now) }
{
    for scope in scopes {
        let found = value_in(field, scope.given.as_slice());
        if found.is_some() {
            return found;
        }
    }
    None
}

fn resolved<'v>(field: Field, body: &'v [Given], scopes: &'v [Scope]) -> Option<&'v Shared<Value>>
    ensures { option_map (λ v. v.now) result ≡ resolved field (body.now ∷ map (λ s. s.given) scopes.now) }
{
    let found = value_in(field, body);
    if found.is_some() {
        return found;
    }
    value_around(field, scopes)
}

fn member_of(
    alloc: Global,
    field: Field,
    body: &[Given],
    scopes: &[Scope],
) -> Result<Option<Member>, NoMemory>
    ensures { IfOk result (λ m. m ≡ member_of (body.now ∷ map (λ s. s.given) scopes.now) field) }
{
    match resolved(field, body, scopes) {
        None => Ok(None),
        Some(value) => Ok(Some(Member {
            name: Name::from_bytes(alloc, field.name().as_bytes())?,
            value: value.again()?,
        })),
    }
}

/// The members of a record of a class, from its body and the scopes around it, the innermost first.
pub fn members(
    alloc: Global,
    class: Class,
    body: &[Given],
    scopes: &[Scope],
) -> Result<Items<Member>, NoMemory>
    ensures { IfOk result (λ m. m ≡ members class (body.now ∷ map (λ s. s.given) scopes.now)) }
{
    let mut found = Vec::new(alloc);
    let fields = class.fields();
    for field in fields {
        if let Some(member) = member_of(alloc, *field, body, scopes)? {
            found.push(member)?;
        }
    }
    Ok(Items::from_vec(found))
}
