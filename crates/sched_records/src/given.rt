//! Reading what a body or a scope gives: FIELD = VALUE.
ghost use Rattle.std.specs.Prelude.{◌≡◌, ◌<◌, length, OnOk};
ghost use Rattle.sched_records.specs.Shown.{seen};
ghost use Rattle.sched_records.specs.Gives.{Gives};
ghost use Rattle.sched_records.specs.Given.{may_give, field_allowed, not_repeated, field_at, given_at};

use crate::class::Class;
use crate::field::{Field, field_of};
use crate::form::value_as;
use crate::grammar::{name, sign};
use crate::members::{Given, is_given};
use crate::refusal::{TableKind, TableRefusal};
use crate::shared::Shared;
use crate::tokens::{Token, Tokens};
use std::alloc::Global;

fn may_give(class: Option<Class>, field: Field) -> bool
    ensures { result ≡ may_give class field }
{
    match class {
        None => true,
        Some(class) => class.has(field),
    }
}

fn field_allowed(class: Option<Class>, field: Option<Field>) -> Option<Field>
    ensures { result ≡ field_allowed class field }
{
    match field {
        None => None,
        Some(field) => {
            if may_give(class, field) {
                Some(field)
            } else {
                None
            }
        }
    }
}

fn not_repeated(given: &[Given], token: &Token<'_>, field: Field) -> Result<Field, TableRefusal>
    ensures { result ≡ not_repeated given.now (seen token.now) field }
{
    if is_given(field, given) {
        Err(token.fault(TableKind::RepeatedField))
    } else {
        Ok(field)
    }
}

/// Reads the name of a field that may be given once more.
#[tactic(auto, unfolding(crate::specs::Given::field_at))]
fn field(
    class: Option<Class>,
    given: &[Given],
    tokens: &mut Tokens<'_>,
) -> Result<Field, TableRefusal>
    ensures read { Gives (λ f. (f, tokens.new)) result (field_at class given.now tokens.old) }
    ensures shorter { OnOk result (length tokens.new < length tokens.old) }
{
    let token = tokens.first();
    let bytes = name(tokens)?;
    let field = field_allowed(class, field_of(bytes)).ok_or(token.fault(TableKind::UnknownField))?;
    not_repeated(given, &token, field)
}

/// Reads FIELD = VALUE.
#[tactic(auto, unfolding(crate::specs::Given::given_at))]
pub fn given_of(
    alloc: Global,
    class: Option<Class>,
    given: &[Given],
    tokens: &mut Tokens<'_>,
) -> Result<Given, TableRefusal>
    ensures read { Gives (λ g. (g, tokens.new)) result (given_at class given.now tokens.old) }
    ensures shorter { OnOk result (length tokens.new < length tokens.old) }
{
    let field = field(class, given, tokens)?;
    sign(tokens, b'=')?;
    let value = value_as(alloc, Some(field.form()), tokens)?;
    Ok(Given {
        field,
        value: Shared::make(alloc, value)?,
    })
}
