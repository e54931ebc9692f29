//! Reading the heads of records, up to the `;` or the brace of a body.
ghost use Rattle.std.specs.Prelude.{◌≡◌, [], ◌∷◌, ◌++◌, ◌<◌, ◌≤◌, ◌&&◌, length, nat_lt, slice_get, IfOk, OnOk};
ghost use Rattle.sched_records.specs.Shown.{seen};
ghost use Rattle.sched_records.specs.Gives.{Gives};
ghost use Rattle.sched_records.specs.Grammar.{is_name};
ghost use Rattle.sched_records.specs.RecordNames.{has_name};
ghost use Rattle.sched_records.specs.Classes.{arguments, needed};
ghost use Rattle.sched_records.specs.Heads as spec;

use crate::class::{Class, ValueForm, class_of};
use crate::form::value_as;
use crate::grammar::{name, sign};
use crate::known::{Doing, Head, Known, Step};
use crate::limits::MOST_RECORDS;
use crate::members::{Given, members};
use crate::records::{Record, Value};
use crate::refusal::{TableKind, TableRefusal};
use crate::tokens::{Token, Tokens};
use mca_fixed::{Items, Name, NoMemory};
use std::alloc::Global;

pub fn record_of(
    alloc: Global,
    known: &Known,
    head: Head,
    given: &[Given],
) -> Result<Record, NoMemory>
    ensures { IfOk result (λ r. r ≡ spec.record_of known.now head given.now) }
{
    let members = members(alloc, head.class, given, known.scopes.as_slice())?;
    let class = Name::from_bytes(alloc, head.class.name().as_bytes())?;
    let Head {
        class: _,
        name,
        args,
    } = head;
    Ok(Record {
        class,
        name,
        args,
        members,
    })
}

/// Reads what stands behind a class and its arguments.
fn head_end(
    alloc: Global,
    known: &Known,
    head: Head,
    tokens: &mut Tokens<'_>,
) -> Result<Step, TableRefusal>
    ensures read { Gives (λ s. (s, tokens.new)) result (spec.head_end known.now head tokens.old) }
    ensures shorter { OnOk result (length tokens.new < length tokens.old) }
{
    let token = tokens.first();
    if token.is_sign(b';') {
        tokens.advance();
        return Ok(Step::Whole(record_of(alloc, known, head, &[])?));
    }
    if token.is_sign(b'{') {
        tokens.advance();
        let given = Items::from_vec(Vec::new(alloc));
        return Ok(Step::Next(Doing::Body(head, given)));
    }
    if token.is_sign(b',') {
        return Err(token.fault(TableKind::NotFlat));
    }
    Err(token.refusal())
}

/// Whether arguments are missing.
fn lacks(head: &Head) -> bool
    ensures { result ≡ nat_lt (length head.now.args) (needed head.now.class) }
{
    head.args.len() < head.class.needed()
}

/// The form of the next argument, none where the class has no more.
fn next_form(head: &Head) -> Option<ValueForm>
    ensures { result ≡ slice_get (arguments head.now.class) (length head.now.args) }
{
    head.class.arguments().get(head.args.len()).copied()
}

/// Reads the `>` behind the arguments, and what stands behind it.
fn arguments_end(
    alloc: Global,
    known: &Known,
    head: Head,
    tokens: &mut Tokens<'_>,
) -> Result<Step, TableRefusal>
    ensures read { Gives (λ s. (s, tokens.new)) result (spec.arguments_end known.now head tokens.old) }
    ensures shorter { OnOk result (length tokens.new < length tokens.old) }
{
    if lacks(&head) {
        return Err(tokens.first().fault(TableKind::BadValue));
    }
    tokens.advance();
    head_end(alloc, known, head, tokens)
}

/// Reads what stands behind a class, whose token is given.
fn arguments_begin(
    alloc: Global,
    known: &Known,
    head: Head,
    class: &Token<'_>,
    tokens: &mut Tokens<'_>,
) -> Result<Step, TableRefusal>
    ensures read { Gives (λ s. (s, tokens.new)) result (spec.arguments_begin known.now head (seen class.now) tokens.old) }
    ensures shorter { OnOk result (length tokens.new < length tokens.old) }
{
    if tokens.first().is_sign(b'<') {
        tokens.advance();
        if tokens.first().is_sign(b'>') {
            return arguments_end(alloc, known, head, tokens);
        }
        return Ok(Step::Next(Doing::Arguments(head)));
    }
    if 0 < head.class.needed() {
        return Err(class.fault(TableKind::BadValue));
    }
    head_end(alloc, known, head, tokens)
}

fn with_argument(head: Head, value: Value) -> Result<Head, NoMemory>
    ensures { IfOk result (λ h. h ≡ spec.with_argument head value) }
{
    let Head { class, name, args } = head;
    let mut args = args.into_vec();
    args.push(value)?;
    Ok(Head {
        class,
        name,
        args: Items::from_vec(args),
    })
}

fn argument_end(
    alloc: Global,
    known: &Known,
    head: Head,
    tokens: &mut Tokens<'_>,
) -> Result<Step, TableRefusal>
    ensures read { Gives (λ s. (s, tokens.new)) result (spec.argument_end known.now head tokens.old) }
    ensures shorter { OnOk result (length tokens.new < length tokens.old) }
{
    let token = tokens.first();
    if token.is_sign(b',') {
        tokens.advance();
        return Ok(Step::Next(Doing::Arguments(head)));
    }
    if token.is_sign(b'>') {
        return arguments_end(alloc, known, head, tokens);
    }
    Err(token.refusal())
}

/// Reads one more argument, and the sign behind it.
#[tactic(auto, unfolding(crate::specs::Heads::argument_at))]
pub fn argument(
    alloc: Global,
    known: &Known,
    head: Head,
    tokens: &mut Tokens<'_>,
) -> Result<Step, TableRefusal>
    ensures read { Gives (λ s. (s, tokens.new)) result (spec.argument_at known.now head tokens.old) }
    ensures shorter { OnOk result (length tokens.new < length tokens.old) }
{
    let form = next_form(&head);
    let value = value_as(alloc, form, tokens)?;
    argument_end(alloc, known, with_argument(head, value)?, tokens)
}

#[tactic(auto, unfolding(crate::specs::Heads::class_at))]
fn class(tokens: &mut Tokens<'_>) -> Result<Class, TableRefusal>
    ensures read { Gives (λ c. (c, tokens.new)) result (spec.class_at tokens.old) }
    ensures shorter { OnOk result (length tokens.new < length tokens.old) }
{
    let token = tokens.first();
    let bytes = name(tokens)?;
    Ok(class_of(bytes).ok_or(token.fault(TableKind::UnknownRecord))?)
}

/// Reads the name of a record, empty where there is none.
fn record_name<'a>(tokens: &mut Tokens<'a>) -> &'a [u8]
    ensures name { result.now ≡ spec.name_or_none tokens.old }
    ensures behind { tokens.new ≡ spec.behind_name tokens.old }
    ensures shorter { length tokens.new ≤ length tokens.old }
{
    let token = tokens.first();
    if !token.is_name() {
        return &[];
    }
    tokens.advance();
    token.bytes
}

/// Reads a record up to the first of its arguments or up to its body.
#[tactic(auto, unfolding(crate::specs::Heads::head_at))]
fn head_of(alloc: Global, known: &Known, tokens: &mut Tokens<'_>) -> Result<Step, TableRefusal>
    ensures read { Gives (λ s. (s, tokens.new)) result (spec.head_at known.now tokens.old) }
    ensures shorter { OnOk result (length tokens.new < length tokens.old) }
{
    let name = record_name(tokens);
    sign(tokens, b':')?;
    let token = tokens.first();
    let head = Head {
        class: class(tokens)?,
        name: Name::from_bytes(alloc, name)?,
        args: Items::from_vec(Vec::new(alloc)),
    };
    arguments_begin(alloc, known, head, &token, tokens)
}

/// Whether the name that may stand behind a `def` is that of a record.
fn repeats(known: &Known, name: &Token<'_>) -> bool
    ensures { result ≡ (is_name (seen name.now).kind && has_name known.now.kept (seen name.now).bytes) }
{
    name.is_name() && known.kept.has_name(name.bytes)
}

/// Reads a record from its `def` up to the first of its arguments or up to its body.
pub fn def(alloc: Global, known: &Known, tokens: &mut Tokens<'_>) -> Result<Step, TableRefusal>
    ensures read { Gives (λ s. (s, tokens.new)) result (spec.def_at known.now tokens.old) }
    ensures shorter { OnOk result (length tokens.new < length tokens.old) }
{
    let token = tokens.first();
    tokens.advance();
    if repeats(known, &tokens.first()) {
        return Err(token.fault(TableKind::RepeatedName));
    }
    if MOST_RECORDS <= known.kept.len() {
        return Err(token.fault(TableKind::TooMany));
    }
    head_of(alloc, known, tokens)
}
