//! Reading the phrases of a table: items, bodies of records, and `let` scopes.
ghost use Rattle.std.specs.Prelude.{◌≡◌, [], ◌∷◌, ◌++◌, ◌<◌, ◌≤◌, ◌&&◌, length, codes, true, Ok, IfOk, OnOk};
ghost use Rattle.sched_records.specs.Tokens.{first_of};
ghost use Rattle.sched_records.specs.Shown.{seen};
ghost use Rattle.sched_records.specs.Gives.{Gives};
ghost use Rattle.sched_records.specs.Grammar.{is_sign, is_word};
ghost use Rattle.sched_records.specs.Items as spec;

use crate::class::class_of;
use crate::given::given_of;
use crate::grammar::{RESERVED, TYPES, sign};
use crate::heads::{argument, def, record_of};
use crate::known::{Doing, Head, Known, Step};
use crate::limits::MOST_SCOPES;
use crate::members::{Given, Scope};
use crate::refusal::{TableKind, TableRefusal};
use crate::tokens::{Token, Tokens};
use mca_fixed::{Items, NoMemory};
use std::alloc::Global;

/// Whether a type or a class of records stands there, so that a field with a type would follow.
fn begins_typed(token: &Token<'_>) -> bool
    ensures { result ≡ spec.begins_typed (seen token.now) }
{
    token.is_among(&TYPES) || (token.is_name() && class_of(token.bytes).is_some())
}

fn body_refusal(token: &Token<'_>) -> TableRefusal
    ensures { result ≡ spec.body_refusal (seen token.now) }
{
    if begins_typed(token) {
        token.fault(TableKind::NotFlat)
    } else {
        token.refusal_among(&RESERVED)
    }
}

fn with_given(given: Items<Given>, one: Given) -> Result<Items<Given>, NoMemory>
    ensures { IfOk result (λ g. g ≡ given ++ one ∷ []) }
{
    let mut given = given.into_vec();
    given.push(one)?;
    Ok(Items::from_vec(given))
}

/// Reads a `let` of a body, behind the word.
#[tactic(auto, unfolding(crate::specs::Items::let_at))]
fn let_of(
    alloc: Global,
    head: Head,
    given: Items<Given>,
    tokens: &mut Tokens<'_>,
) -> Result<Step, TableRefusal>
    ensures read { Gives (λ s. (s, tokens.new)) result (spec.let_at head given tokens.old) }
    ensures shorter { OnOk result (length tokens.new < length tokens.old) }
{
    let one = given_of(alloc, Some(head.class), given.as_slice(), tokens)?;
    sign(tokens, b';')?;
    Ok(Step::Next(Doing::Body(head, with_given(given, one)?)))
}

/// Reads the `;` that may stand behind a body.
fn behind_body(tokens: &mut Tokens<'_>)
    ensures behind { tokens.new ≡ spec.behind_body tokens.old }
    ensures shorter { length tokens.new ≤ length tokens.old }
{
    if tokens.first().is_sign(b';') {
        tokens.advance();
    }
}

/// Reads a `let` of a body, or its end.
fn body(
    alloc: Global,
    known: &Known,
    head: Head,
    given: Items<Given>,
    tokens: &mut Tokens<'_>,
) -> Result<Step, TableRefusal>
    ensures read { Gives (λ s. (s, tokens.new)) result (spec.body_at known.now head given tokens.old) }
    ensures shorter { OnOk result (length tokens.new < length tokens.old) }
{
    let token = tokens.first();
    if token.is_sign(b'}') {
        tokens.advance();
        behind_body(tokens);
        let whole = record_of(alloc, known, head, given.as_slice())?;
        return Ok(Step::Whole(whole));
    }
    if token.is_word(b"let") {
        tokens.advance();
        return let_of(alloc, head, given, tokens);
    }
    Err(body_refusal(&token))
}

fn scope_of(given: Items<Given>, braced: bool) -> Scope
    ensures { result ≡ spec.scope_of given braced }
{
    Scope { given, braced }
}

/// Reads the brace that may stand behind `in`.
fn scope_begin(given: Items<Given>, tokens: &mut Tokens<'_>) -> Step
    ensures read { Ok (result, tokens.new) ≡ spec.scope_begin given tokens.old }
    ensures shorter { length tokens.new ≤ length tokens.old }
{
    if tokens.first().is_sign(b'{') {
        tokens.advance();
        return Step::Into(scope_of(given, true));
    }
    Step::Into(scope_of(given, false))
}

/// Reads what stands behind a field of a scope.
fn scope_end(given: Items<Given>, tokens: &mut Tokens<'_>) -> Result<Step, TableRefusal>
    ensures read { Gives (λ s. (s, tokens.new)) result (spec.scope_end given tokens.old) }
    ensures shorter { OnOk result (length tokens.new < length tokens.old) }
{
    let token = tokens.first();
    if token.is_sign(b',') {
        tokens.advance();
        return Ok(Step::Next(Doing::Scope(given)));
    }
    if token.is_word(b"in") {
        tokens.advance();
        return Ok(scope_begin(given, tokens));
    }
    Err(token.refusal())
}

/// Reads a field of a scope, and what stands behind it.
#[tactic(auto, unfolding(crate::specs::Items::scope_at))]
fn scope(alloc: Global, given: Items<Given>, tokens: &mut Tokens<'_>) -> Result<Step, TableRefusal>
    ensures read { Gives (λ s. (s, tokens.new)) result (spec.scope_at given tokens.old) }
    ensures shorter { OnOk result (length tokens.new < length tokens.old) }
{
    let one = given_of(alloc, None, given.as_slice(), tokens)?;
    scope_end(with_given(given, one)?, tokens)
}

fn in_braces(scopes: &[Scope]) -> bool
    ensures { result ≡ spec.in_braces scopes.now }
{
    match scopes {
        [] => false,
        [scope, ..] => scope.braced,
    }
}

/// Reads the `let` of a scope.
fn let_item(alloc: Global, known: &Known, tokens: &mut Tokens<'_>) -> Result<Step, TableRefusal>
    ensures read { Gives (λ s. (s, tokens.new)) result (spec.let_item_at known.now tokens.old) }
    ensures shorter { is_word (codes "let") (first_of tokens.old) ≡ true → OnOk result (length tokens.new < length tokens.old) }
{
    if MOST_SCOPES <= known.scopes.as_slice().len() {
        return Err(tokens.first().fault(TableKind::TooMany));
    }
    tokens.advance();
    Ok(Step::Next(Doing::Scope(Items::from_vec(Vec::new(alloc)))))
}

fn ends_braces(token: &Token<'_>, known: &Known) -> bool
    ensures { result ≡ (is_sign 125 (seen token.now) && spec.in_braces known.now.scopes) }
{
    token.is_sign(b'}') && in_braces(known.scopes.as_slice())
}

/// Reads the head of an item, or the end of the items in braces.
fn item(alloc: Global, known: &Known, tokens: &mut Tokens<'_>) -> Result<Step, TableRefusal>
    ensures read { Gives (λ s. (s, tokens.new)) result (spec.item_at known.now tokens.old) }
    ensures shorter { OnOk result (length tokens.new < length tokens.old) }
{
    let token = tokens.first();
    if token.is_word(b"def") {
        return def(alloc, known, tokens);
    }
    if token.is_word(b"let") {
        return let_item(alloc, known, tokens);
    }
    if ends_braces(&token, known) {
        tokens.advance();
        return Ok(Step::OutOf);
    }
    Err(token.refusal_among(&RESERVED))
}

/// Reads the next phrase.
pub fn phrase(
    alloc: Global,
    known: &Known,
    doing: Doing,
    tokens: &mut Tokens<'_>,
) -> Result<Step, TableRefusal>
    ensures read { Gives (λ s. (s, tokens.new)) result (spec.phrase_at known.now doing tokens.old) }
    ensures shorter { OnOk result (length tokens.new < length tokens.old) }
{
    match doing {
        Doing::Item => item(alloc, known, tokens),
        Doing::Arguments(head) => argument(alloc, known, head, tokens),
        Doing::Body(head, given) => body(alloc, known, head, given, tokens),
        Doing::Scope(given) => scope(alloc, given, tokens),
    }
}
