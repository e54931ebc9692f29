//! Reading values.
ghost use Rattle.std.specs.Prelude.{◌≡◌, ◌<◌, length, drop, true, false, is_ok, OnOk, None, Some, Ok};
ghost use Rattle.sched_records.specs.Tokens.{first_of};
ghost use Rattle.sched_records.specs.Shown.{seen};
ghost use Rattle.sched_records.specs.Gives.{Gives};
ghost use Rattle.sched_records.specs.Values.{is_number, wide_of, atom_of, atom, is_want, after_wide, elements, names, list_at, instrs_at, one_at, value_at};
ghost use Rattle.sched_records.specs.Elements.{ended, element_at, name_ended, listed_name_at};

use crate::grammar::{RESERVED, name, word};
use crate::number::literal_of;
use crate::piece::TokenKind;
use crate::records::{Atom, Value};
use crate::refusal::{TableKind, TableRefusal};
use crate::tokens::{Token, Tokens};
use mca_fixed::{Items, Name};
use std::alloc::Global;

/// The elements of a list, and the line of the first number beyond 64 bits among them.
#[derive(Drop)]
pub struct Listed {
    pub atoms: Items<Atom>,
    pub wide: Option<u32>,
}

/// A value by the grammar, and the line of the first number in it that is beyond 64 bits.
#[derive(Drop)]
pub struct Found {
    pub value: Value,
    pub wide: Option<u32>,
}

/// An element of a list, and whether it is the last.
#[derive(Drop)]
pub struct Element {
    pub atom: Atom,
    pub wide: Option<u32>,
    pub last: bool,
}

/// A name of a list of instructions, and whether it is the last.
#[derive(Drop)]
pub struct ListedName {
    pub name: Name,
    pub last: bool,
}

fn is_number(kind: TokenKind) -> bool
    ensures { result ≡ is_number kind }
{
    matches!(kind, TokenKind::Number)
}

fn wide_of(token: &Token<'_>) -> Option<u32>
    ensures { result ≡ wide_of (seen token.now) }
{
    if is_number(token.kind) && literal_of(token.bytes).wide {
        Some(token.line)
    } else {
        None
    }
}

fn atom_of(alloc: Global, token: &Token<'_>) -> Result<Atom, TableRefusal>
    ensures { Gives (λ a. a) result (atom (seen token.now)) }
{
    if token.is_among(&RESERVED) {
        return Err(token.fault(TableKind::NotFlat));
    }
    match token.kind {
        TokenKind::Number => Ok(Atom::Number(literal_of(token.bytes).value)),
        TokenKind::Quoted => Ok(Atom::Quoted(Name::from_bytes(alloc, token.bytes)?)),
        TokenKind::Name => Ok(Atom::Word(Name::from_bytes(alloc, token.bytes)?)),
        _ => Err(token.refusal()),
    }
}

/// The fault of a list in which a number beyond 64 bits may stand before this fault.
fn after_wide(wide: Option<u32>, fault: TableRefusal) -> TableRefusal
    ensures { result ≡ after_wide wide fault }
{
    match wide {
        None => fault,
        Some(line) => {
            if matches!(fault.kind, TableKind::Memory) {
                fault
            } else {
                TableRefusal {
                    line,
                    kind: TableKind::BadValue,
                }
            }
        }
    }
}

/// Reads the sign behind an element.
fn ended(atom: Atom, wide: Option<u32>, tokens: &mut Tokens<'_>) -> Result<Element, TableRefusal>
    ensures read { Gives (λ e. (e, tokens.new)) result (ended atom wide tokens.old) }
    ensures shorter { OnOk result (length tokens.new < length tokens.old) }
{
    let sign = tokens.first();
    if sign.is_sign(b',') {
        tokens.advance();
        return Ok(Element {
            atom,
            wide,
            last: false,
        });
    }
    if sign.is_sign(b']') {
        tokens.advance();
        return Ok(Element {
            atom,
            wide,
            last: true,
        });
    }
    Err(after_wide(wide, sign.refusal()))
}

fn element_of(alloc: Global, tokens: &mut Tokens<'_>) -> Result<Element, TableRefusal>
    ensures read { Gives (λ e. (e, tokens.new)) result (element_at tokens.old) }
    ensures shorter { OnOk result (length tokens.new < length tokens.old) }
{
    let token = tokens.first();
    let atom = atom_of(alloc, &token)?;
    tokens.advance();
    ended(atom, wide_of(&token), tokens)
}

/// Reads the elements of a list up to its `]`.
fn elements(alloc: Global, tokens: &mut Tokens<'_>) -> Result<Listed, TableRefusal>
    ensures read { Gives (λ l. (l, tokens.new)) result (elements tokens.old) }
    ensures shorter { OnOk result (length tokens.new < length tokens.old) }
{
    let mut atoms = Vec::new(alloc);
    let mut wide = None;
    'elements: loop {
        let element = match element_of(alloc, tokens) {
            Ok(element) => element,
            Err(fault) => return Err(after_wide(wide, fault)),
        };
        wide = wide.or(element.wide);
        atoms.push(element.atom)?;
        if element.last {
            return Ok(Listed {
                atoms: Items::from_vec(atoms),
                wide,
            });
        }
    }
}

/// Reads the sign behind a name of `(instrs ..)`.
fn name_ended(name: Name, tokens: &mut Tokens<'_>) -> Result<ListedName, TableRefusal>
    ensures read { Gives (λ n. (n, tokens.new)) result (name_ended name tokens.old) }
    ensures shorter { OnOk result (length tokens.new < length tokens.old) }
{
    let sign = tokens.first();
    if sign.is_sign(b',') {
        tokens.advance();
        return Ok(ListedName { name, last: false });
    }
    if sign.is_sign(b')') {
        tokens.advance();
        return Ok(ListedName { name, last: true });
    }
    Err(sign.refusal())
}

fn listed_name(alloc: Global, tokens: &mut Tokens<'_>) -> Result<ListedName, TableRefusal>
    ensures read { Gives (λ n. (n, tokens.new)) result (listed_name_at tokens.old) }
    ensures shorter { OnOk result (length tokens.new < length tokens.old) }
{
    let bytes = name(tokens)?;
    name_ended(Name::from_bytes(alloc, bytes)?, tokens)
}

/// Reads the names of `(instrs ..)` up to its `)`.
#[tactic(auto, using(crate::proofs::ListSteps::names_end, crate::proofs::ListSteps::names_stop))]
fn names(alloc: Global, tokens: &mut Tokens<'_>) -> Result<Items<Name>, TableRefusal>
    ensures read { Gives (λ n. (n, tokens.new)) result (names tokens.old) }
    ensures shorter { OnOk result (length tokens.new < length tokens.old) }
{
    let mut read = Vec::new(alloc);
    'names: loop {
        let listed = listed_name(alloc, tokens)?;
        read.push(listed.name)?;
        if listed.last {
            return Ok(Items::from_vec(read));
        }
    }
}

#[tactic(auto, unfolding(crate::specs::Values::list_at))]
fn list(alloc: Global, tokens: &mut Tokens<'_>) -> Result<Found, TableRefusal>
    ensures read { Gives (λ f. (f, tokens.new)) result (list_at tokens.old) }
    ensures shorter { OnOk result (length tokens.new < length tokens.old) }
{
    if tokens.first().is_sign(b']') {
        tokens.advance();
        return Ok(Found {
            value: Value::List(Items::from_vec(Vec::new(alloc))),
            wide: None,
        });
    }
    let listed = elements(alloc, tokens)?;
    Ok(Found {
        value: Value::List(listed.atoms),
        wide: listed.wide,
    })
}

#[tactic(auto, unfolding(crate::specs::Values::instrs_at))]
fn instrs(alloc: Global, tokens: &mut Tokens<'_>) -> Result<Found, TableRefusal>
    ensures read { Gives (λ f. (f, tokens.new)) result (instrs_at tokens.old) }
    ensures shorter { OnOk result (length tokens.new < length tokens.old) }
{
    word(tokens, b"instrs")?;
    let names = names(alloc, tokens)?;
    Ok(Found {
        value: Value::Instrs(names),
        wide: None,
    })
}

#[tactic(auto, unfolding(crate::specs::Values::one_at))]
fn one(alloc: Global, tokens: &mut Tokens<'_>) -> Result<Found, TableRefusal>
    ensures read { Gives (λ f. (f, tokens.new)) result (one_at tokens.old) }
    ensures shorter { OnOk result (length tokens.new < length tokens.old) }
{
    let token = tokens.first();
    let atom = atom_of(alloc, &token)?;
    tokens.advance();
    Ok(Found {
        value: Value::One(atom),
        wide: wide_of(&token),
    })
}

/// Reads a value by the grammar.
#[tactic(auto, unfolding(crate::specs::Values::value_at))]
pub fn value(alloc: Global, tokens: &mut Tokens<'_>) -> Result<Found, TableRefusal>
    ensures read { Gives (λ f. (f, tokens.new)) result (value_at tokens.old) }
    ensures shorter { OnOk result (length tokens.new < length tokens.old) }
{
    let token = tokens.first();
    if token.is_sign(b'[') {
        tokens.advance();
        return list(alloc, tokens);
    }
    if token.is_sign(b'(') {
        tokens.advance();
        return instrs(alloc, tokens);
    }
    one(alloc, tokens)
}
