//! The calls of `sched_records`.
use crate::case::Case;
use crate::fault::{Fault, wrong};
use crate::findings::put_bytes;
use mca_fixed::MOST_TEXT_BYTES;
use sched_records::{Atom, Member, Record, Value, read_table};
use std::alloc::Global;
use std::fmt::Write;

/// The answer of a call of this group; none for any other call.
pub(crate) fn answer(alloc: Global, call: &str, case: &Case) -> Result<Option<String>, Fault> {
    if call == "read_table" {
        return Ok(Some(table(alloc, case.input("text")?)?));
    }
    Ok(None)
}

/// The records of a text, a line each; or the line and the kind of its fault.
fn table(alloc: Global, text: &[u8]) -> Result<String, Fault> {
    if text.len() > MOST_TEXT_BYTES {
        return Err(wrong(alloc, "longer than the call takes", "text"));
    }
    let mut out = String::new(alloc);
    match read_table(alloc, text) {
        Ok(records) => {
            for record in records.as_slice() {
                put_record(&mut out, record)?;
            }
        }
        Err(refusal) => write!(&mut out, "{refusal}")?,
    }
    Ok(out)
}

/// A record in one line: class, name, arguments behind `:`, members.
fn put_record(out: &mut String, record: &Record) -> Result<(), Fault> {
    put_bytes(out, record.class.as_bytes())?;
    out.push(' ')?;
    put_bytes(out, record.name.as_bytes())?;
    out.push(':')?;
    for value in record.args.as_slice() {
        put_value(out, value)?;
        out.push(';')?;
    }
    for member in record.members.as_slice() {
        put_member(out, member)?;
    }
    out.push('\n')?;
    Ok(())
}

fn put_member(out: &mut String, member: &Member) -> Result<(), Fault> {
    out.push(' ')?;
    put_bytes(out, member.name.as_bytes())?;
    out.push('=')?;
    put_value(out, member.value.get())
}

/// A value: a list in brackets, and opcodes in parentheses, each item with a blank behind it.
fn put_value(out: &mut String, value: &Value) -> Result<(), Fault> {
    match value {
        Value::One(atom) => put_atom(out, atom)?,
        Value::List(atoms) => {
            out.push('[')?;
            for atom in atoms.as_slice() {
                put_atom(out, atom)?;
                out.push(' ')?;
            }
            out.push(']')?;
        }
        Value::Instrs(names) => {
            out.push('(')?;
            for name in names.as_slice() {
                put_bytes(out, name.as_bytes())?;
                out.push(' ')?;
            }
            out.push(')')?;
        }
    }
    Ok(())
}

fn put_atom(out: &mut String, atom: &Atom) -> Result<(), Fault> {
    match atom {
        Atom::Number(number) => write!(out, "{number}")?,
        Atom::Quoted(text) => {
            out.push('"')?;
            put_bytes(out, text.as_bytes())?;
            out.push('"')?;
        }
        Atom::Word(word) => put_bytes(out, word.as_bytes())?,
    }
    Ok(())
}
