//! Cases of public calls of the crates below, by the calls' names. A group of calls has a module of its own.
mod entries;
mod machine;
mod records;
mod texts;
mod words;

use crate::case::Case;
use crate::fault::{Fault, wrong};
use crate::findings::Findings;
use std::alloc::Global;

/// What a call answers on the inputs of a case.
fn answer(alloc: Global, call: &str, case: &Case) -> Result<String, Fault> {
    if let Some(answer) = records::answer(alloc, call, case)? {
        return Ok(answer);
    }
    if let Some(answer) = texts::answer(alloc, call, case)? {
        return Ok(answer);
    }
    if let Some(answer) = words::answer(alloc, call, case)? {
        return Ok(answer);
    }
    if let Some(answer) = entries::answer(alloc, call, case)? {
        return Ok(answer);
    }
    if let Some(answer) = machine::answer(alloc, call, case)? {
        return Ok(answer);
    }
    Err(wrong(alloc, "unknown call", call))
}

/// The byte that a letter stands for behind a `\`.
fn escaped(letter: u8) -> Option<u8> {
    match letter {
        b'n' => Some(b'\n'),
        b'r' => Some(b'\r'),
        b't' => Some(b'\t'),
        b'0' => Some(0),
        b'\\' => Some(b'\\'),
        _ => None,
    }
}

/// The bytes of a line in which `\n`, `\r`, `\t`, `\0` and `\\` stand for one byte each.
fn unescape(alloc: Global, line: &str) -> Result<Vec<u8>, Fault> {
    let mut bytes = Vec::new(alloc);
    let mut behind = false;
    for byte in line.as_bytes() {
        if behind {
            match escaped(*byte) {
                Some(byte) => bytes.push(byte)?,
                None => return Err(wrong(alloc, "unknown letter behind a backslash", line)),
            }
            behind = false;
        } else if *byte == b'\\' {
            behind = true;
        } else {
            bytes.push(*byte)?;
        }
    }
    Ok(bytes)
}

/// A case with a part of this name and this content in place of the part `each NAME`.
fn with_line(alloc: Global, case: &Case, name: &str, line: &str) -> Result<Case, Fault> {
    let mut one = Case::new(alloc);
    for part in case.parts() {
        if part.name.strip_prefix("each ") == Some(name) {
            one.put(name, unescape(alloc, line)?)?;
        } else {
            one.put(part.name.as_str(), Vec::from_slice(alloc, &part.bytes)?)?;
        }
    }
    Ok(one)
}

/// The name behind `each` in a case's parts.
fn each_name(case: &Case) -> Option<&str> {
    for part in case.parts() {
        if let Some(name) = part.name.strip_prefix("each ") {
            return Some(name);
        }
    }
    None
}

/// An answer goes behind the others, and ends with a line feed.
fn put_answer(answers: &mut String, answer: &str) -> Result<(), Fault> {
    answers.push_str(answer)?;
    if !answer.ends_with('\n') {
        answers.push_str("\n")?;
    }
    Ok(())
}

/// Makes the call of a case, once, or for each line of its part `each NAME`, and compares its answers with those
/// that the case wants.
pub(crate) fn run(alloc: Global, case: &Case) -> Result<Findings, Fault> {
    let call = case.need_text("call")?;
    let call = call.strip_suffix('\n').unwrap_or(call);
    let mut answers = String::new(alloc);
    match each_name(case) {
        None => put_answer(&mut answers, answer(alloc, call, case)?.as_str())?,
        Some(name) => {
            let mut each = String::from_str(alloc, "each ")?;
            each.push_str(name)?;
            for line in case.need_text(each.as_str())?.split_terminator('\n') {
                let one = with_line(alloc, case, name, line)?;
                put_answer(&mut answers, answer(alloc, call, &one)?.as_str())?;
            }
        }
    }
    let mut findings = Findings::none(alloc);
    findings.compare(case, "answer", answers.as_bytes())?;
    Ok(findings)
}
