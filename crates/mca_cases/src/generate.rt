//! What a section holds that is made by rules, for long contents, for bytes that are no text, and for contents
//! of another file.
use crate::fault::{Fault, wrong};
use crate::folder::Folder;
use mca_io::Shelf;
use std::alloc::Global;

/// The most lines that one rule makes.
const MOST_LINES: usize = 16_777_216;

/// A line and its line feed go to the end of what was made.
fn put_line(made: &mut Vec<u8>, line: &str) -> Result<(), Fault> {
    made.extend_from_slice(line.as_bytes())?;
    made.push(b'\n')?;
    Ok(())
}

/// `N LINE`: the line so often. Without a blank it is the empty line.
fn put_lines(alloc: Global, made: &mut Vec<u8>, rule: &str) -> Result<(), Fault> {
    let (count, line) = rule.split_once(' ').unwrap_or((rule, ""));
    let Ok(count) = count.parse::<usize>() else {
        return Err(wrong(alloc, "no number of lines", rule));
    };
    if count > MOST_LINES {
        return Err(wrong(alloc, "too many lines", rule));
    }
    for _ in 0..count {
        put_line(made, line)?;
    }
    Ok(())
}

/// Bytes, each as `0x` and hexadecimal digits, with blanks between.
fn put_bytes(alloc: Global, made: &mut Vec<u8>, rule: &str) -> Result<(), Fault> {
    for word in rule.split(' ') {
        let digits = word.strip_prefix("0x").unwrap_or("");
        match u8::from_str_radix(digits, 16) {
            Ok(byte) => made.push(byte)?,
            Err(_) => return Err(wrong(alloc, "no byte", word)),
        }
    }
    Ok(())
}

/// `N 0xNN`: the byte so often.
fn fill(alloc: Global, made: &mut Vec<u8>, rule: &str) -> Result<(), Fault> {
    let (count, byte) = rule.split_once(' ').unwrap_or((rule, ""));
    match (
        count.parse::<u32>(),
        u8::from_str_radix(byte.strip_prefix("0x").unwrap_or(""), 16),
    ) {
        (Ok(count), Ok(byte)) if count as usize <= MOST_LINES => {
            for _ in 0..count {
                made.push(byte)?;
            }
            Ok(())
        }
        _ => Err(wrong(alloc, "no number and byte", rule)),
    }
}

/// What was made, with a line in place of each one that is this line.
fn with_line(alloc: Global, made: &[u8], rule: &str) -> Result<Vec<u8>, Fault> {
    let Some((line, by)) = rule.split_once(" by ") else {
        return Err(wrong(alloc, "no ` by ` in it", rule));
    };
    let mut changed = Vec::new(alloc);
    let mut found = false;
    for old in made.split_inclusive(|byte| *byte == b'\n') {
        if old.strip_suffix(b"\n").unwrap_or(old) == line.as_bytes() {
            put_line(&mut changed, by)?;
            found = true;
        } else {
            changed.extend_from_slice(old)?;
        }
    }
    if found {
        Ok(changed)
    } else {
        Err(wrong(alloc, "no such line", line))
    }
}

/// What one rule adds to what was made, or changes in it.
fn put_rule(
    alloc: Global,
    data: &mut Folder<impl Shelf + Drop>,
    made: &mut Vec<u8>,
    rule: &str,
) -> Result<(), Fault> {
    let (word, rest) = rule.split_once(' ').unwrap_or((rule, ""));
    match word {
        "line" => put_line(made, rest),
        "text" => {
            made.extend_from_slice(rest.as_bytes())?;
            Ok(())
        }
        "repeat" => put_lines(alloc, made, rest),
        "bytes" => put_bytes(alloc, made, rest),
        "fill" => fill(alloc, made, rest),
        "use" => {
            made.extend_from_slice(&data.content(rest)?)?;
            Ok(())
        }
        "replace" => {
            *made = with_line(alloc, made, rest)?;
            Ok(())
        }
        _ => Err(wrong(alloc, "unknown rule", rule)),
    }
}

/// What rules make, one a line.
pub(crate) fn generate(
    alloc: Global,
    data: &mut Folder<impl Shelf + Drop>,
    rules: &str,
) -> Result<Vec<u8>, Fault> {
    let mut made = Vec::new(alloc);
    for rule in rules.split_terminator('\n') {
        put_rule(alloc, data, &mut made, rule)?;
    }
    Ok(made)
}
