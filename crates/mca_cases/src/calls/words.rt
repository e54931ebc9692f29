//! The calls of `mca_words`. Words are written with commas between them.
use crate::case::Case;
use crate::fault::{Fault, wrong};
use mca_words::{Options, read_words};
use std::alloc::Global;
use std::fmt::Write;

/// The answer of a call of this group; none for any other call.
pub(crate) fn answer(alloc: Global, call: &str, case: &Case) -> Result<Option<String>, Fault> {
    match call {
        "read_words" => Ok(Some(options_of(alloc, case.input("words")?)?)),
        _ => Ok(None),
    }
}

/// The words of a text.
fn words_of(alloc: Global, text: &[u8]) -> Result<Vec<String>, Fault> {
    let Ok(text) = str::from_utf8(text) else {
        return Err(wrong(alloc, "not in UTF-8", "words"));
    };
    let mut words = Vec::new(alloc);
    for word in text.split(',') {
        words.push(String::from_str(alloc, word)?)?;
    }
    Ok(words)
}

/// The options that words ask for, or the word of their fault and its kind.
fn options_of(alloc: Global, text: &[u8]) -> Result<String, Fault> {
    let words = words_of(alloc, text)?;
    let mut out = String::new(alloc);
    match read_words(alloc, &words) {
        Ok(options) => put_options(&mut out, &options)?,
        Err(fault) => write!(&mut out, "{fault}")?,
    }
    Ok(out)
}

/// All options in their order: texts, numbers, truths, and the input.
fn put_options(out: &mut String, o: &Options) -> Result<(), Fault> {
    let table = o.table.as_str();
    let mcpu = o.mcpu.as_str();
    let input = o.input.as_str();
    write!(out, "{table}|{mcpu}|")?;
    for number in [
        o.iterations,
        o.dispatch,
        o.register_file_size,
        o.lqueue,
        o.squeue,
    ] {
        write!(out, "{number}|")?;
    }
    for truth in [
        o.noalias,
        o.instruction_info,
        o.resource_pressure,
        o.timeline,
    ] {
        write!(out, "{truth}|")?;
    }
    for number in [o.timeline_max_iterations, o.timeline_max_cycles] {
        write!(out, "{number}|")?;
    }
    let bottlenecks = o.bottleneck_analysis;
    write!(out, "{bottlenecks}|{input}")?;
    if let Some(seed) = o.load {
        write!(out, "|{seed}")?;
    }
    Ok(())
}
