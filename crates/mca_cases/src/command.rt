//! Cases of whole commands: words, files on a shelf in memory, and two sinks in memory.
ghost use Rattle.std.specs.Prelude.{◌≡◌, ◌<◌};

use crate::case::Case;
use crate::fault::{Fault, wrong};
use crate::findings::Findings;
use crate::times;
use cycle_rules::Steps;
use mca_io::{MemShelf, MemSink};
use mca_run::{Status, analyse};
use std::alloc::Global;
use std::fmt::Write;
use std::marker::Brand;
use std::sync::ledger::{Blank, Ledger};

/// How a device behaves: the bytes that it has room for and gives or takes in one call, and the numbers of the
/// calls that fail, from 1.
#[derive(Drop)]
struct Device {
    room: usize,
    take: usize,
    fails: Vec<u64>,
}

/// Whether a part of a command's case has a meaning.
fn is_known(name: &str) -> bool {
    let devices = name == "shelf" || name == "out-sink" || name == "err-sink";
    let wanted = name == "status" || name == "out" || name == "err" || name == "faults";
    let times = name == "times" || name == "changed" || name == "judged";
    let cuts = name == "cut" || name == "statuses";
    devices || wanted || times || cuts || name == "args" || name.starts_with("file ")
}

/// A number in a line of a device.
fn number(alloc: Global, word: &str) -> Result<u64, Fault> {
    match word.parse::<u64>() {
        Ok(number) => Ok(number),
        Err(_) => Err(wrong(alloc, "no number", word)),
    }
}

/// A number of bytes in a line of a device.
fn size(alloc: Global, word: &str) -> Result<usize, Fault> {
    match word.parse::<u32>() {
        Ok(number) => Ok(number as usize),
        Err(_) => Err(wrong(alloc, "no number of bytes", word)),
    }
}

/// What a line says of a device.
fn set(alloc: Global, device: &mut Device, line: &str) -> Result<(), Fault> {
    let (word, rest) = line.split_once(' ').unwrap_or((line, ""));
    if word == "room" {
        device.room = size(alloc, rest)?;
    } else if word == "take" {
        device.take = size(alloc, rest)?;
    } else if word == "fails" {
        for word in rest.split(' ') {
            device.fails.push(number(alloc, word)?)?;
        }
    } else {
        return Err(wrong(alloc, "unknown line of a device", line));
    }
    Ok(())
}

// More bytes than the output of any case.
const AMPLE: usize = 1 << 16;

/// How the device of a part behaves: without the part, with ample room and no failing call.
fn read_device(alloc: Global, case: &Case, name: &str) -> Result<Device, Fault> {
    let mut device = Device {
        room: AMPLE,
        take: AMPLE,
        fails: Vec::new(alloc),
    };
    if case.find(name).is_some() {
        for line in case.need_text(name)?.split_terminator('\n') {
            set(alloc, &mut device, line)?;
        }
    }
    if device.take == 0 {
        return Err(wrong(alloc, "a device that takes nothing", name));
    }
    Ok(device)
}

/// The shelf of a case, with at most so many bytes of the file that is cut.
fn shelf(alloc: Global, case: &Case, cut: &str, most: usize) -> Result<MemShelf, Fault> {
    let Device { take, fails, .. } = read_device(alloc, case, "shelf")?;
    let mut shelf = MemShelf::make(alloc, take.max(1), &fails)?;
    for part in case.parts() {
        if let Some(name) = part.name.strip_prefix("file ") {
            let bytes = part.bytes.as_slice();
            let kept = if name == cut {
                most.min(bytes.len())
            } else {
                bytes.len()
            };
            shelf.add_file(name, &bytes[..kept])?;
        }
    }
    Ok(shelf)
}

/// A sink of a case.
fn sink(alloc: Global, case: &Case, name: &str) -> Result<MemSink, Fault> {
    let Device { room, take, fails } = read_device(alloc, case, name)?;
    Ok(MemSink::make(alloc, room, take.max(1), &fails)?)
}

/// The words of a case, one a line.
fn words(alloc: Global, case: &Case) -> Result<Vec<String>, Fault> {
    let mut words = Vec::new(alloc);
    for line in case.need_text("args")?.split_terminator('\n') {
        words.push(String::from_str(alloc, line)?)?;
    }
    Ok(words)
}

/// The whole tool, with a count of its turns of its own.
fn analyse_counted<L: Ledger>(
    alloc: Global,
    words: &[String],
    shelf: &mut MemShelf,
    out: &mut MemSink,
    err: &mut MemSink,
    blank: Blank,
) -> Status
    requires name { blank.name ≡ L.name }
    requires parts { blank.parts ≡ L.parts }
    requires some { 0 < L.parts }
{
    let mut steps = Steps::<L>::open(blank);
    analyse(alloc, words, shelf, out, err, &mut steps)
}

/// What a command left.
#[derive(Drop)]
struct Outcome {
    status: u8,
    shelf: MemShelf,
    out: MemSink,
    err: MemSink,
}

/// Runs the command of a case, with at most so many bytes of the file that is cut.
fn run_command(
    alloc: Global,
    case: &Case,
    words: &[String],
    cut: &str,
    most: usize,
) -> Result<Outcome, Fault> {
    let mut shelf = shelf(alloc, case, cut, most)?;
    let mut out = sink(alloc, case, "out-sink")?;
    let mut err = sink(alloc, case, "err-sink")?;
    let blank = Blank::new(1);
    let status = analyse_counted::<Brand>(alloc, words, &mut shelf, &mut out, &mut err, blank);
    Ok(Outcome {
        status: status.number(),
        shelf,
        out,
        err,
    })
}

/// How often each status comes where a file is cut at every byte, and where a report came with a refusal.
fn statuses(alloc: Global, case: &Case, words: &[String], cut: &str) -> Result<String, Fault> {
    let mut length = 0;
    for part in case.parts() {
        if part.name.strip_prefix("file ") == Some(cut) {
            length = part.bytes.len();
        }
    }
    let mut counts = [0u64; 9];
    let mut lines = String::new(alloc);
    for most in 0..length {
        let outcome = run_command(alloc, case, words, cut, most)?;
        let status = outcome.status;
        if let Some(count) = counts.get_mut(usize::from(status)) {
            *count = count.saturating_add(1);
        }
        if status != 0 && !outcome.out.written().is_empty() {
            writeln!(&mut lines, "{status} with a report at byte {most}")?;
        }
    }
    for (status, count) in counts.iter().enumerate() {
        if *count != 0 {
            writeln!(&mut lines, "{status}: {count}")?;
        }
    }
    Ok(lines)
}

/// Runs the command of a case, and compares what it left with what the case wants. Where the case cuts a file, the
/// command is run for every shorter length of it as well.
pub(crate) fn run(alloc: Global, case: &Case) -> Result<Findings, Fault> {
    case.check(|name| is_known(name))?;
    let words = words(alloc, case)?;
    let Outcome {
        status,
        shelf,
        out,
        err,
    } = run_command(alloc, case, &words, "", 0)?;
    let status = format!(in alloc; "{status}\n")?;
    let (on_shelf, on_out, on_err) = (shelf.faults(), out.faults(), err.faults());
    let faults = format!(in alloc; "shelf {on_shelf}\nout {on_out}\nerr {on_err}\n")?;
    let mut findings = Findings::none(alloc);
    findings.compare(case, "status", status.as_bytes())?;
    findings.compare(case, "out", out.written())?;
    findings.compare(case, "err", err.written())?;
    findings.compare(case, "faults", faults.as_bytes())?;
    times::compare(alloc, case, &words, &mut findings)?;
    if case.find("cut").is_some() {
        let cut = case.need_text("cut")?;
        let statuses = statuses(alloc, case, &words, cut.strip_suffix('\n').unwrap_or(cut))?;
        findings.compare(case, "statuses", statuses.as_bytes())?;
    }
    Ok(findings)
}
