//! `mca`: the system's words, files and streams handed to the tool, and its status handed back.
#![tactic(auto)]

ghost use Rattle.std.specs.Prelude.{◌≡◌, ◌<◌};

use cycle_rules::Steps;
use mca_io::{FileShelf, Shelf, Sink, StdSink};
use mca_run::{Status, analyse};
use std::alloc::Global;
use std::env;
use std::io::ErrorKind;
use std::marker::Brand;
use std::process::ExitCode;
use std::sync::ledger::{Blank, Ledger};

/// The status of a program whose words the system does not give.
const NO_WORDS: u8 = 9;

/// The status of want of memory.
const NO_MEMORY: u8 = 8;

/// The tool, with a count of its turns that begins here.
fn counted<F: Shelf, O: Sink, E: Sink, L: Ledger>(
    alloc: Global,
    words: &[String],
    shelf: &mut F,
    out: &mut O,
    err: &mut E,
    blank: Blank,
) -> Status
    requires name { blank.name ≡ L.name }
    requires parts { blank.parts ≡ L.parts }
    requires some { 0 < L.parts }
{
    let mut steps = Steps::<L>::open(blank);
    analyse(alloc, words, shelf, out, err, &mut steps)
}

fn main(rt: HostRuntime) -> ExitCode {
    let words = match env::args(&rt) {
        Ok(words) => words,
        Err(e) if e.kind() == ErrorKind::OutOfMemory => return ExitCode::from(NO_MEMORY),
        Err(_) => return ExitCode::from(NO_WORDS),
    };
    let words: Vec<String> = match words.skip(1).collect(rt.alloc()) {
        Ok(words) => words,
        Err(_) => return ExitCode::from(NO_MEMORY),
    };
    let mut shelf = FileShelf::make(&rt, rt.alloc());
    let mut out = StdSink::make(rt.stdout());
    let mut err = StdSink::make(rt.stderr());
    let status = counted::<_, _, _, Brand>(
        rt.alloc(),
        &words,
        &mut shelf,
        &mut out,
        &mut err,
        Blank::new(1),
    );
    ExitCode::from(status.number())
}
