//! Tests by files: whole commands, and public calls of the crates below. The words are the names of lists, and a list
//! has the names of case files, one a line, that lie in its folder; docs/cases.md tells how a case is written. Each
//! case that differs is told, with what was wanted and what came, and for each list how many cases ran. The words from
//! `with` on are passed over.
#![tactic(auto)]

mod archive;
mod calls;
mod case;
mod command;
mod fault;
mod findings;
mod folder;
mod generate;
mod inputs;
mod times;

use case::Case;
use fault::{Fault, wrong};
use findings::Findings;
use folder::Folder;
use mca_io::{FileShelf, Shelf};
use std::alloc::Global;
use std::env;

/// The case of a file, run: what differs, as it is told. A case that compares nothing is no case.
fn run_case(
    alloc: Global,
    data: &mut Folder<impl Shelf + Drop>,
    name: &str,
) -> Result<String, Fault> {
    let case = Case::read(alloc, data, name)?;
    let Findings {
        differences,
        compared,
    } = if case.find("call").is_some() {
        calls::run(alloc, &case)?
    } else {
        command::run(alloc, &case)?
    };
    if !compared {
        return Err(wrong(alloc, "nothing is expected", name));
    }
    Ok(differences)
}

/// Tells a case if it differs or is wrong, and answers whether it did.
fn tell_case(
    rt: &impl Print,
    alloc: Global,
    data: &mut Folder<impl Shelf + Drop>,
    name: &str,
) -> Result<bool, Fault> {
    let told = match run_case(alloc, data, name) {
        Ok(differences) => differences,
        Err(Fault::Wrong(text)) => format!(in alloc; "{text}\n")?,
        Err(fault) => return Err(fault),
    };
    if told.is_empty() {
        return Ok(false);
    }
    print!(rt; "{name} differs\n{told}")?;
    Ok(true)
}

/// Runs the cases of a list, and tells how many there were and how many differed.
fn run_cases(
    rt: &impl Print,
    alloc: Global,
    data: &mut Folder<impl Shelf + Drop>,
    names: &str,
) -> Result<(), Fault> {
    let mut ran: u64 = 0;
    let mut differed: u64 = 0;
    for name in names.split_terminator('\n') {
        ran = ran.saturating_add(1);
        if tell_case(rt, alloc, data, name)? {
            differed = differed.saturating_add(1);
        }
    }
    println!(rt; "    {ran} cases ran, {differed} differed")?;
    Ok(())
}

/// Runs a list.
fn run_list(
    rt: &impl Print,
    alloc: Global,
    data: &mut Folder<impl Shelf + Drop>,
    list: &str,
) -> Result<(), Fault> {
    let Ok(names) = String::from_utf8(data.content(list)?) else {
        return Err(wrong(alloc, "not in UTF-8", list));
    };
    println!(rt; "{list}")?;
    run_cases(rt, alloc, data, names.as_str())
}

fn main(rt: HostRuntime) -> Result<(), Fault> {
    let alloc = rt.alloc();
    for list in env::args(&rt)?.skip(1) {
        let list = list.as_str();
        if list == "with" {
            break;
        }
        let mut data = Folder::of_file(alloc, FileShelf::make(&rt, alloc), list)?;
        let name = list.rsplit_once('/').map_or(list, |(_, name)| name);
        run_list(&rt, alloc, &mut data, name)?;
    }
    Ok(())
}
