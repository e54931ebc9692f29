//! The top call: all that the program does.
ghost use Rattle.std.specs.Prelude.{◌≡◌, ◌⊎◌, ℕ, map, IfOk, IfErr, OnOk, string_bytes};
ghost use Rattle.mca_io.specs.Devices.{Rose};
ghost use Rattle.mca_run.specs.Asked.{IsLoadAsked, IsWordFault};
ghost use Rattle.mca_run.specs.Refusal.{WhereTold, IsRefusal, IfRefused};
ghost use Rattle.mca_run.specs.Report.{IsReport};
ghost use Rattle.mca_run.specs.Outcome.{AreReadToEnd, IsKept, TellsLine, IsReported, HoldsNoMemory, WriteFailed, WriteFailedOf, NamedFault, NamedInOrder, LineWritten, IsComplete};
ghost use Rattle.mca_run.specs.Steps.{IsStopped};
ghost use Rattle.mca_run.specs.Turns.{StepsRise};
ghost use Rattle.mca_words.specs.declared.fault.WordFault.{WordFault as WordFaultOf};

use crate::files::read_assembly;
use crate::load::report_on_load;
use crate::machine::report_as_asked;
use crate::options::read_options;
use crate::status::{Status, line};
use crate::stop::Stop;
use cycle_rules::Steps;
use mca_io::{Failed, Shelf, Sink, write_whole};
use std::alloc::Global;
use std::sync::ledger::Ledger;

/// Makes the report, or tells why there is none.
fn work<F: Shelf, L: Ledger>(
    alloc: Global,
    words: &[String],
    shelf: &mut F,
    steps: &mut Steps<L>,
) -> Result<Vec<u8>, Stop>
    ensures ok { IfOk result (λ bytes.
        WhereTold (map string_bytes words.now) (F.told shelf.old) (λ files.
        IsReport (map string_bytes words.now) files bytes.items)) }
    ensures asked { OnOk result ((fault : WordFaultOf) →
        IsWordFault (map string_bytes words.now) fault → ⊥) }
    ensures end { OnOk result (AreReadToEnd (map string_bytes words.now) (F.rest shelf.new)) }
    ensures untouched { (seed : ℕ) → IsLoadAsked (map string_bytes words.now) seed →
        shelf.new ≡ shelf.old }
    ensures err { IfErr result (λ stop. IsStopped (map string_bytes words.now) (F.told shelf.old)
        (F.faults shelf.old) (F.faults shelf.new) stop.status) }
    ensures steps { WhereTold (map string_bytes words.now) (F.told shelf.old) (λ files.
        StepsRise (map string_bytes words.now) files steps.old steps.new) }
{
    let options = read_options(alloc, words)?;
    if let Some(seed) = options.load {
        return Ok(report_on_load(alloc, &options, seed, steps)?);
    }
    let program = read_assembly(alloc, &options, shelf)?;
    report_as_asked(alloc, &options, shelf, &program, steps)
}

/// Writes the line of a status, and answers the status that then stands.
fn tell<E: Sink>(alloc: Global, err: &mut E, status: Status) -> Status
    ensures { LineWritten (E.told err.old, E.told err.new) status result }
{
    match line(alloc, status) {
        Ok(text) => match write_whole(err, text.as_bytes()) {
            Ok(()) => status,
            Err(Failed) => Status::WriteFault,
        },
        Err(_) => match write_whole(err, b"mca: out of memory\n") {
            Ok(()) => Status::Memory,
            Err(Failed) => Status::WriteFault,
        },
    }
}

/// The whole tool. `words` are those of the command line, without the program's name: options, and
/// the name of an assembly file, or `-load` alone. The report goes to `out`, one line of error to
/// `err`; `steps` counts the turns of the machine.
pub fn analyse<F: Shelf, O: Sink, E: Sink, L: Ledger>(
    alloc: Global,
    words: &[String],
    shelf: &mut F,
    out: &mut O,
    err: &mut E,
    steps: &mut Steps<L>,
) -> Status
    // A fault of the words is one, and comes first: only a failed write or want of memory stands in
    // for it.
    ensures words { (fault : WordFaultOf) →
        result ≡ Status.Words fault → IsWordFault (map string_bytes words.now) fault }
    ensures words_first { (fault : WordFaultOf) → IsWordFault (map string_bytes words.now) fault →
        (result ≡ Status.Words fault) ⊎ ((result ≡ Status.WriteFault) ⊎ (result ≡ Status.Memory)) }

    // Each refusal stands in the words and in the named files. Want of memory is a status of its
    // own.
    ensures refused { WhereTold (map string_bytes words.now) (F.told shelf.old) (λ files.
        IfRefused (IsRefusal (map string_bytes words.now) files) result) }
    ensures no_memory { HoldsNoMemory result }

    // Each fault of a device was counted in this call.
    ensures read_fault { result ≡ Status.ReadFault →
        NamedFault (map string_bytes words.now) (F.faults shelf.old) (F.faults shelf.new) }
    ensures read_in_order { WhereTold (map string_bytes words.now) (F.told shelf.old) (λ files.
        result ≡ Status.ReadFault →
        NamedInOrder (map string_bytes words.now) files (F.faults shelf.old) (F.faults shelf.new)) }
    ensures write_fault { result ≡ Status.WriteFault →
        Rose (O.told out.old).faults (O.told out.new).faults
        ⊎ Rose (E.told err.old).faults (E.told err.new).faults }

    // The bytes: a refusal, a read fault and want of memory leave `out` as it was, and `err` has
    // their line.
    ensures line { TellsLine
        (O.told out.old, O.told out.new) (E.told err.old, E.told err.new) result }
    ensures after_write_fault { result ≡ Status.WriteFault →
        WriteFailed (map string_bytes words.now)
        (F.faults shelf.old) (F.faults shelf.new) (F.rest shelf.new)
        (O.told out.old, O.told out.new) (E.told err.old, E.told err.new) }
    ensures after_write_fault_of { WhereTold (map string_bytes words.now) (F.told shelf.old) (λ files.
        result ≡ Status.WriteFault → WriteFailedOf (map string_bytes words.now) files
        (F.faults shelf.old) (F.faults shelf.new) (F.rest shelf.new)
        (O.told out.old, O.told out.new) (E.told err.old, E.told err.new)) }

    // Done: each file that is read was read to its end, and the reports of all regions were
    // written, each of its own run, or that of the program that a number gives; and no error.
    ensures done { WhereTold (map string_bytes words.now) (F.told shelf.old) (λ files.
        result ≡ Status.Done →
        IsReported (map string_bytes words.now) files (O.told out.old, O.told out.new)) }
    ensures read_to_end { result ≡ Status.Done →
        AreReadToEnd (map string_bytes words.now) (F.rest shelf.new) }
    ensures no_error { result ≡ Status.Done → IsKept (E.told err.old, E.told err.new) }

    // No file is read for the program that a number gives.
    ensures untouched { (seed : ℕ) → IsLoadAsked (map string_bytes words.now) seed →
        shelf.new ≡ shelf.old }

    // Nothing but a device's fault or want of memory stands in for the answer.
    ensures completeness { WhereTold (map string_bytes words.now) (F.told shelf.old) (λ files.
        IsComplete (map string_bytes words.now) files result) }

    // The machine makes at most as many turns as the regions allow, or the program that a number
    // gives, and none without a program.
    ensures steps { WhereTold (map string_bytes words.now) (F.told shelf.old) (λ files.
        StepsRise (map string_bytes words.now) files steps.old steps.new) }
{
    match work(alloc, words, shelf, steps) {
        Err(stop) => tell(alloc, err, stop.status),
        Ok(report) => match write_whole(out, report.as_slice()) {
            Ok(()) => Status::Done,
            Err(Failed) => {
                let _ = write_whole(err, b"mca: write fault\n");
                Status::WriteFault
            }
        },
    }
}
