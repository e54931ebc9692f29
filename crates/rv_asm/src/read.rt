//! The program of a text.
ghost use Rattle.std.specs.Prelude.{◌≡◌, ◌⊎◌, ℕ, ◌+◌, ◌<◌, ◌≤◌, ◌^◌, length, List, None, Some, Err, All, IfOk, IfErr};
ghost use Rattle.mca_fixed.specs.declared.limits.TheConstants.{MOST_TEXT_BYTES};
ghost use Rattle.rv_isa.specs.Symbol.{IsSymbolText};
ghost use Rattle.rv_asm.specs.Pieces.{Piece, IsCut};
ghost use Rattle.rv_asm.specs.Steps.{start, run};
ghost use Rattle.rv_asm.specs.LongLines.{long_at, long_from};
ghost use Rattle.rv_asm.specs.Faults.{IsMemory, refusal_of};
ghost use Rattle.rv_asm.specs.Program.{IsProgram, IsFault};
ghost use Rattle.rv_asm.specs.Spellable.{IsSpellableItem};
ghost use Rattle.rv_asm.specs.declared.fault.AsmKind.TheVariants.{Memory};
ghost use Rattle.rv_asm.specs.declared.fault.AsmRefusal.{AsmRefusal as Refusal};

use crate::fault::{AsmKind, AsmRefusal, Cause, Fault, kind_of};
use crate::item::AsmText;
use crate::pieces::{kind_at, piece_len};
use crate::state::State;
use mca_fixed::NoMemory;
use std::alloc::Global;

/// How many bytes a line has at most, the line feed not counted.
const LONGEST: usize = 4096;

/// Takes all pieces of a text, one after the other.
fn cut_through(alloc: Global, text: &[u8]) -> Result<State, NoMemory>
    requires { length text.now ≤ MOST_TEXT_BYTES }
    ensures { IfOk result (λ s. (pieces : List Piece) × IsCut text.now pieces × (s ≡ run start pieces)) }
{
    let mut state = State::start(alloc);
    let mut rest = text;
    while !rest.is_empty() {
        let strings = state.quotes(rest);
        let kind = kind_at(strings, rest);
        let (piece, after) = rest.split_at(piece_len(strings, kind, rest));
        state.step(alloc, kind, piece)?;
        rest = after;
    }
    state.end(alloc)?;
    Ok(state)
}

fn long_at(line: u32, count: usize) -> Option<Fault>
    ensures { result ≡ long_at line count }
{
    if count > LONGEST {
        return Some(Fault {
            line,
            cause: Cause::LongLine,
        });
    }
    None
}

/// The first line that is too long.
fn long_line(text: &[u8]) -> Option<Fault>
    requires { length text.now ≤ MOST_TEXT_BYTES }
    ensures { result ≡ long_from 1 0 text.now }
{
    let mut line = 1;
    let mut count = 0;
    for (k, b) in text.iter().enumerate() {
        if *b != b'\n' {
            count += 1;
            continue;
        }
        if count > LONGEST {
            return long_at(line, count);
        }
        line += 1;
        count = 0;
    }
    long_at(line, count)
}

fn no_memory() -> AsmRefusal
    ensures { result ≡ record { line = 0; kind = Memory } }
{
    AsmRefusal {
        line: 0,
        kind: AsmKind::Memory,
    }
}

/// Reads a text of at most 8,388,608 bytes: gives its program, or the fault that comes first, with its
/// line from 1. The faults of a line are answered in this order: a line that is too long, a byte that
/// stands in no text, the statements and the comments that begin there from left to right, a comment that
/// is never closed. Never answers the kinds of regions.
pub fn read_asm(alloc: Global, text: &[u8]) -> Result<AsmText, AsmRefusal>
    requires { length text.now ≤ MOST_TEXT_BYTES }
    // What is read is the text's program.
    ensures program { IfOk result (λ p. IsProgram text.now p.items p.names) }
    // Each instruction can be spelled with the names, and each name is a symbolic immediate.
    ensures spellable { IfOk result (λ p. All (IsSpellableItem p.names) p.items) }
    ensures symbols { IfOk result (λ p. All IsSymbolText p.names) }
    ensures few { IfOk result (λ p. length p.items < 2 ^ 32) }
    // A refusal is want of memory, or the first fault of the text.
    ensures fault { (r : Refusal) → result ≡ Err r → IsMemory r.kind ⊎ IsFault text.now r }
    ensures no_line { IfErr result (λ r. IsMemory r.kind → r.line ≡ 0) }
{
    let state = match cut_through(alloc, text) {
        Ok(state) => state,
        Err(_) => return Err(no_memory()),
    };
    let long = long_line(text);
    match state.first_fault(long) {
        Some(fault) => Err(refusal_of(fault)),
        None => match state.into_text(alloc) {
            Ok(program) => Ok(program),
            Err(_) => Err(no_memory()),
        },
    }
}

fn refusal_of(fault: Fault) -> AsmRefusal
    ensures { result ≡ refusal_of fault }
{
    AsmRefusal {
        line: fault.line,
        kind: kind_of(fault.cause),
    }
}
