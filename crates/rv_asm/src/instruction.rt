//! What a statement means.
ghost use Rattle.std.specs.Prelude.{◌≡◌, ◌≤◌, true, length, map, nat_eq, IfOk, IfSome};
ghost use Rattle.std.specs.Option.{option_map};
ghost use Rattle.std.specs.List.{list_any};
ghost use Rattle.std.specs.Cmp.Lexicographic.{pointwise};
ghost use Rattle.rv_asm.specs.Operands.{operands_in, parts_of};
ghost use Rattle.rv_asm.specs.Items.{is_right};
ghost use Rattle.rv_asm.specs.Forms.{map_ok, fit_of};
ghost use Rattle.rv_asm.specs.Meaning.{blank_from, is_refused, fit_in, instruction_in, meaning_at, meaning};

use crate::class::{ByteClass, skip};
use crate::fault::Cause;
use crate::form::{Made, judge};
use crate::statement::{is_assignment, is_directive};
use crate::table::FORMS;

/// The directives that would make other text of the text, beside those that begin with `.if` or `.else`.
const REFUSED_WORDS: [&str; 10] = [
    ".insn", ".macro", ".endm", ".rept", ".irp", ".irpc", ".endr", ".include", ".incbin", ".endif",
];

/// The place of the first blank, or the end.
fn word_end(text: &[u8]) -> usize
    ensures place { result ≡ blank_from 0 text.now }
    ensures within { result ≤ length text.now }
{
    for (k, b) in text.iter().enumerate() {
        if ByteClass::Blank.has(*b) {
            return k;
        }
    }
    text.len()
}

fn is_among(names: &[&str], text: &[u8]) -> bool
    ensures { result ≡ list_any (λ name. pointwise nat_eq text.now name) (map (λ n. n.now) names.now) }
{
    for name in names {
        if text == name.as_bytes() {
            return true;
        }
    }
    false
}

fn is_refused(word: &[u8]) -> bool
    ensures { result ≡ is_refused word.now }
{
    if is_among(&REFUSED_WORDS, word) {
        return true;
    }
    word.starts_with(b".if") || word.starts_with(b".else")
}

/// The form of the table that a mnemonic and the operands in a text fit.
fn fit_in<'a>(mnemonic: &[u8], operands: &'a [u8]) -> Result<Made<'a>, Cause>
    ensures fit { map_ok fit_of result ≡ fit_in mnemonic.now (operands_in operands.now) }
    ensures right { IfOk result (λ m. is_right m.makes (parts_of m.parts) m.parts.imm ≡ true) }
{
    judge(&FORMS, mnemonic, operands)
}

fn instruction_in(text: &[u8]) -> Result<Made<'_>, Cause>
    ensures fit { map_ok fit_of result ≡ instruction_in text.now }
    ensures right { IfOk result (λ m. is_right m.makes (parts_of m.parts) m.parts.imm ≡ true) }
{
    if text.starts_with(b"c.") {
        return Err(Cause::Compressed);
    }
    let (mnemonic, operands) = text.split_at(word_end(text));
    fit_in(mnemonic, operands)
}

fn meaning_at(text: &[u8]) -> Result<Option<Made<'_>>, Cause>
    ensures meaning { map_ok (option_map fit_of) result ≡ meaning_at text.now }
    ensures right { IfOk result (λ o. IfSome o (λ m. is_right m.makes (parts_of m.parts) m.parts.imm ≡ true)) }
{
    if text.is_empty() {
        return Ok(None);
    }
    if is_assignment(text) {
        return Ok(None);
    }
    if is_directive(text) {
        if is_refused(&text[..word_end(text)]) {
            return Err(Cause::Directive);
        }
        return Ok(None);
    }
    match instruction_in(text) {
        Ok(made) => Ok(Some(made)),
        Err(cause) => Err(cause),
    }
}

/// What a statement means whose labels are taken off: nothing, an instruction, or a fault.
pub fn meaning(text: &[u8]) -> Result<Option<Made<'_>>, Cause>
    ensures meaning { map_ok (option_map fit_of) result ≡ meaning text.now }
    ensures right { IfOk result (λ o. IfSome o (λ m. is_right m.makes (parts_of m.parts) m.parts.imm ≡ true)) }
{
    meaning_at(skip(ByteClass::Blank, text))
}
