//! Reading the words of the command line.
ghost use Rattle.std.specs.Prelude.{◌≡◌, ℕ, ◌+◌, ◌<◌, ◌≤◌, length, map, string_bytes, ◌≢◌, [], slice_index_or, IfOk, IfErr, Err};
ghost use Rattle.std.specs.Option.{option_copied};
ghost use Rattle.mca_words.specs.Answer.{end_fault, end_answer, answer_of, rest_answer, next_word, width};
ghost use Rattle.mca_words.specs.Gives.{Answers};
ghost use Rattle.mca_words.specs.Options.{options_of};

use crate::fault::{WordFault, WordKind};
use crate::options::Options;
use crate::settings::{self, Setting};
use crate::word;
use mca_fixed::NoMemory;
use std::alloc::Global;

fn options_of(alloc: Global, settings: &[Setting]) -> Result<Options, NoMemory>
    ensures { IfOk result (λ options. options ≡ options_of settings.now) }
{
    Ok(Options {
        table: settings::text_set(alloc, settings, b"table")?,
        mcpu: settings::text_set(alloc, settings, b"mcpu")?,
        iterations: settings::number_set(settings, b"iterations"),
        dispatch: settings::number_set(settings, b"dispatch"),
        register_file_size: settings::number_set(settings, b"register-file-size"),
        lqueue: settings::number_set(settings, b"lqueue"),
        squeue: settings::number_set(settings, b"squeue"),
        noalias: settings::truth_set(settings, b"noalias"),
        instruction_info: settings::truth_set(settings, b"instruction-info"),
        resource_pressure: settings::truth_set(settings, b"resource-pressure"),
        timeline: settings::truth_set(settings, b"timeline"),
        timeline_max_iterations: settings::number_set(settings, b"timeline-max-iterations"),
        timeline_max_cycles: settings::number_set(settings, b"timeline-max-cycles"),
        bottleneck_analysis: settings::truth_set(settings, b"bottleneck-analysis"),
        load: settings::number_given(settings, b"load"),
        input: settings::input_of(alloc, settings)?,
    })
}

// The fault that shows only after all words.
fn end_fault(settings: &[Setting]) -> Option<WordKind>
    ensures { result ≡ end_fault settings.now }
{
    if settings::stands(settings, b"load") {
        return None;
    }
    if !settings::has_input(settings) {
        return Some(WordKind::NoInput);
    }
    if !settings::stands(settings, b"table") && !settings::stands(settings, b"mcpu") {
        return Some(WordKind::NoMachine);
    }
    None
}

fn end_answer(alloc: Global, settings: &[Setting], number: u64) -> Result<Options, WordFault>
    ensures answer { Answers (end_answer number settings.now (end_fault settings.now)) result }
    ensures no_word { IfErr result (λ fault. fault.kind ≡ WordKind.Memory → fault.word ≡ 0) }
{
    match end_fault(settings) {
        Some(kind) => Err(WordFault { word: number, kind }),
        None => Ok(options_of(alloc, settings)?),
    }
}

fn word_at(words: &[String], at: usize) -> &str
    requires { at < length words.now }
    ensures { result.now ≡ slice_index_or (map string_bytes words.now) at [] }
{
    words[at].as_str()
}

// The word after the one at a place, where it is that one's value.
fn next_word(words: &[String], at: usize) -> Option<&str>
    requires { at < length words.now }
    ensures { option_copied result ≡ next_word (map string_bytes words.now) at }
{
    if !word::awaits_value(word_at(words, at)) {
        return None;
    }
    match words.get(at + 1) {
        Some(next) => Some(next.as_str()),
        None => None,
    }
}

// How many words a value takes.
fn width(next: Option<&str>) -> usize
    ensures { result ≡ width (option_copied next.entry) }
{
    match next {
        None => 0,
        Some(_) => 1,
    }
}

// Reads what stands at a place, and answers the place after it.
fn read_piece(
    alloc: Global,
    words: &[String],
    at: usize,
    settings: &mut Vec<Setting>,
) -> Result<usize, WordFault>
    requires { at < length words.now }
    ensures ok { IfOk result (λ next. (at < next) × (next ≤ length words.now) × (rest_answer (map string_bytes words.now) at settings.old.items ≡ rest_answer (map string_bytes words.now) next settings.new.items)) }
    ensures err { IfErr result (λ fault. fault.kind ≢ WordKind.Memory → rest_answer (map string_bytes words.now) at settings.old.items ≡ Err fault) }
    ensures no_word { IfErr result (λ fault. fault.kind ≡ WordKind.Memory → fault.word ≡ 0) }
{
    let next = next_word(words, at);
    match settings::set_by(alloc, settings, word_at(words, at), next) {
        Err(WordKind::Memory) => Err(WordFault::NO_MEMORY),
        Err(kind) => Err(WordFault {
            word: at as u64 + 1,
            kind,
        }),
        Ok(setting) => {
            settings.push(setting)?;
            Ok(at + 1 + width(next))
        }
    }
}

/// The options that the words after the program's name give, or the first fault of the least word.
///
/// A word that begins with `-` is an option, with one or two dashes; every other word is the name of
/// the input, also the empty one. A value stands after the first `=` or is the whole next word, with
/// whatever it begins; a truth takes one only after `=`, and is true without one. A number is one or
/// more decimal digits, of any count, with leading zeros. No option prints a help text or a version.
pub fn read_words(alloc: Global, words: &[String]) -> Result<Options, WordFault>
    ensures answer { Answers (answer_of (map string_bytes words.now)) result }
    ensures no_word { IfErr result (λ fault. fault.kind ≡ WordKind.Memory → fault.word ≡ 0) }
{
    let mut settings = Vec::new(alloc);
    let mut at = 0;
    while at < words.len() {
        at = read_piece(alloc, words, at, &mut settings)?;
    }
    end_answer(alloc, &settings, words.len() as u64 + 1)
}
