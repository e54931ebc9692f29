//! What the words set, one after the other.
ghost use Rattle.std.specs.Prelude.{◌≡◌, ◌&&◌, nat_eq, ℕ, Ok, IfOk};
ghost use Rattle.std.specs.Cmp.Lexicographic.{pointwise};
ghost use Rattle.std.specs.List.{list_any};
ghost use Rattle.std.specs.Option.{option_copied};
ghost use Rattle.mca_words.specs.Gives.{Gives};
ghost use Rattle.mca_words.specs.Options.{setting_of, input_of, text_set, number_set, number_given, truth_set};
ghost use Rattle.mca_words.specs.Pieces.{piece};
ghost use Rattle.mca_words.specs.Settings.{is_input, is_named, stands, has_other_machine, is_beside_load, named, option_set, input_set, set_by};

use crate::fault::WordKind;
use crate::table::{self, ValueForm};
use crate::value::{self, Value};
use crate::word;
use mca_fixed::{Name, NoMemory, Text};
use std::alloc::Global;

/// What a word set, with the word after it where that is its value.
#[derive(Debug, Drop)]
pub enum Setting {
    /// The input, by its name.
    Input(Text),
    /// The option with this name, and its value.
    Named(Name, Value),
}

fn is_input(setting: &Setting) -> bool
    ensures { result ≡ is_input setting.now }
{
    match setting {
        Setting::Input(_) => true,
        Setting::Named(_, _) => false,
    }
}

fn is_named(setting: &Setting, name: &[u8]) -> bool
    ensures { result ≡ is_named name.now setting.now }
{
    match setting {
        Setting::Input(_) => false,
        Setting::Named(own, _) => own.as_bytes() == name,
    }
}

/// Whether an input was set.
pub(crate) fn has_input(settings: &[Setting]) -> bool
    ensures { result ≡ list_any is_input settings.now }
{
    settings.iter().any(is_input)
}

/// Whether the option with this name was set.
pub(crate) fn stands(settings: &[Setting], name: &[u8]) -> bool
    ensures { result ≡ stands settings.now name.now }
{
    settings.iter().any(|setting| is_named(setting, name))
}

// Whether the name is this one, and the other option was set.
fn stands_beside(settings: &[Setting], name: &[u8], own: &[u8], other: &[u8]) -> bool
    ensures { result ≡ (pointwise nat_eq name.now own.now && stands settings.now other.now) }
{
    name == own && stands(settings, other)
}

fn has_other_machine(settings: &[Setting], name: &[u8]) -> bool
    ensures { result ≡ has_other_machine settings.now name.now }
{
    stands_beside(settings, name, b"table", b"mcpu")
        || stands_beside(settings, name, b"mcpu", b"table")
}

// Whether `-load` was set, or the option is `-load` and something was set.
fn is_beside_load(settings: &[Setting], name: &[u8]) -> bool
    ensures { result ≡ is_beside_load settings.now name.now }
{
    let load: &[u8] = b"load";
    stands(settings, load) || (name == load && !settings.is_empty())
}

fn named(
    alloc: Global,
    settings: &[Setting],
    name: &[u8],
    value: Value,
) -> Result<Setting, WordKind>
    ensures { Gives (named settings.now name.now (Ok value)) result }
{
    if has_other_machine(settings, name) {
        return Err(WordKind::TwoMachines);
    }
    if is_beside_load(settings, name) {
        return Err(WordKind::NotTogether);
    }
    Ok(Setting::Named(Name::from_bytes(alloc, name)?, value))
}

fn option_set(
    alloc: Global,
    settings: &[Setting],
    name: &[u8],
    text: Option<&str>,
    form: Option<ValueForm>,
) -> Result<Setting, WordKind>
    ensures { Gives (option_set settings.now name.now (option_copied text.entry) form) result }
{
    let Some(form) = form else {
        return Err(WordKind::UnknownOption);
    };
    if stands(settings, name) {
        return Err(WordKind::Repeated);
    }
    let value = value::value_of(alloc, form, text)?;
    named(alloc, settings, name, value)
}

fn input_set(alloc: Global, settings: &[Setting], text: &str) -> Result<Setting, WordKind>
    ensures { Gives (input_set settings.now text.now) result }
{
    if stands(settings, b"load") {
        return Err(WordKind::NotTogether);
    }
    if has_input(settings) {
        return Err(WordKind::TooManyInputs);
    }
    Ok(Setting::Input(Text::from_string(String::from_str(alloc, text)?)))
}

/// What a word sets after these settings, with the next word where that is its value; or its first
/// fault.
pub(crate) fn set_by(
    alloc: Global,
    settings: &[Setting],
    word: &str,
    next: Option<&str>,
) -> Result<Setting, WordKind>
    ensures { (number : ℕ) → Gives (set_by settings.now (piece number word.now (option_copied next.entry))) result }
{
    if !word::is_option(word) {
        return input_set(alloc, settings, word);
    }
    let name = word::name_of(word);
    let text = word::own_value(word).or(next);
    option_set(alloc, settings, name, text, table::form_of(name))
}

fn setting_of<'a>(settings: &'a [Setting], name: &[u8]) -> Option<&'a Value>
    ensures { option_copied result ≡ setting_of settings.entry.now name.now }
{
    for setting in settings {
        if let Setting::Named(own, value) = setting {
            if own.as_bytes() == name {
                return Some(value);
            }
        }
    }
    None
}

/// The text of an option; empty where it was not given.
pub(crate) fn text_set(alloc: Global, settings: &[Setting], name: &[u8]) -> Result<Text, NoMemory>
    ensures { IfOk result (λ text. text ≡ text_set settings.now name.now) }
{
    let text = match setting_of(settings, name) {
        Some(Value::Text(text)) => text.as_str(),
        _ => "",
    };
    Ok(Text::from_string(String::from_str(alloc, text)?))
}

/// The number of an option, or its default.
pub(crate) fn number_set(settings: &[Setting], name: &[u8]) -> u32
    ensures { result ≡ number_set settings.now name.now }
{
    match setting_of(settings, name) {
        Some(Value::Number(number)) => *number,
        _ => table::default_number(name),
    }
}

/// The number of an option, where it was given.
pub(crate) fn number_given(settings: &[Setting], name: &[u8]) -> Option<u32>
    ensures { result ≡ number_given settings.now name.now }
{
    match setting_of(settings, name) {
        Some(Value::Number(number)) => Some(*number),
        _ => None,
    }
}

/// The truth of an option, or its default.
pub(crate) fn truth_set(settings: &[Setting], name: &[u8]) -> bool
    ensures { result ≡ truth_set settings.now name.now }
{
    match setting_of(settings, name) {
        Some(Value::Truth(truth)) => *truth,
        _ => table::default_truth(name),
    }
}

fn input_text(settings: &[Setting]) -> &str
    ensures { result.now ≡ input_of settings.now }
{
    for setting in settings {
        if let Setting::Input(text) = setting {
            return text.as_str();
        }
    }
    ""
}

/// The name of the input; empty where there was none.
pub(crate) fn input_of(alloc: Global, settings: &[Setting]) -> Result<Text, NoMemory>
    ensures { IfOk result (λ text. text ≡ input_of settings.now) }
{
    Ok(Text::from_string(String::from_str(alloc, input_text(settings))?))
}
