//! The value of an option.
ghost use Rattle.std.specs.Prelude.{◌≡◌, ◌^◌, ◌||◌, map, min, nat_eq, Ok};
ghost use Rattle.std.specs.List.{list_all, list_any};
ghost use Rattle.std.specs.Char.{is_ascii_digit};
ghost use Rattle.std.specs.Option.{option_copied};
ghost use Rattle.std.specs.Cmp.Lexicographic.{pointwise};
ghost use Rattle.mca_words.specs.Gives.{Gives};
ghost use Rattle.mca_words.specs.Values.{is_machine, is_number, number_from, number_of, truth_of, machine_value, number_value, truth_value, value_of_text, value_of};

use crate::fault::WordKind;
use crate::table::ValueForm;
use mca_fixed::Text;
use std::alloc::Global;

/// The value of an option that was given.
#[derive(Debug, Drop)]
pub enum Value {
    /// The name of a file or of a machine.
    Text(Text),
    /// A number.
    Number(u32),
    /// A truth.
    Truth(bool),
}

const MACHINE_NAMES: [&str; 3] = ["tiny", "dual", "quad"];

// What a number is cut to while it is read: it is above the range of every option.
const CEILING: u64 = 0x1_0000_0000;

fn is_among(names: &[&str], text: &[u8]) -> bool
    ensures { result ≡ list_any (λ name. pointwise nat_eq text.now name) (map (λ name. name.now) names.now) }
{
    for name in names {
        if text == name.as_bytes() {
            return true;
        }
    }
    false
}

fn is_machine(text: &[u8]) -> bool
    ensures { result ≡ is_machine text.now }
{
    is_among(&MACHINE_NAMES, text)
}

fn has_digits_alone(text: &[u8]) -> bool
    ensures { result ≡ list_all is_ascii_digit text.now }
{
    text.iter().all(|byte| byte.is_ascii_digit())
}

fn is_number(text: &[u8]) -> bool
    ensures { result ≡ is_number text.now }
{
    !text.is_empty() && has_digits_alone(text)
}

fn number_of(digits: &[u8]) -> u64
    ensures { result ≡ min (2 ^ 32) (number_of digits.now) }
{
    let mut number: u64 = 0;
    for digit in digits {
        number = (number * 10 + u64::from(digit.saturating_sub(b'0'))).min(CEILING);
    }
    number
}

fn is_either(text: &[u8], one: &[u8], other: &[u8]) -> bool
    ensures { result ≡ (pointwise nat_eq text.now one.now || pointwise nat_eq text.now other.now) }
{
    text == one || text == other
}

fn truth_of(text: &[u8]) -> Option<bool>
    ensures { result ≡ truth_of text.now }
{
    if is_either(text, b"true", b"1") {
        Some(true)
    } else if is_either(text, b"false", b"0") {
        Some(false)
    } else {
        None
    }
}

fn text_value(alloc: Global, text: &str) -> Result<Value, WordKind>
    ensures { Gives (Ok (Value.Text text.now)) result }
{
    Ok(Value::Text(Text::from_string(String::from_str(alloc, text)?)))
}

fn machine_value(alloc: Global, text: &str) -> Result<Value, WordKind>
    ensures { Gives (machine_value text.now) result }
{
    if !is_machine(text.as_bytes()) {
        return Err(WordKind::UnknownMachine);
    }
    text_value(alloc, text)
}

fn number_value(most: u32, text: &[u8]) -> Result<Value, WordKind>
    ensures { result ≡ number_value most text.now }
{
    if !is_number(text) {
        return Err(WordKind::BadNumber);
    }
    let number = number_of(text);
    if number > u64::from(most) {
        return Err(WordKind::OutOfRange);
    }
    Ok(Value::Number(number as u32))
}

fn truth_value(text: &[u8]) -> Result<Value, WordKind>
    ensures { result ≡ truth_value (truth_of text.now) }
{
    match truth_of(text) {
        None => Err(WordKind::BadNumber),
        Some(truth) => Ok(Value::Truth(truth)),
    }
}

fn value_of_text(alloc: Global, form: ValueForm, text: &str) -> Result<Value, WordKind>
    ensures { Gives (value_of_text form text.now) result }
{
    match form {
        ValueForm::FileName => text_value(alloc, text),
        ValueForm::MachineName => machine_value(alloc, text),
        ValueForm::NumberUpTo(most, _) | ValueForm::OptionalNumber(most) => {
            number_value(most, text.as_bytes())
        }
        ValueForm::TruthValue(_) => truth_value(text.as_bytes()),
    }
}

/// The value of an option, or the first fault of its value.
pub(crate) fn value_of(
    alloc: Global,
    form: ValueForm,
    text: Option<&str>,
) -> Result<Value, WordKind>
    ensures { Gives (value_of form (option_copied text.entry)) result }
{
    match (form, text) {
        (ValueForm::TruthValue(_), None) => Ok(Value::Truth(true)),
        (ValueForm::TruthValue(_), Some(text)) => truth_value(text.as_bytes()),
        (_, None) => Err(WordKind::MissingValue),
        (_, Some(text)) => {
            if text.is_empty() {
                return Err(WordKind::MissingValue);
            }
            value_of_text(alloc, form, text)
        }
    }
}
