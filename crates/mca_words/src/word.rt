//! One word of the command line, taken apart.
ghost use Rattle.std.specs.Prelude.{◌≡◌, drop, codes, nat_eq, if◌then◌else◌};
ghost use Rattle.std.specs.List.{starts_with};
ghost use Rattle.std.specs.Option.{option_copied};
ghost use Rattle.mca_words.specs.Pieces.{is_option, without_dashes, name_of, own_value, takes_word, awaits_value};
ghost use Rattle.mca_words.specs.Table.{form_of};

use crate::table::{self, ValueForm};

/// Whether the word is an option; it is an input otherwise.
pub(crate) fn is_option(word: &str) -> bool
    ensures { result ≡ is_option word.now }
{
    word.as_bytes().starts_with(b"-")
}

fn without_dashes(word: &[u8]) -> &[u8]
    ensures { result.now ≡ without_dashes word.now }
{
    if word.starts_with(b"--") {
        &word[2..]
    } else if word.is_empty() {
        word
    } else {
        &word[1..]
    }
}

/// The name of the word's option, without its dashes and its value.
pub(crate) fn name_of(word: &str) -> &[u8]
    ensures { result.now ≡ name_of word.now }
{
    match word.split_once('=') {
        Some((name, _)) => without_dashes(name.as_bytes()),
        None => without_dashes(word.as_bytes()),
    }
}

/// The value that stands in the word itself.
pub(crate) fn own_value(word: &str) -> Option<&str>
    ensures { option_copied result ≡ own_value word.now }
{
    match word.split_once('=') {
        Some((_, value)) => Some(value),
        None => None,
    }
}

fn takes_word(form: Option<ValueForm>) -> bool
    ensures { result ≡ takes_word form }
{
    match form {
        None | Some(ValueForm::TruthValue(_)) => false,
        Some(_) => true,
    }
}

/// Whether the next word is this one's value.
pub(crate) fn awaits_value(word: &str) -> bool
    ensures { result ≡ awaits_value word.now }
{
    is_option(word) && own_value(word).is_none() && takes_word(table::form_of(name_of(word)))
}
