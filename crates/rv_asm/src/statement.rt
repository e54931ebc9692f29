//! How a statement begins.
ghost use Rattle.std.specs.Prelude.{◌≡◌};
ghost use Rattle.rv_asm.specs.Statement.{is_label_word, is_label, is_assignment, is_directive, is_skipped};

use crate::class::{ByteClass, begins_in, begins_with, is_all, skip};

fn is_label_word(word: &[u8]) -> bool
    ensures { result ≡ is_label_word word.now }
{
    if begins_in(ByteClass::Start, word)
        && is_all(ByteClass::Blank, skip(ByteClass::Symbol, word))
    {
        return true;
    }
    begins_in(ByteClass::Digit, word) && is_all(ByteClass::Blank, skip(ByteClass::Digit, word))
}

/// Whether a colon behind the text makes a label of it: it is a symbol or digits, with blanks around.
pub fn is_label(text: &[u8]) -> bool
    ensures { result ≡ is_label text.now }
{
    is_label_word(skip(ByteClass::Blank, text))
}

/// Whether a text that begins with no blank is an assignment: a symbol, blanks or none, and `=`.
pub fn is_assignment(word: &[u8]) -> bool
    ensures { result ≡ is_assignment word.now }
{
    begins_in(ByteClass::Start, word)
        && begins_with(b'=', skip(ByteClass::Blank, skip(ByteClass::Symbol, word)))
}

/// Whether a text that begins with no blank, and is no assignment, is a directive.
pub fn is_directive(word: &[u8]) -> bool
    ensures { result ≡ is_directive word.now }
{
    begins_with(b'.', word)
}

/// Whether a text behind labels is an assignment or a directive, which are skipped.
pub fn is_skipped(text: &[u8]) -> bool
    ensures { result ≡ is_skipped text.now }
{
    let word = skip(ByteClass::Blank, text);
    is_assignment(word) || is_directive(word)
}
