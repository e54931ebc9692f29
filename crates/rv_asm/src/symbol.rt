//! Symbolic immediates.
ghost use Rattle.std.specs.Prelude.{◌≡◌, ◌≤◌, length, nat_eq, codes, ◌||◌};
ghost use Rattle.std.specs.Cmp.Lexicographic.{pointwise};
ghost use Rattle.rv_asm.specs.Pieces.{begins};
ghost use Rattle.std.specs.Option.{option_map};
ghost use Rattle.rv_asm.specs.Symbols.{is_plain, is_local, opened_word, opened, core, is_symbolic};

use crate::class::{ByteClass, begins_in, begins_with, is_all, skip, trailing};
use crate::pieces::begins;
use rv_isa::register_of;

fn is_sum_with_place(text: &[u8]) -> bool
    ensures { result ≡ (pointwise nat_eq text.now (codes ".") || begins 46 43 text.now || begins 46 45 text.now) }
{
    if text == b".".as_slice() {
        return true;
    }
    begins(b'.', b'+', text) || begins(b'.', b'-', text)
}

fn is_plain(text: &[u8]) -> bool
    ensures { result ≡ is_plain text.now }
{
    if !begins_in(ByteClass::Start, text) {
        return false;
    }
    if !is_all(ByteClass::Operand, text) {
        return false;
    }
    register_of(text).is_none() && !is_sum_with_place(text)
}

fn is_local(text: &[u8]) -> bool
    ensures { result ≡ is_local text.now }
{
    if !begins_in(ByteClass::Digit, text) {
        return false;
    }
    let rest = skip(ByteClass::Digit, text);
    rest == b"b".as_slice() || rest == b"f".as_slice()
}

fn opened_word(text: &[u8]) -> Option<&[u8]>
    ensures { option_map (λ t. t.now) result ≡ opened_word text.now }
{
    if !begins_in(ByteClass::Word, text) {
        return None;
    }
    let rest = skip(ByteClass::Word, text);
    if !begins_with(b'(', rest) {
        return None;
    }
    Some(&rest[1..])
}

/// What stands behind `%`, a word and an opening parenthesis.
fn opened(text: &[u8]) -> Option<&[u8]>
    ensures { option_map (λ t. t.now) result ≡ opened text.now }
{
    if !begins_with(b'%', text) {
        return None;
    }
    opened_word(&text[1..])
}

fn core(levels: usize, text: &[u8]) -> Option<&[u8]>
    ensures { option_map (λ t. t.now) result ≡ core levels text.now }
{
    let mut rest = text;
    for _level in 0..levels {
        rest = opened(rest)?;
    }
    Some(rest)
}

/// Whether the text is a symbolic immediate: a symbol with `@`, `+` and `-` in it that is no register,
/// digits with `b` or `f`, or such a text within relocations as `%hi(..)`.
pub fn is_symbolic(text: &[u8]) -> bool
    ensures { result ≡ is_symbolic text.now }
{
    let count = trailing(ByteClass::Close, text);
    match core(count, &text[..text.len() - count]) {
        Some(inner) => is_plain(inner) || is_local(inner),
        None => false,
    }
}
