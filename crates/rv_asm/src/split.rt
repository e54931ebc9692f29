//! Where the operands of an instruction stand.
ghost use Rattle.std.specs.Prelude.{◌≡◌, ◌≤◌, ◌<◌, ◌+◌, ◌^◌, ◌∷◌, length, IfSome};
ghost use Rattle.std.specs.Option.{option_map};
ghost use Rattle.rv_asm.specs.Operands.{separates_at, depth_after, between_commas, front_of, trimmed, operands_in, others};

use crate::class::{ByteClass, is_all, skip, trailing};

/// How many parentheses are open behind a byte.
fn depth_after(depth: usize, b: u8) -> usize
    requires { depth + 1 < 2 ^ 64 }
    ensures value { result ≡ depth_after depth b }
    ensures high { result ≤ depth + 1 }
{
    match b {
        b'(' => depth + 1,
        b')' => depth.saturating_sub(1),
        _ => depth,
    }
}

/// Whether a byte is a comma outside parentheses.
fn separates_at(depth: usize, b: u8) -> bool
    ensures { result ≡ separates_at depth b }
{
    b == b',' && depth == 0
}

/// The text without the blanks at its end.
fn front_of(text: &[u8]) -> &[u8]
    ensures { result.now ≡ front_of text.now }
{
    let blanks = trailing(ByteClass::Blank, text);
    &text[..text.len() - blanks]
}

/// The text without the blanks at both ends.
pub fn trimmed(text: &[u8]) -> &[u8]
    ensures { result.now ≡ trimmed text.now }
{
    front_of(skip(ByteClass::Blank, text))
}

/// The text up to the first comma outside parentheses, and the text behind that comma.
pub fn cut_operand(text: &[u8]) -> (&[u8], Option<&[u8]>)
    ensures parts { result.0.now ∷ others (option_map (λ t. t.now) result.1) ≡ between_commas 0 text.now }
    ensures shorter { IfSome result.1 (λ t. length t.now ≤ length text.now) }
{
    let mut depth = 0;
    for (k, b) in text.iter().enumerate() {
        if separates_at(depth, *b) {
            return (&text[..k], Some(&text[k + 1..]));
        }
        depth = depth_after(depth, *b);
    }
    (text, None)
}

fn count_between(text: &[u8]) -> usize
    ensures { result ≡ length (between_commas 0 text.now) }
{
    let mut depth = 0;
    let mut count = 1;
    for b in text {
        if separates_at(depth, *b) {
            count += 1;
            continue;
        }
        depth = depth_after(depth, *b);
    }
    count
}

/// How many operands there are.
pub fn count_operands(text: &[u8]) -> usize
    ensures { result ≡ length (operands_in text.now) }
{
    if is_all(ByteClass::Blank, text) {
        return 0;
    }
    count_between(text)
}
