//! Comments to the end of a line.
ghost use Rattle.std.specs.Prelude.{◌≡◌, ◌≤◌, length, drop, if◌then◌else◌};
ghost use Rattle.rv_asm.specs.Statement.{begins_with};
ghost use Rattle.rv_asm.specs.Marks.{without_return, comment_text, ends_word, remark_at, remark_of};

use crate::class::{ByteClass, begins_in, begins_with, skip};

/// What a comment says to the analyser.
#[derive(Clone, Copy, Debug, PartialEq, Eq)]
pub enum Remark {
    /// Nothing.
    Plain,
    /// A region begins.
    Begin,
    /// A region ends.
    End,
    /// What is not understood.
    Refused,
}

fn without_return(text: &[u8]) -> &[u8]
    ensures { result.now ≡ without_return text.now }
{
    match text {
        [front @ .., b'\r'] => front,
        _ => text,
    }
}

/// What stands behind the first bytes.
pub fn behind(count: usize, text: &[u8]) -> &[u8]
    ensures { result.now ≡ drop count text.now }
{
    if text.len() < count {
        return &[];
    }
    &text[count..]
}

fn behind_sign(bytes: &[u8]) -> &[u8]
    ensures { result.now ≡ (if begins_with 35 bytes.now then drop 1 bytes.now else drop 2 bytes.now) }
{
    if begins_with(b'#', bytes) {
        return behind(1, bytes);
    }
    behind(2, bytes)
}

/// The text of a comment that goes to the end of its line.
pub fn comment_text(bytes: &[u8]) -> &[u8]
    ensures { result.now ≡ comment_text bytes.now }
{
    skip(ByteClass::Blank, without_return(behind_sign(bytes)))
}

fn ends_word(text: &[u8]) -> bool
    ensures { result ≡ ends_word text.now }
{
    text.is_empty() || begins_in(ByteClass::Blank, text)
}

fn remark_at(text: &[u8]) -> Remark
    ensures { result ≡ remark_at text.now }
{
    if text.starts_with(b"BEGIN") && ends_word(behind(5, text)) {
        return Remark::Begin;
    }
    if text.starts_with(b"END") && ends_word(behind(3, text)) {
        return Remark::End;
    }
    Remark::Refused
}

/// What the text of a comment says to the analyser.
pub fn remark_of(text: &[u8]) -> Remark
    ensures { result ≡ remark_of text.now }
{
    if !text.starts_with(b"LLVM-MCA-") {
        return Remark::Plain;
    }
    remark_at(behind(9, text))
}
