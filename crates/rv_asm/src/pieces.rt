//! The pieces into which a text is cut: what stands at a place, and how far it goes.
ghost use Rattle.std.specs.Prelude.{◌≡◌, ◌<◌, ◌≤◌, ◌^◌, length, true, IfSome, is_some};
ghost use Rattle.rv_asm.specs.Pieces.{kind_at, begins, is_return, closes};
ghost use Rattle.rv_asm.specs.Extents.{feed_from, close_from, quote_from, len_of, feeds};

use crate::class::begins_with;

/// What a piece of a text is.
#[derive(Clone, Copy, Debug, PartialEq, Eq)]
pub enum PieceKind {
    /// A comment from `#` or `//` to the end of its line.
    Line,
    /// A comment from `/*` to `*/`, or to the end of the text.
    Block,
    /// A string of a directive or an assignment.
    Quoted,
    /// A line feed.
    Feed,
    /// A semicolon, which separates two statements of a line.
    Semi,
    /// A carriage return before a line feed or at the end of the text, which counts as nothing.
    Return,
    /// Any other byte.
    Byte,
}

pub fn begins(a: u8, b: u8, text: &[u8]) -> bool
    ensures test { result ≡ begins a b text.now }
    ensures long { result ≡ true → 2 ≤ length text.now }
{
    match text {
        [x, y, ..] => *x == a && *y == b,
        _ => false,
    }
}

fn is_return(text: &[u8]) -> bool
    ensures { result ≡ is_return text.now }
{
    match text {
        [] => false,
        [b] => *b == b'\r',
        [b, c, ..] => *b == b'\r' && *c == b'\n',
    }
}

/// The kind of the piece at the front of a text, where `strings` says whether a `"` begins a string there.
pub fn kind_at(strings: bool, text: &[u8]) -> PieceKind
    ensures { result ≡ kind_at strings text.now }
{
    if begins_with(b'#', text) {
        return PieceKind::Line;
    }
    if begins(b'/', b'/', text) {
        return PieceKind::Line;
    }
    if begins(b'/', b'*', text) {
        return PieceKind::Block;
    }
    if strings && begins_with(b'"', text) {
        return PieceKind::Quoted;
    }
    if begins_with(b'\n', text) {
        return PieceKind::Feed;
    }
    if begins_with(b';', text) {
        return PieceKind::Semi;
    }
    if is_return(text) {
        return PieceKind::Return;
    }
    PieceKind::Byte
}

/// The place of the first line feed, or the end.
fn feed_at(text: &[u8]) -> usize
    ensures place { result ≡ feed_from 0 text.now }
    ensures within { result ≤ length text.now }
{
    for (k, b) in text.iter().enumerate() {
        if *b == b'\n' {
            return k;
        }
    }
    text.len()
}

/// The place behind the first `*/`, where there is one.
fn close_at(text: &[u8]) -> Option<usize>
    ensures place { result ≡ close_from 0 text.now }
    ensures within { IfSome result (λ k. k ≤ length text.now) }
{
    for k in 0..text.len() {
        if begins(b'*', b'/', &text[k..]) {
            return Some(k + 2);
        }
    }
    None
}

/// Whether a byte closes a string, where `prev` stands before it.
fn closes(prev: u8, b: u8) -> bool
    ensures { result ≡ closes prev b }
{
    b == b'"' && prev != b'\\'
}

/// The place behind a string whose first byte stands before the text.
fn quote_at(text: &[u8]) -> usize
    ensures place { result ≡ quote_from 0 34 text.now }
    ensures within { result ≤ length text.now }
{
    let mut prev = b'"';
    for (k, b) in text.iter().enumerate() {
        if *b == b'\n' {
            return k;
        }
        if closes(prev, *b) {
            return k + 1;
        }
        prev = *b;
    }
    text.len()
}

/// How many bytes the piece at the front of a text has, where its kind is known.
pub fn piece_len(strings: bool, kind: PieceKind, text: &[u8]) -> usize
    requires kind { kind ≡ kind_at strings text.now }
    requires some { 0 < length text.now }
    ensures len { result ≡ len_of kind text.now }
    ensures low { 1 ≤ result }
    ensures high { result ≤ length text.now }
    ensures block { kind ≡ PieceKind.Block → 2 ≤ result }
{
    match kind {
        PieceKind::Line => feed_at(text),
        PieceKind::Block => match close_at(&text[2..]) {
            Some(k) => k + 2,
            None => text.len(),
        },
        PieceKind::Quoted => quote_at(&text[1..]) + 1,
        _ => 1,
    }
}

/// How many line feeds a piece has.
pub fn feeds(bytes: &[u8]) -> u32
    requires { length bytes.now < 2 ^ 32 }
    ensures { result ≡ feeds bytes.now }
{
    bytes.iter().filter(|b| **b == b'\n').count() as u32
}

/// Whether a block comment that has these bytes behind its `/*` is closed.
pub fn is_closed(body: &[u8]) -> bool
    ensures { result ≡ is_some (close_from 0 body.now) }
{
    close_at(body).is_some()
}
