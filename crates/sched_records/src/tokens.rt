//! The tokens of a text, one at a time.
ghost use Rattle.std.specs.Prelude.{◌≡◌, ℕ, ◌+◌, ◌^◌, ◌<◌, ◌≤◌, length, drop, true, false};
ghost use Rattle.sched_records.specs.Tokens.{feeds, Lexeme, bytes_of, line_of, is_gap, tokens_from, first_of};

use crate::piece::{Piece, TokenKind, piece_at};
use std::marker::Model;

/// A token, the line that it stands in, and its bytes; those of a string without its `"`.
#[derive(Clone, Copy)]
pub struct Token<'a> {
    pub line: u32,
    pub kind: TokenKind,
    pub bytes: &'a [u8],
}

/// How many line feeds there are.
fn feeds(text: &[u8]) -> u32
    requires { length text.now < 2 ^ 32 }
    ensures feeds { result ≡ feeds text.now }
    ensures within { result ≤ length text.now }
{
    text.iter().filter(|b| **b == b'\n').count() as u32
}

fn behind_first(text: &[u8]) -> &[u8]
    ensures { result.now ≡ drop 1 text.now }
{
    match text {
        [] => text,
        [_, rest @ ..] => rest,
    }
}

fn bytes_of(piece: Piece, text: &[u8]) -> &[u8]
    requires { piece.size ≤ length text.now }
    ensures { result.now ≡ bytes_of piece text.now }
{
    match piece.kind {
        TokenKind::Quoted => behind_first(&text[..piece.size.saturating_sub(1)]),
        _ => &text[..piece.size],
    }
}

fn line_of(piece: Piece, line: u32, text: &[u8]) -> u32
    requires { line + length text.now < 2 ^ 32 }
    ensures { result ≡ line_of piece line text.now }
{
    match piece.kind {
        TokenKind::Cut => line + feeds(text),
        _ => line,
    }
}

fn is_gap(kind: TokenKind) -> bool
    ensures { result ≡ is_gap kind }
{
    matches!(kind, TokenKind::Gap)
}

/// The tokens from a place of a text on. Contracts see them as a list, whose last is the end of the
/// text; behind the end nothing is left. Each is cut from the text when it is reached.
#[derive(Drop)]
pub struct Tokens<'a> {
    first: Option<Token<'a>>,
    /// Whether the first token is the end of the text.
    last: bool,
    rest: &'a [u8],
    line: u32,
}

impl<'a> Model for Tokens<'a> {
    ghost use Rattle.std.specs.Prelude.{List, ◌+◌, ◌<◌, ◌^◌, length};
    ghost use Rattle.sched_records.specs.Tokens.{Lexeme};
    ghost use Rattle.sched_records.specs.Shown.{shown};

    ghost Value = { List Lexeme };

    ghost view = { λ s. shown s.first s.last s.rest.now s.line };

    ghost invariant = { λ s. s.line + length s.rest.now + 2 < 2 ^ 32 };
}

impl<'a> Tokens<'a> {
    ghost use Rattle.sched_records.specs.Shown.{seen};

    /// The tokens of a text that begins at a line.
    pub fn at(text: &'a [u8], line: u32) -> Tokens<'a>
        requires { line + length text.now + 2 < 2 ^ 32 }
        ensures { result ≡ tokens_from text.now 0 line }
    {
        let mut rest = text;
        let mut at = line;
        'pieces: loop {
            let piece = piece_at(rest);
            let (bytes, behind) = rest.split_at(piece.size);
            let next = at + feeds(bytes);
            if !is_gap(piece.kind) {
                let first = Token {
                    line: line_of(piece, at, rest),
                    kind: piece.kind,
                    bytes: bytes_of(piece, rest),
                };
                return Tokens {
                    first: Some(first),
                    last: rest.is_empty(),
                    rest: behind,
                    line: next,
                };
            }
            rest = behind;
            at = next;
        }
    }

    /// The token that stands first; behind the end of the text, the end with line 0.
    pub fn first(&self) -> Token<'a>
        ensures { seen result ≡ first_of self.now }
    {
        match self.first {
            Some(token) => token,
            None => Token {
                line: 0,
                kind: TokenKind::End,
                bytes: &[],
            },
        }
    }

    /// Leaves the first token behind.
    pub fn advance(&mut self)
        ensures { self.new ≡ drop 1 self.old }
    {
        match self.first {
            None => {}
            Some(_) if self.last => self.first = None,
            Some(_) => *self = Tokens::at(self.rest, self.line),
        }
    }
}
