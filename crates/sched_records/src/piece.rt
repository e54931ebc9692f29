//! The pieces of a text: what stands at a place, and how far it goes.
ghost use Rattle.std.specs.Prelude.{◌≡◌, ℕ, true, ◌+◌, ◌-◌, ◌^◌, ◌<◌, ◌≤◌, length, drop, nat_eq, not, IfSome, slice_get};
ghost use Rattle.std.specs.List.{prefix_len};
ghost use Rattle.sched_records.specs.Run.{is_in};
ghost use Rattle.sched_records.specs.Pieces.{is_space, is_letter, is_digit, is_name_byte, is_binary, is_hex, is_sign, is_operator, opens, closes, comment_end, string_end, sign_len, digits_len, number_len, closed, comment, string, name_kind, byte_kind, token_from, piece_from, piece_at};

/// What a piece of a text is.
#[derive(Clone, Copy, Debug, PartialEq, Eq)]
pub enum TokenKind {
    /// Blanks and line feeds, or a comment: part of no token.
    Gap,
    /// A letter or `_`, then letters, digits and `_`.
    Name,
    /// An optional sign and digits: decimal, `0x` hexadecimal, `0b` binary.
    Number,
    /// A string with its two `"`.
    Quoted,
    /// One of `: ; , = < > [ ] { } ( )`.
    Sign(u8),
    /// One of `! # ?`, or the name `instregex`: TableGen's own work.
    Operator,
    /// A byte that begins no token.
    Stray,
    /// A comment or a string that the end of the text cuts off.
    Cut,
    /// The end of the text.
    End,
}

/// A piece at a place of a text: what it is, and how many bytes it takes.
#[derive(Clone, Copy, Debug, PartialEq, Eq)]
pub struct Piece {
    pub kind: TokenKind,
    pub size: usize,
}

fn is_space(b: u8) -> bool
    ensures { result ≡ is_space b }
{
    b == b' ' || b == b'\t' || b == b'\r' || b == b'\n'
}

fn is_letter(b: u8) -> bool
    ensures { result ≡ is_letter b }
{
    (b'A' <= b && b <= b'Z') || (b'a' <= b && b <= b'z') || b == b'_'
}

pub fn is_digit(b: u8) -> bool
    ensures { result ≡ is_digit b }
{
    b'0' <= b && b <= b'9'
}

fn is_name_byte(b: u8) -> bool
    ensures { result ≡ is_name_byte b }
{
    is_letter(b) || is_digit(b)
}

fn is_binary(b: u8) -> bool
    ensures { result ≡ is_binary b }
{
    b == b'0' || b == b'1'
}

fn is_hex(b: u8) -> bool
    ensures { result ≡ is_hex b }
{
    is_digit(b) || (b'a' <= b && b <= b'f') || (b'A' <= b && b <= b'F')
}

fn is_sign(b: u8) -> bool
    ensures { result ≡ is_sign b }
{
    b == b':'
        || b == b';'
        || b == b','
        || b == b'='
        || b == b'<'
        || b == b'>'
        || b == b'['
        || b == b']'
        || b == b'{'
        || b == b'}'
        || b == b'('
        || b == b')'
}

fn is_operator(b: u8) -> bool
    ensures { result ≡ is_operator b }
{
    b == b'!' || b == b'#' || b == b'?'
}

/// Bytes that stand in one run.
#[derive(Clone, Copy)]
enum Run {
    Spaces,
    Line,
    Name,
    Digits,
    Binary,
    Hex,
}

impl Run {
    ghost use Rattle.sched_records.specs.Run.{is_in};

    fn has(self, b: u8) -> bool
        ensures { result ≡ is_in self b }
    {
        match self {
            Run::Spaces => is_space(b),
            Run::Line => b != b'\n',
            Run::Name => is_name_byte(b),
            Run::Digits => is_digit(b),
            Run::Binary => is_binary(b),
            Run::Hex => is_hex(b),
        }
    }

    /// How many bytes at the front of the text are of the run.
    fn len(self, text: &[u8]) -> usize
        ensures run { result ≡ prefix_len (is_in self) text.now }
        ensures within { result ≤ length text.now }
        ensures some { (b : ℕ) → slice_get text.now 0 ≡ Some b → is_in self b ≡ true → 0 < result }
    {
        for (k, b) in text.iter().enumerate() {
            if !self.has(*b) {
                return k;
            }
        }
        text.len()
    }
}

/// Whether two bytes are the sign that opens a block comment.
fn opens(a: u8, b: u8) -> bool
    ensures { result ≡ opens a b }
{
    a == b'/' && b == b'*'
}

/// Whether two bytes are the sign that closes a block comment.
fn closes(a: u8, b: u8) -> bool
    ensures { result ≡ closes a b }
{
    a == b'*' && b == b'/'
}

/// Where a block comment ends whose opening sign stands before the text, which begins at place 2.
#[tactic(auto, using(crate::proofs::Steps::comment_step))]
fn comment_end(text: &[u8]) -> Option<usize>
    requires { length text.now + 2 < 2 ^ 64 }
    ensures end { result ≡ comment_end 2 1 text.now }
    ensures within { IfSome result (λ k. k ≤ length text.now + 2) }
    ensures some { IfSome result (λ k. 2 ≤ k) }
{
    let mut depth: usize = 1;
    let mut k = 0;
    while k + 1 < text.len() {
        if opens(text[k], text[k + 1]) {
            depth += 1;
            k += 2;
            continue;
        }
        if !closes(text[k], text[k + 1]) {
            k += 1;
            continue;
        }
        if depth == 1 {
            return Some(k + 4);
        }
        depth -= 1;
        k += 2;
    }
    None
}

/// Where a string ends whose `"` stands before the text, which begins at place 1.
fn string_end(text: &[u8]) -> Option<usize>
    requires { length text.now + 1 < 2 ^ 64 }
    ensures end { result ≡ string_end 1 text.now }
    ensures within { IfSome result (λ k. k ≤ length text.now + 1) }
    ensures some { IfSome result (λ k. 2 ≤ k) }
{
    for (k, b) in text.iter().enumerate() {
        if *b == b'"' {
            return Some(k + 2);
        }
    }
    None
}

pub fn sign_len(text: &[u8]) -> usize
    ensures len { result ≡ sign_len text.now }
    ensures within { result ≤ length text.now }
    ensures one { result ≤ 1 }
{
    match text {
        [] => 0,
        [b, ..] => { if *b == b'+' || *b == b'-' { 1 } else { 0 } }
    }
}

/// The digits behind a prefix of two bytes, 0 where no digit follows it.
fn prefixed_len(text: &[u8], run: Run) -> usize
    ensures run { result ≡ prefix_len (is_in run) (drop 2 text.now) }
    ensures within { result ≤ length text.now - 2 }
{
    if text.len() < 2 {
        return 0;
    }
    run.len(&text[2..])
}

fn digits_len(text: &[u8]) -> usize
    ensures len { result ≡ digits_len text.now }
    ensures within { result ≤ length text.now }
{
    let hex = prefixed_len(text, Run::Hex);
    if text.starts_with(b"0x") && 0 < hex {
        return hex + 2;
    }
    let binary = prefixed_len(text, Run::Binary);
    if text.starts_with(b"0b") && 0 < binary {
        return binary + 2;
    }
    Run::Digits.len(text)
}

fn number_len(text: &[u8]) -> usize
    ensures len { result ≡ number_len text.now }
    ensures within { result ≤ length text.now }
{
    let sign = sign_len(text);
    let digits = digits_len(&text[sign..]);
    if digits == 0 { 0 } else { sign + digits }
}

fn closed(kind: TokenKind, text: &[u8], end: Option<usize>) -> Piece
    ensures { result ≡ closed kind text.now end }
{
    match end {
        None => Piece {
            kind: TokenKind::Cut,
            size: text.len(),
        },
        Some(size) => Piece { kind, size },
    }
}

/// The block comment that begins a text.
fn comment(text: &[u8]) -> Piece
    requires low { 2 ≤ length text.now }
    requires high { length text.now < 2 ^ 64 }
    ensures piece { result ≡ comment text.now }
    ensures within { result.size ≤ length text.now }
    ensures some { 0 < result.size }
{
    closed(TokenKind::Gap, text, comment_end(&text[2..]))
}

/// The string that begins a text.
fn string(text: &[u8]) -> Piece
    requires low { 1 ≤ length text.now }
    requires high { length text.now < 2 ^ 64 }
    ensures piece { result ≡ string text.now }
    ensures within { result.size ≤ length text.now }
    ensures some { 0 < result.size }
{
    closed(TokenKind::Quoted, text, string_end(&text[1..]))
}

fn name_kind(name: &[u8]) -> TokenKind
    ensures { result ≡ name_kind name.now }
{
    if name == b"instregex".as_slice() {
        TokenKind::Operator
    } else {
        TokenKind::Name
    }
}

fn piece_from(first: u8, text: &[u8]) -> Piece
    requires long { length text.now + 2 < 2 ^ 64 }
    requires first { slice_get text.now 0 ≡ Some first }
    ensures piece { result ≡ piece_from first text.now }
    ensures within { result.size ≤ length text.now }
    ensures some { 0 < result.size }
{
    if is_space(first) {
        return Piece {
            kind: TokenKind::Gap,
            size: Run::Spaces.len(text),
        };
    }
    if text.starts_with(b"//") {
        return Piece {
            kind: TokenKind::Gap,
            size: Run::Line.len(text),
        };
    }
    if text.starts_with(b"/*") {
        return comment(text);
    }
    if first == b'"' {
        return string(text);
    }
    token_from(first, text)
}

/// The token that is no string.
fn token_from(first: u8, text: &[u8]) -> Piece
    requires { slice_get text.now 0 ≡ Some first }
    ensures piece { result ≡ token_from first text.now }
    ensures within { result.size ≤ length text.now }
    ensures some { 0 < result.size }
{
    if is_letter(first) {
        let size = Run::Name.len(text);
        return Piece {
            kind: name_kind(&text[..size]),
            size,
        };
    }
    let size = number_len(text);
    if 0 < size {
        return Piece {
            kind: TokenKind::Number,
            size,
        };
    }
    Piece {
        kind: byte_kind(first),
        size: 1,
    }
}

/// What a byte is that stands for itself.
fn byte_kind(b: u8) -> TokenKind
    ensures { result ≡ byte_kind b }
{
    if is_sign(b) {
        TokenKind::Sign(b)
    } else if is_operator(b) {
        TokenKind::Operator
    } else {
        TokenKind::Stray
    }
}

/// The piece that begins a text.
pub fn piece_at(text: &[u8]) -> Piece
    requires { length text.now + 2 < 2 ^ 64 }
    ensures piece { result ≡ piece_at text.now }
    ensures within { result.size ≤ length text.now }
    ensures some { 0 < length text.now → 0 < result.size }
{
    match text {
        [] => Piece {
            kind: TokenKind::End,
            size: 0,
        },
        [first, ..] => piece_from(*first, text),
    }
}
