//! What may stand at a place of the tokens.
ghost use Rattle.std.specs.Prelude.{◌≡◌, ℕ, ◌<◌, ◌&&◌, length, drop, nat_eq, true, map, OnOk};
ghost use Rattle.std.specs.Cmp.Lexicographic.{pointwise};
ghost use Rattle.std.specs.List.{list_any};
ghost use Rattle.sched_records.specs.Tokens.{first_of};
ghost use Rattle.sched_records.specs.Shown.{seen};
ghost use Rattle.sched_records.specs.Gives.{Gives};
ghost use Rattle.sched_records.specs.Grammar.{fault, is_name, is_operator, is_the_end, has_sign, is_sign, is_word, is_among, reserved, types, refusal, refusal_among, sign_at, word_at, name_at};

use crate::piece::TokenKind;
use crate::refusal::{TableKind, TableRefusal};
use crate::tokens::{Token, Tokens};

/// Words of TableGen that do not stand where an item, a `let` of a body or a value would.
pub const RESERVED: [&str; 11] = [
    "class",
    "multiclass",
    "defm",
    "defset",
    "deftype",
    "foreach",
    "defvar",
    "if",
    "assert",
    "dump",
    "include",
];

/// The types that begin a typed field.
pub const TYPES: [&str; 7] = ["bit", "bits", "code", "dag", "int", "list", "string"];

pub fn is_name(kind: TokenKind) -> bool
    ensures { result ≡ is_name kind }
{
    matches!(kind, TokenKind::Name)
}

fn is_operator(kind: TokenKind) -> bool
    ensures { result ≡ is_operator kind }
{
    matches!(kind, TokenKind::Operator)
}

fn has_sign(sign: u8, kind: TokenKind) -> bool
    ensures { result ≡ has_sign sign kind }
{
    match kind {
        TokenKind::Sign(b) => b == sign,
        _ => false,
    }
}

fn is_in(words: &[&str], bytes: &[u8]) -> bool
    ensures { result ≡ list_any (λ w. pointwise nat_eq bytes.now w) (map (λ w. w.now) words.now) }
{
    for word in words {
        if bytes == word.as_bytes() {
            return true;
        }
    }
    false
}

impl<'a> Token<'a> {
    pub fn fault(&self, kind: TableKind) -> TableRefusal
        ensures { result ≡ fault (seen self.now) kind }
    {
        TableRefusal {
            line: self.line,
            kind,
        }
    }

    pub fn is_sign(&self, sign: u8) -> bool
        ensures { result ≡ is_sign sign (seen self.now) }
    {
        has_sign(sign, self.kind)
    }

    pub fn is_name(&self) -> bool
        ensures { result ≡ is_name (seen self.now).kind }
    {
        is_name(self.kind)
    }

    pub fn is_the_end(&self) -> bool
        ensures { result ≡ is_the_end (seen self.now).kind }
    {
        matches!(self.kind, TokenKind::End)
    }

    pub fn is_word(&self, word: &[u8]) -> bool
        ensures { result ≡ is_word word.now (seen self.now) }
    {
        is_name(self.kind) && self.bytes == word
    }

    /// Whether it is one of the words.
    pub fn is_among(&self, words: &[&str]) -> bool
        ensures { result ≡ is_among (map (λ w. w.now) words.now) (seen self.now) }
    {
        is_name(self.kind) && is_in(words, self.bytes)
    }

    /// The fault of the token where it may not stand.
    pub fn refusal(&self) -> TableRefusal
        ensures { result ≡ refusal (seen self.now) }
    {
        if is_operator(self.kind) {
            self.fault(TableKind::NotFlat)
        } else {
            self.fault(TableKind::Syntax)
        }
    }

    /// The same where these words are not flat.
    pub fn refusal_among(&self, words: &[&str]) -> TableRefusal
        ensures { result ≡ refusal_among (map (λ w. w.now) words.now) (seen self.now) }
    {
        if self.is_among(words) {
            self.fault(TableKind::NotFlat)
        } else {
            self.refusal()
        }
    }
}

/// Reads a sign that has to stand there.
pub fn sign(tokens: &mut Tokens<'_>, sign: u8) -> Result<(), TableRefusal>
    ensures read { Gives (λ _. tokens.new) result (sign_at sign tokens.old) }
    ensures shorter { OnOk result (length tokens.new < length tokens.old) }
{
    let token = tokens.first();
    if !token.is_sign(sign) {
        return Err(token.refusal());
    }
    tokens.advance();
    Ok(())
}

/// Reads a word that has to stand there.
pub fn word(tokens: &mut Tokens<'_>, word: &[u8]) -> Result<(), TableRefusal>
    ensures read { Gives (λ _. tokens.new) result (word_at word.now tokens.old) }
    ensures shorter { OnOk result (length tokens.new < length tokens.old) }
{
    let token = tokens.first();
    if !token.is_word(word) {
        return Err(token.refusal());
    }
    tokens.advance();
    Ok(())
}

/// Reads a name.
pub fn name<'a>(tokens: &mut Tokens<'a>) -> Result<&'a [u8], TableRefusal>
    ensures read { Gives (λ n. (n.now, tokens.new)) result (name_at tokens.old) }
    ensures shorter { OnOk result (length tokens.new < length tokens.old) }
{
    let token = tokens.first();
    if !token.is_name() {
        return Err(token.refusal());
    }
    tokens.advance();
    Ok(token.bytes)
}
