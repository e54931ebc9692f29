//! Classes of bytes.
ghost use Rattle.std.specs.Prelude.{◌≡◌, ◌≤◌, length, true};
ghost use Rattle.rv_asm.specs.Statement.{is_letter, is_digit, begins_symbol, is_in, skip, begins_in, begins_with, is_empty, trailing};

/// A class of bytes that texts are made of.
#[derive(Clone, Copy, Debug, PartialEq, Eq)]
pub enum ByteClass {
    /// A space or a tab.
    Blank,
    /// A decimal digit.
    Digit,
    /// A letter or `_`: what the name of a relocation consists of.
    Word,
    /// What a symbol may begin with.
    Start,
    /// What a symbol consists of.
    Symbol,
    /// What a symbolic immediate may consist of.
    Operand,
    /// A closing parenthesis.
    Close,
}

fn is_letter(b: u8) -> bool
    ensures { result ≡ is_letter b }
{
    (b >= b'a' && b <= b'z') || (b >= b'A' && b <= b'Z')
}

fn is_digit(b: u8) -> bool
    ensures { result ≡ is_digit b }
{
    b >= b'0' && b <= b'9'
}

fn begins_symbol(b: u8) -> bool
    ensures { result ≡ begins_symbol b }
{
    is_letter(b) || b == b'_' || b == b'.' || b == b'$'
}

impl ByteClass {
    /// Whether a byte is in the class.
    pub fn has(self, b: u8) -> bool
        ensures { result ≡ is_in self b }
    {
        match self {
            ByteClass::Blank => b == b' ' || b == b'\t',
            ByteClass::Digit => is_digit(b),
            ByteClass::Word => is_letter(b) || b == b'_',
            ByteClass::Start => begins_symbol(b),
            ByteClass::Symbol => begins_symbol(b) || is_digit(b),
            ByteClass::Operand => {
                begins_symbol(b) || is_digit(b) || b == b'@' || b == b'+' || b == b'-'
            }
            ByteClass::Close => b == b')',
        }
    }
}

/// The text from the first byte on that is not in the class.
pub fn skip(class: ByteClass, text: &[u8]) -> &[u8]
    ensures rest { result.now ≡ skip class text.now }
    ensures within { length result.now ≤ length text.now }
{
    let mut rest = text;
    while let [b, after @ ..] = rest {
        if !class.has(*b) {
            break;
        }
        rest = after;
    }
    rest
}

/// Whether the first byte is in the class.
pub fn begins_in(class: ByteClass, text: &[u8]) -> bool
    ensures { result ≡ begins_in class text.now }
{
    match text {
        [b, ..] => class.has(*b),
        [] => false,
    }
}

/// Whether the first byte is this one.
pub fn begins_with(a: u8, text: &[u8]) -> bool
    ensures test { result ≡ begins_with a text.now }
    ensures some { result ≡ true → 1 ≤ length text.now }
{
    match text {
        [b, ..] => *b == a,
        [] => false,
    }
}

/// Whether there is no byte but those of the class.
pub fn is_all(class: ByteClass, text: &[u8]) -> bool
    ensures { result ≡ is_empty (skip class text.now) }
{
    skip(class, text).is_empty()
}

/// How many bytes at the end of the text are in the class.
pub fn trailing(class: ByteClass, text: &[u8]) -> usize
    ensures count { result ≡ trailing class text.now }
    ensures within { result ≤ length text.now }
{
    text.iter().rev().take_while(|b| class.has(**b)).count()
}
