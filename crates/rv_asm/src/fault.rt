//! Why a text is refused.
ghost use Rattle.std.specs.Prelude.{◌≡◌, ◌<◌};
ghost use Rattle.rv_asm.specs.Faults.{rank, key, earlier, kind_of};
ghost use Rattle.rv_asm.specs.KindNames.{kind_name};

/// Why a text has no program.
#[derive(Clone, Copy, Debug, PartialEq, Eq)]
pub enum Cause {
    /// A line of more than 4,096 bytes.
    LongLine,
    /// A byte that stands in no text, outside comments and strings.
    BadByte,
    /// A directive that would make other text of the text.
    Directive,
    /// An instruction of 16 bits.
    Compressed,
    /// No form has the mnemonic.
    UnknownMnemonic,
    /// No form of the mnemonic has so many operands.
    OperandCount,
    /// No form of so many operands takes them.
    BadOperand,
    /// A form takes the operands but for the range of a number.
    ImmediateRange,
    /// A comment that is meant for the analyser and is no mark.
    Instrument,
    /// A block comment that is never closed.
    OpenComment,
}

/// A cause, and the line of the text where it stands, from 1.
#[derive(Clone, Copy, Debug, PartialEq, Eq)]
pub struct Fault {
    pub line: u32,
    pub cause: Cause,
}

/// What a refusal of a text says.
#[derive(Clone, Copy, Debug, PartialEq, Eq)]
pub enum AsmKind {
    /// A line has more than 4,096 bytes.
    LongLine,
    /// A byte other than a tab and 0x20 to 0x7E stands outside comments and strings.
    BadByte,
    /// A block comment is never closed.
    OpenComment,
    /// A directive that makes other text of the text, or a comment `LLVM-MCA-` that is no mark.
    RefusedDirective,
    /// The mnemonic begins with `c.`.
    Compressed,
    /// No form has the mnemonic.
    UnknownMnemonic,
    /// No form of the mnemonic has so many operands.
    OperandCount,
    /// No form of so many operands takes them.
    BadOperand,
    /// A form takes the operands but for the range of a number.
    ImmediateRange,
    /// A region begins inside another one.
    BeginInside,
    /// There are more regions than can be analysed.
    TooManyRegions,
    /// A region ends that has not begun.
    EndWithoutBegin,
    /// A region ends under another name than it began.
    WrongName,
    /// A region has no instruction.
    NoInstruction,
    /// A region has more instructions than can be analysed.
    RegionTooLong,
    /// A region does not end.
    NeverEnded,
    /// There was no memory.
    Memory,
}

impl AsmKind {
    /// The kind's name, as an error line prints it.
    pub fn name(self) -> &'static str
        ensures { result.now ≡ kind_name self }
    {
        match self {
            AsmKind::LongLine => "LongLine",
            AsmKind::BadByte => "BadByte",
            AsmKind::OpenComment => "OpenComment",
            AsmKind::RefusedDirective => "RefusedDirective",
            AsmKind::Compressed => "Compressed",
            AsmKind::UnknownMnemonic => "UnknownMnemonic",
            AsmKind::OperandCount => "OperandCount",
            AsmKind::BadOperand => "BadOperand",
            AsmKind::ImmediateRange => "ImmediateRange",
            AsmKind::BeginInside => "BeginInside",
            AsmKind::TooManyRegions => "TooManyRegions",
            AsmKind::EndWithoutBegin => "EndWithoutBegin",
            AsmKind::WrongName => "WrongName",
            AsmKind::NoInstruction => "NoInstruction",
            AsmKind::RegionTooLong => "RegionTooLong",
            AsmKind::NeverEnded => "NeverEnded",
            AsmKind::Memory => "Memory",
        }
    }
}

/// A refusal of a text: why, and at which line, from 1. With `Memory` the line is 0.
#[derive(Clone, Copy, Debug, PartialEq, Eq)]
pub struct AsmRefusal {
    pub line: u32,
    pub kind: AsmKind,
}

fn rank(cause: Cause) -> u64
    ensures rank { result ≡ rank cause }
    ensures low { result < 5 }
{
    match cause {
        Cause::LongLine => 0,
        Cause::BadByte => 1,
        Cause::Directive => 2,
        Cause::Compressed => 2,
        Cause::UnknownMnemonic => 2,
        Cause::OperandCount => 2,
        Cause::BadOperand => 2,
        Cause::ImmediateRange => 2,
        Cause::Instrument => 3,
        Cause::OpenComment => 4,
    }
}

fn key(fault: Fault) -> u64
    ensures { result ≡ key fault }
{
    5 * (fault.line as u64) + rank(fault.cause)
}

/// The fault that comes first; of two that come together the one that is given first.
pub fn earlier(a: Option<Fault>, b: Option<Fault>) -> Option<Fault>
    ensures { result ≡ earlier a b }
{
    match (a, b) {
        (None, b) => b,
        (Some(a), None) => Some(a),
        (Some(a), Some(b)) => { if key(b) < key(a) { Some(b) } else { Some(a) } }
    }
}

/// How a cause is told.
pub fn kind_of(cause: Cause) -> AsmKind
    ensures { result ≡ kind_of cause }
{
    match cause {
        Cause::LongLine => AsmKind::LongLine,
        Cause::BadByte => AsmKind::BadByte,
        Cause::Directive => AsmKind::RefusedDirective,
        Cause::Compressed => AsmKind::Compressed,
        Cause::UnknownMnemonic => AsmKind::UnknownMnemonic,
        Cause::OperandCount => AsmKind::OperandCount,
        Cause::BadOperand => AsmKind::BadOperand,
        Cause::ImmediateRange => AsmKind::ImmediateRange,
        Cause::Instrument => AsmKind::RefusedDirective,
        Cause::OpenComment => AsmKind::OpenComment,
    }
}
