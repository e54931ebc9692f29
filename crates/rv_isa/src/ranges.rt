//! The ranges of the immediates.

use crate::facts::ImmRange;

/// The upper 20 bits of a word.
pub const UPPER: ImmRange = ImmRange {
    low: 0,
    high: 1_048_575,
    even: false,
};
/// Twelve bits with a sign.
pub const SIGNED_12: ImmRange = ImmRange {
    low: -2048,
    high: 2047,
    even: false,
};
/// How far 64 bits can be shifted.
pub const SHIFT_64: ImmRange = ImmRange {
    low: 0,
    high: 63,
    even: false,
};
/// How far 32 bits can be shifted.
pub const SHIFT_32: ImmRange = ImmRange {
    low: 0,
    high: 31,
    even: false,
};
/// How far `jal` reaches, in bytes.
pub const JUMP: ImmRange = ImmRange {
    low: -1_048_576,
    high: 1_048_574,
    even: true,
};
/// How far a branch reaches, in bytes.
pub const BRANCH: ImmRange = ImmRange {
    low: -4096,
    high: 4094,
    even: true,
};
/// Two sets of four letters.
pub const SETS: ImmRange = ImmRange {
    low: 0,
    high: 255,
    even: false,
};
