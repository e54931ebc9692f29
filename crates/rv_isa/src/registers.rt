//! The names of the registers.
ghost use Rattle.std.specs.Prelude.{◌≡◌, ◌<◌, map, length, Some, IfSome, slice_index_or, []};
ghost use Rattle.rv_isa.specs.Registers.{name_of, numbered_names, place_from, register_named};

use crate::reg::Reg;

/// The names of the RISC-V calling convention, by the registers' numbers.
const ABI_NAMES: [&str; 32] = [
    "zero", "ra", "sp", "gp", "tp", "t0", "t1", "t2", "s0", "s1", "a0", "a1", "a2", "a3", "a4",
    "a5", "a6", "a7", "s2", "s3", "s4", "s5", "s6", "s7", "s8", "s9", "s10", "s11", "t3", "t4",
    "t5", "t6",
];

/// The names by number.
const NUMBERED_NAMES: [&str; 32] = [
    "x0", "x1", "x2", "x3", "x4", "x5", "x6", "x7", "x8", "x9", "x10", "x11", "x12", "x13", "x14",
    "x15", "x16", "x17", "x18", "x19", "x20", "x21", "x22", "x23", "x24", "x25", "x26", "x27",
    "x28", "x29", "x30", "x31",
];

/// The register's name in the calling convention; `s0` for x8, which is the frame pointer too. No two
/// registers share one.
pub fn register_name(register: Reg) -> &'static str
    ensures text { result.now ≡ name_of register }
    ensures own { register_named result.now ≡ Some register }
{
    name_at(&ABI_NAMES, register.number() as usize)
}

/// The name at that place.
pub(crate) fn name_at(names: &[&'static str], place: usize) -> &'static str
    requires { place < length names.now }
    ensures { result.now ≡ slice_index_or (map (λ n. n.now) names.now) place [] }
{
    names[place]
}

/// The register that the text names: `x0` to `x31`, a name of the calling convention, or `fp`.
pub fn register_of(text: &[u8]) -> Option<Reg>
    ensures { result ≡ register_named text.now }
{
    if text == b"fp".as_slice() {
        return Some(Reg::new(8));
    }
    match place_in(&ABI_NAMES, text) {
        Some(place) => Some(Reg::new(place as u8)),
        None => numbered(text),
    }
}

fn numbered(text: &[u8]) -> Option<Reg>
    ensures { result ≡ place_from 0 numbered_names text.now }
{
    let place = place_in(&NUMBERED_NAMES, text)?;
    Some(Reg::new(place as u8))
}

/// The place of the first of these names that is the text.
pub(crate) fn place_in(names: &[&str], text: &[u8]) -> Option<usize>
    ensures place { result ≡ place_from 0 (map (λ n. n.now) names.now) text.now }
    ensures bound { IfSome result (λ place. place < length names.now) }
{
    for (place, name) in names.iter().enumerate() {
        if text == name.as_bytes() {
            return Some(place);
        }
    }
    None
}
