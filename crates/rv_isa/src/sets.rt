//! The sets of a fence: device input `i`, device output `o`, memory reads `r` and memory writes `w`.
ghost use Rattle.std.specs.Prelude.{◌≡◌, ◌<◌, IfSome};
ghost use Rattle.rv_isa.specs.Registers.{place_from};
ghost use Rattle.rv_isa.specs.Spelling.{set_names, set_of};

use crate::registers::{name_at, place_in};

/// The sets by the number in which `i`, `o`, `r` and `w` count 8, 4, 2 and 1.
const SET_NAMES: [&str; 16] = [
    "0", "w", "r", "rw", "o", "ow", "or", "orw", "i", "iw", "ir", "irw", "io", "iow", "ior", "iorw",
];

/// The letters of a set, 0 to 15; `0` for the empty one.
pub fn set_name(set: u8) -> &'static str
    requires { set < 16 }
    ensures { result.now ≡ set_of set }
{
    name_at(&SET_NAMES, set as usize)
}

/// The set whose letters the text is, 0 to 15.
pub fn set_of(text: &[u8]) -> Option<u8>
    ensures place { result ≡ place_from 0 set_names text.now }
    ensures bound { IfSome result (λ set. set < 16) }
{
    match place_in(&SET_NAMES, text) {
        Some(place) => Some(place as u8),
        None => None,
    }
}
