//! What the operands of a form come to.
ghost use Rattle.std.specs.Prelude.{◌≡◌, ◌<◌, ◌^◌, length};
ghost use Rattle.std.specs.Option.{option_map};
ghost use Rattle.rv_asm.specs.Operands.{operands_in, accept_all, no_operands, parts_of};

use crate::class::{ByteClass, is_all};
use crate::operand::{Parts, Shape};
use crate::split::{cut_operand, trimmed};

/// What the operands in a text come to, where they are what the shapes say, one by one.
pub fn accept_all<'a>(shapes: &[Shape], text: &'a [u8]) -> Option<Parts<'a>>
    requires { length shapes.now ≡ length (operands_in text.now) }
    ensures { option_map parts_of result ≡ accept_all shapes.now (operands_in text.now) no_operands }
{
    let mut parts = Parts::none();
    let mut rest = if is_all(ByteClass::Blank, text) {
        None
    } else {
        Some(text)
    };
    for shape in shapes {
        let Some(here) = rest else {
            return None;
        };
        let (operand, behind) = cut_operand(here);
        if !parts.accept(*shape, trimmed(operand)) {
            return None;
        }
        rest = behind;
    }
    Some(parts)
}
