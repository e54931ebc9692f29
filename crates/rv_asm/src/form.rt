//! The forms of the mnemonics.
ghost use Rattle.std.specs.Prelude.{◌≡◌, ◌<◌, ◌^◌, length, map};
ghost use Rattle.rv_asm.specs.Operands.{operands_in};
ghost use Rattle.rv_asm.specs.Forms.{map_ok, row_of, fit_of, fits, stage, further, judged};

use crate::accept::accept_all;
use crate::fault::Cause;
use crate::operand::{Parts, Shape};
use crate::split::count_operands;
use rv_expand::PseudoKind;
use rv_isa::Op;

/// What a form stands for.
#[derive(Clone, Copy, Debug, PartialEq, Eq)]
pub enum Makes {
    /// The one instruction of this opcode.
    One(Op),
    /// The instructions of this pseudo-instruction or alias form.
    Several(PseudoKind),
}

/// A form: a mnemonic, what its operands are, and what it stands for.
#[derive(Clone, Copy, Debug)]
pub struct MnemonicForm {
    pub mnemonic: &'static str,
    pub shapes: &'static [Shape],
    pub makes: Makes,
}

/// A form that fits, and what its operands come to.
#[derive(Debug, Drop)]
pub struct Made<'a> {
    pub makes: Makes,
    pub parts: Parts<'a>,
}

fn stage(cause: Cause) -> u8
    ensures { result ≡ stage cause }
{
    match cause {
        Cause::OperandCount => 1,
        Cause::BadOperand => 2,
        Cause::ImmediateRange => 3,
        _ => 0,
    }
}

fn further(a: Cause, b: Cause) -> Cause
    ensures { result ≡ further a b }
{
    if stage(a) < stage(b) { b } else { a }
}

/// A form of the mnemonic at the operands in a text, of which there are `count`.
fn fits<'a>(form: &MnemonicForm, count: usize, text: &'a [u8]) -> Result<Made<'a>, Cause>
    requires { count ≡ length (operands_in text.now) }
    ensures { map_ok fit_of result ≡ fits (row_of form.now) (operands_in text.now) }
{
    if form.shapes.len() != count {
        return Err(Cause::OperandCount);
    }
    match accept_all(form.shapes, text) {
        None => Err(Cause::BadOperand),
        Some(parts) => {
            if parts.beyond {
                return Err(Cause::ImmediateRange);
            }
            Ok(Made {
                makes: form.makes,
                parts,
            })
        }
    }
}

/// The first of the forms that a mnemonic and the operands in a text fit, or the cause of the one that
/// got furthest.
pub fn judge<'a>(forms: &[MnemonicForm], mnemonic: &[u8], text: &'a [u8]) -> Result<Made<'a>, Cause>
    ensures { map_ok fit_of result ≡ judged Cause.UnknownMnemonic (map row_of forms.now) mnemonic.now (operands_in text.now) }
{
    let count = count_operands(text);
    let mut best = Cause::UnknownMnemonic;
    for form in forms {
        if mnemonic != form.mnemonic.as_bytes() {
            continue;
        }
        match fits(form, count, text) {
            Ok(made) => return Ok(made),
            Err(cause) => best = further(best, cause),
        }
    }
    Err(best)
}
