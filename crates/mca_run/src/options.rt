//! What the words ask for.
ghost use Rattle.std.specs.Prelude.{◌≡◌, map, string_bytes, Ok, IfOk, IfErr};
ghost use Rattle.mca_words.specs.Answer.{answer_of};
ghost use Rattle.mca_words.specs.InRange.{AreInRange};
ghost use Rattle.mca_run.specs.Asked.{iterations_of};
ghost use Rattle.mca_run.specs.Steps.{MayRefuseWords};

use crate::stop::Stop;
use mca_words::{Options, read_words};
use std::alloc::Global;

/// How often the region is repeated: 0 means 100.
pub(crate) fn iterations(options: &Options) -> u32
    ensures { result ≡ iterations_of options.now }
{
    if options.iterations == 0 {
        100
    } else {
        options.iterations
    }
}

/// The options that the words give, or the status that refuses them.
pub(crate) fn read_options(alloc: Global, words: &[String]) -> Result<Options, Stop>
    ensures ok { IfOk result (λ options. answer_of (map string_bytes words.now) ≡ Ok options) }
    ensures in_range { IfOk result AreInRange }
    ensures err { IfErr result (λ stop. MayRefuseWords (map string_bytes words.now) stop.status) }
{
    let options = read_words(alloc, words)?;
    Ok(options)
}
