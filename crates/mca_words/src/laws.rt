//! What holds of the answers to a command line, apart from how it is read.
ghost use Rattle.std.specs.Prelude.{◌≡◌, List, ℕ, Result, Ok, Some};
ghost use Rattle.mca_words.specs.Answer.{answer_of};
ghost use Rattle.mca_words.specs.FirstFault.{IsAnswer};
ghost use Rattle.mca_words.specs.InRange.{AreInRange};
ghost use Rattle.mca_words.specs.Options.{load_options};
ghost use Rattle.mca_words.specs.declared.fault.WordFault.{WordFault as FaultOf};
ghost use Rattle.mca_words.specs.declared.options.Options.{Options as OptionsOf};

/// A law about the definitions: the answer that `read_words` gives is the answer to the words, and
/// they have no other.
pub fn one_answer()
    ensures some { (words : List (List ℕ)) → IsAnswer words (answer_of words) }
    ensures one { (words : List (List ℕ)) (a b : Result OptionsOf FaultOf) → IsAnswer words a → IsAnswer words b → a ≡ b }
{}

/// A law about the definitions: whatever the words are, the numbers of the options that they give
/// are in the ranges of `Options`.
pub fn options_in_range()
    ensures { (words : List (List ℕ)) (o : OptionsOf) → answer_of words ≡ Ok o → AreInRange o }
{}

/// A law about the definitions: where `-load` was given, every other option has its default, and
/// there is no input.
pub fn load_stands_alone()
    ensures { (words : List (List ℕ)) (o : OptionsOf) (seed : ℕ) →
        answer_of words ≡ Ok o → o.load ≡ Some seed → o ≡ load_options seed }
{}
