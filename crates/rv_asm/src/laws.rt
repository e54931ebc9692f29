//! What is true of every text.
ghost use Rattle.std.specs.Prelude.{◌≡◌, ◌≤◌, ◌⊎◌, Ok, Some, slice_get, ℕ, List, [], ◌∷◌, ◌++◌, true, length, codes};
ghost use Rattle.rv_isa.specs.declared.instr.Instr.{Instr as InstrOf};
ghost use Rattle.rv_isa.specs.Instruction.{is_lawful};
ghost use Rattle.rv_isa.specs.Spelling.{spelling};
ghost use Rattle.rv_asm.specs.Pieces.{IsCut, Piece};
ghost use Rattle.rv_asm.specs.Program.{IsProgram, IsFault};
ghost use Rattle.rv_asm.specs.declared.fault.AsmRefusal.{AsmRefusal as Refusal};
ghost use Rattle.rv_asm.specs.declared.item.Item.{Item as ItemOf};
ghost use Rattle.rv_asm.specs.declared.item.Item.TheVariants as item;
ghost use Rattle.std.specs.List.{AllByRecursion};
ghost use Rattle.rv_isa.specs.Symbol.{IsSymbolText, HasSymbolText};
ghost use Rattle.rv_asm.specs.Commas.{joined_by_commas, AreCommasInside};
ghost use Rattle.rv_asm.specs.Forms.{Row, Fit, fits};
ghost use Rattle.rv_asm.specs.Operands.{between_commas};
ghost use Rattle.rv_asm.specs.Printed.{IsPrinted, IsReadAs};
ghost use Rattle.rv_asm.specs.Symbols.{is_symbolic};
ghost use Rattle.rv_asm.specs.Table.{forms};
ghost use Rattle.rv_asm.specs.Spelled.{alone, symbols_of, IsSpelledLine, spelled_lines, items_of_lines, appeared};

/// Each text has one lawful cut.
pub fn one_cut()
    ensures some { (text : List ℕ) → (pieces : List Piece) × IsCut text pieces }
    ensures one { (text : List ℕ) (a b : List Piece) → IsCut text a → IsCut text b → a ≡ b }
{}

/// A text has one program or one first fault, and never both.
pub fn one_answer()
    ensures some { (text : List ℕ) → ((items : List ItemOf) × (names : List (List ℕ)) × IsProgram text items names) ⊎ ((r : Refusal) × IsFault text r) }
    ensures items { (text : List ℕ) (a b : List ItemOf) (m n : List (List ℕ)) → IsProgram text a m → IsProgram text b n → a ≡ b }
    ensures names { (text : List ℕ) (a b : List ItemOf) (m n : List (List ℕ)) → IsProgram text a m → IsProgram text b n → m ≡ n }
    ensures fault { (text : List ℕ) (r s : Refusal) → IsFault text r → IsFault text s → r ≡ s }
    ensures not_both { (text : List ℕ) (a : List ItemOf) (m : List (List ℕ)) (r : Refusal) → IsProgram text a m → IsFault text r → ⊥ }
{}

/// A line of at most 4,096 bytes that holds the spelling of a lawful instruction is the text of this one
/// instruction; its symbol then has the number 0.
pub fn spelling_is_read()
    ensures { (i : InstrOf) (names : List (List ℕ)) → is_lawful i ≡ true
        → HasSymbolText names i.imm → length (spelling i names) ≤ 4096
        → IsProgram (spelling i names) (item.Code 1 (alone i) ∷ []) (symbols_of names i.imm) }
{}

/// A text whose lines, each with its line feed, hold the spellings of lawful instructions is the text of
/// these instructions, each in its line; the symbols are numbered in the order in which they appear.
pub fn spelled_lines_are_read()
    ensures { (is : List InstrOf) (names : List (List ℕ)) → AllByRecursion (IsSpelledLine names) is
        → IsProgram (spelled_lines names is) (items_of_lines names 1 [] is) (appeared names [] is) }
{}

/// The texts between the commas of a statement, joined by commas, are its text, and in none of them a
/// comma stands outside parentheses.
pub fn comma_parts_are_the_text()
    ensures joined { (text : List ℕ) → joined_by_commas (between_commas 0 text) ≡ text }
    ensures inside { (text : List ℕ) → AllByRecursion (AreCommasInside 0) (between_commas 0 text) }
{}

/// No operands fit two forms of a mnemonic.
pub fn one_form_fits()
    ensures { (texts : List (List ℕ)) (j k : ℕ) (r s : Row) (f g : Fit) → slice_get forms j ≡ Some r → slice_get forms k ≡ Some s
        → r.mnemonic ≡ s.mnemonic → fits r texts ≡ Ok f → fits s texts ≡ Ok g → j ≡ k }
{}

/// A text is read as a symbolic immediate exactly where it is one as rv_isa defines it.
pub fn symbols_are_symbolic()
    ensures read { (text : List ℕ) → is_symbolic text ≡ true → IsSymbolText text }
    ensures back { (text : List ℕ) → IsSymbolText text → is_symbolic text ≡ true }
{}

/// A number that is printed in decimal, in hexadecimal behind `0x` or `0X`, in binary behind `0b` or `0B`
/// or in octal behind `0` is read as that number, and behind a sign as that number with the sign. One of
/// more than 64 bits is read as 2 ^ 64.
pub fn printed_numbers_are_read()
    ensures decimal { (n : ℕ) (text : List ℕ) → IsPrinted 10 n text → IsReadAs n text }
    ensures hexadecimal { (n : ℕ) (text : List ℕ) → IsPrinted 16 n text
        → IsReadAs n (codes "0x" ++ text) × IsReadAs n (codes "0X" ++ text) }
    ensures binary { (n : ℕ) (text : List ℕ) → IsPrinted 2 n text
        → IsReadAs n (codes "0b" ++ text) × IsReadAs n (codes "0B" ++ text) }
    ensures octal { (n : ℕ) (text : List ℕ) → IsPrinted 8 n text → IsReadAs n (codes "0" ++ text) }
{}
