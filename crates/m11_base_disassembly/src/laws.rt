//! Laws about lines of source and names of addresses.

ghost use Rattle.std.specs.Prelude.{◌≡◌, ◌<◌, ◌∷◌, ℕ, List, take};
ghost use Rattle.m11_base.specs.Octal.{octal_value};
ghost use Rattle.m11_base_disassembly.specs.Instructions.{size_of, statement_of};
ghost use Rattle.m11_base_disassembly.specs.Meaning.{AreWords, IsMeant};
ghost use Rattle.m11_base_disassembly.specs.Numbers.{number_text};
ghost use Rattle.m11_base_disassembly.specs.Symbols.{IsNearest, ShowsAddress, address_text, nearest};
ghost use Rattle.m11_base_disassembly.specs.declared.symbols.Symbol.{Symbol};

/// The line of source for words at a location assembles there to exactly the words that it was made from. Either it is a word of data, or
/// it has the name of an operation; then the code of this operation with the operands as written is the first word, and the operands yield
/// the other words. The digits of a number spell its value.
#[tactic(auto, using(crate::proofs::Meant::line_meant, crate::proofs::Spelled::number_spelled))]
pub fn a_line_means_its_words()
    ensures line { (location word : ℕ) (more : List ℕ) → word < 65536 → AreWords more
        → IsMeant location (statement_of location word more) (take (size_of word more) (word ∷ more)) }
    ensures numbers { (number : ℕ) → number < 65536 → octal_value (number_text number) ≡ number }
{}

/// The name of an address is that of a symbol that may name it: its value doesn't exceed the address and, if its section is known, its
/// module's contribution to that section holds the address. Of all such symbols it is one whose section is known, if there is one; of
/// these it has the greatest value; and of these it is the first. An address has no name if no symbol may name it.
pub fn an_address_has_the_nearest_name()
    ensures { (address : ℕ) (symbols : List Symbol) → IsNearest address symbols (nearest address symbols) }
{}

/// An address in an operand is shown by its nearest symbol and the distance from there, which together are the address, or in octal.
#[tactic(auto, using(crate::proofs::Shown::address_shown))]
pub fn an_operand_shows_its_address()
    ensures { (address : ℕ) (symbols : List Symbol) → ShowsAddress symbols address (address_text symbols address) }
{}
