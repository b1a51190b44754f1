//! The words and bytes that a linker stores for the values of a source, by the kind of their relocation. (RT-11 Volume and File Formats
//! Manual, "Object file format", RLD block.)

ghost use Rattle.std.specs.Prelude.{◌≡◌, ℕ, ◌+◌, ◌<◌, ◌%◌, Bool, [], ◌∷◌};
ghost use Rattle.m11_base.specs.Rad50.{Name};
ghost use Rattle.m11_obj_blocks.specs.Frames.{word_bytes};
ghost use Rattle.m11_link_text.specs.Findings.{Findings};
ghost use Rattle.m11_link_text.specs.Relocation.{following, less, modulo, symbol};
ghost use Rattle.m11_obj.specs.declared.pieces.PieceContent.TheVariants.{Word};
ghost use Rattle.m11_obj.specs.declared.pieces.RelocationKind.TheVariants as kind;
ghost use Rattle.m11_asm_rules.specs.Relocations.{origin_of, stored};
ghost use Rattle.m11_asm_rules.specs.Tables.{Table};
ghost use Rattle.m11_scan_expressions.specs.Quantities.{Quantity};
ghost use Rattle.m11_asm_laws.specs.Linked.{linked_byte, linked_bytes, linked_word};
ghost use Rattle.m11_asm_laws.specs.Targets.{AreWords, LiesAt, address_of, stored_address};

/// A fixed value isn't changed. In a byte, its low byte is stored.
pub fn fixed_values_stay()
    ensures word { (found : Findings) (index own linked_location number : ℕ)
        → linked_word found index own linked_location kind.Fixed number ≡ word_bytes number }
    ensures byte { (found : Findings) (index own linked_location number : ℕ)
        → linked_byte found index own linked_location kind.Fixed number ≡ (number % 256) ∷ [] }
{}

/// A value in the section of its line moves by the base of the module's contribution to that section, modulo 65536. In a byte, the low byte
/// is stored.
pub fn values_move_with_their_section()
    ensures word { (found : Findings) (index own linked_location number : ℕ)
        → linked_word found index own linked_location kind.Internal number ≡ word_bytes (modulo (own + number)) }
    ensures byte { (found : Findings) (index own linked_location number : ℕ)
        → linked_byte found index own linked_location kind.Internal number ≡ (modulo (own + number) % 256) ∷ [] }
{}

/// A displaced absolute value is stored as its distance from the location after the word, modulo 65536.
pub fn absolute_targets_are_counted_from_the_word()
    ensures { (found : Findings) (index own linked_location number : ℕ)
        → linked_word found index own linked_location kind.InternalDisplaced number ≡ word_bytes (less number (following linked_location)) }
{}

/// A value in another section moves by the base of the module's contribution to that section, modulo 65536. In a byte, the low byte is
/// stored.
pub fn values_move_with_other_sections()
    ensures word { (found : Findings) (index own linked_location number : ℕ) (name : Name) → AreWords found
        → linked_word found index own linked_location (kind.Section name) number
        ≡ word_bytes (modulo (found.base index name + number)) }
    ensures byte { (found : Findings) (index own linked_location number : ℕ) (name : Name) → AreWords found
        → linked_byte found index own linked_location (kind.Section name) number
        ≡ (modulo (found.base index name + number) % 256) ∷ [] }
{}

/// A displaced value in another section moves by the base of the module's contribution to that section, and is stored as its distance from
/// the location after the word, modulo 65536.
pub fn displaced_sections_are_counted_from_the_word()
    ensures { (found : Findings) (index own linked_location number : ℕ) (name : Name) → AreWords found
        → linked_word found index own linked_location (kind.SectionDisplaced name) number
        ≡ word_bytes (less (modulo (found.base index name + number)) (following linked_location)) }
{}

/// A value relative to a global moves by the global's value, modulo 65536. In a byte, the low byte is stored.
pub fn values_move_with_globals()
    ensures word { (found : Findings) (index own linked_location number : ℕ) (name : Name) → AreWords found
        → linked_word found index own linked_location (kind.Global name) number ≡ word_bytes (modulo (symbol found name + number)) }
    ensures byte { (found : Findings) (index own linked_location number : ℕ) (name : Name) → AreWords found
        → linked_byte found index own linked_location (kind.Global name) number
        ≡ (modulo (symbol found name + number) % 256) ∷ [] }
{}

/// A displaced value relative to a global moves by the global's value, and is stored as its distance from the location after the word,
/// modulo 65536.
pub fn displaced_globals_are_counted_from_the_word()
    ensures { (found : Findings) (index own linked_location number : ℕ) (name : Name) → AreWords found
        → linked_word found index own linked_location (kind.GlobalDisplaced name) number
        ≡ word_bytes (less (modulo (symbol found name + number)) (following linked_location)) }
{}

/// In the linked program, a value that a line emits as a word is the address of its target or, in a relative operand, the distance of that
/// address from the location after the word, modulo 65536.
pub fn linked_values_say_where_their_targets_lie()
    ensures { (found : Findings) (index own linked_location location : ℕ) (table : Table)
        (is_relative : Bool) (value : Quantity) → AreWords found → LiesAt table own location linked_location → value.number < 65536
        → linked_bytes found index own linked_location (Word (stored table is_relative location value))
        ≡ word_bytes (stored_address is_relative linked_location (address_of found index own (origin_of table value.kind) value.number)) }
{}
