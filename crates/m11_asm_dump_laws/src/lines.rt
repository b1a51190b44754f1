//! Lines of a disassembly, and what an assembly makes of them.

ghost use Rattle.std.specs.Prelude.{◌≡◌, ℕ, ◌%◌, ◌<◌, List, [], ◌∷◌, codes, map, take};
ghost use Rattle.std.specs.List.{AllByRecursion};
ghost use Rattle.m11_base_disassembly.specs.Instructions.{size_of, statement_of};
ghost use Rattle.m11_base_disassembly.specs.Meaning.{AreWords};
ghost use Rattle.m11_base_disassembly.specs.Statements.{DataByte};
ghost use Rattle.m11_base_disassembly.specs.declared.symbols.Symbol.{Symbol};
ghost use Rattle.m11_asm_dump_laws.specs.Texts.{line_text};
ghost use Rattle.m11_unfold_rules.specs.Unfolding.{UnfoldedLine};
ghost use Rattle.m11_asm_rules.specs.Contents.{fixed_byte, fixed_word};
ghost use Rattle.m11_asm_rules.specs.Lines.{after_line};
ghost use Rattle.m11_asm_rules.specs.Meanings.{Map};
ghost use Rattle.m11_asm_rules.specs.Tables.{Table, first_table, location};
ghost use Rattle.m11_asm_dump_laws.specs.Knowledge.{HasValue, IsSpelled, ReadsAsMeant};
ghost use Rattle.m11_asm_dump_laws.specs.Lines.{Assembles, IsLine};

/// The line of source that is written for words at a location assembles there to exactly these words, without a flag. The location is even
/// and in an absolute section, numbers are octal, and the names of registers have their first definitions. An address that is written as a
/// name has that value in the whole source, and no line before gives the name another one. The line of a byte assembles to this byte, at an
/// odd location too. So it is in a source that begins with `.ASECT`, until a line changes one of these.
pub fn a_line_is_assembled_as_its_words()
    ensures words { (symbols : List Symbol) (map_of_source : Map) (table : Table) (given : UnfoldedLine) (word : ℕ) (more : List ℕ)
        → AllByRecursion IsSpelled symbols → ReadsAsMeant table → AllByRecursion (HasValue map_of_source table) symbols
        → location table % 2 ≡ 0 → location table < 65536 → word < 65536 → AreWords more
        → IsLine given (line_text symbols (statement_of (location table) word more))
        → Assembles map_of_source table given (map fixed_word (take (size_of word more) (word ∷ more))) }
    ensures byte { (symbols : Map) (table : Table) (given : UnfoldedLine) (byte : ℕ) → ReadsAsMeant table
        → location table < 65536 → byte < 256 → IsLine given (line_text [] (DataByte byte))
        → Assembles symbols table given (fixed_byte byte ∷ []) }
    ensures begins { (symbols : Map) (given : UnfoldedLine) → IsLine given (codes "\t.ASECT")
        → ReadsAsMeant (after_line symbols first_table given) }
{}
