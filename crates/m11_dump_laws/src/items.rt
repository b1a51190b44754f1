//! The source of what memory holds, as items.

ghost use Rattle.std.specs.Prelude.{◌≡◌, ℕ, ◌≤◌, List, [], ◌∷◌, ◌++◌, length};
ghost use Rattle.std.specs.List.{flat_map};
ghost use Rattle.m11_base_disassembly.specs.declared.symbols.Symbol.{Symbol};
ghost use Rattle.m11_asm_dump_laws.specs.Items.{AreWellFormed, source_of};
ghost use Rattle.m11_dump_source.specs.Memory.{Cells};
ghost use Rattle.m11_dump_source.specs.Texts.{source_text};
ghost use Rattle.m11_dump_laws.specs.Items.{AreCells, AreNames, all_symbols, items_of};

/// The source of what memory holds has the lines of its items, each with a line feed at its end.
#[tactic(auto, using(crate::proofs::Written::text_written))]
pub fn the_source_is_the_text_of_its_items()
    ensures { (names : List Symbol) (start : ℕ) (cells : Cells) → length cells ≤ 65536
        → source_text names start cells
        ≡ flat_map (λ text. text ++ 10 ∷ []) (source_of (all_symbols names start cells) start (items_of names start cells)) }
{}

/// The items of memory are well formed: each line can be so at its address, each symbol that one defines can be defined, as no other is, and
/// each symbol that may stand for an address is defined.
pub fn the_items_are_well_formed()
    ensures { (names : List Symbol) (start : ℕ) (cells : Cells) → AreNames names → AreCells cells
        → AreWellFormed (all_symbols names start cells) (items_of names start cells) }
{}
