//! Texts that no relocation changes.

ghost use Rattle.std.specs.Prelude.{◌≡◌, false, List, [], ◌++◌, None};
ghost use Rattle.std.specs.List.{flat_map, list_any};
ghost use Rattle.m11_obj_blocks.specs.Tapes.{tape_block};
ghost use Rattle.m11_link_modules.specs.Parts.{Part, EndOfFile};
ghost use Rattle.m11_link_modules.specs.Rules.{fault_of, first_fault};
ghost use Rattle.m11_base_writes.specs.declared.outputs.Output.TheVariants.{Product};
ghost use Rattle.m11_link_text.specs.Findings.{Findings};
ghost use Rattle.m11_base_writes.specs.Writes.{gained};
ghost use Rattle.m11_link.specs.Outputs.{link};
ghost use Rattle.m11_link.specs.Written.{link_writes};
ghost use Rattle.m11_link_laws.specs.Texts.{block_of, stores, texts_of};

/// If no relocation stores anything, the tape of whole modules has a block for each text that has data, in order, and then the
/// transfer block. A text's block has the text's own bytes. The block's address is the base of the module's contribution to the
/// text's section plus the text's own address.
#[tactic(auto, using(crate::proofs::PlainTextsWritten::tape_of_texts))]
pub fn unrelocated_texts_are_the_tape()
    ensures { (found : Findings) (parts : List Part) → first_fault [] parts ≡ None → fault_of parts EndOfFile ≡ None
        → list_any stores parts ≡ false
        → gained link Product (link_writes found parts)
        ≡ flat_map block_of (texts_of found parts) ++ tape_block found.transfer [] }
{}
