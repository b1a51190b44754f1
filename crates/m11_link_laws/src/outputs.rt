//! The bytes that a link writes to each output.

ghost use Rattle.std.specs.Prelude.{◌≡◌, ℕ, List, [], ◌++◌, length, min, None, Ok};
ghost use Rattle.std.specs.List.{concat, flat_map};
ghost use Rattle.m11_obj_blocks.specs.Tapes.{IsTape, tape_block};
ghost use Rattle.m11_link_modules.specs.Parts.{Part, EndOfFile};
ghost use Rattle.m11_link_modules.specs.Rules.{fault_of, first_fault};
ghost use Rattle.m11_link_layout.specs.Transfers.{transfer_address};
ghost use Rattle.m11_base_writes.specs.declared.outputs.Output.TheVariants.{Product, Report, Messages};
ghost use Rattle.m11_link_text.specs.Findings.{Findings, findings_of};
ghost use Rattle.m11_base_writes.specs.Writes.{gained};
ghost use Rattle.m11_link.specs.Objects.{AreItems, Item, outcome};
ghost use Rattle.m11_link.specs.Outputs.{link};
ghost use Rattle.m11_link.specs.Written.{counted, link_writes, most_messages};
ghost use Rattle.m11_link_laws.specs.Texts.{block_of};
ghost use Rattle.m11_link_laws.specs.LinkedTexts.{linked_texts, tape_blocks};
ghost use Rattle.m11_link_laws.specs.Lines.{map_lines, message_lines};

/// The tape of whole modules has a block for each of their texts that has data, in order, and then the transfer block. A text's
/// block has the text's bytes, with the values that its relocations store. The block's address is the base of the module's
/// contribution to the text's section plus the text's own address.
#[tactic(auto, using(crate::proofs::LinkedTextsWritten::tape_of_linked_texts))]
pub fn linked_texts_are_the_tape()
    ensures { (found : Findings) (parts : List Part) → first_fault [] parts ≡ None → fault_of parts EndOfFile ≡ None
        → gained link Product (link_writes found parts)
        ≡ flat_map block_of (linked_texts found parts) ++ tape_block found.transfer [] }
{}

/// The tape of a link of objects, as a loader reads it, holds the blocks of the objects' texts that have data, and has the objects'
/// transfer address: there is nothing between the blocks, and nothing after the transfer block.
#[tactic(auto, using(crate::proofs::TapesOfObjects::tape_of_objects, crate::proofs::TapesOfObjects::objects_make_a_tape))]
pub fn objects_make_the_tape_of_their_texts()
    ensures bytes { (bottom : ℕ) (sources : List (List ℕ)) (items : List Item) (parts : List Part)
        → AreItems sources items → outcome bottom items ≡ Ok parts
        → gained link Product (link_writes (findings_of bottom parts) parts)
        ≡ flat_map block_of (linked_texts (findings_of bottom parts) parts)
        ++ tape_block (transfer_address bottom parts) [] }
    ensures tape { (bottom : ℕ) (sources : List (List ℕ)) (items : List Item) (parts : List Part)
        → AreItems sources items → outcome bottom items ≡ Ok parts
        → IsTape (tape_blocks (findings_of bottom parts) parts) (transfer_address bottom parts)
        (gained link Product (link_writes (findings_of bottom parts) parts)) }
{}

/// For any parts, the map consists of a line for each section, each defined global, and each undefined name, under their headings,
/// and then lines for the transfer address and the limits.
#[tactic(auto, using(crate::proofs::LinesWritten::map_of_lines))]
pub fn map_is_its_lines()
    ensures { (found : Findings) (parts : List Part)
        → gained link Report (link_writes found parts) ≡ concat (map_lines found) }
{}

/// The messages begin with a line for each global that has a strong reference and is defined nowhere. A line follows for each entry
/// that defines a name again, or gives a section attributes other than those of its first entry. A run counts one message for each
/// of these lines, up to 4,294,967,295.
#[tactic(auto, using(crate::proofs::LinesWritten::messages_of_lines, crate::proofs::LinesWritten::lines_counted))]
pub fn messages_are_their_lines()
    ensures lines { (found : Findings) (parts : List Part)
        → gained link Messages (link_writes found parts) ≡ concat (message_lines found parts) }
    ensures count { (found : Findings) (parts : List Part)
        → counted 0 (link_writes found parts) ≡ min (length (message_lines found parts)) most_messages }
{}
