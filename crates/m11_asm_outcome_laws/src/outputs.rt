//! The bytes that each output of an assembly gains, as one text. Each law is the contract of a function that does nothing.

ghost use Rattle.std.specs.Prelude.{◌≡◌, List};
ghost use Rattle.std.specs.List.{concat, flat_map};
ghost use Rattle.m11_asm.specs.Program.{Program};
ghost use Rattle.m11_asm.specs.Written.{EndOfSource, pieces_in, program_writes};
ghost use Rattle.m11_base_writes.specs.declared.outputs.Output.TheVariants.{Report, Messages, Product};
ghost use Rattle.m11_asm_outputs.specs.Object.{object_contents};
ghost use Rattle.m11_asm_outputs.specs.Outputs.{assembly};
ghost use Rattle.m11_asm_outcome_laws.specs.Outputs.{content_block, listing_lines, message_lines};
ghost use Rattle.m11_asm_passes.specs.Lines.{NumberedLine};
ghost use Rattle.m11_base_writes.specs.Writes.{gained};

/// The object is a block for each of its records, with nothing between the blocks. The records are those of the directory and of its end;
/// the texts into which the pieces of all lines are cut, each with its relocations; and the end of the module. It doesn't matter which
/// lines the pieces came from.
#[tactic(auto, using(crate::proofs::ObjectWritten::object_is_its_blocks))]
pub fn the_object_is_the_blocks_of_its_contents()
    ensures { (program : Program) (lines : List NumberedLine) (ended : EndOfSource)
        → gained assembly Product (program_writes program lines ended)
        ≡ flat_map content_block (object_contents program.rows (pieces_in program.map lines)) }
{}

/// The listing has the lines for each live line that is listed, in order, then the line added if `.END` didn't become live, then the symbol
/// table and the count of flagged lines, and nothing else.
#[tactic(auto, using(crate::proofs::OutputLines::listing_is_its_lines))]
pub fn the_listing_is_its_lines()
    ensures { (program : Program) (lines : List NumberedLine) (ended : EndOfSource)
        → gained assembly Report (program_writes program lines ended)
        ≡ concat (listing_lines program lines ended) }
{}

/// The messages have a line for each flagged line, in order, then one for the line added if `.END` didn't become live, then the count of
/// flagged lines, and nothing else.
#[tactic(auto, using(crate::proofs::OutputLines::messages_are_their_lines))]
pub fn the_messages_are_their_lines()
    ensures { (program : Program) (lines : List NumberedLine) (ended : EndOfSource)
        → gained assembly Messages (program_writes program lines ended)
        ≡ concat (message_lines program lines ended) }
{}
