//! The bytes of memory, and those that a source of it stores.

ghost use Rattle.std.specs.Prelude.{◌≡◌, ◌<◌, ℕ, List, map, None, slice_index_or};
ghost use Rattle.m11_base.specs.Devices.{Bytes};
ghost use Rattle.m11_base.specs.Names.{absolute_name};
ghost use Rattle.m11_base_disassembly.specs.declared.symbols.Symbol.{Symbol};
ghost use Rattle.m11_cpu_laws.specs.Image.{byte_of};
ghost use Rattle.m11_cli_image.specs.Addresses.{Addresses};
ghost use Rattle.m11_cli_image.specs.Pieces.{placed};
ghost use Rattle.m11_asm_dump_laws.specs.Items.{pieces_of};
ghost use Rattle.m11_dump_source.specs.Memory.{Cells, memory_of};
ghost use Rattle.m11_dump_laws.specs.Items.{AreBlocks, AreCells, items_of};

/// Memory after the blocks of a tape is what the laws of its source ask for: 65,536 cells at most, each with a byte or none.
pub fn memory_has_cells()
    ensures { (blocks : List (ℕ × Bytes)) → AreBlocks blocks → AreCells (memory_of blocks) }
{}

/// Memory has at each address the byte that the blocks of the tape have there, the last one's if several have one.
#[tactic(auto, using(crate::proofs::BlocksStored::memory_stored))]
pub fn memory_has_the_bytes_of_its_blocks()
    ensures { (blocks : List (ℕ × Bytes)) (address : ℕ) → address < 65536
        → slice_index_or (memory_of blocks) address None ≡ byte_of blocks address }
{}

/// What the items of memory put into a program whose absolute section begins at 0 are the bytes of memory: at each address that has a byte
/// just this one, and none at the others.
#[tactic(auto, using(crate::proofs::Placed::bytes_are_those_of_memory))]
pub fn the_pieces_are_the_bytes_of_memory()
    ensures { (program : Addresses) (source : ℕ) (names : List Symbol) (start : ℕ) (cells : Cells) (address : ℕ) → AreCells cells
        → program.base source absolute_name ≡ 0
        → byte_of (map (placed program source) (pieces_of 0 (items_of names start cells))) address ≡ slice_index_or cells address None }
{}
