//! What memory holds after a tape was loaded.

ghost use Rattle.std.specs.Prelude.{◌≡◌, IfOk, None, length, replicate};
ghost use Rattle.m11_dump.specs.WholeTapes.{blocks_of};
ghost use Rattle.m11_dump_source.specs.Memory as spec;

use m11_dump::TapeBlock;
use std::alloc::{AllocError, Global};

// Puts bytes into memory, from an address on. Bytes past the last address are left out.
fn store(memory: &mut [Option<u8>], address: u16, bytes: &[u8])
    ensures cells { memory.new ≡ spec.with_bytes address bytes.now memory.old }
    ensures long { length memory.new ≡ length memory.old }
{
    let start = usize::from(address);
    'bytes: for index in 0..bytes.len() {
        if start + index < memory.len() {
            memory[start + index] = Some(bytes[index]);
        }
    }
}

// Memory of this many bytes, which no block has filled. Fails if memory is refused.
fn empty(alloc: Global, count: usize) -> Result<Vec<Option<u8>>, AllocError>
    ensures { IfOk result (λ memory. memory.items ≡ replicate count None) }
{
    let cell: Option<u8> = None;
    Ok(vec![in alloc; cell; count]?)
}

/// Memory of this many bytes, after these blocks. Fails if memory is refused.
pub(crate) fn memory_after(
    alloc: Global,
    blocks: &[TapeBlock],
    count: usize,
) -> Result<Vec<Option<u8>>, AllocError>
    ensures cells { IfOk result (λ memory. memory.items ≡ spec.after_blocks (blocks_of blocks.now) (replicate count None)) }
    ensures long { IfOk result (λ memory. length memory.items ≡ count) }
{
    let mut memory = empty(alloc, count)?;
    let mut rest = blocks;
    'each: while let [block, others @ ..] = rest {
        store(&mut memory, block.address, &block.bytes);
        rest = others;
    }
    Ok(memory)
}
