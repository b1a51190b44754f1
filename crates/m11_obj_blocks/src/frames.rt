//! What blocks of objects and of tapes have in common, and the blocks of objects. (RT-11 Volume and File Formats Manual,
//! "Object file format", formatted binary blocks, and "Absolute binary file format".)

ghost use Rattle.std.specs.Prelude.{◌≡◌, ◌+◌, ◌≤◌, ◌<◌, ◌++◌, ◌%◌, ℕ, List, length, Ok, IfOk, sum};
ghost use Rattle.m11_obj_blocks.specs.Frames.{front, closing, sum_byte, with_sum, header, block, content_limit};
ghost use Rattle.m11_obj_blocks.specs.Blocks.{first_block};

use arrayvec::ArrayVec;
use byteorder::{ByteOrder, LittleEndian};
use std::alloc::{AllocError, Global};

/// The content of a block: at most 512 bytes.
pub type Block = ArrayVec<u8, 512>;

/// The beginning of each block: 001, 000 and a length, which counts all bytes of the block but the last.
pub(crate) fn front(length: u16) -> [u8; 4]
    ensures { result ≡ front length }
{
    let mut bytes = [0; 2];
    LittleEndian::write_u16(&mut bytes, length);
    [1, 0, bytes[0], bytes[1]]
}

/// The sum of bytes modulo 256.
pub(crate) fn sum_of(bytes: &[u8]) -> u8
    ensures { result ≡ sum bytes.now % 256 }
{
    let mut total: u8 = 0;
    for byte in bytes {
        total = total.wrapping_add(*byte);
    }
    total
}

/// The byte that makes a total a multiple of 256 when it is added.
pub(crate) fn closing_byte(total: u8) -> u8
    ensures { result ≡ closing total }
{
    0u8.wrapping_sub(total)
}

/// A header, the content, and the byte that makes the sum of all these bytes a multiple of 256. Error: memory was refused.
pub(crate) fn summed_bytes(
    alloc: Global,
    header: &[u8],
    content: &[u8],
) -> Result<Vec<u8>, AllocError>
    ensures bytes { IfOk result (λ v. v.items ≡ with_sum (header.now ++ content.now)) }
    ensures sum { IfOk result (λ v. sum v.items % 256 ≡ 0) }
{
    let mut bytes = Vec::with_capacity(alloc, header.len() + content.len() + 1)?;
    bytes.extend_from_slice(header)?;
    bytes.extend_from_slice(content)?;
    let last = closing_byte(sum_of(&bytes));
    bytes.push(last)?;
    Ok(bytes)
}

// The four bytes before content of this length.
fn header(content_length: u16) -> [u8; 4]
    requires { content_length ≤ content_limit }
    ensures { result ≡ header content_length }
{
    front(content_length + 4)
}

/// The sum byte of the block with this content.
pub(crate) fn block_sum(content: &[u8]) -> u8
    requires { length content.now ≤ content_limit }
    ensures { result ≡ sum_byte (header (length content.now) ++ content.now) }
{
    let header_total = sum_of(&header(content.len() as u16));
    closing_byte(header_total.wrapping_add(sum_of(content)))
}

/// The bytes of the block with this content. Requires content of at most 512 bytes. Error: memory was refused.
#[tactic(auto, using(crate::proofs::BlockFrames::block_again), unfolding(crate::specs::Frames::block))]
pub fn block_bytes(alloc: Global, content: &[u8]) -> Result<Vec<u8>, AllocError>
    requires { length content.now ≤ content_limit }
    ensures bytes { IfOk result (λ v. v.items ≡ block content.now) }
    ensures sum { IfOk result (λ v. sum v.items % 256 ≡ 0) }
    // whatever bytes follow the block, a reader gets this content back
    ensures again { IfOk result (λ v.
        (rest : List ℕ) → first_block (v.items ++ rest) ≡ Ok (content.now, rest)) }
{
    summed_bytes(alloc, &header(content.len() as u16), content)
}
