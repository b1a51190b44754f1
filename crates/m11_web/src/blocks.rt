//! Blocks: the length of some bytes, in four bytes from the lowest on, and then the bytes themselves.

ghost use Rattle.std.specs.Prelude.{◌≡◌, ◌<◌, ◌^◌, ◌++◌, IfSome, OnOk, length};
ghost use Rattle.m11_web.specs.Blocks.{BeginsWithBlock, PutsBlock};

use crate::refusal::Refusal;

/// The bytes of the first block, and what follows it; None if there is no whole block.
pub(crate) fn first_block(bytes: &[u8]) -> Option<(&[u8], &[u8])>
    ensures { IfSome result (λ parts. BeginsWithBlock bytes.now parts.0.now parts.1.now) }
{
    match bytes {
        [first, second, third, fourth, rest @ ..] => {
            let length = u32::from_le_bytes([*first, *second, *third, *fourth]) as usize;
            if length <= rest.len() {
                Some(rest.split_at(length))
            } else {
                None
            }
        }
        _ => None,
    }
}

/// Appends the block of these bytes.
///
/// Error: `NoMemory`, also where the bytes are too many for a block.
pub(crate) fn put_block(to: &mut Vec<u8>, bytes: &[u8]) -> Result<(), Refusal>
    ensures { OnOk result (PutsBlock to.old.items to.new.items bytes.now) }
{
    let Ok(length) = u32::try_from(bytes.len()) else {
        return Err(Refusal::NoMemory);
    };
    to.extend_from_slice(&length.to_le_bytes())?;
    to.extend_from_slice(bytes)?;
    Ok(())
}
