//! Names in the order in which an object lists them. (RT-11 Volume and File Formats Manual, "Object file format", GSD block.)

ghost use Rattle.std.specs.Prelude.{◌≡◌, IfOk};
ghost use Rattle.m11_asm_directory.specs.Names.{ordered};

use m11_base::Name;
use std::alloc::{AllocError, Global};

/// The names of a list, each once, in the order of their two RADIX-50 words. Error: memory was refused.
pub fn ordered_names(alloc: Global, names: &[Name]) -> Result<Vec<Name>, AllocError>
    ensures { IfOk result (λ list. list.items ≡ ordered names.now) }
{
    let mut list = Vec::from_slice(alloc, names)?;
    list.sort()?;
    list.dedup();
    Ok(list)
}
