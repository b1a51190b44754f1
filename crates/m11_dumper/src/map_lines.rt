//! The program's lines that say why there is no load map.

ghost use Rattle.std.specs.Prelude.{◌≡◌, ◌++◌, IfOk, OnOk};
ghost use Rattle.m11_dumper.specs.MapLines.{map_fault_text, map_line, object_line};

use crate::lines::{put_numbered, put_path};
use m11_link_layout::LinkFault;
use std::alloc::{AllocError, Global};

// Adds the number and the name of a fault of a link to a line; a fault of a block or a record also has the number and the name of its inner
// fault. Error: memory was refused.
fn put_map_fault(line: &mut Vec<u8>, alloc: Global, fault: LinkFault) -> Result<(), AllocError>
    ensures { OnOk result (line.new.items ≡ line.old.items ++ map_fault_text fault) }
{
    match fault {
        LinkFault::Block(inner) => {
            put_numbered(line, alloc, "3 Block ", inner.number(), inner.name())
        }
        LinkFault::Record(inner) => {
            put_numbered(line, alloc, "4 Record ", inner.number(), inner.name())
        }
        other => put_numbered(line, alloc, "", other.number(), other.name()),
    }
}

/// The line that says why there is no load map, if the object at this path has this fault. Error: memory was refused.
pub(crate) fn object_line(
    alloc: Global,
    path: &str,
    fault: LinkFault,
) -> Result<Vec<u8>, AllocError>
    ensures { IfOk result (λ line. line.items ≡ object_line path.now fault) }
{
    let mut line = Vec::new(alloc);
    line.extend_from_slice(b"?M11 DUMP ")?;
    put_map_fault(&mut line, alloc, fault)?;
    put_path(&mut line, " OF ", path)?;
    Ok(line)
}

/// The line that says why there is no load map, if no single object is at fault, or memory was refused for the map. Error: memory was
/// refused for the line.
pub(crate) fn map_line(alloc: Global, fault: LinkFault) -> Result<Vec<u8>, AllocError>
    ensures { IfOk result (λ line. line.items ≡ map_line fault) }
{
    let mut line = Vec::new(alloc);
    line.extend_from_slice(b"?M11 DUMP ")?;
    put_map_fault(&mut line, alloc, fault)?;
    line.push(b'\n')?;
    Ok(line)
}
