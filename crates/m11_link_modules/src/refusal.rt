//! The refusal of a record whose relocations are judged while they are read.

ghost use Rattle.std.specs.Prelude.{◌≡◌, Err, IfOk};
ghost use Rattle.m11_obj.specs.Reading.{checked, relocations_of};

use crate::fault::ModuleFault;
use m11_obj::{RecordFault, UnreadRelocations};

/// Refuses a record for this fault of one of its parts. The relocations that are still unread are read first, since a fault of the
/// record itself comes before those of its parts: the record's fault, if it has one, is the outer error, and the part's fault is
/// the inner one.
pub fn refuse(
    unread: &UnreadRelocations<'_>,
    fault: ModuleFault,
) -> Result<Result<(), ModuleFault>, RecordFault>
    ensures read { checked result ≡ checked (relocations_of unread.now) }
    ensures refused { IfOk result (λ judged. judged ≡ Err fault) }
{
    unread.check()?;
    Ok(Err(fault))
}
