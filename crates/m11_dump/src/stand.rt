//! The state of an object's dump between two blocks.

ghost use Rattle.std.specs.Prelude.{◌≡◌};
ghost use Rattle.m11_obj.specs.Reading.{content_of};
ghost use Rattle.m11_dump.specs.Records.{address_then};

use crate::held::HeldText;
use m11_obj::{Record, RecordKind};

/// The state of an object's dump between two blocks.
#[derive(Drop)]
pub(crate) struct Stand {
    /// The address, within its section, of the last text; 0 before the first text.
    pub(crate) address: u16,
    /// The number of blocks read so far.
    pub(crate) blocks: u64,
    /// The last text, if it isn't shown yet.
    pub(crate) held: Option<HeldText>,
}

/// The address of the last text up to and including this record. `address` is that of the last text before it.
pub(crate) fn address_after(address: u16, record: &Record<'_>) -> u16
    ensures { result ≡ address_then address (content_of «record».now) }
{
    match record.kind() {
        RecordKind::Text => record.text_address(),
        _ => address,
    }
}
