//! The lines of the messages.

ghost use Rattle.std.specs.Prelude.{◌≤◌, ◌≢◌, [], ◌∷◌, length, IfErr};
ghost use Rattle.m11_asm_listing.specs.Messages.{count_line, message_line};
ghost use Rattle.m11_scan.specs.ErrorFlags.{flags_text};
ghost use Rattle.m11_scan.specs.Views.{bits_of};
ghost use Rattle.m11_base_writes.specs.States.{OutputState, output_of};
ghost use Rattle.m11_asm_outputs.specs.Outputs.{Writes};
ghost use Rattle.m11_base_writes.specs.Outputs.{outputs, to_messages};

use m11_asm_faults::AsmFault;
use m11_asm_listing::{count_line, message_line};
use m11_base::Sink;
use m11_base_writes::put_message;
use m11_scan::ErrorFlags;

/// Writes the message about a flagged line: its flags, its number and its text of at most 132 bytes.
///
/// Fault: `Write` of the messages.
pub fn put_flagged<U: Sink>(
    messages: &mut U,
    flags: ErrorFlags,
    number: u16,
    text: &[u8],
) -> Result<(), AsmFault>
    requires { length text.now ≤ 132 }
    ensures writes { (object listing : OutputState) → Writes
        (outputs object listing (output_of U.Sink messages.old))
        (outputs object listing (output_of U.Sink messages.new))
        (to_messages (message_line (flags_text (bits_of flags)) number text.now) ∷ []) result }
    ensures no_memory { IfErr result (λ fault. fault ≢ AsmFault.NoMemory) }
{
    let line = message_line(flags.text().as_slice(), number, text);
    put_message(messages, line.as_slice())
}

/// Writes the last line of the messages: how many lines are flagged.
///
/// Fault: `Write` of the messages.
pub fn put_count<U: Sink>(messages: &mut U, count: u32) -> Result<(), AsmFault>
    ensures writes { (object listing : OutputState) → Writes
        (outputs object listing (output_of U.Sink messages.old))
        (outputs object listing (output_of U.Sink messages.new)) (to_messages (count_line count) ∷ []) result }
    ensures no_memory { IfErr result (λ fault. fault ≢ AsmFault.NoMemory) }
{
    put_message(messages, count_line(count).as_slice())
}
