//! The numbers of source lines. (That all sources together have at most 65,535 lines is this project's own choice.)

ghost use Rattle.std.specs.Prelude.{◌≡◌, ◌+◌, ◌<◌, IfOk, IfErr};
ghost use Rattle.m11_asm_faults.specs.declared.fault.AsmFault.TheVariants.{TooMuchSource};
ghost use Rattle.m11_scan.specs.Lines.{most_lines};

use m11_asm_faults::AsmFault;

/// The greatest number of lines in all sources together.
const MOST_LINES: u16 = 65535;

/// The number of the next line after `read` lines, from 1 to 65,535.
///
/// Error: `TooMuchSource` after 65,535 lines.
pub fn number_after(read: u16) -> Result<u16, AsmFault>
    ensures counts { IfOk result (λ number. number ≡ read + 1) }
    ensures fits { IfOk result (λ _. read < most_lines) }
    ensures refuses { IfErr result (λ fault. (fault ≡ TooMuchSource) × (read ≡ most_lines)) }
{
    if read < MOST_LINES {
        Ok(read + 1)
    } else {
        Err(AsmFault::TooMuchSource)
    }
}
