//! The processor status word. (PDP-11/40 Processor Handbook, "Processor status word".)

ghost use Rattle.std.specs.Prelude.{◌≡◌, ◌<◌};
ghost use Rattle.m11_cpu_machine.specs.Status.{psw_of, status_of, status_written};

use m11_base::ConditionCodes;

/// The processor status word, of which this machine has the lower eight bits.
#[derive(Clone, Copy, PartialEq, Eq)]
pub struct ProcessorStatus {
    /// The priority, of which only the lower three bits count. No device interrupts, so the priority only shows in the status word.
    pub priority: u8,
    /// T: whether a trace trap follows each instruction, except RTT, HALT, WAIT and one that traps.
    pub trace: bool,
    /// N, Z, V and C.
    pub codes: ConditionCodes,
}

impl ProcessorStatus {
    /// The status that a word holds in its lower eight bits.
    pub fn of_bits(bits: u16) -> ProcessorStatus
        ensures { result ≡ status_of bits }
    {
        ProcessorStatus {
            priority: (bits / 0o40 % 0o10) as u8,
            trace: bits / 0o20 % 2 == 1,
            codes: ConditionCodes {
                negative: bits / 0o10 % 2 == 1,
                zero: bits / 4 % 2 == 1,
                overflow: bits / 2 % 2 == 1,
                carry: bits % 2 == 1,
            },
        }
    }

    /// The status after a word was written at its address, octal 177776: T stays as it was.
    pub(crate) fn written(self, bits: u16) -> ProcessorStatus
        ensures { result ≡ status_written bits self }
    {
        ProcessorStatus {
            trace: self.trace,
            ..ProcessorStatus::of_bits(bits)
        }
    }

    /// The status as a word. Bits that this machine doesn't have are 0.
    pub(crate) fn bits(self) -> u16
        ensures bits { result ≡ psw_of self }
        ensures byte { result < 256 }
    {
        u16::from(self.priority % 0o10) * 0o40
            + u16::from(self.trace) * 0o20
            + u16::from(self.codes.negative) * 0o10
            + u16::from(self.codes.zero) * 4
            + u16::from(self.codes.overflow) * 2
            + u16::from(self.codes.carry)
    }
}
