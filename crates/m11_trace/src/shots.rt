//! What is recorded about a step for its trace line.

ghost use Rattle.std.specs.Prelude.{◌≡◌, ◌%◌};
ghost use Rattle.m11_trace.specs.Shots as spec;

use m11_cpu::{Machine, Memory};

/// The word at the program counter and the two after it, since an instruction has at most three. Each is None if it lies past the end
/// of memory, and all are None if the program counter is odd.
#[derive(Clone, Copy, Default)]
pub struct InstructionWords {
    /// The word at the program counter.
    pub first: Option<u16>,
    /// The word after the first.
    pub second: Option<u16>,
    /// The word after the second.
    pub third: Option<u16>,
}

/// The registers and the processor status word of a machine.
#[derive(Clone, Copy, Default)]
pub struct View {
    /// R0 to R5, SP and PC.
    pub registers: [u16; 8],
    /// The processor status word.
    pub psw: u16,
}

/// What is recorded about a step.
#[derive(Clone, Copy, Default)]
pub struct Shot {
    /// The words at the program counter before the step.
    pub fetched: InstructionWords,
    /// The registers and the processor status word before it.
    pub before: View,
    /// The registers and the processor status word after it.
    pub later: View,
}

/// The word `distance` bytes after a location, both even; None if it lies past the end of memory.
pub(crate) fn word_past(memory: &Memory, location: u16, distance: u16) -> Option<u16>
    requires location { location % 2 ≡ 0 }
    requires distance { distance % 2 ≡ 0 }
    ensures { result ≡ spec.word_past memory.now location distance }
{
    match memory.address_past(location, distance) {
        Some(address) => Some(memory.word(address)),
        None => None,
    }
}

/// The word at this location and the two after it, since an instruction has at most three. Each is None if it lies past the end of
/// memory, and all are None at an odd location.
pub(crate) fn fetched_at(memory: &Memory, location: u16) -> InstructionWords
    ensures { result ≡ spec.fetched_at memory.now location }
{
    if location % 2 == 1 {
        return InstructionWords {
            first: None,
            second: None,
            third: None,
        };
    }
    InstructionWords {
        first: word_past(memory, location, 0),
        second: word_past(memory, location, 2),
        third: word_past(memory, location, 4),
    }
}

/// The registers and the processor status word of a machine.
pub(crate) fn view_of(machine: &Machine) -> View
    ensures { result ≡ spec.view_of machine.now }
{
    View {
        registers: *machine.registers(),
        psw: machine.psw(),
    }
}

/// The program counter of a machine.
pub(crate) fn counter_of(machine: &Machine) -> u16
    ensures { result ≡ spec.counter_of machine.now }
{
    machine.register(7)
}
