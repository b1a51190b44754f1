//! The machine that callers use. It wraps the machine of `m11_cpu_machine` and hides its fields. The module `loading` loads a tape into it,
//! and the module `runs` makes its steps.

ghost use Rattle.std.specs.Prelude.{◌≡◌, ◌<◌, ◌≤◌, IfOk, nat_lt, slice_index};
ghost use Rattle.m11_base.specs.declared.operand.Register.TheVariants.{Pc};
ghost use Rattle.m11_cpu_machine.specs.Dialogue.{Does, both};
ghost use Rattle.m11_cpu_machine.specs.Machine.{byte_in, memory_size, new_machine, psw_in, with_register};
ghost use Rattle.m11_cpu_machine.specs.Memory.{least_words, most_words};
ghost use Rattle.m11_cpu_machine.specs.Steps.{step};

use m11_base::{Feed, Sink};
use m11_cpu_machine::{Memory, Turn};
use std::alloc::{AllocError, Global};
use std::marker::Model;

/// A PDP-11/40 with its memory and its console. Contracts see it as the machine of `m11_cpu_machine`: memory, registers, status, console,
/// and the stop that every further step returns, if there is one.
#[derive(Drop)]
pub struct Machine {
    pub(crate) inner: m11_cpu_machine::Machine,
}

impl Model for Machine {
    ghost use Rattle.m11_cpu_machine.specs.declared.machine.Machine as below;

    ghost Value = { below.Machine };

    ghost view = { λ m. m.inner };
}

impl Machine {
    /// A machine with `words` words of memory, 4,096 to 28,672. Memory, registers and processor status are 0.
    ///
    /// Error: memory was refused. No other call allocates memory.
    pub fn new(alloc: Global, words: u16) -> Result<Machine, AllocError>
        requires least { least_words ≤ words }
        requires most { words ≤ most_words }
        ensures { IfOk result (λ m. m ≡ new_machine words) }
    {
        Ok(Machine {
            inner: m11_cpu_machine::Machine::new(alloc, words)?,
        })
    }

    /// Sets the program counter to any address. If the address is odd, or neither in memory nor that of a device register or the processor
    /// status word, the next step traps through 4, unless an earlier stop lasts (see `step`).
    pub fn start_at(&mut self, address: u16)
        ensures { self.new ≡ with_register Pc address self.old }
    {
        self.inner.start_at(address);
    }

    /// The word in register `number`: 0 to 5, 6 for SP, and 7 for PC, which holds the address of the next instruction.
    #[inline(always)]
    pub fn register(&self, number: u16) -> u16
        requires { number < 8 }
        ensures { result ≡ slice_index self.now.registers number }
    {
        self.inner.registers[usize::from(number)]
    }

    /// The eight registers, in order: R0 to R5, SP and PC.
    #[inline(always)]
    pub fn registers(&self) -> &[u16; 8]
        ensures { result.now ≡ self.now.registers }
    {
        &self.inner.registers
    }

    /// The processor status word, which has eight bits: the priority, T, N, Z, V and C.
    #[inline(always)]
    pub fn psw(&self) -> u16
        ensures word { result ≡ psw_in self.now }
        ensures byte { result < 256 }
    {
        self.inner.psw()
    }

    /// Whether the memory has a byte at this address.
    pub fn has_byte(&self, address: u16) -> bool
        ensures { result ≡ nat_lt address (memory_size self.now) }
    {
        self.inner.has_byte(address)
    }

    /// The byte at an address inside the memory.
    pub fn byte(&self, address: u16) -> u8
        requires { address < memory_size self.now }
        ensures { result ≡ byte_in address self.now }
    {
        self.inner.byte(address)
    }

    /// The bytes of memory, in the order of their addresses, which begin at 0.
    #[inline(always)]
    pub fn memory(&self) -> &Memory
        ensures { result.now ≡ self.now.memory }
    {
        &self.inner.memory
    }

    /// Makes one step: reads, decodes and executes the instruction at the program counter, and takes the traps that it leads to.
    /// Returns the stop if the machine stops, otherwise `Next`.
    ///
    /// A byte is read from `input` only when the program asks for it, never ahead of time, and a byte that the program sends goes to
    /// `output` at once. After a stop other than `Halt` and `Wait` each further step returns that stop and changes nothing. After `Halt`
    /// and `Wait` a further step continues with the next instruction.
    #[inline(always)]
    pub fn step<I: Feed, O: Sink>(&mut self, input: &mut I, output: &mut O) -> Turn
        ensures { Does (step self.old)
            (both (I.text input.old) (I.faults input.old) (O.text output.old) (O.faults output.old))
            (both (I.text input.new) (I.faults input.new) (O.text output.new) (O.faults output.new))
            (result, self.new) }
    {
        self.inner.step(input, output)
    }
}
