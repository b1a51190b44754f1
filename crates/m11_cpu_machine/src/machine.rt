//! The machine: its state, the calls that read its memory and its processor status word, and those that read and change its registers
//! and condition codes.

ghost use Rattle.std.specs.Prelude.{◌≡◌, ◌<◌, ◌≤◌, IfOk, nat_lt};
ghost use Rattle.m11_base.specs.declared.operand.Register.TheVariants.{Pc};
ghost use Rattle.m11_cpu_machine.specs.Memory.{least_words, most_words};
ghost use Rattle.m11_cpu_machine.specs.Machine.{advanced, byte_in, finished, memory_size, new_machine, psw_in, register_of, with_condition_codes, with_register};

use crate::addressing::OperandLocation;
use crate::console::{Receiver, Transmitter};
use crate::memory::Memory;
use crate::status::ProcessorStatus;
use crate::stop::LastingStop;
use m11_base::{ConditionCodes, Register};
use std::alloc::{AllocError, Global};

/// A PDP-11/40 with its memory and its console.
#[derive(Drop)]
pub struct Machine {
    /// The bytes of memory, in the order of their addresses, which begin at 0.
    pub memory: Memory,
    /// R0 to R5, SP and PC.
    pub registers: [u16; 8],
    /// The processor status word.
    pub status: ProcessorStatus,
    /// The console's keyboard.
    pub receiver: Receiver,
    /// The console's printer.
    pub transmitter: Transmitter,
    /// The lasting stop that each further step returns; None while the machine can go on.
    pub stopped: Option<LastingStop>,
}

impl Machine {
    /// A machine with this many words of memory, 4,096 to 28,672. Memory, registers, processor status and console are all 0.
    ///
    /// Error: memory was refused. No other call allocates.
    #[tactic(auto, unfolding(crate::specs::Machine::new_machine))]
    pub fn new(alloc: Global, words: u16) -> Result<Machine, AllocError>
        requires least { least_words ≤ words }
        requires most { words ≤ most_words }
        ensures { IfOk result (λ m. m ≡ new_machine words) }
    {
        Ok(Machine {
            memory: Memory::new(alloc, words)?,
            registers: [0; 8],
            status: ProcessorStatus::of_bits(0),
            receiver: Receiver {
                byte: 0,
                is_done: false,
                is_enabled: false,
                has_ended: false,
            },
            transmitter: Transmitter { is_enabled: false },
            stopped: None,
        })
    }

    /// Sets the program counter to any address. If the address is odd, or has neither memory nor a device register, the next step traps
    /// through 4, unless the machine has a lasting stop.
    pub fn start_at(&mut self, address: u16)
        ensures { self.new ≡ with_register Pc address self.old }
    {
        self.set_register(Register::Pc, address);
    }

    /// The value of a register. Between steps the program counter has the address of the next instruction.
    #[inline(always)]
    pub fn register(&self, register: Register) -> u16
        ensures { result ≡ register_of register self.now }
    {
        self.registers[usize::from(register.number())]
    }

    /// The processor status word, below 256: the priority in bits 7 to 5, T in bit 4, and N, Z, V and C in bits 3 to 0.
    pub fn psw(&self) -> u16
        ensures word { result ≡ psw_in self.now }
        ensures byte { result < 256 }
    {
        self.status.bits()
    }

    /// Whether the memory has a byte at this address.
    pub fn has_byte(&self, address: u16) -> bool
        ensures { result ≡ nat_lt address (memory_size self.now) }
    {
        self.memory.holds(address)
    }

    /// The byte at an address inside the memory.
    pub fn byte(&self, address: u16) -> u8
        requires { address < memory_size self.now }
        ensures { result ≡ byte_in address self.now }
    {
        self.memory.byte(address)
    }

    /// Sets a register to any word. If that makes the program counter odd, the next step traps through 4, unless the machine has a lasting
    /// stop.
    #[inline(always)]
    pub fn set_register(&mut self, register: Register, value: u16)
        ensures { self.new ≡ with_register register value self.old }
    {
        self.registers[usize::from(register.number())] = value;
    }

    /// Adds this many bytes to a register, modulo octal 200000.
    #[inline(always)]
    pub fn advance(&mut self, register: Register, bytes: u16)
        ensures { self.new ≡ advanced register bytes self.old }
    {
        self.set_register(register, self.register(register).wrapping_add(bytes));
    }

    /// The condition codes. Each is read separately, so that those the caller doesn't use needn't be read.
    #[inline(always)]
    pub fn codes(&self) -> ConditionCodes
        ensures { result ≡ self.now.status.codes }
    {
        ConditionCodes {
            negative: self.status.codes.negative,
            zero: self.status.codes.zero,
            overflow: self.status.codes.overflow,
            carry: self.status.codes.carry,
        }
    }

    /// Sets the condition codes. Each is stored separately, which is quicker than joining them first.
    #[inline(always)]
    pub fn set_codes(&mut self, codes: ConditionCodes)
        ensures { self.new ≡ with_condition_codes codes self.old }
    {
        self.status.codes.negative = codes.negative;
        self.status.codes.zero = codes.zero;
        self.status.codes.overflow = codes.overflow;
        self.status.codes.carry = codes.carry;
    }

    /// Sets the condition codes of an instruction that has stored its result in this location. If the location is the processor
    /// status word, the codes aren't set, and the word stays as it was written.
    #[inline(always)]
    pub fn set_codes_after_store(&mut self, location: OperandLocation, codes: ConditionCodes)
        ensures { self.new ≡ finished location codes self.old }
    {
        if location != OperandLocation::InMemory(0o177776) {
            self.set_codes(codes);
        }
    }
}
