//! Operands: modes, registers and the six bits that encode them. (PDP-11/40 Processor Handbook, "Addressing modes".)

ghost use Rattle.std.specs.Prelude.{◌≡◌, ◌<◌, ◌%◌};
ghost use Rattle.m11_base.specs.Operand.{mode_of, register_of, register_number, operand_of, operand_code};

/// The unit that an instruction works on: a word or a byte.
#[derive(Clone, Copy, PartialEq, Eq)]
pub enum Size {
    /// A word of 16 bits.
    Word = 0,
    /// A byte of 8 bits.
    Byte = 0o100000,
}

/// How the register of an operand leads to the operand, in the order of the codes 0 to 7. A register steps by 2, but by 1 in modes
/// 2 and 4 if the operand is a byte and the register is neither `Sp` nor `Pc`.
#[derive(Clone, Copy, PartialEq, Eq)]
pub enum Mode {
    /// `R`: the register itself.
    Register,
    /// `(R)`: the register holds the address.
    RegisterDeferred,
    /// `(R)+`: the register holds the address, and then steps forward.
    Autoincrement,
    /// `@(R)+`: the register holds the address of the address, and then steps forward.
    AutoincrementDeferred,
    /// `-(R)`: the register steps back, and then holds the address.
    Autodecrement,
    /// `@-(R)`: the register steps back, and then holds the address of the address.
    AutodecrementDeferred,
    /// `X(R)`: the sum of the register and the next word of the program is the address.
    Index,
    /// `@X(R)`: the sum of the register and the next word of the program is the address of the address.
    IndexDeferred,
}

/// One of the eight registers, in the order of their numbers.
#[derive(Clone, Copy, PartialEq, Eq)]
pub enum Register {
    R0,
    R1,
    R2,
    R3,
    R4,
    R5,
    /// Register 6, the stack pointer.
    Sp,
    /// Register 7, the program counter.
    Pc,
}

/// An operand: a mode and its register.
#[derive(Clone, Copy, PartialEq, Eq)]
pub struct Operand {
    pub mode: Mode,
    pub register: Register,
}

impl Mode {
    // The mode with this code, of which only the lower three bits count.
    #[inline(always)]
    fn of_bits(bits: u16) -> Mode
        ensures { result ≡ mode_of (bits % 8) }
    {
        match bits % 8 {
            0 => Mode::Register,
            1 => Mode::RegisterDeferred,
            2 => Mode::Autoincrement,
            3 => Mode::AutoincrementDeferred,
            4 => Mode::Autodecrement,
            5 => Mode::AutodecrementDeferred,
            6 => Mode::Index,
            _ => Mode::IndexDeferred,
        }
    }
}

impl Register {
    /// The register with this number, of which only the lower three bits count.
    #[inline(always)]
    pub fn of_bits(bits: u16) -> Register
        ensures { result ≡ register_of (bits % 8) }
    {
        match bits % 8 {
            0 => Register::R0,
            1 => Register::R1,
            2 => Register::R2,
            3 => Register::R3,
            4 => Register::R4,
            5 => Register::R5,
            6 => Register::Sp,
            _ => Register::Pc,
        }
    }

    /// The register's number, 0 to 7.
    #[inline(always)]
    pub fn number(self) -> u16
        ensures number { result ≡ register_number self }
        ensures below { result < 8 }
    {
        self as u16
    }
}

impl Operand {
    /// The operand in the lower six bits of `bits`: the mode's code, and below it the number of the register.
    #[inline(always)]
    pub fn of_bits(bits: u16) -> Operand
        ensures { result ≡ operand_of (bits % 64) }
    {
        Operand {
            mode: Mode::of_bits(bits / 8),
            register: Register::of_bits(bits),
        }
    }

    /// The six bits of the operand, 0 to octal 77.
    pub fn bits(self) -> u16
        ensures bits { result ≡ operand_code self }
        ensures below { result < 64 }
    {
        self.mode as u16 * 8 + self.register.number()
    }
}
