//! The extended instruction set: MUL, DIV, ASH and ASHC. (PDP-11/40 Processor Handbook, "Extended instruction set".)

ghost use Rattle.std.specs.Prelude.{◌≡◌};
ghost use Rattle.m11_cpu_machine.specs.Dialogue.{Does, input_alone};
ghost use Rattle.m11_cpu_machine.specs.Extended.{divided, extended, low_word_of, multiplied, pair_shifted, shifted};

use crate::abort::Abort;
use crate::machine::Machine;
use m11_base::{ExtendedOp, Feed, Operand, Register, Size};
use m11_cpu_arithmetic::{Division, divide, multiply, shift, shift_pair};

impl Machine {
    /// Executes MUL, DIV, ASH or ASHC. The source is fetched before the registers are read.
    pub(crate) fn extended<F: Feed>(
        &mut self,
        operation: ExtendedOp,
        register: Register,
        source: Operand,
        feed: &mut F,
    ) -> Result<(), Abort>
        ensures { Does (extended operation register source self.old) (input_alone (F.text feed.old) (F.faults feed.old))
            (input_alone (F.text feed.new) (F.faults feed.new)) (result, self.new) }
    {
        let source = self.fetch_operand(source, Size::Word, feed)?;
        match operation {
            ExtendedOp::Mul => self.multiply(register, source),
            ExtendedOp::Div => self.divide(register, source),
            ExtendedOp::Ash => self.shift(register, source),
            ExtendedOp::Ashc => self.shift_pair(register, source),
        }
        Ok(())
    }

    // MUL: stores the high word of the product in the register, and then the low word in the odd register of its pair. So an odd register
    // keeps only the low word.
    fn multiply(&mut self, register: Register, source: u16)
        ensures { self.new ≡ multiplied register source self.old }
    {
        let product = multiply(self.register(register), source);
        self.set_register(register, product.high);
        self.set_register(low_word_of(register), product.low);
        self.set_codes(product.codes);
    }

    // DIV: stores the quotient in the register, and then the remainder in the odd register of its pair. A refused division only sets the
    // condition codes.
    fn divide(&mut self, register: Register, source: u16)
        ensures { self.new ≡ divided register source self.old }
    {
        let odd = low_word_of(register);
        match divide(self.register(register), self.register(odd), source) {
            Division::Done {
                quotient,
                remainder,
                codes,
            } => {
                self.set_register(register, quotient);
                self.set_register(odd, remainder);
                self.set_codes(codes);
            }
            Division::Refused(codes) => self.set_codes(codes),
        }
    }

    fn shift(&mut self, register: Register, count: u16)
        ensures { self.new ≡ shifted register count self.old }
    {
        let computed = shift(self.register(register), count);
        self.set_register(register, computed.value);
        self.set_codes(computed.codes);
    }

    fn shift_pair(&mut self, register: Register, count: u16)
        ensures { self.new ≡ pair_shifted register count self.old }
    {
        let odd = low_word_of(register);
        let pair = shift_pair(self.register(register), self.register(odd), count);
        self.set_register(register, pair.high);
        self.set_register(odd, pair.low);
        self.set_codes(pair.codes);
    }
}

/// The register of the low word of a register's pair: the one after an even register, or an odd register itself.
#[inline(always)]
pub fn low_word_of(register: Register) -> Register
    ensures { result ≡ low_word_of register }
{
    match register {
        Register::R0 | Register::R1 => Register::R1,
        Register::R2 | Register::R3 => Register::R3,
        Register::R4 | Register::R5 => Register::R5,
        Register::Sp | Register::Pc => Register::Pc,
    }
}
