//! Branches, jumps and subroutines. (PDP-11/40 Processor Handbook, "Instruction set": program control.)

ghost use Rattle.std.specs.Prelude.{◌≡◌};
ghost use Rattle.m11_cpu_machine.specs.Dialogue.{Does, both, input_alone, output_alone};
ghost use Rattle.m11_cpu_machine.specs.Jumps.{branched, call, counted_down, enter, jump, mark, pop, push, return_by, target, words_on};

use crate::abort::{Abort, Vector};
use crate::addressing::OperandLocation;
use crate::machine::Machine;
use m11_base::{BranchOp, Feed, Operand, Register, Sink, Size};
use m11_cpu_arithmetic::is_taken;

impl Machine {
    /// A branch: if it is taken, the program counter moves by this many words, backwards if the number is negative.
    #[inline(always)]
    pub(crate) fn branch(&mut self, operation: BranchOp, words: i8)
        ensures { self.new ≡ branched operation words self.old }
    {
        if is_taken(operation, self.status.codes) {
            let target = words_on(self.register(Register::Pc), words);
            self.set_register(Register::Pc, target);
        }
    }

    /// SOB: subtracts 1 from the register; if the result isn't 0, the program counter goes back by this many words.
    #[inline(always)]
    pub(crate) fn count_down(&mut self, register: Register, words: u8)
        ensures { self.new ≡ counted_down register words self.old }
    {
        let count = self.back(register, 1);
        if count != 0 {
            self.back(Register::Pc, u16::from(words) * 2);
        }
    }

    /// JMP: the program counter gets the effective address of the operand. A register as the operand traps through 10.
    pub(crate) fn jump<F: Feed>(&mut self, operand: Operand, feed: &mut F) -> Result<(), Abort>
        ensures { Does (jump operand self.old) (input_alone (F.text feed.old) (F.faults feed.old))
            (input_alone (F.text feed.new) (F.faults feed.new)) (result, self.new) }
    {
        let target = self.target(operand, feed)?;
        self.set_register(Register::Pc, target);
        Ok(())
    }

    // The effective address of the operand of JMP or JSR. A register has none, so such an operand traps through 10.
    fn target<F: Feed>(&mut self, operand: Operand, feed: &mut F) -> Result<u16, Abort>
        ensures { Does (target operand self.old) (input_alone (F.text feed.old) (F.faults feed.old))
            (input_alone (F.text feed.new) (F.faults feed.new)) (result, self.new) }
    {
        match self.location_of(operand, Size::Word, feed)? {
            OperandLocation::InRegister(_) => Err(Abort::Traps(Vector::Reserved)),
            OperandLocation::InMemory(address) => Ok(address),
        }
    }

    /// JSR: the operand's effective address is worked out before the register is pushed. A register as the operand traps through 10.
    pub(crate) fn call<F: Feed, S: Sink>(
        &mut self,
        register: Register,
        operand: Operand,
        feed: &mut F,
        sink: &mut S,
    ) -> Result<(), Abort>
        ensures { Does (call register operand self.old) (both (F.text feed.old) (F.faults feed.old) (S.text sink.old) (S.faults sink.old))
            (both (F.text feed.new) (F.faults feed.new) (S.text sink.new) (S.faults sink.new)) (result, self.new) }
    {
        let target = self.target(operand, feed)?;
        self.enter(register, target, sink)
    }

    // Pushes the register, as it was before the push. Then the register gets the return address, and the program counter the target.
    fn enter<S: Sink>(&mut self, register: Register, target: u16, sink: &mut S) -> Result<(), Abort>
        ensures { Does (enter register target self.old) (output_alone (S.text sink.old) (S.faults sink.old))
            (output_alone (S.text sink.new) (S.faults sink.new)) (result, self.new) }
    {
        self.push(self.register(register), sink)?;
        self.set_register(register, self.register(Register::Pc));
        self.set_register(Register::Pc, target);
        Ok(())
    }

    /// RTS: the program counter gets the value of the register, and the register gets the popped word.
    pub(crate) fn return_by<F: Feed>(
        &mut self,
        register: Register,
        feed: &mut F,
    ) -> Result<(), Abort>
        ensures { Does (return_by register self.old) (input_alone (F.text feed.old) (F.faults feed.old))
            (input_alone (F.text feed.new) (F.faults feed.new)) (result, self.new) }
    {
        self.set_register(Register::Pc, self.register(register));
        let popped = self.pop(feed)?;
        self.set_register(register, popped);
        Ok(())
    }

    /// MARK: sets the stack pointer to this many words past the program counter, jumps to the address in register 5, and pops
    /// register 5.
    pub(crate) fn mark<F: Feed>(&mut self, words: u8, feed: &mut F) -> Result<(), Abort>
        ensures { Does (mark words self.old) (input_alone (F.text feed.old) (F.faults feed.old))
            (input_alone (F.text feed.new) (F.faults feed.new)) (result, self.new) }
    {
        let parameters_end = self
            .register(Register::Pc)
            .wrapping_add(u16::from(words) * 2);
        self.set_register(Register::Sp, parameters_end);
        self.set_register(Register::Pc, self.register(Register::R5));
        let popped = self.pop(feed)?;
        self.set_register(Register::R5, popped);
        Ok(())
    }

    /// Pushes a word onto the stack. The stack pointer steps before the word is stored, and stays stepped if the store traps or stops.
    #[tactic(auto, using(crate::proofs::Dialogues::dialogues), unfolding(crate::specs::Jumps::push))]
    pub(crate) fn push<S: Sink>(&mut self, value: u16, sink: &mut S) -> Result<(), Abort>
        ensures { Does (push value self.old) (output_alone (S.text sink.old) (S.faults sink.old))
            (output_alone (S.text sink.new) (S.faults sink.new)) (result, self.new) }
    {
        let address = self.back(Register::Sp, 2);
        self.store_word(address, value, sink)
    }

    /// Pops a word from the stack. The stack pointer steps before the word is read, and stays stepped if the read traps or stops.
    #[tactic(auto, using(crate::proofs::Dialogues::dialogues), unfolding(crate::specs::Jumps::pop))]
    pub(crate) fn pop<F: Feed>(&mut self, feed: &mut F) -> Result<u16, Abort>
        ensures { Does (pop self.old) (input_alone (F.text feed.old) (F.faults feed.old))
            (input_alone (F.text feed.new) (F.faults feed.new)) (result, self.new) }
    {
        let address = self.forward(Register::Sp, 2);
        self.load_word(address, feed)
    }
}

// The address that is this many words after another one, or before it if the number is negative, modulo octal 200000.
#[inline(always)]
pub fn words_on(address: u16, words: i8) -> u16
    ensures { result ≡ words_on address words }
{
    address.wrapping_add((i16::from(words) * 2).cast_unsigned())
}
