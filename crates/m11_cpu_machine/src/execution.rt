//! The effect of each instruction. (PDP-11/40 Processor Handbook, "Instruction set".)

ghost use Rattle.std.specs.Prelude.{◌≡◌};
ghost use Rattle.m11_cpu_machine.specs.Dialogue.{Does, both, input_alone};
ghost use Rattle.m11_cpu_machine.specs.Execution.{bare, conditions_applied, execute, numbered, on_register, reset, return_from_trap};

use crate::abort::{Abort, Vector};
use crate::machine::Machine;
use crate::status::ProcessorStatus;
use m11_base::{
    BareOp, ConditionCodes, ConditionOp, Feed, Insn, NumberOp, Operand, Register, RegisterOp, Sink,
};

/// How an instruction ends.
#[derive(Clone, Copy)]
pub enum Ending {
    /// The next instruction follows, after a trace trap if T is set.
    Next,
    /// The next instruction follows without a trace trap.
    Untraced,
    /// The machine stops at HALT.
    Halts,
    /// The machine stops at WAIT.
    Waits,
}

impl Machine {
    /// Executes one decoded instruction. The program counter has already stepped past its first word.
    #[inline(always)]
    pub(crate) fn execute<F: Feed, S: Sink>(
        &mut self,
        instruction: Insn,
        feed: &mut F,
        sink: &mut S,
    ) -> Result<Ending, Abort>
        ensures { Does (execute instruction self.old) (both (F.text feed.old) (F.faults feed.old) (S.text sink.old) (S.faults sink.old))
            (both (F.text feed.new) (F.faults feed.new) (S.text sink.new) (S.faults sink.new)) (result, self.new) }
    {
        match instruction {
            Insn::Double(operation, size, source, destination) => {
                self.double(operation, size, source, destination, feed, sink)?;
            }
            Insn::Extended(operation, register, source) => self.extended(
                operation, register, source, feed,
            )?,
            Insn::Register(operation, register, operand) => {
                self.on_register(operation, register, operand, feed, sink)?;
            }
            Insn::Sob(register, words) => self.count_down(register, words),
            Insn::Single(operation, size, operand) => self.single(
                operation, size, operand, feed, sink,
            )?,
            Insn::Rts(register) => self.return_by(register, feed)?,
            Insn::Number(operation, number) => self.numbered(operation, number, feed)?,
            Insn::Bare(operation) => return self.bare(operation, feed),
            Insn::Condition(operation, codes) => self.apply_conditions(operation, codes),
            Insn::Branch(operation, words) => self.branch(operation, words),
            Insn::Reserved(_) => return Err(Abort::Traps(Vector::Reserved)),
        }
        Ok(Ending::Next)
    }

    // Executes JSR or XOR.
    #[tactic(auto, using(crate::proofs::Dialogues::with_both), unfolding(crate::specs::Execution::on_register))]
    fn on_register<F: Feed, S: Sink>(
        &mut self,
        operation: RegisterOp,
        register: Register,
        operand: Operand,
        feed: &mut F,
        sink: &mut S,
    ) -> Result<(), Abort>
        ensures { Does (on_register operation register operand self.old) (both (F.text feed.old) (F.faults feed.old) (S.text sink.old) (S.faults sink.old))
            (both (F.text feed.new) (F.faults feed.new) (S.text sink.new) (S.faults sink.new)) (result, self.new) }
    {
        match operation {
            RegisterOp::Jsr => self.call(register, operand, feed, sink),
            RegisterOp::Xor => self.exclusive_or(register, operand, feed, sink),
        }
    }

    // Executes MARK, EMT or TRAP.
    #[tactic(auto, using(crate::proofs::Dialogues::dialogues), unfolding(crate::specs::Execution::numbered))]
    fn numbered<F: Feed>(
        &mut self,
        operation: NumberOp,
        number: u8,
        feed: &mut F,
    ) -> Result<(), Abort>
        ensures { Does (numbered operation number self.old) (input_alone (F.text feed.old) (F.faults feed.old))
            (input_alone (F.text feed.new) (F.faults feed.new)) (result, self.new) }
    {
        match operation {
            NumberOp::Mark => self.mark(number, feed),
            NumberOp::Emt => Err(Abort::Traps(Vector::Emulator)),
            NumberOp::Trap => Err(Abort::Traps(Vector::Trap)),
        }
    }

    // Executes an instruction whose code has no fields: HALT, WAIT, RTI, RTT, BPT, IOT or RESET.
    fn bare<F: Feed>(&mut self, operation: BareOp, feed: &mut F) -> Result<Ending, Abort>
        ensures { Does (bare operation self.old) (input_alone (F.text feed.old) (F.faults feed.old))
            (input_alone (F.text feed.new) (F.faults feed.new)) (result, self.new) }
    {
        match operation {
            BareOp::Halt => Ok(Ending::Halts),
            BareOp::Wait => Ok(Ending::Waits),
            BareOp::Rti => {
                self.return_from_trap(feed)?;
                Ok(Ending::Next)
            }
            BareOp::Rtt => {
                self.return_from_trap(feed)?;
                Ok(Ending::Untraced)
            }
            BareOp::Bpt => Err(Abort::Traps(Vector::Breakpoint)),
            BareOp::Iot => Err(Abort::Traps(Vector::InputOutput)),
            BareOp::Reset => {
                self.reset();
                Ok(Ending::Next)
            }
        }
    }

    // RTI and RTT: pops the program counter, and then the processor status.
    fn return_from_trap<F: Feed>(&mut self, feed: &mut F) -> Result<(), Abort>
        ensures { Does (return_from_trap self.old) (input_alone (F.text feed.old) (F.faults feed.old))
            (input_alone (F.text feed.new) (F.faults feed.new)) (result, self.new) }
    {
        let address = self.pop(feed)?;
        self.set_register(Register::Pc, address);
        let status = self.pop(feed)?;
        self.status = ProcessorStatus::of_bits(status);
        Ok(())
    }

    // RESET clears bit 6, interrupt enable, in both status registers of the console.
    fn reset(&mut self)
        ensures { self.new ≡ reset self.old }
    {
        self.receiver.is_enabled = false;
        self.transmitter.is_enabled = false;
    }

    /// Clears or sets the named condition codes.
    #[inline(always)]
    pub fn apply_conditions(&mut self, operation: ConditionOp, named: ConditionCodes)
        ensures { self.new ≡ conditions_applied operation named self.old }
    {
        let codes = self.status.codes;
        self.set_codes(match operation {
            ConditionOp::Clear => ConditionCodes {
                negative: codes.negative && !named.negative,
                zero: codes.zero && !named.zero,
                overflow: codes.overflow && !named.overflow,
                carry: codes.carry && !named.carry,
            },
            ConditionOp::Set => ConditionCodes {
                negative: codes.negative || named.negative,
                zero: codes.zero || named.zero,
                overflow: codes.overflow || named.overflow,
                carry: codes.carry || named.carry,
            },
        });
    }
}
