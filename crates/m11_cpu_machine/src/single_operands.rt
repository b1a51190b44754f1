//! Instructions with one operand. (PDP-11/40 Processor Handbook, "Instruction set": single operand instructions.)

ghost use Rattle.m11_cpu_machine.specs.Dialogue.{Does, both, input_alone};
ghost use Rattle.m11_cpu_machine.specs.SingleOperands.{change_at, change_single, single, test_operand, write};

use crate::abort::Abort;
use crate::addressing::OperandLocation;
use crate::destination_use::{DestinationUse, use_by_single};
use crate::machine::Machine;
use m11_base::{Feed, Operand, SingleOp, Sink, Size};

impl Machine {
    /// Executes a single operand instruction; JMP is one of them.
    #[tactic(auto, using(crate::proofs::Dialogues::with_both), unfolding(crate::specs::SingleOperands::single))]
    #[inline(always)]
    pub(crate) fn single<F: Feed, S: Sink>(
        &mut self,
        operation: SingleOp,
        size: Size,
        operand: Operand,
        feed: &mut F,
        sink: &mut S,
    ) -> Result<(), Abort>
        ensures { Does (single operation size operand self.old) (both (F.text feed.old) (F.faults feed.old) (S.text sink.old) (S.faults sink.old))
            (both (F.text feed.new) (F.faults feed.new) (S.text sink.new) (S.faults sink.new)) (result, self.new) }
    {
        match use_by_single(operation) {
            None => self.jump(operand, feed),
            Some(DestinationUse::Writes) => self.write(operation, size, operand, feed, sink),
            Some(DestinationUse::Reads) => self.test_operand(operation, size, operand, feed),
            Some(DestinationUse::Changes) => self.change_single(
                operation, size, operand, feed, sink,
            ),
        }
    }

    // CLR, CLRB and SXT: the operand is not read.
    #[inline(always)]
    fn write<F: Feed, S: Sink>(
        &mut self,
        operation: SingleOp,
        size: Size,
        operand: Operand,
        feed: &mut F,
        sink: &mut S,
    ) -> Result<(), Abort>
        ensures { Does (write operation size operand self.old) (both (F.text feed.old) (F.faults feed.old) (S.text sink.old) (S.faults sink.old))
            (both (F.text feed.new) (F.faults feed.new) (S.text sink.new) (S.faults sink.new)) (result, self.new) }
    {
        let location = self.location_of(operand, size, feed)?;
        let computed = m11_cpu_arithmetic::single(operation, size, 0, self.status.codes);
        self.store_result(location, size, computed, sink)
    }

    // TST and TSTB: nothing is stored.
    #[inline(always)]
    fn test_operand<F: Feed>(
        &mut self,
        operation: SingleOp,
        size: Size,
        operand: Operand,
        feed: &mut F,
    ) -> Result<(), Abort>
        ensures { Does (test_operand operation size operand self.old) (input_alone (F.text feed.old) (F.faults feed.old))
            (input_alone (F.text feed.new) (F.faults feed.new)) (result, self.new) }
    {
        let value = self.fetch_operand(operand, size, feed)?;
        let computed = m11_cpu_arithmetic::single(operation, size, value, self.status.codes);
        self.set_codes(computed.codes);
        Ok(())
    }

    // The other operations: the operand is read, and the result replaces it.
    #[inline(always)]
    fn change_single<F: Feed, S: Sink>(
        &mut self,
        operation: SingleOp,
        size: Size,
        operand: Operand,
        feed: &mut F,
        sink: &mut S,
    ) -> Result<(), Abort>
        ensures { Does (change_single operation size operand self.old) (both (F.text feed.old) (F.faults feed.old) (S.text sink.old) (S.faults sink.old))
            (both (F.text feed.new) (F.faults feed.new) (S.text sink.new) (S.faults sink.new)) (result, self.new) }
    {
        let location = self.location_of(operand, size, feed)?;
        self.change_at(operation, size, location, feed, sink)
    }

    // Reads a location and replaces its content with the result of the operation.
    #[inline(always)]
    fn change_at<F: Feed, S: Sink>(
        &mut self,
        operation: SingleOp,
        size: Size,
        location: OperandLocation,
        feed: &mut F,
        sink: &mut S,
    ) -> Result<(), Abort>
        ensures { Does (change_at operation size location self.old) (both (F.text feed.old) (F.faults feed.old) (S.text sink.old) (S.faults sink.old))
            (both (F.text feed.new) (F.faults feed.new) (S.text sink.new) (S.faults sink.new)) (result, self.new) }
    {
        let value = self.fetch(location, size, feed)?;
        let computed = m11_cpu_arithmetic::single(operation, size, value, self.status.codes);
        self.store_result(location, size, computed, sink)
    }
}
