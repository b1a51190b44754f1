//! Instructions with a source and a destination. (PDP-11/40 Processor Handbook, "Instruction set": double operand
//! instructions.)

ghost use Rattle.std.specs.Prelude.{◌≡◌, ◌<◌};
ghost use Rattle.m11_cpu_arithmetic.specs.Sizes.{size_limit};
ghost use Rattle.m11_cpu_machine.specs.Dialogue.{Does, both, input_alone, output_alone};
ghost use Rattle.m11_cpu_machine.specs.DoubleOperands.{change_double, change_exclusive, compare, double, double_at, exclusive_or, move_to, sign_extended, store_moved};

use crate::abort::Abort;
use crate::addressing::OperandLocation;
use crate::destination_use::{DestinationUse, use_by_double};
use crate::machine::Machine;
use m11_base::{DoubleOp, Feed, Operand, Register, Sink, Size};

impl Machine {
    /// Executes a double operand instruction. The source is fetched before the location of the destination is worked out.
    pub(crate) fn double<F: Feed, S: Sink>(
        &mut self,
        operation: DoubleOp,
        size: Size,
        source: Operand,
        destination: Operand,
        feed: &mut F,
        sink: &mut S,
    ) -> Result<(), Abort>
        ensures { Does (double operation size source destination self.old) (both (F.text feed.old) (F.faults feed.old) (S.text sink.old) (S.faults sink.old))
            (both (F.text feed.new) (F.faults feed.new) (S.text sink.new) (S.faults sink.new)) (result, self.new) }
    {
        let source = self.fetch_operand(source, size, feed)?;
        let location = self.location_of(destination, size, feed)?;
        self.double_at(operation, size, source, location, feed, sink)
    }

    // Executes the operation on a fetched source and the destination at this location.
    #[tactic(auto, using(crate::proofs::Dialogues::with_both), unfolding(crate::specs::DoubleOperands::double_at))]
    fn double_at<F: Feed, S: Sink>(
        &mut self,
        operation: DoubleOp,
        size: Size,
        source: u16,
        location: OperandLocation,
        feed: &mut F,
        sink: &mut S,
    ) -> Result<(), Abort>
        requires { source < size_limit size }
        ensures { Does (double_at operation size source location self.old) (both (F.text feed.old) (F.faults feed.old) (S.text sink.old) (S.faults sink.old))
            (both (F.text feed.new) (F.faults feed.new) (S.text sink.new) (S.faults sink.new)) (result, self.new) }
    {
        match use_by_double(operation) {
            DestinationUse::Writes => self.move_to(location, size, source, sink),
            DestinationUse::Reads => self.compare(operation, location, size, source, feed),
            DestinationUse::Changes => self.change_double(
                operation, location, size, source, feed, sink,
            ),
        }
    }

    // MOV and MOVB: the destination is not read.
    #[inline(always)]
    fn move_to<S: Sink>(
        &mut self,
        location: OperandLocation,
        size: Size,
        source: u16,
        sink: &mut S,
    ) -> Result<(), Abort>
        requires { source < size_limit size }
        ensures { Does (move_to location size source self.old) (output_alone (S.text sink.old) (S.faults sink.old))
            (output_alone (S.text sink.new) (S.faults sink.new)) (result, self.new) }
    {
        let computed = m11_cpu_arithmetic::double(
            DoubleOp::Mov,
            size,
            source,
            0,
            self.status.codes,
        );
        self.store_moved(location, size, source, sink)?;
        self.set_codes_after_store(location, computed.codes);
        Ok(())
    }

    // Stores a word or byte in a location. A byte that MOVB stores in a register is sign-extended to a word.
    #[tactic(auto, using(crate::proofs::Dialogues::dialogues), unfolding(crate::specs::DoubleOperands::store_moved))]
    #[inline(always)]
    fn store_moved<S: Sink>(
        &mut self,
        location: OperandLocation,
        size: Size,
        value: u16,
        sink: &mut S,
    ) -> Result<(), Abort>
        ensures { Does (store_moved location size value self.old) (output_alone (S.text sink.old) (S.faults sink.old))
            (output_alone (S.text sink.new) (S.faults sink.new)) (result, self.new) }
    {
        match (location, size) {
            (OperandLocation::InRegister(register), Size::Byte) => {
                self.set_register(register, sign_extended(value));
                Ok(())
            }
            _ => self.store(location, size, value, sink),
        }
    }

    // CMP and BIT: nothing is stored.
    fn compare<F: Feed>(
        &mut self,
        operation: DoubleOp,
        location: OperandLocation,
        size: Size,
        source: u16,
        feed: &mut F,
    ) -> Result<(), Abort>
        requires { source < size_limit size }
        ensures { Does (compare operation location size source self.old) (input_alone (F.text feed.old) (F.faults feed.old))
            (input_alone (F.text feed.new) (F.faults feed.new)) (result, self.new) }
    {
        let destination = self.fetch(location, size, feed)?;
        let computed = m11_cpu_arithmetic::double(
            operation,
            size,
            source,
            destination,
            self.status.codes,
        );
        self.set_codes(computed.codes);
        Ok(())
    }

    // BIC, BIS, ADD and SUB: the destination is read, and the result replaces it.
    fn change_double<F: Feed, S: Sink>(
        &mut self,
        operation: DoubleOp,
        location: OperandLocation,
        size: Size,
        source: u16,
        feed: &mut F,
        sink: &mut S,
    ) -> Result<(), Abort>
        requires { source < size_limit size }
        ensures { Does (change_double operation location size source self.old) (both (F.text feed.old) (F.faults feed.old) (S.text sink.old) (S.faults sink.old))
            (both (F.text feed.new) (F.faults feed.new) (S.text sink.new) (S.faults sink.new)) (result, self.new) }
    {
        let destination = self.fetch(location, size, feed)?;
        let computed = m11_cpu_arithmetic::double(
            operation,
            size,
            source,
            destination,
            self.status.codes,
        );
        self.store_result(location, size, computed, sink)
    }

    /// XOR: the register is read before the location of the destination is worked out.
    pub(crate) fn exclusive_or<F: Feed, S: Sink>(
        &mut self,
        register: Register,
        destination: Operand,
        feed: &mut F,
        sink: &mut S,
    ) -> Result<(), Abort>
        ensures { Does (exclusive_or register destination self.old) (both (F.text feed.old) (F.faults feed.old) (S.text sink.old) (S.faults sink.old))
            (both (F.text feed.new) (F.faults feed.new) (S.text sink.new) (S.faults sink.new)) (result, self.new) }
    {
        let source = self.register(register);
        let location = self.location_of(destination, Size::Word, feed)?;
        self.change_exclusive(source, location, feed, sink)
    }

    // XOR of a word and the destination at this location. The result replaces the destination.
    fn change_exclusive<F: Feed, S: Sink>(
        &mut self,
        source: u16,
        location: OperandLocation,
        feed: &mut F,
        sink: &mut S,
    ) -> Result<(), Abort>
        ensures { Does (change_exclusive source location self.old) (both (F.text feed.old) (F.faults feed.old) (S.text sink.old) (S.faults sink.old))
            (both (F.text feed.new) (F.faults feed.new) (S.text sink.new) (S.faults sink.new)) (result, self.new) }
    {
        let value = self.fetch(location, Size::Word, feed)?;
        let computed = m11_cpu_arithmetic::exclusive_or(source, value, self.status.codes);
        self.store_result(location, Size::Word, computed, sink)
    }
}

// The low byte of a word, sign-extended to a word.
#[inline(always)]
pub fn sign_extended(byte: u16) -> u16
    ensures { result ≡ sign_extended byte }
{
    let low = byte % 0o400;
    if low < 0o200 { low } else { low + 0o177400 }
}
