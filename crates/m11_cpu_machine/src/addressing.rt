//! Operands: their locations by mode and register, and reading and storing there. (PDP-11/40 Processor Handbook, "Addressing
//! modes".)

ghost use Rattle.std.specs.Prelude.{◌≡◌, ◌+◌, ◌<◌, IfOk};
ghost use Rattle.m11_cpu_arithmetic.specs.Sizes.{size_limit};
ghost use Rattle.m11_cpu_machine.specs.Dialogue.{Does, input_alone, output_alone};
ghost use Rattle.m11_cpu_machine.specs.Addressing.{back, deferred, forward, fetch, fetch_operand, indexed, location_of, next_word, store_result, step_of, store, without_low_byte};

use crate::abort::Abort;
use crate::machine::Machine;
use m11_base::{Feed, Mode, Operand, Register, Sink, Size};
use m11_cpu_arithmetic::Computed;

/// The location of an operand.
#[derive(Clone, Copy, PartialEq, Eq)]
pub enum OperandLocation {
    /// In a register.
    InRegister(Register),
    /// In memory, or in a register of a device, at this address.
    InMemory(u16),
}

impl Machine {
    /// The location of an operand: its register in mode 0, otherwise its effective address. Modes 2 to 5 step the register before
    /// any access through it, and it stays stepped if that access traps or stops. Modes 6 and 7 first read the next word of the
    /// program. Modes 3, 5 and 7 read the effective address from memory, or from a register of a device.
    #[inline(always)]
    pub(crate) fn location_of<F: Feed>(
        &mut self,
        operand: Operand,
        size: Size,
        feed: &mut F,
    ) -> Result<OperandLocation, Abort>
        ensures { Does (location_of operand size self.old) (input_alone (F.text feed.old) (F.faults feed.old))
            (input_alone (F.text feed.new) (F.faults feed.new)) (result, self.new) }
    {
        let register = operand.register;
        match operand.mode {
            Mode::Register => Ok(OperandLocation::InRegister(register)),
            Mode::RegisterDeferred => Ok(OperandLocation::InMemory(self.register(register))),
            Mode::Autoincrement => Ok(OperandLocation::InMemory(self.forward(
                register,
                step_of(size, register),
            ))),
            Mode::AutoincrementDeferred => {
                let address = self.forward(register, 2);
                self.deferred(address, feed)
            }
            Mode::Autodecrement => Ok(OperandLocation::InMemory(self.back(
                register,
                step_of(size, register),
            ))),
            Mode::AutodecrementDeferred => {
                let address = self.back(register, 2);
                self.deferred(address, feed)
            }
            Mode::Index => Ok(OperandLocation::InMemory(self.indexed(register, feed)?)),
            Mode::IndexDeferred => {
                let address = self.indexed(register, feed)?;
                self.deferred(address, feed)
            }
        }
    }

    // The last step of modes 3, 5 and 7: the effective address is the word at this address.
    #[inline(never)]
    fn deferred<F: Feed>(&mut self, address: u16, feed: &mut F) -> Result<OperandLocation, Abort>
        ensures { Does (deferred address self.old) (input_alone (F.text feed.old) (F.faults feed.old))
            (input_alone (F.text feed.new) (F.faults feed.new)) (result, self.new) }
    {
        Ok(OperandLocation::InMemory(self.load_word(address, feed)?))
    }

    // The next word of the program plus the register, modulo octal 200000: the effective address in mode 6, and the address of a pointer
    // in mode 7. The word is read first, so if the register is PC, it has already stepped past the word.
    #[inline(always)]
    fn indexed<F: Feed>(&mut self, register: Register, feed: &mut F) -> Result<u16, Abort>
        ensures { Does (indexed register self.old) (input_alone (F.text feed.old) (F.faults feed.old))
            (input_alone (F.text feed.new) (F.faults feed.new)) (result, self.new) }
    {
        let index = self.next_word(feed)?;
        Ok(index.wrapping_add(self.register(register)))
    }

    /// Reads the word at the program counter. The program counter then steps past the word, but is unchanged if the read traps or stops.
    #[inline(always)]
    pub(crate) fn next_word<F: Feed>(&mut self, feed: &mut F) -> Result<u16, Abort>
        ensures { Does (next_word self.old) (input_alone (F.text feed.old) (F.faults feed.old))
            (input_alone (F.text feed.new) (F.faults feed.new)) (result, self.new) }
    {
        let address = self.register(Register::Pc);
        let word = self.load_word(address, feed)?;
        self.advance(Register::Pc, 2);
        Ok(word)
    }

    /// Adds this many bytes to a register, modulo octal 200000, and returns its old value.
    #[inline(always)]
    pub fn forward(&mut self, register: Register, bytes: u16) -> u16
        ensures { (result, self.new) ≡ forward register bytes self.old }
    {
        let value = self.register(register);
        self.advance(register, bytes);
        value
    }

    /// Subtracts this many bytes from a register, modulo octal 200000, and returns its new value.
    #[inline(always)]
    pub fn back(&mut self, register: Register, bytes: u16) -> u16
        ensures { (result, self.new) ≡ back register bytes self.old }
    {
        let value = self.register(register).wrapping_sub(bytes);
        self.set_register(register, value);
        value
    }

    /// The content of a location: a word, or a byte below 256. The byte in a register is the register's low byte.
    #[tactic(auto, using(crate::proofs::Dialogues::dialogues), unfolding(crate::specs::Addressing::fetch))]
    #[inline(always)]
    pub(crate) fn fetch<F: Feed>(
        &mut self,
        location: OperandLocation,
        size: Size,
        feed: &mut F,
    ) -> Result<u16, Abort>
        ensures does { Does (fetch location size self.old) (input_alone (F.text feed.old) (F.faults feed.old))
            (input_alone (F.text feed.new) (F.faults feed.new)) (result, self.new) }
        ensures fits { IfOk result (λ value. value < size_limit size) }
    {
        match (location, size) {
            (OperandLocation::InRegister(register), Size::Word) => Ok(self.register(register)),
            (OperandLocation::InRegister(register), Size::Byte) => Ok(
                self.register(register) % 256,
            ),
            (OperandLocation::InMemory(address), Size::Word) => self.load_word(address, feed),
            (OperandLocation::InMemory(address), Size::Byte) => self.load_byte(address, feed),
        }
    }

    /// The value of an operand. Working out its location may step its register and the program counter, so a source must be
    /// fetched before the location of the destination is worked out.
    #[inline(always)]
    pub(crate) fn fetch_operand<F: Feed>(
        &mut self,
        operand: Operand,
        size: Size,
        feed: &mut F,
    ) -> Result<u16, Abort>
        ensures does { Does (fetch_operand operand size self.old) (input_alone (F.text feed.old) (F.faults feed.old))
            (input_alone (F.text feed.new) (F.faults feed.new)) (result, self.new) }
        ensures fits { IfOk result (λ value. value < size_limit size) }
    {
        let location = self.location_of(operand, size, feed)?;
        self.fetch(location, size, feed)
    }

    /// Stores a word, or its low byte, in a location. Storing a byte leaves the high byte of a register as it was.
    #[tactic(auto, using(crate::proofs::Dialogues::dialogues), unfolding(crate::specs::Addressing::store))]
    #[inline(always)]
    pub(crate) fn store<S: Sink>(
        &mut self,
        location: OperandLocation,
        size: Size,
        value: u16,
        sink: &mut S,
    ) -> Result<(), Abort>
        ensures { Does (store location size value self.old) (output_alone (S.text sink.old) (S.faults sink.old))
            (output_alone (S.text sink.new) (S.faults sink.new)) (result, self.new) }
    {
        match (location, size) {
            (OperandLocation::InRegister(register), Size::Word) => self.set_register(
                register, value,
            ),
            (OperandLocation::InRegister(register), Size::Byte) => {
                let high = without_low_byte(self.register(register));
                self.set_register(register, high + value % 256);
            }
            (OperandLocation::InMemory(address), Size::Word) => return self.store_word(
                address, value, sink,
            ),
            (OperandLocation::InMemory(address), Size::Byte) => {
                return self.store_byte(address, (value % 256) as u8, sink);
            }
        }
        Ok(())
    }

    /// Stores the result of an operation in a location, and then sets the operation's condition codes, unless the store traps or stops.
    /// If the location is the processor status word, the codes aren't set, and the word stays as it was written.
    #[inline(always)]
    pub(crate) fn store_result<S: Sink>(
        &mut self,
        location: OperandLocation,
        size: Size,
        computed: Computed,
        sink: &mut S,
    ) -> Result<(), Abort>
        ensures { Does (store_result location size computed self.old)
            (output_alone (S.text sink.old) (S.faults sink.old))
            (output_alone (S.text sink.new) (S.faults sink.new)) (result, self.new) }
    {
        self.store(location, size, computed.value, sink)?;
        self.set_codes_after_store(location, computed.codes);
        Ok(())
    }
}

// The word with its low byte cleared, so that another low byte can be added.
#[inline(always)]
pub fn without_low_byte(word: u16) -> u16
    ensures high { result ≡ without_low_byte word }
    ensures room { result + 255 < 0o200000 }
{
    word / 256 * 256
}

// The number of bytes by which modes 2 and 4 step a register: the size of the operand; but 2 for SP and PC, which must stay even.
#[inline(always)]
pub fn step_of(size: Size, register: Register) -> u16
    ensures { result ≡ step_of size register }
{
    match (size, register) {
        (Size::Word, _) | (Size::Byte, Register::Sp | Register::Pc) => 2,
        (Size::Byte, _) => 1,
    }
}
