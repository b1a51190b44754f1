//! Reading and writing at addresses: memory, the console's registers, the processor status word.

ghost use Rattle.std.specs.Prelude.{◌≡◌, ◌<◌, ◌%◌, IfOk};
ghost use Rattle.m11_cpu_machine.specs.Dialogue.{Does, DialogueAccepts, input_alone, output_alone, output_of};
ghost use Rattle.m11_cpu_machine.specs.Access.{load_word, load_byte, load_device, load_odd, receive, receiver_status, read_receiver, store_word, store_byte, store_device, store_odd, send};

use crate::abort::{Abort, Vector};
use crate::console::{DeviceRegister, device_at};
use crate::machine::Machine;
use crate::stop::LastingStop;
use m11_base::{Feed, Sink};

impl Machine {
    /// The word at an even address. A read of the receiver's status may ask `feed` for a byte, and a read of its buffer clears done.
    ///
    /// `Traps` through 4 if the address is odd or nothing is there; `Stops` if `feed` failed.
    #[tactic(auto, using(crate::proofs::Dialogues::dialogues), unfolding(crate::specs::Access::load_word))]
    #[inline(always)]
    pub(crate) fn load_word<F: Feed>(&mut self, address: u16, feed: &mut F) -> Result<u16, Abort>
        ensures { Does (load_word address self.old) (input_alone (F.text feed.old) (F.faults feed.old))
            (input_alone (F.text feed.new) (F.faults feed.new)) (result, self.new) }
    {
        if address % 2 == 1 {
            return Err(Abort::Traps(Vector::BusError));
        }
        if self.memory.holds(address) {
            return Ok(self.memory.word(address));
        }
        self.load_device(address, feed)
    }

    /// The byte at an address, even or odd. The high byte of a device register is 0, and reading it has no effect. A read of the
    /// receiver's status may ask `feed` for a byte, and a read of its buffer clears done.
    ///
    /// `Traps` through 4 if nothing is there; `Stops` if `feed` failed.
    #[tactic(auto, using(crate::proofs::Dialogues::dialogues), unfolding(crate::specs::Access::load_byte))]
    #[inline(always)]
    pub(crate) fn load_byte<F: Feed>(&mut self, address: u16, feed: &mut F) -> Result<u16, Abort>
        ensures does { Does (load_byte address self.old) (input_alone (F.text feed.old) (F.faults feed.old))
            (input_alone (F.text feed.new) (F.faults feed.new)) (result, self.new) }
        ensures byte { IfOk result (λ value. value < 256) }
    {
        if self.memory.holds(address) {
            return Ok(u16::from(self.memory.byte(address)));
        }
        if address % 2 == 1 {
            return load_odd(address);
        }
        self.load_device(address, feed)
    }

    // The word, below 256, of the device register at an even address past the end of memory. Traps through 4 if there is none; stops if the
    // input failed. A read of the receiver's status may ask the input for a byte, and a read of its buffer clears done. The
    // transmitter's buffer can only be written, and reads as 0.
    #[tactic(auto, using(crate::proofs::Dialogues::dialogues), unfolding(crate::specs::Access::load_device))]
    #[cold]
    #[inline(never)]
    fn load_device<F: Feed>(&mut self, address: u16, feed: &mut F) -> Result<u16, Abort>
        ensures does { Does (load_device address self.old) (input_alone (F.text feed.old) (F.faults feed.old))
            (input_alone (F.text feed.new) (F.faults feed.new)) (result, self.new) }
        ensures byte { IfOk result (λ value. value < 256) }
    {
        match device_at(address) {
            Some(DeviceRegister::ReceiverStatus) => self.receiver_status(feed),
            Some(DeviceRegister::ReceiverBuffer) => Ok(self.read_receiver()),
            Some(DeviceRegister::TransmitterStatus) => Ok(self.transmitter.status()),
            Some(DeviceRegister::TransmitterBuffer) => Ok(0),
            Some(DeviceRegister::ProcessorStatus) => Ok(self.status.bits()),
            None => Err(Abort::Traps(Vector::BusError)),
        }
    }

    // The status of the receiver. If the receiver has no unread byte and the input has not ended, the input is asked for a byte first; if
    // the input fails, the machine stops.
    fn receiver_status<F: Feed>(&mut self, feed: &mut F) -> Result<u16, Abort>
        ensures does { Does (receiver_status self.old) (input_alone (F.text feed.old) (F.faults feed.old))
            (input_alone (F.text feed.new) (F.faults feed.new)) (result, self.new) }
        ensures byte { IfOk result (λ value. value < 256) }
    {
        if !self.receiver.is_waiting() {
            return Ok(self.receiver.status());
        }
        self.receive(feed)?;
        Ok(self.receiver.status())
    }

    // Asks the input for one byte. If a byte comes, it is stored in the receiver, and done is set; if the input has ended, that is
    // recorded, and the input isn't asked again; if the input fails, the machine stops.
    #[tactic(auto, using(crate::proofs::Dialogues::dialogues), unfolding(crate::specs::Access::receive))]
    fn receive<F: Feed>(&mut self, feed: &mut F) -> Result<(), Abort>
        ensures { Does (receive self.old) (input_alone (F.text feed.old) (F.faults feed.old))
            (input_alone (F.text feed.new) (F.faults feed.new)) (result, self.new) }
    {
        match feed.next() {
            Ok(Some(byte)) => {
                self.receiver.byte = byte;
                self.receiver.is_done = true;
                Ok(())
            }
            Ok(None) => {
                self.receiver.has_ended = true;
                Ok(())
            }
            Err(_) => Err(Abort::Stops(LastingStop::InputFault)),
        }
    }

    // The receiver's byte. Done is cleared, and the byte stays in the receiver.
    fn read_receiver(&mut self) -> u16
        ensures taken { (result, self.new) ≡ read_receiver self.old }
        ensures byte { result < 256 }
    {
        self.receiver.is_done = false;
        u16::from(self.receiver.byte)
    }

    /// Stores a word at an even address. A write to the transmitter's buffer sends the low byte to `sink`.
    ///
    /// `Traps` through 4 if the address is odd or nothing is there; `Stops` if `sink` failed or accepted nothing.
    #[tactic(auto, using(crate::proofs::Dialogues::dialogues), unfolding(crate::specs::Access::store_word))]
    #[inline(always)]
    pub(crate) fn store_word<S: Sink>(
        &mut self,
        address: u16,
        value: u16,
        sink: &mut S,
    ) -> Result<(), Abort>
        ensures { Does (store_word address value self.old) (output_alone (S.text sink.old) (S.faults sink.old))
            (output_alone (S.text sink.new) (S.faults sink.new)) (result, self.new) }
    {
        if address % 2 == 1 {
            return Err(Abort::Traps(Vector::BusError));
        }
        if self.memory.holds(address) {
            self.memory.set_word(address, value);
            return Ok(());
        }
        self.store_device(address, value, sink)
    }

    /// Stores a byte at an address, even or odd. The high byte of a device register ignores writes. A write to the transmitter's
    /// buffer sends the byte to `sink`.
    ///
    /// `Traps` through 4 if nothing is there; `Stops` if `sink` failed or accepted nothing.
    #[tactic(auto, using(crate::proofs::Dialogues::dialogues), unfolding(crate::specs::Access::store_byte))]
    #[inline(always)]
    pub(crate) fn store_byte<S: Sink>(
        &mut self,
        address: u16,
        value: u8,
        sink: &mut S,
    ) -> Result<(), Abort>
        ensures { Does (store_byte address value self.old) (output_alone (S.text sink.old) (S.faults sink.old))
            (output_alone (S.text sink.new) (S.faults sink.new)) (result, self.new) }
    {
        if self.memory.holds(address) {
            self.memory.set_byte(address, value);
            return Ok(());
        }
        if address % 2 == 1 {
            return store_odd(address);
        }
        self.store_device(address, u16::from(value), sink)
    }

    // Stores a word in the device register at an even address past the end of memory; traps through 4 if there is none. In the console's
    // two status registers only bit 6 is stored, the receiver's buffer ignores writes, the transmitter's buffer sends the low byte, and
    // the processor status becomes the low byte, but keeps its T. Stops if the output failed or accepted nothing.
    #[tactic(auto, using(crate::proofs::Dialogues::dialogues), unfolding(crate::specs::Access::store_device))]
    #[cold]
    #[inline(never)]
    fn store_device<S: Sink>(&mut self, address: u16, value: u16, sink: &mut S) -> Result<(), Abort>
        ensures { Does (store_device address value self.old) (output_alone (S.text sink.old) (S.faults sink.old))
            (output_alone (S.text sink.new) (S.faults sink.new)) (result, self.new) }
    {
        match device_at(address) {
            Some(DeviceRegister::ReceiverStatus) => self.receiver.is_enabled = value / 0o100 % 2
                == 1,
            Some(DeviceRegister::ReceiverBuffer) => {}
            Some(DeviceRegister::TransmitterStatus) => self.transmitter.is_enabled = value / 0o100
                % 2
                == 1,
            Some(DeviceRegister::TransmitterBuffer) => return self.send((value % 256) as u8, sink),
            Some(DeviceRegister::ProcessorStatus) => self.status = self.status.written(value),
            None => return Err(Abort::Traps(Vector::BusError)),
        }
        Ok(())
    }

    // Sends a byte to the output at once, so that a prompt shows before input is asked for. If the output fails or accepts nothing,
    // the machine stops.
    #[tactic(auto, using(crate::proofs::Dialogues::sends_at_once), unfolding(crate::specs::Access::send))]
    fn send<S: Sink>(&mut self, byte: u8, sink: &mut S) -> Result<(), Abort>
        ensures { Does (send byte self.old) (output_alone (S.text sink.old) (S.faults sink.old))
            (output_alone (S.text sink.new) (S.faults sink.new)) (result, self.new) }
    {
        if put_byte(sink, byte) {
            Ok(())
        } else {
            Err(Abort::Stops(LastingStop::OutputFault))
        }
    }
}

// Writes one byte to the output. Returns whether the output accepted it: false if it failed or accepted nothing.
#[tactic(auto, using(crate::proofs::Dialogues::accepts_by_count))]
fn put_byte<S: Sink>(sink: &mut S, byte: u8) -> bool
    ensures { DialogueAccepts (output_of (S.text sink.old) (S.faults sink.old)) (output_of (S.text sink.new) (S.faults sink.new))
        byte result }
{
    match sink.put(&[byte]) {
        Ok(count) => count != 0,
        Err(_) => false,
    }
}

// The byte at an odd address past the end of memory: the high byte of a device register, which is 0. Traps through 4 if there is no
// register.
#[inline(always)]
fn load_odd(address: u16) -> Result<u16, Abort>
    ensures value { result ≡ load_odd address }
    ensures byte { IfOk result (λ value. value < 256) }
{
    match device_at(address - address % 2) {
        Some(_) => Ok(0),
        None => Err(Abort::Traps(Vector::BusError)),
    }
}

// Stores a byte at an odd address past the end of memory: the high byte of a device register ignores it. Traps through 4 if there is no
// register.
#[inline(always)]
fn store_odd(address: u16) -> Result<(), Abort>
    ensures { result ≡ store_odd address }
{
    match device_at(address - address % 2) {
        Some(_) => Ok(()),
        None => Err(Abort::Traps(Vector::BusError)),
    }
}
