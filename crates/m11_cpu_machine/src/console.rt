//! The registers of the console, and the addresses of all device registers. (SIMH PDP-11 manual, console terminal.)

ghost use Rattle.std.specs.Prelude.{◌≡◌, ◌<◌};
ghost use Rattle.m11_cpu_machine.specs.Console.{device_at, is_waiting, receiver_bits, transmitter_bits};

/// The receiver, which gets bytes from the keyboard.
#[derive(Clone, Copy)]
pub struct Receiver {
    /// The last byte that arrived.
    pub byte: u8,
    /// Whether a byte has arrived and hasn't been read.
    pub is_done: bool,
    /// Bit 6 of its status, interrupt enable, which is stored but raises no interrupt.
    pub is_enabled: bool,
    /// Whether the input has ended. Then it isn't asked again.
    pub has_ended: bool,
}

/// The transmitter, which sends bytes to the printer. It is always ready.
#[derive(Clone, Copy)]
pub struct Transmitter {
    /// Bit 6 of its status, interrupt enable, which is stored but raises no interrupt.
    pub is_enabled: bool,
}

/// A register of the console, or the processor status word, which has an address too. The addresses are octal.
#[derive(Clone, Copy)]
pub enum DeviceRegister {
    /// 177560: done in bit 7, interrupt enable in bit 6.
    ReceiverStatus,
    /// 177562: the last byte that arrived.
    ReceiverBuffer,
    /// 177564: ready in bit 7, interrupt enable in bit 6.
    TransmitterStatus,
    /// 177566: a byte written here is sent; it reads as 0.
    TransmitterBuffer,
    /// 177776: the processor status word.
    ProcessorStatus,
}

/// The device register at an even address; None if there is none.
#[cold]
#[inline(never)]
pub(crate) fn device_at(address: u16) -> Option<DeviceRegister>
    ensures { result ≡ device_at address }
{
    match address {
        0o177560 => Some(DeviceRegister::ReceiverStatus),
        0o177562 => Some(DeviceRegister::ReceiverBuffer),
        0o177564 => Some(DeviceRegister::TransmitterStatus),
        0o177566 => Some(DeviceRegister::TransmitterBuffer),
        0o177776 => Some(DeviceRegister::ProcessorStatus),
        _ => None,
    }
}

impl Receiver {
    /// Whether to ask for a byte: there is no unread one, and the input has not ended.
    pub fn is_waiting(self) -> bool
        ensures { result ≡ is_waiting self }
    {
        !self.is_done && !self.has_ended
    }

    /// The receiver's status: bit 7 is set if a byte has arrived and hasn't been read, bit 6 if interrupts are enabled.
    pub fn status(self) -> u16
        ensures bits { result ≡ receiver_bits self }
        ensures byte { result < 256 }
    {
        u16::from(self.is_done) * 0o200 + u16::from(self.is_enabled) * 0o100
    }
}

impl Transmitter {
    /// The transmitter's status: bit 7 is always set, bit 6 if interrupts are enabled.
    pub fn status(self) -> u16
        ensures bits { result ≡ transmitter_bits self }
        ensures byte { result < 256 }
    {
        0o200 + u16::from(self.is_enabled) * 0o100
    }
}
