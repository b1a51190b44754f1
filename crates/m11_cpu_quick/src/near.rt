//! Plain memory, which is read and written without a device or a trap, and the console's status registers.

ghost use Rattle.std.specs.Prelude.{◌≡◌, ◌<◌, ◌==◌, ℕ, List, IfSome, true, false};
ghost use Rattle.m11_cpu_arithmetic.specs.Sizes.{size_limit};
ghost use Rattle.m11_base.specs.declared.operand.Size.{Size};
ghost use Rattle.m11_cpu_machine.specs.Addressing.{fetch};
ghost use Rattle.m11_cpu_machine.specs.declared.addressing.OperandLocation.TheVariants.{InMemory};
ghost use Rattle.m11_cpu_quick.specs.Beside.{shown, stored};
ghost use Rattle.m11_cpu_quick.specs.Near.{Yields, is_plain, plain_at};

use m11_base::Size;
use m11_cpu_machine::Machine;

/// Whether a word or byte at this address can be read and written without a device or a trap: it lies in memory, and a word has an even
/// address.
#[inline(always)]
pub(crate) fn is_plain(machine: &Machine, size: Size, address: u16) -> bool
    ensures { result ≡ is_plain size address machine.now.memory }
{
    match size {
        Size::Word => machine.memory.holds_word(address),
        Size::Byte => machine.memory.holds(address),
    }
}

/// The word or byte at an address for which `is_plain` holds.
#[inline(always)]
pub(crate) fn plain(machine: &Machine, size: Size, address: u16) -> u16
    requires { is_plain size address machine.now.memory ≡ true }
    ensures value { result ≡ plain_at size address machine.now.memory }
    ensures fits { result < size_limit size }
{
    match size {
        Size::Word => machine.memory.word(address),
        Size::Byte => u16::from(machine.memory.byte(address)),
    }
}

/// Stores a word, or its low byte, at an address for which `is_plain` holds. The processor status word is never there.
#[inline(always)]
pub(crate) fn store_plain(machine: &mut Machine, size: Size, address: u16, value: u16)
    requires { is_plain size address machine.old.memory ≡ true }
    ensures stored { machine.new ≡ stored size address value machine.old }
    ensures status { (address == 0o177776) ≡ false }
{
    match size {
        Size::Word => machine.memory.set_word(address, value),
        Size::Byte => machine.memory.set_byte(address, (value % 256) as u8),
    }
}

/// The status of the console's receiver or transmitter whose status register is at this address; None at any other address, or if the
/// receiver would have to ask for a byte.
#[inline(always)]
pub(crate) fn status_at(machine: &Machine, address: u16) -> Option<u16>
    ensures value { IfSome result (λ value. (size : Size) (counter : ℕ) (registers : List ℕ)
        → Yields (fetch (InMemory address) size) (shown counter registers machine.now) value (shown counter registers machine.now)) }
    ensures byte { IfSome result (λ value. value < 256) }
{
    if machine.memory.holds(address) {
        return None;
    }
    if address == 0o177564 {
        return Some(machine.transmitter.status());
    }
    if address != 0o177560 || machine.receiver.is_waiting() {
        return None;
    }
    Some(machine.receiver.status())
}
