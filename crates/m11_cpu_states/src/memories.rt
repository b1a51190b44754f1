//! The bytes of memory in a state.

ghost use Rattle.std.specs.Prelude.{◌≡◌, ◌++◌, IfErr, OnOk, length};
ghost use Rattle.m11_cpu_states.specs.declared.refusal.StateFault.TheVariants.{NoMemory};

use crate::refusal::StateFault;
use m11_cpu_machine::Memory;

/// Appends the bytes of memory. Error: `NoMemory`.
pub(crate) fn put_memory(to: &mut Vec<u8>, memory: &Memory) -> Result<(), StateFault>
    ensures all { OnOk result (to.new.items ≡ to.old.items ++ memory.now) }
    ensures refused { IfErr result (λ fault. fault ≡ NoMemory) }
{
    'bytes: for address in 0..u16::MAX {
        if !memory.holds(address) {
            return Ok(());
        }
        to.push(memory.byte(address))?;
    }
    // No memory has so many bytes.
    Err(StateFault::NoMemory)
}

/// Stores these bytes in memory, from address 0 on: as many as the memory has.
pub(crate) fn fill_memory(memory: &mut Memory, bytes: &[u8], size: u16)
    requires memory { length memory.old ≡ size }
    requires bytes { length bytes.now ≡ size }
    ensures { memory.new ≡ bytes.now }
{
    'bytes: for address in 0..size {
        memory.set_byte(address, bytes[usize::from(address)]);
    }
}
