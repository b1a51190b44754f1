//! States: the bytes of a machine, 28 for all but its memory, and then those of memory.
//!
//! At 0: R0 to R5, SP and PC, each with its low byte first. At 16: the priority, T, N, Z, V and C. At 22: the byte that the receiver holds,
//! whether it is unread, whether the receiver's interrupts are enabled, and whether the input has ended. At 26: whether the transmitter's
//! interrupts are enabled. At 27: the number of the lasting stop, or 0. What is true is 1, and what isn't is 0.

ghost use Rattle.std.specs.Prelude.{◌≡◌, ℕ, [], ◌∷◌, ◌++◌, IfErr, IfOk, MatchOption};
ghost use Rattle.m11_cpu_machine.specs.Machine.{new_machine};
ghost use Rattle.m11_cpu_machine.specs.Status.{bit};
ghost use Rattle.m11_cpu_machine.specs.declared.console.Receiver.{Receiver};
ghost use Rattle.m11_cpu_machine.specs.declared.status.ProcessorStatus.{ProcessorStatus};
ghost use Rattle.m11_cpu_states.specs.States.{HasWords, IsState, lasting_number, receiver_bytes, state_at_start, state_of, status_bytes};
ghost use Rattle.m11_cpu_states.specs.declared.refusal.StateFault.TheVariants.{Malformed, NoMemory};

use crate::heads::{Head, byte_of, flag, head_of, number_of, put_registers, stop_of};
use crate::memories::{fill_memory, put_memory};
use crate::refusal::StateFault;
use m11_base::ConditionCodes;
use m11_cpu_machine::{Machine, Memory, ProcessorStatus, Receiver, Transmitter};
use std::alloc::Global;

// So many bytes come before those of memory.
const HEAD: usize = 28;

/// The number of words of memory in a state of so many bytes; None if no state has so many.
pub fn words_of(length: usize) -> Option<u16>
    ensures { MatchOption result ((words : ℕ) → HasWords length words → ⊥) (HasWords length) }
{
    if length < HEAD || length % 2 == 1 {
        return None;
    }
    let words = (length - HEAD) / 2;
    if words < 4_096 || 28_672 < words {
        return None;
    }
    Some(words as u16)
}

/// The bytes of a machine's state.
///
/// Error: `NoMemory`.
pub fn state_of(alloc: Global, machine: &Machine) -> Result<Vec<u8>, StateFault>
    ensures state { IfOk result (λ state. state.items ≡ state_of machine.now) }
    ensures refused { IfErr result (λ fault. fault ≡ NoMemory) }
{
    let mut state = Vec::new(alloc);
    put_registers(&mut state, &machine.registers)?;
    state.extend_from_slice(&rest_of_head(machine))?;
    put_memory(&mut state, &machine.memory)?;
    Ok(state)
}

// The bytes of a state between those of the registers and those of memory.
fn rest_of_head(machine: &Machine) -> [u8; 12]
    ensures { result ≡ status_bytes machine.now.status ++ (receiver_bytes machine.now.receiver
        ++ (bit machine.now.transmitter.is_enabled ∷ lasting_number machine.now.stopped ∷ [])) }
{
    [
        machine.status.priority,
        byte_of(machine.status.trace),
        byte_of(machine.status.codes.negative),
        byte_of(machine.status.codes.zero),
        byte_of(machine.status.codes.overflow),
        byte_of(machine.status.codes.carry),
        machine.receiver.byte,
        byte_of(machine.receiver.is_done),
        byte_of(machine.receiver.is_enabled),
        byte_of(machine.receiver.has_ended),
        byte_of(machine.transmitter.is_enabled),
        number_of(machine.stopped),
    ]
}

/// The bytes of the state of a machine that has these registers and this memory, and is otherwise new.
///
/// Error: `NoMemory`.
pub fn state_at_start(
    alloc: Global,
    registers: &[u16; 8],
    memory: &Memory,
) -> Result<Vec<u8>, StateFault>
    ensures state { IfOk result (λ state. state.items ≡ state_at_start registers.now memory.now) }
    ensures refused { IfErr result (λ fault. fault ≡ NoMemory) }
{
    let mut state = Vec::new(alloc);
    put_registers(&mut state, registers)?;
    state.extend_from_slice(&[0; 12])?;
    put_memory(&mut state, memory)?;
    Ok(state)
}

/// The machine of a state.
///
/// Errors: `Malformed`, if the bytes are no state; `NoMemory`.
pub fn machine_of(alloc: Global, state: &[u8]) -> Result<Machine, StateFault>
    ensures machine { IfOk result (λ machine. state_of machine ≡ state.now) }
    ensures malformed { IfErr result (λ fault. (fault ≡ Malformed) → IsState state.now → ⊥) }
{
    let Some(words) = words_of(state.len()) else {
        return Err(StateFault::Malformed);
    };
    let mut machine = Machine::new(alloc, words)?;
    let Some(head) = head_of(state) else {
        return Err(StateFault::Malformed);
    };
    if head.memory.len() != 2 * usize::from(words) {
        return Err(StateFault::Malformed);
    }
    fill_memory(&mut machine.memory, head.memory, 2 * words);
    let registers = head.registers;
    machine.registers = registers;
    machine.status = status_of(&head)?;
    machine.receiver = receiver_of(&head)?;
    machine.transmitter = Transmitter {
        is_enabled: flag(head.is_printing_enabled)?,
    };
    machine.stopped = stop_of(head.stop)?;
    Ok(machine)
}

// The status that a head says. Error: `Malformed`, if it says none.
fn status_of(head: &Head<'_>) -> Result<ProcessorStatus, StateFault>
    ensures malformed { IfErr result (λ fault. (fault ≡ Malformed) × ((status : ProcessorStatus) → status_bytes status ≡ head.now.priority
        ∷ head.now.trace ∷ head.now.negative ∷ head.now.zero ∷ head.now.overflow ∷ head.now.carry ∷ [] → ⊥)) }
    ensures status { IfOk result (λ status. status_bytes status ≡ head.now.priority ∷ head.now.trace ∷ head.now.negative ∷ head.now.zero
        ∷ head.now.overflow ∷ head.now.carry ∷ []) }
{
    Ok(ProcessorStatus {
        priority: head.priority,
        trace: flag(head.trace)?,
        codes: ConditionCodes {
            negative: flag(head.negative)?,
            zero: flag(head.zero)?,
            overflow: flag(head.overflow)?,
            carry: flag(head.carry)?,
        },
    })
}

// The receiver that a head says. Error: `Malformed`, if it says none.
fn receiver_of(head: &Head<'_>) -> Result<Receiver, StateFault>
    ensures malformed { IfErr result (λ fault. (fault ≡ Malformed) × ((receiver : Receiver) → receiver_bytes receiver ≡ head.now.byte
        ∷ head.now.is_done ∷ head.now.is_enabled ∷ head.now.has_ended ∷ [] → ⊥)) }
    ensures receiver { IfOk result (λ receiver. receiver_bytes receiver ≡ head.now.byte ∷ head.now.is_done ∷ head.now.is_enabled
        ∷ head.now.has_ended ∷ []) }
{
    Ok(Receiver {
        byte: head.byte,
        is_done: flag(head.is_done)?,
        is_enabled: flag(head.is_enabled)?,
        has_ended: flag(head.has_ended)?,
    })
}
