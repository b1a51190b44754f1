//! The bytes of a state before those of memory: of the registers, and of the status, the console and the stop.

ghost use Rattle.std.specs.Prelude.{◌≡◌, ◌<◌, ◌++◌, ◌∷◌, ◌%◌, ◌/◌, Bool, IfErr, IfOk, IfSome, None, OnOk, Option, length};
ghost use Rattle.m11_cpu_machine.specs.Memory.{bytes_of};
ghost use Rattle.m11_cpu_machine.specs.Status.{bit};
ghost use Rattle.m11_cpu_machine.specs.declared.stop.LastingStop.{LastingStop};
ghost use Rattle.m11_cpu_states.specs.States.{lasting_number};
ghost use Rattle.m11_cpu_states.specs.declared.refusal.StateFault.TheVariants.{Malformed, NoMemory};

use crate::refusal::StateFault;
use m11_cpu_machine::LastingStop;

/// Appends the bytes of the registers, the low byte of each first. Error: `NoMemory`.
#[tactic(auto, using(crate::proofs::StateBytes::one_more_word))]
pub(crate) fn put_registers(to: &mut Vec<u8>, registers: &[u16; 8]) -> Result<(), StateFault>
    ensures all { OnOk result (to.new.items ≡ to.old.items ++ bytes_of registers.now) }
    ensures refused { IfErr result (λ fault. fault ≡ NoMemory) }
{
    for register in registers {
        to.extend_from_slice(&[(*register % 256) as u8, (*register / 256) as u8])?;
    }
    Ok(())
}

/// What the bytes of a state say, one by one; and the bytes of memory behind them.
#[derive(Drop, Clone, Copy)]
pub(crate) struct Head<'a> {
    /// R0 to R5, SP and PC.
    pub(crate) registers: [u16; 8],
    /// The priority.
    pub(crate) priority: u8,
    /// T, N, Z, V and C, each 0 or 1.
    pub(crate) trace: u8,
    pub(crate) negative: u8,
    pub(crate) zero: u8,
    pub(crate) overflow: u8,
    pub(crate) carry: u8,
    /// The byte that the receiver holds; whether it is unread, interrupts are enabled, and the input has ended.
    pub(crate) byte: u8,
    pub(crate) is_done: u8,
    pub(crate) is_enabled: u8,
    pub(crate) has_ended: u8,
    /// Whether the transmitter's interrupts are enabled.
    pub(crate) is_printing_enabled: u8,
    /// The number of the lasting stop, or 0.
    pub(crate) stop: u8,
    /// The bytes of memory.
    pub(crate) memory: &'a [u8],
}

/// The head of a state; None if the bytes are too few.
pub(crate) fn head_of(state: &[u8]) -> Option<Head<'_>>
    ensures few { result ≡ None → length state.now < 28 }
    ensures eight { IfSome result (λ head. length head.registers ≡ 8) }
    ensures parts { IfSome result (λ head. state.now ≡ bytes_of head.registers ++ (head.priority ∷ head.trace ∷ head.negative ∷ head.zero
        ∷ head.overflow ∷ head.carry ∷ head.byte ∷ head.is_done ∷ head.is_enabled ∷ head.has_ended ∷ head.is_printing_enabled
        ∷ head.stop ∷ head.memory.now)) }
{
    let (registers, rest) = registers_of(state)?;
    match rest {
        [a, b, c, d, e, f, g, h, i, j, k, l, memory @ ..] => Some(Head {
            registers,
            priority: *a,
            trace: *b,
            negative: *c,
            zero: *d,
            overflow: *e,
            carry: *f,
            byte: *g,
            is_done: *h,
            is_enabled: *i,
            has_ended: *j,
            is_printing_enabled: *k,
            stop: *l,
            memory,
        }),
        _ => None,
    }
}

// The registers at the front of a state, and what follows them; None if the bytes are too few.
fn registers_of(state: &[u8]) -> Option<([u16; 8], &[u8])>
    ensures few { result ≡ None → length state.now < 16 }
    ensures eight { IfSome result (λ parts. length parts.0 ≡ 8) }
    ensures parts { IfSome result (λ parts. state.now ≡ bytes_of parts.0 ++ parts.1.now) }
{
    match state {
        [a, b, c, d, e, f, g, h, i, j, k, l, m, n, o, p, rest @ ..] => {
            let registers = [
                word(*a, *b),
                word(*c, *d),
                word(*e, *f),
                word(*g, *h),
                word(*i, *j),
                word(*k, *l),
                word(*m, *n),
                word(*o, *p),
            ];
            Some((registers, rest))
        }
        _ => None,
    }
}

// The word of these two bytes.
fn word(low: u8, high: u8) -> u16
    ensures low { result % 256 ≡ low }
    ensures high { result / 256 ≡ high }
{
    u16::from(low) + 256 * u16::from(high)
}

/// The byte of a flag: 0 or 1.
pub(crate) fn byte_of(flag: bool) -> u8
    ensures { result ≡ bit flag }
{
    u8::from(flag)
}

/// The flag of a byte: 0 or 1. Error: `Malformed`, for any other byte.
pub(crate) fn flag(byte: u8) -> Result<bool, StateFault>
    ensures flag { IfOk result (λ flag. byte ≡ bit flag) }
    ensures malformed { IfErr result (λ fault. (fault ≡ Malformed) × ((flag : Bool) → byte ≡ bit flag → ⊥)) }
{
    match byte {
        0 => Ok(false),
        1 => Ok(true),
        _ => Err(StateFault::Malformed),
    }
}

/// The number of a lasting stop; 0 if there is none.
pub(crate) fn number_of(stopped: Option<LastingStop>) -> u8
    ensures { result ≡ lasting_number stopped }
{
    match stopped {
        None => 0,
        Some(stop) => stop.stop().number(),
    }
}

/// The lasting stop of a number, if it isn't 0. Error: `Malformed`, if no lasting stop has it.
pub(crate) fn stop_of(number: u8) -> Result<Option<LastingStop>, StateFault>
    ensures stop { IfOk result (λ stopped. number ≡ lasting_number stopped) }
    ensures malformed { IfErr result (λ fault. (fault ≡ Malformed) × ((stopped : Option LastingStop) → number ≡ lasting_number stopped → ⊥)) }
{
    match number {
        0 => Ok(None),
        4 => Ok(Some(LastingStop::StackFault)),
        6 => Ok(Some(LastingStop::InputFault)),
        7 => Ok(Some(LastingStop::OutputFault)),
        _ => Err(StateFault::Malformed),
    }
}
