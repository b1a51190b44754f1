//! A machine whose state belongs to the caller: a tape is loaded into it, and it makes some steps at a time.

ghost use Rattle.std.specs.Prelude.{◌≡◌, ◌<◌, ◌≤◌, IfOk, IfSome, MatchOption};
ghost use Rattle.m11_cpu_machine.specs.Memory.{least_words, most_words};
ghost use Rattle.m11_web.specs.Running.{Fails, FailsToLoad, GoesOn, Loads, Starts, Tells};

use crate::answers::hand_over;
use crate::refusal::Refusal;
use m11_base::MemoryFeed;
use m11_cpu::Machine;
use m11_cpu_states::{Slice, make_slice, state_at_start, words_of};
use std::alloc::Global;

/// Loads a tape into a new machine. `state` gets the machine, with the program counter at the tape's start; the length of `state` says how
/// much memory the machine has. Returns the start. An odd start starts nothing: then no steps are to be made.
///
/// Returns 65,536 if the tape can't be loaded, and 65,537 if no state is as long as `state`, or memory was refused. Nothing is written then.
#[unsafe(no_mangle)]
pub extern "C" fn m11_load(alloc: Global, tape: &[u8], state: &mut [u8]) -> u32
    ensures loads { result < 65536 → Loads tape.now state.old state.new result }
    ensures fails { result ≡ 65536 → FailsToLoad tape.now state.old }
    ensures refuses { 65536 ≤ result → state.new ≡ state.old }
{
    let Some(words) = words_of(state.len()) else {
        return 65_537;
    };
    match load_tape(alloc, tape, words) {
        Ok(Some(loaded)) => {
            if loaded.state.len() != state.len() {
                return 65_537;
            }
            state.copy_from_slice(loaded.state.as_slice());
            u32::from(loaded.start)
        }
        Ok(None) => 65_536,
        Err(_) => 65_537,
    }
}

// What a load leaves.
#[derive(Drop)]
struct Loaded {
    // Where the program starts.
    start: u16,
    // The state of the machine, with its program counter there.
    state: Vec<u8>,
}

// Loads a tape into a new machine with so many words of memory; None if it can't be loaded. Error: `NoMemory`.
fn load_tape(alloc: Global, tape: &[u8], words: u16) -> Result<Option<Loaded>, Refusal>
    requires least { least_words ≤ words }
    requires most { words ≤ most_words }
    ensures { IfOk result (λ some. MatchOption some (Fails words tape.now)
        (λ loaded. Starts words tape.now loaded.start loaded.state.items)) }
{
    let mut feed = MemoryFeed::new(tape);
    let mut machine = Machine::new(alloc, words)?;
    match machine.load(&mut feed) {
        Ok(start) => {
            machine.start_at(start.address);
            let state = state_at_start(alloc, machine.registers(), machine.memory())?;
            Ok(Some(Loaded {
                start: start.address,
                state,
            }))
        }
        Err(_) => Ok(None),
    }
}

/// What a slice of a run tells its caller, beside the state and what was printed.
#[repr(C)]
#[derive(Drop, Clone, Copy)]
pub struct Told {
    /// The number of the stop: 2 if the machine can go on.
    pub stop: u32,
    /// The number of steps made.
    pub steps: u32,
    /// 1 if the next step asks for a byte that isn't typed yet, and otherwise 0.
    pub waits: u32,
    /// How many of the bytes typed weren't read.
    pub unread: u32,
    /// How many bytes were printed.
    pub printed: u32,
}

/// Makes at most `limit` steps of the machine in `state`, which then has the machine after them. `typed` is what the console can read, and
/// `is_over` says whether no byte will follow it. A step that asks for a byte which isn't typed yet isn't made. `printed` gets what the
/// program prints, and `told` the rest. Returns 1.
///
/// Returns 0, and writes nothing, if `state` is no state, memory was refused, or `printed` has no room for what the program prints.
#[unsafe(no_mangle)]
pub extern "C" fn m11_go_on(
    alloc: Global,
    state: &mut [u8],
    typed: &[u8],
    is_over: bool,
    limit: u32,
    printed: &mut [u8],
    told: &mut Told,
) -> u32
    ensures goes { 0 < result → GoesOn is_over limit typed.now state.old state.new printed.old printed.new told.new }
    ensures keeps_state { result ≡ 0 → state.new ≡ state.old }
    ensures keeps_printed { result ≡ 0 → printed.new ≡ printed.old }
    ensures keeps_told { result ≡ 0 → told.new ≡ told.old }
{
    let Ok(slice) = make_slice(alloc, state, typed, is_over, limit) else {
        return 0;
    };
    let Some(tells) = told_of(&slice) else {
        return 0;
    };
    if slice.state.len() != state.len() || printed.len() < slice.printed.len() {
        return 0;
    }
    state.copy_from_slice(slice.state.as_slice());
    hand_over(slice.printed.as_slice(), printed);
    *told = tells;
    1
}

// What a slice tells; None if it read or printed more bytes than 32 bits can count.
fn told_of(slice: &Slice) -> Option<Told>
    ensures { IfSome result (λ told. Tells slice.now told) }
{
    let Ok(unread) = u32::try_from(slice.unread.len()) else {
        return None;
    };
    let Ok(printed) = u32::try_from(slice.printed.len()) else {
        return None;
    };
    Some(Told {
        stop: u32::from(slice.stop.number()),
        steps: slice.steps,
        waits: u32::from(slice.waits),
        unread,
        printed,
    })
}
