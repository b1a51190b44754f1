//! The loop of quick steps. The machine is moved into it, and its registers and program counter are passed separately, so that
//! each step finds what it needs in registers of the host.

ghost use Rattle.std.specs.Prelude.{◌≡◌, ◌≤◌, IfSome, None};
ghost use Rattle.m11_base.specs.declared.operand.Register.TheVariants.{Pc};
ghost use Rattle.m11_cpu_machine.specs.Dialogue.{Comes};
ghost use Rattle.m11_cpu_machine.specs.Machine.{register_of};
ghost use Rattle.m11_cpu_machine.specs.Steps.{step};
ghost use Rattle.m11_cpu_machine.specs.declared.stop.Turn.TheVariants.{Next};
ghost use Rattle.m11_cpu_quick.specs.Beside.{shown};
ghost use Rattle.m11_cpu_quick.specs.Quick.{QuickRuns, StepsAtOnce};

use crate::arms::{Code, act};
use crate::kind_table::KindTable;
use crate::operands::{following, hold};
use crate::rarer::rarer;
use core::mem;
use m11_base::{Register, Size};
use m11_cpu_machine::Machine;

/// Makes at most `limit` quick steps, ends before the first step that isn't quick, and returns the number of steps made. The loop also ends
/// at an instruction whose kind hasn't been found yet, and that kind is then entered in `kinds`. No step is made if the machine has a
/// lasting stop or T is set.
#[tactic(auto, using(crate::proofs::QuickDone::no_steps))]
pub fn quick_steps(machine: &mut Machine, kinds: &mut KindTable, limit: u32) -> u32
    ensures made { StepsAtOnce result machine.old machine.new }
    ensures most { result ≤ limit }
{
    if let Some(_) = machine.stopped {
        return 0;
    }
    if machine.status.trace {
        return 0;
    }
    let known: &KindTable = kinds;
    let made = mem::replace_with(
        machine,
        limit,
        |machine, limit| steps_of(machine, known, limit),
    );
    // a word whose kind hasn't been found yet ends the loop; the kind is found here, for the next call
    kinds.look_at(word_at_counter(machine));
    made
}

// The word at the program counter; 0 if the program counter is odd or past the end of memory.
fn word_at_counter(machine: &Machine) -> u16 {
    match following(machine, Size::Word, machine.register(Register::Pc)) {
        Some(word) => word,
        None => 0,
    }
}

// The loop itself. It makes sequences of steps by kind, which are the steps of instructions with a kind of their own, and a single step of
// a rarer instruction after each sequence. It ends after `limit` steps, or before the first step that isn't quick. Returns the machine
// after the steps, and their number.
// speed: the steps by kind have an inner loop of their own, so that the compiler keeps what a rarer step needs in memory only around
// that step, and not during the steps by kind.
#[inline(never)]
fn steps_of(start: Machine, kinds: &KindTable, limit: u32) -> (Machine, u32)
    requires { QuickRuns start }
    ensures made { StepsAtOnce result.1 start result.0 }
    ensures most { result.1 ≤ limit }
{
    let mut registers = start.registers;
    let mut next = start.register(Register::Pc);
    let mut machine = start;
    let mut done = 0;
    'steps: for _ in 0..limit {
        let (made, after) = plain_steps(&mut machine, kinds, &mut registers, next, limit - done);
        done += made;
        next = after;
        if done == limit {
            return (put_back(machine, registers, next), done);
        }
        match rarer_step(&mut machine, kinds, &mut registers, next) {
            Some(after) => next = after,
            None => return (put_back(machine, registers, next), done),
        }
        done += 1;
    }
    (put_back(machine, registers, next), done)
}

// Makes at most `limit` steps by kind, and ends before the first step that `quick_step` can't make. Returns the number of steps made, and
// the program counter after them.
#[tactic(auto, using(crate::proofs::QuickDone::no_steps))]
#[inline(always)]
fn plain_steps(
    machine: &mut Machine,
    kinds: &KindTable,
    registers: &mut [u16; 8],
    counter: u16,
    limit: u32,
) -> (u32, u16)
    requires { QuickRuns machine.old }
    ensures made { StepsAtOnce result.0 (shown counter registers.old machine.old) (shown result.1 registers.new machine.new) }
    ensures most { result.0 ≤ limit }
    ensures runs { QuickRuns machine.new }
{
    let mut next = counter;
    'plain: for made in 0..limit {
        match quick_step(machine, kinds, registers, next) {
            Some(after) => next = after,
            None => return (made, next),
        }
    }
    (limit, next)
}

// Makes one step by kind, and returns the program counter after it; or None, with nothing changed, if an access would involve a device or
// a trap, if the instruction has no kind of its own, or if its kind hasn't been found yet.
#[inline(always)]
fn quick_step(
    machine: &mut Machine,
    kinds: &KindTable,
    registers: &mut [u16; 8],
    counter: u16,
) -> Option<u16>
    requires { QuickRuns machine.old }
    ensures some { IfSome result (λ after.
        step (shown counter registers.old machine.old) ≡ Comes (Next, shown after registers.new machine.new)) }
    ensures runs { QuickRuns machine.new }
    ensures none { result ≡ None → machine.new ≡ machine.old }
    ensures registers { result ≡ None → registers.new ≡ registers.old }
{
    let word = following(machine, Size::Word, counter)?;
    let code = Code {
        word,
        counter: counter.wrapping_add(2),
    };
    let after = act(machine, kinds.kind(word), code, registers)?;
    Some(after)
}

// Makes one step of an instruction without a kind of its own, and returns the program counter after it; or None, with nothing changed,
// if the instruction is left to the general step, or if the kind of its word hasn't been found yet. This function is also called after
// the arm of a kind has returned None, for example because of an access to the console, and then returns None too.
// speed: a call with a reference to the machine would keep it in memory during the whole loop, so everything is inlined.
#[inline(always)]
fn rarer_step(
    machine: &mut Machine,
    kinds: &KindTable,
    registers: &mut [u16; 8],
    counter: u16,
) -> Option<u16>
    requires { QuickRuns machine.old }
    ensures some { IfSome result (λ after.
        step (shown counter registers.old machine.old) ≡ Comes (Next, shown after registers.new machine.new)) }
    ensures runs { QuickRuns machine.new }
    ensures none { result ≡ None → machine.new ≡ machine.old }
    ensures registers { result ≡ None → registers.new ≡ registers.old }
{
    let word = following(machine, Size::Word, counter)?;
    let code = Code {
        word,
        counter: counter.wrapping_add(2),
    };
    if !kinds.is_looked_at(word) {
        return None;
    }
    let after = rarer(machine, code, registers)?;
    Some(after)
}

// The machine with these registers and this program counter.
#[inline(always)]
fn put_back(machine: Machine, registers: [u16; 8], counter: u16) -> Machine
    ensures { result ≡ shown counter registers machine }
{
    let mut held = registers;
    hold(Register::Pc, counter, &mut held);
    let mut machine = machine;
    machine.registers = held;
    machine
}
