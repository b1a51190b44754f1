//! Single steps, and runs between them. Addresses in comments are octal.

use m11_base::Register::{Pc, R0, Sp};
use m11_base::{MemoryFeed, MemorySink, Register, Sink};
use m11_cpu::Stop::{Halt, StackFault, Wait};
use m11_cpu::Turn::{Next, Stopped};
use m11_cpu::{Machine, Stop, Turn};
use std::alloc::Global;
use std::process::Abort;
use std::test::Fail;

// A call, and what it returns.
#[derive(Clone, Copy)]
enum Call {
    Step(Turn),
    // A run of at most nine steps.
    Run(Stop),
}

// A fact about the machine after a call.
#[derive(Clone, Copy)]
enum Fact {
    // The word in a register.
    In(Register, u16),
    // The processor status word.
    Psw(u16),
}

// Calls on the machine of a program, each with facts that hold after it.
type Calls<'a> = &'a [(Call, &'a [Fact])];

// A program: what it shows, its tape, and calls on its machine.
type Called<'a> = (&'a str, &'a [u8], Calls<'a>);

// `HALT`, `WAIT`, `INC R0` and `HALT` at 1000, where the program starts.
#[rattlefmt::skip]
const HALTS_AND_WAITS: &[u8] = &[
    0x01, 0x00, 0x0E, 0x00, 0x00, 0x02, 0x00, 0x00, 0x01, 0x00, 0x80, 0x0A, 0x00, 0x00, 0x64,
    0x01, 0x00, 0x06, 0x00, 0x00, 0x02, 0xF7,
];

// `EMT 0` and `INC R0` at 1000, where the program starts. The stack pointer is 0.
#[rattlefmt::skip]
const TRAPS_WITHOUT_A_STACK: &[u8] = &[
    0x01, 0x00, 0x0A, 0x00, 0x00, 0x02, 0x00, 0x88, 0x80, 0x0A, 0xE1,
    0x01, 0x00, 0x06, 0x00, 0x00, 0x02, 0xF7,
];

// `MOV #1000,SP`, `MOV #20,-(SP)`, `MOV #1016,-(SP)`, `RTT`, `HALT` and `NOP` at 1000, where the program starts. The HALT is at 1016.
#[rattlefmt::skip]
const SETS_T_AT_A_HALT: &[u8] = &[
    0x01, 0x00, 0x18, 0x00, 0x00, 0x02,
    0xC6, 0x15, 0x00, 0x02, 0xE6, 0x15, 0x10, 0x00, 0xE6, 0x15, 0x0E, 0x02, 0x06, 0x00, 0x00, 0x00, 0xA0, 0x00, 0x4C,
    0x01, 0x00, 0x06, 0x00, 0x00, 0x02, 0xF7,
];

static PROGRAMS: [Called<'static>; 3] = [
    (
        "A step after HALT and WAIT goes on after them",
        HALTS_AND_WAITS,
        &[
            (Call::Step(Stopped(Halt)), &[]),
            (Call::Step(Stopped(Wait)), &[]),
            (Call::Step(Next), &[Fact::In(R0, 1)]),
            (Call::Run(Halt), &[Fact::In(Pc, 0o1010)]),
        ],
    ),
    (
        "A step after a stack fault returns it and changes nothing",
        TRAPS_WITHOUT_A_STACK,
        &[
            (Call::Step(Stopped(StackFault)), &[]),
            (Call::Step(Stopped(StackFault)), &[]),
            (
                Call::Run(StackFault),
                &[
                    Fact::In(R0, 0),
                    Fact::In(Sp, 0o177774),
                    Fact::In(Pc, 0o1002),
                ],
            ),
        ],
    ),
    (
        "T that is set at a HALT traces the instruction after it",
        SETS_T_AT_A_HALT,
        &[
            (Call::Run(Halt), &[Fact::In(Pc, 0o1020), Fact::Psw(0o20)]),
            (Call::Step(Next), &[Fact::In(Pc, 0), Fact::In(Sp, 0o774)]),
        ],
    ),
];

// A machine of 28,672 words with a tape loaded, and its program counter at the tape's transfer address.
fn machine_of(alloc: Global, tape: &[u8]) -> Result<Machine, Fail> {
    let mut machine = Machine::new(alloc, 28_672)?;
    let start = machine.load(&mut MemoryFeed::new(tape))?;
    machine.start_at(start.address);
    Ok(machine)
}

// Makes a call on a machine with an empty input, and returns whether the call returned its expected value.
fn returns<S: Sink>(machine: &mut Machine, sink: &mut S, call: Call) -> bool {
    let mut feed = MemoryFeed::new(b"");
    match call {
        Call::Step(turn) => machine.step(&mut feed, sink) == turn,
        Call::Run(stop) => machine.run(9, &mut feed, sink) == stop,
    }
}

// Checks that all these facts hold for the machine.
fn has_all(rt: &impl Abort, name: &str, machine: &Machine, facts: &[Fact]) {
    for fact in facts {
        let holds = match *fact {
            Fact::In(register, value) => machine.register(register.number()) == value,
            Fact::Psw(bits) => machine.psw() == bits,
        };
        assert!(rt; holds, "{name}");
    }
}

// Makes the calls on a machine, and checks that each returns its expected value and that its facts hold afterwards.
fn all_return<S: Sink>(
    rt: &impl Abort,
    name: &str,
    machine: &mut Machine,
    sink: &mut S,
    calls: Calls<'_>,
) {
    for (call, facts) in calls {
        assert!(rt; returns(machine, sink, *call), "{name}");
        has_all(rt, name, machine, facts);
    }
}

// Checks the calls of each row on a new machine with the row's program.
fn check_calls(rt: &(impl Abort + AllocGlobal), rows: &[Called<'_>]) -> Result<(), Fail> {
    for (name, tape, calls) in rows {
        let mut machine = machine_of(rt.alloc(), tape)?;
        let mut sink = MemorySink::new(rt.alloc());
        all_return(rt, name, &mut machine, &mut sink, calls);
        drop(sink);
        drop(machine);
    }
    Ok(())
}

#[test]
fn a_machine_that_has_stopped_may_be_stepped(rt: HostRuntime) -> Result<(), Fail> {
    check_calls(&rt, &PROGRAMS)
}
