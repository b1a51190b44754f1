//! The memory after tapes that fail, the bytes read from a tape, and runs of such tapes. Addresses in comments are octal.

use m11_base::{FuseFeed, FuseSink, MemoryFeed, WriterSink};
use m11_cpu::{LoadFault, Machine, SimDone, SimFault, Start, Stop, sim_run};
use m11_obj_blocks::TapeFault;
use std::process::Abort;
use std::test::Fail;

// `MOV #1,R0` and `HALT` at 1000, where the program starts: a block of 13 bytes, and the transfer block. No load reads the four bytes
// after the transfer block.
const HALTS: [u8; 24] = [
    0o001, 0o000, 0o014, 0o000, 0o000, 0o002, 0o300, 0o025, 0o001, 0o000, 0o000, 0o000, 0o033,
    0o001, 0o000, 0o006, 0o000, 0o000, 0o002, 0o367, 0o001, 0o001, 0o001, 0o001,
];

// `TSTB @#177560`, `BPL 1000`, `MOVB @#177562,R0`, `MOVB R0,@#177566` and `HALT` at 1000, where the program starts: it sends back the byte
// that it reads. A block of 23 bytes, and the transfer block.
const ECHO: [u8; 30] = [
    0o001, 0o000, 0o026, 0o000, 0o000, 0o002, 0o337, 0o213, 0o160, 0o377, 0o375, 0o200, 0o300,
    0o227, 0o162, 0o377, 0o037, 0o220, 0o166, 0o377, 0o000, 0o000, 0o245, 0o001, 0o000, 0o006,
    0o000, 0o000, 0o002, 0o367,
];

// `MOV #1,R0` and `HALT` at 1000, where the program starts, in a block with a wrong checksum.
const HALTS_WITH_A_WRONG_SUM: [u8; 20] = [
    0o001, 0o000, 0o014, 0o000, 0o000, 0o002, 0o300, 0o025, 0o001, 0o000, 0o000, 0o000, 0o034,
    0o001, 0o000, 0o006, 0o000, 0o000, 0o002, 0o367,
];

// The bytes 1 and 2 for 157777 and 160000, and a wrong checksum: the second byte lies past the largest memory.
const PAST_THE_MEMORY: [u8; 9] = [
    0o001, 0o000, 0o010, 0o000, 0o377, 0o337, 0o001, 0o002, 0o027,
];

// The bytes 1 and 0 for 177560 and 177561, the addresses of a register of the console.
const ONTO_THE_CONSOLE: [u8; 9] = [
    0o001, 0o000, 0o010, 0o000, 0o160, 0o377, 0o001, 0o000, 0o207,
];

// The octal byte 101 for 020000, the first address past 4,096 words. The transfer address is 020000 too.
const PAST_4096_WORDS: [u8; 15] = [
    0o001, 0o000, 0o007, 0o000, 0o000, 0o040, 0o101, 0o227, 0o001, 0o000, 0o006, 0o000, 0o000,
    0o040, 0o331,
];

// A load: what it shows, a tape, how many bytes of the tape the feed has, how many calls of the feed succeed, the size of the memory in
// words, the outcome, and words in memory afterwards, each with its address. A call that succeeds returns a byte, or the end.
#[derive(Clone, Copy)]
struct Load<'a> {
    shows: &'a str,
    tape: &'a [u8],
    given: usize,
    calls: u64,
    words: u16,
    outcome: Result<Start, LoadFault>,
    leaves: &'a [(u16, u16)],
}

// Loads of tapes that fail, and of one that doesn't: memory holds the bytes before the fault, and the feed isn't called again after the
// call that decides the outcome.
static LOADS: [Load<'static>; 8] = [
    Load {
        shows: "a whole tape, and nothing after it",
        tape: &HALTS,
        given: 24,
        calls: 20,
        words: 4_096,
        outcome: Ok(Start { address: 0o1000 }),
        leaves: &[(0o1000, 0o012700), (0o1002, 0o000001)],
    },
    Load {
        shows: "a wrong sum",
        tape: &HALTS_WITH_A_WRONG_SUM,
        given: 20,
        calls: 13,
        words: 4_096,
        outcome: Err(LoadFault::Tape(TapeFault::BadSum)),
        leaves: &[(0o1000, 0o012700), (0o1002, 0o000001)],
    },
    Load {
        shows: "a block without its end",
        tape: &HALTS,
        given: 9,
        calls: 10,
        words: 4_096,
        outcome: Err(LoadFault::Tape(TapeFault::Truncated)),
        leaves: &[(0o1000, 0o012700), (0o1002, 0o000001)],
    },
    Load {
        shows: "a byte past the memory, before the sum is checked",
        tape: &PAST_THE_MEMORY,
        given: 9,
        calls: 8,
        words: 28_672,
        outcome: Err(LoadFault::OutsideMemory),
        leaves: &[(0o157776, 0o000400)],
    },
    Load {
        shows: "a byte past the memory, before the sum is read",
        tape: &PAST_THE_MEMORY,
        given: 8,
        calls: 8,
        words: 28_672,
        outcome: Err(LoadFault::OutsideMemory),
        leaves: &[(0o157776, 0o000400)],
    },
    Load {
        shows: "the end before the byte past the memory",
        tape: &PAST_THE_MEMORY,
        given: 7,
        calls: 8,
        words: 28_672,
        outcome: Err(LoadFault::Tape(TapeFault::Truncated)),
        leaves: &[(0o157776, 0o000400)],
    },
    Load {
        shows: "a byte for a device",
        tape: &ONTO_THE_CONSOLE,
        given: 9,
        calls: 7,
        words: 28_672,
        outcome: Err(LoadFault::OutsideMemory),
        leaves: &[],
    },
    Load {
        shows: "a byte past a smaller memory",
        tape: &PAST_4096_WORDS,
        given: 15,
        calls: 7,
        words: 4_096,
        outcome: Err(LoadFault::OutsideMemory),
        leaves: &[],
    },
];

// The load of `ECHO` from a feed that fails after this number of calls, with its outcome and words in memory afterwards.
fn failing_after(calls: u64) -> Load<'static> {
    let leaves: &[(u16, u16)] = match calls {
        0..=6 => &[(0o1000, 0o000000), (0o1002, 0o000000)],
        7 => &[(0o1000, 0o000337), (0o1002, 0o000000)],
        8 => &[(0o1000, 0o105737), (0o1002, 0o000000)],
        9 => &[(0o1002, 0o000160), (0o1004, 0o000000)],
        10 => &[(0o1002, 0o177560), (0o1004, 0o000000)],
        11 => &[(0o1004, 0o000375), (0o1006, 0o000000)],
        12 => &[(0o1004, 0o100375), (0o1006, 0o000000)],
        13 => &[(0o1006, 0o000300), (0o1010, 0o000000)],
        14 => &[(0o1006, 0o113700), (0o1010, 0o000000)],
        15 => &[(0o1010, 0o000162), (0o1012, 0o000000)],
        16 => &[(0o1010, 0o177562), (0o1012, 0o000000)],
        17 => &[(0o1012, 0o000037), (0o1014, 0o000000)],
        18 => &[(0o1012, 0o110037), (0o1014, 0o000000)],
        19 => &[(0o1014, 0o000166), (0o1016, 0o000000)],
        _ => &[(0o1014, 0o177566), (0o1016, 0o000000)],
    };
    Load {
        shows: "a reader that fails",
        tape: &ECHO,
        given: 30,
        calls,
        words: 4_096,
        outcome: Err(LoadFault::Tape(TapeFault::Device)),
        leaves,
    }
}

// The word at an address; None if one of its bytes isn't in memory.
fn word_at(machine: &Machine, address: u16) -> Option<u16> {
    let following = address.checked_add(1)?;
    if !machine.has_byte(address) || !machine.has_byte(following) {
        return None;
    }
    Some(u16::from_le_bytes([machine.byte(address), machine.byte(following)]))
}

// The feed of a load: the first `given` bytes of the tape. It fails after the load's number of calls.
fn feed_of<'a>(rt: &impl Abort, row: Load<'a>) -> FuseFeed<MemoryFeed<'a>> {
    assert!(rt; row.given <= row.tape.len());
    FuseFeed::new(MemoryFeed::new(&row.tape[..row.given]), row.calls)
}

// Loads a tape into a machine, and checks the outcome and the words in memory afterwards.
fn is_loaded(rt: &impl Abort, row: Load<'_>, machine: &mut Machine) {
    let Load { shows, calls, .. } = row;
    let outcome = machine.load(&mut feed_of(rt, row));
    assert!(rt; outcome == row.outcome, "{shows}, {calls} calls");
    for (address, word) in row.leaves {
        let left = word_at(machine, *address);
        assert_eq!(rt; left, Some(*word), "{shows}, {calls} calls: at {address:o}");
    }
}

// Checks the outcome and the output of a run against the expected outcome of its load. If the load fails, the run must fail with the same
// fault and report nothing; otherwise it must halt after two steps and report that. In both cases it must send nothing.
fn is_told(
    rt: &impl Abort,
    row: Load<'_>,
    outcome: Result<SimDone, SimFault>,
    sent: &[u8],
    reported: &[u8],
) {
    let Load { shows, calls, .. } = row;
    let (wanted, is_beginning) = match row.outcome {
        Ok(_) => (
            Ok(SimDone { stop: Stop::Halt }),
            reported.starts_with(b"HALT AFTER 2 STEPS\n"),
        ),
        Err(fault) => (Err(SimFault::Load(fault)), reported.is_empty()),
    };
    assert!(rt; outcome == wanted, "{shows}, {calls} calls: a run");
    assert!(rt;
        sent.is_empty() && is_beginning,
        "{shows}, {calls} calls: what a run writes"
    );
}

// Runs the tape of a load, and checks that the outcome of the run agrees with that of the load. The run may not read from the console or
// send to it.
fn is_run(rt: &(impl Abort + AllocGlobal), row: Load<'_>) {
    let mut sent = Vec::new(rt.alloc());
    let mut reported = Vec::new(rt.alloc());
    assert!(rt; 4_096 <= row.words && row.words <= 28_672);
    let outcome = sim_run(
        rt.alloc(),
        &mut feed_of(rt, row),
        None,
        row.words,
        1_000,
        &mut FuseFeed::new(MemoryFeed::new(b"ABC"), 0),
        &mut FuseSink::new(WriterSink::new(&mut sent), 0, 1),
        &mut FuseSink::new(WriterSink::new(&mut reported), 1, 200),
    );
    is_told(rt, row, outcome, sent.as_slice(), reported.as_slice());
    drop(sent);
    drop(reported);
}

// Loads and runs the tape of a row, and checks both outcomes against the row.
fn check(rt: &(impl Abort + AllocGlobal), row: Load<'_>) -> Result<(), Fail> {
    assert!(rt; 4_096 <= row.words && row.words <= 28_672);
    let mut machine = Machine::new(rt.alloc(), row.words)?;
    is_loaded(rt, row, &mut machine);
    drop(machine);
    is_run(rt, row);
    Ok(())
}

// Checks each row.
fn check_all(rt: &(impl Abort + AllocGlobal), rows: &[Load<'_>]) -> Result<(), Fail> {
    for row in rows {
        check(rt, *row)?;
    }
    Ok(())
}

#[test]
fn a_tape_that_fails_leaves_what_came_before_and_runs_nothing(rt: HostRuntime) -> Result<(), Fail> {
    check_all(&rt, &LOADS)?;
    for calls in 0..30 {
        check(&rt, failing_after(calls))?;
    }
    Ok(())
}
