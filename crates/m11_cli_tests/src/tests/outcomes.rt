//! The statuses and the lines of outcomes, which have the numbers and names of faults, among them many that no case of the suite has.

use m11_asm::AsmFault;
use m11_base::MemorySink;
use m11_base_writes::Output;
use m11_cli::{Outcome, WordsFault, command_without_words, fault_line, status};
use m11_cpu::{LoadFault, SimFault};
use m11_link::LinkFault;
use m11_obj::{BlockFault, TapeFault};
use m11_scan::LineFault;
use m11_unfold_rules::UnfoldFault;
use std::alloc::AllocError;
use std::process::Abort;
use std::test::Fail;

// Faults of an assembly, each with its exit status and its line.
#[rattlefmt::skip]
static ASSEMBLIES: [(AsmFault, u8, &str); 12] = [
    (AsmFault::Read, 3, "?M11 ASM 1 Read\n"),
    (AsmFault::Write(Output::Product), 3, "?M11 ASM 2 Write OBJECT\n"),
    (AsmFault::Write(Output::Report), 3, "?M11 ASM 2 Write LISTING\n"),
    (AsmFault::Write(Output::Messages), 3, "?M11 ASM 2 Write MESSAGES\n"),
    (AsmFault::TooManySymbols, 6, "?M11 ASM 3 TooManySymbols\n"),
    (AsmFault::TooManySections, 6, "?M11 ASM 4 TooManySections\n"),
    (AsmFault::Unfold(UnfoldFault::TooDeep), 6, "?M11 ASM 5 Unfold 1 TooDeep\n"),
    (AsmFault::Unfold(UnfoldFault::TooManyLines), 6, "?M11 ASM 5 Unfold 2 TooManyLines\n"),
    (AsmFault::Unfold(UnfoldFault::TooMuchText), 6, "?M11 ASM 5 Unfold 3 TooMuchText\n"),
    (AsmFault::Unfold(UnfoldFault::TooManyMacros), 6, "?M11 ASM 5 Unfold 4 TooManyMacros\n"),
    (AsmFault::TooMuchSource, 6, "?M11 ASM 6 TooMuchSource\n"),
    (AsmFault::NoMemory, 5, "?M11 ASM 90 NoMemory\n"),
];

// Faults of a link, each with its exit status and its line.
#[rattlefmt::skip]
static LINKS: [(LinkFault, u8, &str); 5] = [
    (LinkFault::Write(Output::Messages), 3, "?M11 LINK 2 Write MESSAGES\n"),
    (LinkFault::Block(BlockFault::Device), 4, "?M11 LINK 3 Block 1 Device\n"),
    (LinkFault::Block(BlockFault::Failed), 4, "?M11 LINK 3 Block 7 Failed\n"),
    (LinkFault::Block(BlockFault::TooMuch), 4, "?M11 LINK 3 Block 8 TooMuch\n"),
    (LinkFault::NoMemory, 5, "?M11 LINK 90 NoMemory\n"),
];

// Faults of a run, each with its exit status and its line.
#[rattlefmt::skip]
static RUNS: [(SimFault, u8, &str); 3] = [
    (SimFault::Load(LoadFault::Tape(TapeFault::Failed)), 4, "?M11 SIM 7 Failed\n"),
    (SimFault::Write, 3, "?M11 SIM 11 Write MESSAGES\n"),
    (SimFault::NoMemory, 5, "?M11 SIM 90 NoMemory\n"),
];

// Faults of unfolding, each with the fault of an assembly that it becomes.
static UNFOLDINGS: [(UnfoldFault, AsmFault); 5] = [
    (UnfoldFault::TooDeep, AsmFault::Unfold(UnfoldFault::TooDeep)),
    (
        UnfoldFault::TooManyLines,
        AsmFault::Unfold(UnfoldFault::TooManyLines),
    ),
    (
        UnfoldFault::TooMuchText,
        AsmFault::Unfold(UnfoldFault::TooMuchText),
    ),
    (
        UnfoldFault::TooManyMacros,
        AsmFault::Unfold(UnfoldFault::TooManyMacros),
    ),
    (UnfoldFault::NoMemory, AsmFault::NoMemory),
];

// Checks that an outcome has this status, and that this line is written for it.
fn check(
    rt: &(impl Abort + AllocGlobal),
    outcome: &Outcome,
    expected: u8,
    line: &str,
) -> Result<(), Fail> {
    let mut sink = MemorySink::new(rt.alloc());
    let put = fault_line(outcome, &mut sink);
    let is_line = sink.bytes() == line.as_bytes();
    drop(sink);
    put?;
    if is_line && status(outcome) == expected {
        Ok(())
    } else {
        Err(Fail::new(line))
    }
}

// Checks that each fault of an assembly has the status and line of its row.
fn check_assemblies(
    rt: &(impl Abort + AllocGlobal),
    rows: &[(AsmFault, u8, &str)],
) -> Result<(), Fail> {
    for (fault, status, line) in rows {
        check(rt, &Outcome::Asm(Err(*fault)), *status, line)?;
    }
    Ok(())
}

// Checks that each fault of a link has the status and line of its row.
fn check_links(
    rt: &(impl Abort + AllocGlobal),
    rows: &[(LinkFault, u8, &str)],
) -> Result<(), Fail> {
    for (fault, status, line) in rows {
        check(rt, &Outcome::Link(Err(*fault)), *status, line)?;
    }
    Ok(())
}

// Checks that each fault of a run has the status and line of its row.
fn check_runs(rt: &(impl Abort + AllocGlobal), rows: &[(SimFault, u8, &str)]) -> Result<(), Fail> {
    for (fault, status, line) in rows {
        check(rt, &Outcome::Sim(Err(*fault)), *status, line)?;
    }
    Ok(())
}

// Checks the status and the line if memory was refused while the arguments were read.
fn check_words(rt: &(impl Abort + AllocGlobal)) {
    let mut err = MemorySink::new(rt.alloc());
    let status = command_without_words(rt.alloc(), WordsFault::NoMemory, &mut err);
    assert_eq!(rt; status, 5);
    assert!(rt; err.bytes() == "?M11 USAGE 90 NoMemory\n".as_bytes());
}

#[test]
fn each_outcome_has_its_status_and_line(rt: HostRuntime) -> Result<(), Fail> {
    check_assemblies(&rt, &ASSEMBLIES)?;
    check_links(&rt, &LINKS)?;
    check_runs(&rt, &RUNS)?;
    check(&rt, &Outcome::NotOpened, 3, "")?;
    check_words(&rt);
    for (fault, wanted) in &UNFOLDINGS {
        assert!(&rt; AsmFault::from(*fault) == *wanted);
    }
    assert!(&rt; AsmFault::from(LineFault::Read) == AsmFault::Read);
    assert!(&rt; AsmFault::from(LineFault::TooMuchSource) == AsmFault::TooMuchSource);
    assert!(&rt; AsmFault::from(LineFault::TooManyLines) == AsmFault::TooMuchSource);
    assert!(&rt; AsmFault::from(AllocError) == AsmFault::NoMemory);
    Ok(())
}
