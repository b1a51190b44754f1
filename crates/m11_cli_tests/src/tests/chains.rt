//! Whole chains in memory: some yield a machine, so that a chain that always gives up would fail the test, and some are refused.

use m11_asm::AsmFault;
use m11_cli_chain::{ChainFault, Chained, run_chain};
use m11_cpu::{LoadFault, Machine};
use m11_link::LinkFault;
use m11_unfold_rules::UnfoldFault;
use std::alloc::{AllocError, Global};
use std::process::Abort;
use std::test::Fail;

// The texts of one assembly.
type Texts<'a> = &'a [&'a [u8]];

// The program's first instruction reads a word of another module.
const FETCHES: Texts<'static> = &[b".TITLE A\nSTART: MOV F,R0\nHALT\n.END START\n"];

const IS_FETCHED: Texts<'static> = &[b".TITLE B\n", b"F:: .WORD 123\n.END\n"];

// The bytes of the linked program, the first at octal 1000. In octal, their words are 016700 000002 000000 000123.
const FETCHED: &[u8] = &[0xC0, 0x1D, 0x02, 0x00, 0x00, 0x00, 0x53, 0x00];

const PUTS_TWICE: Texts<'static> = &[b".ASECT\n.=1000\n.WORD 1\n.=1000\n.WORD 2\n.END 1000\n"];

const LIES_AT_A_DEVICE: Texts<'static> = &[b".ASECT\n.=177560\n.WORD 1\n.END\n"];

// A source whose section, if it begins at octal 1000, has its last byte at octal 160000, the first address of device registers.
const IS_TOO_LARGE: Texts<'static> = &[b".BLKB 157001\n.END\n"];

const CALLS_ITSELF: Texts<'static> = &[b".MACRO A\nA\n.ENDM\nA\n.END\n"];

// A chain: its name, its assemblies, the size of its memory in words, the start of its program, some bytes of its memory, the first at
// octal 1000, and its fault, if any.
type Row<'a> = (
    &'a str,
    &'a [Texts<'a>],
    u16,
    u16,
    &'a [u8],
    Option<ChainFault>,
);

#[rattlefmt::skip]
static CHAINS: [Row<'static>; 7] = [
    ("a word of another module", &[FETCHES, IS_FETCHED], 28_672, 0o1000, FETCHED, None),
    ("in the least memory", &[FETCHES, IS_FETCHED], 4_096, 0o1000, FETCHED, None),
    ("a place that is put twice", &[PUTS_TWICE], 4_096, 0o1000, &[0x02, 0x00, 0x00], None),
    ("no source", &[], 4_096, 1, &[0x00], None),
    ("a word past the memory", &[FETCHES, IS_FETCHED, LIES_AT_A_DEVICE], 28_672, 0, &[], Some(ChainFault::Load(LoadFault::OutsideMemory))),
    ("a section past 160000", &[IS_TOO_LARGE], 28_672, 0, &[], Some(ChainFault::Link(LinkFault::TooLarge))),
    ("a macro without end", &[IS_TOO_LARGE, CALLS_ITSELF], 28_672, 0, &[], Some(ChainFault::Assembly(AsmFault::Unfold(UnfoldFault::TooDeep)))),
];

// The texts of an assembly.
fn texts_of(alloc: Global, texts: Texts<'_>) -> Result<Vec<Vec<u8>>, AllocError> {
    let mut all = Vec::new(alloc);
    for text in texts {
        all.push(text.to_vec(alloc)?)?;
    }
    Ok(all)
}

// The texts of all assemblies.
fn sources_of(alloc: Global, sources: &[Texts<'_>]) -> Result<Vec<Vec<Vec<u8>>>, AllocError> {
    let mut all = Vec::new(alloc);
    for texts in sources {
        all.push(texts_of(alloc, texts)?)?;
    }
    Ok(all)
}

// The result of the chain of these assemblies, linked with relocatable sections that begin at octal 1000.
fn chain_of(
    rt: &(impl Abort + AllocGlobal),
    sources: &[Texts<'_>],
    words: u16,
) -> Result<Chained, ChainFault> {
    assert!(rt; 4_096 <= words && words <= 28_672);
    match sources_of(rt.alloc(), sources) {
        Ok(all) => {
            let came = run_chain(rt.alloc(), all.as_slice(), 0o1000, words);
            drop(all);
            came
        }
        Err(_) => Err(ChainFault::NoMemory),
    }
}

// Checks that a chain that yielded this machine and this start agrees with its row: the row has no fault and has this start, and the memory
// of the machine has the row's number of words, and the row's bytes, the first at octal 1000.
fn has(rt: &impl Abort, row: Row<'_>, machine: &Machine, found: u16) {
    let (name, _, words, start, bytes, refusal) = row;
    assert!(rt; refusal.is_none(), "{name}: a machine");
    assert!(rt; found == start, "{name}: the start");
    let mut address: u16 = 0o1000;
    for byte in bytes {
        assert!(rt; machine.has_byte(address), "{name}: no byte at {address}");
        assert!(rt;
            machine.byte(address) == *byte,
            "{name}: the byte at {address}"
        );
        address = address.wrapping_add(1);
    }
    let end = words.wrapping_mul(2);
    assert!(rt; !machine.has_byte(end), "{name}: a byte past the memory");
    assert!(rt;
        machine.has_byte(end.wrapping_sub(1)),
        "{name}: no last byte"
    );
}

// Checks that the outcome of a chain is that of its row. If memory was refused, the test fails at once.
fn check(rt: &(impl Abort + AllocGlobal), row: Row<'_>) -> Result<(), ChainFault> {
    let (name, sources, words, _, _, refusal) = row;
    match chain_of(rt, sources, words) {
        Ok(done) => {
            has(rt, row, &done.machine, done.start);
            drop(done);
            Ok(())
        }
        Err(ChainFault::NoMemory) => Err(ChainFault::NoMemory),
        Err(fault) => {
            assert!(rt; refusal == Some(fault), "{name}: the fault");
            Ok(())
        }
    }
}

// Checks the chain of each row.
fn check_all(rt: &(impl Abort + AllocGlobal), rows: &[Row<'_>]) -> Result<(), Fail> {
    for row in rows {
        check(rt, *row)?;
    }
    Ok(())
}

#[test]
fn a_chain_comes_to_a_machine_or_the_first_refusal(rt: HostRuntime) -> Result<(), Fail> {
    check_all(&rt, &CHAINS)
}
