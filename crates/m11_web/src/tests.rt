//! The calls on their way, since no other crate can use a static library. The suite in the module, under Node, has all else.

use crate::commands::{m11_command, m11_dump, m11_trace};
use crate::running::{Told, m11_go_on, m11_load};
use std::process::Abort;
use std::test::Fail;

// `m11 asm -o P S`, with the file S.
const REQUEST: &[u8] =
    b"\x1e\0\0\0\x03\0\0\0m11\x03\0\0\0asm\x02\0\0\0-o\x01\0\0\0P\x01\0\0\0S\x0e\0\0\0\x01\0\0\0S\x05\0\0\0.END\n\0\0\0\0";

// Status 0, nothing printed, one line of messages, and then one file.
const FRONT: &[u8] = b"\x01\0\0\0\0\0\0\0\0\x13\0\0\0ERRORS DETECTED: 0\n";

#[test]
fn a_command_is_answered(rt: HostRuntime) -> Result<(), Fail> {
    let mut answer = vec![in rt.alloc(); 0u8; 4_096]?;
    let length = m11_command(rt.alloc(), REQUEST, answer.as_mut_slice());
    assert!(rt; FRONT.len() < length && length <= 4_096);
    assert!(rt; answer.as_slice().starts_with(FRONT));
    Ok(())
}

// `m11-dump T` and `m11-trace T`, with the tape T: `INC R1` and `HALT` at octal 1000.
const TO_DUMP: &[u8] = b"\x11\0\0\0\x08\0\0\0m11-dump\x01\0\0\0T\x1b\0\0\0\x01\0\0\0T\x12\0\0\0\
\x01\x00\x0a\x00\x00\x02\x81\x0a\x00\x00\x68\x01\x00\x06\x00\x00\x02\xf7\0\0\0\0";

const TO_TRACE: &[u8] = b"\x12\0\0\0\x09\0\0\0m11-trace\x01\0\0\0T\x1b\0\0\0\x01\0\0\0T\x12\0\0\0\
\x01\x00\x0a\x00\x00\x02\x81\x0a\x00\x00\x68\x01\x00\x06\x00\x00\x02\xf7\0\0\0\0";

#[test]
fn views_are_answered(rt: HostRuntime) -> Result<(), Fail> {
    let mut answer = vec![in rt.alloc(); 0u8; 4_096]?;
    let length = m11_dump(rt.alloc(), TO_DUMP, answer.as_mut_slice());
    assert!(rt; 16 < length && length <= 4_096);
    assert!(rt; answer.as_slice().starts_with(b"\x01\0\0\0\0"));
    assert!(rt; answer.as_slice()[9..].starts_with(b"TAPE T\n"));
    let length = m11_trace(rt.alloc(), TO_TRACE, answer.as_mut_slice());
    assert!(rt; 20 < length && length <= 4_096);
    assert!(rt; answer.as_slice().starts_with(b"\x01\0\0\0\0\0\0\0\0"));
    assert!(rt; answer.as_slice()[13..].starts_with(b"1\t001000\tINC    R1\tR1 000001\n"));
    Ok(())
}

#[test]
fn a_malformed_request_is_refused(rt: HostRuntime) {
    let mut answer = [7u8; 16];
    assert_eq!(rt; m11_command(rt.alloc(), b"\x01\0\0\0", &mut answer), 0);
    assert_eq!(rt; answer, [7u8; 16]);
}

// `INC R1` and `HALT` at octal 1000.
static COUNTS: [u8; 18] = [
    0x01, 0x00, 0x0a, 0x00, 0x00, 0x02, 0x81, 0x0a, 0x00, 0x00, 0x68, 0x01, 0x00, 0x06, 0x00, 0x00,
    0x02, 0xf7,
];

// `TSTB @#177560` and `HALT` at octal 1000.
static ASKS: [u8; 20] = [
    0x01, 0x00, 0x0c, 0x00, 0x00, 0x02, 0xdf, 0x8b, 0x70, 0xff, 0x00, 0x00, 0x18, 0x01, 0x00, 0x06,
    0x00, 0x00, 0x02, 0xf7,
];

// Checks that a tape is loaded, and that a slice of 10 steps with nothing typed tells this.
fn is_run(
    rt: &(impl Abort + AllocGlobal),
    tape: &[u8],
    stop: u32,
    steps: u32,
    waits: u32,
) -> Result<(), Fail> {
    let mut state = vec![in rt.alloc(); 0u8; 8_220]?;
    assert_eq!(rt; m11_load(rt.alloc(), tape, state.as_mut_slice()), 0o1000);
    let mut printed = [0u8; 4];
    let mut told = Told {
        stop: 0,
        steps: 0,
        waits: 0,
        unread: 0,
        printed: 0,
    };
    let could = m11_go_on(
        rt.alloc(),
        state.as_mut_slice(),
        &[],
        false,
        10,
        &mut printed,
        &mut told,
    );
    assert_eq!(rt; could, 1);
    assert_eq!(rt; told.stop, stop);
    assert_eq!(rt; told.steps, steps);
    assert_eq!(rt; told.waits, waits);
    Ok(())
}

#[test]
fn tapes_are_loaded_and_run(rt: HostRuntime) -> Result<(), Fail> {
    is_run(&rt, &COUNTS, 1, 2, 0)?;
    is_run(&rt, &ASKS, 2, 0, 1)?;
    Ok(())
}
