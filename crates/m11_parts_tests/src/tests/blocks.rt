//! Blocks of objects and of tapes. (RT-11 Volume and File Formats Manual, "Object file format" and "Absolute binary file format".)

use super::{equal, same};
use m11_base::{Feed, FuseFeed, MemoryFeed};
use m11_obj::{
    Block, BlockFault, BlockReader, TapeFault, TapeReader, block_bytes, tape_block, tape_transfer,
};
use std::alloc::AllocError;
use std::process::Abort;
use std::test::Fail;

// Checks that the bytes of a block are these, in order: those before its content, the content, and the checksum.
fn is_framed(rt: &impl Abort, bytes: &[u8], front: &[u8], content: &[u8], sum: u8) {
    let end = [sum];
    let found = match bytes.strip_prefix(front) {
        Some(rest) => rest.strip_suffix(end.as_slice()),
        None => None,
    };
    same(rt, &"a block", &found, &Some(content));
}

// Checks that the bytes of a block are read as this content, and that the feed then ends.
fn is_read(rt: &impl Abort, bytes: &[u8], content: &[u8]) {
    let mut feed = MemoryFeed::new(bytes);
    let block = BlockReader::new().next(&mut feed).unwrap_or(None);
    let read = block.as_ref().map(|block| block.as_slice());
    same(rt, &"the content", &read, &Some(content));
    same(rt, &"its end", &feed.next(), &Ok(None));
}

const LONGEST: &[u8] = &[0x5a; 512];

// The content of a block, the bytes before it, and the checksum. 512 times 0x5a is 0xb400.
static BLOCKS: [(&[u8], [u8; 4], u8); 3] = [
    (&[6, 0], [1, 0, 6, 0], 0xf3),
    (&[], [1, 0, 4, 0], 0xfb),
    (LONGEST, [1, 0, 4, 2], 0xf9),
];

// Checks that a content is written as a block of these bytes, and read from them again.
fn is_block(
    rt: &(impl Abort + AllocGlobal),
    content: &[u8],
    front: &[u8],
    sum: u8,
) -> Result<(), AllocError> {
    assert!(rt; content.len() <= 512);
    let bytes = block_bytes(rt.alloc(), content)?;
    is_framed(rt, &bytes, front, content, sum);
    is_read(rt, &bytes, content);
    drop(bytes);
    Ok(())
}

// Checks that bytes at an address are written as a block of a tape with these bytes before it, and this checksum.
fn is_tape_block(
    rt: &(impl Abort + AllocGlobal),
    address: u16,
    content: &[u8],
    front: &[u8],
    sum: u8,
) -> Result<(), AllocError> {
    assert!(rt; !content.is_empty() && content.len() <= 65_529);
    let bytes = tape_block(rt.alloc(), address, content)?;
    is_framed(rt, &bytes, front, content, sum);
    drop(bytes);
    Ok(())
}

#[test]
fn blocks_have_their_bytes_of_the_manual(rt: HostRuntime) -> Result<(), Fail> {
    for (content, front, sum) in &BLOCKS {
        is_block(&rt, content, front, *sum)?;
    }
    Ok(())
}

// `MOV #1,R0` and `HALT`.
static CODE: [u8; 6] = [0o300, 0o025, 0o001, 0o000, 0o000, 0o000];

// The sum of the largest block: 65,529 times 7, plus 0x1ff for the header, is 0x701ce.
#[test]
fn blocks_of_tapes_have_their_bytes_of_the_manual(rt: HostRuntime) -> Result<(), Fail> {
    is_tape_block(&rt, 0o1000, &CODE, &[1, 0, 0o14, 0, 0, 2], 0o33)?;
    let transfer = tape_transfer(rt.alloc(), 0o1000)?;
    is_framed(&rt, &transfer, &[1, 0, 6, 0, 0, 2], &[], 0o367);
    let bytes = vec![in rt.alloc(); 7u8; 65_529]?;
    is_tape_block(&rt, 0, &bytes, &[1, 0, 0xff, 0xff, 0, 0], 0x32)?;
    Ok(())
}

// Checks what an object and a tape of zeros are refused for, if their feed fails after this number of bytes.
fn are_refused(
    rt: &impl Abort,
    zeros: &[u8],
    calls: u64,
    of_object: BlockFault,
    of_tape: TapeFault,
) {
    let mut object = FuseFeed::new(MemoryFeed::new(zeros), calls);
    let block = BlockReader::new().next_into(&mut object, &mut Block::new());
    same(rt, &calls, &block, &Err(of_object));
    let mut tape = FuseFeed::new(MemoryFeed::new(zeros), calls);
    let part = TapeReader::new().next(&mut tape);
    equal(rt, &calls, &part, &Err(of_tape));
}

#[test]
fn the_byte_past_the_limit_is_too_much(rt: HostRuntime) -> Result<(), Fail> {
    let zeros = vec![in rt.alloc(); 0u8; 4_194_305]?;
    are_refused(
        &rt,
        &zeros,
        4_194_304,
        BlockFault::Device,
        TapeFault::Device,
    );
    are_refused(
        &rt,
        &zeros,
        4_194_305,
        BlockFault::TooMuch,
        TapeFault::TooMuch,
    );
    Ok(())
}
