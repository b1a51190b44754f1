//! The length of the tape while the second pass goes on: a feed of that pass fails after each block.

use super::{Broken, DEFINES_F, Device, READS_F, linked_broken};
use m11_link::{Layout, LinkFault};
use std::alloc::Global;
use std::test::Fail;

// A feed of the second pass, the number of bytes up to the end of a block, and the length of the tape then. Each text is held until the
// next one comes, and the last one of a module until the module's end.
#[rattlefmt::skip]
static GROWING: [(usize, u64, usize); 16] = [
    (2, 55, 0), (2, 62, 0), (2, 77, 0), (2, 91, 0), (2, 104, 0), (2, 111, 12),
    (3, 63, 12), (3, 70, 12), (3, 85, 12), (3, 95, 12), (3, 110, 12), (3, 121, 20), (3, 136, 20), (3, 151, 20), (3, 162, 29), (3, 169, 38),
];

// The length of the tape of the two modules if a feed fails after this number of bytes; None if the link ends otherwise.
fn written_after(alloc: Global, feed: usize, calls: u64) -> Option<usize> {
    let device = Device::Feed(feed);
    let linked = linked_broken(
        alloc,
        [READS_F, DEFINES_F],
        Broken { device, calls },
        usize::MAX,
    );
    let length = match linked.outcome {
        Err(LinkFault::Read) => Some(linked.tape.len()),
        _ => None,
    };
    drop(linked);
    length
}

#[test]
fn one_text_is_held_and_no_more(rt: HostRuntime) {
    for (feed, calls, length) in &GROWING {
        let found = written_after(rt.alloc(), *feed, *calls);
        assert_eq!(&rt; found, Some(*length), "feed {feed} after {calls} bytes");
    }
}

#[test]
fn a_link_without_files_has_a_plan(rt: HostRuntime) -> Result<(), Fail> {
    let plan = Layout::new(rt.alloc(), 0o1000).end()?;
    drop(plan);
    Ok(())
}
