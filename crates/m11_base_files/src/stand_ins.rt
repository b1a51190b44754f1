//! Stand-ins for closed standard streams.

use std::fs;
use std::os::fd::{AsRawFd, RawFd};
use std::rt::Files;

/// Up to three files with the descriptors of standard streams that were closed when this value was created. The system gives an opened
/// file the lowest free descriptor: without the stand-ins, a report could be written into an object.
#[derive(Drop)]
pub(crate) struct StandIns<F> {
    first: Option<F>,
    second: Option<F>,
    third: Option<F>,
}

impl<F: AsRawFd + Drop> StandIns<F> {
    /// Stand-ins for the streams that are closed now. A stream has none if no file can be opened for it.
    pub(crate) fn new<R: Files<File = F>>(rt: &R) -> StandIns<F> {
        if are_all_open(rt) {
            return StandIns {
                first: None,
                second: None,
                third: None,
            };
        }
        StandIns {
            first: stand_in(rt),
            second: stand_in(rt),
            third: stand_in(rt),
        }
    }
}

// The descriptors of standard input and of standard error, the first and the last of the three.
const INPUT: RawFd = 0;

const ERROR: RawFd = 2;

// Whether all standard streams are open: then a file gets a greater descriptor than theirs. This opens one file, and nearly always
// saves opening nine.
fn are_all_open<R: Files>(rt: &R) -> bool
where
    R::File: AsRawFd,
{
    match fs::open(rt, NULL_DEVICE) {
        Ok(file) => file.as_raw_fd() > ERROR,
        Err(_) => false,
    }
}

// The null device: a read of it finds the end at once.
const NULL_DEVICE: &str = "/dev/null";

// The files to try, in this order. The null device stands in for standard input. The root directory stands in for the other streams: it
// can't be written to, either through its descriptor or through a path such as /dev/stdout. If it can't be opened, the null device, opened
// for reading only, stands in for them. The number with each path is the greatest descriptor that its file may have.
const FILES: [(&str, RawFd); 3] = [(NULL_DEVICE, INPUT), ("/", ERROR), (NULL_DEVICE, ERROR)];

// A stand-in for the first closed standard stream, or none if all are open or no file can be opened for it.
fn stand_in<R: Files>(rt: &R) -> Option<R::File>
where
    R::File: AsRawFd,
{
    for (path, last) in FILES {
        if let Some(file) = numbered(rt, path, last) {
            return Some(file);
        }
    }
    None
}

// The file at a path, opened for reading, if it can be opened and its descriptor is at most `last`.
fn numbered<R: Files>(rt: &R, path: &str, last: RawFd) -> Option<R::File>
where
    R::File: AsRawFd,
{
    let file = fs::open(rt, path).ok()?;
    (file.as_raw_fd() <= last).then_some(file)
}
