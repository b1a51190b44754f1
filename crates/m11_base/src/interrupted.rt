//! System calls that a signal may interrupt.

use std::io;
use std::io::ErrorKind;

// Whether an error says that a signal interrupted the call, which may then be made again.
pub(crate) fn is_interrupted(error: &io::Error) -> bool {
    matches!(error.kind(), ErrorKind::Interrupted)
}

// The body of a function that repeats a call until no signal interrupts it. Any other error is a failure of the device, and so
// are 2^64 - 1 interrupted calls.
macro_rules! until_done {
    ($call:expr) => {{
        'tries: for _ in 0..u64::MAX {
            match $call {
                Ok(value) => return Ok(value),
                Err(error) => {
                    if !$crate::interrupted::is_interrupted(&error) {
                        return Err($crate::fault::DeviceFault);
                    }
                }
            }
        }
        Err($crate::fault::DeviceFault)
    }};
}

pub(crate) use until_done;
