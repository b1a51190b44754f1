//! A feed and a sink over memory. Their texts are known.

ghost use Rattle.std.specs.Prelude.{◌≡◌, Some, []};
ghost use Rattle.m11_base.specs.Feed.{Ends};

use crate::fault::DeviceFault;
use crate::feed::Feed;
use crate::sink::Sink;
use std::alloc::Global;

/// A feed of the bytes of a slice. It never fails.
#[derive(Drop)]
pub struct MemoryFeed<'a> {
    rest: &'a [u8],
}

impl<'a> MemoryFeed<'a> {
    /// A feed of these bytes.
    pub fn new(bytes: &'a [u8]) -> MemoryFeed<'a>
        ensures text { ⟦<MemoryFeed<'a> as Feed>⟧.text result
            ≡ Some (record { bytes = bytes.entry.now; ending = Ends }) }
        ensures unfailed { ⟦<MemoryFeed<'a> as Feed>⟧.faults result ≡ 0 }
    {
        MemoryFeed { rest: bytes }
    }
}

impl<'a> Feed for MemoryFeed<'a> {
    ghost use Rattle.std.specs.Prelude.{Some, length};
    ghost use Rattle.m11_base.specs.Feed.{Ends};

    ghost text = { λ s. Some (record { bytes = s.rest.now; ending = Ends }) };

    ghost faults = { λ _. 0 };

    ghost left = { λ s. length s.rest.now };

    ghost ready_bytes = { λ s. s.rest.now };

    fn next(&mut self) -> Result<Option<u8>, DeviceFault> {
        match self.rest {
            [] => Ok(None),
            [byte, rest @ ..] => {
                self.rest = rest;
                Ok(Some(*byte))
            }
        }
    }

    fn ready(&self) -> &[u8] {
        self.rest
    }

    fn pass(&mut self, count: usize) {
        self.rest = &self.rest[count..];
    }
}

/// A sink that stores the bytes put to it. A `put` fails if memory is refused.
#[derive(Drop)]
pub struct MemorySink {
    bytes: Vec<u8>,
    faults: u64,
}

impl MemorySink {
    /// An empty sink.
    pub fn new(alloc: Global) -> MemorySink
        ensures text { ⟦<MemorySink as Sink>⟧.text result ≡ Some [] }
        ensures unfailed { ⟦<MemorySink as Sink>⟧.faults result ≡ 0 }
    {
        MemorySink {
            bytes: Vec::new(alloc),
            faults: 0,
        }
    }

    /// All the bytes that the sink has accepted.
    pub fn bytes(&self) -> &[u8]
        ensures { ⟦<MemorySink as Sink>⟧.text self.now ≡ Some result.now }
    {
        self.bytes.as_slice()
    }

    /// Turns the sink into the vector of all the bytes that it has accepted.
    pub fn into_bytes(self) -> Vec<u8>
        ensures { ⟦<MemorySink as Sink>⟧.text self ≡ Some result.items }
    {
        self.bytes
    }
}

impl Sink for MemorySink {
    ghost text = { λ s. Some s.bytes.items };

    ghost faults = { λ s. s.faults };

    ghost held = { λ _. 0 };

    fn put(&mut self, bytes: &[u8]) -> Result<usize, DeviceFault> {
        if self.faults == u64::MAX {
            return Err(DeviceFault);
        }
        match self.bytes.extend_from_slice(bytes) {
            Ok(()) => Ok(bytes.len()),
            Err(_) => {
                self.faults += 1;
                Err(DeviceFault)
            }
        }
    }

    // A sink over memory holds nothing back.
    fn flush(&mut self) -> Result<(), DeviceFault> {
        if self.faults == u64::MAX {
            return Err(DeviceFault);
        }
        Ok(())
    }
}
