//! What was typed so far.

ghost use Rattle.std.specs.Prelude.{◌≡◌};
ghost use Rattle.m11_cpu_states.specs.Typed.{typed};

use m11_base::{DeviceFault, Feed};

/// A feed of the bytes that were typed so far. After them it ends if no byte will follow, and otherwise each call fails.
#[derive(Drop)]
pub(crate) struct TypedFeed<'a> {
    rest: &'a [u8],
    is_over: bool,
    faults: u64,
}

impl<'a> TypedFeed<'a> {
    /// A feed of these bytes; `is_over` says whether no byte will follow.
    pub(crate) fn new(bytes: &'a [u8], is_over: bool) -> TypedFeed<'a>
        ensures text { ⟦<TypedFeed<'a> as Feed>⟧.text result ≡ typed is_over bytes.entry.now }
        ensures unfailed { ⟦<TypedFeed<'a> as Feed>⟧.faults result ≡ 0 }
    {
        TypedFeed {
            rest: bytes,
            is_over,
            faults: 0,
        }
    }

    /// The bytes that weren't read.
    pub(crate) fn unread(&self) -> &[u8]
        ensures { ⟦<TypedFeed<'a> as Feed>⟧.text self.now ≡ typed self.now.is_over result.now }
    {
        self.rest
    }
}

impl<'a> Feed for TypedFeed<'a> {
    ghost use Rattle.std.specs.Prelude.{length};
    ghost use Rattle.m11_cpu_states.specs.Typed.{ready_of, typed};

    ghost text = { λ s. typed s.is_over s.rest.now };

    ghost faults = { λ s. s.faults };

    ghost left = { λ s. length s.rest.now };

    ghost ready_bytes = { λ s. ready_of s.faults s.rest.now };

    fn next(&mut self) -> Result<Option<u8>, DeviceFault> {
        if self.faults == u64::MAX {
            return Err(DeviceFault);
        }
        match self.rest {
            [] => {
                if self.is_over {
                    return Ok(None);
                }
                self.faults += 1;
                Err(DeviceFault)
            }
            [byte, rest @ ..] => {
                self.rest = rest;
                Ok(Some(*byte))
            }
        }
    }

    fn ready(&self) -> &[u8] {
        if self.faults == u64::MAX {
            return &[];
        }
        self.rest
    }

    fn pass(&mut self, count: usize) {
        self.rest = &self.rest[count..];
    }
}
