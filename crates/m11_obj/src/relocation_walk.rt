//! The relocations of a record, read from the beginning of their bytes. (RT-11 Volume and File Formats Manual, "Object file
//! format", RLD block.)

ghost use Rattle.std.specs.Prelude.{◌≡◌, slice_get};
ghost use Rattle.m11_obj.specs.Reading.{AreRelocations, relocations_left};

use crate::reading::first_relocation;
use crate::relocations::Relocation;
use std::marker::Model;

/// An iterator over the relocations of a record, each once and in order. It allocates nothing.
#[derive(Drop)]
pub struct Relocations<'a> {
    rest: &'a [u8],
}

impl<'a> Model for Relocations<'a> {
    ghost use Rattle.std.specs.Prelude.{List};
    ghost use Rattle.m11_obj.specs.declared.relocations.Relocation.{Relocation};
    ghost use Rattle.m11_obj.specs.Reading.{AreRelocations, relocations_left};

    ghost Value = { List Relocation };

    ghost view = { λ walk. relocations_left walk.rest.now };

    ghost invariant = { λ walk. AreRelocations walk.rest.now };
}

// An iterator over the relocations in these bytes.
pub(crate) fn walk(bytes: &[u8]) -> Relocations<'_>
    requires { AreRelocations bytes.now }
    ensures { result ≡ relocations_left bytes.now }
{
    Relocations { rest: bytes }
}

impl<'a> Iterator for Relocations<'a> {
    ghost use Rattle.std.specs.Iterator.{YieldsFirst, item_count};

    type Item = Relocation;

    ghost next_gives = { YieldsFirst (λ rest. rest) };

    ghost remaining = { item_count (λ rest. rest) };

    #[inline(always)]
    fn next(&mut self) -> Option<Relocation> {
        match first_relocation(self.rest) {
            Ok((relocation, rest)) => {
                self.rest = rest;
                Some(relocation)
            }
            Err(_) => None,
        }
    }
}

// The relocation at this index, if there is one. The ones before it are read first.
pub(crate) fn relocation_at(bytes: &[u8], index: usize) -> Option<Relocation>
    requires { AreRelocations bytes.now }
    ensures { result ≡ slice_get (relocations_left bytes.now) index }
{
    let mut rest = bytes;
    for _ in 0..index {
        rest = match first_relocation(rest) {
            Ok((_, following)) => following,
            Err(_) => return None,
        };
    }
    match first_relocation(rest) {
        Ok((relocation, _)) => Some(relocation),
        Err(_) => None,
    }
}
