//! Loads tapes. (RT-11 Volume and File Formats Manual, "Absolute binary file format".)

ghost use Rattle.std.specs.Prelude.{◌≡◌, ◌<◌, ◌%◌, length, sum, MatchResult, ⊤};
ghost use Rattle.m11_base.specs.Devices.{Bytes};
ghost use Rattle.m11_obj_blocks.specs.Limited.{position};
ghost use Rattle.m11_obj_blocks.specs.Tapes.{tape_header, total_of};
ghost use Rattle.m11_obj_blocks.specs.declared.tape_part.TapeStage.TheVariants.{InBlock};
ghost use Rattle.m11_cpu.specs.Loading.{CountsFailure, LoadsFrom, LoadsInto, PutsData, start_address};

use crate::fault::LoadFault;
use crate::machine::Machine;
use m11_base::Feed;
use m11_cpu_machine::Memory;
use m11_obj_blocks::{TapePart, TapeReader};

/// Where the program of a tape starts.
#[derive(Clone, Copy, PartialEq, Eq)]
pub struct Start {
    /// The transfer address of the tape. The program starts there if it is even; an odd one starts nothing.
    pub address: u16,
}

impl Machine {
    /// Puts the data of one tape into memory, where a later byte replaces an earlier one at the same address, and returns where the tape's
    /// program starts. The program counter stays as it is. Nothing is read after the transfer block, and no memory is allocated.
    ///
    /// `OutsideMemory`: the address of a byte is outside memory. `Tape`: a fault of the tape. The first fault in the order of the tape's
    /// bytes is returned; the memory then holds the bytes that came before it.
    pub fn load<F: Feed>(&mut self, tape: &mut F) -> Result<Start, LoadFault>
        ensures { LoadsInto (F.text tape.old) (F.text tape.new) (F.faults tape.old) (F.faults tape.new)
            self.old self.new (start_address result) }
    {
        let address = load_tape(&mut self.inner.memory, tape)?;
        Ok(Start { address })
    }
}

// Reads the `count` data bytes of the block whose header was read last, and puts them into memory, the first at `address`. Errors: a byte
// can't be read, or its address is outside memory.
fn load_block<F: Feed>(
    memory: &mut Memory,
    reader: &mut TapeReader,
    feed: &mut F,
    address: u16,
    count: u16,
) -> Result<(), LoadFault>
    requires { reader.old.stage ≡ InBlock count (sum (tape_header address count) % 256) }
    ensures put { (content : Bytes)
        × PutsData (position (F.text feed.old) (F.faults feed.old) reader.old.room)
        (position (F.text feed.new) (F.faults feed.new) reader.new.room)
        memory.old memory.new (address, count) content result
        × MatchResult result (λ _. reader.new.stage ≡ InBlock 0 (total_of address content)) (λ _. ⊤) }
    ensures size { length memory.new ≡ length memory.old }
{
    'bytes: for index in 0..count {
        let byte = reader.byte(feed)?;
        match memory.address_past(address, index) {
            Some(past) => memory.set_byte(past, byte),
            None => return Err(LoadFault::OutsideMemory),
        }
    }
    Ok(())
}

// Puts the data of a tape into memory, and returns the transfer address. Errors: those of `load`.
fn load_tape<F: Feed>(memory: &mut Memory, feed: &mut F) -> Result<u16, LoadFault>
    ensures loads { LoadsFrom (F.text feed.old) (F.text feed.new) (F.faults feed.old) (F.faults feed.new)
        memory.old memory.new result }
    ensures counts { CountsFailure (F.faults feed.old) (F.faults feed.new) result }
    ensures size { length memory.new ≡ length memory.old }
{
    let mut reader = TapeReader::new();
    'parts: loop {
        match reader.next(feed)? {
            TapePart::Data { address, count } => {
                load_block(memory, &mut reader, feed, address, count)?;
            }
            TapePart::Start(address) => return Ok(address),
        }
    }
}
