//! The trace lines of steps, up to their memory words.

ghost use Rattle.std.specs.Prelude.{◌≡◌, ◌≤◌, ◌+◌, ◌∷◌, ◌++◌, []};
ghost use Rattle.arrayvec.specs.ArrayVec.{array_vec_len};
ghost use Rattle.m11_trace.specs.Shots.{words_in};
ghost use Rattle.m11_trace.specs.Lines as spec;

use crate::line::{Line, add, add_word};
use crate::shots::{InstructionWords, Shot};
use itoa::Buffer;
use m11_base_disassembly::{Symbols, address_name, disassembled, no_references};

// Adds an address in octal, and after a blank its name: the nearest of these symbols at or below it, with the distance from that
// symbol; no name if there is no such symbol.
fn add_place(line: &mut Line, symbols: &Symbols, address: u16)
    requires { array_vec_len line.old ≤ 154 }
    ensures items { line.new.items ≡ line.old.items ++ spec.place_text symbols.now address }
    ensures size { array_vec_len line.new ≤ array_vec_len line.old + 20 }
{
    add_word(line, b"", address);
    add(line, &address_name(b" ", symbols, address));
}

// Adds the line of source of the instruction with these words at this location, with the names that these symbols give to addresses in
// operands.
fn add_words(line: &mut Line, symbols: &Symbols, location: u16, word: u16, more: &[u16])
    requires { array_vec_len line.old ≤ 76 }
    ensures items { line.new.items ≡ line.old.items ++ spec.source_text symbols.now location (word ∷ more.now) }
    ensures size { array_vec_len line.new ≤ array_vec_len line.old + 48 }
{
    let disassembly = disassembled(symbols, &no_references(), location, word, more);
    add(line, disassembly.source.as_slice());
}

// Adds the line of source of the instruction fetched at this location, with these names; nothing if no word was fetched.
fn add_source(line: &mut Line, symbols: &Symbols, location: u16, fetched: InstructionWords)
    requires { array_vec_len line.old ≤ 76 }
    ensures items { line.new.items ≡ line.old.items ++ spec.source_text symbols.now location (words_in fetched) }
    ensures size { array_vec_len line.new ≤ array_vec_len line.old + 48 }
{
    match (fetched.first, fetched.second, fetched.third) {
        (None, _, _) => {}
        (Some(first), None, _) => add_words(line, symbols, location, first, &[]),
        (Some(first), Some(second), None) => add_words(line, symbols, location, first, &[second]),
        (Some(first), Some(second), Some(third)) => add_words(
            line,
            symbols,
            location,
            first,
            &[second, third],
        ),
    }
}

// Adds a register if its value changed.
fn add_change(line: &mut Line, name: &[u8; 3], before: u16, later: u16)
    requires { array_vec_len line.old ≤ 194 }
    ensures items { line.new.items ≡ line.old.items ++ spec.register_change name.now before later }
    ensures size { array_vec_len line.new ≤ array_vec_len line.old + 10 }
{
    if before != later {
        add(line, b"\t");
        add_word(line, name, later);
    }
}

// Adds the registers whose values changed, except the program counter, which the next line shows.
fn add_registers(line: &mut Line, before: &[u16; 8], later: &[u16; 8])
    requires { array_vec_len line.old ≤ 124 }
    ensures items { line.new.items ≡ line.old.items ++ spec.register_changes before.now later.now }
    ensures size { array_vec_len line.new ≤ array_vec_len line.old + 70 }
{
    let [r0, r1, r2, r3, r4, r5, sp, _] = *before;
    let [
        r0_later,
        r1_later,
        r2_later,
        r3_later,
        r4_later,
        r5_later,
        sp_later,
        _,
    ] = *later;
    add_change(line, b"R0 ", r0, r0_later);
    add_change(line, b"R1 ", r1, r1_later);
    add_change(line, b"R2 ", r2, r2_later);
    add_change(line, b"R3 ", r3, r3_later);
    add_change(line, b"R4 ", r4, r4_later);
    add_change(line, b"R5 ", r5, r5_later);
    add_change(line, b"SP ", sp, sp_later);
}

/// The part of a trace line before its memory words.
#[tactic(auto, unfolding(crate::specs::Lines::line_front))]
pub(crate) fn line_front(symbols: &Symbols, number: u32, shot: &Shot) -> Line
    ensures items { result.items ≡ spec.line_front symbols.now number shot.now }
    ensures size { array_vec_len result ≤ 180 }
{
    let location = shot.before.registers[7];
    let mut line = Line::new();
    add(&mut line, Buffer::new().format(number).as_bytes());
    add(&mut line, b"\t");
    add_place(&mut line, symbols, location);
    add(&mut line, b"\t");
    add_source(&mut line, symbols, location, shot.fetched);
    add_registers(&mut line, &shot.before.registers, &shot.later.registers);
    line
}
