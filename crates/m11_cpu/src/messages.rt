//! The report of a run at its stop. No memory is allocated.

ghost use Rattle.std.specs.Prelude.{◌≡◌, ◌≤◌, ◌+◌, ◌++◌, length};
ghost use Rattle.arrayvec.specs.ArrayVec.{array_vec_len};
ghost use Rattle.m11_base.specs.Octal.{octal_text};
ghost use Rattle.m11_cpu.specs.Messages.{end_line, end_text, register_line, messages_of, PutsMessages};

use crate::fault::SimFault;
use arrayvec::ArrayVec;
use itoa::Buffer;
use m11_base::{Sink, octal6, put_all};
use m11_cpu_machine::Stop;

// The two lines of a report, with their line feeds. The first line has at most 36 characters; the contracts prove only that it has at
// most 66, since `itoa` has room for a number of 40 digits. The second line, that of the registers, has 91 characters.
type Messages = ArrayVec<u8, 160>;

// Adds bytes to the text, which holds at most 160 bytes and must have room for them.
fn add(text: &mut Messages, bytes: &[u8])
    requires { array_vec_len text.old + length bytes.now ≤ 160 }
    ensures items { text.new.items ≡ text.old.items ++ bytes.now }
    ensures size { array_vec_len text.new ≡ array_vec_len text.old + length bytes.now }
{
    text.try_extend_from_slice(bytes).unwrap();
}

// Adds a label and the six octal digits of a word.
fn add_word(text: &mut Messages, label: &[u8], word: u16)
    requires { array_vec_len text.old + (length label.now + 6) ≤ 160 }
    ensures items { text.new.items ≡ text.old.items ++ (label.now ++ octal_text word) }
    ensures size { array_vec_len text.new ≡ array_vec_len text.old + (length label.now + 6) }
{
    add(text, label);
    add(text, &octal6(word));
}

// The first line: how the run ended, such as `HALT`, and the number of steps begun, in decimal.
#[tactic(auto, unfolding(crate::specs::Messages::end_line))]
fn end_line(name: &[u8], steps: u32) -> Messages
    requires { length name.now ≤ 12 }
    ensures line { result.items ≡ end_line name.now steps }
    ensures size { array_vec_len result ≤ 66 }
{
    let mut text = Messages::new();
    add(&mut text, name);
    add(&mut text, b" AFTER ");
    add(&mut text, Buffer::new().format(steps).as_bytes());
    add(&mut text, b" STEPS\n");
    text
}

// Adds the line of the registers from R0 to PC and the PSW.
#[tactic(auto, unfolding(crate::specs::Messages::register_line))]
fn add_registers(text: &mut Messages, registers: &[u16; 8], psw: u16)
    requires { array_vec_len text.old ≤ 66 }
    ensures { text.new.items ≡ text.old.items ++ register_line registers.now psw }
{
    let [r0, r1, r2, r3, r4, r5, sp, pc] = *registers;
    add_word(text, b"R0 ", r0);
    add_word(text, b" R1 ", r1);
    add_word(text, b" R2 ", r2);
    add_word(text, b" R3 ", r3);
    add_word(text, b" R4 ", r4);
    add_word(text, b" R5 ", r5);
    add_word(text, b" SP ", sp);
    add_word(text, b" PC ", pc);
    add_word(text, b" PSW ", psw);
    add(text, b"\n");
}

/// Writes the two lines at the end of a run: how it ended, in at most 12 characters, with the number of steps begun, and then the registers
/// from R0 to PC with the PSW. `Write`: the sink failed after accepting a prefix of them.
pub fn put_end<M: Sink>(
    messages: &mut M,
    name: &[u8],
    steps: u32,
    registers: &[u16; 8],
    psw: u16,
) -> Result<(), SimFault>
    requires { length name.now ≤ 12 }
    ensures { PutsMessages (M.text messages.old) (M.text messages.new) (M.faults messages.old) (M.faults messages.new)
        (end_text name.now steps registers.now psw) result }
{
    let mut text = end_line(name, steps);
    add_registers(&mut text, registers, psw);
    match put_all(messages, text.as_slice()) {
        Ok(()) => Ok(()),
        Err(_) => Err(SimFault::Write),
    }
}

/// Writes the two lines that report a stop. `Write`: the sink failed after accepting a prefix of them.
pub(crate) fn put_messages<M: Sink>(
    messages: &mut M,
    stop: Stop,
    steps: u32,
    registers: &[u16; 8],
    psw: u16,
) -> Result<(), SimFault>
    ensures { PutsMessages (M.text messages.old) (M.text messages.new) (M.faults messages.old) (M.faults messages.new)
        (messages_of stop steps registers.now psw) result }
{
    put_end(messages, stop.name().as_bytes(), steps, registers, psw)
}
