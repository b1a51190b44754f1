//! The addresses that operands are written as.

ghost use Rattle.std.specs.Prelude.{◌≡◌, ◌≤◌, ◌+◌, ◌++◌, length};
ghost use Rattle.arrayvec.specs.ArrayVec.{array_vec_len};
ghost use Rattle.m11_base_disassembly.specs.OperandAddresses as spec;
ghost use Rattle.m11_base_disassembly.specs.Arguments.{argument};
ghost use Rattle.m11_base_disassembly.specs.Instructions.{first_argument, operands_of, second_argument, statement_of};

use crate::arguments::words_of;
use crate::instructions::{loop_target, target_of, whole_row, word_at};
use arrayvec::ArrayVec;
use m11_base::{Insn, Mode, Operand, Register, decode};

/// The addresses in the operands of a line.
pub type Addresses = ArrayVec<u16, 2>;

// Adds the address that an operand is written as, if it is. `word` is its word after the code, and `after` the location after that word.
fn add_address(found: &mut Addresses, operand: Operand, after: u16, word: u16)
    requires { array_vec_len found.old ≤ 1 }
    ensures items { found.new.items ≡ found.old.items ++ spec.address_in (argument operand after word) }
    ensures size { array_vec_len found.new ≤ array_vec_len found.old + 1 }
{
    match (operand.mode, operand.register) {
        (Mode::AutoincrementDeferred, Register::Pc) => found.push(word),
        (Mode::Index | Mode::IndexDeferred, Register::Pc) => found.push(after.wrapping_add(word)),
        _ => {}
    }
}

// Adds the address in the first operand, if there is one.
fn add_first(found: &mut Addresses, location: u16, more: &[u16], operand: Operand)
    requires { array_vec_len found.old ≤ 1 }
    ensures items { found.new.items ≡ found.old.items ++ spec.address_in (first_argument location more.now operand) }
    ensures size { array_vec_len found.new ≤ array_vec_len found.old + 1 }
{
    add_address(found, operand, location.wrapping_add(4), word_at(more, 0));
}

// Adds the address in the second operand, if there is one.
fn add_second(found: &mut Addresses, location: u16, more: &[u16], first: Operand, operand: Operand)
    requires { array_vec_len found.old ≤ 1 }
    ensures items { found.new.items ≡ found.old.items ++ spec.address_in (second_argument location more.now first operand) }
{
    let before = words_of(first);
    let after = location.wrapping_add(4 + 2 * before as u16);
    add_address(found, operand, after, word_at(more, before));
}

// The addresses in the operands of an instruction at this location.
fn addresses_in(location: u16, more: &[u16], instruction: Insn) -> Addresses
    ensures { result.items ≡ spec.addresses_in (operands_of location more.now instruction) }
{
    let mut found = Addresses::new();
    match instruction {
        Insn::Double(_, _, source, destination) => {
            add_first(&mut found, location, more, source);
            add_second(&mut found, location, more, source, destination);
        }
        Insn::Extended(_, _, operand)
        | Insn::Register(_, _, operand)
        | Insn::Single(_, _, operand) => add_first(&mut found, location, more, operand),
        Insn::Sob(_, count) => found.push(loop_target(location, count)),
        Insn::Branch(..) => found.push(target_of(location, instruction)),
        Insn::Rts(_) | Insn::Number(..) | Insn::Bare(_) | Insn::Condition(..) | Insn::Reserved(_) =>
            {}
    }
    found
}

/// The addresses in the line of source for the word at this location and the words `more` that follow it, as `disassembled` makes it: those
/// of operands that are written as addresses, after `@#` too, and the target of a branch. Data has none.
pub fn addresses(location: u16, word: u16, more: &[u16]) -> Addresses
    ensures { result.items ≡ spec.addresses_of (statement_of location word more.now) }
{
    match whole_row(word, more) {
        Some(_) => addresses_in(location, more, decode(word)),
        None => Addresses::new(),
    }
}
