//! The operations on one operand. (PDP-11/40 Processor Handbook, "Instruction set".)

ghost use Rattle.std.specs.Prelude.{◌≡◌, ◌<◌};
ghost use Rattle.m11_cpu_arithmetic.specs.Sizes.{size_limit};
ghost use Rattle.m11_cpu_arithmetic.specs.Singles.{swapped, keeping_carry, negated, less_carry, stepped, sign_filled, single_result, rotated_right, rotated_left, halved};

use crate::doubles::{difference, sum};
use crate::results::{Computed, with_codes};
use crate::sizes::{complement, kept, overflows, sign_bit, signed};
use m11_base::{ConditionCodes, SingleOp, Size};

/// The result of an operation on its operand. `codes` are the condition codes before the operation. A byte operand is below octal 400, and
/// so is its result. JMP, and SWAB of a byte, compute nothing: value and codes stay as they are. The result of TST is stored nowhere.
/// (PDP-11/40 Processor Handbook, "Instruction set": single operand instructions.)
#[tactic(auto, unfolding(crate::specs::Singles::single_result))]
#[inline(always)]
pub fn single(operation: SingleOp, size: Size, value: u16, codes: ConditionCodes) -> Computed
    requires { value < size_limit size }
    ensures computed { result ≡ single_result operation size value codes }
    ensures within { result.value < size_limit size }
{
    match operation {
        SingleOp::Jmp => Computed { value, codes },
        SingleOp::Swab => swapped(size, value, codes),
        SingleOp::Clr => with_codes(size, 0, false, false),
        SingleOp::Com => with_codes(size, complement(size, value), false, true),
        SingleOp::Inc => keeping_carry(codes, sum(size, value, 1)),
        SingleOp::Dec => keeping_carry(codes, difference(size, value, 1)),
        SingleOp::Neg => negated(size, value),
        SingleOp::Adc => sum(size, value, u16::from(codes.carry)),
        SingleOp::Sbc => less_carry(size, value, codes.carry),
        SingleOp::Tst => with_codes(size, value, false, false),
        SingleOp::Ror => rotated_right(size, value, codes.carry),
        SingleOp::Rol => rotated_left(size, value, codes.carry),
        SingleOp::Asr => halved(size, value),
        SingleOp::Asl => rotated_left(size, value, false),
        SingleOp::Sxt => sign_filled(size, codes),
    }
}

// A word with its two bytes swapped. N and Z are those of the byte that is now the lower one, and V and C are clear. A byte and its codes
// stay as they were.
#[inline(always)]
fn swapped(size: Size, value: u16, codes: ConditionCodes) -> Computed
    requires { value < size_limit size }
    ensures { result ≡ swapped size value codes }
{
    match size {
        Size::Word => Computed {
            value: value % 0o400 * 0o400 + value / 0o400,
            codes: with_codes(Size::Byte, value / 0o400, false, false).codes,
        },
        Size::Byte => Computed { value, codes },
    }
}

// The result, but with C as it is in `codes`.
#[inline(always)]
fn keeping_carry(codes: ConditionCodes, computed: Computed) -> Computed
    ensures { result ≡ keeping_carry codes computed }
{
    Computed {
        codes: ConditionCodes {
            carry: codes.carry,
            ..computed.codes
        },
        ..computed
    }
}

// The negative of a value. V is set if the exact signed negative doesn't fit the size, and C unless the result is 0.
#[inline(always)]
fn negated(size: Size, value: u16) -> Computed
    requires { value < size_limit size }
    ensures { result ≡ negated size value }
{
    let opposite = kept(size, -i32::from(value));
    let overflow = overflows(size, -signed(size, value));
    with_codes(size, opposite, overflow, opposite != 0)
}

// The value less the carry. V is set if C was set and the value was the sign bit alone; C is set if C was set and the value was 0.
#[inline(always)]
fn less_carry(size: Size, value: u16, carry: bool) -> Computed
    requires { value < size_limit size }
    ensures { result ≡ less_carry size value carry }
{
    let left = kept(size, i32::from(value) - i32::from(carry));
    with_codes(
        size,
        left,
        value == sign_bit(size) && carry,
        value == 0 && carry,
    )
}

// A value after a shift by one place. C is `bit`, the bit shifted out, and V is set if N and C differ.
#[inline(always)]
fn stepped(size: Size, value: u16, bit: bool) -> Computed
    requires { value < size_limit size }
    ensures { result ≡ stepped size value bit }
{
    with_codes(size, value, (signed(size, value) < 0) ^ bit, bit)
}

// The value shifted one place to the right, with the carry as the highest bit.
#[inline(always)]
fn rotated_right(size: Size, value: u16, carry: bool) -> Computed
    requires { value < size_limit size }
    ensures { result ≡ rotated_right size value carry }
{
    let front = if carry { sign_bit(size) } else { 0 };
    stepped(size, value / 2 + front, value % 2 == 1)
}

// The value shifted one place to the left, with the carry as the lowest bit.
#[inline(always)]
fn rotated_left(size: Size, value: u16, carry: bool) -> Computed
    requires { value < size_limit size }
    ensures { result ≡ rotated_left size value carry }
{
    let doubled = kept(size, i32::from(value) * 2 + i32::from(carry));
    stepped(size, doubled, sign_bit(size) <= value)
}

// The value shifted one place to the right, with the sign bit as before.
#[inline(always)]
fn halved(size: Size, value: u16) -> Computed
    requires { value < size_limit size }
    ensures { result ≡ halved size value }
{
    stepped(size, kept(size, signed(size, value) >> 1), value % 2 == 1)
}

// The result of SXT: each bit of the value is N. Z is set if N is clear, V is clear, and N and C stay as they were.
#[inline(always)]
fn sign_filled(size: Size, codes: ConditionCodes) -> Computed
    ensures { result ≡ sign_filled size codes }
{
    Computed {
        value: if codes.negative {
            complement(size, 0)
        } else {
            0
        },
        codes: ConditionCodes {
            zero: !codes.negative,
            overflow: false,
            ..codes
        },
    }
}
