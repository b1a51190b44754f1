//! Words and bytes as numbers, and numbers as words and bytes.

ghost use Rattle.std.specs.Prelude.{◌≡◌, ◌<◌};
ghost use Rattle.m11_base.specs.Words.{modulo};
ghost use Rattle.m11_cpu_arithmetic.specs.Sizes.{size_limit, sign_bit, signed, overflows, is_outside, complement};

use m11_base::Size;

// The value as a signed number; its highest bit is the sign.
#[inline(always)]
pub(crate) fn signed(size: Size, value: u16) -> i32
    requires { value < size_limit size }
    ensures { result ≡ signed size value }
{
    match size {
        Size::Word => i32::from(value.cast_signed()),
        Size::Byte => i32::from((value as u8).cast_signed()),
    }
}

// The lowest 16 bits of an exact number for a word, or the lowest 8 for a byte.
#[inline(always)]
pub(crate) fn kept(size: Size, number: i32) -> u16
    ensures value { result ≡ modulo (size_limit size) number }
    ensures within { result < size_limit size }
{
    match size {
        Size::Word => truncate_to_word(number),
        Size::Byte => truncate_to_byte(number),
    }
}

#[inline(always)]
fn truncate_to_word(number: i32) -> u16
    ensures { result ≡ modulo 0o200000 number }
{
    (number.cast_unsigned() % 0o200000) as u16
}

#[inline(always)]
fn truncate_to_byte(number: i32) -> u16
    ensures { result ≡ modulo 0o400 number }
{
    (number.cast_unsigned() % 0o400) as u16
}

// Whether an exact signed number doesn't fit the size.
#[inline(always)]
pub(crate) fn overflows(size: Size, number: i32) -> bool
    ensures { result ≡ overflows size number }
{
    match size {
        Size::Word => number < -0o100000 || 0o077777 < number,
        Size::Byte => number < -0o200 || 0o177 < number,
    }
}

// Whether an exact unsigned number doesn't fit the size.
#[inline(always)]
pub(crate) fn is_outside(size: Size, number: i32) -> bool
    ensures { result ≡ is_outside size number }
{
    match size {
        Size::Word => number < 0 || 0o200000 <= number,
        Size::Byte => number < 0 || 0o400 <= number,
    }
}

// The value with only the highest bit set.
#[inline(always)]
pub(crate) fn sign_bit(size: Size) -> u16
    ensures { result ≡ sign_bit size }
{
    match size {
        Size::Word => 0o100000,
        Size::Byte => 0o200,
    }
}

// The value with every bit inverted.
#[inline(always)]
pub(crate) fn complement(size: Size, value: u16) -> u16
    requires { value < size_limit size }
    ensures value { result ≡ complement size value }
    ensures within { result < size_limit size }
{
    match size {
        Size::Word => 0o177777 - value,
        Size::Byte => 0o377 - value,
    }
}
