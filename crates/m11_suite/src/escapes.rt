//! Bytes as a case writes them: hexadecimal or octal digits, and texts with escapes.

ghost use Rattle.std.specs.Prelude.{◌≡◌, ◌≤◌, ◌<◌, IfOk, IfSome, length};
ghost use Rattle.m11_suite.specs.Escapes.{digit_of, hex_byte, octal_byte};

use crate::fault::LineFault;
use std::alloc::Global;

// The value of a character as a digit, if it is one in this base.
fn digit(byte: u8, base: u32) -> Option<u8>
    requires low { 2 ≤ base }
    requires high { base ≤ 16 }
    ensures value { result ≡ digit_of base byte }
    ensures below { IfSome result (λ number. number < base) }
{
    let number = char::from(byte).to_digit(base)?;
    Some(number as u8)
}

/// The byte that two hexadecimal digits spell; None for any other text.
pub(crate) fn byte_of_hex(digits: &[u8]) -> Option<u8>
    ensures { result ≡ hex_byte digits.now }
{
    match digits {
        [high, low] => Some(digit(*high, 16)? * 16 + digit(*low, 16)?),
        _ => None,
    }
}

/// The byte that three octal digits spell, up to 377; None for any other text.
pub(crate) fn byte_of_octal(digits: &[u8]) -> Option<u8>
    ensures { result ≡ octal_byte digits.now }
{
    match digits {
        [high, middle, low] => {
            let high = digit(*high, 8)?;
            let rest = digit(*middle, 8)? * 8 + digit(*low, 8)?;
            if high < 4 {
                Some(high * 64 + rest)
            } else {
                None
            }
        }
        _ => None,
    }
}

// The first byte of a text, and the text after it. The byte is written as itself, or as an escape: `\t`, `\r`, `\0`, `\\`, or `\x` with two
// hexadecimal digits. Error: `BadEscape`, for any other escape, and for an empty text.
fn first_of(text: &[u8]) -> Result<(u8, &[u8]), LineFault>
    ensures { IfOk result (λ r. length r.1.now < length text.now) }
{
    match text {
        [b'\\', b't', rest @ ..] => Ok((b'\t', rest)),
        [b'\\', b'r', rest @ ..] => Ok((b'\r', rest)),
        [b'\\', b'0', rest @ ..] => Ok((0, rest)),
        [b'\\', b'\\', rest @ ..] => Ok((b'\\', rest)),
        [b'\\', b'x', high, low, rest @ ..] => {
            let byte = byte_of_hex(&[*high, *low]).ok_or(LineFault::BadEscape)?;
            Ok((byte, rest))
        }
        [] | [b'\\', ..] => Err(LineFault::BadEscape),
        [byte, rest @ ..] => Ok((*byte, rest)),
    }
}

/// The bytes of a text with escapes. Errors: `BadEscape`; `NoMemory`.
pub(crate) fn unescaped(alloc: Global, text: &[u8]) -> Result<Vec<u8>, LineFault> {
    let mut bytes = Vec::new(alloc);
    let mut rest = text;
    'bytes: while !rest.is_empty() {
        let (byte, after) = first_of(rest)?;
        bytes.push(byte)?;
        rest = after;
    }
    Ok(bytes)
}

/// The text of a word or a path with escapes. Errors: `BadEscape`; `BadText` if the bytes aren't UTF-8; `NoMemory`.
pub(crate) fn unescaped_text(alloc: Global, text: &str) -> Result<String, LineFault> {
    let bytes = unescaped(alloc, text.as_bytes())?;
    match String::from_utf8(bytes) {
        Ok(text) => Ok(text),
        Err(_) => Err(LineFault::BadText),
    }
}
