//! Numbers in a source.

ghost use Rattle.std.specs.Prelude.{◌≡◌, ◌≤◌, ◌+◌, ◌++◌, length};
ghost use Rattle.arrayvec.specs.ArrayVec.{array_vec_len};
ghost use Rattle.m11_base_disassembly.specs.Numbers as spec;

use crate::source::{Source, put};
use m11_base::octal6;

// Digits without leading zeros. The last digit remains even if it is 0.
fn significant(digits: &[u8]) -> &[u8]
    ensures text { result.now ≡ spec.significant digits.now }
    ensures room { length result.now ≤ length digits.now }
{
    match digits {
        [b'0', others @ ..] if !others.is_empty() => significant(others),
        _ => digits,
    }
}

/// Adds a word in octal, without leading zeros.
pub(crate) fn put_number(line: &mut Source, word: u16)
    requires { array_vec_len line.old ≤ 42 }
    ensures text { line.new.items ≡ line.old.items ++ spec.number_text word }
    ensures room { array_vec_len line.new ≤ array_vec_len line.old + 6 }
{
    put(line, significant(&octal6(word)));
}

/// Adds `+` and a distance in octal, or nothing if it is 0.
pub(crate) fn put_distance(line: &mut Source, distance: u16)
    requires { array_vec_len line.old ≤ 41 }
    ensures items { line.new.items ≡ line.old.items ++ spec.distance_text distance }
    ensures size { array_vec_len line.new ≤ array_vec_len line.old + 7 }
{
    if distance != 0 {
        put(line, b"+");
        put_number(line, distance);
    }
}
