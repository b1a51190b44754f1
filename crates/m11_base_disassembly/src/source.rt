//! Buffers for lines of source.

ghost use Rattle.std.specs.Prelude.{◌≡◌, ◌≤◌, ◌+◌, ◌++◌, length};
ghost use Rattle.arrayvec.specs.ArrayVec.{array_vec_len};

use arrayvec::ArrayVec;

/// A line of source, without a line feed. The longest line has two deferred indexed operands with names.
pub type Source = ArrayVec<u8, 48>;

/// Adds bytes to a line.
pub(crate) fn put(line: &mut Source, bytes: &[u8])
    requires { array_vec_len line.old + length bytes.now ≤ 48 }
    ensures items { line.new.items ≡ line.old.items ++ bytes.now }
    ensures size { array_vec_len line.new ≡ array_vec_len line.old + length bytes.now }
{
    line.try_extend_from_slice(bytes).unwrap();
}
