//! The operations of instructions, by their names. (MACRO-11 Language Reference Manual, "Permanent symbol table".)

ghost use Rattle.std.specs.Prelude.{◌≡◌, ◌++◌, option_map, slice_get};
ghost use Rattle.m11_base.specs.Instructions.{other_names, rows};
ghost use Rattle.m11_base.specs.Mnemonics.{named_in, or_else};
ghost use Rattle.m11_asm_operands.specs.Hashes.{hash_of, operation_named};

use m11_base::{Op, Row, other_names, rows};
use m11_scan::is_same_six;

// For each hash, the index of the only row whose name has this hash. Indices count through the list of instructions and then through the
// list of further names. There are 89 rows; 99, the index of no row, marks a hash that no name has. The proof of `operation_of` shows that
// no row is missed; it fails if a row is added and this table isn't computed again.
// speed: searching the rows one by one would compare 40 of them for a common name.
#[rattlefmt::skip]
static INDICES: [u8; 256] = [
    99, 72, 69, 99, 83, 99, 99, 5, 99, 99, 99, 99, 99, 99, 99, 99,
    99, 99, 66, 48, 84, 99, 99, 99, 99, 99, 63, 99, 99, 99, 99, 10,
    99, 99, 99, 99, 99, 99, 99, 87, 99, 99, 99, 6, 35, 77, 99, 99,
    99, 4, 40, 99, 88, 99, 99, 99, 8, 76, 99, 99, 99, 0, 22, 61,
    43, 99, 99, 99, 27, 99, 99, 68, 99, 99, 2, 99, 99, 99, 99, 80,
    99, 99, 30, 86, 36, 99, 99, 38, 99, 99, 99, 18, 99, 99, 99, 99,
    57, 71, 51, 44, 99, 49, 23, 99, 99, 25, 64, 99, 99, 99, 99, 99,
    15, 99, 99, 99, 79, 31, 99, 99, 99, 99, 99, 14, 99, 99, 99, 99,
    50, 99, 13, 60, 99, 99, 99, 82, 99, 99, 99, 99, 99, 33, 99, 9,
    16, 73, 99, 99, 99, 99, 99, 7, 99, 99, 99, 99, 99, 75, 99, 99,
    99, 3, 99, 65, 55, 99, 59, 99, 99, 1, 78, 99, 74, 99, 99, 99,
    20, 46, 99, 81, 99, 99, 99, 52, 99, 99, 99, 99, 99, 99, 19, 99,
    99, 99, 99, 99, 99, 99, 99, 99, 99, 99, 56, 99, 99, 45, 41, 99,
    99, 70, 99, 99, 99, 37, 42, 99, 99, 34, 53, 99, 39, 99, 99, 32,
    28, 99, 99, 12, 99, 99, 47, 24, 29, 99, 99, 21, 99, 99, 26, 85,
    99, 99, 99, 62, 99, 99, 99, 67, 99, 99, 17, 11, 99, 99, 99, 54,
];

/// The operation with this six-character name, if there is one: from the list of instructions, or else from the list of further names.
#[tactic(auto, using(crate::proofs::OneRow::only_row))]
pub(crate) fn operation_of(name: &[u8; 6]) -> Option<Op>
    ensures { result ≡ or_else (named_in rows name.now) (named_in other_names name.now) }
{
    let index = INDICES[hash_of(name)];
    operation_in(row_at(usize::from(index)), name)
}

// A hash of the first four characters of a name, from 0 to 255. The factors were found by trial: with them, no two names of operations have
// the same hash.
fn hash_of(name: &[u8; 6]) -> usize
    ensures { result ≡ hash_of name.now }
{
    let [first, second, third, fourth, _, _] = *name;
    let sum = usize::from(first) * 3
        + usize::from(second) * 240
        + usize::from(third) * 25
        + usize::from(fourth) * 7;
    sum % 256
}

// The row at an index in the list of instructions followed by the list of further names; None past the end of both.
fn row_at(index: usize) -> Option<&'static Row>
    ensures { option_map (λ row. row.now) result ≡ slice_get (rows ++ other_names) index }
{
    let list = rows();
    match list.get(index) {
        Some(row) => Some(row),
        None => other_names().get(index - list.len()),
    }
}

// The operation of a row, if the row has this name.
fn operation_in(row: Option<&Row>, name: &[u8; 6]) -> Option<Op>
    ensures { result ≡ operation_named (option_map (λ row. row.now) row.entry) name.now }
{
    match row {
        Some(row) if is_same_six(&row.name, name) => Some(row.operation),
        _ => None,
    }
}
