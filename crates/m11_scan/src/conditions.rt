//! The names of conditions. (MACRO-11 Language Reference Manual, "Conditional assembly block directives".)

ghost use Rattle.std.specs.Prelude.{◌≡◌};
ghost use Rattle.m11_base.specs.NameCharacters.{six_of};
ghost use Rattle.m11_scan.specs.Conditions.{condition_named};

use crate::names::{is_same_six, six_characters};

/// A condition of `.IF` or `.IIF`.
#[derive(Clone, Copy, PartialEq, Eq)]
pub enum Condition {
    /// EQ: an expression is zero.
    Zero,
    /// NE: an expression isn't zero.
    NotZero,
    /// GT: an expression is greater than zero, as a signed word.
    Positive,
    /// LT: an expression is less than zero, as a signed word.
    Negative,
    /// GE: an expression is zero or greater, as a signed word.
    NotNegative,
    /// LE: an expression is zero or less, as a signed word.
    NotPositive,
    /// DF: a symbol is defined. Several such tests may be combined by `&` (and) and `!` (or).
    Defined,
    /// NDF: a symbol isn't defined. Several such tests may be combined by `&` (and) and `!` (or).
    NotDefined,
    /// B: an argument is empty or has only blanks and tabs.
    Blank,
    /// NB: an argument has a character other than blanks and tabs.
    NotBlank,
    /// IDN: two arguments are equal.
    Identical,
    /// DIF: two arguments differ.
    Different,
}

// A condition and its name, padded with blanks to six characters.
#[derive(Clone, Copy)]
struct ConditionRow {
    name: [u8; 6],
    condition: Condition,
}

#[rattlefmt::skip]
const CONDITIONS: [ConditionRow; 12] = [
    ConditionRow { name: *b"EQ    ", condition: Condition::Zero },
    ConditionRow { name: *b"NE    ", condition: Condition::NotZero },
    ConditionRow { name: *b"GT    ", condition: Condition::Positive },
    ConditionRow { name: *b"LT    ", condition: Condition::Negative },
    ConditionRow { name: *b"GE    ", condition: Condition::NotNegative },
    ConditionRow { name: *b"LE    ", condition: Condition::NotPositive },
    ConditionRow { name: *b"DF    ", condition: Condition::Defined },
    ConditionRow { name: *b"NDF   ", condition: Condition::NotDefined },
    ConditionRow { name: *b"B     ", condition: Condition::Blank },
    ConditionRow { name: *b"NB    ", condition: Condition::NotBlank },
    ConditionRow { name: *b"IDN   ", condition: Condition::Identical },
    ConditionRow { name: *b"DIF   ", condition: Condition::Different },
];

/// The condition with this name, if there is one. Letters may be of either case, and only the first six characters count.
pub fn read_condition(name: &[u8]) -> Option<Condition>
    ensures { result ≡ condition_named (six_of name.now) }
{
    let six = six_characters(name);
    let found = CONDITIONS.iter().find(|row| is_same_six(&row.name, &six));
    match found {
        Some(row) => Some(row.condition),
        None => None,
    }
}
