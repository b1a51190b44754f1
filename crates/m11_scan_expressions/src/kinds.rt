//! What values are relative to. (MACRO-11 Language Reference Manual, "Evaluating relocatable and absolute expressions".)

ghost use Rattle.std.specs.Prelude.{◌≡◌, if◌then◌else◌, Some, None};
ghost use Rattle.m11_base.specs.Rad50.{is_same_name};
ghost use Rattle.m11_scan_expressions.specs.Kinds.{is_register, kind_of, refusal};
ghost use Rattle.m11_scan.specs.Views.{bits_of};
ghost use Rattle.m11_scan_expressions.specs.Operations.{absence};

use crate::operators::Operator;
use m11_base::Name;
use m11_scan::ErrorFlags;

/// What the number of a value is relative to.
#[derive(Clone, Copy, PartialEq, Eq)]
pub enum Kind {
    /// Nothing: the number is the value.
    Absolute,
    /// The base of the section with this name.
    Section(Name),
    /// Nothing: the number is a register's.
    Register,
    /// The value of this global symbol, which another object defines.
    Reference(Name),
}

impl Kind {
    /// Whether the number is a register's.
    pub fn is_register(self) -> bool
        ensures { result ≡ is_register self }
    {
        matches!(&self, Kind::Register)
    }

    /// The flag of a value of this kind where only an absolute number is allowed: none for an absolute number, R for a register,
    /// A for any other kind.
    pub fn absence(self) -> ErrorFlags
        ensures { bits_of result ≡ absence self }
    {
        match self {
            Kind::Absolute => ErrorFlags::none(),
            Kind::Register => refusal(true),
            Kind::Section(_) | Kind::Reference(_) => refusal(false),
        }
    }
}

// The kind of an operation's result; none if the operator doesn't allow these operands.
pub(crate) fn kind_of(operator: Operator, left: Kind, right: Kind) -> Option<Kind>
    ensures { result ≡ kind_of operator left right }
{
    match (operator, &left, &right) {
        (_, Kind::Absolute, Kind::Absolute) => Some(Kind::Absolute),
        (Operator::Add, kind, Kind::Absolute) => Some(*kind),
        (Operator::Add, Kind::Absolute, kind) => Some(*kind),
        (Operator::Subtract, kind, Kind::Absolute) => Some(*kind),
        (Operator::Subtract, Kind::Section(one), Kind::Section(other)) => apart(*one, *other),
        _ => None,
    }
}

// The kind of the difference of two numbers relative to the sections with these names: absolute if the names are the same, otherwise none.
fn apart(one: Name, other: Name) -> Option<Kind>
    ensures { result ≡ (if is_same_name one other then Some Kind.Absolute else None) }
{
    if one == other {
        Some(Kind::Absolute)
    } else {
        None
    }
}

// The flag of an operand that isn't allowed: R for a register, otherwise A.
pub(crate) fn refusal(is_register: bool) -> ErrorFlags
    ensures { bits_of result ≡ refusal is_register }
{
    if is_register {
        ErrorFlags::R
    } else {
        ErrorFlags::A
    }
}
