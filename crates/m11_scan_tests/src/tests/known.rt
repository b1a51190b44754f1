//! The values of names in these tests.

ghost use Rattle.std.specs.Prelude.{◌≡◌};
ghost use Rattle.m11_scan_expressions.specs.Quantities.{quantity};
ghost use Rattle.m11_scan_tests.specs.Known.{of_name, unknown};

use m11_base::Name;
use m11_scan::ErrorFlags;
use m11_scan_expressions::{Names, Radix, Symbol, Value};

// X is octal 12, no other symbol is known, and numbers are octal.
pub(crate) struct Known;

impl Names for Known {
    ghost use Rattle.m11_scan.specs.declared.radix.Radix.TheVariants.{Octal};
    ghost use Rattle.m11_scan_tests.specs.Known.{known};

    ghost base = { λ _. Octal };

    ghost value_of_symbol = { λ _ symbol. known symbol };

    fn radix(&self) -> Radix {
        Radix::Octal
    }

    fn meaning(&self, symbol: Symbol) -> Value {
        match symbol {
            Symbol::Ordinary(name) => of_name(name),
            Symbol::Local(_) => unknown(),
            Symbol::Counter => unknown(),
        }
    }
}

fn unknown() -> Value
    ensures { quantity result ≡ unknown }
{
    Value::absolute(0, ErrorFlags::U)
}

fn of_name(name: Name) -> Value
    ensures { quantity result ≡ of_name name }
{
    match name.words().0 {
        0o113000 => Value::absolute(10, ErrorFlags::none()),
        _ => unknown(),
    }
}
