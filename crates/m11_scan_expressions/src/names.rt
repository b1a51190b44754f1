//! The symbols that an expression can contain, and the trait that supplies their values. (MACRO-11 Language Reference Manual,
//! "Symbols", "Local symbols" and "Current location counter".)

ghost use Rattle.std.specs.Prelude.{◌≡◌};
ghost use Rattle.m11_scan.specs.declared.radix.Radix.{Radix};
ghost use Rattle.m11_scan_expressions.specs.Quantities.{Quantity, quantity};
ghost use Rattle.m11_scan_expressions.specs.declared.names.Symbol.{Symbol};

use crate::values::Value;
use m11_base::Name;
use m11_scan::Radix;

/// A symbol that an expression can contain.
#[derive(Clone, Copy, PartialEq, Eq)]
pub enum Symbol {
    /// A name.
    Ordinary(Name),
    /// A local symbol with its number, 1 to 65535.
    Local(u16),
    /// `.`, the location counter.
    Counter,
}

/// The radix and the values of symbols with which expressions are evaluated. Each symbol has a value; the value of an unknown
/// symbol has flags that say so.
pub trait Names {
    // The radix of numbers without a radix of their own.
    ghost base: { Self → Radix };

    // The value of each symbol.
    ghost value_of_symbol: { Self → Symbol → Quantity };

    /// The radix of numbers without a radix of their own.
    fn radix(&self) -> Radix
        ensures { result ≡ base self.now };

    /// The value of a symbol.
    fn meaning(&self, symbol: Symbol) -> Value
        ensures { quantity result ≡ value_of_symbol self.now symbol };
}
