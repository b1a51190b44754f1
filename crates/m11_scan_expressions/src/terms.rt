//! The values of terms that are one token. (MACRO-11 Language Reference Manual, "Terms".)

ghost use Rattle.std.specs.Prelude.{◌≡◌, option_map, unwrap_or};
ghost use Rattle.m11_scan.specs.Views.{bits_of, lexeme};
ghost use Rattle.m11_scan_expressions.specs.Quantities.{absolute, quantity};
ghost use Rattle.m11_scan_expressions.specs.Terms as spec;
ghost use Rattle.m11_scan_expressions.specs.declared.names.Symbol.TheVariants.{Ordinary};
ghost use Rattle.m11_scan_expressions.specs.Terms.{atom_value, is_counter, item, local_symbol, name_symbol, symbol_in};

use crate::names::{Names, Symbol};
use crate::values::Value;
use m11_base::Name;
use m11_scan::{ErrorFlags, Line, Number, Radix, Sort, Token, read_name, read_number, read_packed};

// The value of a token as a term. A token that isn't a term counts as a missing one, and a local symbol outside 1 to 65535 is 0, flagged A.
pub(crate) fn atom<N: Names>(token: &Token, radix: Radix, line: &Line, names: &N) -> Value
    ensures { quantity result
        ≡ atom_value radix (item (N.value_of_symbol names.now) (lexeme line.now.text token.now)).atom }
{
    let text = token.text(line);
    match token.sort {
        Sort::Name => meaning_or(names, symbol_in(Sort::Name, text), Value::missing()),
        Sort::LocalSymbol => meaning_or(
            names,
            symbol_in(Sort::LocalSymbol, text),
            Value::absolute(0, ErrorFlags::A),
        ),
        Sort::Number => of_number(read_number(text, radix)),
        Sort::DecimalNumber => of_number(read_number(front_of(text), Radix::Decimal)),
        Sort::Character => character(text),
        Sort::TwoCharacters => two_characters(text),
        Sort::Packed => packed(text),
        _ => Value::missing(),
    }
}

fn of_number(number: Number) -> Value
    ensures { quantity result ≡ absolute number.value (bits_of number.flags) }
{
    Value::absolute(number.value, number.flags)
}

// speed: inline, since this is called for each symbol of an expression, and a call would pass its result through memory.
#[inline(always)]
fn meaning_or<N: Names>(names: &N, symbol: Option<Symbol>, other: Value) -> Value
    ensures { quantity result ≡ unwrap_or (option_map (N.value_of_symbol names.now) symbol) (quantity other) }
{
    match symbol {
        Some(symbol) => names.meaning(symbol),
        None => other,
    }
}

// The symbol that a token of this sort and text refers to, if any.
// speed: inline, since this is called for each symbol of an expression, and a call would pass its result through memory.
#[inline(always)]
pub(crate) fn symbol_in(sort: Sort, text: &[u8]) -> Option<Symbol>
    ensures { result ≡ symbol_in sort text.now }
{
    match sort {
        Sort::Name => name_symbol(text),
        Sort::LocalSymbol => local_symbol(front_of(text)),
        _ => None,
    }
}

// speed: inline, since this is called for each symbol of an expression, and a call would pass its result through memory.
#[inline(always)]
fn name_symbol(text: &[u8]) -> Option<Symbol>
    ensures { result ≡ name_symbol text.now }
{
    if is_counter(text) {
        Some(Symbol::Counter)
    } else {
        ordinary(read_name(text))
    }
}

fn is_counter(text: &[u8]) -> bool
    ensures { result ≡ is_counter text.now }
{
    matches!(text, [b'.'])
}

fn ordinary(name: Option<Name>) -> Option<Symbol>
    ensures { result ≡ option_map Ordinary name }
{
    match name {
        Some(name) => Some(Symbol::Ordinary(name)),
        None => None,
    }
}

// The local symbol with these digits, unless its number is 0 or over 65535.
fn local_symbol(digits: &[u8]) -> Option<Symbol>
    ensures { result ≡ local_symbol digits.now }
{
    let number = read_number(digits, Radix::Decimal);
    if number.value == 0 {
        return None;
    }
    if number.flags == ErrorFlags::none() {
        Some(Symbol::Local(number.value))
    } else {
        None
    }
}

// All but the last character.
fn front_of(text: &[u8]) -> &[u8]
    ensures { result.now ≡ spec.front_of text.now }
{
    &text[..text.len().saturating_sub(1)]
}

fn character(text: &[u8]) -> Value
    ensures { quantity result ≡ spec.character text.now }
{
    match text {
        [_, first, ..] => Value::absolute(u16::from(*first), ErrorFlags::none()),
        _ => Value::missing(),
    }
}

fn two_characters(text: &[u8]) -> Value
    ensures { quantity result ≡ spec.two_characters text.now }
{
    match text {
        [_, first, second, ..] => {
            Value::absolute(
                u16::from(*first) + 256 * u16::from(*second),
                ErrorFlags::none(),
            )
        }
        _ => Value::missing(),
    }
}

// The value of `^R` and the characters after it; that of a missing term if there are no characters.
fn packed(text: &[u8]) -> Value
    ensures { quantity result ≡ spec.packed text.now }
{
    match text {
        [_, _, characters @ ..] => of_number(read_packed(characters)),
        _ => Value::missing(),
    }
}
