//! `.GLOBL` and `.WEAK`. (MACRO-11 Language Reference Manual, ".GLOBL directive" and ".WEAK directive".)

ghost use Rattle.std.specs.Prelude.{◌≡◌, [], ◌∷◌};
ghost use Rattle.std.specs.Int.RustNames.{bit_or};
ghost use Rattle.std.specs.Option.{option_to_list};
ghost use Rattle.m11_scan.specs.Views.{bits_of};
ghost use Rattle.m11_asm_rules.specs.Elements.{argument_flags, bad_flags, names_of, texts_of};
ghost use Rattle.m11_asm_rules.specs.Exports as spec;
ghost use Rattle.m11_asm_directives.specs.Settings.{effect_model};

use crate::settings::{Effect, Setting};
use m11_asm_operands::{ListedNames, argument_flags};
use m11_base::Name;
use m11_scan::{ErrorFlags, Line, read_name};
use m11_scan_statements::Span;

/// Reads a `.GLOBL`, which makes its names global, or a `.WEAK`, which makes them global and weak. An element that isn't a name is flagged
/// A.
pub fn exported(names: &mut ListedNames, is_weak: bool, line: &Line, start: u8) -> Effect
    ensures { effect_model line.now.text names.new.list.items result ≡ spec.exported is_weak line.now.text start }
{
    names.read(line, start);
    Effect {
        setting: Setting::Export(is_weak),
        flags: names_flags(line, start, names),
    }
}

/// The name that an element of a list contains; None for an element that isn't a valid name.
pub fn listed_name(line: &Line, name: Option<Span>) -> Option<Name>
    ensures { option_to_list result ≡ names_of (texts_of line.now.text (name ∷ [])) }
{
    match name {
        Some(name) => read_name(name.text(line)),
        None => None,
    }
}

/// The flags of arguments that begin at the column `start` and end with this list of names: A for an element that isn't a name, I for
/// skipped characters, and the flags of what is left over after the list.
pub(crate) fn names_flags(line: &Line, start: u8, names: &ListedNames) -> ErrorFlags
    ensures { bits_of result ≡ bit_or (bad_flags names.now.list.items) (argument_flags line.now.text start names.now.end) }
{
    bad_flags(names.list.as_slice()).with(argument_flags(line, start, names.end))
}

// A for an element that isn't a name.
fn bad_flags(names: &[Option<Span>]) -> ErrorFlags
    ensures { bits_of result ≡ bad_flags names.now }
{
    let mut rest = names;
    'names: while let [name, others @ ..] = rest {
        if name.is_none() {
            return ErrorFlags::A;
        }
        rest = others;
    }
    ErrorFlags::none()
}
