//! The attributes of `.PSECT`. (MACRO-11 Language Reference Manual, "Program section directives".)

ghost use Rattle.std.specs.Prelude.{◌≡◌, [], ◌∷◌, is_none, not};
ghost use Rattle.std.specs.List.{list_any};
ghost use Rattle.std.specs.Option.{option_to_list};
ghost use Rattle.m11_obj.specs.Attributes as sections;
ghost use Rattle.m11_scan.specs.Views.{bits_of};
ghost use Rattle.m11_asm_rules.specs.Elements.{texts_of};
ghost use Rattle.m11_asm_rules.specs.Psects as spec;

use bitflags::Flags;
use m11_asm_rules::Section;
use m11_obj::{Attribute, SectionFlags, attribute_named};
use m11_scan::{ErrorFlags, Line, six_characters};
use m11_scan_statements::Span;

// Section flags changed by the attribute that an element of a list names, if it names one.
fn with_named(flags: SectionFlags, line: &Line, name: Option<Span>) -> SectionFlags
    ensures { sections.bits_of result
        ≡ spec.with_attributes (sections.bits_of flags) (spec.attributes_named (texts_of line.now.text (name ∷ []))) }
{
    match named(line, name) {
        Some(attribute) => attribute.put_in(flags),
        None => flags,
    }
}

// The attribute that an element of a list names, if any.
fn named(line: &Line, name: Option<Span>) -> Option<Attribute>
    ensures { option_to_list result ≡ spec.attributes_named (texts_of line.now.text (name ∷ [])) }
{
    match name {
        Some(name) => attribute_named(&six_characters(name.text(line))),
        None => None,
    }
}

/// Section flags changed by the attributes in a list. Of two attributes for the same bit the last one counts.
pub fn with_attributes(flags: SectionFlags, line: &Line, names: &[Option<Span>]) -> SectionFlags
    ensures { sections.bits_of result
        ≡ spec.with_attributes (sections.bits_of flags) (spec.attributes_named (texts_of line.now.text names.now)) }
{
    let mut after = flags;
    let mut rest = names;
    'names: while let [name, others @ ..] = rest {
        after = with_named(after, line, *name);
        rest = others;
    }
    after
}

// Whether a list has a name that isn't the name of an attribute. An element that isn't a name doesn't count.
pub(crate) fn has_unnamed(line: &Line, names: &[Option<Span>]) -> bool
    ensures { result ≡ list_any (λ name. is_none (sections.attribute_named name)) (texts_of line.now.text names.now) }
{
    let mut rest = names;
    'names: while let [name, others @ ..] = rest {
        if is_unnamed(line, *name) {
            return true;
        }
        rest = others;
    }
    false
}

fn is_unnamed(line: &Line, name: Option<Span>) -> bool
    ensures { result ≡ list_any (λ name. is_none (sections.attribute_named name)) (texts_of line.now.text (name ∷ [])) }
{
    match name {
        Some(name) => attribute_named(&six_characters(name.text(line))).is_none(),
        None => false,
    }
}

/// A if a list names an attribute that a known section doesn't have; no flag for a new section.
pub fn differing_flags(known: &Option<Section>, line: &Line, names: &[Option<Span>]) -> ErrorFlags
    ensures { bits_of result ≡ spec.differing_flags known.now (spec.attributes_named (texts_of line.now.text names.now)) }
{
    match known {
        Some(known) => ErrorFlags::A.when(has_differing(known, line, names)),
        None => ErrorFlags::none(),
    }
}

fn has_differing(known: &Section, line: &Line, names: &[Option<Span>]) -> bool
    ensures { result ≡ list_any (λ attribute. not (sections.has_attribute known.now.attributes attribute))
        (spec.attributes_named (texts_of line.now.text names.now)) }
{
    let mut rest = names;
    'names: while let [name, others @ ..] = rest {
        if differs(known, line, *name) {
            return true;
        }
        rest = others;
    }
    false
}

fn differs(known: &Section, line: &Line, name: Option<Span>) -> bool
    ensures { result ≡ list_any (λ attribute. not (sections.has_attribute known.now.attributes attribute))
        (spec.attributes_named (texts_of line.now.text (name ∷ []))) }
{
    match named(line, name) {
        Some(attribute) => !has_attribute(known, attribute),
        None => false,
    }
}

// Whether a section has an attribute.
fn has_attribute(section: &Section, attribute: Attribute) -> bool
    ensures { result ≡ sections.has_attribute section.now.attributes attribute }
{
    attribute.is_in(SectionFlags::from_bits_retain(section.attributes))
}
