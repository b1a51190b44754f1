//! The bytes that relocations store. (RT-11 Volume and File Formats Manual, "Object file format", RLD block.)

ghost use Rattle.std.specs.Prelude.{◌≡◌, ◌≤◌, ◌<◌, ◌+◌, ◌-◌, ◌++◌, length, take, if◌then◌else◌};
ghost use Rattle.m11_obj_blocks.specs.Frames.{word_bytes};
ghost use Rattle.arrayvec.specs.ArrayVec.{array_vec_len};
ghost use Rattle.m11_link_text.specs.Findings.{planned};
ghost use Rattle.m11_link_text.specs.Relocation as spec;
ghost use Rattle.m11_link_modules.specs.Rules.{width_of};

use arrayvec::ArrayVec;
use byteorder::{ByteOrder, LittleEndian};
use m11_base::Name;
use m11_link_layout::Plan;
use m11_link_modules::TextRelocation;
use m11_obj::{Relocation, Target};

// The origin of a text: the index of its module, and the base of the module's contribution to the text's section.
#[derive(Clone, Copy)]
pub(crate) struct Origin {
    pub(crate) module_index: usize,
    pub(crate) base: u16,
}

// The value of a global; 0 if it isn't defined.
fn symbol(plan: &Plan, name: Name) -> u16
    ensures { result ≡ spec.symbol (planned plan.now) name }
{
    plan.value(name).unwrap_or(0)
}

// A value minus the address after the word at a location, modulo octal 200000.
fn displaced(value: u16, location: u16) -> u16
    ensures { result ≡ spec.less value (spec.following location) }
{
    value.wrapping_sub(location.wrapping_add(2))
}

// The value of a target at a location, modulo octal 200000; 0 for the limits and for commands that only select a location.
fn value_of(plan: &Plan, origin: Origin, location: u16, target: Target) -> u16
    ensures { result ≡ spec.value_of (planned plan.now) origin.module_index origin.base location target }
{
    let index = origin.module_index;
    match target {
        Target::Internal(constant) => origin.base.wrapping_add(constant),
        Target::Global(name) => symbol(plan, name),
        Target::InternalDisplaced(constant) => displaced(constant, location),
        Target::GlobalDisplaced(name) => displaced(symbol(plan, name), location),
        Target::GlobalAdditive(name, constant) => symbol(plan, name).wrapping_add(constant),
        Target::GlobalAdditiveDisplaced(name, constant) => {
            displaced(symbol(plan, name).wrapping_add(constant), location)
        }
        Target::Section(name) => plan.base(index, name),
        Target::SectionDisplaced(name) => displaced(plan.base(index, name), location),
        Target::SectionAdditive(name, constant) => plan.base(index, name).wrapping_add(constant),
        Target::SectionAdditiveDisplaced(name, constant) => {
            displaced(plan.base(index, name).wrapping_add(constant), location)
        }
        Target::LocationCounterDefinition(_, _) => 0,
        Target::LocationCounterModification(_) => 0,
        Target::ProgramLimits => 0,
    }
}

// Adds a word, its low byte first.
fn put_word(bytes: &mut ArrayVec<u8, 4>, word: u16)
    requires { array_vec_len bytes.old ≤ 2 }
    ensures { bytes.new.items ≡ bytes.old.items ++ word_bytes word }
{
    let mut pair = [0; 2];
    LittleEndian::write_u16(&mut pair, word);
    bytes.try_extend_from_slice(&pair).unwrap();
}

// The four bytes of the program's limits: the first address of the relocatable sections, and the address after the last relocatable
// section.
fn limit_bytes(plan: &Plan) -> ArrayVec<u8, 4>
    ensures width { array_vec_len result ≡ 4 }
    ensures bytes { result.items ≡ word_bytes plan.now.bottom ++ word_bytes plan.now.top }
{
    let (bottom, top) = plan.limits();
    let mut bytes = ArrayVec::new();
    put_word(&mut bytes, bottom);
    put_word(&mut bytes, top);
    bytes
}

// Writes these bytes over those of a text, beginning at this index.
// speed: inline, so that a word is stored at once.
#[inline(always)]
fn replace(text: &mut [u8], index: usize, bytes: &[u8])
    requires { index + length bytes.now ≤ length text.old }
    ensures { text.new ≡ spec.replaced text.old index bytes.now }
{
    text[index..index + bytes.len()].copy_from_slice(bytes);
}

// Stores a value at an index of a text: its word, or its low byte.
fn store_value(text: &mut [u8], index: usize, is_byte: bool, value: u16)
    requires { index + (if is_byte then 1 else 2) ≤ length text.old }
    ensures { text.new ≡ spec.replaced text.old index (spec.value_bytes is_byte value) }
{
    if is_byte {
        replace(text, index, &[(value % 256) as u8]);
    } else {
        let mut pair = [0; 2];
        LittleEndian::write_u16(&mut pair, value);
        replace(text, index, &pair);
    }
}

// Stores the bytes of a relocation at a location; the first of them has this index in the text. Commands that only select a
// location store none.
fn store(
    plan: &Plan,
    origin: Origin,
    location: u16,
    relocation: &Relocation,
    text: &mut [u8],
    index: usize,
)
    requires { index + width_of relocation.now.is_byte relocation.now.target ≤ length text.old }
    ensures { text.new ≡ spec.replaced text.old index (spec.stored_bytes (planned plan.now) origin.module_index
        origin.base location relocation.now.is_byte relocation.now.target) }
{
    match relocation.target {
        Target::ProgramLimits => replace(text, index, limit_bytes(plan).as_slice()),
        Target::LocationCounterDefinition(_, _) => replace(text, index, &[]),
        Target::LocationCounterModification(_) => replace(text, index, &[]),
        target => store_value(
            text,
            index,
            relocation.is_byte,
            value_of(plan, origin, location, target),
        ),
    }
}

/// Stores the bytes of a relocation in its text, which lies at this address in the module with this index. `base` is the base of
/// the module's contribution to the text's section. The stored bytes replace those that were there.
pub fn relocate(
    plan: &Plan,
    module_index: usize,
    base: u16,
    address: u16,
    relocation: &TextRelocation,
    text: &mut [u8],
)
    requires { relocation.now.text_length ≤ length text.old }
    ensures { text.new ≡ spec.relocated (planned plan.now) module_index base address relocation.now.relocation text.old }
{
    let index = relocation.index();
    let location = address.wrapping_add(u16::from(index));
    let origin = Origin { module_index, base };
    store(
        plan,
        origin,
        location,
        relocation.relocation(),
        text,
        usize::from(index),
    );
}
