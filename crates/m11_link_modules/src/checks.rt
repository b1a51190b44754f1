//! Checks of one part of an object against what is known of the parts before it.

ghost use Rattle.std.specs.Prelude.{◌≡◌, length, IfOk, Some};
ghost use Rattle.m11_link_modules.specs.Rules.{returned, outcome_of, entering_fault, entry_fault, is_past, opening_fault, location_fault, relocation_fault, section_fault, symbol_fault, global_fault, target_fault, text_fault, defines_relocatable};
ghost use Rattle.m11_link_modules.specs.TextRelocation.{in_text_before, stored_in};

use crate::entered::EnteredSections;
use crate::fault::ModuleFault;
use crate::stage::Stage;
use crate::text_relocation::TextRelocation;
use bitflags::Flags;
use m11_base::{Name, SeededSet};
use m11_obj::{GsdEntry, GsdKind, Relocation, SymbolFlags, Target};

/// The most modules that a link may have.
pub(crate) const MOST_MODULES: usize = 32;

// The most names of sections that all modules together may have.
const MOST_SECTIONS: usize = 256;

// The most names of globals that all modules together may have.
const MOST_GLOBALS: usize = 8192;

/// Checks a directory record or an end of a directory: `BadOrder` in the body of a module; `TooManyModules` if it would begin the
/// 33rd module.
pub(crate) fn check_begin(stage: Stage, modules: usize) -> Result<(), ModuleFault>
    ensures { result ≡ returned (opening_fault stage modules) }
{
    match stage {
        Stage::InBody => Err(ModuleFault::BadOrder),
        Stage::InDirectory => Ok(()),
        Stage::Between => {
            if modules >= MOST_MODULES {
                return Err(ModuleFault::TooManyModules);
            }
            Ok(())
        }
    }
}

/// Checks that a text doesn't end past the end of its section, which has `size` bytes; otherwise the fault is `TextOutside`. The
/// text's address is an offset in bytes in the section. Returns the text's length in bytes.
pub(crate) fn check_text(size: u16, address: u16, bytes: &[u8]) -> Result<u16, ModuleFault>
    ensures judged { outcome_of result ≡ returned (text_fault size address (length bytes.now)) }
    ensures text_length { IfOk result (λ count. count ≡ length bytes.now) }
{
    if usize::from(address) + bytes.len() > usize::from(size) {
        return Err(ModuleFault::TextOutside);
    }
    Ok(bytes.len() as u16)
}

// Whether a name would be one too many: it is new, and there are at least `most` names already. The name is looked up only if there
// are that many.
fn is_past(most: usize, names: &SeededSet<Name>, name: Name) -> bool
    ensures { result ≡ is_past most names.now.keys name }
{
    names.len() >= most && !names.contains(&name)
}

/// Checks an entry of a directory. Faults: for a section, `BadOrder`, then `TooManySections`; for a transfer address,
/// `UnknownSection`; for a global symbol, `BadOrder`, then `TooManyGlobals`. Entries of other kinds have no fault.
pub(crate) fn check_entry(
    entry: &GsdEntry,
    entered: &mut EnteredSections,
    sections: &SeededSet<Name>,
    globals: &SeededSet<Name>,
) -> Result<(), ModuleFault>
    ensures judged { result ≡ returned (entry_fault entry.now.kind entry.now entered.old sections.now.keys globals.now.keys) }
    ensures same { entered.new ≡ entered.old }
{
    match entry.kind {
        GsdKind::ControlSection => check_entering(entered, sections, entry.name),
        GsdKind::ProgramSection => check_entering(entered, sections, entry.name),
        GsdKind::TransferAddress => check_section(entered, entry.name),
        GsdKind::GlobalSymbol => check_symbol(entry, entered, globals),
        GsdKind::ModuleName | GsdKind::InternalSymbol | GsdKind::Identification => Ok(()),
    }
}

// Checks that the module hasn't entered this section yet, and that its name isn't one too many.
fn check_entering(
    entered: &EnteredSections,
    sections: &SeededSet<Name>,
    name: Name,
) -> Result<(), ModuleFault>
    ensures { result ≡ returned (entering_fault entered.now sections.now.keys name) }
{
    if entered.contains(name) {
        return Err(ModuleFault::BadOrder);
    }
    if is_past(MOST_SECTIONS, sections, name) {
        return Err(ModuleFault::TooManySections);
    }
    Ok(())
}

// Checks a global symbol: a relocatable definition must come after the entry of a section, and the name must not be one too many.
fn check_symbol(
    entry: &GsdEntry,
    entered: &EnteredSections,
    globals: &SeededSet<Name>,
) -> Result<(), ModuleFault>
    ensures { result ≡ returned (symbol_fault entry.now entered.now globals.now.keys) }
{
    if defines_relocatable(entry) && entered.is_empty() {
        return Err(ModuleFault::BadOrder);
    }
    check_global(globals, entry.name)
}

// Whether an entry of a global symbol has the flags of a definition and of a relocatable value.
fn defines_relocatable(entry: &GsdEntry) -> bool
    ensures { result ≡ defines_relocatable entry.now }
{
    let flags = SymbolFlags::from_bits_retain(entry.flags);
    flags.contains(SymbolFlags::DEFINED) && flags.contains(SymbolFlags::RELOCATABLE)
}

// Checks that the module has entered the section with this name, unless that is `. ABS.`.
fn check_section(entered: &mut EnteredSections, name: Name) -> Result<(), ModuleFault>
    ensures judged { result ≡ returned (section_fault entered.old name) }
    ensures same { entered.new ≡ entered.old }
{
    match entered.size_of(name) {
        Some(_) => Ok(()),
        None => Err(ModuleFault::UnknownSection),
    }
}

// Checks that a global's name isn't one too many.
fn check_global(globals: &SeededSet<Name>, name: Name) -> Result<(), ModuleFault>
    ensures { result ≡ returned (global_fault globals.now.keys name) }
{
    if is_past(MOST_GLOBALS, globals, name) {
        return Err(ModuleFault::TooManyGlobals);
    }
    Ok(())
}

// Checks that there is a text before a relocation, and that all bytes that the relocation stores lie within it. `text` is the
// text's length in bytes, or None if there is none. Returns the relocation with that length.
fn check_location(relocation: &Relocation, text: Option<u16>) -> Result<TextRelocation, ModuleFault>
    ensures judged { outcome_of result ≡ returned (location_fault relocation.now text) }
    ensures within { IfOk result (λ within. Some within ≡ in_text_before relocation.now text) }
{
    let Some(count) = text else {
        return Err(ModuleFault::NoText);
    };
    match TextRelocation::within(relocation, count) {
        Some(within) => Ok(within),
        None => Err(ModuleFault::BadDisplacement),
    }
}

// Checks the name in the target of a relocation that stores bytes: a section must be known, and a global's name must not be one too
// many. A target without a name has no fault.
fn check_target(
    target: Target,
    entered: &mut EnteredSections,
    globals: &SeededSet<Name>,
) -> Result<(), ModuleFault>
    ensures judged { result ≡ returned (target_fault target entered.old globals.now.keys) }
    ensures same { entered.new ≡ entered.old }
{
    match target {
        Target::Section(name)
        | Target::SectionDisplaced(name)
        | Target::SectionAdditive(name, _)
        | Target::SectionAdditiveDisplaced(name, _) => check_section(entered, name),
        Target::Global(name)
        | Target::GlobalDisplaced(name)
        | Target::GlobalAdditive(name, _)
        | Target::GlobalAdditiveDisplaced(name, _) => check_global(globals, name),
        _ => Ok(()),
    }
}

/// Checks a relocation. Returns it with the length of the text before it if it stores bytes, otherwise None. Faults, in this order:
/// `NoText`, `BadDisplacement`, `UnknownSection`, `TooManyGlobals`.
// speed: inline, and its caller too: a call would pass each judged relocation on in memory.
#[inline(always)]
pub(crate) fn check_relocation(
    relocation: &Relocation,
    entered: &mut EnteredSections,
    text: Option<u16>,
    globals: &SeededSet<Name>,
) -> Result<Option<TextRelocation>, ModuleFault>
    ensures judged { outcome_of result ≡ returned (relocation_fault relocation.now entered.old text globals.now.keys) }
    ensures stored { IfOk result (λ stored. stored ≡ stored_in relocation.now text) }
    ensures same { entered.new ≡ entered.old }
{
    match relocation.target {
        Target::LocationCounterDefinition(name, _) => {
            check_section(entered, name)?;
            Ok(None)
        }
        Target::LocationCounterModification(_) => Ok(None),
        target => {
            let within = check_location(relocation, text)?;
            check_target(target, entered, globals)?;
            Ok(Some(within))
        }
    }
}
