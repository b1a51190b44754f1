//! The front, which is written before the tape: the messages about undefined globals, and the map.

ghost use Rattle.std.specs.Prelude.{◌≡◌, ◌∷◌, true, false, not, codes, IfOk, ◌≢◌, is_some, IfErr};
ghost use Rattle.m11_link_text.specs.Findings.{planned};
ghost use Rattle.m11_link.specs.Front.{front_writes, global_writes, is_empty, last_writes, map_writes, name_write, name_writes, section_writes, undefined_by, undefined_write, undefined_writes, weak_writes, written_if};
ghost use Rattle.m11_base_writes.specs.States.{OutputState, optional_output, output_of};
ghost use Rattle.m11_link.specs.Outputs.{Writes};
ghost use Rattle.m11_base_writes.specs.Outputs.{outputs, to_report};
ghost use Rattle.m11_link.specs.Written.{counted};

use m11_base::{Name, Sink};
use m11_base_writes::{put_message, put_report};
use m11_link_layout::{LinkFault, Plan};
use m11_link_text::{
    global_line, limit_line, name_line, section_line, transfer_line, undefined_line,
};

/// Writes the messages about undefined globals, and then the map. Both depend only on the plan of the first pass. Returns `count`
/// plus the number of messages, at most 4,294,967,295. Error: `Write`, if an output failed.
pub(crate) fn put_front<T: Sink, U: Sink>(
    plan: &Plan,
    map: &mut Option<T>,
    messages: &mut U,
    count: u32,
) -> Result<u32, LinkFault>
    ensures writes { (tape : OutputState) → Writes
        (outputs tape (optional_output T.Sink map.old) (output_of U.Sink messages.old))
        (outputs tape (optional_output T.Sink map.new) (output_of U.Sink messages.new))
        (front_writes (planned plan.now)) result }
    ensures count { IfOk result (λ n. n ≡ counted count (front_writes (planned plan.now))) }
    ensures stays { is_some map.new ≡ is_some map.old }
    ensures no_memory { IfErr result (λ fault. fault ≢ LinkFault.NoMemory) }
{
    let reported = put_undefined(plan, messages, count)?;
    put_map_lines(plan, map)?;
    Ok(reported)
}

// Returns the name of a referenced global if it is undefined and has this strength, otherwise None. `reference` is the name, and
// whether any reference to it is strong.
fn undefined(plan: &Plan, reference: (Name, bool), is_strong: bool) -> Option<Name>
    ensures { result ≡ undefined_by (planned plan.now) is_strong reference }
{
    let (name, strength) = reference;
    if plan.value(name).is_none() && strength == is_strong {
        Some(name)
    } else {
        None
    }
}

// Writes a message for each undefined global with a strong reference. Returns `count` plus the number of messages, at most
// 4,294,967,295.
fn put_undefined<U: Sink>(plan: &Plan, messages: &mut U, count: u32) -> Result<u32, LinkFault>
    ensures writes { (tape map : OutputState) → Writes
        (outputs tape map (output_of U.Sink messages.old))
        (outputs tape map (output_of U.Sink messages.new))
        (undefined_writes (planned plan.now) plan.now.gathered.references) result }
    ensures count { IfOk result
        (λ n. n ≡ counted count (undefined_writes (planned plan.now) plan.now.gathered.references)) }
    ensures no_memory { IfErr result (λ fault. fault ≢ LinkFault.NoMemory) }
{
    let mut reported = count;
    'references: for index in 0..plan.reference_count() {
        reported = put_if_undefined(plan, plan.reference_at(index), messages, reported)?;
    }
    Ok(reported)
}

// Writes a message if this global is undefined and has a strong reference. Returns `count`, plus 1 if a message was written, at
// most 4,294,967,295.
fn put_if_undefined<U: Sink>(
    plan: &Plan,
    reference: (Name, bool),
    messages: &mut U,
    count: u32,
) -> Result<u32, LinkFault>
    ensures writes { (tape map : OutputState) → Writes
        (outputs tape map (output_of U.Sink messages.old))
        (outputs tape map (output_of U.Sink messages.new))
        (written_if undefined_write (undefined_by (planned plan.now) true reference)) result }
    ensures count { IfOk result
        (λ n. n ≡ counted count (written_if undefined_write (undefined_by (planned plan.now) true reference))) }
    ensures no_memory { IfErr result (λ fault. fault ≢ LinkFault.NoMemory) }
{
    match undefined(plan, reference, true) {
        Some(name) => {
            put_message::<U, LinkFault>(messages, undefined_line(name).as_slice())?;
            Ok(count.saturating_add(1))
        }
        None => Ok(count),
    }
}

// Writes the parts of the map in their order, or nothing if no map is asked for.
fn put_map_lines<T: Sink>(plan: &Plan, map: &mut Option<T>) -> Result<(), LinkFault>
    ensures writes { (tape messages : OutputState) → Writes
        (outputs tape (optional_output T.Sink map.old) messages)
        (outputs tape (optional_output T.Sink map.new) messages) (map_writes (planned plan.now)) result }
    ensures stays { is_some map.new ≡ is_some map.old }
    ensures no_memory { IfErr result (λ fault. fault ≢ LinkFault.NoMemory) }
{
    put_sections(plan, map)?;
    put_globals(plan, map)?;
    put_undefined_names(plan, map)?;
    put_weak_names(plan, map)?;
    put_last_lines(plan, map)
}

// Writes the part about sections. It has a heading even if there are none.
fn put_sections<T: Sink>(plan: &Plan, map: &mut Option<T>) -> Result<(), LinkFault>
    ensures writes { (tape messages : OutputState) → Writes
        (outputs tape (optional_output T.Sink map.old) messages)
        (outputs tape (optional_output T.Sink map.new) messages)
        (to_report (codes "SECTIONS\n") ∷ section_writes (planned plan.now).sections) result }
    ensures stays { is_some map.new ≡ is_some map.old }
    ensures no_memory { IfErr result (λ fault. fault ≢ LinkFault.NoMemory) }
{
    put_report::<T, LinkFault>(map, b"SECTIONS\n")?;
    put_each_section(plan, map)
}

// Writes a line for each section, in the order of first entries.
fn put_each_section<T: Sink>(plan: &Plan, map: &mut Option<T>) -> Result<(), LinkFault>
    ensures writes { (tape messages : OutputState) → Writes
        (outputs tape (optional_output T.Sink map.old) messages)
        (outputs tape (optional_output T.Sink map.new) messages)
        (section_writes (planned plan.now).sections) result }
    ensures stays { is_some map.new ≡ is_some map.old }
    ensures no_memory { IfErr result (λ fault. fault ≢ LinkFault.NoMemory) }
{
    'sections: for index in 0..plan.section_count() {
        let section = plan.section_at(index);
        let line = section_line(section.name, section.base, section.size, section.attributes);
        put_report::<T, LinkFault>(map, line.as_slice())?;
    }
    Ok(())
}

// Writes the part about defined globals. It has a heading even if there are none.
fn put_globals<T: Sink>(plan: &Plan, map: &mut Option<T>) -> Result<(), LinkFault>
    ensures writes { (tape messages : OutputState) → Writes
        (outputs tape (optional_output T.Sink map.old) messages)
        (outputs tape (optional_output T.Sink map.new) messages)
        (to_report (codes "GLOBALS\n") ∷ global_writes (planned plan.now).globals) result }
    ensures stays { is_some map.new ≡ is_some map.old }
    ensures no_memory { IfErr result (λ fault. fault ≢ LinkFault.NoMemory) }
{
    put_report::<T, LinkFault>(map, b"GLOBALS\n")?;
    put_each_global(plan, map)
}

// Writes a line for each defined global, in the order of first definitions.
fn put_each_global<T: Sink>(plan: &Plan, map: &mut Option<T>) -> Result<(), LinkFault>
    ensures writes { (tape messages : OutputState) → Writes
        (outputs tape (optional_output T.Sink map.old) messages)
        (outputs tape (optional_output T.Sink map.new) messages)
        (global_writes (planned plan.now).globals) result }
    ensures stays { is_some map.new ≡ is_some map.old }
    ensures no_memory { IfErr result (λ fault. fault ≢ LinkFault.NoMemory) }
{
    'globals: for index in 0..plan.global_count() {
        let global = plan.global_at(index);
        let line = global_line(global.name, global.value, global.module_name);
        put_report::<T, LinkFault>(map, line.as_slice())?;
    }
    Ok(())
}

// Writes the part about undefined globals with a strong reference. It has a heading even if there are none.
fn put_undefined_names<T: Sink>(plan: &Plan, map: &mut Option<T>) -> Result<(), LinkFault>
    ensures writes { (tape messages : OutputState) → Writes
        (outputs tape (optional_output T.Sink map.old) messages)
        (outputs tape (optional_output T.Sink map.new) messages)
        (to_report (codes "UNDEFINED\n") ∷ name_writes (planned plan.now) true plan.now.gathered.references) result }
    ensures stays { is_some map.new ≡ is_some map.old }
    ensures no_memory { IfErr result (λ fault. fault ≢ LinkFault.NoMemory) }
{
    put_report::<T, LinkFault>(map, b"UNDEFINED\n")?;
    put_each_name(plan, true, map)
}

// Writes the part about undefined globals with only weak references. It is omitted if there are none.
fn put_weak_names<T: Sink>(plan: &Plan, map: &mut Option<T>) -> Result<(), LinkFault>
    ensures writes { (tape messages : OutputState) → Writes
        (outputs tape (optional_output T.Sink map.old) messages)
        (outputs tape (optional_output T.Sink map.new) messages)
        (weak_writes (name_writes (planned plan.now) false plan.now.gathered.references)) result }
    ensures stays { is_some map.new ≡ is_some map.old }
    ensures no_memory { IfErr result (λ fault. fault ≢ LinkFault.NoMemory) }
{
    if !has_weak_name(plan) {
        return Ok(());
    }
    put_report::<T, LinkFault>(map, b"WEAK\n")?;
    put_each_name(plan, false, map)
}

// Whether there is an undefined global with only weak references.
fn has_weak_name(plan: &Plan) -> bool
    ensures { result ≡ not (is_empty (name_writes (planned plan.now) false plan.now.gathered.references)) }
{
    'references: for index in 0..plan.reference_count() {
        match undefined(plan, plan.reference_at(index), false) {
            Some(_) => return true,
            None => {}
        }
    }
    false
}

// Writes a line for each undefined global with this strength, in the order of first references.
fn put_each_name<T: Sink>(
    plan: &Plan,
    is_strong: bool,
    map: &mut Option<T>,
) -> Result<(), LinkFault>
    ensures writes { (tape messages : OutputState) → Writes
        (outputs tape (optional_output T.Sink map.old) messages)
        (outputs tape (optional_output T.Sink map.new) messages)
        (name_writes (planned plan.now) is_strong plan.now.gathered.references) result }
    ensures stays { is_some map.new ≡ is_some map.old }
    ensures no_memory { IfErr result (λ fault. fault ≢ LinkFault.NoMemory) }
{
    'references: for index in 0..plan.reference_count() {
        put_if_of_strength(plan, plan.reference_at(index), is_strong, map)?;
    }
    Ok(())
}

// Writes the line for a referenced global if it is undefined and has this strength.
fn put_if_of_strength<T: Sink>(
    plan: &Plan,
    reference: (Name, bool),
    is_strong: bool,
    map: &mut Option<T>,
) -> Result<(), LinkFault>
    ensures writes { (tape messages : OutputState) → Writes
        (outputs tape (optional_output T.Sink map.old) messages)
        (outputs tape (optional_output T.Sink map.new) messages)
        (written_if name_write (undefined_by (planned plan.now) is_strong reference)) result }
    ensures stays { is_some map.new ≡ is_some map.old }
    ensures no_memory { IfErr result (λ fault. fault ≢ LinkFault.NoMemory) }
{
    match undefined(plan, reference, is_strong) {
        Some(name) => put_report(map, name_line(name).as_slice()),
        None => Ok(()),
    }
}

// Writes the last lines: the transfer address, or 1 if no module has an even one, and the limits of the relocatable sections.
fn put_last_lines<T: Sink>(plan: &Plan, map: &mut Option<T>) -> Result<(), LinkFault>
    ensures writes { (tape messages : OutputState) → Writes
        (outputs tape (optional_output T.Sink map.old) messages)
        (outputs tape (optional_output T.Sink map.new) messages)
        (last_writes (planned plan.now)) result }
    ensures stays { is_some map.new ≡ is_some map.old }
    ensures no_memory { IfErr result (λ fault. fault ≢ LinkFault.NoMemory) }
{
    let (bottom, top) = plan.limits();
    put_report::<T, LinkFault>(map, transfer_line(plan.transfer()).as_slice())?;
    put_report(map, limit_line(bottom, top).as_slice())
}
