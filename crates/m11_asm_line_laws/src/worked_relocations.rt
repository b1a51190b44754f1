//! Relocations, sections, the facts that a first pass finds, and the limit on sections, worked by hand. (RT-11 Volume and File Formats
//! Manual, "Object file format", RLD block; MACRO-11 Language Reference Manual, "Program section directives" and ".TITLE directive".)

ghost use Rattle.std.specs.Prelude.{◌≡◌, map};
ghost use Rattle.m11_asm_line_laws.specs.LimitRows.{faults, worked_faults};
ghost use Rattle.m11_asm_line_laws.specs.RelocationRows.{name_rows, section_rows};
ghost use Rattle.m11_asm_line_laws.specs.SourceRows.{given_by, source_rows, expected_by};
ghost use Rattle.m11_asm_line_laws.specs.Worked.{found, expected};

/// The relocations and flags of names of other objects, of labels, and of the limits of a program are those worked by hand.
pub fn names_are_as_worked()
    ensures { map found name_rows ≡ map expected name_rows }
{}

/// The pieces and flags of lines in several sections, with attributes and with values that move with sections, are those worked by hand.
pub fn sections_are_as_worked()
    ensures { map found section_rows ≡ map expected section_rows }
{}

/// The titles, identifications, weak names, transfer addresses, used names and references of sources are those worked by hand.
pub fn sources_are_as_worked()
    ensures { map given_by source_rows ≡ map expected_by source_rows }
{}

/// In either pass, a source with as many sections as the limit allows has no fault, and the line that selects one more has
/// `TooManySections`.
pub fn limits_are_as_worked()
    ensures { faults ≡ worked_faults }
{}
