//! What the labels of a line define, and their flags. (MACRO-11 Language Reference Manual, "Label field", "Local symbols" and "Multiple
//! definition of symbols".)

ghost use Rattle.std.specs.Prelude.{◌≡◌, IfOk, IfErr, Some, false};
ghost use Rattle.m11_asm_faults.specs.declared.fault.AsmFault.TheVariants.{NoMemory};
ghost use Rattle.m11_asm_rules.specs.Definitions.{is_defined};
ghost use Rattle.m11_asm_rules.specs.Labels as spec;
ghost use Rattle.m11_asm_rules.specs.Labels.{flag_M, kind_flags, key_flags, label_name, labels_flags, name_flags, with_key, with_label, with_labels, with_name};
ghost use Rattle.m11_asm_lines.specs.Faults.{HasTooMany, OverfillsFirst};
ghost use Rattle.m11_asm_lines.specs.Labels.{AreFlags, Defines, FitsUpToDefined};
ghost use Rattle.m11_asm_lines.specs.Moved.{moved_flags, moved_key, moved_kind, moved_name};
ghost use Rattle.m11_asm_rules.specs.declared.definitions.Key.TheVariants.{Named, Numbered};
ghost use Rattle.m11_scan.specs.Views.{bits_of};

use crate::moved::moved_flag;
use crate::pass::Pass;
use m11_asm_faults::AsmFault;
use m11_asm_rules::{Definition, Key, Map, Standing, Table};
use m11_base::Name;
use m11_scan::{ErrorFlags, Line, read_name};
use m11_scan_statements::{Label, LabelKind};

/// The flags of the labels of a line.
#[derive(Clone, Copy)]
pub struct LabelFlags {
    /// M if a label was defined before.
    pub doubly_defined: ErrorFlags,
    /// P if any other label isn't at its location in the map.
    pub moved: ErrorFlags,
}

impl LabelFlags {
    // The flags of a line without labels.
    fn none() -> LabelFlags
        ensures { AreFlags result 0 0 }
    {
        LabelFlags {
            doubly_defined: ErrorFlags::none(),
            moved: ErrorFlags::none(),
        }
    }

    // The flags of a label that was defined before.
    fn of_doubly_defined() -> LabelFlags
        ensures { AreFlags result flag_M 0 }
    {
        LabelFlags {
            doubly_defined: ErrorFlags::M,
            moved: ErrorFlags::none(),
        }
    }

    // The flags of a label that is defined here.
    fn of_new(moved: ErrorFlags) -> LabelFlags
        ensures { AreFlags result 0 (bits_of moved) }
    {
        LabelFlags {
            doubly_defined: ErrorFlags::none(),
            moved,
        }
    }
}

impl Pass {
    /// Defines the labels of a line, in order, and returns their flags. A label is flagged M if its name or local symbol was defined
    /// before. Any other is flagged P if its last definition in the map isn't a label at the location counter. A local label with a number
    /// out of range defines nothing, and gets neither flag.
    ///
    /// Errors: `TooManySymbols` if more than 4,096 names besides those of the registers, or more than 16,384 local symbols, would be
    /// defined, and `NoMemory`. If memory is refused at a label, the labels up to that one are within the limits.
    pub fn define_labels(
        &mut self,
        map: &Map<'_>,
        line: &Line,
        labels: &[Label],
    ) -> Result<LabelFlags, AsmFault>
        ensures defines { IfOk result (λ _. self.new ≡ with_labels line.now.text self.old labels.now) }
        ensures flags { IfOk result (λ flags. AreFlags flags (labels_flags line.now.text self.old labels.now)
            (moved_flags map.now line.now.text self.old labels.now)) }
        ensures refuses { IfErr result (λ fault. HasTooMany fault (with_labels line.now.text self.old labels.now)) }
        ensures limits_first { IfErr result (λ fault. fault ≡ NoMemory → FitsUpToDefined line.now.text labels.now self.old) }
    {
        match labels {
            [] => Ok(LabelFlags::none()),
            [label, others @ ..] => {
                let flags = self.define_label(map, line, label)?;
                let more = self.define_labels(map, line, others)?;
                Ok(LabelFlags {
                    doubly_defined: flags.doubly_defined.with(more.doubly_defined),
                    moved: flags.moved.with(more.moved),
                })
            }
        }
    }

    // Defines a label, and returns its flags; a local one with a number out of range defines nothing. The limit is checked before anything
    // grows. Errors: `TooManySymbols` and `NoMemory`.
    fn define_label(
        &mut self,
        map: &Map<'_>,
        line: &Line,
        label: &Label,
    ) -> Result<LabelFlags, AsmFault>
        ensures defines { IfOk result (λ _. self.new ≡ with_label line.now.text self.old label.now) }
        ensures flags { IfOk result (λ flags. AreFlags flags (kind_flags self.old (label_name line.now.text label.now) label.now.kind)
            (moved_kind map.now self.old (label_name line.now.text label.now) label.now.kind)) }
        ensures refuses { IfErr result (λ fault. OverfillsFirst fault (with_label line.now.text self.old label.now)) }
        ensures defined { IfErr result (λ _. Defines label.now) }
    {
        match label.kind {
            LabelKind::Ordinary => {
                self.define_name_of(map, read_name(label.name.text(line)), false)
            }
            LabelKind::Global => self.define_name_of(map, read_name(label.name.text(line)), true),
            LabelKind::Local(number) => self.define_local(map, number),
            LabelKind::Outside => Ok(LabelFlags::none()),
        }
    }

    // Defines a name as a label, and returns its flags. A new name begins a block of local symbols, and becomes global if `is_global` is
    // true; a defined one becomes doubly defined. Without a valid name nothing changes. Errors: `TooManySymbols` and `NoMemory`.
    fn define_name_of(
        &mut self,
        map: &Map<'_>,
        name: Option<Name>,
        is_global: bool,
    ) -> Result<LabelFlags, AsmFault>
        ensures defines { IfOk result (λ _. self.new ≡ with_name is_global self.old name) }
        ensures flags { IfOk result (λ flags. AreFlags flags (name_flags self.old name) (moved_name map.now self.old name)) }
        ensures refuses { IfErr result (λ fault. OverfillsFirst fault (with_name is_global self.old name)) }
    {
        self.counts_are_within_the_limits();
        match name {
            Some(name) if self.table.is_defined(&Key::Named(name)) => {
                self.double(&Key::Named(name))?;
                Ok(LabelFlags::of_doubly_defined())
            }
            Some(name) => {
                let moved = moved_flag(map, &self.table, &Key::Named(name));
                self.define_new_name(name, is_global)?;
                Ok(LabelFlags::of_new(moved))
            }
            None => Ok(LabelFlags::none()),
        }
    }

    // Defines a new name as a label, begins a block of local symbols, and makes the name global if `is_global` is true. Errors:
    // `TooManySymbols` and `NoMemory`.
    fn define_new_name(&mut self, name: Name, is_global: bool) -> Result<(), AsmFault>
        requires { is_defined (Named name) self.old.definitions ≡ false }
        ensures defines { IfOk result (λ _. self.new ≡ with_name is_global self.old (Some name)) }
        ensures refuses { IfErr result (λ fault. OverfillsFirst fault (with_name is_global self.old (Some name))) }
    {
        let definition = labelled(&self.table);
        self.define_name(name, definition)?;
        self.counts_are_within_the_limits();
        self.open_block();
        if is_global {
            self.export(name)?;
        }
        Ok(())
    }

    // Defines a local symbol in the current block as a label, and returns its flags; a defined one becomes doubly defined. Errors:
    // `TooManySymbols` and `NoMemory`.
    fn define_local(&mut self, map: &Map<'_>, number: u16) -> Result<LabelFlags, AsmFault>
        ensures defines { IfOk result (λ _. self.new ≡ with_key (Numbered self.old.modes.block number) self.old) }
        ensures flags { IfOk result (λ flags. AreFlags flags (key_flags self.old (Numbered self.old.modes.block number))
            (moved_key map.now self.old (Numbered self.old.modes.block number))) }
        ensures refuses { IfErr result (λ fault. OverfillsFirst fault (with_key (Numbered self.old.modes.block number) self.old)) }
    {
        self.counts_are_within_the_limits();
        let block = self.table.modes().block;
        let key = Key::Numbered(block, number);
        if self.table.is_defined(&key) {
            self.double(&key)?;
            Ok(LabelFlags::of_doubly_defined())
        } else {
            let moved = moved_flag(map, &self.table, &key);
            let definition = labelled(&self.table);
            self.define_symbol(block, number, definition)?;
            Ok(LabelFlags::of_new(moved))
        }
    }
}

// The definition of a label at the location counter.
fn labelled(table: &Table) -> Definition
    ensures { result ≡ spec.labelled table.now }
{
    Definition {
        standing: Standing::Known(table.location(), table.kind_here()),
        is_firm: true,
        label: Some(table.section_name()),
    }
}
