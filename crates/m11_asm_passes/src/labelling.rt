//! The labels of a live line. (MACRO-11 Language Reference Manual, "Label field" and "Local symbols".)

ghost use Rattle.std.specs.Prelude.{◌≡◌, ◌∷◌, [], IfOk, IfErr, IfSome};
ghost use Rattle.m11_asm_lines.specs.Counting.{with_counted};
ghost use Rattle.m11_scan_statements.specs.Labels.{labels_at};
ghost use Rattle.m11_asm_passes.specs.Faults.{Fails};
ghost use Rattle.m11_asm_passes.specs.Labelled.{FitUpToOne, LabelsLie};
ghost use Rattle.m11_asm_passes.specs.Refusals.{labels_fault, uses_of_labels};
ghost use Rattle.m11_asm_faults.specs.declared.fault.AsmFault.TheVariants.{NoMemory};

use m11_asm_faults::AsmFault;
use m11_asm_lines::{Counting, LabelFlags, Pass};
use m11_asm_rules::Map;
use m11_scan::Line;
use m11_scan_statements::{Label, labels_of};

// Defines the labels of a line, counts their names, and returns their flags M and P. `labels_end` is the column after the labels, 0 if
// there are none; `only_label` is None, or the only label of the line. Errors: `TooManySymbols` if the labels exceed a limit on names or
// local symbols; `NoMemory` if memory is refused at a label, and then no limit is exceeded up to and including that label.
pub(crate) fn define_labels(
    pass: &mut Pass,
    counting: &mut Counting,
    map: &Map<'_>,
    line: &Line,
    labels_end: u8,
    only_label: Option<Label>,
) -> Result<LabelFlags, AsmFault>
    requires unlabelled { labels_end ≡ 0 → labels_at line.now.text ≡ [] }
    requires single { IfSome only_label (λ label. labels_at line.now.text ≡ label ∷ []) }
    ensures stand { IfOk result (λ flags. LabelsLie map.now counting.old line.now.text pass.old pass.new flags) }
    ensures counts { IfOk result (λ _. counting.new ≡ with_counted (uses_of_labels line.now.text) counting.old) }
    ensures refuses { IfErr result (λ fault. Fails (labels_fault counting.old pass.old line.now.text) fault) }
    ensures limits_first { IfErr result (λ fault. fault ≡ NoMemory → FitUpToOne counting.old pass.old line.now.text) }
{
    // speed: most lines have no label, and most others have one; only for the rest are the labels listed
    if labels_end == 0 {
        return define_all(pass, counting, map, line, &[]);
    }
    match only_label {
        Some(label) => define_all(pass, counting, map, line, &[label]),
        None => define_listed(pass, counting, map, line),
    }
}

// Lists the labels of a line, and defines them. Error: as for `define_labels`.
// speed: a call, since otherwise room for as many labels as a line may have would be cleared at each line.
#[inline(never)]
fn define_listed(
    pass: &mut Pass,
    counting: &mut Counting,
    map: &Map<'_>,
    line: &Line,
) -> Result<LabelFlags, AsmFault>
    ensures stand { IfOk result (λ flags. LabelsLie map.now counting.old line.now.text pass.old pass.new flags) }
    ensures counts { IfOk result (λ _. counting.new ≡ with_counted (uses_of_labels line.now.text) counting.old) }
    ensures refuses { IfErr result (λ fault. Fails (labels_fault counting.old pass.old line.now.text) fault) }
    ensures limits_first { IfErr result (λ fault. fault ≡ NoMemory → FitUpToOne counting.old pass.old line.now.text) }
{
    let labels = labels_of(line);
    define_all(pass, counting, map, line, labels.as_slice())
}

// Defines the labels in a list, which are all the labels of the line. Error: as for `define_labels`.
fn define_all(
    pass: &mut Pass,
    counting: &mut Counting,
    map: &Map<'_>,
    line: &Line,
    labels: &[Label],
) -> Result<LabelFlags, AsmFault>
    requires { labels.now ≡ labels_at line.now.text }
    ensures stand { IfOk result (λ flags. LabelsLie map.now counting.old line.now.text pass.old pass.new flags) }
    ensures counts { IfOk result (λ _. counting.new ≡ with_counted (uses_of_labels line.now.text) counting.old) }
    ensures refuses { IfErr result (λ fault. Fails (labels_fault counting.old pass.old line.now.text) fault) }
    ensures limits_first { IfErr result (λ fault. fault ≡ NoMemory → FitUpToOne counting.old pass.old line.now.text) }
{
    // all names are counted before any label is defined, so that a lack of memory for a label hides no limit on used names
    counting.add_labels(line, labels)?;
    counting.names_are_within_the_limit();
    let flags = pass.define_labels(map, line, labels)?;
    pass.counts_are_within_the_limits();
    Ok(flags)
}
