//! Reads the statement of a line. (MACRO-11 Language Reference Manual, "Source program format".)

ghost use Rattle.std.specs.Prelude.{◌≡◌, ◌∷◌, [], IfSome};
ghost use Rattle.m11_scan.specs.Views.{bits_of};
ghost use Rattle.m11_scan_statements.specs.Labels.{labels_at, labels_end};
ghost use Rattle.m11_scan_statements.specs.Statements as spec;

use crate::bodies::body_at;
use crate::labels::{LabelField, label_field};
use crate::statements::Statement;
use m11_scan::{ErrorFlags, Line, skipped_between};

/// Reads the statement of a line: the end of its labels, its label if it has only one, its body, and the flags that don't depend on
/// the body.
pub fn statement(line: &Line) -> Statement
    ensures unlabelled { result.labels_end ≡ 0 → labels_at line.now.text ≡ [] }
    ensures only_label { IfSome result.only_label (λ label. labels_at line.now.text ≡ label ∷ []) }
    ensures labels_end { result.labels_end ≡ labels_end line.now.text }
    ensures body { result.body ≡ spec.body_of line.now.text }
    ensures label_flags { bits_of result.label_flags ≡ spec.label_flags line.now }
{
    let labels = label_field(line);
    let body = body_at(line, labels.end, labels.next);
    Statement {
        labels_end: labels.end,
        only_label: labels.single,
        body,
        label_flags: label_flags(line, labels),
    }
}

fn label_flags(line: &Line, labels: LabelField) -> ErrorFlags
    requires outside { labels.has_outside ≡ spec.has_outside (labels_at line.now.text) }
    requires end { labels.end ≡ labels_end line.now.text }
    ensures { bits_of result ≡ spec.label_flags line.now }
{
    let skipped = ErrorFlags::I.when(skipped_between(line, 0, labels.end));
    let outside = ErrorFlags::A.when(labels.has_outside);
    ErrorFlags::L
        .when(line.is_over_long())
        .with(outside)
        .with(skipped)
}
