//! The statement of a line. (MACRO-11 Language Reference Manual, "Source program format".)

use crate::bodies::Body;
use crate::labels::Label;
use m11_scan::ErrorFlags;

/// The statement of a line. It contains the line's label only if there is just one. Its columns are those of the line that it was
/// read from.
#[derive(Clone, Copy)]
pub struct Statement {
    /// The column after the `:` or `::` of the last label; 0 if the line has no label.
    pub labels_end: u8,
    /// The label, if the line has exactly one.
    pub only_label: Option<Label>,
    /// What follows the labels.
    pub body: Body,
    /// The flags of the line that don't depend on its body: L for an over-long line, A for a label that is a local symbol outside
    /// 1 to 65535, and I for a skipped character before the end of the labels.
    pub label_flags: ErrorFlags,
}
