//! The order of records in a module. (RT-11 Volume and File Formats Manual, "Object file format".)

/// The place of the next record: between modules, or before or after the end of a module's directory.
#[derive(Clone, Copy, PartialEq, Eq)]
pub(crate) enum Stage {
    /// Between modules, or before the first one.
    Between,
    /// After a directory record of a module, before the end of its directory.
    InDirectory,
    /// After the end of a module's directory, before the end of the module.
    InBody,
}
