//! One file for each subject. Calls of the same kind are in tables.

mod cuts;
mod fields;
mod known;
mod lines;
mod readers;
mod statements;
mod unfolding;

use std::fmt::{Debug, Display};
use std::process::Abort;

// Checks that a row of a table yielded the expected value.
pub(crate) fn same<T: PartialEq + Debug>(rt: &impl Abort, row: &impl Display, got: &T, wanted: &T) {
    assert_eq!(rt; got, wanted, "{row}");
}

// Like `same`, for values without `Debug`: a failure shows the row alone.
pub(crate) fn equal<T: PartialEq>(rt: &impl Abort, row: &impl Display, got: &T, wanted: &T) {
    assert!(rt; got == wanted, "{row}");
}
