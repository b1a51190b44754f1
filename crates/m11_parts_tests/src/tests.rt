//! A file for each subject; similar calls are rows of a table, and the rows have names.

mod blocks;
mod devices;
mod instructions;
mod links;
mod listings;
mod loading;
mod names;
mod records;
mod steps;
mod texts;

use m11_base::Name;
use std::fmt::{Debug, Display};
use std::process::Abort;
use std::test::Fail;

pub(crate) fn name(characters: &[u8; 6]) -> Result<Name, Fail> {
    Ok(Name::pack(characters).ok_or("characters with codes")?)
}

// Checks that the result for a row of a table is the expected one.
pub(crate) fn same<T: PartialEq + Debug>(rt: &impl Abort, row: &impl Display, got: &T, wanted: &T) {
    assert_eq!(rt; got, wanted, "{row}");
}

// Like `same`, for values without `Debug`: a failure shows the row alone.
pub(crate) fn equal<T: PartialEq>(rt: &impl Abort, row: &impl Display, got: &T, wanted: &T) {
    assert!(rt; got == wanted, "{row}");
}
