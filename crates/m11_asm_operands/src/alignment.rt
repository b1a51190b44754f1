//! Even and odd locations. (MACRO-11 Language Reference Manual, "Diagnostic error message summary", B; ".EVEN directive" and ".ODD
//! directive".)

ghost use Rattle.std.specs.Prelude.{◌≡◌, ◌≤◌};
ghost use Rattle.m11_asm_rules.specs.Alignment as spec;
ghost use Rattle.m11_scan.specs.Views.{bits_of};

use m11_scan::ErrorFlags;

/// The number of bytes, 0 or 1, from a location to the first even (true) or odd (false) location at or after it.
pub fn to_next(is_even: bool, location: u16) -> u16
    ensures bytes { result ≡ spec.to_next is_even location }
    ensures most { result ≤ 1 }
{
    if is_even {
        location % 2
    } else {
        1 - location % 2
    }
}

/// The number of bytes skipped before contents that need an even location (true) or don't (false): 0 or 1.
pub fn gap(is_even: bool, location: u16) -> u16
    ensures bytes { result ≡ spec.gap is_even location }
    ensures most { result ≤ 1 }
{
    if is_even { location % 2 } else { 0 }
}

/// The first location at or after this one, modulo 65536, for contents that need an even location (true) or don't (false).
pub fn location_for(is_even: bool, location: u16) -> u16
    ensures { result ≡ spec.location_for is_even location }
{
    location.wrapping_add(gap(is_even, location))
}

/// B if `gap` is 1, because contents that need an even location would begin at an odd one; otherwise no flag.
pub fn gap_flags(is_even: bool, location: u16) -> ErrorFlags
    ensures { bits_of result ≡ spec.gap_flags is_even location }
{
    ErrorFlags::B.when(gap(is_even, location) == 1)
}
