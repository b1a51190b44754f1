//! RADIX-50 codes of characters, in a table. (MACRO-11 Language Reference Manual, appendix on the RADIX-50 character set.)

ghost use Rattle.std.specs.Prelude.{◌≡◌};
ghost use Rattle.m11_base.specs.NameCharacters.{folded};
ghost use Rattle.m11_base.specs.Rad50.{code_of};
ghost use Rattle.m11_scan.specs.Codes.{code_or_none};

/// The number for a character without a code. All codes are below it.
pub(crate) const NO_CODE: u8 = 40;

// The code of each byte, or 40 if it has none, in rows of sixteen. Lower-case letters have the codes of upper-case ones.
// speed: names are read so often that a search would take a tenth of an assembly's time.
#[rattlefmt::skip]
static CODES: [u8; 256] = [
    40, 40, 40, 40, 40, 40, 40, 40, 40, 40, 40, 40, 40, 40, 40, 40,
    40, 40, 40, 40, 40, 40, 40, 40, 40, 40, 40, 40, 40, 40, 40, 40,
    0, 40, 40, 40, 27, 40, 40, 40, 40, 40, 40, 40, 40, 40, 28, 40,
    30, 31, 32, 33, 34, 35, 36, 37, 38, 39, 40, 40, 40, 40, 40, 40,
    40, 1, 2, 3, 4, 5, 6, 7, 8, 9, 10, 11, 12, 13, 14, 15,
    16, 17, 18, 19, 20, 21, 22, 23, 24, 25, 26, 40, 40, 40, 40, 40,
    40, 1, 2, 3, 4, 5, 6, 7, 8, 9, 10, 11, 12, 13, 14, 15,
    16, 17, 18, 19, 20, 21, 22, 23, 24, 25, 26, 40, 40, 40, 40, 40,
    40, 40, 40, 40, 40, 40, 40, 40, 40, 40, 40, 40, 40, 40, 40, 40,
    40, 40, 40, 40, 40, 40, 40, 40, 40, 40, 40, 40, 40, 40, 40, 40,
    40, 40, 40, 40, 40, 40, 40, 40, 40, 40, 40, 40, 40, 40, 40, 40,
    40, 40, 40, 40, 40, 40, 40, 40, 40, 40, 40, 40, 40, 40, 40, 40,
    40, 40, 40, 40, 40, 40, 40, 40, 40, 40, 40, 40, 40, 40, 40, 40,
    40, 40, 40, 40, 40, 40, 40, 40, 40, 40, 40, 40, 40, 40, 40, 40,
    40, 40, 40, 40, 40, 40, 40, 40, 40, 40, 40, 40, 40, 40, 40, 40,
    40, 40, 40, 40, 40, 40, 40, 40, 40, 40, 40, 40, 40, 40, 40, 40,
];

/// The code of a character, or `NO_CODE`. Letters may be of either case.
#[tactic(auto, using(crate::proofs::TableOfCodes::each_listed))]
pub(crate) fn code_in_table(byte: u8) -> u8
    ensures { result ≡ code_or_none (code_of (folded byte)) }
{
    CODES[usize::from(byte)]
}
