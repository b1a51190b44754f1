//! Words as octal digits, and the words that octal digits spell. (MACRO-11 Language Reference Manual, "Numbers".)

ghost use Rattle.std.specs.Prelude.{◌≡◌, ◌≤◌, ◌↔◌, [], Some, None, Err, if◌then◌else◌, nat_lt};
ghost use Rattle.std.specs.List.{list_all};
ghost use Rattle.m11_base.specs.Octal.{octal_text, octal_value, octal_of, is_octal_digit, HasOnlyDigits, HasBadDigit};

use crate::fault::OctalFault;

/// A word as six octal digits, in ASCII.
pub fn octal6(word: u16) -> [u8; 6]
    ensures text { result ≡ octal_text word }
    ensures spells { octal_value result ≡ word }
{
    let mut digits = [b'0'; 6];
    digits[0] += (word / 0o100000) as u8;
    digits[1] += (word / 0o10000 % 8) as u8;
    digits[2] += (word / 0o1000 % 8) as u8;
    digits[3] += (word / 0o100 % 8) as u8;
    digits[4] += (word / 0o10 % 8) as u8;
    digits[5] += (word % 8) as u8;
    digits
}

fn are_octal_digits(text: &[u8]) -> bool
    ensures { result ≡ list_all is_octal_digit text.now }
{
    text.iter().all(|c| *c >= b'0' && *c <= b'7')
}

// The number that octal digits spell, if it fits a word.
#[tactic(auto, using(crate::proofs::Digits::steps))]
fn word_of_digits(digits: &[u8]) -> Option<u16>
    requires { HasOnlyDigits digits.now }
    ensures { result ≡ (if nat_lt (octal_value digits.now) 65536
        then Some (octal_value digits.now) else None) }
{
    let mut value: u32 = 0;
    for digit in digits {
        value = value * 8 + u32::from(*digit - b'0');
        if value > 0o177777 {
            return None;
        }
    }
    Some(value as u16)
}

/// The word that a text of octal digits spells; it may have any number of leading zeros. Faults: `Empty`, if the text is empty; else
/// `BadDigit`, if a character isn't an octal digit; else `TooLarge`, if the number is over octal 177777.
#[tactic(auto, using(crate::proofs::Digits::bad_digit_among))]
pub fn read_octal(text: &[u8]) -> Result<u16, OctalFault>
    ensures word { result ≡ octal_of text.now }
    ensures empty { (result ≡ Err OctalFault.Empty) ↔ (text.now ≡ []) }
    ensures bad_digit { (result ≡ Err OctalFault.BadDigit) ↔ HasBadDigit text.now }
    ensures too_large { (result ≡ Err OctalFault.TooLarge)
        ↔ (HasOnlyDigits text.now × (65536 ≤ octal_value text.now)) }
{
    if text.is_empty() {
        return Err(OctalFault::Empty);
    }
    if !are_octal_digits(text) {
        return Err(OctalFault::BadDigit);
    }
    word_of_digits(text).ok_or(OctalFault::TooLarge)
}
