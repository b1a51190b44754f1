//! Names, and the characters after `^R`. (MACRO-11 Language Reference Manual, "Symbols" and "Radix-50 operator".)

ghost use Rattle.std.specs.Prelude.{◌≡◌, ◌<◌, ◌+◌, ◌^◌, true, IfSome, unwrap_or};
ghost use Rattle.std.specs.Option.{is_some};
ghost use Rattle.std.specs.Str.{bytes_eq};
ghost use Rattle.m11_base.specs.NameCharacters.{character_at, six_of};
ghost use Rattle.m11_base.specs.Rad50.{code_of, name_of, name_of_words, packed_at, word_limit, word_of_codes};
ghost use Rattle.m11_scan.specs.Codes.{code_or_no, code_or_none};
ghost use Rattle.m11_scan.specs.Names.{has_name_characters_alone, packed_flags, packed_word};
ghost use Rattle.m11_scan.specs.Views.{bits_of};

use crate::codes::{NO_CODE, code_in_table};
use crate::flags::ErrorFlags;
use crate::numbers::Number;
use m11_base::{Name, Rad50};

/// The name that a text spells: its first six characters in upper case, padded with blanks. There is no name if one of these
/// characters has no RADIX-50 code; letters, digits, `$`, `.` and blanks have one.
pub fn read_name(text: &[u8]) -> Option<Name>
    ensures name { result ≡ name_of (six_of text.now) }
    ensures some { has_name_characters_alone text.now ≡ true → is_some result ≡ true }
{
    pack_first(text)
}

fn pack_first(text: &[u8]) -> Option<Name>
    ensures { result ≡ name_of (six_of text.now) }
{
    name_of_words(word_at(text, 0), last_word(text))
}

// The word of the last three of a name's six characters; None if one of them has no code.
// speed: most names have at most three characters, and the blanks after them needn't be packed.
#[tactic(auto, using(crate::proofs::TableOfCodes::blank_word))]
fn last_word(text: &[u8]) -> Option<u16>
    ensures word { result ≡ packed_at (six_of text.now) 3 }
    ensures below { IfSome result (λ word. word < word_limit) }
{
    if text.len() <= 3 {
        Some(0)
    } else {
        word_at(text, 3)
    }
}

// The name with these two words, if both exist.
fn name_of_words(first: Option<u16>, second: Option<u16>) -> Option<Name>
    requires first { IfSome first (λ word. word < word_limit) }
    requires second { IfSome second (λ word. word < word_limit) }
    ensures { result ≡ name_of_words first second }
{
    match (first, second) {
        (Some(first), Some(second)) => Name::from_words(first, second),
        _ => None,
    }
}

// The word of the three characters that begin at an index of a text, with blanks past the text's end; None if one of them has no
// code.
fn word_at(text: &[u8], index: usize) -> Option<u16>
    requires { index + 2 < 2 ^ 64 }
    ensures word { result ≡ word_of_codes (code_of (character_at text.now index)) (code_of (character_at text.now (index + 1)))
        (code_of (character_at text.now (index + 2))) }
    ensures below { IfSome result (λ word. word < word_limit) }
{
    word_of_codes(
        code_at(text, index),
        code_at(text, index + 1),
        code_at(text, index + 2),
    )
}

// The word of these three codes; None if one of them is `NO_CODE` or greater.
fn word_of_codes(first: u8, second: u8, third: u8) -> Option<u16>
    ensures word { result ≡ word_of_codes (code_or_no first) (code_or_no second) (code_or_no third) }
    ensures below { IfSome result (λ word. word < word_limit) }
{
    if first >= NO_CODE || second >= NO_CODE || third >= NO_CODE {
        return None;
    }
    Some(u16::from(first) * 1600 + u16::from(second) * 40 + u16::from(third))
}

// The code of the character at an index of a text, or `NO_CODE` if it has none. Past the text's end it is the code of a blank.
#[tactic(auto, using(crate::proofs::TableOfCodes::blank_code))]
fn code_at(text: &[u8], index: usize) -> u8
    ensures { result ≡ code_or_none (code_of (character_at text.now index)) }
{
    match text.get(index) {
        Some(byte) => code_in_table(*byte),
        None => 0,
    }
}

/// The first six characters of a text in upper case, padded with blanks.
pub fn six_characters(text: &[u8]) -> [u8; 6]
    ensures { result ≡ six_of text.now }
{
    [
        character_at(text, 0),
        character_at(text, 1),
        character_at(text, 2),
        character_at(text, 3),
        character_at(text, 4),
        character_at(text, 5),
    ]
}

/// Whether two names of six characters are equal.
pub fn is_same_six(first: &[u8; 6], second: &[u8; 6]) -> bool
    ensures { result ≡ bytes_eq first.now second.now }
{
    // speed: names of operators differ most often in the third character, so this one comparison usually decides
    if first[2] != second[2] {
        return false;
    }
    let [a, b, c, d, e, f] = *first;
    let [g, h, i, j, k, l] = *second;
    a == g && b == h && c == i && d == j && e == k && f == l
}

/// The word of the characters after a `^R`: the first three in upper case, padded with blanks; 0 if one of them has no code.
/// Without any characters the term is missing: the word is 0, flagged Q.
pub fn read_packed(characters: &[u8]) -> Number
    ensures value { result.value ≡ packed_word characters.now }
    ensures flags { bits_of result.flags ≡ packed_flags characters.now }
{
    let word = Rad50::pack(&[
        character_at(characters, 0),
        character_at(characters, 1),
        character_at(characters, 2),
    ]);
    Number {
        value: word_or_none(word),
        flags: ErrorFlags::Q.when(characters.is_empty()),
    }
}

fn word_or_none(word: Option<u16>) -> u16
    ensures { result ≡ unwrap_or word 0 }
{
    match word {
        Some(word) => word,
        None => 0,
    }
}

// The character at an index of a text, in upper case; a blank past the text's end.
fn character_at(text: &[u8], index: usize) -> u8
    ensures { result ≡ character_at text.now index }
{
    match text.get(index) {
        Some(byte) => byte.to_ascii_uppercase(),
        None => b' ',
    }
}
