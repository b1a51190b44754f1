//! RADIX-50: three characters in one word, and names of six characters in two words.
//! (MACRO-11 Language Reference Manual, appendix on the RADIX-50 character set.)

ghost use Rattle.std.specs.Prelude.{◌≡◌, ◌<◌, ℕ, Some, IfSome, SomeIff, is_none};
ghost use Rattle.std.specs.List.{list_any};
ghost use Rattle.m11_base.specs.Rad50.{code_of, character_of, packed_at, unpacked, word_limit, characters_of, HasNoPercent, IsName, is_same_name, name_of, name_text};

use std::marker::Model;

// The characters, each at the index of its code.
const ALPHABET: &[u8; 40] = b" ABCDEFGHIJKLMNOPQRSTUVWXYZ$.%0123456789";

// The first word without characters; no word above it has any either.
const WORD_LIMIT: u16 = 0o175000;

#[tactic(auto, unfolding(crate::specs::Rad50::alphabet, crate::specs::Rad50::character_of))]
fn character_of(code: u16) -> u8
    requires { code < 40 }
    ensures { result ≡ character_of code }
{
    ALPHABET[usize::from(code)]
}

// The three characters of a word below the limit.
fn three_characters(word: u16) -> [u8; 3]
    requires { word < word_limit }
    ensures characters { result ≡ characters_of word }
    ensures again { HasNoPercent result → packed_at result 0 ≡ Some word }
{
    [
        character_of(word / 1600),
        character_of(word / 40 % 40),
        character_of(word % 40),
    ]
}

/// The codes of characters, and the words of three characters.
pub struct Rad50;

impl Rad50 {
    /// The code of a character, a number below 40 in decimal. Blank, `A` to `Z`, `$`, `.` and `0` to `9` have codes; other characters, such
    /// as lower-case letters, have none.
    pub fn code(character: u8) -> Option<u16>
        ensures code { result ≡ code_of character }
        ensures below { IfSome result (λ code. code < 40) }
    {
        match character {
            b' ' => Some(0),
            b'A'..=b'Z' => Some(u16::from(character - b'A') + 1),
            b'$' => Some(27),
            b'.' => Some(28),
            b'0'..=b'9' => Some(u16::from(character - b'0') + 30),
            _ => None,
        }
    }

    /// Whether some character of a text has no code.
    pub fn has_uncoded(text: &[u8]) -> bool
        ensures { result ≡ list_any (λ character. is_none (code_of character)) text.now }
    {
        let mut rest = text;
        'characters: while let [character, others @ ..] = rest {
            if Rad50::code(*character).is_none() {
                return true;
            }
            rest = others;
        }
        false
    }

    /// The word that packs three characters, if each has a code.
    pub fn pack(characters: &[u8; 3]) -> Option<u16>
        ensures word { result ≡ packed_at characters.now 0 }
        ensures again { IfSome result (λ word. unpacked word ≡ Some characters.now) }
    {
        let [first, second, third] = *characters;
        let first = Rad50::code(first)?;
        let second = Rad50::code(second)?;
        let third = Rad50::code(third)?;
        Some(first * 1600 + second * 40 + third)
    }

    /// The three characters of a word below octal 175000; no other word has any. The code 29, which no character has, is shown
    /// as `%`.
    pub fn unpack(word: u16) -> Option<[u8; 3]>
        ensures characters { result ≡ unpacked word }
        ensures again { IfSome result
            (λ characters. HasNoPercent characters → packed_at characters 0 ≡ Some word) }
    {
        if word >= WORD_LIMIT {
            return None;
        }
        Some(three_characters(word))
    }
}

/// A name of six characters in RADIX-50: two words, each below octal 175000. Names are ordered by their two words.
#[derive(Clone, Copy, PartialEq, Eq, PartialOrd, Ord, Hash)]
pub struct Name {
    first: u16,
    second: u16,
}

impl Model for Name {
    ghost Value = { ℕ × ℕ };

    ghost view = { λ n. (n.first, n.second) };

    ghost invariant = { λ n. (n.first < word_limit) × (n.second < word_limit) };

    ghost inverse = { λ n. record { first = n.0; second = n.1 } };
}

impl Name {
    /// The name with these six characters, if each of them has a code.
    pub fn pack(characters: &[u8; 6]) -> Option<Name>
        ensures { result ≡ name_of characters.now }
    {
        let [a, b, c, d, e, f] = *characters;
        let first = Rad50::pack(&[a, b, c])?;
        let second = Rad50::pack(&[d, e, f])?;
        Some(Name { first, second })
    }

    /// The name made of two words, if both are below octal 175000.
    pub fn from_words(first: u16, second: u16) -> Option<Name>
        ensures { SomeIff result (IsName (first, second)) (first, second) }
    {
        if first < WORD_LIMIT && second < WORD_LIMIT {
            Some(Name { first, second })
        } else {
            None
        }
    }

    /// The name's two words, both below octal 175000.
    pub fn words(&self) -> (u16, u16)
        ensures words { result ≡ self.now }
        ensures below { IsName self.now }
    {
        (self.first, self.second)
    }

    /// Whether another name equals this one.
    pub fn is_same(&self, other: Name) -> bool
        ensures { result ≡ is_same_name self.now other }
    {
        self.first == other.first && self.second == other.second
    }

    /// The name's six characters; a shorter name ends with blanks.
    pub fn characters(&self) -> [u8; 6]
        ensures { result ≡ name_text self.now }
    {
        let [a, b, c] = three_characters(self.first);
        let [d, e, f] = three_characters(self.second);
        [a, b, c, d, e, f]
    }
}
