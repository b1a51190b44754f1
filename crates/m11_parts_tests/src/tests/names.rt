//! Names in RADIX-50. (MACRO-11 Language Reference Manual, appendix on the RADIX-50 character set.)

use super::{equal, same};
use m11_base::{Name, Rad50};
use std::test::Fail;

// Three characters, and their word, which unpacks to the same characters; None if a character has no code.
static PACKED: [([u8; 3], Option<u16>); 6] = [
    (*b"ABC", Some(0o003223)),
    (*b"999", Some(0o174777)),
    (*b". A", Some(0o127401)),
    (*b"   ", Some(0)),
    (*b"abc", None),
    (*b"A%B", None),
];

// A word with the code 29, which has no character and is shown as %; and the first of the words that have no characters.
static UNPACKED: [(u16, Option<[u8; 3]>); 2] = [(29, Some(*b"  %")), (0o175000, None)];

// The characters of a name, and its two words.
static NAMES: [([u8; 6], (u16, u16)); 2] = [
    (*b".MAIN.", (0o130411, 0o035214)),
    (*b". ABS.", (0o127401, 0o007624)),
];

#[test]
fn words_of_the_manual_pack_and_unpack(rt: HostRuntime) {
    for (characters, word) in &PACKED {
        same(&rt, &"a word", &Rad50::pack(characters), word);
        if let Some(word) = word {
            same(&rt, word, &Rad50::unpack(*word), &Some(*characters));
        }
    }
    for (word, characters) in &UNPACKED {
        same(&rt, word, &Rad50::unpack(*word), characters);
    }
}

#[test]
fn names_of_the_manual_have_their_words(rt: HostRuntime) -> Result<(), Fail> {
    for (characters, words) in &NAMES {
        let name = Name::pack(characters).ok_or("has codes")?;
        same(&rt, &"a name", &name.words(), words);
        same(&rt, &"its characters", &name.characters(), characters);
        let again = Name::from_words(words.0, words.1);
        equal(&rt, &"its words", &again, &Some(name));
    }
    equal(&rt, &"no name", &Name::from_words(0, 0o175000), &None);
    let is_before = Name::pack(b". ABS.") < Name::pack(b".MAIN.");
    same(&rt, &"the order", &is_before, &true);
    Ok(())
}
