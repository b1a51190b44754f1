//! A table of the kinds of all instruction words. The kind of a word is found when the word is first executed.

ghost use Rattle.m11_cpu_quick.specs.Kinds.{Describes};

use crate::kinds::Kind;
use std::marker::Model;

/// The kind of each word. Contracts know only one fact about the table: each kind in it describes its word.
#[derive(Drop)]
pub struct KindTable {
    of_words: [Kind; 65536],
}

impl Model for KindTable {
    ghost use Rattle.m11_cpu_quick.specs.KindTables.{AreKinds};

    ghost Value = { Unit {0} };

    ghost view = { λ _. tt };

    ghost invariant = { λ table. AreKinds table.of_words };
}

impl KindTable {
    /// A table in which no word has a kind yet. The table itself takes 128 KiB; nothing else is allocated.
    pub fn new() -> KindTable {
        KindTable {
            of_words: [Kind::Unseen; 65536],
        }
    }

    /// The kind of a word; `Unseen` if it hasn't been found yet.
    #[inline(always)]
    pub(crate) fn kind(&self, word: u16) -> Kind
        ensures { Describes result word }
    {
        self.of_words[usize::from(word)]
    }

    /// Whether the kind of a word has been found.
    pub(crate) fn is_looked_at(&self, word: u16) -> bool {
        !matches!(self.of_words[usize::from(word)], Kind::Unseen)
    }

    /// Finds the kind of a word and enters it, unless that was done before.
    pub(crate) fn look_at(&mut self, word: u16) {
        let index = usize::from(word);
        if let Kind::Unseen = self.of_words[index] {
            self.of_words[index] = Kind::of(word);
        }
    }
}
