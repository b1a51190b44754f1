//! Texts on the heap: actuals, and the lines of bodies. (This project's own.)

ghost use Rattle.std.specs.Prelude.{◌≡◌, ◌<◌, ◌∷◌, ◌++◌, [], List, length, get_or, IfOk, OnOk, OnErr};

use std::alloc::{AllocError, Global};
use std::marker::Model;

/// A text on the heap.
#[derive(Drop)]
pub struct Text {
    bytes: Vec<u8>,
}

impl Model for Text {
    ghost use Rattle.m11_base.specs.Devices.{Bytes};

    ghost Value = { Bytes };

    ghost view = { λ text. text.bytes.items };
}

impl Text {
    /// Copies these bytes.
    ///
    /// Error: memory was refused.
    pub fn from_bytes(alloc: Global, bytes: &[u8]) -> Result<Text, AllocError>
        ensures { IfOk result (λ text. text ≡ bytes.now) }
    {
        let bytes = bytes.to_vec(alloc)?;
        Ok(Text { bytes })
    }

    /// The characters of the text.
    pub fn bytes(&self) -> &[u8]
        ensures { result.now ≡ self.now }
    {
        self.bytes.as_slice()
    }
}

/// Texts on the heap, in order: the lines of a body, or the actuals of one round of an expansion.
#[derive(Drop)]
pub struct Texts {
    alloc: Global,
    texts: Vec<Text>,
}

impl Model for Texts {
    ghost use Rattle.std.specs.Prelude.{List};
    ghost use Rattle.m11_base.specs.Devices.{Bytes};

    ghost Value = { List Bytes };

    ghost view = { λ texts. texts.texts.items };
}

impl Texts {
    /// An empty list.
    pub fn new(alloc: Global) -> Texts
        ensures { result ≡ [] }
    {
        Texts {
            alloc,
            texts: Vec::new(alloc),
        }
    }

    /// Copies a text to the end of the list.
    ///
    /// Error: memory was refused. The list is then unchanged.
    pub fn push(&mut self, text: &[u8]) -> Result<(), AllocError>
        ensures ok { OnOk result (self.new ≡ self.old ++ text.now ∷ []) }
        ensures err { OnErr result (self.new ≡ self.old) }
    {
        let text = Text::from_bytes(self.alloc, text)?;
        self.texts.push(text)?;
        Ok(())
    }

    /// The number of texts.
    pub fn len(&self) -> usize
        ensures { result ≡ length self.now }
    {
        self.texts.len()
    }

    /// The text with this index, counted from 0.
    pub fn text(&self, index: usize) -> &[u8]
        requires { index < length self.now }
        ensures { result.now ≡ get_or self.now index [] }
    {
        self.texts[index].bytes()
    }

    /// All texts.
    pub fn as_slice(&self) -> &[Text]
        ensures { result.now ≡ self.now }
    {
        self.texts.as_slice()
    }
}
