//! The text to which pieces are being added. (RT-11 Volume and File Formats Manual, "Object file format", TXT and RLD blocks.)

ghost use Rattle.std.specs.Prelude.{◌≡◌, List, [], ◌∷◌, ◌++◌, None, true, false};
ghost use Rattle.m11_obj.specs.Records.{Content};
ghost use Rattle.m11_obj.specs.declared.pieces.Piece.{Piece};
ghost use Rattle.m11_obj.specs.OpenText.{IsOpenText, records_in};
ghost use Rattle.m11_obj.specs.Texts.{text_records};

use crate::pieces::Piece;
use crate::texts::Text;
use std::marker::Model;
use std::mem;

/// The text to which further pieces may be added. It holds all pieces since the last text that was returned.
#[derive(Drop)]
pub struct OpenText {
    text: Option<Text>,
}

impl Model for OpenText {
    ghost use Rattle.std.specs.Prelude.{Option};
    ghost use Rattle.m11_obj.specs.Texts.{TextParts};

    ghost Value = { Option TextParts };

    ghost view = { λ o. o.text };
}

impl OpenText {
    /// No text yet: no piece has been added.
    pub fn new() -> OpenText
        ensures { IsOpenText [] [] result }
    {
        OpenText { text: None }
    }

    /// Adds a piece to the open text if there is one, the piece directly follows it, and it has room for the piece. Returns whether
    /// the piece was added. If so, this call does what `accept` does, in less time, since no text is returned; otherwise nothing
    /// changes.
    pub fn accept_within(&mut self, piece: &Piece) -> bool
        ensures takes { result ≡ true → (pieces : List Piece) (written : List Content) → IsOpenText pieces written self.old
            → IsOpenText (pieces ++ piece.now ∷ []) (written ++ records_in None) self.new }
        ensures unchanged { result ≡ false → self.new ≡ self.old }
    {
        let Some(text) = &mut self.text else {
            return false;
        };
        if text.fits(piece) {
            text.push(piece);
            return true;
        }
        false
    }

    /// Accepts a piece. If the piece doesn't directly follow the open text, or that text has no room for the piece, returns the text,
    /// to be written, and opens another one with the piece; otherwise returns `None`. The first piece opens the first text.
    pub fn accept(&mut self, piece: &Piece) -> Option<Text>
        ensures { (pieces : List Piece) (written : List Content) → IsOpenText pieces written self.old
            → IsOpenText (pieces ++ piece.now ∷ []) (written ++ records_in result) self.new }
    {
        let Some(text) = &mut self.text else {
            self.text = Some(Text::start(None, piece));
            return None;
        };
        if text.fits(piece) {
            text.push(piece);
            return None;
        }
        let following = Text::start(Some(text.section()), piece);
        Some(mem::replace(text, following))
    }

    /// Returns the last text, if there was any piece.
    pub fn end(self) -> Option<Text>
        ensures { (pieces : List Piece) (written : List Content) → IsOpenText pieces written self
            → written ++ records_in result ≡ text_records pieces }
    {
        self.text
    }
}
