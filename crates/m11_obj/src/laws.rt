//! Laws about texts and directories. Each is the contract of a function with an empty body.

ghost use Rattle.std.specs.Prelude.{◌≡◌, ◌<◌, ◌^◌, ◌++◌, ◌∷◌, List, true};
ghost use Rattle.m11_obj.specs.Laws.{HoldsPieces, HoldsRows, LiesInText};
ghost use Rattle.m11_obj.specs.TextsRead.{AreReadAgain};
ghost use Rattle.m11_obj.specs.Texts.{is_one_text};
ghost use Rattle.m11_obj.specs.declared.directory.DirectoryRow.{DirectoryRow};
ghost use Rattle.m11_obj.specs.declared.pieces.Piece.{Piece};

/// The texts hold exactly the pieces, in order, and no text could also hold the first piece of the next one.
pub fn texts_hold_the_pieces()
    ensures { (pieces : List Piece) → HoldsPieces pieces }
{}

/// Each piece of a text lies at its location, modulo 65536, and within the 32 bytes of the text. Its relocation, if it has one,
/// refers to this location.
pub fn pieces_lie_in_their_text()
    ensures { (before after : List Piece) (piece : Piece) → piece.location < 2 ^ 16
        → is_one_text (before ++ piece ∷ after) ≡ true → LiesInText before piece after }
{}

/// A reader of the records follows the sections that they select, and recovers each text: its section, its location, its bytes and
/// its relocations.
pub fn texts_are_read_again()
    ensures { (pieces : List Piece) → AreReadAgain pieces }
{}

/// The records of a directory hold exactly the entries of its rows, in order, and only the last record may have fewer than 15.
pub fn records_hold_the_rows()
    ensures { (rows : List DirectoryRow) → HoldsRows rows }
{}
