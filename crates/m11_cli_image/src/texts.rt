//! The values that relocations store in texts. (RT-11 Volume and File Formats Manual, "Object file format", TXT and RLD blocks.)

ghost use Rattle.std.specs.Prelude.{◌≡◌, List};
ghost use Rattle.m11_link.specs.Written.{PlacedText, with_relocations};
ghost use Rattle.m11_link_text.specs.Findings.{Findings};
ghost use Rattle.m11_obj.specs.declared.pieces.Piece.{Piece};
ghost use Rattle.m11_obj.specs.Pieces.{relocations_of, text_bytes};
ghost use Rattle.m11_cli_image.specs.Addresses.{Addresses};
ghost use Rattle.m11_cli_image.specs.Found.{AreFound};
ghost use Rattle.m11_cli_image.specs.Pieces.{bytes_from};

/// If a text consists of pieces, the relocations of these pieces replace the bytes of each piece by its bytes in the linked program, at the
/// addresses that the linker found.
#[tactic(auto, using(crate::proofs::TextPieces::pieces_stored))]
pub fn texts_store_their_pieces()
    ensures { (found : Findings) (program : Addresses) (text : PlacedText) (pieces : List Piece) → AreFound found program
        → text.bytes ≡ text_bytes pieces
        → (with_relocations found text (relocations_of pieces)).bytes
        ≡ bytes_from program text.module_index text.base text.address pieces }
{}
