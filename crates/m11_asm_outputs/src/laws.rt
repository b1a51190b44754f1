//! Laws of an object that is written piece by piece. Each is the contract of a function that does nothing.

ghost use Rattle.std.specs.Prelude.{◌≡◌, List, [], ◌∷◌, ◌++◌};
ghost use Rattle.m11_obj.specs.Records.{EndOfModule};
ghost use Rattle.m11_obj.specs.declared.directory.DirectoryRow.{DirectoryRow};
ghost use Rattle.m11_obj.specs.declared.pieces.Piece.{Piece};
ghost use Rattle.m11_asm_outputs.specs.Object.{closed_records, head_contents, last_records, object_contents, records_closed_by};

/// Further pieces leave the texts that are already closed as they are; any texts that they close come after those. Without further pieces
/// no text is closed, and pieces added in several parts close the same texts as when added all at once.
pub fn pieces_close_texts_in_turn()
    ensures kept { (before pieces : List Piece)
        → closed_records (before ++ pieces) ≡ closed_records before ++ records_closed_by before pieces }
    ensures none { (before : List Piece) → records_closed_by before [] ≡ [] }
    ensures in_turn { (before pieces more : List Piece) → records_closed_by before (pieces ++ more)
        ≡ records_closed_by before pieces ++ records_closed_by (before ++ pieces) more }
{}

/// The records before the texts, those of the closed texts, those of the last text, and the end of the module make the whole object, in
/// this order.
pub fn the_parts_are_the_object()
    ensures { (rows : List DirectoryRow) (pieces : List Piece) → object_contents rows pieces
        ≡ head_contents rows ++ (records_closed_by [] pieces ++ (last_records pieces ++ EndOfModule ∷ [])) }
{}
