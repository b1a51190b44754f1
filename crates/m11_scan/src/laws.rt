//! Laws of the cutting of a line into pieces, of expressions and of brackets. Each is the contract of a function with an empty
//! body.

ghost use Rattle.std.specs.Prelude.{◌≡◌, ◌∷◌, ◌++◌, List, false, length, true};
ghost use Rattle.m11_base.specs.Devices.{Bytes};
ghost use Rattle.m11_scan.specs.Cuts.{AreOrdered, IsCut, joined_from};
ghost use Rattle.m11_scan.specs.Cutting.{pieces_of, tokens_of};
ghost use Rattle.m11_scan.specs.Expressions.{expression_length};
ghost use Rattle.m11_scan.specs.Grammar.{IsNested, IsWritten, MayFollow};
ghost use Rattle.m11_scan.specs.Texts.{bracketed};
ghost use Rattle.m11_scan.specs.declared.pieces.Piece.{Piece};
ghost use Rattle.m11_scan.specs.declared.sort.Sort.{Sort};

/// Each text can be cut into pieces in exactly one way: from left to right, each piece is the longest prefix of the rest that has
/// the form of a piece.
#[tactic(auto, using(crate::proofs::OnlyCut::cuts))]
pub fn there_is_one_cut()
    ensures exists { (text : Bytes) → IsCut (pieces_of text) text }
    ensures only { (text : Bytes) (pieces : List Piece) → IsCut pieces text → pieces ≡ pieces_of text }
{}

/// The tokens of a line are in order and don't overlap. Together with the characters between and after them they make up the
/// line.
#[tactic(auto, using(crate::proofs::OrderedTokens::orders))]
pub fn tokens_lie_in_order()
    ensures ordered { (line : Bytes) → AreOrdered (length line) 0 (tokens_of line) }
    ensures whole { (line : Bytes) → joined_from line 0 (tokens_of line) ≡ line }
{}

/// An expression without missing terms or brackets is read whole if nothing follows it, or if the next token is neither a sign nor
/// an operator. Such an expression is a sequence of terms, with a sign or an operator between any two neighbours. A term may be an
/// expression in brackets, and may have signs and prefixes before it.
#[tactic(auto, using(crate::proofs::WrittenExpressions::written_length))]
pub fn written_expressions_are_read_whole()
    ensures { (sorts rest : List Sort) → IsWritten false sorts → MayFollow rest
        → expression_length (sorts ++ rest) ≡ length sorts }
{}

/// A text with matching brackets that is followed by `>` is read whole, as the inside of brackets.
#[tactic(auto, using(crate::proofs::NestedBrackets::nested_bracketed))]
pub fn nested_brackets_are_read_whole()
    ensures { (text rest : Bytes) → IsNested text
        → bracketed (text ++ 0o76 ∷ rest) ≡ record { length = length text; is_closed = true } }
{}
