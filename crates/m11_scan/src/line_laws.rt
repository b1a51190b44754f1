//! Laws of the definition of lines. Each is the contract of a function with an empty body.

ghost use Rattle.std.specs.Prelude.{◌≡◌, ◌<◌, ◌≤◌, ◌++◌, ℕ, Bool, true, false, List, [], length, map, take, Option, Some};
ghost use Rattle.m11_base.specs.Devices.{Bytes};
ghost use Rattle.m11_scan.specs.Laws.{ArePlainTexts, IsPlainText, with_line_feed, written};
ghost use Rattle.m11_scan.specs.Line.{line_limit, line_of};
ghost use Rattle.m11_scan.specs.Lines.{RawLine, cut, line_text};

/// If the first part of an input ends at the end of a line or of a source, the lines of the whole are the lines of that part followed
/// by those of the rest. So the lines that a reader returns one after another are the lines of the whole input.
pub fn lines_of_parts_are_those_of_the_whole()
    ensures { (front rest : List (Option ℕ)) (lines more : List RawLine) (unclosed : Bytes)
        → cut front ≡ record { lines = lines; unclosed = [] } → cut rest ≡ record { lines = more; unclosed = unclosed }
        → cut (front ++ rest) ≡ record { lines = lines ++ more; unclosed = unclosed } }
{}

/// An input of lines without NULs, line feeds, form feeds or CRs, each followed by a line feed, is cut into exactly these lines.
/// If more bytes without these characters follow the last line feed, they are left unclosed. The text of each line is the line unchanged.
pub fn plain_lines_are_cut_unchanged()
    ensures cuts { (lines : List Bytes) (last : Bytes) → ArePlainTexts lines → IsPlainText last
        → cut (map (λ byte. Some byte) (written lines ++ last))
        ≡ record { lines = map with_line_feed lines; unclosed = last } }
    ensures texts { (line : Bytes) (has_line_feed : Bool) → IsPlainText line
        → line_text (record { bytes = line; has_line_feed = has_line_feed }) ≡ line }
{}

/// A line of at most 132 characters is stored whole. Of a longer one the first 132 are stored, and it is marked as over-long.
pub fn lines_within_the_limit_are_stored_whole()
    ensures whole { (line : Bytes) → length line ≤ line_limit → line_of line ≡ record { text = line; is_over_long = false } }
    ensures over_long { (line : Bytes) → line_limit < length line
        → line_of line ≡ record { text = take line_limit line; is_over_long = true } }
{}
