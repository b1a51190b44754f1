//! The lines of a text.

ghost use Rattle.std.specs.Prelude.{◌≡◌, ◌≢◌, ◌<◌, ◌≤◌, ◌∷◌, ℕ, MatchOption, None, Some, length, slice_index};
ghost use Rattle.m11_base_disassembly.specs.Lines as spec;

// The length of the first line of a text, without its line feed.
fn line_length(text: &[u8]) -> usize
    ensures within { result ≤ length text.now }
    ensures line { (index : ℕ) → index < result → slice_index text.now index ≢ 10 }
    ensures end { result < length text.now → slice_index text.now result ≡ 10 }
{
    let mut index = 0;
    'bytes: while index < text.len() && text[index] != b'\n' {
        index += 1;
    }
    index
}

/// The first line of a text without its line feed, and the bytes after the line feed, or no bytes if there is no line feed. Needs a text
/// that isn't empty.
#[tactic(auto, using(crate::proofs::FirstLines::first_line_is))]
pub(crate) fn first_line(text: &[u8]) -> (&[u8], &[u8])
    requires { 0 < length text.now }
    ensures lines { spec.lines_of text.now ≡ result.0.now ∷ spec.lines_of result.1.now }
    ensures fewer { length result.1.now < length text.now }
{
    let end = line_length(text);
    if end < text.len() {
        (&text[..end], &text[end + 1..])
    } else {
        (text, &[])
    }
}

/// The text after the first line that equals `word`; `None` if no line does.
pub(crate) fn after_line<'a>(text: &'a [u8], word: &[u8]) -> Option<&'a [u8]>
    ensures { MatchOption result (spec.lines_after word.now (spec.lines_of text.now) ≡ None)
        (λ rest. spec.lines_after word.now (spec.lines_of text.now) ≡ Some (spec.lines_of rest.now)) }
{
    let mut rest = text;
    'lines: while !rest.is_empty() {
        let (line, others) = first_line(rest);
        if line == word {
            return Some(others);
        }
        rest = others;
    }
    None
}
