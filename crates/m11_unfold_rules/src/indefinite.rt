//! The rounds of `.IRP` and `.IRPC`. (MACRO-11 Language Reference Manual, "Indefinite repeat block directives".)

ghost use Rattle.std.specs.Prelude.{◌≡◌, ◌∷◌, [], map, IfOk};
ghost use Rattle.m11_unfold_rules.specs.Actuals.{texts_of};
ghost use Rattle.m11_unfold_rules.specs.Conditions.{text_of};
ghost use Rattle.m11_scan_expressions.specs.Expressions.{known_by};
ghost use Rattle.m11_unfold_rules.specs.Indefinite as spec;
ghost use Rattle.m11_unfold_rules.specs.Indefinite.{rounds_model};
ghost use Rattle.m11_scan_expressions.specs.Remarks.{joined};

use crate::actuals::{actuals_from, text_of};
use crate::conditions::actual_flags;
use crate::macros::name_at;
use m11_base::Name;
use m11_scan::{LINE_LIMIT, Line};
use m11_scan_expressions::{Names, Remarks, bad_flags, flags_before, left_over};
use m11_scan_statements::{Actual, ActualKind, next_actual, separator_at};
use std::alloc::{AllocError, Global};

/// The rounds of an `.IRP` or `.IRPC`.
#[derive(Drop)]
pub struct Rounds {
    /// The name of the formal.
    pub formal: Name,
    /// The formal's actual in each round, in order.
    pub texts: Vec<Vec<u8>>,
}

// The formal of an `.IRP` or `.IRPC`, and the argument after it, from which its actuals are read.
#[derive(Clone, Copy, PartialEq, Eq)]
pub struct RepeatHeader {
    pub(crate) formal: Name,
    pub(crate) list: Actual,
}

/// Reads the formal and the list of an `.IRP`, at or after a column. The list has brackets around its actuals, or is a single actual.
/// If the formal is bad or missing, or the list is missing, the line is flagged A and the result is None. A list without its `>` is
/// flagged A, a left-over token Q, and a skipped character I. These flags, and the flags and symbols of the actuals, are added to the
/// remarks. Error: memory was refused.
pub fn irp<N: Names>(
    alloc: Global,
    line: &Line,
    column: u8,
    names: &N,
    remarks: &mut Remarks,
) -> Result<Option<Rounds>, AllocError>
    ensures rounds { IfOk result (λ rounds. rounds_model rounds ≡ (spec.irp
        (known_by (N.base names.now) (N.value_of_symbol names.now)) line.now.text column).rounds) }
    ensures remarks { IfOk result (λ _. remarks.new ≡ joined remarks.old (spec.irp
        (known_by (N.base names.now) (N.value_of_symbol names.now)) line.now.text column).remarks) }
{
    let Some(begun) = begun_at(line, column, true) else {
        remarks.add_flags(bad_flags(line, column));
        return Ok(None);
    };
    remarks.add_flags(flags_before(line, column));
    let texts = listed(alloc, line, &begun.list, names, remarks)?;
    remarks.add_flags(left_over(line, begun.list.end));
    Ok(Some(Rounds {
        formal: begun.formal,
        texts,
    }))
}

/// Reads the formal and the text of an `.IRPC`, at or after a column. Each character of the text is the actual of one round. If the
/// formal is bad or missing, or the text is missing, the line is flagged A and the result is None. A text without its `>` is flagged
/// A, a left-over token Q, and a skipped character I. The flags are added to the remarks. Error: memory was refused.
pub fn irpc(
    alloc: Global,
    line: &Line,
    column: u8,
    remarks: &mut Remarks,
) -> Result<Option<Rounds>, AllocError>
    ensures rounds { IfOk result (λ rounds. rounds_model rounds
        ≡ (spec.irpc line.now.text column).rounds) }
    ensures remarks { IfOk result (λ _. remarks.new
        ≡ joined remarks.old (spec.irpc line.now.text column).remarks) }
{
    let Some(begun) = begun_at(line, column, false) else {
        remarks.add_flags(bad_flags(line, column));
        return Ok(None);
    };
    remarks.add_flags(flags_before(line, column));
    let texts = spelled(alloc, line, &begun.list, remarks)?;
    remarks.add_flags(left_over(line, begun.list.end));
    Ok(Some(Rounds {
        formal: begun.formal,
        texts,
    }))
}

// The formal at or after a column, and the argument after it. None unless the next token is a name other than `.`, which is the
// formal, and an argument follows. Blanks, a comma or both may separate the two. `\` is an ordinary character in the argument unless
// `allows_digits` is true.
fn begun_at(line: &Line, column: u8, allows_digits: bool) -> Option<RepeatHeader>
    ensures { result ≡ spec.begun_at line.now.text column allows_digits }
{
    let name = name_at(line, column)?;
    let begin = separator_at(line, name.end).end;
    let list = next_actual(line, begin, allows_digits)?;
    Some(RepeatHeader {
        formal: name.name,
        list,
    })
}

// The actuals of an `.IRP`: those in its brackets, or a single one without brackets. Their flags and symbols are added to the
// remarks. Error: memory was refused.
fn listed<N: Names>(
    alloc: Global,
    line: &Line,
    list: &Actual,
    names: &N,
    remarks: &mut Remarks,
) -> Result<Vec<Vec<u8>>, AllocError>
    ensures texts { IfOk result (λ texts. texts_of texts.items ≡ (spec.listed
        (known_by (N.base names.now) (N.value_of_symbol names.now)) line.now.text list.now).texts) }
    ensures remarks { IfOk result (λ _. remarks.new ≡ joined remarks.old (spec.listed
        (known_by (N.base names.now) (N.value_of_symbol names.now)) line.now.text list.now).remarks) }
{
    match list.kind {
        ActualKind::Bracketed => listed_in(alloc, line, list, names, remarks),
        ActualKind::Bare | ActualKind::Digits => {
            let mut texts = Vec::new(alloc);
            texts.push(text_of(alloc, line, list, names, remarks)?)?;
            Ok(texts)
        }
    }
}

// The actuals of a bracketed list, which is read as a line of its own, and flagged A if it lacks its `>`. The flags, and the
// symbols of the actuals, are added to the remarks. Error: memory was refused.
fn listed_in<N: Names>(
    alloc: Global,
    line: &Line,
    list: &Actual,
    names: &N,
    remarks: &mut Remarks,
) -> Result<Vec<Vec<u8>>, AllocError>
    ensures texts { IfOk result (λ texts. texts_of texts.items ≡ (spec.listed_in
        (known_by (N.base names.now) (N.value_of_symbol names.now)) line.now.text list.now).texts) }
    ensures remarks { IfOk result (λ _. remarks.new ≡ joined remarks.old (spec.listed_in
        (known_by (N.base names.now) (N.value_of_symbol names.now)) line.now.text list.now).remarks) }
{
    remarks.add_flags(actual_flags(list));
    let inner = line_of(line, list);
    actuals_from(alloc, &inner, 0, LINE_LIMIT, names, remarks)
}

// The characters inside an actual, as a line.
fn line_of(line: &Line, actual: &Actual) -> Line
    ensures { result.text ≡ text_of line.now.text actual.now }
{
    let text = actual.inside.text(line);
    let _whole = line.text();
    Line::from_bytes(text)
}

// The actuals of an `.IRPC`: the characters of its text. A is added to the remarks if the text lacks its `>`. Error: memory was
// refused.
fn spelled(
    alloc: Global,
    line: &Line,
    list: &Actual,
    remarks: &mut Remarks,
) -> Result<Vec<Vec<u8>>, AllocError>
    ensures texts { IfOk result (λ texts. texts_of texts.items ≡ (spec.spelled line.now.text list.now).texts) }
    ensures remarks { IfOk result (λ _. remarks.new ≡ joined remarks.old (spec.spelled line.now.text list.now).remarks) }
{
    remarks.add_flags(actual_flags(list));
    characters_of(alloc, list.inside.text(line))
}

// Each character of a text as a text of its own. Error: memory was refused.
fn characters_of(alloc: Global, text: &[u8]) -> Result<Vec<Vec<u8>>, AllocError>
    ensures { IfOk result (λ texts. texts_of texts.items ≡ map (λ byte. byte ∷ []) text.now) }
{
    let mut texts = Vec::new(alloc);
    'characters: for byte in text {
        texts.push([*byte].to_vec(alloc)?)?;
    }
    Ok(texts)
}
