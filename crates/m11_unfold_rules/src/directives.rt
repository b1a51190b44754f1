//! The directives for conditions, repeats and macros, and `.END`, by their names. (MACRO-11 Language Reference Manual, "Conditional
//! assembly block directives", "Macro definition", "Repeat block directive", "Indefinite repeat block directives" and ".END
//! directive".)

ghost use Rattle.std.specs.Prelude.{◌≡◌, true};
ghost use Rattle.m11_base.specs.NameCharacters.{six_of};
ghost use Rattle.m11_unfold_rules.specs.Directives as spec;

use m11_scan::{Line, is_same_six, six_characters};
use m11_scan_statements::{Body, Span, statement};

/// A directive for conditions, repeats or macros, or `.END`.
#[derive(Clone, Copy, PartialEq, Eq)]
pub enum Directive {
    /// `.IF`
    If,
    /// `.IFF`
    Iff,
    /// `.IFT`
    Ift,
    /// `.IFTF`
    Iftf,
    /// `.ENDC`
    Endc,
    /// `.IIF`
    Iif,
    /// `.MACRO`
    Macro,
    /// `.ENDM`
    Endm,
    /// `.REPT`
    Rept,
    /// `.ENDR`
    Endr,
    /// `.IRP`
    Irp,
    /// `.IRPC`
    Irpc,
    /// `.MEXIT`
    Mexit,
    /// `.NARG`
    Narg,
    /// `.NCHR`
    Nchr,
    /// `.END`
    End,
}

// A directive and its name, padded with blanks to six characters.
#[derive(Clone, Copy)]
struct DirectiveRow {
    name: [u8; 6],
    directive: Directive,
}

// The directives whose names have I as their second character. The first character is always a dot.
// speed: a list for each second character, so that a name is compared with at most seven.
#[rattlefmt::skip]
const WITH_I: [DirectiveRow; 7] = [
    DirectiveRow { name: *b".IF   ", directive: Directive::If },
    DirectiveRow { name: *b".IFF  ", directive: Directive::Iff },
    DirectiveRow { name: *b".IFT  ", directive: Directive::Ift },
    DirectiveRow { name: *b".IFTF ", directive: Directive::Iftf },
    DirectiveRow { name: *b".IIF  ", directive: Directive::Iif },
    DirectiveRow { name: *b".IRP  ", directive: Directive::Irp },
    DirectiveRow { name: *b".IRPC ", directive: Directive::Irpc },
];

#[rattlefmt::skip]
const WITH_E: [DirectiveRow; 4] = [
    DirectiveRow { name: *b".ENDC ", directive: Directive::Endc },
    DirectiveRow { name: *b".ENDM ", directive: Directive::Endm },
    DirectiveRow { name: *b".ENDR ", directive: Directive::Endr },
    DirectiveRow { name: *b".END  ", directive: Directive::End },
];

#[rattlefmt::skip]
const WITH_M: [DirectiveRow; 2] = [
    DirectiveRow { name: *b".MACRO", directive: Directive::Macro },
    DirectiveRow { name: *b".MEXIT", directive: Directive::Mexit },
];

#[rattlefmt::skip]
const WITH_N: [DirectiveRow; 2] = [
    DirectiveRow { name: *b".NARG ", directive: Directive::Narg },
    DirectiveRow { name: *b".NCHR ", directive: Directive::Nchr },
];

#[rattlefmt::skip]
const WITH_R: [DirectiveRow; 1] = [
    DirectiveRow { name: *b".REPT ", directive: Directive::Rept },
];

/// The directive with this name, if there is one. Letters may be of either case, and only the first six characters count.
// speed: inline, since it is called for each operator, and most operators are none of these directives.
#[inline(always)]
pub fn directive_named(name: &[u8]) -> Option<Directive>
    ensures { result ≡ spec.directive_named (six_of name.now) }
{
    // speed: all of these names begin with a dot, and an operator without one needn't be looked up
    match name.first() {
        Some(b'.') => directive_of_six(&six_characters(name)),
        _ => None,
    }
}

// The directive with this name of six characters, if there is one.
#[tactic(auto, using(crate::proofs::SameSecond::named_with))]
fn directive_of_six(name: &[u8; 6]) -> Option<Directive>
    ensures { result ≡ spec.directive_named name.now }
{
    directive_among(rows_with(name[1]), name)
}

// The directive of the row with this name, if any.
fn directive_among(rows: &[DirectiveRow], name: &[u8; 6]) -> Option<Directive>
    ensures { result ≡ spec.directive_among rows.now name.now }
{
    let found = rows.iter().find(|row| is_same_six(&row.name, name));
    match found {
        Some(row) => Some(row.directive),
        None => None,
    }
}

// The directives whose names have this second character.
fn rows_with(second: u8) -> &'static [DirectiveRow]
    ensures { result.now ≡ spec.rows_with second }
{
    match second {
        b'I' => &WITH_I,
        b'E' => &WITH_E,
        b'M' => &WITH_M,
        b'N' => &WITH_N,
        b'R' => &WITH_R,
        _ => &[],
    }
}

/// The name of the operator after a line's labels, if it has one. An assignment has none.
pub fn operator(line: &Line) -> Option<Span>
    ensures operator { result ≡ spec.operator line.now.text }
{
    operator_in(statement(line).body)
}

/// The name of the operator in the body of a statement, if it has one.
pub fn operator_in(body: Body) -> Option<Span>
    ensures { result ≡ spec.operator_in body }
{
    match body {
        Body::Operate(name) => Some(name),
        _ => None,
    }
}

/// The directive that a line's operator names, if it names one, even if a macro has the same name.
pub fn directive_of(line: &Line) -> Option<Directive>
    ensures { result ≡ spec.directive line.now.text }
{
    match operator(line) {
        Some(name) => directive_named(name.text(line)),
        None => None,
    }
}
