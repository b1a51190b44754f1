//! The name of a macro and its formals. (MACRO-11 Language Reference Manual, "Macro definition" and "Automatic creation of local
//! symbols".)

ghost use Rattle.std.specs.Prelude.{◌≡◌, [], IfOk};
ghost use Rattle.m11_scan.specs.Cutting.{tokens_from};
ghost use Rattle.m11_scan.specs.Views.{bits_of};
ghost use Rattle.m11_scan_statements.specs.Labels.{is_counter};
ghost use Rattle.m11_unfold_rules.specs.Headers as spec;
ghost use Rattle.m11_unfold_rules.specs.Headers.{header_model, listed_model};
ghost use Rattle.m11_scan_expressions.specs.Remarks.{joined, remarks_of};

use m11_base::Name;
use m11_scan::{ErrorFlags, LINE_LIMIT, Line, Sort, next_token, read_name};
use m11_scan_expressions::{Remarks, bad_flags, flags_before, rest_flags, skip_flags};
use m11_scan_statements::{Formal, NextFormal, next_formal, separator_at};
use std::alloc::{AllocError, Global};

/// A formal of a macro.
#[derive(Clone, Copy, PartialEq, Eq)]
pub struct MacroFormal {
    /// The formal's name.
    pub name: Name,
    /// Whether an empty actual becomes a created local symbol.
    pub is_created: bool,
}

/// The header of a macro definition.
#[derive(Drop)]
pub struct Header {
    /// The macro's name.
    pub name: Name,
    /// The macro's formals, in order.
    pub formals: Vec<MacroFormal>,
}

/// Reads a macro's name and formals, at or after a column. If the name is bad or missing, the result is None and the line is flagged
/// A. Any token but a formal ends the list and is flagged A. A skipped character is flagged I. The flags are added to the remarks.
/// Error: memory was refused.
pub fn header_at(
    alloc: Global,
    line: &Line,
    column: u8,
    remarks: &mut Remarks,
) -> Result<Option<Header>, AllocError>
    ensures header { IfOk result (λ header. header_model header ≡ (spec.header line.now.text column).named) }
    ensures remarks { IfOk result (λ _. remarks.new
        ≡ joined remarks.old (remarks_of (spec.header line.now.text column).flags [])) }
{
    let Some(name) = name_at(line, column) else {
        remarks.add_flags(bad_flags(line, column));
        return Ok(None);
    };
    let formals = formals_within(alloc, line, name.end, LINE_LIMIT)?;
    remarks.add_flags(flags_before(line, column).with(formals.flags));
    Ok(Some(Header {
        name: name.name,
        formals: formals.list,
    }))
}

/// A name in a line, and the column after it.
#[derive(Clone, Copy, PartialEq, Eq)]
pub struct NameAt {
    /// The name.
    pub name: Name,
    /// The column after the name.
    pub end: u8,
}

/// The name in the first token at or after a column; None if there is no such token, or if it isn't a name other than `.`.
pub fn name_at(line: &Line, column: u8) -> Option<NameAt>
    ensures { result ≡ spec.name_at (tokens_from line.now.text column) }
{
    let token = next_token(line, column)?;
    let name = name_in(token.sort, token.text(line))?;
    Some(NameAt {
        name,
        end: token.end,
    })
}

fn name_in(sort: Sort, text: &[u8]) -> Option<Name>
    ensures { result ≡ spec.name_in sort text.now }
{
    match sort {
        Sort::Name if is_counter(text) => None,
        Sort::Name => read_name(text),
        _ => None,
    }
}

fn is_counter(text: &[u8]) -> bool
    ensures { result ≡ is_counter text.now }
{
    matches!(text, [b'.'])
}

// A list of formals, and its flags.
#[derive(Drop)]
struct Formals {
    list: Vec<MacroFormal>,
    flags: ErrorFlags,
}

// Reads at most `bound` formals, at or after a column, with the flags of their list. Error: memory was refused.
fn formals_within(
    alloc: Global,
    line: &Line,
    column: u8,
    bound: usize,
) -> Result<Formals, AllocError>
    ensures list { IfOk result (λ formals. formals.list.items
        ≡ (spec.formals_within bound line.now.text column).list) }
    ensures flags { IfOk result (λ formals. bits_of formals.flags
        ≡ (spec.formals_within bound line.now.text column).flags) }
{
    let mut list = Vec::new(alloc);
    let mut flags = ErrorFlags::none();
    let mut end = column;
    let mut left = bound;
    'formals: while left > 0 {
        let begin = separator_at(line, end).end;
        match listed_at(line, begin) {
            FormalOrEnd::More(next) => {
                list.push(next.formal)?;
                flags = flags.with(next.flags);
                end = next.end;
            }
            FormalOrEnd::Last(last) => {
                return Ok(Formals {
                    list,
                    flags: flags.with(last),
                });
            }
        }
        left -= 1;
    }
    Ok(Formals { list, flags })
}

// A formal, its flags, and the column after it.
#[derive(Clone, Copy, PartialEq, Eq)]
pub struct FormalAt {
    pub(crate) formal: MacroFormal,
    pub(crate) flags: ErrorFlags,
    pub(crate) end: u8,
}

// The next item in a list of formals.
#[derive(Clone, Copy, PartialEq, Eq)]
pub enum FormalOrEnd {
    // The end of the list, with the flags of the rest of the line.
    Last(ErrorFlags),
    // A formal.
    More(FormalAt),
}

// The next item in a list of formals, at or after a column. Anything but a formal ends the list.
fn listed_at(line: &Line, column: u8) -> FormalOrEnd
    ensures { listed_model result ≡ spec.listed_at line.now.text column }
{
    match next_formal(line, column) {
        NextFormal::Ends => FormalOrEnd::Last(rest_flags(line, column)),
        NextFormal::Bad => FormalOrEnd::Last(bad_flags(line, column)),
        NextFormal::Named(formal) => match read_name(formal.name.text(line)) {
            Some(name) => FormalOrEnd::More(FormalAt {
                formal: MacroFormal {
                    name,
                    is_created: formal.is_created,
                },
                flags: skip_flags(line, column, formal_start(formal)),
                end: formal.name.end,
            }),
            None => FormalOrEnd::Last(bad_flags(line, column)),
        },
    }
}

// The column where a formal begins, including a `?` directly before it.
fn formal_start(formal: Formal) -> u8
    ensures { result ≡ spec.formal_start formal }
{
    let start = formal.name.start;
    if formal.is_created {
        start.saturating_sub(1)
    } else {
        start
    }
}
