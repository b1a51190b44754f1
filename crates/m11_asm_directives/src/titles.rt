//! `.TITLE`. (MACRO-11 Language Reference Manual, ".TITLE directive".)

ghost use Rattle.std.specs.Prelude.{◌≡◌, List, Option};
ghost use Rattle.m11_scan.specs.Cutting.{tokens_from};
ghost use Rattle.m11_scan_statements.specs.declared.spans.Span.{Span};
ghost use Rattle.m11_asm_rules.specs.Exports as spec;
ghost use Rattle.m11_asm_directives.specs.Settings.{effect_model};

use crate::settings::{Effect, Setting, refused};
use m11_base::Name;
use m11_scan::{Line, Sort, next_token, read_name};
use m11_scan_expressions::flags_before;

/// Reads a `.TITLE`: its name becomes the title of the module, and any text may follow it. Without a name it does nothing, and is flagged
/// A.
pub fn title(line: &Line, start: u8) -> Effect
    ensures { (names : List (Option Span)) → effect_model line.now.text names result ≡ spec.title line.now.text start }
{
    match title_at(line, start) {
        Some(name) => Effect {
            setting: Setting::Entitle(name),
            flags: flags_before(line, start),
        },
        None => refused(line, start),
    }
}

fn title_at(line: &Line, start: u8) -> Option<Name>
    ensures { result ≡ spec.title_by (tokens_from line.now.text start) }
{
    match next_token(line, start) {
        Some(token) => match token.sort {
            Sort::Name => read_name(token.text(line)),
            _ => None,
        },
        None => None,
    }
}
