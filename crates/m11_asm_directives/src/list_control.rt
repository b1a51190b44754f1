//! `.LIST`, `.NLIST`, `.ENABL` and `.DSABL`. (MACRO-11 Language Reference Manual, "Listing control directives" and "Function
//! directives".)

ghost use Rattle.std.specs.Prelude.{◌≡◌, List, [], ◌∷◌, Option, if◌then◌else◌, not};
ghost use Rattle.std.specs.List.{list_any};
ghost use Rattle.m11_base.specs.Devices.{Bytes};
ghost use Rattle.m11_scan.specs.Views.{bits_of};
ghost use Rattle.m11_asm_rules.specs.Actions.{ListExpansions, NoAction};
ghost use Rattle.m11_asm_rules.specs.Control as spec;
ghost use Rattle.m11_asm_rules.specs.Elements.{names_at, texts_of};
ghost use Rattle.m11_asm_directives.specs.Settings.{effect_model, setting_model};
ghost use Rattle.m11_scan_statements.specs.declared.spans.Span.{Span};

use crate::exports::names_flags;
use crate::settings::{Effect, Setting};
use m11_asm_operands::ListedNames;
use m11_scan::{ErrorFlags, Line, six_characters};
use m11_scan_expressions::{has_token, rest_flags};
use m11_scan_statements::Span;

// The valid arguments of `.LIST` and `.NLIST`; only ME has an effect.
const LISTING_WORDS: [[u8; 6]; 15] = [
    *b"SEQ   ", *b"LOC   ", *b"BIN   ", *b"SRC   ", *b"COM   ", *b"BEX   ", *b"MD    ", *b"MC    ",
    *b"ME    ", *b"MEB   ", *b"CND   ", *b"LD    ", *b"TOC   ", *b"SYM   ", *b"TTM   ",
];

// The argument for the listing of expansions.
const EXPANSIONS: &[u8; 6] = b"ME    ";

// The valid arguments of `.ENABL`: LC and GBL, which are always in force.
const ENABLED_WORDS: [[u8; 6]; 2] = [*b"LC    ", *b"GBL   "];

/// Reads a `.LIST` or a `.NLIST`. Without arguments it raises or lowers the listing level; with ME among its arguments it turns the listing
/// of expansions on or off. Other arguments do nothing, and are flagged A if they are unknown.
pub fn listing(names: &mut ListedNames, is_list: bool, line: &Line, start: u8) -> Effect
    ensures { effect_model line.now.text names.new.list.items result ≡ spec.listing is_list line.now.text start }
{
    if has_token(line, start) {
        let flags = words_flags(names, &LISTING_WORDS, line, start);
        let setting = by_words(is_list, has_word(line, names.list.as_slice(), EXPANSIONS));
        Effect { setting, flags }
    } else {
        Effect {
            setting: Setting::MoveLevel(is_list),
            flags: rest_flags(line, start),
        }
    }
}

fn by_words(is_list: bool, has_expansions: bool) -> Setting
    ensures { (line : Bytes) (names : List (Option Span))
        → setting_model line names result ≡ (if has_expansions then ListExpansions is_list else NoAction) }
{
    if has_expansions {
        Setting::ListExpansions(is_list)
    } else {
        Setting::Nothing
    }
}

// Whether a list contains this word of six characters.
fn has_word(line: &Line, names: &[Option<Span>], word: &[u8; 6]) -> bool
    ensures { result ≡ spec.is_among (texts_of line.now.text names.now) word.now }
{
    let mut rest = names;
    'names: while let [name, others @ ..] = rest {
        if is_word(line, *name, word) {
            return true;
        }
        rest = others;
    }
    false
}

fn is_word(line: &Line, name: Option<Span>, word: &[u8; 6]) -> bool
    ensures { result ≡ spec.is_among (texts_of line.now.text (name ∷ [])) word.now }
{
    match name {
        Some(name) => six_characters(name.text(line)) == *word,
        None => false,
    }
}

/// Reads an `.ENABL`, which changes nothing. It is flagged A for any argument but LC and GBL, and for a missing argument.
pub fn enabl(names: &mut ListedNames, line: &Line, start: u8) -> Effect
    ensures { effect_model line.now.text names.new.list.items result ≡ spec.enabl line.now.text start }
{
    Effect {
        setting: Setting::Nothing,
        flags: words_flags(names, &ENABLED_WORDS, line, start),
    }
}

/// Reads a `.DSABL`, which changes nothing. It is always flagged A, since no argument is supported, and a missing one is an error too.
pub fn dsabl(names: &mut ListedNames, line: &Line, start: u8) -> Effect
    ensures { effect_model line.now.text names.new.list.items result ≡ spec.dsabl line.now.text start }
{
    Effect {
        setting: Setting::Nothing,
        flags: words_flags(names, &[], line, start),
    }
}

// Reads a list of words, and returns its flags: A for a word that isn't among the known ones, and those that `names_flags` finds in the
// list.
fn words_flags(names: &mut ListedNames, known: &[[u8; 6]], line: &Line, start: u8) -> ErrorFlags
    ensures list { names.new.list.items ≡ (names_at line.now.text start).list }
    ensures flags { bits_of result ≡ spec.words_flags known.now line.now.text start (names_at line.now.text start) }
{
    names.read(line, start);
    unknown_flags(known, line, names.list.as_slice()).with(names_flags(line, start, names))
}

// A if a list has a word that isn't among the known ones.
fn unknown_flags(known: &[[u8; 6]], line: &Line, names: &[Option<Span>]) -> ErrorFlags
    ensures { bits_of result ≡ spec.unknown_flags known.now (texts_of line.now.text names.now) }
{
    ErrorFlags::A.when(has_unknown(known, line, names))
}

// Whether a list has a word that isn't among the known ones.
fn has_unknown(known: &[[u8; 6]], line: &Line, names: &[Option<Span>]) -> bool
    ensures { result ≡ list_any (λ word. not (spec.is_among known.now word)) (texts_of line.now.text names.now) }
{
    let mut rest = names;
    'names: while let [name, others @ ..] = rest {
        if is_unknown(known, line, *name) {
            return true;
        }
        rest = others;
    }
    false
}

fn is_unknown(known: &[[u8; 6]], line: &Line, name: Option<Span>) -> bool
    ensures { result ≡ list_any (λ word. not (spec.is_among known.now word)) (texts_of line.now.text (name ∷ [])) }
{
    match name {
        Some(name) => !is_among(known, &six_characters(name.text(line))),
        None => false,
    }
}

fn is_among(words: &[[u8; 6]], word: &[u8; 6]) -> bool
    ensures { result ≡ spec.is_among words.now word.now }
{
    words.iter().any(|other| *other == *word)
}
