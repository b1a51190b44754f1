//! The texts that replace a macro's formals. (MACRO-11 Language Reference Manual, "Automatic creation of local symbols" and
//! "Arguments in macro definitions and macro calls".)

ghost use Rattle.std.specs.Prelude.{◌≡◌, ℕ, [], drop, get_or, IfOk};
ghost use Rattle.m11_unfold_rules.specs.Actuals.{texts_of};
ghost use Rattle.m11_unfold_rules.specs.Filling as spec;

use crate::digits::digits_of;
use crate::macros::MacroFormal;
use std::alloc::{AllocError, Global};

/// The number of the first created local symbol.
pub const FIRST_CREATED: u16 = 30000;

/// The texts that replace the formals of a macro in one call.
#[derive(Drop)]
pub struct FormalTexts {
    /// The texts, in the order of the formals.
    pub texts: Vec<Vec<u8>>,
    /// The number of the next created local symbol: 30000 to 65535.
    pub created: u16,
}

/// The text that replaces each formal: its actual, or an empty text if there is none. If the formal asks for it, an empty text
/// becomes a created local symbol. The first of these symbols has the number `created`; 30000 follows 65535. Error: memory was
/// refused.
pub fn fill(
    alloc: Global,
    formals: &[MacroFormal],
    actuals: &[Vec<u8>],
    created: u16,
) -> Result<FormalTexts, AllocError>
    ensures texts { IfOk result (λ filled. texts_of filled.texts.items
        ≡ (spec.filled formals.now (texts_of actuals.now) created).texts) }
    ensures created { IfOk result (λ filled. filled.created
        ≡ (spec.filled formals.now (texts_of actuals.now) created).created) }
{
    let mut texts = Vec::new(alloc);
    let mut created = created;
    let mut actuals = actuals;
    'formals: for formal in formals {
        let next = fill_formal(alloc, *formal, first_text(actuals), created)?;
        texts.push(next.text)?;
        created = next.created;
        actuals = others_of(actuals);
    }
    Ok(FormalTexts { texts, created })
}

// The text that replaces a formal, and the number of the next created local symbol.
#[derive(Drop)]
struct FilledFormal {
    text: Vec<u8>,
    created: u16,
}

// The text that replaces a formal: its actual `text`, or a created local symbol if the actual is empty and the formal asks for one.
// Error: memory was refused.
fn fill_formal(
    alloc: Global,
    formal: MacroFormal,
    text: &[u8],
    created: u16,
) -> Result<FilledFormal, AllocError>
    ensures { IfOk result (λ next. (more : ℕ → spec.FormalTexts) → spec.fill formal text.now created more
        ≡ spec.text_before next.text.items (more next.created)) }
{
    if formal.is_created && text.is_empty() {
        Ok(FilledFormal {
            text: created_text(alloc, created)?,
            created: created_after(created),
        })
    } else {
        Ok(FilledFormal {
            text: text.to_vec(alloc)?,
            created,
        })
    }
}

// The first text, or an empty one if there is none.
fn first_text(texts: &[Vec<u8>]) -> &[u8]
    ensures { result.now ≡ get_or (texts_of texts.now) 0 [] }
{
    match texts {
        [first, ..] => first.as_slice(),
        [] => &[],
    }
}

// The texts after the first one.
fn others_of(texts: &[Vec<u8>]) -> &[Vec<u8>]
    ensures { texts_of result.now ≡ drop 1 (texts_of texts.now) }
{
    match texts {
        [_, others @ ..] => others,
        [] => &[],
    }
}

// The number of the created symbol after the one with this number: one more, or 30000 after 65535.
fn created_after(number: u16) -> u16
    ensures { result ≡ spec.created_after number }
{
    if number == 65535 {
        FIRST_CREATED
    } else {
        number + 1
    }
}

// The created local symbol with this number: decimal digits and a `$`. Error: memory was refused.
fn created_text(alloc: Global, number: u16) -> Result<Vec<u8>, AllocError>
    ensures { IfOk result (λ text. text.items ≡ spec.created_text number) }
{
    let mut text = digits_of(alloc, 10, number)?;
    text.push(b'$')?;
    Ok(text)
}
