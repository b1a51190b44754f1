//! The text of a source.

ghost use Rattle.std.specs.Prelude.{◌≡◌, ◌≤◌, ◌++◌, IfOk, OnOk, length};
ghost use Rattle.std.specs.List.{flat_map, list_any};
ghost use Rattle.m11_dump_source.specs.Labels.{left_by, symbols_in};
ghost use Rattle.m11_dump_source.specs.Texts as spec;

use crate::labels::{is_kept, kept_of, symbols_in};
use crate::lines::{Line, lines_of, source_of};
use m11_base_disassembly::{Symbol, Symbols, address_source, name_source, number_source};
use std::alloc::{AllocError, Global};

// Whether a line begins at this address.
fn begins_at(lines: &[Line], address: u16) -> bool
    ensures { result ≡ spec.begins_at lines.now address }
{
    lines.iter().any(|line| line.address == address)
}

// Adds the line that gives a symbol its value, unless a line begins there. Fails if memory is refused.
fn put_assignment(text: &mut Vec<u8>, lines: &[Line], symbol: &Symbol) -> Result<(), AllocError>
    ensures { OnOk result (text.new.items ≡ text.old.items ++ spec.assignment lines.now symbol.now) }
{
    if begins_at(lines, symbol.value) {
        return Ok(());
    }
    text.extend_from_slice(&name_source(symbol.name))?;
    text.extend_from_slice(b"=")?;
    text.extend_from_slice(&number_source(symbol.value))?;
    text.extend_from_slice(b"\n")
}

// Adds the lines that give symbols their values. Fails if memory is refused.
fn put_assignments(text: &mut Vec<u8>, lines: &[Line], symbols: &[Symbol]) -> Result<(), AllocError>
    ensures { OnOk result (text.new.items ≡ text.old.items ++ flat_map (spec.assignment lines.now) symbols.now) }
{
    let mut rest = symbols;
    'symbols: while let [symbol, others @ ..] = rest {
        put_assignment(text, lines, symbol)?;
        rest = others;
    }
    Ok(())
}

// Adds the comment that says the value of a symbol. Fails if memory is refused.
fn put_note(text: &mut Vec<u8>, symbol: &Symbol) -> Result<(), AllocError>
    ensures { OnOk result (text.new.items ≡ text.old.items ++ spec.note symbol.now) }
{
    text.extend_from_slice(b"; ")?;
    text.extend_from_slice(&name_source(symbol.name))?;
    text.extend_from_slice(b"=")?;
    text.extend_from_slice(&number_source(symbol.value))?;
    text.extend_from_slice(b"\n")
}

// Adds a comment for each symbol of which none of those that are kept has the name and the value. Fails if memory is refused.
fn put_notes(text: &mut Vec<u8>, kept: &[Symbol], symbols: &[Symbol]) -> Result<(), AllocError>
    ensures { OnOk result (text.new.items ≡ text.old.items ++ flat_map spec.note (left_by kept.now symbols.now)) }
{
    let mut rest = symbols;
    'symbols: while let [symbol, others @ ..] = rest {
        if !is_kept(kept, symbol) {
            put_note(text, symbol)?;
        }
        rest = others;
    }
    Ok(())
}

// Adds the labels of an address, each in a line of its own. Fails if memory is refused.
fn put_labels(text: &mut Vec<u8>, symbols: &[Symbol], address: u16) -> Result<(), AllocError>
    ensures { OnOk result (text.new.items ≡ text.old.items ++ flat_map (spec.label address) symbols.now) }
{
    let mut rest = symbols;
    'symbols: while let [symbol, others @ ..] = rest {
        if symbol.value == address {
            text.extend_from_slice(&name_source(symbol.name))?;
            text.extend_from_slice(b":\n")?;
        }
        rest = others;
    }
    Ok(())
}

// Adds the line that moves the location counter to an address, unless it is there. Fails if memory is refused.
fn put_moving(text: &mut Vec<u8>, here: usize, address: u16) -> Result<(), AllocError>
    ensures { OnOk result (text.new.items ≡ text.old.items ++ spec.moving here address) }
{
    if here == usize::from(address) {
        return Ok(());
    }
    text.extend_from_slice(b"\t.=")?;
    text.extend_from_slice(&number_source(address))?;
    text.extend_from_slice(b"\n")
}

// Adds a line after its labels. Fails if memory is refused.
fn put_line(text: &mut Vec<u8>, symbols: &Symbols, line: Line) -> Result<(), AllocError>
    ensures { OnOk result (text.new.items ≡ text.old.items ++ spec.line_text symbols.now line) }
{
    put_labels(text, symbols.as_slice(), line.address)?;
    text.extend_from_slice(b"\t")?;
    text.extend_from_slice(&source_of(symbols, line))?;
    text.extend_from_slice(b"\n")
}

// Adds lines one after another, the first where the location counter is 0. Fails if memory is refused.
fn put_lines(text: &mut Vec<u8>, symbols: &Symbols, lines: &[Line]) -> Result<(), AllocError>
    ensures { OnOk result (text.new.items ≡ text.old.items ++ spec.lines_text symbols.now 0 lines.now) }
{
    let mut here = 0;
    let mut rest = lines;
    'lines: while let [line, others @ ..] = rest {
        put_moving(text, here, line.address)?;
        put_line(text, symbols, *line)?;
        here = usize::from(line.address) + line.shown.size();
        rest = others;
    }
    Ok(())
}

// Adds the last line, with the transfer address, unless that is odd. Fails if memory is refused.
fn put_end(text: &mut Vec<u8>, symbols: &Symbols, start: u16) -> Result<(), AllocError>
    ensures { OnOk result (text.new.items ≡ text.old.items ++ spec.end_text symbols.now start) }
{
    text.extend_from_slice(b"\t.END")?;
    if start % 2 == 0 {
        text.extend_from_slice(b"\t")?;
        text.extend_from_slice(&address_source(symbols, start))?;
    }
    text.extend_from_slice(b"\n")
}

/// The source of what memory holds, with these names and this transfer address. Fails if memory is refused.
pub(crate) fn source_text(
    alloc: Global,
    symbols: &Symbols,
    start: u16,
    memory: &[Option<u8>],
) -> Result<Vec<u8>, AllocError>
    requires { length memory.now ≤ 65536 }
    ensures { IfOk result (λ text. text.items ≡ spec.source_text symbols.now start memory.now) }
{
    let lines = lines_of(alloc, memory)?;
    let kept = kept_of(alloc, symbols.as_slice())?;
    let all = Symbols::new(alloc, symbols_in(alloc, &kept, start, &lines)?)?;
    let mut text = Vec::new(alloc);
    text.extend_from_slice(b"\t.ASECT\n")?;
    put_assignments(&mut text, &lines, &kept)?;
    put_notes(&mut text, &kept, symbols.as_slice())?;
    put_lines(&mut text, &all, &lines)?;
    put_end(&mut text, &all, start)?;
    Ok(text)
}
