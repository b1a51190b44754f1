//! The operand at a column of a line, as written. (MACRO-11 Language Reference Manual, "Addressing modes"; PDP-11/40 Processor
//! Handbook, "Addressing modes".)

ghost use Rattle.std.specs.Prelude.{◌≡◌, ◌∷◌, [], MatchOption};
ghost use Rattle.m11_base.specs.Devices.{Bytes};
ghost use Rattle.m11_scan.specs.Cutting.{tokens_from};
ghost use Rattle.m11_scan.specs.Ends.{expression_end};
ghost use Rattle.m11_scan.specs.ErrorFlags.{flag_A};
ghost use Rattle.m11_scan.specs.Views.{bits_of, lexeme};
ghost use Rattle.m11_scan_expressions.specs.Expressions.{IsNext};
ghost use Rattle.m11_scan_expressions.specs.Tokens.{expression, expression_of};
ghost use Rattle.m11_asm_rules.specs.Operands as spec;
ghost use Rattle.m11_asm_rules.specs.declared.operands.WrittenOperand.TheVariants.{Absent, Before, Immediate, Indexed};
ghost use Rattle.m11_asm_operands.specs.Reads.{opens_after, operand_at_model, written_operand_model};

use m11_asm_rules::WrittenOperand;
use m11_scan::{ErrorFlags, Line, Sort, Token, next_token, skipped_between};
use m11_scan_expressions::{Expr, ExprAt, expr_at, expr_from};

// An operand in a line.
#[derive(Clone, Copy)]
pub struct OperandAt {
    // The operand, as written.
    pub(crate) operand: WrittenOperand<Expr>,
    // The column after the operand.
    pub(crate) end: u8,
    // A if the operand or a `)` is missing.
    pub(crate) flags: ErrorFlags,
}

// The operand at a column of a line. It is missing if the line ends there or a comma follows.
// speed: a call would pass its result through memory.
#[inline(always)]
pub(crate) fn operand_at(line: &Line, start: u8) -> OperandAt
    ensures { operand_at_model line.now.text result ≡ spec.operand_at line.now.text start }
{
    match next_token(line, start) {
        Some(token) => match token.sort {
            Sort::At => deferred(line, token.end),
            Sort::Comma => absent(start),
            _ => begun_by(line, false, start, token),
        },
        None => absent(start),
    }
}

fn read(operand: WrittenOperand<Expr>, end: u8, flags: ErrorFlags) -> OperandAt
    ensures { result ≡ record { operand = operand; end = end; flags = flags } }
{
    OperandAt {
        operand,
        end,
        flags,
    }
}

// A missing operand, flagged A.
fn absent(start: u8) -> OperandAt
    ensures { (line : Bytes) → operand_at_model line result ≡ spec.read Absent start flag_A }
{
    read(WrittenOperand::Absent, start, ErrorFlags::A)
}

// An operand with `@`, read from the column after the `@`.
fn deferred(line: &Line, start: u8) -> OperandAt
    ensures { operand_at_model line.now.text result ≡ spec.deferred_by line.now.text start (tokens_from line.now.text start) }
{
    match next_token(line, start) {
        Some(token) => begun_by(line, true, start, token),
        None => reached(line, true, start, expr_at(line, start)),
    }
}

// The operand that begins with a token, with or without `@` before it.
// speed: a call would pass its result through memory.
#[inline(always)]
fn begun_by(line: &Line, is_deferred: bool, start: u8, token: Token) -> OperandAt
    requires { IsNext line.now.text start token }
    ensures { operand_at_model line.now.text result ≡ spec.begun_by is_deferred
        line.now.text start token.sort token.end (tokens_from line.now.text token.end) }
{
    match token.sort {
        Sort::NumberSign => immediate(line, is_deferred, token.end),
        Sort::Open => bracketed(line, is_deferred, token.end),
        Sort::Minus => after_minus(line, is_deferred, start, token),
        _ => place(line, is_deferred, start, token),
    }
}

// An operand with `#`, read from the column after the `#`: an expression.
fn immediate(line: &Line, is_deferred: bool, start: u8) -> OperandAt
    ensures { operand_at_model line.now.text result
        ≡ spec.read (Immediate is_deferred (expression line.now.text start)) (expression_end line.now.text start) 0 }
{
    let at = expr_at(line, start);
    read(
        WrittenOperand::Immediate(is_deferred, at.expr),
        at.end,
        ErrorFlags::none(),
    )
}

// The operand that begins with a `-`, or with an `@` and a `-`: `-(R)` or `@-(R)` if `(` follows the `-` with nothing but blanks between
// them, otherwise an expression with a sign.
fn after_minus(line: &Line, is_deferred: bool, start: u8, minus: Token) -> OperandAt
    requires { IsNext line.now.text start minus }
    ensures { operand_at_model line.now.text result
        ≡ spec.after_minus is_deferred line.now.text start minus.end (tokens_from line.now.text minus.end) }
{
    match next_token(line, minus.end) {
        Some(token) if opens_after(line, minus.end, token) => before(line, is_deferred, token.end),
        _ => place(line, is_deferred, start, minus),
    }
}

// Whether a token is a `(`, with no skipped character between the column and the token.
fn opens_after(line: &Line, column: u8, token: Token) -> bool
    ensures { result ≡ opens_after line.now.text column (lexeme line.now.text token) }
{
    is_open(token.sort) && !skipped_between(line, column, token.start)
}

// An operand `-(R)` or `@-(R)`, read from the column after its `(`: a register and a `)`. The operand is flagged A if the `)` is missing.
fn before(line: &Line, is_deferred: bool, start: u8) -> OperandAt
    ensures { operand_at_model line.now.text result ≡ spec.closed (Before is_deferred) line.now.text start }
{
    let at = expr_at(line, start);
    closed_by(
        line,
        WrittenOperand::Before(is_deferred, at.expr),
        at.end,
        at.next,
    )
}

// An operand with an index, read from the column after its `(`: a register and a `)`. The operand is flagged A if the `)` is missing.
fn indexed(line: &Line, is_deferred: bool, index: Expr, start: u8) -> OperandAt
    ensures { operand_at_model line.now.text result
        ≡ spec.closed (Indexed is_deferred (expression_of line.now.text index)) line.now.text start }
{
    let at = expr_at(line, start);
    closed_by(
        line,
        WrittenOperand::Indexed(is_deferred, index, at.expr),
        at.end,
        at.next,
    )
}

// The operand with the `)` that ends it. The operand is flagged A if the next token isn't a `)`.
// speed: a call would pass its result through memory.
#[inline(always)]
fn closed_by(line: &Line, operand: WrittenOperand<Expr>, end: u8, next: Option<Token>) -> OperandAt
    requires { MatchOption next (tokens_from line.now.text end ≡ [])
        (λ token. tokens_from line.now.text end ≡ lexeme line.now.text token ∷ tokens_from line.now.text token.end) }
    ensures { operand_at_model line.now.text result
        ≡ spec.closed_by (written_operand_model line.now.text operand) end (tokens_from line.now.text end) }
{
    match next {
        Some(token) if is_close(token.sort) => read(operand, token.end, ErrorFlags::none()),
        _ => read(operand, end, ErrorFlags::A),
    }
}

// The operand that begins with an expression, whose first token is `token`.
// speed: a call would pass its result through memory.
#[inline(always)]
fn place(line: &Line, is_deferred: bool, start: u8, token: Token) -> OperandAt
    requires { IsNext line.now.text start token }
    ensures { operand_at_model line.now.text result ≡ spec.place is_deferred line.now.text start }
{
    reached(line, is_deferred, start, expr_from(line, start, token))
}

// The operand that begins with an expression, which was read at a column. The expression is an index if `(` follows it.
// speed: a call would pass its result through memory.
#[inline(always)]
fn reached(line: &Line, is_deferred: bool, start: u8, at: ExprAt) -> OperandAt
    requires expr { expression_of line.now.text at.expr ≡ expression line.now.text start }
    requires end { at.end ≡ expression_end line.now.text start }
    requires next { MatchOption at.next (tokens_from line.now.text at.end ≡ [])
        (λ token. tokens_from line.now.text at.end ≡ lexeme line.now.text token ∷ tokens_from line.now.text token.end) }
    ensures { operand_at_model line.now.text result ≡ spec.place is_deferred line.now.text start }
{
    match at.next {
        Some(token) if is_open(token.sort) => indexed(line, is_deferred, at.expr, token.end),
        _ => read(
            WrittenOperand::Plain(is_deferred, at.expr),
            at.end,
            ErrorFlags::none(),
        ),
    }
}

// An operand that begins with `(` or `@(`, read from the column after the `(`: a register, a `)`, and perhaps a `+`. The operand is flagged
// A if the `)` is missing.
fn bracketed(line: &Line, is_deferred: bool, start: u8) -> OperandAt
    ensures { operand_at_model line.now.text result ≡ spec.bracketed is_deferred line.now.text start }
{
    let at = expr_at(line, start);
    match at.next {
        Some(token) if is_close(token.sort) => stepped(line, is_deferred, at.expr, token.end),
        _ => read(
            WrittenOperand::Pointed(is_deferred, at.expr),
            at.end,
            ErrorFlags::A,
        ),
    }
}

// The operand `(R)` or `@(R)`, with or without a `+` after it.
fn stepped(line: &Line, is_deferred: bool, register: Expr, end: u8) -> OperandAt
    ensures { operand_at_model line.now.text result
        ≡ spec.stepped_by is_deferred (expression_of line.now.text register) end (tokens_from line.now.text end) }
{
    match next_token(line, end) {
        Some(token) if is_plus(token.sort) => read(
            WrittenOperand::Stepped(is_deferred, register),
            token.end,
            ErrorFlags::none(),
        ),
        _ => read(
            WrittenOperand::Pointed(is_deferred, register),
            end,
            ErrorFlags::none(),
        ),
    }
}

fn is_plus(sort: Sort) -> bool
    ensures { result ≡ spec.is_plus sort }
{
    matches!(sort, Sort::Plus)
}

fn is_open(sort: Sort) -> bool
    ensures { result ≡ spec.is_open sort }
{
    matches!(sort, Sort::Open)
}

fn is_close(sort: Sort) -> bool
    ensures { result ≡ spec.is_close sort }
{
    matches!(sort, Sort::Close)
}
