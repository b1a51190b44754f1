//! Reading the text after the labels of a line. (MACRO-11 Language Reference Manual, "Operator field" and ".WORD directive".)

ghost use Rattle.std.specs.Prelude.{◌≡◌, IsTrue};
ghost use Rattle.m11_scan.specs.Views.{bits_of};
ghost use Rattle.m11_scan_expressions.specs.Tokens.{expression};
ghost use Rattle.m11_scan_statements.specs.Statements.{body_of};
ghost use Rattle.m11_asm_operands.specs.Reads.{fields_model};
ghost use Rattle.m11_asm_rules.specs.Actions.{Assign, does};
ghost use Rattle.m11_asm_rules.specs.Assigning.{after_expression, target};
ghost use Rattle.m11_asm_rules.specs.Operations as spec;
ghost use Rattle.m11_asm_lines.specs.Actions as actions;
ghost use Rattle.m11_asm_lines.specs.Actions.{IsRead, is_listed, operation_model, reading_model};
ghost use Rattle.m11_asm_lines.specs.declared.actions.Action.TheVariants.{NoAction, Set, Store};

use m11_asm_directives::{
    Arguments, Effect, Setting, Storage, Storing, after_expression, ascii, asciz, asect, bytes,
    csect, dsabl, enabl, ending, exported, ident, listing, narg, nchr, psect, rad50, radix, room,
    target, title, without_arguments, words,
};
use m11_asm_operands::{Fields, operator_named, read_fields};
use m11_asm_rules::{Directive, Operator, Table};
use m11_base::{Name, Op};
use m11_scan::{ErrorFlags, Line, six_characters};
use m11_scan_expressions::{Expr, expr_at, left_over};
use m11_scan_statements::{Assignment, Body, Span};

/// What a line does after its labels: an assignment, a directive, an instruction, or nothing.
#[derive(Clone, Copy)]
pub enum Action {
    /// No action: no text, `.SBTTL`, `.PAGE`, or a line that unfolding has handled.
    NoAction,
    /// An assignment: the name, if the text before `=` is a valid one; whether it becomes global; and the expression.
    Assign(Option<Name>, bool, Expr),
    /// An assignment to `.`: the expression for the new location.
    SetCounter(Expr),
    /// A directive that neither emits nor reserves anything, other than `.SBTTL` and `.PAGE`.
    Set(Setting),
    /// A directive that stores something at the location counter, or reserves room there. A list of words without an operator counts as
    /// `.WORD`.
    Store(Storage),
    /// An instruction, and the column after its name.
    Operate(Op, u8),
}

// An action, and those of its flags that don't depend on the values of names.
#[derive(Clone, Copy)]
struct Reading {
    action: Action,
    flags: ErrorFlags,
}

/// What a line does after its labels, with its arguments. All lines of a pass share one value, since it owns the storage of lists.
#[derive(Drop)]
pub struct Operation {
    /// What it does.
    pub action: Action,
    /// Those of its flags that don't depend on the values of names. All flags of an instruction are found when it is emitted.
    pub flags: ErrorFlags,
    /// The fields of an instruction. Any other action has none.
    pub fields: Fields,
    /// The lists among the arguments of a directive.
    pub arguments: Arguments,
}

impl Operation {
    /// An operation that does nothing.
    pub fn new() -> Operation
        ensures { result.action ≡ NoAction }
    {
        Operation {
            action: Action::NoAction,
            flags: ErrorFlags::none(),
            fields: Fields::new(),
            arguments: Arguments::new(),
        }
    }

    /// Reads what a line does after its labels, once for all uses. `body` is the kind of the text after the labels. `table` is the table
    /// after the line's labels, on which the forms of operands depend. `actuals` is the number of actuals of the innermost macro call
    /// around the line, if there is one. A line that unfolding has handled (`is_own`), such as a macro call, does nothing more.
    pub fn read(
        &mut self,
        table: &Table,
        line: &Line,
        is_own: bool,
        actuals: Option<u16>,
        body: Body,
    )
        requires { body ≡ body_of line.now.text }
        ensures operation { operation_model line.now.text self.new ≡ spec.operation is_own actuals line.now.text }
        ensures read { IsRead table.now line.now.text self.new }
    {
        let reading = read_after_labels(&mut self.arguments, line, is_own, actuals, body);
        self.action = reading.action;
        self.flags = reading.flags;
        read_action_fields(&mut self.fields, table, line, &self.action);
    }
}

// Reads what a line does after its labels: nothing if unfolding has handled the line.
fn read_after_labels(
    arguments: &mut Arguments,
    line: &Line,
    is_own: bool,
    actuals: Option<u16>,
    body: Body,
) -> Reading
    requires { body ≡ body_of line.now.text }
    ensures reading { reading_model line.now.text arguments.new result ≡ spec.operation is_own actuals line.now.text }
    ensures listed { IsTrue (is_listed result.action) }
{
    if is_own {
        without_flags(Action::NoAction)
    } else {
        read_body(arguments, line, actuals, body)
    }
}

// The reading of an action whose text has no flags.
fn without_flags(action: Action) -> Reading
    ensures action { result.action ≡ action }
    ensures flags { bits_of result.flags ≡ 0 }
{
    Reading {
        action,
        flags: ErrorFlags::none(),
    }
}

// The reading of a directive that sets something.
fn settled(effect: Effect) -> Reading
    ensures action { result.action ≡ Set effect.setting }
    ensures flags { result.flags ≡ effect.flags }
{
    Reading {
        action: Action::Set(effect.setting),
        flags: effect.flags,
    }
}

// The reading of a directive that stores something, or reserves room.
fn stored(storing: Storing) -> Reading
    ensures action { result.action ≡ Store storing.storage }
    ensures flags { result.flags ≡ storing.flags }
{
    Reading {
        action: Action::Store(storing.storage),
        flags: storing.flags,
    }
}

// Reads the fields of an action, with the table after the labels of its line. Only an instruction has fields.
fn read_action_fields(fields: &mut Fields, table: &Table, line: &Line, action: &Action)
    ensures { fields_model line.now.text fields.new ≡ actions.action_fields table.now line.now.text action.now }
{
    match *action {
        Action::Operate(operation, start) => { read_fields(fields, table, line, start, operation) }
        _ => *fields = Fields::new(),
    }
}

// Reads the text after the labels, which is of the kind `body`.
fn read_body(arguments: &mut Arguments, line: &Line, actuals: Option<u16>, body: Body) -> Reading
    ensures reading { reading_model line.now.text arguments.new result ≡ spec.operation_of actuals line.now.text body }
    ensures listed { IsTrue (is_listed result.action) }
{
    match body {
        Body::Nothing => without_flags(Action::NoAction),
        Body::Assign(made) => assigning(line, made),
        Body::SetCounter(value) => {
            let read = expr_at(line, value);
            Reading {
                action: Action::SetCounter(read.expr),
                flags: after_expression(line, read.end),
            }
        }
        Body::Operate(name) => operating(arguments, line, actuals, name),
        Body::Words(start) => stored(words(arguments, line, start)),
    }
}

// Reads an assignment to a name, flagged Q if a token follows its expression.
fn assigning(line: &Line, made: Assignment) -> Reading
    ensures reading { (arguments : Arguments) → reading_model line.now.text arguments result
        ≡ does (Assign (target line.now.text made.name) made.is_global (expression line.now.text made.value))
        (after_expression line.now.text made.value) }
    ensures listed { IsTrue (is_listed result.action) }
{
    let read = expr_at(line, made.value);
    Reading {
        action: Action::Assign(target(line, made.name), made.is_global, read.expr),
        flags: after_expression(line, read.end),
    }
}

// Reads a text that begins with a name: a directive and its arguments; the name of an instruction, without its operands; or else the
// arguments of `.WORD`.
fn operating(arguments: &mut Arguments, line: &Line, actuals: Option<u16>, name: Span) -> Reading
    ensures reading { reading_model line.now.text arguments.new result
        ≡ spec.operation_of actuals line.now.text (Body.Operate name) }
    ensures listed { IsTrue (is_listed result.action) }
{
    match operator_named(&six_characters(name.text(line))) {
        Some(Operator::Directive(directive)) => {
            directing(arguments, line, actuals, name.end, directive)
        }
        Some(Operator::Instruction(operation)) => {
            without_flags(Action::Operate(operation, name.end))
        }
        None => stored(words(arguments, line, name.start)),
    }
}

// Reads a directive whose arguments begin at a column.
fn directing(
    arguments: &mut Arguments,
    line: &Line,
    actuals: Option<u16>,
    start: u8,
    directive: Directive,
) -> Reading
    ensures reading { reading_model line.now.text arguments.new result ≡ spec.directive actuals line.now.text start directive }
    ensures listed { IsTrue (is_listed result.action) }
{
    match directive {
        Directive::Radix => settled(radix(line, start)),
        Directive::Asect => settled(asect(&mut arguments.names, line, start)),
        Directive::Csect => settled(csect(&mut arguments.names, line, start)),
        Directive::Psect => settled(psect(&mut arguments.names, line, start)),
        Directive::Globl => settled(exported(&mut arguments.names, false, line, start)),
        Directive::Weak => settled(exported(&mut arguments.names, true, line, start)),
        Directive::Title => settled(title(line, start)),
        Directive::Ident => settled(ident(line, start)),
        Directive::Sbttl => without_flags(Action::NoAction),
        Directive::Page => Reading {
            action: Action::NoAction,
            flags: left_over(line, start),
        },
        Directive::List => settled(listing(&mut arguments.names, true, line, start)),
        Directive::Nlist => settled(listing(&mut arguments.names, false, line, start)),
        Directive::Enabl => settled(enabl(&mut arguments.names, line, start)),
        Directive::Dsabl => settled(dsabl(&mut arguments.names, line, start)),
        Directive::Narg => settled(narg(actuals, line, start)),
        Directive::Nchr => settled(nchr(line, start)),
        Directive::End => settled(ending(line, start)),
        Directive::Word => stored(words(arguments, line, start)),
        Directive::Byte => stored(bytes(arguments, line, start)),
        Directive::Ascii => stored(ascii(arguments, line, start)),
        Directive::Asciz => stored(asciz(arguments, line, start)),
        Directive::Rad50 => stored(rad50(arguments, line, start)),
        Directive::Blkb => stored(room(1, line, start)),
        Directive::Blkw => stored(room(2, line, start)),
        Directive::Even => stored(without_arguments(Storage::AlignTo(true), line, start)),
        Directive::Odd => stored(without_arguments(Storage::AlignTo(false), line, start)),
        Directive::Limit => stored(without_arguments(Storage::LimitWords, line, start)),
    }
}
