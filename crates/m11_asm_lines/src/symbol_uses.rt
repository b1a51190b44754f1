//! The symbols that a line defines or reads. (MACRO-11 Language Reference Manual, "Symbols", "Table of contents and symbol table" and
//! ".GLOBL directive".)

ghost use Rattle.std.specs.Prelude.{◌≡◌, ◌≤◌, ◌++◌, ℕ, false, length, map, IfErr, IsSome};
ghost use Rattle.std.specs.List.{flat_map};
ghost use Rattle.m11_scan_expressions.specs.Tokens.{expression_of};
ghost use Rattle.m11_scan_expressions.specs.declared.exprs.Expr.TheVariants.{Term};
ghost use Rattle.m11_asm_directives.specs.Settings.{setting_model};
ghost use Rattle.m11_asm_directives.specs.Stored.{storage_model};
ghost use Rattle.m11_asm_rules.specs.Strings.{content_in};
ghost use Rattle.m11_asm_operands.specs.Reads.{field_model, fields_model, form_model};
ghost use Rattle.m11_asm_rules.specs.declared.meanings.Context.TheVariants.{LocalOnly};
ghost use Rattle.m11_asm_rules.specs.Elements.{names_of, texts_of};
ghost use Rattle.m11_asm_rules.specs.Limits.{most_names};
ghost use Rattle.m11_asm_rules.specs.SymbolUses as spec;
ghost use Rattle.m11_asm_rules.specs.Tables.{Table as LineTable};
ghost use Rattle.m11_asm_lines.specs.Actions.{action_fields, action_in, selects};
ghost use Rattle.m11_asm_lines.specs.Labels.{FitsUpToName, HasName};
ghost use Rattle.m11_asm_lines.specs.UsedSymbols.{Adds, with_all};
ghost use Rattle.m11_asm_faults.specs.declared.fault.AsmFault.TheVariants.{NoMemory};

use crate::actions::{Action, Operation};
use crate::used_symbols::UsedSymbols;
use m11_asm_directives::{Arguments, Setting, Storage, listed_name};
use m11_asm_faults::AsmFault;
use m11_asm_operands::Fields;
use m11_asm_rules::{Context, Field, Form};
use m11_base::Name;
use m11_scan::{Line, Token, read_name};
use m11_scan_expressions::{Expr, Remarks, Symbol, expr_starting, symbol_of};
use m11_scan_statements::{Label, LabelKind, Part, PartKind, Span};

impl UsedSymbols {
    /// Adds the names of the labels of a line. Errors are those of `add_all`. If memory is refused at a label, the labels up to that one
    /// are within the limit.
    pub fn add_labels(&mut self, line: &Line, labels: &[Label]) -> Result<(), AsmFault>
        ensures adds { Adds (flat_map (spec.label_uses line.now.text) labels.now) self.old self.new result }
        ensures limit_first { IfErr result (λ fault. fault ≡ NoMemory → FitsUpToName line.now.text labels.now self.old) }
    {
        match labels {
            [] => Ok(()),
            [label, others @ ..] => {
                self.add_label(line, label)?;
                self.add_labels(line, others)
            }
        }
    }

    fn add_label(&mut self, line: &Line, label: &Label) -> Result<(), AsmFault>
        ensures adds { Adds (spec.label_uses line.now.text label.now) self.old self.new result }
        ensures names { IfErr result (λ _. HasName line.now.text label.now) }
        ensures limit_first { IfErr result (λ fault. fault ≡ NoMemory
            → length (with_all (spec.label_uses line.now.text label.now) self.old).names ≤ most_names) }
    {
        match label.kind {
            LabelKind::Ordinary | LabelKind::Global => self.define(read_name(
                label.name.text(line),
            )),
            LabelKind::Local(_) | LabelKind::Outside => Ok(()),
        }
    }

    // Adds a name that a line defines or makes global, if it is valid. Errors are those of `add`.
    fn define(&mut self, name: Option<Name>) -> Result<(), AsmFault>
        ensures adds { Adds (spec.defined name) self.old self.new result }
        ensures names { IfErr result (λ _. IsSome name) }
        ensures limit_first { IfErr result (λ fault. fault ≡ NoMemory
            → length (with_all (spec.defined name) self.old).names ≤ most_names) }
    {
        match name {
            Some(name) => self.add(Symbol::Ordinary(name), Context::LocalOnly),
            None => Ok(()),
        }
    }

    /// Adds the symbols that the action of a line uses. The action must have been read with the table after the line's labels. Errors are
    /// those of `add_all`.
    // speed: inline, since most lines use nothing, or only what the fields of an instruction use.
    #[inline(always)]
    pub fn add_action(&mut self, line: &Line, operation: &Operation) -> Result<(), AsmFault>
        ensures adds { (table : LineTable)
            → fields_model line.now.text operation.now.fields ≡ action_fields table line.now.text operation.now.action
            → Adds (spec.action_uses table line.now.text (action_in line.now.text operation.now)) self.old self.new result }
        ensures selects { IfErr result (λ _. selects (action_in line.now.text operation.now) ≡ false) }
    {
        match operation.action {
            Action::NoAction => Ok(()),
            Action::Assign(name, _, place) => self.add_assignment(line, name, place),
            Action::SetCounter(place) => self.read(line, place, Context::LocalOnly),
            Action::Set(setting) => {
                self.add_setting(line, operation.arguments.names.list.as_slice(), setting)
            }
            Action::Store(storage) => self.add_storage(line, storage, &operation.arguments),
            Action::Operate(_, _) => self.add_fields(line, &operation.fields),
        }
    }

    // Adds the symbols that a setting uses: the names that it makes global, the name to which it assigns a number, or the symbols in the
    // expression of the transfer address. Errors are those of `add_all`.
    // speed: a call, since inlined it would make every line save the registers that it needs.
    #[inline(never)]
    fn add_setting(
        &mut self,
        line: &Line,
        names: &[Option<Span>],
        setting: Setting,
    ) -> Result<(), AsmFault>
        ensures adds { (table : LineTable)
            → Adds (spec.action_uses table line.now.text (setting_model line.now.text names.now setting)) self.old self.new result }
        ensures selects { IfErr result (λ _. selects (setting_model line.now.text names.now setting) ≡ false) }
    {
        match setting {
            Setting::Export(_) => self.add_names(line, names),
            Setting::SetNumber(name, _) => self.define(Some(name)),
            Setting::Transfer(place) => self.read(line, place, Context::LocalOnly),
            Setting::Nothing
            | Setting::Select(_, _)
            | Setting::SetRadix(_)
            | Setting::MoveLevel(_)
            | Setting::ListExpansions(_)
            | Setting::Entitle(_)
            | Setting::Identify(_) => Ok(()),
        }
    }

    // Adds the symbols in the expressions of what a directive stores or reserves. Errors are those of `add_all`.
    // speed: a call, since inlined it would make every line save the registers that it needs.
    #[inline(never)]
    fn add_storage(
        &mut self,
        line: &Line,
        storage: Storage,
        arguments: &Arguments,
    ) -> Result<(), AsmFault>
        ensures { Adds (spec.storage_uses (storage_model line.now.text arguments.now storage)) self.old self.new result }
    {
        let elements = arguments.elements.list.as_slice();
        let parts = arguments.parts.list.as_slice();
        match storage {
            Storage::WordList | Storage::ByteList => self.add_elements(line, elements),
            Storage::Text(_) => self.add_parts(line, parts, Context::MayBeGlobal),
            Storage::PackedText => self.add_parts(line, parts, Context::LocalOnly),
            Storage::Room(_, count) => self.read(line, count, Context::LocalOnly),
            Storage::LimitWords | Storage::AlignTo(_) => Ok(()),
        }
    }

    // Adds the name of an assignment, and the symbols in its expression. Errors are those of `add_all`.
    // speed: a call, since inlined it would make every line save the registers that it needs.
    #[inline(never)]
    fn add_assignment(
        &mut self,
        line: &Line,
        name: Option<Name>,
        place: Expr,
    ) -> Result<(), AsmFault>
        ensures { Adds (spec.defined name ++ spec.reads LocalOnly (expression_of line.now.text place)) self.old self.new result }
    {
        self.define(name)?;
        self.read(line, place, Context::LocalOnly)
    }

    // Adds the symbols in an expression. Errors are those of `add_all`.
    // speed: most expressions are a single term, for which no list of symbols is made.
    fn read(&mut self, line: &Line, place: Expr, context: Context) -> Result<(), AsmFault>
        ensures { Adds (spec.reads context (expression_of line.now.text place)) self.old self.new result }
    {
        match place {
            Expr::Empty => Ok(()),
            Expr::Term(term) => self.read_term(line, &term, context),
            Expr::Tokens(_) => self.read_all(line, place, context),
        }
    }

    fn read_term(&mut self, line: &Line, term: &Token, context: Context) -> Result<(), AsmFault>
        ensures { Adds (spec.reads context (expression_of line.now.text (Term term.now))) self.old self.new result }
    {
        match symbol_of(term, line) {
            Some(symbol) => self.add(symbol, context),
            None => Ok(()),
        }
    }

    fn read_all(&mut self, line: &Line, place: Expr, context: Context) -> Result<(), AsmFault>
        ensures { Adds (spec.reads context (expression_of line.now.text place)) self.old self.new result }
    {
        let mut remarks = Remarks::new(self.alloc);
        place.read_symbols(line, &mut remarks)?;
        self.add_all(remarks.symbols(), context)
    }
}

impl UsedSymbols {
    fn add_fields(&mut self, line: &Line, fields: &Fields) -> Result<(), AsmFault>
        ensures { Adds (spec.uses_of_fields (fields_model line.now.text fields.now)) self.old self.new result }
    {
        self.add_field(line, &fields.first)?;
        self.add_field(line, &fields.second)
    }

    fn add_field(&mut self, line: &Line, field: &Field<Expr>) -> Result<(), AsmFault>
        ensures { Adds (spec.field_uses (field_model line.now.text field.now)) self.old self.new result }
    {
        match field {
            Field::Operand(form) => self.add_form(line, form),
            Field::Register(place) | Field::Target(place) | Field::Number(place) => {
                self.read(line, *place, Context::LocalOnly)
            }
            Field::Missing => Ok(()),
        }
    }

    // Adds the symbols of an operand. Its word after the code word may refer to another object; its register may not. Errors are those of
    // `add_all`.
    fn add_form(&mut self, line: &Line, form: &Form<Expr>) -> Result<(), AsmFault>
        ensures { Adds (spec.form_uses (form_model line.now.text form.now)) self.old self.new result }
    {
        match form {
            Form::Absent => Ok(()),
            Form::InRegister(_, register) | Form::Unindexed(register) => {
                self.read(line, *register, Context::LocalOnly)
            }
            Form::Indexed(_, register, index) => {
                self.read(line, *index, Context::MayBeGlobal)?;
                self.read(line, *register, Context::LocalOnly)
            }
            Form::AfterCounter(_, place) => self.read(line, *place, Context::MayBeGlobal),
        }
    }

    // Adds the symbols in the elements of a list of words or bytes. Errors are those of `add_all`.
    fn add_elements(&mut self, line: &Line, elements: &[Expr]) -> Result<(), AsmFault>
        ensures { Adds (flat_map (λ element. spec.reads Context.MayBeGlobal (expression_of line.now.text element)) elements.now) self.old self.new result }
    {
        match elements {
            [] => Ok(()),
            [element, others @ ..] => {
                self.read(line, *element, Context::MayBeGlobal)?;
                self.add_elements(line, others)
            }
        }
    }

    // Adds the symbols of the expressions among the parts of a text. Errors are those of `add_all`.
    fn add_parts(&mut self, line: &Line, parts: &[Part], context: Context) -> Result<(), AsmFault>
        ensures { Adds (flat_map (λ part. spec.part_use context (content_in line.now.text part)) parts.now) self.old self.new result }
    {
        match parts {
            [] => Ok(()),
            [part, others @ ..] => {
                self.add_part(line, part, context)?;
                self.add_parts(line, others, context)
            }
        }
    }

    fn add_part(&mut self, line: &Line, part: &Part, context: Context) -> Result<(), AsmFault>
        ensures { Adds (spec.part_use context (content_in line.now.text part.now)) self.old self.new result }
    {
        match part.kind {
            PartKind::Text => Ok(()),
            PartKind::Expression => {
                self.read(line, expr_starting(line, part.inside.start), context)
            }
        }
    }

    // Adds the names of a list. An element that isn't a name is skipped. Errors are those of `add_all`.
    fn add_names(&mut self, line: &Line, names: &[Option<Span>]) -> Result<(), AsmFault>
        ensures { Adds (map spec.named (names_of (texts_of line.now.text names.now))) self.old self.new result }
    {
        match names {
            [] => Ok(()),
            [name, others @ ..] => {
                self.define(listed_name(line, *name))?;
                self.add_names(line, others)
            }
        }
    }
}
