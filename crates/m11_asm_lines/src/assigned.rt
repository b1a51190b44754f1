//! What an assignment changes, and what a listing shows of it. (MACRO-11 Language Reference Manual, "Direct assignment statements".)

ghost use Rattle.std.specs.Prelude.{◌≡◌, Bool, false, IfOk, IfErr};
ghost use Rattle.std.specs.Option.{option_to_list};
ghost use Rattle.m11_scan_expressions.specs.Expressions.{symbols, value};
ghost use Rattle.m11_scan_expressions.specs.Tokens.{expression_of};
ghost use Rattle.m11_scan_expressions.specs.declared.exprs.Expr.TheVariants.{Term};
ghost use Rattle.m11_asm_rules.specs.Assignments as assignments;
ghost use Rattle.m11_asm_lines.specs.Actions.{after_action};
ghost use Rattle.m11_asm_rules.specs.Actions.{Assign};
ghost use Rattle.m11_asm_rules.specs.Items.{action_items};
ghost use Rattle.m11_asm_rules.specs.Limits.{has_too_many};
ghost use Rattle.m11_asm_rules.specs.Meanings.{known_at};
ghost use Rattle.m11_asm_rules.specs.Tables.{location};
ghost use Rattle.m11_asm_rules.specs.declared.definitions.Definition.{Definition as AnyDefinition};
ghost use Rattle.m11_asm_rules.specs.declared.meanings.Context.TheVariants.{LocalOnly};
ghost use Rattle.m11_asm_lines.specs.Assigned.{with_assignment};
ghost use Rattle.m11_asm_lines.specs.Faults.{Overfills};
ghost use Rattle.m11_scan_expressions.specs.Quantities.{quantity};

use crate::items::value_item;
use crate::pass::Pass;
use bitflags::Flags;
use m11_asm_directives::{known_value, read_known_value};
use m11_asm_faults::AsmFault;
use m11_asm_listing::Item;
use m11_asm_rules::{Definition, Map, Standing, Table};
use m11_base::Name;
use m11_scan::{ErrorFlags, Line, Token};
use m11_scan_expressions::{Expr, Remarks, Symbol, Value, symbol_of};
use std::alloc::{AllocError, Global};

impl Pass {
    // Applies an assignment, and returns the item that a listing shows for its value: None if the value is unknown, but an item even if the
    // name doesn't get the value. The value is computed once, for the name and for the item. Errors: `TooManySymbols` and `NoMemory`.
    pub(crate) fn apply_assignment(
        &mut self,
        map: &Map<'_>,
        line: &Line,
        name: Option<Name>,
        is_global: bool,
        place: Expr,
    ) -> Result<Option<Item>, AsmFault>
        ensures changes { IfOk result (λ _. self.new ≡ after_action map.now line.now.text (Assign name is_global (expression_of line.now.text place)) self.old) }
        ensures shows { IfOk result
            (λ item. option_to_list item ≡ action_items map.now self.old (Assign name is_global (expression_of line.now.text place))) }
        ensures refuses { IfErr result
            (λ fault. Overfills fault (after_action map.now line.now.text (Assign name is_global (expression_of line.now.text place)) self.old)) }
    {
        // a limit is told before memory is asked for to find the value
        if self.is_full_for(&name) {
            return Err(AsmFault::TooManySymbols);
        }
        self.assign_found(map, line, name, is_global, place)
    }

    // Applies an assignment for which there is room, with the results of `apply_assignment`.
    fn assign_found(
        &mut self,
        map: &Map<'_>,
        line: &Line,
        name: Option<Name>,
        is_global: bool,
        place: Expr,
    ) -> Result<Option<Item>, AsmFault>
        requires { (definition : AnyDefinition) → has_too_many (with_assignment name is_global definition self.old) ≡ false }
        ensures changes { IfOk result (λ _. self.new ≡ after_action map.now line.now.text (Assign name is_global (expression_of line.now.text place)) self.old) }
        ensures shows { IfOk result
            (λ item. option_to_list item ≡ action_items map.now self.old (Assign name is_global (expression_of line.now.text place))) }
        ensures refuses { IfErr result
            (λ fault. Overfills fault (after_action map.now line.now.text (Assign name is_global (expression_of line.now.text place)) self.old)) }
    {
        self.counts_are_within_the_limits();
        let assigned = assigned_value(self.alloc, map, &self.table, line, place)?;
        let definition = definition_of(&assigned.value, assigned.is_firm);
        self.assign_if(name, is_global, definition)?;
        Ok(value_item(assigned.value))
    }

    // Whether a definition can't be assigned to the text before the `=`, since one name too many would be defined.
    fn is_full_for(&self, name: &Option<Name>) -> bool
        ensures { (is_global : Bool) (definition : AnyDefinition) → result ≡ has_too_many (with_assignment name.now is_global definition self.now) }
    {
        self.counts_are_within_the_limits();
        match name {
            Some(name) => self.lacks_room(*name),
            None => false,
        }
    }

    // Assigns a definition to the text before the `=`, if that is a name. Errors: `TooManySymbols` and `NoMemory`.
    fn assign_if(
        &mut self,
        name: Option<Name>,
        is_global: bool,
        definition: Definition,
    ) -> Result<(), AsmFault>
        ensures assigns { IfOk result (λ _. self.new ≡ with_assignment name is_global definition self.old) }
        ensures refuses { IfErr result (λ fault. Overfills fault (with_assignment name is_global definition self.old)) }
    {
        match name {
            Some(name) => self.assign(name, is_global, definition),
            None => Ok(()),
        }
    }
}

// The definition of a name that is assigned a value.
fn definition_of(value: &Value, is_firm: bool) -> Definition
    ensures { result ≡ record { standing = assignments.standing_of (quantity value.now); is_firm = is_firm; label = None } }
{
    Definition {
        standing: standing_of(value),
        is_firm,
        label: None,
    }
}

// The value of an assignment, and whether all symbols in its expression are firm.
#[derive(Clone, Copy)]
struct Assigned {
    value: Value,
    is_firm: bool,
}

// The value of an assignment, and whether it is firm. Error: memory may be refused.
// speed: most expressions are a single term, for which no list of symbols is made.
fn assigned_value(
    alloc: Global,
    map: &Map<'_>,
    table: &Table,
    line: &Line,
    place: Expr,
) -> Result<Assigned, AllocError>
    ensures value { IfOk result (λ assigned. quantity assigned.value
        ≡ value (known_at map.now LocalOnly table.now (location table.now)) (expression_of line.now.text place)) }
    ensures firm { IfOk result
        (λ assigned. assigned.is_firm ≡ assignments.all_firm table.now (symbols (expression_of line.now.text place))) }
{
    match place {
        Expr::Empty => Ok(Assigned {
            value: known_value(map, table, line, place),
            is_firm: true,
        }),
        Expr::Term(term) => Ok(Assigned {
            value: known_value(map, table, line, place),
            is_firm: is_firm_term(table, line, &term),
        }),
        Expr::Tokens(_) => {
            let mut remarks = Remarks::new(alloc);
            let value = read_known_value(map, table, line, place, &mut remarks)?;
            Ok(Assigned {
                value,
                is_firm: are_all_firm(table, remarks.symbols()),
            })
        }
    }
}

// Whether the symbol of a term is firm, or the term has none.
fn is_firm_term(table: &Table, line: &Line, term: &Token) -> bool
    ensures { result ≡ assignments.all_firm table.now (symbols (expression_of line.now.text (Term term.now))) }
{
    match symbol_of(term, line) {
        Some(symbol) => table.is_firm(symbol),
        None => true,
    }
}

// A value as part of a definition: unknown if it has the flag U.
fn standing_of(value: &Value) -> Standing
    ensures { result ≡ assignments.standing_of (quantity value.now) }
{
    if value.flags.bits() & ErrorFlags::U.bits() == 0 {
        Standing::Known(value.number, value.kind)
    } else {
        Standing::Unknown
    }
}

// Whether all symbols of a list are firm.
fn are_all_firm(table: &Table, symbols: &[Symbol]) -> bool
    ensures { result ≡ assignments.all_firm table.now symbols.now }
{
    match symbols {
        [] => true,
        [symbol, others @ ..] => table.is_firm(*symbol) && are_all_firm(table, others),
    }
}
