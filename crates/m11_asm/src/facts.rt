//! Facts that the lines of a source state about the module, apart from names and locations. (MACRO-11 Language Reference Manual, ".TITLE
//! directive", ".IDENT directive", ".WEAK directive" and ".END directive".)

ghost use Rattle.std.specs.Prelude.{◌≡◌, IfOk, option_map};
ghost use Rattle.std.specs.Option.{option_to_list, option_or};
ghost use Rattle.m11_scan_expressions.specs.Quantities.{quantity};
ghost use Rattle.m11_unfold_rules.specs.Unfolding.{UnfoldedLine};
ghost use Rattle.m11_asm_directives.specs.Settings.{setting_model};
ghost use Rattle.m11_asm_lines.specs.Actions.{action_in};
ghost use Rattle.m11_asm_passes.specs.Placed.{IsLive};
ghost use Rattle.m11_scan_expressions.specs.Tokens.{expression_of};
ghost use Rattle.m11_asm_rules.specs.Elements.{names_of, texts_of};
ghost use Rattle.m11_asm_rules.specs.Exports as exports;
ghost use Rattle.m11_asm_rules.specs.Lines.{after_line};
ghost use Rattle.m11_asm_rules.specs.Meanings.{empty_map};
ghost use Rattle.m11_asm_rules.specs.Tables.{Table as LineTable};
ghost use Rattle.m11_asm.specs.Facts.{each_once, no_facts, with_line};
ghost use Rattle.m11_asm.specs.Noted.{with_action};

use m11_asm_directives::{Setting, listed_name, transfer};
use m11_asm_lines::{Action, Operation};
use m11_asm_passes::LiveLine;
use m11_asm_rules::{Map, Table};
use m11_base::{Name, Seed, SeededSet};
use m11_scan::Line;
use m11_scan_expressions::{Expr, Value};
use m11_scan_statements::Span;
use std::alloc::{AllocError, Global};
use std::marker::Model;
/// Facts that the lines of a source state about the module, apart from names and locations.
#[derive(Drop)]
pub struct Facts {
    title: Option<Name>,
    identification: Option<Name>,
    weak: SeededSet<Name>,
    transfer: Option<Value>,
}

impl Model for Facts {
    ghost use Rattle.std.specs.Prelude.{option_map};
    ghost use Rattle.m11_asm.specs.Facts as spec;
    ghost use Rattle.m11_scan_expressions.specs.Quantities.{quantity};

    ghost Value = { spec.Facts };

    ghost view = { λ f. record {
      title = f.title;
      identification = f.identification;
      weak = f.weak.keys;
      transfer = option_map quantity f.transfer;
    } };
}

impl Facts {
    /// The facts before the first line.
    pub fn new(alloc: Global, seed: Seed) -> Facts
        ensures { result ≡ no_facts }
    {
        Facts {
            title: None,
            identification: None,
            weak: SeededSet::with_hasher(alloc, seed),
            transfer: None,
        }
    }

    /// The last title, if there is one.
    pub fn title(&self) -> Option<Name>
        ensures { result ≡ self.now.title }
    {
        self.title
    }

    /// The last identification, if there is one.
    pub fn identification(&self) -> Option<Name>
        ensures { result ≡ self.now.identification }
    {
        self.identification
    }

    /// The weak names, each once, in order of first appearance.
    pub fn weak(&self) -> &SeededSet<Name>
        ensures { result.now.keys ≡ self.now.weak }
    {
        &self.weak
    }

    /// The value that the expression of the live `.END` has in the first pass; None if no `.END` became live, or if the live one has no
    /// expression.
    pub fn transfer(&self) -> Option<Value>
        ensures { option_map quantity result ≡ self.now.transfer }
    {
        self.transfer
    }

    /// Adds the facts of a live line. `table` is the table after that line. Error: memory may be refused.
    pub fn add_line(&mut self, live: &LiveLine, table: &Table) -> Result<(), AllocError>
        ensures { IfOk result (λ _. (before : LineTable) (given : UnfoldedLine) → IsLive given live.now
            → table.now ≡ after_line empty_map before given → self.new ≡ with_line before given self.old) }
    {
        self.add_action(&live.line, table, &live.operation)
    }

    // Adds the facts of an action; only a directive has any. Error: memory may be refused.
    fn add_action(
        &mut self,
        line: &Line,
        table: &Table,
        operation: &Operation,
    ) -> Result<(), AllocError>
        ensures { IfOk result (λ _. self.new ≡ with_action table.now (action_in line.now.text operation.now) self.old) }
    {
        match operation.action {
            Action::Set(setting) => {
                self.add_setting(
                    line,
                    table,
                    operation.arguments.names.list.as_slice(),
                    setting,
                )
            }
            Action::NoAction
            | Action::Assign(_, _, _)
            | Action::SetCounter(_)
            | Action::Store(_)
            | Action::Operate(_, _) => Ok(()),
        }
    }

    // Adds the facts of a directive. `names` is its list of names. Error: memory may be refused.
    fn add_setting(
        &mut self,
        line: &Line,
        table: &Table,
        names: &[Option<Span>],
        setting: Setting,
    ) -> Result<(), AllocError>
        ensures { IfOk result (λ _. self.new ≡ with_action table.now (setting_model line.now.text names.now setting) self.old) }
    {
        match setting {
            Setting::Entitle(name) => {
                self.title = Some(name);
                Ok(())
            }
            Setting::Identify(name) => {
                self.set_identification(name);
                Ok(())
            }
            Setting::Export(true) => insert_all(&mut self.weak, line, names),
            Setting::Transfer(place) => {
                self.add_transfer(line, table, place);
                Ok(())
            }
            _ => Ok(()),
        }
    }

    fn set_identification(&mut self, name: Option<Name>)
        ensures { self.new ≡ record self.old { identification = option_or name self.old.identification } }
    {
        if let Some(name) = name {
            self.identification = Some(name);
        }
    }

    fn add_transfer(&mut self, line: &Line, table: &Table, place: Expr)
        ensures { self.new ≡ record self.old {
          transfer = option_or (exports.transfer empty_map table.now (expression_of line.now.text place)) self.old.transfer;
        } }
    {
        self.set_transfer(transfer(&Map::none(), table, line, place));
    }

    fn set_transfer(&mut self, address: Option<Value>)
        ensures { self.new ≡ record self.old { transfer = option_or (option_map quantity address) self.old.transfer } }
    {
        if let Some(value) = address {
            self.transfer = Some(value);
        }
    }
}

// Inserts the names of a list, except those already inserted. An element that isn't a name is skipped. Error: memory may be refused.
fn insert_all(
    names: &mut SeededSet<Name>,
    line: &Line,
    list: &[Option<Span>],
) -> Result<(), AllocError>
    ensures { IfOk result (λ _. names.new.keys ≡ each_once names.old.keys (names_of (texts_of line.now.text list.now))) }
{
    let mut rest = list;
    'names: while let [name, others @ ..] = rest {
        insert_one(names, listed_name(line, *name))?;
        rest = others;
    }
    Ok(())
}

fn insert_one(names: &mut SeededSet<Name>, name: Option<Name>) -> Result<(), AllocError>
    ensures { IfOk result (λ _. names.new.keys ≡ each_once names.old.keys (option_to_list name)) }
{
    if let Some(name) = name {
        names.insert(name)?;
    }
    Ok(())
}
