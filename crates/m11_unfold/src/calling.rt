//! The operator of a line, and calls of macros. (MACRO-11 Language Reference Manual, "Macro calls" and "Arguments in macro
//! definitions and macro calls".)

ghost use Rattle.std.specs.Prelude.{◌≡◌, ◌<◌, false, length, None, Some, IfOk, IfErr, IfSome, IsSome};
ghost use Rattle.std.specs.Option.{option_copied};
ghost use Rattle.m11_unfold_rules.specs.Actuals.{actuals_from};
ghost use Rattle.m11_unfold_rules.specs.Directives.{operator as line_operator};
ghost use Rattle.m11_scan_expressions.specs.Expressions.{known_by};
ghost use Rattle.m11_scan_expressions.specs.Remarks.{joined};
ghost use Rattle.m11_base.specs.NameCharacters.{six_of};
ghost use Rattle.m11_base.specs.Rad50.{name_of};
ghost use Rattle.m11_unfold_bodies.specs.Left.{depth, most_expansions};
ghost use Rattle.m11_unfold_rules.specs.Acting as spec;
ghost use Rattle.m11_unfold_rules.specs.Limits.{depth_fault};
ghost use Rattle.m11_unfold_rules.specs.Macros.{macro_named};
ghost use Rattle.m11_unfold.specs.Kept.{IsKept};
ghost use Rattle.m11_unfold.specs.Steps.{Fails, FailsGrowing, executes};
ghost use Rattle.m11_unfold.specs.Views.{stage_of};

use crate::macros::Macro;
use crate::rounds::one_round;
use crate::state::State;
use m11_base::Name;
use m11_scan::{Line, read_name};
use m11_scan_expressions::{Names, Remarks};
use m11_scan_statements::Span;
use m11_unfold_bodies::EXPANSION_LIMIT;
use m11_unfold_rules::{UnfoldFault, actuals_from, directive_named, fill};
use std::alloc::{AllocError, Global};

impl State {
    // Executes the operator of a live line, if it has one, and adds its flags and the symbols in its arguments to `remarks`. Returns
    // whether the line belongs to unfolding: a macro call, or a directive for conditions, repeats or macros, except `.NARG` and `.NCHR`.
    // Errors: `TooDeep` if a call would open the 17th expansion, before an argument is read; otherwise `NoMemory`.
    #[tactic(auto, using(crate::proofs::Noting::nothing_more))]
    pub(crate) fn act<N: Names>(
        &mut self,
        alloc: Global,
        line: &Line,
        operator: Option<Span>,
        names: &N,
        remarks: &mut Remarks,
    ) -> Result<bool, UnfoldFault>
        requires operator { operator ≡ line_operator line.now.text }
        requires kept { IsKept (stage_of self.old) }
        requires free { self.old.left.has_statement ≡ false }
        ensures own { IfOk result (λ is_own. is_own ≡ (spec.act
            (known_by (N.base names.now) (N.value_of_symbol names.now)) (stage_of self.old) line.now.text).is_own) }
        ensures after { IfOk result (λ _. stage_of self.new ≡ (spec.act
            (known_by (N.base names.now) (N.value_of_symbol names.now)) (stage_of self.old) line.now.text).after) }
        ensures remarks { IfOk result (λ _. remarks.new ≡ joined remarks.old (spec.act
            (known_by (N.base names.now) (N.value_of_symbol names.now)) (stage_of self.old) line.now.text).remarks) }
        ensures within { IfOk result (λ _. spec.act_fault (stage_of self.old) line.now.text ≡ None) }
        ensures fails { IfErr result (λ fault. FailsGrowing (spec.act_fault (stage_of self.old) line.now.text)
            (executes (stage_of self.old) line.now.text) fault) }
        ensures kept { IfErr result (λ _. IsKept (stage_of self.new)) }
    {
        let Some(name) = operator else {
            return Ok(false);
        };
        if let Some(called) = self.macro_to_call(name.text(line))? {
            self.call(alloc, called, line, name.end, names, remarks)?;
            return Ok(true);
        }
        match directive_named(name.text(line)) {
            Some(directive) => Ok(self.direct(alloc, line, directive, name.end, names, remarks)?),
            None => Ok(false),
        }
    }

    // The macro that a word calls, if any. Errors: `TooDeep` if the call would open the 17th expansion, otherwise `NoMemory`.
    fn macro_to_call(&self, word: &[u8]) -> Result<Option<Macro>, UnfoldFault>
        ensures called { IfOk result (λ called. called
            ≡ spec.macro_of self.now.conditions self.now.macros.entries (name_of (six_of word.now))) }
        ensures room { IfOk result (λ called. IfSome called (λ _. depth self.now.left.left < most_expansions)) }
        ensures fails { IfErr result (λ fault.
            IsSome (spec.macro_of self.now.conditions self.now.macros.entries (name_of (six_of word.now)))
            × Fails (depth_fault self.now.left.left) fault) }
    {
        match self.macro_called(word) {
            None => Ok(None),
            Some(_) if self.left.depth() >= EXPANSION_LIMIT => Err(UnfoldFault::TooDeep),
            Some(named) => Ok(Some(named.handle()?)),
        }
    }

    // The macro that a word names, if any. None while lines are skipped: a line that is live there ends the skipped part, and its operator
    // is a directive even if a macro has the same name.
    fn macro_called(&self, word: &[u8]) -> Option<&Macro>
        ensures { option_copied result
            ≡ spec.macro_of self.now.conditions self.now.macros.entries (name_of (six_of word.now)) }
    {
        // speed: most sources define no macro, and then no name is read
        if self.macros.is_empty() || self.conditions.is_skipping() {
            return None;
        }
        match read_name(word) {
            Some(name) => self.macro_named(name),
            None => None,
        }
    }

    // The macro with this name, if it is defined.
    fn macro_named(&self, name: Name) -> Option<&Macro>
        ensures { option_copied result ≡ macro_named self.now.macros.entries name }
    {
        self.macros.get(&name)
    }

    // Expands a call: the macro's body replaces the call, with an actual in place of each formal. The flags of the arguments and the
    // symbols in them are added to `remarks`. Error: memory may be refused.
    #[tactic(auto, using(crate::proofs::KeptActing::kept_created))]
    fn call<N: Names>(
        &mut self,
        alloc: Global,
        called: Macro,
        line: &Line,
        column: u8,
        names: &N,
        remarks: &mut Remarks,
    ) -> Result<(), AllocError>
        requires room { depth self.old.left.left < most_expansions }
        requires kept { IsKept (stage_of self.old) }
        requires free { self.old.left.has_statement ≡ false }
        ensures after { IfOk result (λ _. stage_of self.new ≡ (spec.acted_call called (actuals_from
            (known_by (N.base names.now) (N.value_of_symbol names.now)) line.now.text (length called.formals) column)
            (stage_of self.old)).after) }
        ensures remarks { IfOk result (λ _. remarks.new ≡ joined remarks.old (spec.acted_call called (actuals_from
            (known_by (N.base names.now) (N.value_of_symbol names.now)) line.now.text (length called.formals) column)
            (stage_of self.old)).remarks) }
        ensures kept { IfErr result (λ _. IsKept (stage_of self.new)) }
    {
        let wanted = called.formals().len();
        let actuals = actuals_from(alloc, line, column, wanted, names, remarks)?;
        let filled = fill(alloc, called.formals(), actuals.as_slice(), self.created)?;
        let count = actuals.len() as u16;
        let rounds = one_round(alloc, filled.texts.as_slice())?;
        self.created = filled.created;
        self.expand(called.into_template(), rounds, Some(count), 0)
    }
}
