//! The effect of a directive that is the operator of a live line. The directive's flags and the symbols in its arguments are added to
//! `remarks`. If memory is refused, the state is as before. (MACRO-11 Language Reference Manual, "Conditional assembly block
//! directives", "Macro definition", "Repeat block directive", "Indefinite repeat block directives", ".MEXIT directive" and ".END
//! directive".)

ghost use Rattle.std.specs.Prelude.{◌≡◌, ◌+◌, ◌<◌, ◌≤◌, false, if◌then◌else◌, length, bit_or, IfErr, IfOk};
ghost use Rattle.m11_unfold_rules.specs.Conditions.{condition as asked_condition};
ghost use Rattle.m11_scan_expressions.specs.Expressions.{known_by};
ghost use Rattle.m11_unfold_rules.specs.Indefinite.{rounds_model};
ghost use Rattle.m11_scan_expressions.specs.LeftOvers.{left_over as line_left_over};
ghost use Rattle.m11_unfold_rules.specs.Headers.{header, header_model};
ghost use Rattle.m11_scan_expressions.specs.Remarks.{joined};
ghost use Rattle.m11_unfold_bodies.specs.Conditions.{closed, most_conditions, switched};
ghost use Rattle.m11_unfold_bodies.specs.Left.{conditions_open};
ghost use Rattle.m11_scan.specs.Views.{bits_of};
ghost use Rattle.m11_unfold_rules.specs.Acting as spec;
ghost use Rattle.m11_unfold.specs.Purposes.{IsFew, IsPurpose, purpose_of};
ghost use Rattle.m11_unfold.specs.Views.{stage_of};

use crate::opening::{Opening, Purpose};
use crate::rounds::round_of_each;
use crate::state::State;
use m11_scan::{ErrorFlags, Line, text_from};
use m11_scan_expressions::{Names, Remarks, left_over};
use m11_unfold_bodies::{CONDITION_LIMIT, Part};
use m11_unfold_rules::{
    Directive, Header, Rounds, condition, header_at, iif, irp, irpc, rept_count,
};
use std::alloc::{AllocError, Global};

impl State {
    // Executes a directive whose arguments begin at a column of its line, and adds its flags and the symbols in its arguments to
    // `remarks`. Returns whether the line belongs to unfolding: false for `.NARG`, `.NCHR` and `.END`. Error: memory may be refused, and
    // then the state is as before.
    #[tactic(auto, using(crate::proofs::Noting::nothing_more))]
    pub(crate) fn direct<N: Names>(
        &mut self,
        alloc: Global,
        line: &Line,
        directive: Directive,
        column: u8,
        names: &N,
        remarks: &mut Remarks,
    ) -> Result<bool, AllocError>
        requires room { length self.old.conditions.entered + conditions_open self.old.left.left ≤ most_conditions }
        requires free { self.old.left.has_statement ≡ false }
        ensures own { IfOk result (λ is_own. is_own ≡ (spec.acted_by
            (known_by (N.base names.now) (N.value_of_symbol names.now)) line.now.text (stage_of self.old)
            (spec.OwnDirective directive column)).is_own) }
        ensures after { IfOk result (λ _. stage_of self.new ≡ (spec.acted_by
            (known_by (N.base names.now) (N.value_of_symbol names.now)) line.now.text (stage_of self.old)
            (spec.OwnDirective directive column)).after) }
        ensures remarks { IfOk result (λ _. remarks.new ≡ joined remarks.old (spec.acted_by
            (known_by (N.base names.now) (N.value_of_symbol names.now)) line.now.text (stage_of self.old)
            (spec.OwnDirective directive column)).remarks) }
        ensures unchanged { IfErr result (λ _. stage_of self.new ≡ stage_of self.old) }
    {
        match directive {
            Directive::If => self.act_if(line, column, names, remarks)?,
            Directive::Iff => self.act_switch(line, column, Part::False, remarks),
            Directive::Ift => self.act_switch(line, column, Part::True, remarks),
            Directive::Iftf => self.act_switch(line, column, Part::Both, remarks),
            Directive::Endc => self.act_close(line, column, remarks),
            Directive::Iif => self.act_immediate(line, column, names, remarks)?,
            Directive::Macro => self.act_header(alloc, line, column, remarks)?,
            Directive::Endm | Directive::Endr => remarks.add_flags(ErrorFlags::O),
            Directive::Rept => self.act_repeat(alloc, line, column, names, remarks)?,
            Directive::Irp => {
                let rounds = irp(alloc, line, column, names, remarks)?;
                self.act_repeated(alloc, rounds)?;
            }
            Directive::Irpc => {
                let rounds = irpc(alloc, line, column, remarks)?;
                self.act_repeated(alloc, rounds)?;
            }
            Directive::Mexit => self.act_exit(line, column, remarks),
            Directive::Narg | Directive::Nchr => return Ok(false),
            Directive::End => {
                self.has_ended = true;
                return Ok(false);
            }
        }
        Ok(true)
    }

    // `.IF`: opens a condition. If 32 are open already, in all expansions and outside them together, the `.IF` is flagged O instead, and
    // the lines of its block are skipped.
    fn act_if<N: Names>(
        &mut self,
        line: &Line,
        column: u8,
        names: &N,
        remarks: &mut Remarks,
    ) -> Result<(), AllocError>
        requires { length self.old.conditions.entered + conditions_open self.old.left.left ≤ most_conditions }
        ensures after { IfOk result (λ _. stage_of self.new ≡ (spec.acted_if
            (known_by (N.base names.now) (N.value_of_symbol names.now)) line.now.text column (stage_of self.old)).after) }
        ensures remarks { IfOk result (λ _. remarks.new ≡ joined remarks.old (spec.acted_if
            (known_by (N.base names.now) (N.value_of_symbol names.now)) line.now.text column (stage_of self.old)).remarks) }
        ensures unchanged { IfErr result (λ _. stage_of self.new ≡ stage_of self.old) }
    {
        if self.conditions.count() + self.left.conditions_open() < CONDITION_LIMIT {
            self.open_condition(line, column, names, remarks)?;
        } else {
            remarks.add_flags(ErrorFlags::O);
            self.conditions.enter_past();
        }
        Ok(())
    }

    // Opens the condition of an `.IF`. At most 31 may already be open in the innermost expansion.
    #[tactic(auto, using(crate::proofs::Noting::flags_after))]
    fn open_condition<N: Names>(
        &mut self,
        line: &Line,
        column: u8,
        names: &N,
        remarks: &mut Remarks,
    ) -> Result<(), AllocError>
        requires { length self.old.conditions.entered < most_conditions }
        ensures after { IfOk result (λ _. stage_of self.new ≡ (spec.condition_opened line.now.text (asked_condition
            (known_by (N.base names.now) (N.value_of_symbol names.now)) line.now.text column) (stage_of self.old)).after) }
        ensures remarks { IfOk result (λ _. remarks.new ≡ joined remarks.old (spec.condition_opened line.now.text (asked_condition
            (known_by (N.base names.now) (N.value_of_symbol names.now)) line.now.text column) (stage_of self.old)).remarks) }
        ensures unchanged { IfErr result (λ _. stage_of self.new ≡ stage_of self.old) }
    {
        let verdict = condition(line, column, names, remarks)?;
        remarks.add_flags(left_over(line, verdict.end));
        self.conditions.enter(verdict.holds);
        Ok(())
    }

    // `.IFF`, `.IFT` or `.IFTF`: switches the innermost condition. If the innermost expansion, or the source outside all expansions, has no
    // open condition, the line is flagged O instead.
    fn act_switch(&mut self, line: &Line, column: u8, part: Part, remarks: &mut Remarks)
        ensures after { stage_of self.new
            ≡ (spec.acted_within (switched part) line.now.text column (stage_of self.old)).after }
        ensures remarks { remarks.new
            ≡ joined remarks.old (spec.acted_within (switched part) line.now.text column (stage_of self.old)).remarks }
    {
        let has_none = self.conditions.is_empty();
        remarks.add_flags(flags_within(line, column, has_none));
        if !has_none {
            self.conditions.switch(part);
        }
    }

    // `.ENDC`: closes the condition beyond the limit, if there is one, or else the innermost one. If the innermost expansion, or the source
    // outside all expansions, has no condition to close, the line is flagged O instead.
    fn act_close(&mut self, line: &Line, column: u8, remarks: &mut Remarks)
        ensures after { stage_of self.new
            ≡ (spec.acted_within closed line.now.text column (stage_of self.old)).after }
        ensures remarks { remarks.new
            ≡ joined remarks.old (spec.acted_within closed line.now.text column (stage_of self.old)).remarks }
    {
        let has_none = self.conditions.is_empty();
        remarks.add_flags(flags_within(line, column, has_none));
        if !has_none {
            self.conditions.close();
        }
    }

    // `.IIF`: if the condition is true, the statement, if there is one, becomes the next line.
    fn act_immediate<N: Names>(
        &mut self,
        line: &Line,
        column: u8,
        names: &N,
        remarks: &mut Remarks,
    ) -> Result<(), AllocError>
        requires { self.old.left.has_statement ≡ false }
        ensures after { IfOk result (λ _. stage_of self.new ≡ (spec.acted_immediate
            (known_by (N.base names.now) (N.value_of_symbol names.now)) line.now.text column (stage_of self.old)).after) }
        ensures remarks { IfOk result (λ _. remarks.new ≡ joined remarks.old (spec.acted_immediate
            (known_by (N.base names.now) (N.value_of_symbol names.now)) line.now.text column (stage_of self.old)).remarks) }
        ensures unchanged { IfErr result (λ _. stage_of self.new ≡ stage_of self.old) }
    {
        let immediate = iif(line, column, names, remarks)?;
        if immediate.holds
            && let Some(begin) = immediate.statement
        {
            let statement = Line::from_bytes(text_from(line, begin));
            self.left.put(statement);
        }
        Ok(())
    }

    // `.MACRO`: opens the body of a macro. Without a valid name the body will be discarded.
    fn act_header(
        &mut self,
        alloc: Global,
        line: &Line,
        column: u8,
        remarks: &mut Remarks,
    ) -> Result<(), AllocError>
        ensures after { IfOk result (λ _. stage_of self.new
            ≡ (spec.acted_header (header line.now.text column) (stage_of self.old)).after) }
        ensures remarks { IfOk result (λ _. remarks.new ≡ joined remarks.old
            (spec.acted_header (header line.now.text column) (stage_of self.old)).remarks) }
        ensures unchanged { IfErr result (λ _. stage_of self.new ≡ stage_of self.old) }
    {
        let header = header_at(alloc, line, column, remarks)?;
        self.open(alloc, defining(header));
        Ok(())
    }

    // `.REPT`: opens a body without formals, with as many rounds as its argument says: none if that is negative or missing.
    fn act_repeat<N: Names>(
        &mut self,
        alloc: Global,
        line: &Line,
        column: u8,
        names: &N,
        remarks: &mut Remarks,
    ) -> Result<(), AllocError>
        ensures after { IfOk result (λ _. stage_of self.new ≡ (spec.acted_repeat
            (known_by (N.base names.now) (N.value_of_symbol names.now)) line.now.text column (stage_of self.old)).after) }
        ensures remarks { IfOk result (λ _. remarks.new ≡ joined remarks.old (spec.acted_repeat
            (known_by (N.base names.now) (N.value_of_symbol names.now)) line.now.text column (stage_of self.old)).remarks) }
        ensures unchanged { IfErr result (λ _. stage_of self.new ≡ stage_of self.old) }
    {
        let count = rept_count(line, column, names, remarks)?;
        let rounds = m11_unfold_bodies::Rounds::plain(alloc, count);
        self.open(alloc, Purpose::Repeats(Vec::new(alloc), rounds));
        Ok(())
    }

    // `.IRP` or `.IRPC`: opens a body with one formal, and one actual for each round. If an argument is bad or missing, the body has no
    // formal and no rounds.
    fn act_repeated(&mut self, alloc: Global, rounds: Option<Rounds>) -> Result<(), AllocError>
        ensures after { IfOk result (λ _. stage_of self.new
            ≡ spec.opens (spec.repeating (rounds_model rounds)) (stage_of self.old)) }
        ensures unchanged { IfErr result (λ _. stage_of self.new ≡ stage_of self.old) }
    {
        let mut formals = Vec::new(alloc);
        let rounds = match rounds {
            Some(rounds) => {
                formals.push(rounds.formal)?;
                round_of_each(alloc, rounds.texts.as_slice())?
            }
            None => m11_unfold_bodies::Rounds::plain(alloc, 0),
        };
        self.open(alloc, Purpose::Repeats(formals, rounds));
        Ok(())
    }

    // Opens a body. The next lines are added to it.
    fn open(&mut self, alloc: Global, purpose: Purpose)
        requires { IsPurpose purpose }
        ensures { stage_of self.new ≡ spec.opens (purpose_of purpose) (stage_of self.old) }
    {
        self.opening = Some(Opening::new(alloc, purpose));
    }

    // `.MEXIT`: discards the rest of the innermost expansion. If no expansion is open, the line is flagged O instead.
    fn act_exit(&mut self, line: &Line, column: u8, remarks: &mut Remarks)
        ensures after { stage_of self.new ≡ (spec.acted_exit line.now.text column (stage_of self.old)).after }
        ensures remarks { remarks.new
            ≡ joined remarks.old (spec.acted_exit line.now.text column (stage_of self.old)).remarks }
    {
        let is_expanding = self.left.is_expanding();
        remarks.add_flags(
            ErrorFlags::O
                .when(!is_expanding)
                .with(left_over(line, column)),
        );
        if is_expanding {
            self.left.leave();
        }
    }
}

// The purpose of the body that follows the header of a macro: to define the macro, or to be discarded if the header has no valid name.
fn defining(header: Option<Header>) -> Purpose
    requires { IsFew (header_model header) }
    ensures few { IsPurpose result }
    ensures purpose { purpose_of result ≡ spec.defining (header_model header) }
{
    match header {
        Some(header) => Purpose::Defines(header.name, header.formals),
        None => Purpose::Drops,
    }
}

// The flags of a directive that needs an open condition: O if there is none, and the flags of what is left over.
fn flags_within(line: &Line, column: u8, has_none: bool) -> ErrorFlags
    ensures { bits_of result
        ≡ bit_or (if has_none then spec.flag_O else 0) (line_left_over line.now.text column) }
{
    ErrorFlags::O.when(has_none).with(left_over(line, column))
}
