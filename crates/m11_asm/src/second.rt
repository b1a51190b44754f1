//! The second pass of a source, line by line. (MACRO-11 Language Reference Manual, "Source program format", "Symbols" and ".END
//! directive".)

ghost use Rattle.std.specs.Prelude.{◌≡◌, [], List, None, Some, Err, IfOk, false, length};
ghost use Rattle.std.specs.Result.{result_err};
ghost use Rattle.m11_asm_outputs.specs.Outputs.{Gains};
ghost use Rattle.m11_base_writes.specs.Outputs.{Outputs, outputs_of};
ghost use Rattle.m11_scan.specs.Line.{SourceLine};
ghost use Rattle.m11_asm_passes.specs.Lines.{NumberedLine};
ghost use Rattle.m11_asm.specs.Program.{Program, program_in};
ghost use Rattle.m11_asm.specs.Second.{SecondEnds, SecondAfter, SecondReadsLine, PlacesLeft, Wrote};
ghost use Rattle.m11_asm.specs.LinesDone.{LiveLinesDone};
ghost use Rattle.m11_asm_lines.specs.declared.counting.Counting.TheVariants.{Definitions};

use crate::done::AsmDone;
use crate::numbers::number_after;
use crate::symbols::Symbols;
use crate::writing::Writing;
use m11_asm_faults::AsmFault;
use m11_asm_lines::{Counting, Pass};
use m11_asm_passes::{PlacedLine, SourcePass, Turn, the_calls_place_the_lines_of_a_source};
use m11_asm_rules::Map;
use m11_base::{Latch, Sink};
use m11_scan::Line;
use std::alloc::{AllocError, Global};
use std::marker::Model;

/// The second pass of a source, with the result of the first one. The source's lines are fed one after another, up to the one in which
/// `.END` becomes live. The outputs of each line are written before the next line is read. Of the object only the directory and the open
/// text are in memory. After a fault each call returns it again and writes nothing.
#[derive(Drop)]
pub struct Second {
    // The first pass, whose table is the map of this one.
    first: Pass,
    pass: SourcePass,
    writing: Writing,
    // How many lines were read.
    read: u16,
    has_ended: bool,
    fault: Latch<AsmFault>,
    // Room for a placed line, reused for each one.
    placed: PlacedLine,
}

impl Model for Second {
    ghost use Rattle.m11_asm_rules.specs.Meanings.{map_of};
    ghost use Rattle.m11_asm.specs.Second.{SecondState};
    ghost use Rattle.m11_asm.specs.LinesDone.{GoesOn};

    ghost Value = { SecondState };

    ghost view = { λ s. record {
      map = map_of s.first;
      pass_state = s.pass.pass_state;
      writing = s.writing;
      read = s.read;
      has_ended = s.has_ended;
      fault = s.fault;
    } };

    ghost invariant = { λ s. GoesOn s.fault s.has_ended s.pass };
}

impl Second {
    /// A pass before the first line. Error: memory may be refused.
    pub fn new(alloc: Global, symbols: Symbols) -> Result<Second, AllocError>
        ensures { IfOk result (λ second. (first now : Outputs) → Gains first now []
            → SecondAfter (program_in symbols) [] first now second) }
    {
        let (first, used_symbols, facts) = symbols.into_parts();
        let begun = Writing::new(alloc, &first, &used_symbols, &facts);
        // proof: values that are no longer needed are dropped by calls, which are proved far sooner
        drop(facts);
        drop(used_symbols);
        match begun {
            Ok(writing) => match SourcePass::new(alloc, first.seed(), Counting::Definitions) {
                Ok(pass) => Ok(Second {
                    first,
                    placed: pass.room_for_line(),
                    pass,
                    writing,
                    read: 0,
                    has_ended: false,
                    fault: Latch::new(),
                }),
                Err(error) => {
                    drop(first);
                    drop(writing);
                    Err(error)
                }
            },
            Err(error) => {
                drop(first);
                Err(error)
            }
        }
    }

    /// Reads the next line of the source and writes what follows from it, unless `.END` has become live.
    ///
    /// Errors: `TooMuchSource` at a line past the 65,535th; `Unfold` at a limit of unfolding; `TooManySymbols`; `TooManySections`; `Write`
    /// of an output, after which nothing more is written; and `NoMemory` between two writes. If several limits are exceeded, the error is
    /// that of the first one, in the order of the lines, and within a line in this order: the limits on its labels, those on unfolding its
    /// operator, and those on what the operator uses and changes.
    pub fn line<S: Sink, T: Sink, U: Sink>(
        &mut self,
        line: &Line,
        object: &mut S,
        listing: &mut Option<T>,
        messages: &mut U,
    ) -> Result<(), AsmFault>
        ensures takes { (program : Program) (source : List SourceLine) (first : Outputs) → SecondAfter program source first
            (outputs_of S.Sink T.Sink U.Sink object.old listing.old messages.old) self.old
            → SecondReadsLine program source line.now first (record {
              before = outputs_of S.Sink T.Sink U.Sink object.old listing.old messages.old;
              now = outputs_of S.Sink T.Sink U.Sink object.new listing.new messages.new;
              old = self.old;
              new = self.new;
            }) result }
        ensures again { (fault : AsmFault) → self.old.fault ≡ Some fault → (result ≡ Err fault) × (self.new ≡ self.old)
            × (object.new ≡ object.old) × (listing.new ≡ listing.old) × (messages.new ≡ messages.old) }
        ensures fault { self.new.fault ≡ result_err result }
    {
        the_calls_place_the_lines_of_a_source();
        self.fault.check()?;
        if self.has_ended {
            return Ok(());
        }
        let read = self.fault.keep(number_after(self.read))?;
        self.read = read;
        self.pass.feed(line);
        let map = Map::of(self.first.table());
        let taken = place_left(
            &mut self.pass,
            &map,
            &mut self.writing,
            &mut self.placed,
            read,
            object,
            listing,
            messages,
        );
        self.has_ended = self.fault.keep(taken)?;
        Ok(())
    }

    /// Whether `.END` became live.
    pub fn has_ended(&self) -> bool
        ensures { result ≡ self.now.has_ended }
    {
        self.has_ended
    }

    /// Writes what follows the last line: the rest of the object, the line that is added if `.END` didn't become live, the symbol table,
    /// and the count of flagged lines. Flushes object and listing before the count is written to the messages, and returns that count.
    ///
    /// Errors: the fault that ended the pass, if there was one; `Write` of an output, after which nothing more is written; and
    /// `NoMemory` between two writes.
    pub fn end<S: Sink, T: Sink, U: Sink>(
        mut self,
        object: &mut S,
        listing: &mut Option<T>,
        messages: &mut U,
    ) -> Result<AsmDone, AsmFault>
        ensures ends { (program : Program) (source : List SourceLine) (first : Outputs) → SecondAfter program source first
            (outputs_of S.Sink T.Sink U.Sink object.old listing.old messages.old) self
            → SecondEnds program source first (outputs_of S.Sink T.Sink U.Sink object.new listing.new messages.new) self result }
        ensures again { (fault : AsmFault) → self.fault ≡ Some fault → (result ≡ Err fault)
            × (object.new ≡ object.old) × (listing.new ≡ listing.old) × (messages.new ≡ messages.old) }
    {
        let done = self.end_in_place(object, listing, messages);
        // proof: if it is dropped in place, this function alone takes minutes to prove
        drop(self);
        done
    }

    // Does the work of `end` through a reference, so that `end` can drop the pass in one call, whatever the result is.
    fn end_in_place<S: Sink, T: Sink, U: Sink>(
        &mut self,
        object: &mut S,
        listing: &mut Option<T>,
        messages: &mut U,
    ) -> Result<AsmDone, AsmFault>
        ensures ends { (program : Program) (source : List SourceLine) (first : Outputs) → SecondAfter program source first
            (outputs_of S.Sink T.Sink U.Sink object.old listing.old messages.old) self.old
            → SecondEnds program source first (outputs_of S.Sink T.Sink U.Sink object.new listing.new messages.new) self.old result }
        ensures again { (fault : AsmFault) → self.old.fault ≡ Some fault → (result ≡ Err fault)
            × (object.new ≡ object.old) × (listing.new ≡ listing.old) × (messages.new ≡ messages.old) }
    {
        self.fault.check()?;
        let location = self.pass.table().location();
        self.writing.end(
            self.has_ended,
            self.read,
            location,
            object,
            listing,
            messages,
        )
    }
}

// Places the remaining live lines of the line fed last, writes their outputs, and returns whether `.END` became live. `number` is the
// number of the line fed last, and `placed` has room for one live line at a time.
//
// Errors: those of `Second::line` except `TooMuchSource`.
fn place_left<S: Sink, T: Sink, U: Sink>(
    pass: &mut SourcePass,
    map: &Map<'_>,
    writing: &mut Writing,
    placed: &mut PlacedLine,
    number: u16,
    object: &mut S,
    listing: &mut Option<T>,
    messages: &mut U,
) -> Result<bool, AsmFault>
    requires { pass.old.fault ≡ None }
    ensures takes { (program : Program) (source : List SourceLine) (lines : List NumberedLine) (first : Outputs)
        → map.now ≡ program.map → number ≡ length source
        → LiveLinesDone program.map Definitions
        (Wrote program first (outputs_of S.Sink T.Sink U.Sink object.old listing.old messages.old) writing.old) source lines
        pass.old.pass_state
        → PlacesLeft program source first (outputs_of S.Sink T.Sink U.Sink object.new listing.new messages.new)
        pass.new.pass_state writing.new result }
    ensures goes_on { IfOk result (λ _. pass.new.fault ≡ None) }
    ensures needs { IfOk result (λ has_ended. has_ended ≡ false → pass.new.pass_state.unfolder.stage.left ≡ []) }
{
    the_calls_place_the_lines_of_a_source();
    'lines: loop {
        match pass.next(map, placed)? {
            Turn::NeedLine => return Ok(false),
            Turn::End => return Ok(true),
            Turn::Line => {
                writing.put_line(placed, number, pass.contents(), object, listing, messages)?
            }
        }
        // speed: most lines of a source are a single live line, for which another turn would only find that none is left
        if pass.needs_line() {
            return Ok(false);
        }
    }
}
