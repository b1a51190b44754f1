//! The rules of conditions, repeats and macros: what their directives and calls read from their lines, and the rewriting that
//! decides which line becomes live next, with its limits. This crate stores no open condition or expansion: the caller keeps that
//! state between lines. (MACRO-11 Language Reference Manual, "Macro directives", "Conditional assembly block directives", "Macro
//! definition", "Arguments in macro definitions and macro calls" and "Indefinite repeat block directives".)
#![tactic(auto)]

// The directive that a line's operator names.
mod directives;

pub use directives::{Directive, directive_named, directive_of, operator, operator_in};

// Conditions: `.IF` and `.IIF`.
mod conditions;
mod definedness;
mod immediate;

pub use conditions::{Verdict, actual_flags, condition};
pub use immediate::{Immediate, after_comma, iif};

// Repeats: `.REPT`, `.IRP` and `.IRPC`.
mod indefinite;
mod repeats;

pub use indefinite::{Rounds, irp, irpc};
pub use repeats::rept_count;

// Macros: definitions, the actuals of a call, and the texts that replace formals.
mod actuals;
mod digits;
mod filling;
mod macros;

pub use actuals::actuals_from;
pub use filling::{FIRST_CREATED, FormalTexts, fill};
pub use macros::{Header, MacroFormal, NameAt, header_at, name_at};

// Laws of the arguments of macro calls.
mod argument_laws;

pub use argument_laws::created_symbols_differ;

// The faults of an unfolding, and laws of the lines that become live.
mod fault;
mod laws;

pub use fault::UnfoldFault;
pub use laws::{
    a_source_has_one_unfolding, calls_give_their_bodies, conditions_give_all_or_nothing,
    end_is_the_last_line, exits_leave_what_follows_the_call,
    further_lines_change_nothing_before_them, other_lines_become_live, repeats_give_their_rounds,
    unfoldings_follow_each_other,
};
