//! The law that an outcome follows from the unfolding of whole sources. It is the contract of a function that only calls the laws needed to
//! prove it.

ghost use Rattle.m11_asm.specs.Outcome.{HasOutcome, Outcome};
ghost use Rattle.m11_asm_outcome_laws.specs.WholeSources.{IsOfWholeSources};
ghost use Rattle.m11_scan_line_laws.specs.Readings.{Reading};

use crate::laws::each_list_of_sources_has_an_outcome;
use crate::source_laws::{
    a_reading_is_refused_by_the_first_limit_of_the_whole_source,
    the_lines_of_a_pass_are_those_of_the_whole_source,
};
use m11_unfold_rules::a_source_has_one_unfolding;

/// The outcome of two readings is exactly the one that follows from the unfolding of all their lines, without a pass over them. If they are
/// assembled, the outputs of all the live lines of the second reading are written, with the program of all the live lines of the first.
/// Nothing more is read after these live lines, and none of them exceeds a limit. The number of a live line is the least number of lines
/// from the start of the reading that unfold to it and to the live lines before it. A reading is refused by the first limit that its
/// unfolding exceeds, or by what stopped the reading, once all its lines are read. If the first reading is refused, nothing is written; if
/// the second one is, the outputs of the live lines before the fault are written.
pub fn outcomes_are_those_of_whole_sources()
    ensures are { (first second : Reading) (outcome : Outcome) → HasOutcome first second outcome → IsOfWholeSources first second outcome }
    ensures just_these { (first second : Reading) (outcome : Outcome) → IsOfWholeSources first second outcome → HasOutcome first second outcome }
{
    a_source_has_one_unfolding();
    the_lines_of_a_pass_are_those_of_the_whole_source();
    a_reading_is_refused_by_the_first_limit_of_the_whole_source();
    each_list_of_sources_has_an_outcome();
}
