//! The unfolder: how far it goes before a limit.

ghost use Rattle.std.specs.Prelude.{◌≡◌, [], true, Ok};

use super::known::Known;
use m11_scan::Line;
use m11_unfold::{Step, Unfolder};
use m11_unfold_rules::{UnfoldFault, operator};

// Unfolds what is left, and counts the live lines that don't belong to unfolding. Returns whether the next line of the source is needed:
// false if `.END` became live, or after 300,000 steps. Error: the fault of the unfolder.
fn take_rest(unfolder: &mut Unfolder, live: &mut u32) -> Result<bool, UnfoldFault>
    ensures { result ≡ Ok true → unfolder.new.stage.left ≡ [] }
{
    let mut line = Line::new();
    'steps: for _ in 0..300_000 {
        match unfolder.next(&mut line)? {
            Step::NeedLine => return Ok(true),
            Step::End => return Ok(false),
            Step::Line(_) => {
                let act = unfolder.act(&line, operator(&line), &Known)?;
                *live = live.wrapping_add(u32::from(!act.is_own));
            }
        }
    }
    Ok(false)
}

// A line, and how many times it is repeated.
type Lines = (&'static str, u32);

// Feeds a line as many times as it is repeated, and unfolds what is left each time. Returns whether the next line of the source
// is needed. Error: the fault of the unfolder.
fn feed_all(unfolder: &mut Unfolder, lines: Lines, live: &mut u32) -> Result<bool, UnfoldFault>
    requires { unfolder.old.stage.left ≡ [] }
    ensures { result ≡ Ok true → unfolder.new.stage.left ≡ [] }
{
    let (text, count) = lines;
    'lines: for _ in 0..count {
        unfolder.feed(&Line::from_bytes(text.as_bytes()));
        if !take_rest(unfolder, live)? {
            return Ok(false);
        }
    }
    Ok(true)
}

// Unfolds a source up to a live `.END` or to the last of its lines. Error: the first fault of the unfolder.
fn unfold(unfolder: &mut Unfolder, source: &[Lines], live: &mut u32) -> Result<(), UnfoldFault>
    requires { unfolder.old.stage.left ≡ [] }
{
    'source: for lines in source {
        if !feed_all(unfolder, *lines, live)? {
            return Ok(());
        }
    }
    Ok(())
}

// A line of 127 characters. With its end it takes 128 bytes of a body.
const LONG: &str =
    ";------------------------------------------------------------------------------------------------------------------------------";

// An exceeded limit: what the row shows; the source; how many lines become live before the fault, without those that belong to
// unfolding; and the fault.
struct Place {
    shows: &'static str,
    source: &'static [Lines],
    live: u32,
    fault: UnfoldFault,
}

#[rattlefmt::skip]
static PLACES: [Place; 5] = [
    Place {
        shows: "a repeat inside sixteen others",
        source: &[("A", 2), (".REPT 1", 17), ("B", 1), (".ENDR", 17)],
        live: 2,
        fault: UnfoldFault::TooDeep,
    },
    Place {
        shows: "a call inside sixteen others",
        source: &[(".MACRO M", 1), ("A", 1), ("M", 1), (".ENDM", 1), ("M", 1)],
        live: 16,
        fault: UnfoldFault::TooDeep,
    },
    Place {
        shows: "the 200,001st line",
        source: &[(".REPT 77777", 1), ("A", 6), (".ENDR", 1), ("A", 3_400)],
        live: 199_992,
        fault: UnfoldFault::TooManyLines,
    },
    Place {
        shows: "the 65,537th byte of a repeat's open body",
        source: &[("A", 3), (".REPT 1", 1), (LONG, 512), ("", 1), (".ENDR", 1)],
        live: 3,
        fault: UnfoldFault::TooMuchText,
    },
    Place {
        shows: "the 65,537th byte of a macro's open body",
        source: &[(".MACRO", 1), (LONG, 513)],
        live: 0,
        fault: UnfoldFault::TooMuchText,
    },
];

// The call after a fault returns a fault, too.
#[test]
fn each_limit_comes_at_its_line_and_again(rt: HostRuntime) {
    for row in &PLACES {
        let shows = row.shows;
        let mut unfolder = Unfolder::new(rt.alloc());
        let mut live = 0;
        let found = unfold(&mut unfolder, row.source, &mut live);
        assert_eq!(&rt; found, Err(row.fault), "{shows}");
        assert_eq!(&rt; live, row.live, "{shows}");
        let again = unfolder.next(&mut Line::new()).is_err();
        assert!(&rt; again, "{shows}: the step after it");
    }
}
