//! Laws of the reading of whole sources. Each is the contract of a function with an empty body.

ghost use Rattle.std.specs.Prelude.{◌≡◌, ◌≤◌, ◌∷◌, ◌++◌, ℕ, List, [], length, map, sum_by, Option, Some, None, Ok, Err};
ghost use Rattle.m11_base.specs.Devices.{Bytes};
ghost use Rattle.m11_base.specs.Feed.{Text};
ghost use Rattle.m11_scan.specs.declared.fault.LineFault.TheVariants.{Read, TooMuchSource, TooManyLines};
ghost use Rattle.m11_scan.specs.Line.{SourceLine, line_of};
ghost use Rattle.m11_scan.specs.Lines.{most_bytes, most_lines};
ghost use Rattle.m11_scan.specs.Reader.{Position, position_at, ReadsNext};
ghost use Rattle.m11_scan_line_laws.specs.Calls.{BeginReading, FailReading, HasRead, HaveReading, start};
ghost use Rattle.m11_scan_line_laws.specs.Extents.{GaveAll, GaveLines, GavePast, GaveTill};
ghost use Rattle.m11_scan_line_laws.specs.Laws.{HaveLines};
ghost use Rattle.m11_scan_line_laws.specs.Readings.{reading_of};

/// Before the first call no line has been read, and each call that returns a line adds it after the lines returned before.
pub fn calls_read_lines_in_order()
    ensures begins { (position : Position) → HasRead position position [] }
    ensures goes_on { (first middle now : Position) (lines : List SourceLine) (line : SourceLine)
        → HasRead first middle lines → ReadsNext middle now (Ok (Some line)) → HasRead first now (lines ++ line ∷ []) }
{}

/// If the first source ends with a line feed, it and the second source are read as one text.
pub fn sources_after_a_line_feed_are_one_text()
    ensures { (one other : Bytes) (sources : List Bytes)
        → reading_of ((one ++ 0o12 ∷ []) ∷ other ∷ sources) ≡ reading_of (((one ++ 0o12 ∷ []) ++ other) ∷ sources) }
{}

/// Lines without NULs, line feeds, form feeds or CRs are read as they are, up to 132 characters of each, in order, from one source
/// or from several, within the limits. A line feed follows each of them, but the last line of a source may be without one if it
/// isn't empty.
pub fn plain_lines_are_read_unchanged()
    ensures { (sources lines : List Bytes) → HaveLines sources lines → sum_by length sources ≤ most_bytes
        → length lines ≤ most_lines → reading_of sources ≡ record { lines = map line_of lines; fault = None } }
{}

/// The lines that a new reader returns call by call are those of the reading of the sources in its feeds. The lines so far are the
/// first lines of this reading, whatever later calls return. After the end of the last source they are all lines of the reading. If a
/// limit was passed, they are the lines that end before the byte that passes it, and the reading has the returned fault. If a feed failed,
/// they are the lines of the bytes before the failure, and no limit had been passed.
pub fn lines_read_are_those_of_the_sources<F>()
    ensures so_far { (text : F → Option Text) (faults : F → ℕ) (old new : List F) (source bytes_left lines_left : ℕ)
        (lines : List SourceLine)
        → HasRead (start text faults old) (position_at text faults new source bytes_left lines_left) lines
        → BeginReading text faults old new lines }
    ensures all { (text : F → Option Text) (faults : F → ℕ) (old new : List F) (source bytes_left lines_left : ℕ)
        (lines : List SourceLine) (middle : Position) → HasRead (start text faults old) middle lines
        → ReadsNext middle (position_at text faults new source bytes_left lines_left) (Ok None)
        → HaveReading text faults old new (record { lines = lines; fault = None }) }
    ensures too_much { (text : F → Option Text) (faults : F → ℕ) (old new : List F) (source bytes_left lines_left : ℕ)
        (lines : List SourceLine) (middle : Position) → HasRead (start text faults old) middle lines
        → ReadsNext middle (position_at text faults new source bytes_left lines_left) (Err TooMuchSource)
        → HaveReading text faults old new (record { lines = lines; fault = Some TooMuchSource }) }
    ensures too_many { (text : F → Option Text) (faults : F → ℕ) (old new : List F) (source bytes_left lines_left : ℕ)
        (lines : List SourceLine) (middle : Position) → HasRead (start text faults old) middle lines
        → ReadsNext middle (position_at text faults new source bytes_left lines_left) (Err TooManyLines)
        → HaveReading text faults old new (record { lines = lines; fault = Some TooManyLines }) }
    ensures failed { (text : F → Option Text) (faults : F → ℕ) (old new : List F) (source bytes_left lines_left : ℕ)
        (lines : List SourceLine) (middle : Position) → HasRead (start text faults old) middle lines
        → ReadsNext middle (position_at text faults new source bytes_left lines_left) (Err Read)
        → FailReading text faults old new (record { lines = lines; fault = None }) }
{}

/// When the calls of a new reader have returned some lines, its feeds have been read to the end of these lines and no further. After a
/// call that found no further line, they have been read to their ends. If a feed failed, they have been read to the end of these lines
/// or further, but not to the end of another line. If a limit was passed, they have been read up to and including the byte that passes
/// it.
pub fn feeds_give_as_far_as_they_are_read<F>()
    ensures lines { (text : F → Option Text) (faults : F → ℕ) (old new : List F) (source bytes_left lines_left : ℕ)
        (lines : List SourceLine)
        → HasRead (start text faults old) (position_at text faults new source bytes_left lines_left) lines
        → GaveLines text old new lines }
    ensures all { (text : F → Option Text) (faults : F → ℕ) (old new : List F) (source bytes_left lines_left : ℕ)
        (lines : List SourceLine) (middle : Position) → HasRead (start text faults old) middle lines
        → ReadsNext middle (position_at text faults new source bytes_left lines_left) (Ok None) → GaveAll text old new lines }
    ensures failed { (text : F → Option Text) (faults : F → ℕ) (old new : List F) (source bytes_left lines_left : ℕ)
        (lines : List SourceLine) (middle : Position) → HasRead (start text faults old) middle lines
        → ReadsNext middle (position_at text faults new source bytes_left lines_left) (Err Read) → GaveTill text old new lines }
    ensures too_much { (text : F → Option Text) (faults : F → ℕ) (old new : List F) (source bytes_left lines_left : ℕ)
        (lines : List SourceLine) (middle : Position) → HasRead (start text faults old) middle lines
        → ReadsNext middle (position_at text faults new source bytes_left lines_left) (Err TooMuchSource)
        → GavePast text old new lines TooMuchSource }
    ensures too_many { (text : F → Option Text) (faults : F → ℕ) (old new : List F) (source bytes_left lines_left : ℕ)
        (lines : List SourceLine) (middle : Position) → HasRead (start text faults old) middle lines
        → ReadsNext middle (position_at text faults new source bytes_left lines_left) (Err TooManyLines)
        → GavePast text old new lines TooManyLines }
{}
