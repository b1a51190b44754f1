//! Reads the lines of sources. (MACRO-11 Language Reference Manual, "Source program format".)

ghost use Rattle.std.specs.Prelude.{◌≡◌, Some, None, Err};
ghost use Rattle.std.specs.Result.{result_err};
ghost use Rattle.m11_scan.specs.Reader.{ReadsNext, found, position, unread};

use crate::fault::LineFault;
use crate::line::Line;
use crate::open_line::OpenLine;
use crate::sources::{LineEnd, read_source};
use m11_base::{Feed, Latch};
use std::marker::Model;

/// The most bytes that all sources together may have.
const MOST_BYTES: u32 = 4_194_304;

/// The most lines that all sources together may have.
const MOST_LINES: u32 = 65_535;

/// Reads the lines of sources, in order, from their feeds. It stores one line and allocates nothing.
#[derive(Drop)]
pub struct LineReader {
    source: usize,
    bytes_left: u32,
    lines_left: u32,
    line: OpenLine,
    fault: Latch<LineFault>,
}

impl Model for LineReader {
    ghost use Rattle.m11_scan.specs.Reader.{LineReading};

    ghost Value = { LineReading };

    ghost view = { λ reader. record {
      source = reader.source;
      bytes_left = reader.bytes_left;
      lines_left = reader.lines_left;
      line = reader.line.kept;
      fault = reader.fault;
    } };
}

impl LineReader {
    /// A reader at the start of the first source.
    pub fn new() -> LineReader
        ensures { result ≡ unread }
    {
        LineReader {
            source: 0,
            bytes_left: MOST_BYTES,
            lines_left: MOST_LINES,
            line: OpenLine::new(),
            fault: Latch::new(),
        }
    }

    /// Reads the next line of the sources. Returns whether there is one; there is none after the last source. Each call must pass
    /// the same feeds. Errors: `Read` if a feed fails, `TooMuchSource` at byte 4,194,305, and `TooManyLines` at line 65,536, whichever
    /// comes first in the order of the bytes. After an error each call returns it again and reads nothing.
    pub fn next<F: Feed>(&mut self, feeds: &mut [F]) -> Result<bool, LineFault>
        ensures reads { self.old.fault ≡ None → ReadsNext (position F.text F.faults feeds.old self.old)
            (position F.text F.faults feeds.new self.new) (found self.new.line result) }
        ensures failed { (fault : LineFault) → self.old.fault ≡ Some fault
            → (result ≡ Err fault) × (self.new ≡ self.old) × (feeds.new ≡ feeds.old) }
        ensures keeps { self.new.fault ≡ result_err result }
    {
        self.fault.check()?;
        let is_read = self.read_line(feeds);
        self.fault.keep(is_read)
    }

    /// The line that the last call of `next` read, if it returned `true`.
    pub fn line(&self) -> &Line
        ensures { result.now ≡ self.now.line }
    {
        self.line.line()
    }

    fn read_line<F: Feed>(&mut self, feeds: &mut [F]) -> Result<bool, LineFault>
        ensures reads { ReadsNext (position F.text F.faults feeds.old self.old)
            (position F.text F.faults feeds.new self.new) (found self.new.line result) }
        ensures keeps { self.new.fault ≡ self.old.fault }
    {
        self.line.clear();
        'sources: while self.source < feeds.len() {
            let may_begin = self.lines_left > 0;
            match read_source(
                &mut feeds[self.source],
                &mut self.bytes_left,
                may_begin,
                &mut self.line,
            ) {
                Err(fault) => return Err(fault),
                Ok(LineEnd::LineFeed) => {
                    self.lines_left -= 1;
                    return Ok(true);
                }
                Ok(LineEnd::SourceEnd) => {
                    self.source += 1;
                    if !self.line.is_unbegun() {
                        self.lines_left -= 1;
                        self.line.append_return();
                        return Ok(true);
                    }
                }
            }
        }
        Ok(false)
    }
}
