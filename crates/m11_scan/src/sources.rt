//! Reads one source up to the end of a line.

ghost use Rattle.std.specs.Prelude.{◌≤◌};
ghost use Rattle.m11_scan.specs.Sources.{StopsAt, ConsumesByte, TookReady, source};

use crate::fault::LineFault;
use crate::open_line::OpenLine;
use m11_base::Feed;

/// What ended a line.
pub(crate) enum LineEnd {
    LineFeed,
    SourceEnd,
}

/// Reads a source up to the first line feed, or to the end of the source. Adds the bytes before the line feed to the line, and subtracts 1
/// from `bytes_left` for each byte, including the line feed. Errors: `Read` if the feed fails, `TooMuchSource` at a byte after `bytes_left`
/// bytes, and `TooManyLines` at the first byte other than NUL if `may_begin` is false.
pub(crate) fn read_source<F: Feed>(
    feed: &mut F,
    bytes_left: &mut u32,
    may_begin: bool,
    line: &mut OpenLine,
) -> Result<LineEnd, LineFault>
    ensures { StopsAt may_begin (source (F.text feed.old) (F.faults feed.old) bytes_left.old line.old)
        (source (F.text feed.new) (F.faults feed.new) bytes_left.new line.new) result }
{
    'bytes: loop {
        if read_ready(feed, bytes_left, may_begin, line) {
            return Ok(LineEnd::LineFeed);
        }
        match feed.next() {
            Err(_) => return Err(LineFault::Read),
            Ok(None) => return Ok(LineEnd::SourceEnd),
            Ok(Some(byte)) => match consume_byte(byte, bytes_left, may_begin, line) {
                Ok(false) => {}
                Ok(true) => return Ok(LineEnd::LineFeed),
                Err(fault) => return Err(fault),
            },
        }
    }
}

// Reads ready bytes, at most `bytes_left`, up to the first line feed, and adds those before the line feed to the line. Subtracts their
// number, including the line feed, from `bytes_left`. Reads none if no line may begin. Returns whether it read a line feed.
fn read_ready<F: Feed>(
    feed: &mut F,
    bytes_left: &mut u32,
    may_begin: bool,
    line: &mut OpenLine,
) -> bool
    ensures took { TookReady may_begin (source (F.text feed.old) (F.faults feed.old) bytes_left.old line.old)
        (source (F.text feed.new) (F.faults feed.new) bytes_left.new line.new) result }
    ensures shrinks { F.left feed.new ≤ F.left feed.old }
{
    if !may_begin {
        return false;
    }
    let shown = feed.ready();
    let front = &shown[..shown.len().min(*bytes_left as usize)];
    let taken = line.take(front);
    feed.pass(taken.count);
    *bytes_left -= taken.count as u32;
    taken.is_closed
}

// Subtracts 1 from `bytes_left`, adds the byte to the line unless it is a NUL or a line feed, and returns whether it is a line
// feed. Errors: `TooMuchSource` if `bytes_left` is 0, otherwise `TooManyLines` if no line may begin and the byte isn't a NUL.
fn consume_byte(
    byte: u8,
    bytes_left: &mut u32,
    may_begin: bool,
    line: &mut OpenLine,
) -> Result<bool, LineFault>
    ensures { ConsumesByte may_begin byte bytes_left.old bytes_left.new line.old line.new result }
{
    if *bytes_left == 0 {
        return Err(LineFault::TooMuchSource);
    }
    *bytes_left -= 1;
    if byte == 0 {
        return Ok(false);
    }
    if !may_begin {
        return Err(LineFault::TooManyLines);
    }
    if byte == b'\n' {
        return Ok(true);
    }
    line.push(byte);
    Ok(false)
}
