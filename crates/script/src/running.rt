//! The run of a script.
ghost use Rattle.script.specs.Ends.{EndsBy, Replies, WritesPart};
ghost use Rattle.script.specs.declared.running.TheConstants.{MOST_READS};
ghost use Rattle.script.specs.Runs.{AnswersLine, AnswersRequest};
ghost use Rattle.script.specs.Requests.{wanted};
ghost use Rattle.script.specs.Underway.{FeedsBy};

use crate::command::Request;
use crate::fault::ScriptFault;
use crate::line_buffer::LineBuffer;
use crate::request::read_request;
use crate::target::Target;
use byte_output::put;
use memchr::memchr;
use std::io;
use std::io::{Read, Write};

/// The most reads that a script is given to come to its end, where nothing else is asked for.
pub const MOST_READS: u32 = 1_000_000;

/// The most bytes that are asked for at once.
pub(crate) const PIECE: usize = 8192;

/// Runs a script over the target, by [`MOST_READS`] reads at most, as [`run_script_within`] does.
///
/// # Errors
/// As there.
pub fn run_script<T: Target, R: Read, W: Write>(
    target: &mut T,
    reader: &mut R,
    writer: &mut W,
) -> Result<(), ScriptFault>
    ensures { EndsBy MOST_READS T.answers (R.remaining reader.old) (R.remaining reader.new) (W.contents writer.old)
        (W.contents writer.new)
        target.old result target.new }
{
    run_script_within(target, reader, writer, u64::from(MOST_READS))
}

/// Runs a script over the target: the reader's lines are carried out one after another, and answered to the writer.
/// Bytes are read as they come, by so many reads at most, and the writer is flushed behind each answer. It allocates
/// nothing of its own.
///
/// A line feed ends a line. What follows the last one is a line too, where the input ends there.
///
/// # Errors
/// `Read` where a read fails and `TooManyReads` where the most reads haven't come to the end: each line that ended
/// was answered. `Write` where a write fails or takes no byte: a prefix of the answers went out, and the target is as
/// after the command whose answer was being written.
pub fn run_script_within<T: Target, R: Read, W: Write>(
    target: &mut T,
    reader: &mut R,
    writer: &mut W,
    most_reads: u64,
) -> Result<(), ScriptFault>
    ensures { EndsBy most_reads T.answers (R.remaining reader.old) (R.remaining reader.new) (W.contents writer.old)
        (W.contents writer.new)
        target.old result target.new }
{
    let mut line = LineBuffer::new();
    let mut bytes = [0u8; PIECE];
    for reads in 0..most_reads {
        let count = match reader.read(&mut bytes) {
            Ok(count) => count,
            Err(error) => return Err(ScriptFault::Read(error.kind())),
        };
        if count == 0 {
            return match answer_line(target, &line, writer) {
                Ok(()) => Ok(()),
                Err(_) => Err(ScriptFault::Write),
            };
        }
        match feed(target, &mut line, &bytes[..count], writer) {
            Ok(()) => {}
            Err(_) => return Err(ScriptFault::Write),
        }
    }
    Err(ScriptFault::TooManyReads)
}

/// Takes more bytes of the script, and answers each line that ends in them.
fn feed<T: Target, W: Write>(
    target: &mut T,
    line: &mut LineBuffer,
    bytes: &[u8],
    w: &mut W,
) -> io::Result<()>
    ensures { FeedsBy T.answers (W.contents w.old) (W.contents w.new) bytes.now target.old line.old result target.new
        line.new }
{
    let mut rest = bytes;
    while let Some(end) = memchr(b'\n', rest) {
        line.push(&rest[..end]);
        answer_line(target, line, w)?;
        line.clear();
        rest = &rest[end + 1..];
    }
    line.push(rest);
    Ok(())
}

/// Carries a line out and answers it.
fn answer_line<T: Target, W: Write>(target: &mut T, line: &LineBuffer, w: &mut W) -> io::Result<()>
    ensures { Replies (AnswersLine T.answers target.old line.now) (W.contents w.old) (W.contents w.new) result
        target.new }
{
    match line.line() {
        None => put_and_flush(b"refused E112 LineTooLong\n", w),
        Some(line) => answer_request(target, read_request(line), w),
    }
}

fn answer_request<T: Target, W: Write>(
    target: &mut T,
    request: Request<'_>,
    w: &mut W,
) -> io::Result<()>
    ensures { Replies (AnswersRequest T.answers target.old (wanted request.entry)) (W.contents w.old) (W.contents w.new)
        result target.new }
{
    match request {
        Request::Nothing => Ok(()),
        Request::BadLine => put_and_flush(b"refused E110 BadLine\n", w),
        Request::Asks(command) => {
            target.answer(command, w)?;
            w.flush()
        }
    }
}

/// Writes the text and flushes the writer.
fn put_and_flush<W: Write>(text: &[u8], w: &mut W) -> io::Result<()>
    ensures { WritesPart (W.contents w.old) (W.contents w.new) result text.now }
{
    put(text, w)?;
    w.flush()
}
