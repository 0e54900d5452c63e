//! The program's two streams, and what is said on them.
ghost use Rattle.std.specs.Prelude.{◌≡◌, [], MatchResult};
ghost use Rattle.answers.specs.Notes.{note_text};
ghost use Rattle.program_io.specs.Pages.{Sends, Takes};
ghost use Rattle.answers.specs.Says.{Says};

use crate::note::Note;
use crate::printed::Printed;
use program_io::Page;
use std::io;
use std::io::Write;

/// The status of a refused input, and of an answer that can't be written.
pub const REFUSED: u8 = 1;

/// The status of words that are no command line.
pub const MISUSED: u8 = 2;

/// E114: a write failed or took no byte.
pub const UNWRITTEN: &str = "error: the answer can't be written\n";

/// The two streams that the program writes to: answers and refusals go to `out`, what is wrong with the command line,
/// with a file or with the output itself goes to `err`.
#[derive(Drop)]
pub struct Console<W, E> {
    pub out: Page<W>,
    pub err: Page<E>,
}

impl<W, E> Console<W, E> {
    /// Empty pages before the two streams.
    pub fn new(out: W, err: E) -> Console<W, E>
        ensures out { result.out.to ≡ out }
        ensures err { result.err.to ≡ err }
        ensures empty { result.out.waiting.items ≡ [] }
        ensures quiet { result.err.waiting.items ≡ [] }
    {
        Console {
            out: Page::new(out),
            err: Page::new(err),
        }
    }
}

/// Prints the text on standard output and the note on standard error; the status, or 1 where the text can't be written.
pub fn print_then_note<T: Printed, W: Write, E: Write>(
    text: &T,
    status: u8,
    note: &Option<Note<'_>>,
    console: &mut Console<W, E>,
) -> u8
    ensures { Says W.contents E.contents console.old console.new result (T.text text.now) status (note_text note.now) }
{
    match write_stdout(text, &mut console.out) {
        Ok(()) => {
            write_stderr(note, &mut console.err);
            status
        }
        Err(_) => {
            console.err.tell(UNWRITTEN.as_bytes());
            REFUSED
        }
    }
}

fn write_stdout<T: Printed, W: Write>(text: &T, out: &mut Page<W>) -> io::Result<()>
    ensures { MatchResult result
        (λ _. Sends W.contents out.old out.new (T.text text.now))
        (λ _. Takes W.contents out.old out.new (T.text text.now)) }
{
    text.print(out)?;
    out.flush()
}

/// Prints this on standard error, as far as that can be written.
fn write_stderr<T: Printed, E: Write>(text: &T, err: &mut Page<E>)
    ensures { Takes E.contents err.old err.new (T.text text.now) }
{
    if text.print(err).is_ok() {
        let _sent = err.flush();
    }
}
