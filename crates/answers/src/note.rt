//! What standard error says beside an answer.
ghost use Rattle.std.specs.Prelude.{◌≡◌, Some};
ghost use Rattle.byte_output.specs.Output.{Writes};
ghost use Rattle.answers.specs.Notes.{flaw_line, flaw_words, note_of, note_text};
ghost use Rattle.program_io.specs.ErrorLine.{error_line};
ghost use Rattle.answers.specs.declared.note.Note.{Note};

use crate::printed::Printed;
use json_text::{Flaw, FlawKind};
use program_io::{Refusal, put_error_at, put_error_line};
use std::io;
use std::io::Write;

/// What standard error says of an input that is refused: which it is, and why.
#[derive(Clone, Copy)]
pub struct Note<'a> {
    pub name: &'a str,
    pub reason: &'a str,
    /// The line and the column where it is wrong, of a text.
    pub place: Option<(u64, u64)>,
}

impl<'a> Note<'a> {
    /// The note beside a refusal of the input that is called so, where there is one.
    pub fn beside(refusal: Refusal, name: &'a str) -> Option<Note<'a>>
        ensures { note_text result ≡ note_of name.now refusal }
    {
        match refusal {
            Refusal::ReadFault(fault) => Some(Note::new(name, fault.reason())),
            _ => None,
        }
    }

    /// The note on an input that is called so, which is refused for this reason.
    pub fn new(name: &'a str, reason: &'a str) -> Note<'a>
        ensures { note_text (Some result) ≡ error_line name.now reason.now }
    {
        Note {
            name,
            reason,
            place: None,
        }
    }

    /// The note on a text that is called so and is no JSON.
    pub fn of_flaw(name: &'a str, flaw: Flaw) -> Note<'a>
        ensures { note_text (Some result) ≡ flaw_line name.now flaw }
    {
        Note {
            name,
            reason: flaw_words(flaw.kind),
            place: Some((flaw.line as u64, flaw.column as u64)),
        }
    }

    /// Writes the line of the note.
    fn write<W: Write>(&self, w: &mut W) -> io::Result<()>
        ensures { Writes (W.contents w.old) (W.contents w.new) result (note_text (Some self.now)) }
    {
        let (name, reason) = (self.name.as_bytes(), self.reason.as_bytes());
        match self.place {
            Some((line, column)) => put_error_at(name, reason, line, column, w),
            None => put_error_line(name, reason, w),
        }
    }
}

/// How a text fails to be JSON, in words.
fn flaw_words(kind: FlawKind) -> &'static str
    ensures { result.now ≡ flaw_words kind }
{
    match kind {
        FlawKind::NotUtf8 => "is not UTF-8",
        FlawKind::CutShort => "ends too early",
        FlawKind::NotJson => "is no JSON",
    }
}

impl Printed for Option<Note<'_>> {
    ghost text = { note_text };

    fn print<W: Write>(&self, w: &mut W) -> io::Result<()> {
        match self {
            Some(note) => note.write(w),
            None => Ok(()),
        }
    }
}

/// How standard input is called.
pub const STANDARD_INPUT: &str = "standard input";
