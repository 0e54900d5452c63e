//! `numarun check`.
ghost use Rattle.certificate.specs.declared.checking.Verdict.TheVariants.{Moves, Short};
ghost use Rattle.byte_output.specs.Output.{Writes};
ghost use Rattle.answers.specs.CheckAnswer.{IsAnswerTo, verdict_line};
ghost use Rattle.answers.specs.Named.{reads_named};
ghost use Rattle.answers.specs.Notes.{shown};
ghost use Rattle.answers.specs.Tells.{Checks};
ghost use Rattle.program_io.specs.Readings.{Reads};

use crate::answer::{Answer, answer_of, print_answer};
use crate::console::Console;
use crate::note::STANDARD_INPUT;
use crate::opens::{NamedFile, Opens};
use crate::printed::Printed;
use byte_output::put_number;
use certificate::Verdict;
use certificate_text::check_text;
use program_io::{Input, Opened, Refusal, Source, put_number_line};
use std::alloc::Global;
use std::io;
use std::io::Write;

/// Checks the certificate in the source that is called so, and prints what the check finds as one line. That is `plan
/// total N`, or `plan total N moves M` if weights count moves, or `short demand N cpus M`, or why the certificate is
/// refused. The status is 0, or 1 for a refusal and for a line that can't be written.
pub fn do_check<S: Source, W: Write, E: Write>(
    alloc: Global,
    source: S,
    name: &str,
    console: &mut Console<W, E>,
) -> u8
    // It tells the verdict of the bytes, or their refusal (`Checks`, `IsAnswerTo`). An allocation failure is told only
    // if the reading answered it, or if `certificate_text` may (`AsksForMemory`).
    ensures { Checks W.contents E.contents console.old console.new result (Reads S.opens S.fails S.Input.gives source)
        name.now }
{
    let answer: Result<Verdict, Refusal> = answer_of(alloc, source);
    print_answer(&answer, name, console)
}

/// Checks the certificate of this name; `-` is standard input.
pub fn check_named<F: Opens, I: Input, W: Write, E: Write>(
    alloc: Global,
    name: &str,
    files: &F,
    input: I,
    console: &mut Console<W, E>,
) -> u8
    ensures { Checks W.contents E.contents console.old console.new result
        (reads_named (Reads (F.opens files.now) (F.fails files.now) F.File.gives) (I.gives input) name.now)
        (shown name.now) }
{
    if name == "-" {
        do_check(alloc, Opened(input), STANDARD_INPUT, console)
    } else {
        do_check(alloc, NamedFile { files, name }, name, console)
    }
}

impl Answer for Verdict {
    ghost answers = { IsAnswerTo };

    fn from_bytes(alloc: Global, bytes: &[u8]) -> Result<Verdict, Refusal> {
        Ok(check_text(alloc, bytes)?)
    }
}

impl Printed for Verdict {
    ghost text = { verdict_line };

    fn print<W: Write>(&self, w: &mut W) -> io::Result<()> {
        match self {
            Verdict::Plan(total) => put_number_line(b"plan total ", *total, w),
            Verdict::Moves(distance, moves) => put_moves(*distance, *moves, w),
            Verdict::Short(asked, allowed) => put_shortage(*asked, *allowed, w),
        }
    }
}

fn put_moves<W: Write>(distance: u64, moves: u64, w: &mut W) -> io::Result<()>
    ensures { Writes (W.contents w.old) (W.contents w.new) result (verdict_line (Moves distance moves)) }
{
    put_number(b"plan total ", distance, b" moves ", w)?;
    put_number(b"", moves, b"\n", w)
}

fn put_shortage<W: Write>(asked: u64, allowed: u32, w: &mut W) -> io::Result<()>
    ensures { Writes (W.contents w.old) (W.contents w.new) result (verdict_line (Short asked allowed)) }
{
    put_number(b"short demand ", asked, b" cpus ", w)?;
    put_number(b"", u64::from(allowed), b"\n", w)
}
