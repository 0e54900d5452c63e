//! `numarun solve`.
ghost use Rattle.answers.specs.Named.{reads_named};
ghost use Rattle.answers.specs.Notes.{shown};
ghost use Rattle.answers.specs.SolveAnswer.{IsSolutionOf, solution_text};
ghost use Rattle.answers.specs.Tells.{Solves};
ghost use Rattle.program_io.specs.Readings.{Reads};

use crate::answer::{Answer, answer_of, print_answer};
use crate::console::Console;
use crate::note::STANDARD_INPUT;
use crate::opens::{NamedFile, Opens};
use crate::printed::Printed;
use program_io::{Input, Opened, Refusal, Source};
use solution::{Solution, solve_text};
use std::alloc::Global;
use std::io;
use std::io::Write;

/// Solves the problem in the source that is called so, and prints the certificate, of version 1. It is of a plan of
/// least cost, or of a shortage if there is no plan; or it prints why the problem is refused. The status is 0, or 1 for
/// a refusal and for a certificate that can't be written.
pub fn do_solve<S: Source, W: Write, E: Write>(
    alloc: Global,
    source: S,
    name: &str,
    console: &mut Console<W, E>,
) -> u8
    // It tells the certificate of the rows that the bytes stand for, or their refusal (`Solves`, `IsSolutionOf`). So
    // what is written whole is a text that stands for a certificate of these very rows. It is proved least, or it shows
    // that there is no plan. An allocation failure is told only if the reading answered it, or if `solution` may.
    ensures { Solves W.contents E.contents console.old console.new result (Reads S.opens S.fails S.Input.gives source)
        name.now }
{
    let answer: Result<Solution, Refusal> = answer_of(alloc, source);
    print_answer(&answer, name, console)
}

/// Solves the problem of this name; `-` is standard input.
pub fn solve_named<F: Opens, I: Input, W: Write, E: Write>(
    alloc: Global,
    name: &str,
    files: &F,
    input: I,
    console: &mut Console<W, E>,
) -> u8
    ensures { Solves W.contents E.contents console.old console.new result
        (reads_named (Reads (F.opens files.now) (F.fails files.now) F.File.gives) (I.gives input) name.now)
        (shown name.now) }
{
    if name == "-" {
        do_solve(alloc, Opened(input), STANDARD_INPUT, console)
    } else {
        do_solve(alloc, NamedFile { files, name }, name, console)
    }
}

impl Answer for Solution {
    ghost answers = { IsSolutionOf };

    fn from_bytes(alloc: Global, bytes: &[u8]) -> Result<Solution, Refusal> {
        Ok(solve_text(alloc, bytes)?)
    }
}

impl Printed for Solution {
    ghost text = { solution_text };

    fn print<W: Write>(&self, w: &mut W) -> io::Result<()> {
        self.write(w)
    }
}
