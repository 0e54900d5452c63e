//! `numarun slit`.
ghost use Rattle.std.specs.Prelude.{◌<◌};
ghost use Rattle.std.specs.List.{flat_map, range_with_len};
ghost use Rattle.slit.specs.Table.{distance};
ghost use Rattle.byte_output.specs.Output.{Writes};
ghost use Rattle.answers.specs.Named.{reads_named};
ghost use Rattle.answers.specs.Notes.{shown};
ghost use Rattle.answers.specs.Tells.{Tabulates};
ghost use Rattle.program_io.specs.Readings.{Reads};
ghost use Rattle.answers.specs.SlitAnswer.{IsTableOrRefusal, entry_text, row_text, table_text};

use crate::answer::{Answer, answer_of, print_answer};
use crate::console::Console;
use crate::note::STANDARD_INPUT;
use crate::opens::{NamedFile, Opens};
use crate::printed::Printed;
use byte_output::{put, put_number};
use program_io::{Input, Opened, Refusal, Source, put_number_line};
use slit::Slit;
use std::alloc::Global;
use std::io;
use std::io::Write;

/// Prints the distance table in the source that is called so, or why the bytes are no table. A table is a line
/// `localities N`, and then for each locality a line of its distances to all of them. The status is 0, or 1 for a
/// refusal and for lines that can't be written.
pub fn do_slit<S: Source, W: Write, E: Write>(
    alloc: Global,
    source: S,
    name: &str,
    console: &mut Console<W, E>,
) -> u8
    // It tells the table of the bytes, or their first fault (`Tabulates`, `IsTableOrRefusal`). An allocation failure is
    // told only if the reading answered it, or if the bytes have no fault.
    ensures { Tabulates W.contents E.contents console.old console.new result
        (Reads S.opens S.fails S.Input.gives source) name.now }
{
    let answer: Result<Slit, Refusal> = answer_of(alloc, source);
    print_answer(&answer, name, console)
}

/// Prints the distance table of this name; `-` is standard input.
pub fn slit_named<F: Opens, I: Input, W: Write, E: Write>(
    alloc: Global,
    name: &str,
    files: &F,
    input: I,
    console: &mut Console<W, E>,
) -> u8
    ensures { Tabulates W.contents E.contents console.old console.new result
        (reads_named (Reads (F.opens files.now) (F.fails files.now) F.File.gives) (I.gives input) name.now)
        (shown name.now) }
{
    if name == "-" {
        do_slit(alloc, Opened(input), STANDARD_INPUT, console)
    } else {
        do_slit(alloc, NamedFile { files, name }, name, console)
    }
}

impl Answer for Slit {
    ghost answers = { IsTableOrRefusal };

    fn from_bytes(alloc: Global, bytes: &[u8]) -> Result<Slit, Refusal> {
        Ok(Slit::read(alloc, bytes)?)
    }
}

impl Printed for Slit {
    ghost text = { table_text };

    fn print<W: Write>(&self, w: &mut W) -> io::Result<()> {
        put_number_line(b"localities ", self.localities() as u64, w)?;
        write_rows(self, w)
    }
}

fn write_rows<W: Write>(table: &Slit, w: &mut W) -> io::Result<()>
    ensures { Writes (W.contents w.old) (W.contents w.new) result
        (flat_map (row_text table.now) (range_with_len 0 table.now.localities)) }
{
    for i in 0..table.localities() {
        write_row(table, i, w)?;
    }
    Ok(())
}

fn write_row<W: Write>(table: &Slit, i: usize, w: &mut W) -> io::Result<()>
    requires { i < table.now.localities }
    ensures { Writes (W.contents w.old) (W.contents w.new) result (row_text table.now i) }
{
    write_entries(table, i, w)?;
    put(b"\n", w)
}

fn write_entries<W: Write>(table: &Slit, i: usize, w: &mut W) -> io::Result<()>
    requires { i < table.now.localities }
    ensures { Writes (W.contents w.old) (W.contents w.new) result
        (flat_map (λ j. entry_text j (distance table.now i j)) (range_with_len 0 table.now.localities)) }
{
    for j in 0..table.localities() {
        write_entry(table, i, j, w)?;
    }
    Ok(())
}

fn write_entry<W: Write>(table: &Slit, i: usize, j: usize, w: &mut W) -> io::Result<()>
    requires i_is_locality { i < table.now.localities }
    requires j_is_locality { j < table.now.localities }
    ensures { Writes (W.contents w.old) (W.contents w.new) result (entry_text j (distance table.now i j)) }
{
    let separator: &[u8] = if j == 0 { b"" } else { b" " };
    put_number(separator, u64::from(table.distance(i, j)), b"", w)
}
