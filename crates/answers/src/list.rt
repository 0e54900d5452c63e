//! `numarun list`.
ghost use Rattle.answers.specs.ListAnswer.{IsSetOrRefusal, set_line};
ghost use Rattle.answers.specs.Tells.{Lists};

use crate::answer::print_answer;
use crate::console::Console;
use crate::printed::Printed;
use byte_output::put;
use cpu_list::{read, write_list};
use cpu_set::{CPU_LIMIT, IdSet};
use program_io::Refusal;
use std::io;
use std::io::Write;

/// Prints the one spelling of the list's set and a line feed, or why the text is no list of numbers below
/// [`CPU_LIMIT`](cpu_set::CPU_LIMIT). The status is 0, or 1 for a refusal and for a line that can't be written.
pub fn do_list<W: Write, E: Write>(text: &str, console: &mut Console<W, E>) -> u8
    // It tells the list's one spelling, or its first fault (`Lists`). It allocates nothing.
    ensures { Lists W.contents E.contents console.old console.new result text.now }
{
    print_answer(&set_of(text.as_bytes()), "", console)
}

/// The set that the text names.
fn set_of(text: &[u8]) -> Result<IdSet, Refusal>
    ensures { IsSetOrRefusal text.now result }
{
    Ok(read(text, CPU_LIMIT)?)
}

impl Printed for IdSet {
    ghost text = { set_line };

    fn print<W: Write>(&self, w: &mut W) -> io::Result<()> {
        write_list(self, w)?;
        put(b"\n", w)
    }
}
