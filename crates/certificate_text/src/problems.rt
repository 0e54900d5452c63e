//! Problems as text.
ghost use Rattle.std.specs.Prelude.{List, IfOk, IfErr};
ghost use Rattle.certificate.specs.RowView.{RowView};
ghost use Rattle.certificate_text.specs.ProblemError.{IsProblemError, IsProblemRead};
ghost use Rattle.certificate_text.specs.ProblemText.{IsProblemText};
ghost use Rattle.certificate_text.specs.RowTaken.{TakesRow};

use crate::bad_line::BadLine;
use crate::draft::Draft;
use crate::line::{Line, read_line, second_word};
use crate::reading::{BadText, no_room_for_row};
use crate::split_once::split_once;
use certificate::Problem;
use faults::OrMemory;
use std::alloc::Global;

/// Reads a problem from its text, in one pass.
///
/// The text's lines are `numarun-problem 1`; then for each row `row ID DEMAND` and its offers `WEIGHT:LIST`, as in a
/// certificate; and `end`. A line feed ends each. No two rows have one id.
///
/// O(b + r log r) of b bytes and r rows.
///
/// # Errors
/// An allocation failure, and [`BadText`] where the text is no problem's. The line at which it fails and those before
/// it are in order, so the first bad line is told as such unless an allocation failed before it.
pub fn read_problem(alloc: Global, text: &[u8]) -> Result<Problem, OrMemory<BadText>>
    // Rows are returned only if the text stands for them in the grammar of problems.
    ensures ok { IfOk result (λ problem. IsProblemText text.now problem) }
    // If the text stands for some they are returned, unless an allocation failed.
    ensures complete { (rows : List RowView) → IsProblemText text.now rows → IsProblemRead result rows }
    // Else the number of the first line that can't follow the lines before it. An allocation fails only at a row's line
    // that can follow.
    ensures error { IfErr result (λ e. IsProblemError text.now e) }
{
    read_problem_body(alloc, text)
}

fn read_problem_body(alloc: Global, text: &[u8]) -> Result<Problem, OrMemory<BadText>>
    ensures ok { IfOk result (λ problem. IsProblemText text.now problem) }
    ensures error { IfErr result (λ e. IsProblemError text.now e) }
{
    let Some((first, behind)) = split_once(text, b'\n') else {
        return Err(OrMemory::Fault(BadText { line: 1 }));
    };
    if first != b"numarun-problem 1".as_slice() {
        return Err(OrMemory::Fault(BadText { line: 1 }));
    }
    let mut rows = Draft::of_rows(alloc);
    let mut rest = behind;
    let mut number = 2;
    while let Some((line, after)) = split_once(rest, b'\n') {
        if line == b"end".as_slice() {
            if after.is_empty() {
                return Ok(rows.into_problem());
            }
            return Err(OrMemory::Fault(BadText { line: number + 1 }));
        }
        match take_row(alloc, &mut rows, line) {
            Ok(()) => {}
            Err(OrMemory::Memory) => return Err(OrMemory::Memory),
            Err(OrMemory::Fault(BadLine)) => return Err(OrMemory::Fault(BadText { line: number })),
        }
        rest = after;
        number += 1;
    }
    Err(OrMemory::Fault(BadText { line: number }))
}

/// Adds the row of the next line.
fn take_row<'a>(
    alloc: Global,
    rows: &mut Draft<'a>,
    line: &'a [u8],
) -> Result<(), OrMemory<BadLine>>
    ensures { TakesRow result rows.old line.now rows.new }
{
    match read_line(alloc, line) {
        Ok(said) => {
            let Line::Row(row) = said else {
                return Err(OrMemory::Fault(BadLine));
            };
            rows.add_row(second_word(line), row)
        }
        Err(OrMemory::Memory) => Err(no_room_for_row(rows, line)),
        Err(OrMemory::Fault(BadLine)) => Err(OrMemory::Fault(BadLine)),
    }
}
