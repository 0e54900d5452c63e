ghost use Rattle.std.specs.Prelude.{◌≡◌, IfOk, IfErr};
ghost use Rattle.faults.specs.declared.or_memory.OrMemory.TheVariants.{Memory};
ghost use Rattle.certificate.specs.RowView.{RowView};
ghost use Rattle.certificate_text.specs.Line.{LineView, RowLine, Spells};
ghost use Rattle.certificate_text.specs.LineRead.{line_view};
ghost use Rattle.certificate_text.specs.OnBad.{OnBad};

use crate::bad_line::BadLine;
use crate::line_words::{Hold, Total, read_hold, read_price, read_row, read_short, read_total};
use crate::split_once::split_once;
use certificate::{Price, Row, Weights};
use faults::OrMemory;
use std::alloc::Global;

/// What a line of a certificate says.
#[derive(Drop)]
pub enum Line<'a> {
    /// The first line, by which the version says what weights count.
    Header(Weights),
    Row(Row),
    Hold(Hold<'a>),
    Price(Price),
    Total(Total),
    /// The id of a row.
    Short(&'a [u8]),
    End,
}

/// Reads a line, which has no line feed in it.
pub fn read_line(alloc: Global, line: &[u8]) -> Result<Line<'_>, OrMemory<BadLine>>
    ensures ok { IfOk result (λ l. Spells line.now (line_view l)) }
    ensures bad { OnBad result ((l : LineView) → Spells line.now l → ⊥) }
    // A line that is none of these is told as such.
    ensures memory { IfErr result (λ fault. fault ≡ Memory → (row : RowView) × Spells line.now (RowLine row)) }
{
    if line == b"numarun-certificate 1".as_slice() {
        return Ok(Line::Header(Weights::Plain));
    }
    if line == b"numarun-certificate 2".as_slice() {
        return Ok(Line::Header(Weights::WithMoves));
    }
    if line == b"end".as_slice() {
        return Ok(Line::End);
    }
    let Some((kind, text)) = split_once(line, b' ') else {
        return Err(OrMemory::Fault(BadLine));
    };
    if kind == b"row".as_slice() {
        return Ok(Line::Row(read_row(alloc, text)?));
    }
    if kind == b"hold".as_slice() {
        let Some(hold) = read_hold(text) else {
            return Err(OrMemory::Fault(BadLine));
        };
        return Ok(Line::Hold(hold));
    }
    if kind == b"price".as_slice() {
        let price = read_price(text).ok_or(BadLine)?;
        return Ok(Line::Price(price));
    }
    if kind == b"total".as_slice() {
        let total = read_total(text).ok_or(BadLine)?;
        return Ok(Line::Total(total));
    }
    if kind == b"short".as_slice() {
        let id = read_short(text).ok_or(BadLine)?;
        return Ok(Line::Short(id));
    }
    Err(OrMemory::Fault(BadLine))
}

/// The second word of a line, which in a row's line is its id.
pub fn second_word(line: &[u8]) -> &[u8]
    ensures { (row : RowView) → Spells line.now (RowLine row) → result.now ≡ row.id }
{
    let Some((_, rest)) = split_once(line, b' ') else {
        return line;
    };
    match split_once(rest, b' ') {
        Some((word, _)) => word,
        None => rest,
    }
}
