//! From a certificate's text to the certificate, a line at a time.
ghost use Rattle.std.specs.Prelude.{Err, IfOk, IfErr};
ghost use Rattle.certificate.specs.RowView.{RowView};
ghost use Rattle.certificate.specs.declared.certificates.Certificate.{Certificate};
ghost use Rattle.certificate_text.specs.Line.{RowLine, Spells};
ghost use Rattle.certificate_text.specs.CertificateText.{IsText};
ghost use Rattle.certificate_text.specs.Finished.{IsDraftOf};
ghost use Rattle.certificate_text.specs.LineTaken.{TakesLine};
ghost use Rattle.certificate_text.specs.TextError.{IsTextError, IsRead};

use crate::Certificate;
use crate::bad_line::BadLine;
use crate::draft::Draft;
use crate::line::{read_line, second_word};
use crate::split_once::split_once;
use faults::{Fault, OrMemory};
use std::alloc::{AllocError, Global};

/// E77: a text is no certificate's. The line of this number, counted from 1, is the first that can't follow the lines
/// before it; it is the last line where no line feed ends that, and the one after the last where the text ends too
/// early.
#[derive(Clone, Copy, Debug, PartialEq, Eq)]
pub struct BadText {
    pub line: u64,
}

impl Fault for BadText {}

/// Reads a certificate from its text, in one pass.
///
/// The text's lines are `numarun-certificate 1`, or `2` where weights count moves too; `row ID DEMAND` and offers
/// `WEIGHT:LIST`, for each row; for a plan `hold ID LIST VALUE`, for each row in the same order, `price AMOUNT LIST`,
/// any number of them, and `total N`, or `total N moves M` in version 2, with N below 2^48 and M below 2^16, for 2^16
/// times N and M more; for a shortage `short ID`, one or more, each naming a row after the one before; and `end`. A
/// line feed ends each, one space stands between two words, and numbers have no leading zeros.
///
/// O(b + r log r) of b bytes and r rows.
///
/// # Errors
/// An allocation failure, and [`BadText`] where the text is no certificate's. The line at which it fails and those
/// before it are in order, so the first bad line is told as such unless an allocation failed before it.
pub fn read_text(alloc: Global, text: &[u8]) -> Result<Certificate, OrMemory<BadText>>
    // A certificate is returned only if the text stands for it in the grammar.
    ensures ok { IfOk result (λ c. IsText text.now c) }
    // If the text stands for one it is returned, unless an allocation failed.
    ensures complete { (c : Certificate) → IsText text.now c → IsRead result c }
    // Else the number of the first line that can't follow the lines before it. An allocation fails only at a line that
    // can follow the lines before it, and that leaves something to keep. So the first line that can't follow is told as
    // such, unless an allocation failed before it.
    ensures error { IfErr result (λ e. IsTextError text.now e) }
{
    read_text_body(alloc, text)
}

fn read_text_body(alloc: Global, text: &[u8]) -> Result<Certificate, OrMemory<BadText>>
    ensures ok { IfOk result (λ c. IsText text.now c) }
    ensures error { IfErr result (λ e. IsTextError text.now e) }
{
    let draft = read_draft(alloc, text)?;
    match draft.finish(alloc) {
        Ok(certificate) => Ok(certificate),
        Err(AllocError) => Err(OrMemory::Memory),
    }
}

/// Reads all of a certificate's text. Its sets take as much memory as they have ranges until the draft is finished.
pub(crate) fn read_draft(alloc: Global, text: &[u8]) -> Result<Draft<'_>, OrMemory<BadText>>
    ensures ok { IfOk result (λ d. IsDraftOf text.now d) }
    ensures error { IfErr result (λ e. IsTextError text.now e) }
{
    let mut draft = Draft::new(alloc);
    let mut rest = text;
    let mut number = 1;
    while let Some((line, after)) = split_once(rest, b'\n') {
        match take_line(alloc, &mut draft, line) {
            Ok(()) => {}
            Err(OrMemory::Memory) => return Err(OrMemory::Memory),
            Err(OrMemory::Fault(BadLine)) => return Err(OrMemory::Fault(BadText { line: number })),
        }
        rest = after;
        number += 1;
    }
    if !rest.is_empty() {
        return Err(OrMemory::Fault(BadText { line: number }));
    }
    if !draft.is_complete() {
        return Err(OrMemory::Fault(BadText { line: number }));
    }
    Ok(draft)
}

/// Adds what the next line of the text says.
fn take_line<'a>(
    alloc: Global,
    draft: &mut Draft<'a>,
    line: &'a [u8],
) -> Result<(), OrMemory<BadLine>>
    ensures { TakesLine result draft.old line.now draft.new }
{
    match read_line(alloc, line) {
        Ok(said) => draft.take(said, line),
        Err(OrMemory::Memory) => Err(no_room_for_row(draft, line)),
        Err(OrMemory::Fault(BadLine)) => Err(OrMemory::Fault(BadLine)),
    }
}

/// What stands against a row's line whose row could not be allocated: that it can't follow, or else that.
pub(crate) fn no_room_for_row(draft: &Draft<'_>, line: &[u8]) -> OrMemory<BadLine>
    requires { (row : RowView) × Spells line.now (RowLine row) }
    ensures { TakesLine (Err result) draft.now line.now draft.now }
{
    if draft.takes_row(second_word(line)) {
        OrMemory::Memory
    } else {
        OrMemory::Fault(BadLine)
    }
}
