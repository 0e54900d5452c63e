//! From a certificate's text to the verdict of the check.
ghost use Rattle.std.specs.Prelude.{IfOk, IfErr};
ghost use Rattle.certificate.specs.declared.checking.Verdict.{Verdict};
ghost use Rattle.certificate_text.specs.Verdict.{IsVerdict, SaysLeast, IsVerdictError, IsAnswered};

use crate::reading::{BadText, read_draft};
use certificate::{CheckFault, Verdict, check};
use faults::{Fault, OrMemory};
use std::alloc::Global;

/// Why a text proves nothing.
#[derive(Clone, Copy, Debug, PartialEq, Eq)]
pub enum VerdictFault {
    /// E77: the text is no certificate's.
    BadText(BadText),
    /// The certificate is refused: `BadProblem` (E70) where weights count moves and one is more than one move, then the
    /// first cause as [`check_plan`](certificate::check_plan) or [`check_shortage`](certificate::check_shortage) words
    /// it, then `Gap` (E75, the duality gap) where the written total isn't the plan's cost.
    Check(CheckFault),
}

impl Fault for VerdictFault {}

/// Reads a certificate from its text and checks it: [`read_text`](crate::read_text), then [`check`].
///
/// # Errors
/// Those of [`read_text`](crate::read_text), then those of [`check`].
pub fn check_text(alloc: Global, text: &[u8]) -> Result<Verdict, OrMemory<VerdictFault>>
    // A yes: the text stands for a plan that values and prices prove to cost the written total. Or it stands for
    // members that are short by these counts.
    ensures proved { IfOk result (λ v. IsVerdict text.now v) }
    // Hence no plan of the text's rows costs less, or they have none, whoever wrote the text. In version 2 none is
    // nearer, and none as near moves fewer CPUs.
    ensures least { IfOk result (λ v. SaysLeast text.now v) }
    // A yes wherever that holds, unless an allocation failed. By the code one can fail in the reading alone.
    ensures complete { (v : Verdict) → IsVerdict text.now v → IsAnswered result v }
    // A no: the first bad line, or the certificate's first fault, whose cause holds. Or an allocation failed at a line,
    // and those before it were in order.
    ensures fault { IfErr result (λ e. IsVerdictError text.now e) }
{
    let draft = match read_draft(alloc, text) {
        Ok(draft) => draft,
        Err(OrMemory::Memory) => return Err(OrMemory::Memory),
        Err(OrMemory::Fault(bad)) => return Err(OrMemory::Fault(VerdictFault::BadText(bad))),
    };
    // Refused whatever else the text says, and before each row gets a whole set.
    if draft.has_too_many_rows() {
        return Err(OrMemory::Fault(VerdictFault::Check(CheckFault::BadProblem)));
    }
    let Ok(certificate) = draft.finish(alloc) else {
        return Err(OrMemory::Memory);
    };
    match check(&certificate) {
        Ok(verdict) => Ok(verdict),
        Err(fault) => Err(OrMemory::Fault(VerdictFault::Check(fault))),
    }
}
