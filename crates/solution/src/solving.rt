//! From a problem's text to the certificate.
ghost use Rattle.std.specs.Prelude.{◌≡◌, true, IsTrue, IfOk, IfErr};
ghost use Rattle.certificate.specs.Limits.{rows_fit};
ghost use Rattle.certificate_text.specs.ProblemText.{AreWritable};
ghost use Rattle.certificate_text.specs.CertificateText.{IsText};
ghost use Rattle.certificate_text.specs.Written.{CanWrite, text_of};
ghost use Rattle.faults.specs.declared.or_memory.OrMemory.TheVariants.{Memory};
ghost use Rattle.solution.specs.Solves.{HasRows, IsSolution, IsUnsolved, Solves};

use crate::Solution;
use crate::blaming::without_the_rest;
use crate::deciding::certificate_of;
use crate::quick::quick_answer;
use certificate::{Certificate, CheckFault, Problem, Weights, rows_fit};
use certificate_text::{VerdictFault, read_problem};
use faults::OrMemory;
use std::alloc::{AllocError, Global};

/// Reads a problem from its text and solves it. It makes a certificate, of version 1, of a plan of least cost, or of a
/// shortage if there is no plan.
///
/// # Errors
/// Those of [`read_problem`], then `BadProblem` (E70) where the rows are past the limits of a check, then an allocation
/// failure.
pub fn solve_text(alloc: Global, text: &[u8]) -> Result<Solution, OrMemory<VerdictFault>>
    // What it returns is a certificate of version 1 of the very rows that the text stands for. **No plan of the rows
    // costs less than its plan, or they have no plan.** The check accepts it. The text that is written of it stands for
    // it in the grammar of certificates. Twins go to the rows in order. A shortage names only those to blame: without
    // any one of its members there is a plan of the others.
    ensures solved { IfOk result (Solves text.now) }
    // It returns one wherever the text stands for rows within the limits, unless an allocation fails.
    ensures complete { HasRows text.now true → IfErr result (λ e. e ≡ Memory) }
    // A refusal names the first bad line, or that the rows are past the limits. An allocation fails only at a row's
    // line that can follow those before it, or with rows within the limits.
    ensures fault { IfErr result (λ e. IsUnsolved text.now e) }
{
    certificate_text::laws::problem_texts();
    let problem = match read_problem(alloc, text) {
        Ok(problem) => problem,
        Err(OrMemory::Memory) => return Err(OrMemory::Memory),
        Err(OrMemory::Fault(bad)) => return Err(OrMemory::Fault(VerdictFault::BadText(bad))),
    };
    if !rows_fit(problem.rows.as_slice()) {
        return Err(OrMemory::Fault(VerdictFault::Check(CheckFault::BadProblem)));
    }
    match solved(alloc, problem) {
        Ok(certificate) => Ok(Solution::new(certificate)),
        Err(AllocError) => Err(OrMemory::Memory),
    }
}

/// The certificate of what the rows come to, of version 1.
fn solved(alloc: Global, problem: Problem) -> Result<Certificate, AllocError>
    requires fit { IsTrue (rows_fit problem) }
    requires writable { AreWritable problem }
    ensures solution { IfOk result (IsSolution problem) }
    ensures stands { IfOk result (λ c. IsText (text_of c) c) }
    ensures can { IfOk result CanWrite }
{
    certificate_text::laws::written_texts_are_read();
    let found = quick_answer(alloc, &problem)?;
    let answer = without_the_rest(alloc, &problem, found)?;
    Ok(certificate_of(problem, Weights::Plain, answer))
}
