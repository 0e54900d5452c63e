//! The certificate of what a problem comes to.
ghost use Rattle.std.specs.Prelude.{◌≡◌, IsTrue, IfOk};
ghost use Rattle.certificate.specs.Limits.{rows_fit};
ghost use Rattle.certificate_text.specs.ProblemText.{AreWritable};
ghost use Rattle.certificate_text.specs.Written.{CanWrite, IsHeld};
ghost use Rattle.transport.specs.Solved.{IsAnswerOf};
ghost use Rattle.solution.specs.Decides.{AreAllNeeded, Decides, IsTotalHeld, answered};

use crate::blaming::without_the_rest;
use certificate::{Certificate, Members, Problem, Weights};
use std::alloc::{AllocError, Global};
use transport::{Answer, solve};

/// The certificate of what the problem comes to; the problem is kept in it as it is.
///
/// The certificate says that the weights count this.
///
/// # Errors
/// An allocation failure; no problem is refused.
pub fn decide(alloc: Global, problem: Problem, weights: Weights) -> Result<Certificate, AllocError>
    requires fit { IsTrue (rows_fit problem) }
    requires writable { AreWritable problem }

    // The certificate has these very rows, and says that the weights count what it was told. It is a plan that no plan
    // undercuts, proved by its values and prices. It is dealt as twins ought to be, with a price for each class of
    // twins whose price is not 0 and no others. Or it is a shortage, if there is no plan at all. **A shortage names
    // only those to blame**: without any one of its members there is a plan of the others.
    ensures decided { IfOk result (Decides problem weights) }

    // The certificate can be written as text.
    ensures can { IfOk result CanWrite }
    // Its numbers and sets are such as their types hold.
    ensures held { IfOk result IsHeld }
{
    let found = solve(alloc, &problem)?;
    let answer = without_the_rest(alloc, &problem, found)?;
    Ok(certificate_of(problem, weights, answer))
}

/// The certificate of an answer.
pub(crate) fn certificate_of(problem: Problem, weights: Weights, answer: Answer) -> Certificate
    requires writable { AreWritable problem }
    requires answer { IsAnswerOf problem answer }
    requires needed { AreAllNeeded problem answer }
    ensures decided { Decides problem weights result }
    ensures can { CanWrite result }
    ensures held { IsHeld result }
{
    certificate::laws::what_is_within_the_limits();
    answered(problem, weights, answer)
}

/// A problem with its answer.
fn answered(problem: Problem, weights: Weights, answer: Answer) -> Certificate
    ensures is { result ≡ answered problem weights answer }
    ensures held { IsTotalHeld result }
{
    match answer {
        Answer::Plan {
            plan,
            prices,
            total,
            ..
        } => Certificate::Plan {
            problem,
            plan,
            prices,
            total,
            weights,
        },
        Answer::Short { members, .. } => Certificate::Short {
            problem,
            members: Members { rows: members },
            weights,
        },
    }
}
