//! Answers whose shortages name only those to blame.
ghost use Rattle.std.specs.Prelude.{IsTrue, IfOk};
ghost use Rattle.certificate.specs.Limits.{rows_fit};
ghost use Rattle.transport.specs.Solved.{IsAnswerOf};
ghost use Rattle.solution.specs.Decides.{AreAllNeeded};

use blame::shrink;
use certificate::Problem;
use std::alloc::{AllocError, Global};
use transport::Answer;

/// The answer, less the members of a shortage that can be left out. A plan stays as it is.
///
/// # Errors
/// An allocation failure.
pub(crate) fn without_the_rest(
    alloc: Global,
    problem: &Problem,
    answer: Answer,
) -> Result<Answer, AllocError>
    requires fit { IsTrue (rows_fit problem.now) }
    requires answer { IsAnswerOf problem.now answer }
    ensures answer { IfOk result (IsAnswerOf problem.now) }
    ensures needed { IfOk result (AreAllNeeded problem.now) }
{
    match answer {
        Answer::Short { members, turns } => {
            let members = shrink(alloc, problem, &members)?;
            Ok(Answer::Short { members, turns })
        }
        plan => Ok(plan),
    }
}
