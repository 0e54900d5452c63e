//! What a problem comes to, by whichever of two ways is short.
ghost use Rattle.std.specs.Prelude.{IsTrue, IfOk};
ghost use Rattle.certificate.specs.Limits.{rows_fit};
ghost use Rattle.transport.specs.Solved.{IsAnswerOf};

use certificate::{Problem, Row};
use network_simplex::propose;
use std::alloc::{AllocError, Global};
use transport::{Answer, TurnLimit, solve, solve_within};

/// For each turn that the solver may take at first, so many more when all rows have their CPUs. So it goes on for half
/// as long as network simplex takes, or about as long where there are many rows; and where turns rise with each row it
/// stops early.
const MORE_BEHIND: u64 = 7;

/// How many rows there were where the limit was measured. With fewer rows it is no lower for that.
const MEASURED_ROWS: u64 = 256;

/// What the limit is divided by: 5 × 16. Where it was measured, rows and CPUs together were 5 times the rows. And the
/// turns that are few were rows × rows × CPUs asked for / offers, 16 times, which is [`MEASURED_ROWS`] / 16.
const SCALE: u64 = 80;

/// What the solver answers, where that takes few turns. Else a plan that network simplex finds; and where it finds
/// none, what the solver answers in as many turns as it takes. Of several plans of the least cost it may be another one
/// than [`solve`] has.
///
/// # Errors
/// An allocation failure; no problem is refused.
pub(crate) fn quick_answer(alloc: Global, problem: &Problem) -> Result<Answer, AllocError>
    requires { IsTrue (rows_fit problem.now) }
    ensures { IfOk result (IsAnswerOf problem.now) }
{
    let limit = limit_of(problem.rows.as_slice());
    if let Some(answer) = solve_within(alloc, problem, limit)? {
        return Ok(answer);
    }
    match propose(alloc, problem)? {
        Some(found) => Ok(Answer::Plan {
            plan: found.plan,
            prices: found.prices,
            total: found.total,
            turns: 0,
        }),
        None => solve(alloc, problem),
    }
}

/// How many turns are few for these rows: such as take about as long as network simplex, or half as long.
///
/// A turn is a row, which looks at its offers, or a class, which takes few steps. There are about as many classes for a
/// row as it asks for CPUs. And the more rows there are, the fewer steps a turn takes, and the more network simplex
/// does.
fn limit_of(rows: &[Row]) -> TurnLimit {
    let mut asked = 0u64;
    let mut offers = 0u64;
    for row in rows {
        asked = asked.saturating_add(u64::from(row.demand));
        offers = offers.saturating_add(row.offers.len() as u64);
    }
    let count = rows.len() as u64;
    let nodes = count.saturating_add(asked);
    let times = count.max(MEASURED_ROWS);
    let unit = count.saturating_mul(nodes).saturating_mul(times) / SCALE;
    let first = unit.saturating_mul(asked);
    let behind = unit.saturating_mul(MORE_BEHIND);
    TurnLimit {
        at_first: first.checked_div(offers).unwrap_or(u64::MAX),
        per_cpu: behind.checked_div(offers).unwrap_or(u64::MAX),
    }
}
