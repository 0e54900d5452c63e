//! A plan that was found by network simplex and passed the check.
ghost use Rattle.std.specs.Prelude.{◌<◌, All, IfOk, IfSome, IsTrue};
ghost use Rattle.std.specs.FinSet as set;
ghost use Rattle.certificate.specs.IsDealt.{IsDealt};
ghost use Rattle.certificate.specs.IsLeast.{IsLeast};
ghost use Rattle.certificate.specs.IsProved.{IsProved};
ghost use Rattle.certificate.specs.Limits.{rows_fit};
ghost use Rattle.twins.specs.IsGrouping.{IsGrouping};
ghost use Rattle.transport.specs.Solved.{IsPricedByClass};
ghost use Rattle.network_simplex.specs.IsProposal.{IsProposal};

use crate::draft::{Draft, draft_plan};
use crate::room::has_room;
use certificate::{Plan, Prices, Problem, check_plan};
use std::alloc::{AllocError, Global};
use twins::{Classes, deal, group, kinds_of, prices_of};

/// A plan of the least cost, with the values and prices that show it.
#[derive(Debug, Drop)]
pub struct Proposal {
    pub plan: Plan,
    pub prices: Prices,
    /// What the plan costs.
    pub total: u64,
}

/// Seeks a plan of the least cost by network simplex, and hands it out only if [`check_plan`] accepts it. None: no plan
/// was found, which says nothing of whether there is one.
///
/// There are at most 256 pivots for each row and class, of which each takes a step for each row and class at most, and
/// 512 looks at each arc. Where all CPUs are taken, each arc is looked at once more for each row: O((r + g)^2 + r a) of
/// r rows, g classes and a pairs of a row and a class that it may have. Memory is allocated for each row, class and
/// such pair.
///
/// # Errors
/// An allocation failure; no problem is refused.
pub fn propose(alloc: Global, problem: &Problem) -> Result<Option<Proposal>, AllocError>
    requires { IsTrue (rows_fit problem.now) }

    // Values and prices prove that the plan costs the total, and that no plan costs less.
    ensures proved { IfOk result (λ found. IfSome found (λ p. IsProved problem.now p.plan p.prices p.total)) }

    // **No plan costs less.**
    ensures least { IfOk result (λ found. IfSome found (λ p. IsLeast problem.now p.plan)) }

    // Twins go to the rows in order, the lower CPU first.
    ensures dealt { IfOk result (λ found. IfSome found (λ p. IsDealt problem.now p.plan)) }

    // Each class of twins whose price is not 0 has one price, and there are no other prices.
    ensures priced { IfOk result (λ found. IfSome found (λ p. IsPricedByClass problem.now p.prices.of_cpu
        × All (λ price. (0 < price.amount) × (0 < set.len price.cpus)) p.prices.of_cpu)) }
{
    propose_body(alloc, problem)
}

fn propose_body(alloc: Global, problem: &Problem) -> Result<Option<Proposal>, AllocError>
    requires { IsTrue (rows_fit problem.now) }
    ensures { IfOk result (λ found. IfSome found (IsProposal problem.now)) }
{
    certificate::laws::what_is_within_the_limits();
    let rows = problem.rows.as_slice();
    let kinds = kinds_of(alloc, rows)?;
    let classes = group(alloc, problem, &kinds)?;
    match draft_plan(alloc, rows, classes.sets.as_slice())? {
        Some(draft) => checked(alloc, problem, &classes, draft),
        None => Ok(None),
    }
}

/// The draft as a plan of CPUs, if it can be dealt and the check accepts it.
fn checked(
    alloc: Global,
    problem: &Problem,
    classes: &Classes,
    draft: Draft,
) -> Result<Option<Proposal>, AllocError>
    requires { IsGrouping problem.now classes.now }
    ensures { IfOk result (λ found. IfSome found (IsProposal problem.now)) }
{
    twins::laws::deals_of_twins_are_dealt();
    let rows = problem.rows.as_slice();
    let sets = classes.sets.as_slice();
    if !has_room(rows.len(), sets, &draft.holdings) || draft.prices.len() != sets.len() {
        return Ok(None);
    }
    let plan = Plan {
        sets: deal(alloc, rows.len(), classes, &draft.holdings)?,
    };
    let prices = Prices {
        values: draft.values,
        of_cpu: prices_of(alloc, classes, &draft.prices)?,
    };
    match check_plan(problem, &plan, &prices) {
        Ok(total) => Ok(Some(Proposal {
            plan,
            prices,
            total,
        })),
        Err(_) => Ok(None),
    }
}
