//! The check of a plan by its values and prices.
ghost use Rattle.std.specs.Prelude.{◌≡◌, ℕ, All, IfOk, IfErr, OnOk};
ghost use Rattle.std.specs.Result.{result_err};
ghost use Rattle.cpu_set.specs.Members.{InRange};
ghost use Rattle.certificate.specs.Cost.{cost};
ghost use Rattle.certificate.specs.IsLeast.{IsLeast};
ghost use Rattle.certificate.specs.IsProved.{IsProved};
ghost use Rattle.certificate.specs.IsCause.{IsCause};
ghost use Rattle.certificate.specs.PlanFault.{plan_fault};

use crate::costs::{plan_cost, price_sum, worth};
use crate::limit_checks::is_within_limits;
use crate::row_checks::{check_apart, check_rows};
use crate::value_checks::check_values;
use crate::{CheckFault, Plan, Prices, Problem, Row};
use cpu_set::IdSet;

/// Checks that a plan is of least cost, by values and prices: the plan's cost, or the first cause why not.
///
/// Allocates nothing. A set takes a few steps for each of its ranges. Only the CPUs of an offer whose weight is below
/// its row's value take a step each: a look at a table of their prices. At worst O(w + p + r * n) of w offers in all, p
/// prices, r rows and n CPUs.
///
/// # Errors
/// The first cause in the order of [`CheckFault`], the last of which is none of a plan.
pub fn check_plan(problem: &Problem, plan: &Plan, prices: &Prices) -> Result<u64, CheckFault>
    // A yes: each row has as many CPUs as it asks for, all allowed, and none is in two rows. The plan costs the
    // returned total, and values and prices give the same number as a bound.
    ensures proved { IfOk result (λ total. IsProved problem.now plan.now prices.now total) }

    // Hence the plan is optimal: **no plan costs less, whoever wrote the certificate**.
    ensures least { OnOk result (IsLeast problem.now plan.now) }

    // A yes wherever values and prices within the limits show this.
    ensures complete { (total : ℕ) → IsProved problem.now plan.now prices.now total
        → result ≡ Ok total }

    // A no: the first fault in the written order.
    ensures fault { plan_fault problem.now plan.now prices.now ≡ result_err result }

    // Its cause holds: the least such CPU of the first such row, and all that is checked before it is in order.
    ensures cause { IfErr result (λ fault. IsCause problem.now plan.now prices.now fault) }
{
    check_plan_body(problem.rows.as_slice(), plan.sets.as_slice(), prices)
}

/// The plan's cost, or the first fault: the checks in their order.
#[tactic(auto, unfolding(crate::specs::PlanFault::plan_fault))]
fn check_plan_body(rows: &[Row], sets: &[IdSet], prices: &Prices) -> Result<u64, CheckFault>
    ensures fault { plan_fault rows.now sets.now prices.now ≡ result_err result }
    ensures cost { IfOk result (λ total. total ≡ cost rows.now sets.now) }
    ensures in_range { OnOk result (All InRange sets.now) }
    ensures cause { IfErr result (λ fault. IsCause rows.now sets.now prices.now fault) }
{
    if !is_within_limits(rows, sets, prices) {
        return Err(CheckFault::BadProblem);
    }
    check_rows(rows, sets)?;
    check_apart(sets)?;
    let values = prices.values.as_slice();
    check_values(rows, values, &prices.of_cpu)?;
    let total = plan_cost(rows, sets);
    if worth(rows, values) != total + price_sum(&prices.of_cpu) {
        return Err(CheckFault::Gap);
    }
    Ok(total)
}
