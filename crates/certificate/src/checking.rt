//! The check of a certificate.
ghost use Rattle.std.specs.Prelude.{◌≡◌, Ok, Some, None, IfOk, IfErr, OnOk};
ghost use Rattle.certificate.specs.declared.certificates.Certificate.TheVariants.{Plan as PlanCertificate};
ghost use Rattle.certificate.specs.declared.certificates.Certificate.TheVariants.{Short as ShortCertificate};
ghost use Rattle.certificate.specs.declared.checking.Verdict.{Verdict};
ghost use Rattle.certificate.specs.Verdict.{IsProvedCertificate, IsBest, IsFaultOf, plan_verdict, scale_fault};

use crate::{
    Certificate, CheckFault, Cost, Members, Plan, Prices, Problem, Weights, are_scaled, check_plan,
    check_shortage,
};

/// What a certificate proves.
#[derive(Clone, Copy, Debug, PartialEq, Eq)]
pub enum Verdict {
    /// The certificate's plan costs this, and no plan costs less.
    Plan(u64),
    /// The certificate's plan has this distance and moves so many CPUs: no plan's distance is less, and none of that
    /// distance moves fewer.
    Moves(u64, u64),
    /// The certificate's members ask together for so many CPUs, and may have so many, which are fewer: there is no
    /// plan.
    Short(u64, u32),
}

/// Checks a certificate, as its text says it or as it was built. It allocates nothing, so an
/// allocation can fail in the reading of a text alone. It takes steps in the order of those of [`check_plan`] or
/// [`check_shortage`].
///
/// # Errors
/// `BadProblem` where weights count moves and one is more than one move; then those of [`check_plan`], then `Gap` (the
/// duality gap) where the written total isn't the plan's cost; for a shortage those of [`check_shortage`].
///
/// ```text
/// // Row a: CPU 1 at weight 10, CPU 2 at 11. Row b: CPU 1 at 12, CPU 2 at 50. Each asks for one.
/// let plan = Plan { sets };         // a has CPU 2, b has CPU 1
/// let prices = Prices { values, of_cpu };    // 11 and 13; CPU 1 has the price 1
/// let weights = Weights::Plain;
/// check(&Certificate::Plan { problem, plan, prices, total: 23, weights })    // Ok(Verdict::Plan(23))
/// check(&Certificate::Plan { problem, plan, prices, total: 24, weights })    // Err(CheckFault::Gap)
/// ```
///
/// `tests/certificates.sh` has the program check this certificate, and others that differ from it in a line.
pub fn check(certificate: &Certificate) -> Result<Verdict, CheckFault>
    // A yes: values and prices prove the plan to cost the total, or the members are short by these counts. In version 2
    // each weight is a distance, and one move at most.
    ensures proved { IfOk result (λ v. IsProvedCertificate certificate.now v) }
    // Hence the plan is of least cost, or its rows have no plan. In version 2 a plan of least cost is of least
    // distance, and of that distance no plan moves fewer CPUs. The two numbers of the verdict are those.
    ensures best { IfOk result (λ v. IsBest certificate.now v) }
    // A yes wherever that is proved.
    ensures complete { (v : Verdict) → IsProvedCertificate certificate.now v → result ≡ Ok v }
    // A no: the first fault, whose cause holds. In version 2 that is first of all a weight of more than one move.
    ensures fault { IfErr result (λ fault. IsFaultOf fault certificate.now) }
{
    match certificate {
        Certificate::Plan {
            problem,
            plan,
            prices,
            total,
            weights,
        } => check_total(problem, plan, prices, *total, *weights),
        Certificate::Short {
            problem,
            members,
            weights,
        } => check_members(problem, members, *weights),
    }
}

/// Checks the plan, and the total that is written with it.
#[tactic(auto, using(crate::proofs::Verdicts::scale_first, crate::proofs::Verdicts::plan_second, crate::proofs::Verdicts::gap_last, crate::proofs::Verdicts::plan_proved, crate::proofs::Verdicts::plan_best))]
fn check_total(
    problem: &Problem,
    plan: &Plan,
    prices: &Prices,
    total: u64,
    weights: Weights,
) -> Result<Verdict, CheckFault>
    ensures proved { IfOk result (λ v. IsProvedCertificate
        (PlanCertificate problem.now plan.now prices.now total weights) v) }
    ensures best { IfOk result (λ v. IsBest (PlanCertificate problem.now plan.now prices.now total weights) v) }
    ensures complete { (v : Verdict)
        → IsProvedCertificate (PlanCertificate problem.now plan.now prices.now total weights) v
        → result ≡ Ok v }
    ensures fault { IfErr result (λ fault. IsFaultOf fault
        (PlanCertificate problem.now plan.now prices.now total weights)) }
{
    check_scale(problem, weights)?;
    let cost = check_plan(problem, plan, prices)?;
    if cost != total {
        return Err(CheckFault::Gap);
    }
    Ok(plan_verdict(cost, weights))
}

/// What a proved plan of this cost comes to.
fn plan_verdict(cost: u64, weights: Weights) -> Verdict
    ensures { result ≡ plan_verdict cost weights }
{
    match weights {
        Weights::Plain => Verdict::Plan(cost),
        Weights::WithMoves => {
            let cost = Cost::unpack(cost);
            Verdict::Moves(cost.distance, cost.moves)
        }
    }
}

/// Refuses rows with a weight of more than one move, where weights count moves.
fn check_scale(problem: &Problem, weights: Weights) -> Result<(), CheckFault>
    ensures ok { OnOk result (scale_fault weights problem.now ≡ None) }
    ensures err { IfErr result (λ fault. scale_fault weights problem.now ≡ Some fault) }
{
    match weights {
        Weights::WithMoves if !are_scaled(problem.rows.as_slice()) => Err(CheckFault::BadProblem),
        _ => Ok(()),
    }
}

#[tactic(auto, using(crate::proofs::Verdicts::short_scale_first, crate::proofs::Verdicts::short_second, crate::proofs::Verdicts::short_proved))]
fn check_members(
    problem: &Problem,
    members: &Members,
    weights: Weights,
) -> Result<Verdict, CheckFault>
    ensures proved { IfOk result (λ v. IsProvedCertificate (ShortCertificate problem.now members.now weights) v) }
    ensures best { IfOk result (λ v. IsBest (ShortCertificate problem.now members.now weights) v) }
    ensures complete { (v : Verdict) → IsProvedCertificate (ShortCertificate problem.now members.now weights) v
        → result ≡ Ok v }
    ensures fault { IfErr result (λ fault. IsFaultOf fault (ShortCertificate problem.now members.now weights)) }
{
    check_scale(problem, weights)?;
    let (asked, allowed) = check_shortage(problem, members.rows.as_slice())?;
    Ok(Verdict::Short(asked, allowed))
}
