//! The check of a shortage by its members.
ghost use Rattle.std.specs.Prelude.{◌≡◌, ℕ, ◌<◌, ◌≤◌, All, IsTrue, IfOk, IfErr, OnOk, Ok, length};
ghost use Rattle.std.specs.List.{list_all};
ghost use Rattle.std.specs.Result.{result_err};
ghost use Rattle.std.specs.FinSet as set;
ghost use Rattle.certificate.specs.IsShortage.{chosen, asked, is_offered, offered, HasNoPlan};
ghost use Rattle.certificate.specs.IsShown.{IsShown};
ghost use Rattle.certificate.specs.ShortageFault.{shortage_fault};
ghost use Rattle.certificate.specs.IsCause.{IsShortageCause};
ghost use Rattle.certificate.specs.Limits.{row_fits};

use crate::limit_checks::is_shortage_within_limits;
use crate::{CheckFault, MAX_ROWS, Problem, Row};
use cpu_set::IdSet;

/// Checks that some rows, the members, ask together for more CPUs than the union of their offers has. It answers how
/// many they ask for and how many there are, or the first cause why not.
///
/// `members` are row numbers, each above the one before. O(m + w) of m members and w offers in all. Allocates nothing.
///
/// # Errors
/// `BadProblem` (E70), then `NoShortage` (E76).
pub fn check_shortage(problem: &Problem, members: &[usize]) -> Result<(u64, u32), CheckFault>
    // A yes: the members are a Hall violator. By the returned counts they ask together for more CPUs than the union of
    // their offers has.
    ensures shown { IfOk result (λ counts. IsShown problem.now members.now counts.0 counts.1) }

    // Hence **no plan exists, whoever named them**.
    ensures none { OnOk result (HasNoPlan problem.now) }

    // A yes wherever members of rows within the limits do ask for more.
    ensures complete { (wanted there : ℕ) → IsShown problem.now members.now wanted there
        → result ≡ Ok (wanted, there) }

    // A no: the first fault in the written order.
    ensures fault { shortage_fault problem.now members.now ≡ result_err result }

    // Its cause holds.
    ensures cause { IfErr result (λ fault. IsShortageCause problem.now members.now fault) }
{
    check_shortage_body(problem.rows.as_slice(), members)
}

/// How many CPUs the members ask for and how many are there, or the first fault.
#[tactic(auto, unfolding(crate::specs::ShortageFault::shortage_fault))]
fn check_shortage_body(rows: &[Row], members: &[usize]) -> Result<(u64, u32), CheckFault>
    ensures fault { shortage_fault rows.now members.now ≡ result_err result }
    ensures asked { IfOk result (λ counts. counts.0 ≡ asked (chosen rows.now members.now)) }
    ensures there { IfOk result (λ counts. counts.1 ≡ length (offered (chosen rows.now members.now))) }
{
    if !is_shortage_within_limits(rows, members) {
        return Err(CheckFault::BadProblem);
    }
    let asked = asked_by(rows, members);
    let there = offered_to(rows, members).count();
    if asked <= u64::from(there) {
        return Err(CheckFault::NoShortage);
    }
    Ok((asked, there))
}

/// How many CPUs the members ask for together.
fn asked_by(rows: &[Row], members: &[usize]) -> u64
    requires fit { IsTrue (list_all row_fits rows.now) }
    requires few { length members.now ≤ MAX_ROWS }
    requires rows { All (λ k. k < length rows.now) members.now }
    ensures { result ≡ asked (chosen rows.now members.now) }
{
    let mut asked = 0;
    for k in members {
        let row = &rows[*k];
        asked += u64::from(row.demand);
    }
    asked
}

/// The CPUs that are in an offer of a member, each a row of this number.
///
/// Allocates nothing.
pub fn offered_to(rows: &[Row], members: &[usize]) -> IdSet
    requires { All (λ k. k < length rows.now) members.now }
    ensures { (cpu : ℕ) → set.contains result cpu ≡ is_offered (chosen rows.now members.now) cpu }
{
    let mut offered = IdSet::empty();
    for k in members {
        let row = &rows[*k];
        offered = offered.union(&row.offers.cpus());
    }
    offered
}
