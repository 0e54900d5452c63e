//! Members of a shortage of which the last one asks for fewer CPUs, so that they can have a plan.
ghost use Rattle.std.specs.Prelude.{◌≡◌, ◌+◌, ◌<◌, ◌≤◌, All, Contains, IfOk, length};
ghost use Rattle.std.specs.List.Sorted.{IsStrictlyIncreasing};
ghost use Rattle.certificate.specs.AreWithin.{AreRowsWithin};
ghost use Rattle.certificate.specs.IsShortage.{IsShortage};
ghost use Rattle.hall.specs.Asking.{demand_at};
ghost use Rattle.blame.specs.Parts.{IsLowered, askers};

use crate::marking::PartPlan;
use crate::owners::owners;
use crate::part::{PartAnswer, others, solve_part};
use certificate::{Problem, Row, check_shortage};
use std::alloc::{AllocError, Global};

/// What members come to, of which the last one asks for fewer CPUs.
#[derive(Debug, Drop)]
pub(crate) enum Lowered {
    /// Who holds which CPU.
    Plan(PartPlan),
    /// The numbers of those that are short, rising.
    Short(Vec<usize>),
}

/// What the members come to, where the last one asks for no CPUs of those that they lack together.
///
/// # Errors
/// An allocation failure.
pub(crate) fn lower_last(
    alloc: Global,
    problem: &Problem,
    members: &[usize],
) -> Result<Lowered, AllocError>
    requires fit { AreRowsWithin problem.now }
    requires shortage { IsShortage problem.now members.now }
    ensures { IfOk result (IsLowered problem.now members.now) }
{
    let rows = problem.rows.as_slice();
    let root = members[members.len() - 1];
    let row = &rows[root];
    let demand = row.demand;
    let lacking = lacking_of(problem, members, demand);
    let asked = demand - lacking;
    lower(alloc, rows, members, root, asked, lacking)
}

/// What the members come to, where one of them, the root, asks for so many CPUs and lacks the others.
fn lower(
    alloc: Global,
    rows: &[Row],
    members: &[usize],
    root: usize,
    asked: u32,
    lacking: u32,
) -> Result<Lowered, AllocError>
    requires fit { AreRowsWithin rows.now }
    requires rising { IsStrictlyIncreasing members.now }
    requires there { All (λ k. k < length rows.now) members.now }
    requires root { Contains members.now root }
    requires whole { asked + lacking ≡ demand_at rows.now root }
    ensures { IfOk result (IsLowered rows.now members.now) }
{
    let numbers = askers(alloc, members, root, asked)?;
    let answer = solve_part(alloc, rows, &numbers, root, asked.max(1))?;
    match answer {
        PartAnswer::Short(fewer) => Ok(Lowered::Short(fewer)),
        PartAnswer::Plan(sets) => {
            let own = owners(alloc, &numbers, &sets, rows.len())?;
            Ok(Lowered::Plan(PartPlan { own, root, lacking }))
        }
    }
}

/// How many CPUs the members lack together, or the demand, where that is less.
fn lacking_of(problem: &Problem, members: &[usize], demand: u32) -> u32
    ensures { result ≤ demand }
{
    match check_shortage(problem, members) {
        Ok((asked, there)) => {
            let lacking = asked.saturating_sub(u64::from(there));
            lacking.min(u64::from(demand)) as u32
        }
        Err(_) => demand,
    }
}

/// Who asks for CPUs, where the root asks for so many.
fn askers(
    alloc: Global,
    members: &[usize],
    root: usize,
    demand: u32,
) -> Result<Vec<usize>, AllocError>
    ensures { IfOk result (λ numbers. numbers.items ≡ askers members.now root demand) }
{
    if demand == 0 {
        return others(alloc, members, root);
    }
    members.to_vec(alloc)
}
