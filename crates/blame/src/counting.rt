//! Members that can be left out of a shortage, as counting shows.
ghost use Rattle.std.specs.Prelude.{◌≡◌, ◌<◌, All, IfOk, length};
ghost use Rattle.certificate.specs.IsShortage.{IsShortage};

use certificate::{Problem, Row, check_shortage};
use cpu_set::IdSet;
use std::alloc::{AllocError, Global};

/// A shortage of the members that are left where each in turn is left out, if those that remain are short together.
///
/// # Errors
/// An allocation failure.
pub(crate) fn leave_out_by_count(
    alloc: Global,
    problem: &Problem,
    members: &[usize],
) -> Result<Vec<usize>, AllocError>
    requires { IsShortage problem.now members.now }
    ensures { IfOk result (λ few. IsShortage problem.now few.items) }
{
    let few = kept_by_count(alloc, problem.rows.as_slice(), members)?;
    if check_shortage(problem, &few).is_ok() {
        return Ok(few);
    }
    members.to_vec(alloc)
}

/// The members that are left.
fn kept_by_count(alloc: Global, rows: &[Row], members: &[usize]) -> Result<Vec<usize>, AllocError>
    requires { All (λ k. k < length rows.now) members.now }
{
    let behind = offered_behind(alloc, rows, members)?;
    let mut kept = Vec::new(alloc);
    let mut offered = IdSet::empty();
    let mut asked = asked_by(rows, members);
    for at in 0..members.len() {
        let row = &rows[members[at]];
        let rest = asked.saturating_sub(u64::from(row.demand));
        if u64::from(offered.union(&behind[at]).count()) < rest {
            asked = rest;
        } else {
            offered = offered.union(&row.offers.cpus());
            kept.push(members[at])?;
        }
    }
    Ok(kept)
}

/// How many CPUs the members ask for together.
fn asked_by(rows: &[Row], members: &[usize]) -> u64
    requires { All (λ k. k < length rows.now) members.now }
{
    let mut asked = 0u64;
    for k in members {
        let row = &rows[*k];
        asked = asked.saturating_add(u64::from(row.demand));
    }
    asked
}

/// For each member the CPUs that those behind it may have.
fn offered_behind(alloc: Global, rows: &[Row], members: &[usize]) -> Result<Vec<IdSet>, AllocError>
    requires { All (λ k. k < length rows.now) members.now }
    ensures { IfOk result (λ behind. length behind.items ≡ length members.now) }
{
    let mut behind = vec![in alloc; IdSet::empty(); members.len()]?;
    let mut offered = IdSet::empty();
    for back in 0..members.len() {
        let at = members.len() - 1 - back;
        behind[at] = offered;
        let row = &rows[members[at]];
        offered = offered.union(&row.offers.cpus());
    }
    Ok(behind)
}
