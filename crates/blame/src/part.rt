//! What some rows of a problem come to by themselves.
ghost use Rattle.std.specs.Prelude.{◌≡◌, ℕ, ◌<◌, ◌≤◌, All, IfOk, IsTrue, is_some, length, map};
ghost use Rattle.std.specs.List.Sorted.{IsStrictlyIncreasing};
ghost use Rattle.certificate.specs.AreWithin.{AreRowsWithin, IsRowWithin};
ghost use Rattle.certificate.specs.Limits.{rows_fit};
ghost use Rattle.certificate.specs.Weight.{weight};
ghost use Rattle.hall.specs.Asking.{demand_at};
ghost use Rattle.hall.specs.Needed.{others};
ghost use Rattle.blame.specs.Parts.{IsPart, IsPartAnswer, asked_at, number_at};

use certificate::{MAX_DEMAND, Offer, Offers, Problem, Row};
use cpu_set::IdSet;
use std::alloc::{AllocError, Global};
use transport::{Answer, solve};

/// What some rows come to by themselves.
#[derive(Debug, Drop)]
pub(crate) enum PartAnswer {
    /// A set of CPUs for each of the rows.
    Plan(Vec<IdSet>),
    /// The numbers of those that are short, rising.
    Short(Vec<usize>),
}

/// What the rows of these numbers come to by themselves, where the root asks for so many CPUs.
///
/// # Errors
/// An allocation failure.
pub(crate) fn solve_part(
    alloc: Global,
    rows: &[Row],
    numbers: &[usize],
    root: usize,
    demand: u32,
) -> Result<PartAnswer, AllocError>
    requires fit { AreRowsWithin rows.now }
    requires rising { IsStrictlyIncreasing numbers.now }
    requires there { All (λ k. k < length rows.now) numbers.now }
    requires some { 1 ≤ demand }
    requires less { demand ≤ demand_at rows.now root }
    ensures { IfOk result (IsPartAnswer rows.now numbers.now root demand) }
{
    let part = part_of(alloc, rows, numbers, root, demand)?;
    let answer = solve(alloc, &part)?;
    match answer {
        Answer::Plan { plan, .. } => Ok(PartAnswer::Plan(plan.sets)),
        Answer::Short { members, .. } => {
            let short = numbers_at(alloc, numbers, &members)?;
            Ok(PartAnswer::Short(short))
        }
    }
}

/// The rows of these numbers as a problem in which weights don't count and the root asks for so many CPUs.
fn part_of(
    alloc: Global,
    rows: &[Row],
    numbers: &[usize],
    root: usize,
    demand: u32,
) -> Result<Problem, AllocError>
    requires fit { AreRowsWithin rows.now }
    requires rising { IsStrictlyIncreasing numbers.now }
    requires there { All (λ k. k < length rows.now) numbers.now }
    requires some { 1 ≤ demand }
    requires less { demand ≤ demand_at rows.now root }
    ensures part { IfOk result (IsPart rows.now numbers.now root demand) }
    ensures fit { IfOk result (λ part. IsTrue (rows_fit part)) }
{
    certificate::laws::what_is_within_the_limits();
    let mut part = Vec::new(alloc);
    for k in numbers {
        let row = &rows[*k];
        let asked = asked_at(rows, *k, root, demand);
        let alike = without_weights(alloc, row, asked)?;
        part.push(alike)?;
    }
    Ok(Problem { rows: part })
}

/// What a row asks for, where the root asks for so many CPUs.
fn asked_at(rows: &[Row], k: usize, root: usize, demand: u32) -> u32
    requires { k < length rows.now }
    ensures { result ≡ asked_at rows.now root demand k }
{
    let row = &rows[k];
    if k == root { demand } else { row.demand }
}

/// A row that may have the same CPUs, all at one weight.
fn without_weights(alloc: Global, row: &Row, demand: u32) -> Result<Row, AllocError>
    requires some { 1 ≤ demand }
    requires small { demand ≤ MAX_DEMAND }
    ensures demand { IfOk result (λ alike. alike.demand ≡ demand) }
    ensures may { IfOk result (λ alike. (c : ℕ) → is_some (weight alike c) ≡ is_some (weight row.now c)) }
    ensures within { IfOk result IsRowWithin }
{
    let mut offers = Offers::new(alloc);
    offers.push(Offer {
        weight: 0,
        cpus: row.offers.cpus(),
    })?;
    Ok(Row {
        id: String::new(alloc),
        demand,
        offers,
    })
}

/// The numbers at these places.
fn numbers_at(alloc: Global, numbers: &[usize], places: &[usize]) -> Result<Vec<usize>, AllocError>
    requires { All (λ i. i < length numbers.now) places.now }
    ensures { IfOk result (λ found. found.items ≡ map (number_at numbers.now) places.now) }
{
    let mut found = Vec::new(alloc);
    for at in places {
        found.push(numbers[*at])?;
    }
    Ok(found)
}

/// The members but for one.
pub(crate) fn others(alloc: Global, members: &[usize], one: usize) -> Result<Vec<usize>, AllocError>
    ensures { IfOk result (λ rest. rest.items ≡ others members.now one) }
{
    let mut rest = Vec::new(alloc);
    for k in members {
        if *k != one {
            rest.push(*k)?;
        }
    }
    Ok(rest)
}
