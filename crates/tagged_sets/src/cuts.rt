//! The ranges of a set less the numbers of another.
ghost use Rattle.std.specs.Prelude.{◌≡◌, ℕ, ◌+◌, ◌<◌, ◌≤◌, ◌++◌, All, OnOk, OnErr, true, false, length, take};
ghost use Rattle.std.specs.FinSet as set;
ghost use Rattle.cpu_set.specs.Ids.{Ids};
ghost use Rattle.cpu_set.specs.Members.{IsComplement};
ghost use Rattle.cpu_set.specs.Ranges.{in_ranges};
ghost use Rattle.cpu_set.specs.RangesFrom.{ranges_from};
ghost use Rattle.tagged_sets.specs.CutOut.{IsCut, IsRun, left_of};
ghost use Rattle.tagged_sets.specs.Tagged.{IsOfSet, ranges_of_set};

use cpu_set::{CPU_LIMIT, IdSet};
use std::alloc::AllocError;

/// The next numbers that are cut out: from a first up to below an end. None is between the numbers that were met and
/// the first.
#[derive(Clone, Copy)]
struct Run {
    first: u16,
    end: u16,
}

/// Adds the ranges of a set less the numbers of another; an allocation failure changes nothing.
pub(crate) fn add_without(
    ranges: &mut Vec<(u16, u16)>,
    more: &[(u16, u16)],
    without: &IdSet,
) -> Result<(), AllocError>
    requires { IsOfSet more.now }
    ensures ok { OnOk result (ranges.new.items ≡ ranges.old.items ++ ranges_of_set (left_of more.now without.now)) }
    ensures err { OnErr result (ranges.new.items ≡ ranges.old.items) }
{
    let before = ranges.len();
    if add_pieces(ranges, more, without).is_err() {
        ranges.truncate(before);
        return Err(AllocError);
    }
    Ok(())
}

/// Adds the ranges of a set less the numbers of another; an allocation failure leaves some of them.
///
/// The next numbers to be cut out are kept from one range to the next, so that a word of a set is read a few times at
/// most, however many ranges there are.
fn add_pieces(
    ranges: &mut Vec<(u16, u16)>,
    more: &[(u16, u16)],
    without: &IdSet,
) -> Result<(), AllocError>
    requires { IsOfSet more.now }
    ensures ok { OnOk result (ranges.new.items ≡ ranges.old.items ++ ranges_of_set (left_of more.now without.now)) }
    ensures there { take (length ranges.old.items) ranges.new.items ≡ ranges.old.items }
{
    let others = without.complement();
    let mut run = run_from(0, 0, without, &others);
    let mut at = 0;
    loop {
        at += count_gone(&more[at..], without);
        let rest = &more[at..];
        if rest.is_empty() {
            return Ok(());
        }
        run = run_at(run, rest[0], without, &others);
        let whole = count_below(rest, run.first);
        if whole > 0 {
            ranges.extend_from_slice(&rest[..whole])?;
            at += whole;
            continue;
        }
        add_cut(ranges, rest[0], &mut run, without, &others)?;
        at += 1;
    }
}

/// How many ranges of one or two numbers there are up to the first that is not cut out as a whole.
fn count_gone(ranges: &[(u16, u16)], without: &IdSet) -> usize
    ensures within { result ≤ length ranges.now }
    ensures gone { (q : ℕ) → in_ranges (take result ranges.now) q ≡ true → set.contains without.now q ≡ true }
{
    for (at, range) in ranges.iter().enumerate() {
        let (first, last) = *range;
        if last.saturating_sub(first) > 1 || !without.contains(first) || !without.contains(last) {
            return at;
        }
    }
    ranges.len()
}

/// How many ranges there are up to the first that does not end below a number.
fn count_below(ranges: &[(u16, u16)], number: u16) -> usize
    ensures within { result ≤ length ranges.now }
    ensures below { All (λ r. r.1 < number) (take result ranges.now) }
{
    for (at, range) in ranges.iter().enumerate() {
        if range.1 >= number {
            return at;
        }
    }
    ranges.len()
}

/// Adds the pieces of a range that are left without the numbers that are cut out. From one piece to the next it finds
/// the next numbers to be cut out, where those that it has do not reach so far.
fn add_cut(
    ranges: &mut Vec<(u16, u16)>,
    range: (u16, u16),
    run: &mut Run,
    without: &IdSet,
    others: &IdSet,
) -> Result<(), AllocError>
    requires below { range.1 < CPU_LIMIT }
    requires rising { range.0 ≤ range.1 }
    requires run { IsRun without.now range.0 run.old.first run.old.end }
    requires others { IsComplement without.now others.now }
    ensures ok { (t : Ids) → IsCut t without.now range.0 range.1 → OnOk result (ranges.new.items
        ++ ranges_from t (range.1 + 1) ≡ ranges.old.items ++ ranges_from t range.0) }
    ensures there { take (length ranges.old.items) ranges.new.items ≡ ranges.old.items }
    ensures run { OnOk result (IsRun without.now (range.1 + 1) run.new.first run.new.end) }
{
    let (first, last) = range;
    let past = last + 1;
    let mut next = first;
    while next < past {
        *run = run_at(*run, (next, last), without, others);
        let end = run.first.min(past);
        if next < end {
            ranges.push((next, end - 1))?;
        }
        next = run.end.min(past);
    }
    Ok(())
}

/// The next numbers that are cut out, from the first of a range on: those that are known where they reach so far.
fn run_at(run: Run, range: (u16, u16), without: &IdSet, others: &IdSet) -> Run
    requires run { IsRun without.now range.0 run.first run.end }
    requires rising { range.0 ≤ range.1 }
    requires below { range.1 < CPU_LIMIT }
    requires others { IsComplement without.now others.now }
    ensures run { IsRun without.now range.0 result.first result.end }
    ensures above { range.0 < result.end }
{
    if range.0 < run.end {
        return run;
    }
    run_from(range.0, range.1, without, others)
}

/// The next numbers that are cut out, from a number on. Their end is sought only where the first comes before `last`.
fn run_from(from: u16, last: u16, without: &IdSet, others: &IdSet) -> Run
    requires from { from ≤ last }
    requires last { last < CPU_LIMIT }
    requires others { IsComplement without.now others.now }
    ensures run { IsRun without.now from result.first result.end }
    ensures above { from < result.end }
{
    let first = first_from(from, without);
    let end = if first < last {
        others.next_after(first).unwrap_or(CPU_LIMIT)
    } else {
        first + 1
    };
    Run { first, end }
}

/// The first number of a set from one on, or the limit if there is none.
fn first_from(from: u16, ids: &IdSet) -> u16
    requires { from < CPU_LIMIT }
    ensures none { (q : ℕ) → from ≤ q → q < result → set.contains ids.now q ≡ false }
    ensures above { from ≤ result }
    ensures limit { result ≤ CPU_LIMIT }
    ensures member { result < CPU_LIMIT → set.contains ids.now result ≡ true }
{
    if ids.contains(from) {
        return from;
    }
    ids.next_after(from).unwrap_or(CPU_LIMIT)
}
