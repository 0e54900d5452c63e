//! Offers in two parts: the CPUs that are held, and those that are not.
ghost use Rattle.std.specs.Prelude.{◌≡◌, ℕ, ◌<◌, ◌≤◌, ◌++◌, [], ◌∷◌, filter, true, false, length, slice_index_or, IfOk};
ghost use Rattle.std.specs.Prelude.{IsTrue, OnOk};
ghost use Rattle.std.specs.List.{flat_map, list_all};
ghost use Rattle.std.specs.FinSet as set;
ghost use Rattle.cpu_set.specs.Ranges.{in_ranges};
ghost use Rattle.certificate.specs.Packed.{packed};
ghost use Rattle.certificate.specs.declared.Offer.{Offer};
ghost use Rattle.rows.specs.Offers.{has_some};
ghost use Rattle.rows.specs.Scaled.{are_distances, parted};

use certificate::{Cost, Offer, Offers};
use cpu_set::{CPU_LIMIT, IdSet};
use std::alloc::{AllocError, Global};

/// The offers by distance with the CPUs that are held apart from the others: each of these is a move. O(r + o w) of o
/// offers of r ranges, where a set has w words, and a step for each number that there may be for an offer with a CPU
/// that is held.
pub(crate) fn parts_of(alloc: Global, offers: &Offers, held: &IdSet) -> Result<Offers, AllocError>
    requires distances { IsTrue (are_distances offers.now) }
    requires some { IsTrue (list_all has_some offers.now) }
    ensures { IfOk result (λ parts. parts ≡ flat_map (parted held.now) offers.now) }
{
    let span = span_of(held);
    let mut parts = Offers::new(alloc);
    for at in 0..offers.len() {
        push_parts(&mut parts, offers, at, held, span)?;
    }
    Ok(parts)
}

/// The numbers from a first up to a last.
#[derive(Clone, Copy)]
struct Span {
    first: u16,
    last: u16,
}

/// A span with all numbers of the set.
fn span_of(ids: &IdSet) -> Span
    ensures { (n : ℕ) → set.contains ids.now n ≡ true → (result.first ≤ n) × (n ≤ result.last) }
{
    Span {
        first: ids.first().unwrap_or(CPU_LIMIT),
        last: ids.last().unwrap_or(0),
    }
}

/// Adds the parts of an offer. Most offers have no CPU that is held: such a one is copied as it stands. Where few
/// ranges of many have one, these are cut out and the others copied.
fn push_parts(
    parts: &mut Offers,
    offers: &Offers,
    at: usize,
    held: &IdSet,
    span: Span,
) -> Result<(), AllocError>
    requires place { at < length offers.now }
    requires distances { IsTrue (are_distances offers.now) }
    requires some { IsTrue (list_all has_some offers.now) }
    requires span { (n : ℕ) → set.contains held.now n ≡ true → (span.first ≤ n) × (n ≤ span.last) }
    ensures { (d : Offer) → OnOk result (parts.new ≡ parts.old ++ parted held.now (slice_index_or offers.now at d)) }
{
    let distance = u64::from(offers.weight(at));
    let moved = Cost { distance, moves: 1 }.weight();
    if is_unheld(offers, at, held, span) {
        return parts.push_from(moved, offers, at);
    }
    push_cut(parts, offers, at, held, moved)
}

/// Adds the parts of an offer of which a CPU is held, with the weight of those of its CPUs that are not.
// Not inlined: inlined, it makes a stack slot for the set of the offer, which is cleared for each other offer too.
#[inline(never)]
fn push_cut(
    parts: &mut Offers,
    offers: &Offers,
    at: usize,
    held: &IdSet,
    moved: u32,
) -> Result<(), AllocError>
    requires place { at < length offers.now }
    requires distances { IsTrue (are_distances offers.now) }
    requires moved { (d : Offer) → moved ≡ packed (slice_index_or offers.now at d).weight 1 }
    ensures { (d : Offer) → OnOk result (parts.new ≡ parts.old ++ parted held.now (slice_index_or offers.now at d)) }
{
    let distance = u64::from(offers.weight(at));
    let kept = Cost { distance, moves: 0 }.weight();
    let cpus = offers.offer(at).cpus;
    push_some(parts, kept, cpus.meet(held))?;
    if are_few(parts, offers.ranges(at)) && !cpus.is_subset(held) {
        return parts.push_without(moved, offers, at, held);
    }
    push_some(parts, moved, cpus.minus(held))
}

/// Whether the offer that was added last has few ranges beside those of a whole one. To cut out a range that stands
/// alone takes some 145 instructions, and to make one of a set some 40: the first pays up to about a fifth of them.
fn are_few(parts: &Offers, whole: &[(u16, u16)]) -> bool {
    parts.len() > 0 && parts.ranges(parts.len() - 1).len() < whole.len() / 5
}

/// Whether no CPU of an offer is held, where all that are held are in the span. It is seen by its set, where that is
/// at hand, or else by its ranges.
fn is_unheld(offers: &Offers, at: usize, held: &IdSet, span: Span) -> bool
    requires place { at < length offers.now }
    requires span { (n : ℕ) → set.contains held.now n ≡ true → (span.first ≤ n) × (n ≤ span.last) }
    ensures { (d : Offer) → IsTrue result → (n : ℕ) → set.contains (slice_index_or offers.now at d).cpus n ≡ true
        → set.contains held.now n ≡ false }
{
    match offers.wide(at) {
        Some(cpus) => cpus.is_disjoint(held),
        None => have_none(offers.ranges(at), held, span),
    }
}

/// Whether no CPU of the ranges is held, where all that are held are in the span.
///
/// O(r + w) of r ranges, where a set has w words: ranges rise, so the next CPU that is held is kept from one to the
/// next.
fn have_none(ranges: &[(u16, u16)], held: &IdSet, span: Span) -> bool
    requires { (n : ℕ) → set.contains held.now n ≡ true → (span.first ≤ n) × (n ≤ span.last) }
    ensures { IsTrue result → (n : ℕ) → in_ranges ranges.now n ≡ true → set.contains held.now n ≡ false }
{
    let mut gap = Gap {
        first: 0,
        next: span.first,
    };
    for range in ranges {
        let (first, last) = *range;
        if first < gap.first || gap.next <= last {
            gap = gap_from(first, held, span);
        }
        if gap.next <= last {
            return false;
        }
    }
    true
}

/// The numbers from a first one to below a next one, none of which is held.
#[derive(Clone, Copy)]
struct Gap {
    first: u16,
    next: u16,
}

/// The numbers from a first one up to the next that is held, where all that are held are in the span.
fn gap_from(first: u16, held: &IdSet, span: Span) -> Gap
    requires { (n : ℕ) → set.contains held.now n ≡ true → (span.first ≤ n) × (n ≤ span.last) }
    ensures first { result.first ≡ first }
    ensures none { (n : ℕ) → first ≤ n → n < result.next → set.contains held.now n ≡ false }
{
    let next = if span.last < first {
        CPU_LIMIT
    } else if held.contains(first) {
        first
    } else {
        held.next_after(first).unwrap_or(CPU_LIMIT)
    };
    Gap { first, next }
}

/// Adds an offer of these CPUs, if there are any.
pub(crate) fn push_some(offers: &mut Offers, weight: u32, cpus: IdSet) -> Result<(), AllocError>
    ensures { OnOk result (offers.new ≡ offers.old ++ filter has_some (record { weight = weight; cpus = cpus } ∷ [])) }
{
    if cpus.is_empty() {
        return Ok(());
    }
    offers.push(Offer { weight, cpus })
}
