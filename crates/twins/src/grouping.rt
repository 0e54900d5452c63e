//! Classes of twins, by splitting sets of CPUs row by row.
ghost use Rattle.std.specs.Prelude.{◌≡◌, ℕ, ◌<◌, ◌≤◌, ◌+◌, ◌++◌, [], true, IsTrue, IfOk, OnOk, IfSome, MatchOption};
ghost use Rattle.std.specs.Prelude.{All, length, slice_index_or};
ghost use Rattle.std.specs.List.{list_all};
ghost use Rattle.std.specs.FinSet as set;
ghost use Rattle.cpu_set.specs.Ids.{NoneFrom, IsFirstFrom};
ghost use Rattle.cpu_set.specs.Members.{IsCpu};
ghost use Rattle.certificate.specs.RowView.{RowView};
ghost use Rattle.certificate.specs.Limits.{row_fits};
ghost use Rattle.certificate.specs.IsShortage.{is_offered};
ghost use Rattle.twins.specs.IsGrouping.{IsGrouping};
ghost use Rattle.twins.specs.Kinds.{AreKinds};
ghost use Rattle.twins.specs.RowCpus.{AreCpusOf, AreRowCpus};
ghost use Rattle.twins.specs.Edges.{AreEdges};
ghost use Rattle.twins.specs.AreSpans.{AreSpans};
ghost use Rattle.twins.specs.PartsView.{AreBounds};
ghost use Rattle.twins.specs.Settled.{AreOnce, IsSettling};
ghost use Rattle.twins.specs.IsPart.{IsPart, IsUnsplit, ArePieces, IsSplit, IsPutTo};

use crate::Classes;
use crate::alike::{alike, are_alike, place_of_alike};
use crate::edges::{are_in_one_run, edges_of};
use crate::parts::{Parts, bounds_of, last_up_to};
use crate::settling::Settling;
use crate::spans::Spans;
use certificate::{Offers, Problem, Row};
use cpu_set::{CPU_LIMIT, IdSet};
use std::alloc::{AllocError, Global};

/// The CPUs with a weight in some row, in classes of twins. A CPU with none is in no class.
///
/// Each row splits the sets that are left of the rows before it; a set that is one run of twins needs no more looks. A
/// row of the kind of an earlier one splits none. At worst O(r * (g + o)) operations on sets, O(r * g * o) looks at
/// offers and O(r * p) at ranges, of r rows with at most o offers and p ranges each and g classes: a set is looked up
/// in a few ranges alone, and each offer's set is made at most once for a row. The set of each row's CPUs is kept until
/// the end.
///
/// # Errors
/// An allocation failure.
pub fn group(alloc: Global, problem: &Problem, kinds: &[usize]) -> Result<Classes, AllocError>
    requires fit { IsTrue (list_all row_fits problem.now) }
    requires kinds { AreKinds problem.now (length problem.now) kinds.now }
    // The CPUs with a weight in some row are in classes. Each class is all the CPUs that every row weighs alike.
    ensures grouped { IfOk result (λ classes. IsGrouping problem.now classes) }
    ensures few { IfOk result (λ classes. length classes ≤ CPU_LIMIT) }
{
    let sets = group_body(alloc, problem.rows.as_slice(), kinds)?;
    Ok(Classes { sets })
}

fn group_body(alloc: Global, rows: &[Row], kinds: &[usize]) -> Result<Vec<IdSet>, AllocError>
    requires fit { IsTrue (list_all row_fits rows.now) }
    requires kinds { AreKinds rows.now (length rows.now) kinds.now }
    ensures { IfOk result (λ sets. IsGrouping rows.now sets.items) }
{
    let mut sets = Vec::with_capacity(alloc, rows.len())?;
    let (offered, once) = offered_cpus(rows, kinds, &mut sets)?;
    let edges = edges_of(rows, kinds, &offered);
    let runs = edges.meet(&offered).count();
    let mut alone = Vec::with_capacity(alloc, runs as usize)?;
    let mut parts = unsplit(alloc, &offered)?;
    let mut spans = Spans::new(alloc)?;
    let mut settling = Settling::new(once, offered.count(), runs);
    let mut kind = 0;
    for k in 0..rows.len() {
        if kinds[k] == k {
            split_all(
                rows,
                k,
                &sets[kind],
                &mut parts,
                &mut spans,
                &edges,
                &mut settling,
                &mut alone,
            )?;
            kind += 1;
        }
    }
    add_open(&parts, &mut alone)?;
    Ok(alone)
}

/// Adds the parts that are left to the classes.
fn add_open(parts: &Parts, classes: &mut Vec<IdSet>) -> Result<(), AllocError>
    ensures { OnOk result (classes.new.items ≡ classes.old.items ++ parts.now.waiting) }
{
    for at in 0..parts.len() {
        classes.push(*parts.cpus(at))?;
    }
    Ok(())
}

/// One part with all CPUs, or none where there is no CPU.
fn unsplit(alloc: Global, all: &IdSet) -> Result<Parts, AllocError>
    ensures waiting { IfOk result (λ parts. IsUnsplit all.now parts.waiting) }
    ensures done { IfOk result (λ parts. parts.done ≡ []) }
{
    let mut parts = Parts::new(alloc);
    if all.count() == 0 {
        return Ok(parts);
    }
    let (first, last) = bounds_of(all);
    parts.add(all, first, last)?;
    parts.turn();
    Ok(parts)
}

/// The CPUs with a weight in some row, and those for which rows of one kind alone have one. A row of the kind of an
/// earlier one adds none. The CPUs of each other row are put into the list of sets, in order, since they are asked for
/// again.
fn offered_cpus(
    rows: &[Row],
    kinds: &[usize],
    sets: &mut Vec<IdSet>,
) -> Result<(IdSet, IdSet), AllocError>
    requires kinds { AreKinds rows.now (length rows.now) kinds.now }
    requires sets { sets.old.items ≡ [] }
    ensures offered { IfOk result (λ both. (cpu : ℕ) → set.contains both.0 cpu ≡ is_offered rows.now cpu) }
    ensures once { IfOk result (λ both. AreOnce rows.now both.1) }
    ensures sets { OnOk result (AreRowCpus rows.now kinds.now (length rows.now) sets.new.items) }
{
    let mut offered = IdSet::empty();
    let mut twice = IdSet::empty();
    for k in 0..rows.len() {
        if kinds[k] == k {
            let row = &rows[k];
            let cpus = row.offers.cpus();
            twice = twice.union(&offered.meet(&cpus));
            offered = offered.union(&cpus);
            sets.push(cpus)?;
        }
    }
    Ok((offered, offered.minus(&twice)))
}

/// Parts that agree on the rows before row `k`, split so that they agree on it too.
#[inline(never)]
fn split_all(
    rows: &[Row],
    k: usize,
    cpus: &IdSet,
    parts: &mut Parts,
    spans: &mut Spans,
    edges: &IdSet,
    settling: &mut Settling,
    alone: &mut Vec<IdSet>,
) -> Result<(), AllocError>
    requires fit { IsTrue (list_all row_fits rows.now) }
    requires there { k < length rows.now }
    requires cpus { AreCpusOf rows.now k cpus.now }
    requires settling { IsSettling rows.now k settling.old }
    requires edges { AreEdges rows.now edges.now }
    requires parts { All (IsPart rows.now k) parts.old.waiting }
    requires done { parts.old.done ≡ [] }
    requires alone { All (IsPart rows.now (length rows.now)) alone.old.items }
    ensures pieces { OnOk result (ArePieces rows.now (k
        + 1) parts.old.waiting alone.old.items parts.new.waiting alone.new.items) }
    ensures done { OnOk result (parts.new.done ≡ []) }
    ensures settling { OnOk result (IsSettling rows.now (k + 1) settling.new) }
{
    if parts.len() == 0 {
        return Ok(());
    }
    let row = &rows[k];
    spans.note(&row.offers, cpus)?;
    for at in 0..parts.len() {
        split(
            rows,
            k,
            &row.offers,
            spans,
            edges,
            settling,
            at,
            parts,
            alone,
        )?;
    }
    parts.turn();
    settling.turn();
    Ok(())
}

/// One part, split by the weights that its CPUs have in row `k`. One that is settled or is seen to have one weight
/// stays whole.
fn split(
    rows: &[Row],
    k: usize,
    offers: &Offers,
    spans: &mut Spans,
    edges: &IdSet,
    settling: &mut Settling,
    at: usize,
    parts: &mut Parts,
    alone: &mut Vec<IdSet>,
) -> Result<(), AllocError>
    requires fit { IsTrue (list_all row_fits rows.now) }
    requires there { k < length rows.now }
    requires offers { (d : RowView) → offers.now ≡ (slice_index_or rows.now k d).offers }
    requires spans { AreSpans offers.now spans.old }
    requires edges { AreEdges rows.now edges.now }
    requires settling { IsSettling rows.now k settling.old }
    requires at { at < length parts.old.waiting }
    requires part { IsPart rows.now k (slice_index_or parts.old.waiting at set.empty) }
    requires parts { All (IsPart rows.now (k + 1)) parts.old.done }
    requires alone { All (IsPart rows.now (length rows.now)) alone.old.items }
    ensures waiting { OnOk result (parts.new.waiting ≡ parts.old.waiting) }
    ensures split { OnOk result (IsSplit rows.now (k
        + 1) (slice_index_or parts.old.waiting at set.empty) parts.old.done alone.old.items parts.new.done
        alone.new.items) }
    ensures spans { OnOk result (AreSpans offers.now spans.new) }
    ensures settling { OnOk result (IsSettling rows.now k settling.new) }
{
    let (first, last) = parts.bounds(at);
    if settling.has(spans, parts.cpus(at), first) {
        parts.keep(at)?;
        return Ok(());
    }
    let whole = are_alike(offers, spans, parts.cpus(at), first, last)?;
    if whole {
        parts.keep(at)?;
        return Ok(());
    }
    split_apart(rows, k, offers, spans, edges, settling, at, parts, alone)
}

/// One part, split by the weights that its CPUs have in row `k`.
// Not inlined: inlined, it makes a stack slot for the copy that is split, which is cleared for each part that stays
// whole too.
#[inline(never)]
fn split_apart(
    rows: &[Row],
    k: usize,
    offers: &Offers,
    spans: &mut Spans,
    edges: &IdSet,
    settling: &mut Settling,
    at: usize,
    parts: &mut Parts,
    alone: &mut Vec<IdSet>,
) -> Result<(), AllocError>
    requires fit { IsTrue (list_all row_fits rows.now) }
    requires there { k < length rows.now }
    requires offers { (d : RowView) → offers.now ≡ (slice_index_or rows.now k d).offers }
    requires spans { AreSpans offers.now spans.old }
    requires edges { AreEdges rows.now edges.now }
    requires settling { IsSettling rows.now k settling.old }
    requires at { at < length parts.old.waiting }
    requires part { IsPart rows.now k (slice_index_or parts.old.waiting at set.empty) }
    requires parts { All (IsPart rows.now (k + 1)) parts.old.done }
    requires alone { All (IsPart rows.now (length rows.now)) alone.old.items }
    ensures waiting { OnOk result (parts.new.waiting ≡ parts.old.waiting) }
    ensures split { OnOk result (IsSplit rows.now (k
        + 1) (slice_index_or parts.old.waiting at set.empty) parts.old.done alone.old.items parts.new.done
        alone.new.items) }
    ensures spans { OnOk result (AreSpans offers.now spans.new) }
    ensures settling { OnOk result (IsSettling rows.now k settling.new) }
{
    let (_, last) = parts.bounds(at);
    let mut rest = *parts.cpus(at);
    let mut next = rest.first();
    while let Some(cpu) = next {
        let place = place_of_alike(offers, spans, cpu)?;
        let piece = alike(spans, place, &rest);
        put(&piece, cpu, last, edges, parts, alone)?;
        settling.note(spans, cpu, &piece);
        rest = rest.minus(&piece);
        next = first_above(&rest, cpu);
    }
    Ok(())
}

/// The first of some CPUs, which are all above this one.
fn first_above(cpus: &IdSet, below: u16) -> Option<u16>
    requires { (cpu : ℕ) → set.contains cpus.now cpu ≡ true → below < cpu }
    ensures first { MatchOption result (NoneFrom cpus.now 0) (λ n. IsFirstFrom cpus.now 0 n) }
    ensures in_range { IfSome result (λ n. IsCpu n) }
{
    if cpus.is_empty() {
        return None;
    }
    cpus.next_after(below)
}

/// Adds a set, whose CPUs lie from its first one up to another, to those that may be split, or to those of one run.
fn put(
    piece: &IdSet,
    first: u16,
    upto: u16,
    edges: &IdSet,
    parts: &mut Parts,
    alone: &mut Vec<IdSet>,
) -> Result<(), AllocError>
    requires { AreBounds piece.now first upto }
    ensures waiting { OnOk result (parts.new.waiting ≡ parts.old.waiting) }
    ensures put { OnOk result (IsPutTo edges.now piece.now parts.old.done alone.old.items parts.new.done
        alone.new.items) }
{
    let last = last_up_to(piece, upto);
    if are_in_one_run(first, last, edges) {
        alone.push(*piece)?;
    } else {
        parts.add(piece, first, last)?;
    }
    Ok(())
}
