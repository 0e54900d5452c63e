//! Runs of CPUs that no row tells apart, and the edges between them.
ghost use Rattle.std.specs.Prelude.{◌≡◌, ℕ, ◌+◌, ◌<◌, ◌&&◌, true, false, nat_le, All, IsTrue, length};
ghost use Rattle.std.specs.FinSet as set;
ghost use Rattle.cpu_set.specs.Ids.{Ids};
ghost use Rattle.cpu_set.specs.Members.{IsCpu};
ghost use Rattle.cpu_set.specs.Ranges.{in_ranges};
ghost use Rattle.certificate.specs.Weight.{weight_in};
ghost use Rattle.twins.specs.Edges.{AreEdges, IsRun};
ghost use Rattle.twins.specs.Kinds.{AreKinds};
ghost use Rattle.twins.specs.SlotsView.{AreBounds};

use certificate::{Offers, Row};
use cpu_set::{CPU_LIMIT, IdSet};

/// The CPUs that some row may tell from the CPU below. From each of them up to the next all CPUs are twins.
///
/// Where there are more than half as many edges as CPUs with a weight, all CPUs are taken for edges: to seek the few
/// longer runs would take longer than they save.
pub(crate) fn edges_of(rows: &[Row], kinds: &[usize], offered: &IdSet) -> IdSet
    requires { AreKinds rows.now (length rows.now) kinds.now }
    ensures { AreEdges rows.now result }
{
    let half = offered.count() / 2;
    let mut edges = IdSet::empty();
    for k in 0..rows.len() {
        if kinds[k] == k {
            if edges.count() > half {
                return IdSet::empty().complement();
            }
            let row = &rows[k];
            add_edges(&mut edges, &row.offers);
        }
    }
    edges
}

/// Adds the CPUs that some offer tells from the CPU below.
fn add_edges(edges: &mut IdSet, offers: &Offers)
    ensures kept { (cpu : ℕ) → set.contains edges.old cpu ≡ true → set.contains edges.new cpu ≡ true }
    ensures told { (cpu : ℕ) → IsCpu (cpu + 1) → set.contains edges.new (cpu + 1) ≡ false
        → weight_in offers.now cpu ≡ weight_in offers.now (cpu + 1) }
{
    for at in 0..offers.len() {
        let cpus = offers.ranges(at);
        add_ends(edges, cpus);
    }
}

/// Adds the lowest CPU of each range, and the CPU behind it.
fn add_ends(edges: &mut IdSet, ranges: &[(u16, u16)])
    requires { All (λ r. r.1 < CPU_LIMIT) ranges.now }
    ensures kept { (cpu : ℕ) → set.contains edges.old cpu ≡ true → set.contains edges.new cpu ≡ true }
    ensures told { (cpu : ℕ) → IsCpu (cpu + 1) → set.contains edges.new (cpu + 1) ≡ false
        → in_ranges ranges.now cpu ≡ in_ranges ranges.now (cpu + 1) }
{
    for range in ranges {
        let (first, last) = *range;
        add_ends_of(edges, first, last);
    }
}

/// Adds the lowest CPU of a range, and the CPU behind it.
fn add_ends_of(edges: &mut IdSet, first: u16, last: u16)
    requires { last < CPU_LIMIT }
    ensures kept { (cpu : ℕ) → set.contains edges.old cpu ≡ true → set.contains edges.new cpu ≡ true }
    ensures told { (cpu : ℕ) → IsCpu (cpu + 1) → set.contains edges.new (cpu + 1) ≡ false
        → (nat_le first cpu && nat_le cpu last) ≡ (nat_le first (cpu + 1) && nat_le (cpu + 1) last) }
{
    add(edges, first);
    add(edges, last + 1);
}

/// Adds a CPU; a number that no CPU has is left out.
fn add(edges: &mut IdSet, cpu: u16)
    ensures kept { (q : ℕ) → set.contains edges.old q ≡ true → set.contains edges.new q ≡ true }
    ensures there { IsCpu cpu → set.contains edges.new cpu ≡ true }
{
    if cpu >= CPU_LIMIT {
        return;
    }
    edges.insert(cpu);
}

/// Whether CPUs from a first up to a last lie in one run: no edge is above the first and not above the last.
pub(crate) fn are_in_one_run(first: u16, last: u16, edges: &IdSet) -> bool
    ensures { (cpus : Ids) → IsTrue result → AreBounds cpus first last → IsRun edges.now cpus }
{
    match edges.next_after(first) {
        Some(edge) => last < edge,
        None => true,
    }
}
