//! Whether a hand-over may begin and go on: what the calls of `apply_plan` require, as tests.
ghost use Rattle.std.specs.Prelude.{◌≡◌, ◌↔◌, false, not, IsTrue};
ghost use Rattle.std.specs.List.{AllByRecursion};
ghost use Rattle.cpuset_tree.specs.Groups.{same_group};
ghost use Rattle.apply_plan.specs.Holders.{Pairwise};
ghost use Rattle.apply_plan.specs.Targets.{HaveOtherGroups, AreTargetsApart, HaveSomeTarget, IsHandover, IsPlaced};
ghost use Rattle.apply_plan.specs.Targets.{ArePlaced};
ghost use Rattle.scenarios.specs.Free.{IsFree};

use apply_plan::Entry;
use cpu_set::IdSet;
use kernel_model::{Group, Kernel};

/// Whether a hand-over of these entries may begin, as [`apply_plan::Handover::new`] requires. Each group is there once.
/// Outside the reserved CPUs the target of a pinned container meets no other. No target is empty, nor are the reserved
/// CPUs.
///
/// Looks at each target once, and compares the groups of each two of the entries. Allocates nothing.
pub fn may_begin(entries: &[Entry], reserved: &IdSet) -> bool
    ensures { IsTrue result ↔ IsHandover (record { entries = entries.now; reserved = reserved.now }) }
{
    !reserved.is_empty()
        && have_targets(entries)
        && have_other_groups(entries)
        && are_apart(entries, reserved)
}

fn have_targets(entries: &[Entry]) -> bool
    ensures { IsTrue result ↔ HaveSomeTarget entries.now }
{
    let mut rest = entries;
    while let [first, later @ ..] = rest {
        if first.target.is_empty() {
            return false;
        }
        rest = later;
    }
    true
}

fn is_among(group: Group, entries: &[Entry]) -> bool
    ensures { IsTrue (not result) ↔ AllByRecursion (λ e. same_group group e.group ≡ false) entries.now }
{
    let mut rest = entries;
    while let [first, later @ ..] = rest {
        if group == first.group {
            return true;
        }
        rest = later;
    }
    false
}

fn have_other_groups(entries: &[Entry]) -> bool
    ensures { IsTrue result ↔ Pairwise HaveOtherGroups entries.now }
{
    let mut rest = entries;
    while let [first, later @ ..] = rest {
        if is_among(first.group, later) {
            return false;
        }
        rest = later;
    }
    true
}

/// Whether outside the reserved CPUs an entry's target is apart from what those before it are to have: from all of that
/// where it is pinned, and else from what the pinned ones are to have.
fn is_free(entry: &Entry, reserved: &IdSet, any: &IdSet, pinned: &IdSet) -> bool
    ensures { IsTrue result ↔ IsFree reserved.now any.now pinned.now entry.now }
{
    let taken = if entry.pinned { any } else { pinned };
    entry.target.meet(taken).is_subset(reserved)
}

fn are_apart(entries: &[Entry], reserved: &IdSet) -> bool
    ensures { IsTrue result ↔ Pairwise (AreTargetsApart reserved.now) entries.now }
{
    let mut rest = entries;
    let mut any = IdSet::empty();
    let mut pinned = IdSet::empty();
    while let [first, later @ ..] = rest {
        if !is_free(first, reserved, &any, &pinned) {
            return false;
        }
        any = any.union(&first.target);
        if first.pinned {
            pinned = pinned.union(&first.target);
        }
        rest = later;
    }
    true
}

fn is_placed<K: Kernel>(kernel: &K, group: Group) -> bool
    ensures { IsTrue result ↔ IsPlaced (K.state kernel.now) group }
{
    group != kernel.root() && kernel.requested_cpus(group).is_ok()
}

/// Whether all groups of the entries are in the tree, and none is the root, as the calls of a hand-over require.
///
/// Allocates nothing.
pub fn are_placed<K: Kernel>(kernel: &K, entries: &[Entry]) -> bool
    ensures { IsTrue result ↔ ArePlaced (K.state kernel.now) entries.now }
{
    let mut rest = entries;
    while let [first, later @ ..] = rest {
        if !is_placed(kernel, first.group) {
            return false;
        }
        rest = later;
    }
    true
}
